//! What crates need of each other, and crates, as parts of an answer that are compared with those of another.

ghost use Rattle.std.specs.Prelude.{◌≡◌, ◌∷◌, ◌++◌, [], IfOk, OnOk, map, option_map};
ghost use Rattle.krates_queries.specs.KrateNodes.{match_view};
ghost use Rattle.krates_answers.specs.Difference.{AreDependencies, dependency_view, pairs_to, parent_of as parent};

use crate::compared::Part;
use crate::pushing::{again, push};
use crate::same_package::mean_same;
use krates::{DirectDependent, KrateMatch, Krates, Package};
use std::alloc::{AllocError, Global};

/// A crate that depends directly on another, with that one.
#[derive(Debug, Drop)]
pub struct DependencyEdge<'a> {
    /// The crate that depends.
    pub parent: KrateMatch<'a, Package>,
    /// The crate on which it depends.
    pub child: KrateMatch<'a, Package>,
}

/// Crates mean the same where their packages do.
impl Part for KrateMatch<'_, Package> {
    ghost use Rattle.krates_cm.specs.Document.{text_view};
    ghost use Rattle.krates_answers.specs.SamePackage.{MeanSame};

    ghost named = { λ m. text_view m.krate.now.name };

    ghost MeansSame = { λ root m other_root n. MeanSame root m.krate.now other_root n.krate.now };

    fn name(&self) -> &str {
        self.krate.name.as_str()
    }

    fn means_same(&self, root: &str, other: &Self, other_root: &str) -> bool {
        mean_same(root, self.krate, other_root, other.krate)
    }

    fn again(&self) -> Self {
        again(self)
    }

    ghost one_name = { λ root other_root m n same. same.name };
}

/// What crates need of each other means the same where both crates do.
impl Part for DependencyEdge<'_> {
    ghost use Rattle.krates_cm.specs.Document.{text_view};
    ghost use Rattle.krates_answers.specs.Difference.{MeanSameDependency, dependency_view};

    ghost named = { λ e. text_view e.child.krate.now.name };

    ghost MeansSame = { λ root e other_root f. MeanSameDependency root (dependency_view e) other_root (dependency_view f) };

    fn name(&self) -> &str {
        self.child.krate.name.as_str()
    }

    fn means_same(&self, root: &str, other: &Self, other_root: &str) -> bool {
        mean_same(root, self.child.krate, other_root, other.child.krate)
            && mean_same(root, self.parent.krate, other_root, other.parent.krate)
    }

    fn again(&self) -> Self {
        DependencyEdge {
            parent: again(&self.parent),
            child: again(&self.child),
        }
    }

    ghost one_name = { λ root other_root e f same. same.child.name };
}

impl<'a> DependencyEdge<'a> {
    /// All direct dependencies of kept crates: by the number of the crate on which the other depends, and then by that of the other. The only
    /// refusal is running out of memory. Time O(n + e log e) for n nodes and e edges.
    ///
    /// ```text
    /// let edges = DependencyEdge::all_in(alloc, &krates)?;
    /// ```
    pub fn all_in(alloc: Global, krates: &'a Krates) -> Result<Vec<DependencyEdge<'a>>, AllocError>
        ensures { IfOk result (λ edges. AreDependencies krates.now (map dependency_view edges.items)) }
    {
        let mut edges = Vec::new(alloc);
        for child in krates.krate_nodes() {
            let dependents = krates.direct_dependents(child.node_id)?;
            push_edges(krates, &child, &dependents, &mut edges)?;
        }
        Ok(edges)
    }
}

/// A crate that depends directly on another, with its id.
fn parent_of<'a>(
    krates: &'a Krates,
    dependent: &DirectDependent<'a, Package>,
) -> Option<KrateMatch<'a, Package>>
    ensures { option_map match_view result ≡ parent krates.now dependent.now }
{
    // No `?` here: what it makes of no id would have to own references.
    let Some(kid) = krates.kid(dependent.node_id) else {
        return None;
    };
    Some(KrateMatch {
        krate: dependent.krate,
        kid,
        node_id: dependent.node_id,
    })
}

/// Adds the dependency of a crate on another.
fn push_edge<'a>(
    krates: &'a Krates,
    child: &KrateMatch<'a, Package>,
    dependent: &DirectDependent<'a, Package>,
    edges: &mut Vec<DependencyEdge<'a>>,
) -> Result<(), AllocError>
    ensures { OnOk result (map dependency_view edges.new.items ≡ map dependency_view edges.old.items
        ++ pairs_to krates.now (match_view child.now) (dependent.now ∷ [])) }
{
    let Some(parent) = parent_of(krates, dependent) else {
        return Ok(());
    };
    let child = again(child);
    push(edges, DependencyEdge { parent, child })
}

/// Adds the direct dependencies on a crate.
fn push_edges<'a>(
    krates: &'a Krates,
    child: &KrateMatch<'a, Package>,
    dependents: &[DirectDependent<'a, Package>],
    edges: &mut Vec<DependencyEdge<'a>>,
) -> Result<(), AllocError>
    ensures { OnOk result (map dependency_view edges.new.items ≡ map dependency_view edges.old.items
        ++ pairs_to krates.now (match_view child.now) dependents.now) }
{
    for dependent in dependents {
        push_edge(krates, child, dependent, edges)?;
    }
    Ok(())
}
