//! Why a node is there, and all that is kept as facts.

ghost use Rattle.std.specs.Prelude.{◌≡◌, All, IfOk};
ghost use Rattle.krates_rules.specs.StepParts.{HaveOwnFacts};
ghost use Rattle.krates_rules.specs.StepViews.{facts_view};
ghost use Rattle.krates_selection.specs.KeptFacts.{HasTheseIds, facts_in, subject_view};
ghost use Rattle.krates_queries.specs.Kept.{ids_of};
ghost use Rattle.krates_queries.specs.Why.{TellsWhy, node_says, steps_of};

use crate::kept::Krates;
use crate::numbers::{lent_ids, node_at};
use krates_drawing::node::Node;
use krates_graph::graph::NodeId;
use krates_rules::{Derivation, Fact};
use krates_selection::{CrateOrFeature, Explanation, step_of};
use std::alloc::AllocError;

impl<N, E> Krates<N, E> {
    /// Why a node is there: a list of steps that ends in its crate or its feature, each with its rule, its fact, and the
    /// numbers of the steps that it uses. `Some` exactly for a node.
    ///
    /// No fact occurs twice, and each step but the last is used by a later one. Ids are those of the kept crates, with their
    /// texts. The list is accepted by `derive::check` for the document and the setting of the build. If there are several, it is
    /// not specified which derivation it is.
    ///
    /// The only error is running out of memory. Time O(n) in the facts of the build.
    ///
    /// ```text
    /// if let Some(derivation) = krates.why(node)? {
    ///     println!(rt; "{} steps", derivation.steps.len())?;
    /// }
    /// ```
    pub fn why(&self, node: NodeId) -> Result<Option<Derivation>, AllocError>
        ensures { IfOk result (TellsWhy self.now node) }
    {
        let Some(there) = node_at(self.nodes(), node.index()) else {
            return Ok(None);
        };
        let subject = subject_of(node.index(), there);
        let steps = self.steps();
        let Some(number) = step_of(steps, &subject) else {
            unreachable!()
        };
        let kids = lent_ids(self.alloc(), self.nodes())?;
        let explanation = Explanation { kids: &kids, steps };
        let derivation = explanation.derivation_of(self.alloc(), number)?;
        Ok(Some(derivation))
    }

    /// All that is kept, as facts, each once: the crates, the edges, the enabled features, and the features that other crates'
    /// features enable. For a build these are exactly the derivable facts, so `derive::check_closed` accepts the
    /// list for its document and setting. Ids are those of the kept crates, with their texts.
    ///
    /// Each fact comes after those from which it was found to follow. The only error is running out of memory. Time O(n) in
    /// the facts.
    ///
    /// ```text
    /// println!(rt; "{} facts", krates.facts()?.len())?;
    /// ```
    pub fn facts(&self) -> Result<Vec<Fact>, AllocError>
        ensures facts { IfOk result (λ facts. facts_view facts.items ≡ facts_in (steps_of self.now)) }
        ensures once { HaveOwnFacts (steps_of self.now) }
        ensures ids { IfOk result (λ facts. All (HasTheseIds (ids_of self.now)) facts.items) }
    {
        let steps = self.steps();
        let kids = lent_ids(self.alloc(), self.nodes())?;
        let explanation = Explanation { kids: &kids, steps };
        explanation.facts(self.alloc())
    }
}

/// What the node with a number says.
fn subject_of<N>(number: usize, node: &Node<N>) -> CrateOrFeature<'_>
    ensures { subject_view result ≡ node_says number node.now }
{
    match node {
        Node::Krate { .. } => CrateOrFeature::Crate(number),
        Node::Feature { krate_index, name } => CrateOrFeature::Feature(
            krate_index.index(),
            name.as_str(),
        ),
    }
}
