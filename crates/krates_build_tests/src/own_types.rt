//! Builds with types of a caller's own instead of packages and edges, and with a closure as the filter.

ghost use Rattle.std.specs.Prelude.{◌≡◌, None, ⊤};
ghost use Rattle.krates_cm.specs.Document.{text_view};

use crate::builders::builder_of;
use crate::of_graph::{OfGraph, Told};
use krates::cm::Metadata;
use krates::semver::Version;
use krates::{
    Builder, Edge, Error, FilterFn, FromEdge, FromPackage, KrateDetails, Krates, Package,
};
use krates_samples::documents::{metadata, section, word_of};
use krates_samples::table::{Tell, hold_lines};
use krates_text::text::Text;
use std::alloc::{AllocError, Global};
use std::mem;
use std::test::Fail;

/// The name of a package, and the path of its manifest, which is what its owner calls it. There is no room for a package `z`.
#[derive(Drop)]
pub(crate) struct Named {
    pub(crate) name: String,
    manifest: String,
    version: Version,
}

impl Named {
    /// The name of this package and the path of its manifest, which are taken out of it.
    fn taken_from(alloc: Global, pkg: &mut Package) -> Result<Named, AllocError> {
        if pkg.name.as_str() == "z" {
            return Err(AllocError);
        }
        let version = pkg.version.clone()?;
        let name = mem::replace(&mut pkg.name, String::new(alloc));
        let manifest = mem::replace(&mut pkg.manifest_path, String::new(alloc));
        Ok(Named {
            name,
            manifest,
            version,
        })
    }
}

impl FromPackage for Named {
    ghost made_from = { λ _ _. ⊤ };

    fn from_package(alloc: Global, mut pkg: Package) -> Result<Named, AllocError> {
        let named = Named::taken_from(alloc, &mut pkg);
        drop(pkg);
        named
    }
}

impl KrateDetails for Named {
    ghost name_of = { λ named. text_view named.manifest };

    ghost version_of = { λ named. named.version };

    fn name(&self) -> &str {
        self.manifest.as_str()
    }

    fn version(&self) -> &Version {
        &self.version
    }
}

/// Whether an edge says that a crate depends on a crate.
#[derive(Drop)]
struct IsDependency {
    is: bool,
}

impl FromEdge for IsDependency {
    ghost made_from_edge = { λ _ _. ⊤ };

    fn from_edge(_alloc: Global, edge: Edge) -> Result<IsDependency, AllocError> {
        Ok(IsDependency {
            is: matches!(edge, Edge::Dep { .. }),
        })
    }
}

/// Builds the graph of a document, and passes the names of the packages that aren't kept to a closure, which gathers them.
fn built(
    builder: Builder,
    metadata: Metadata,
    names: &mut String,
) -> Result<Krates<Named, IsDependency>, Error>
    requires no_index { builder.index ≡ None }
{
    let mut filter = FilterFn(|pkg: Package| {
        let _ = names.push_str(pkg.name.as_str());
        drop(pkg);
    });
    builder.build_with_metadata(metadata, &mut filter)
}

/// Adds the names of the kept crates.
fn push_names(text: &mut Text, krates: &Krates<Named, IsDependency>) {
    for krate in krates.krates() {
        text.push_str(krate.name.as_str());
    }
}

/// Adds the names of the kept crates, and then whether each edge is a dependency.
fn push_krates(text: &mut Text, krates: &Krates<Named, IsDependency>) {
    push_names(text, krates);
    for edge in krates.graph().raw_edges() {
        text.push_str(if edge.weight.is { ">" } else { ":" });
    }
}

/// The names of the kept crates, whether each edge is a dependency, or the refusal; and then the names that a closure was given.
struct Own;

impl Tell for Own {
    fn tell(told: &mut Text, line: &str) -> Result<(), Fail> {
        let alloc = told.allocator();
        let metadata = metadata(alloc, line)?;
        let builder = builder_of(alloc, line)?;
        let mut names = String::new(alloc);
        match built(builder, metadata, &mut names) {
            Ok(krates) => push_krates(told, &krates),
            Err(error) => write!(told, "{error}"),
        }
        write!(told, ", closure {names}");
        Ok(())
    }
}

static OWN: &str = "
a b|b|c|d / nodes a b|b|c|d => ab>, closure cd
a b;x=|b|c / nodes a b;x|b => ab>:, closure c
a b&dev|b|c => ab>, closure c
// no room for a kept package: nothing was reported
a z|c|z => out of memory, closure $
// no room is needed for a package that isn't kept
a|z => a, closure z
// whatever the refusal, the closure wasn't called
a|c / no graph => no resolution graph was provided, closure $
a|c / members a &id=x / no graph => no resolution graph was provided, closure $
a|c / members a &id=x => invalid package id: x, closure $
a|a|c / nodes => doubled id: path+file:///w/a#0.1.0, closure $
a b|c / nodes a b => lost package: path+file:///w/b#0.1.0, closure $
a|c / members => no root crates available, closure $
a|c / nodes a|a => doubled id: path+file:///w/a#0.1.0, closure $
a b|b|c / nodes a b b|b => doubled id: path+file:///w/b#0.1.0, closure $
// two commits of one source
fuser&id=fuser~0.4.1~(git+https://github.com/cberner/fuser?branch=master#b2e7622942e52a28ffa85cdaf48e28e982bb6923)|fuser&id=fuser~0.4.1~(git+https://github.com/cberner/fuser?branch=master#3900e8ae5bd5e8e9bb0b0bd2a4b4ee3d7f0c2d11)|c / nodes => doubled id: fuser 0.4.1 (git+https://github.com/cberner/fuser?branch=master#3900e8ae5bd5e8e9bb0b0bd2a4b4ee3d7f0c2d11), closure $
a|c / nodes a b@1 => invalid package id: path+file:///w/b#b@1, closure $
// a feature that is required and isn't listed, with a package that nobody needs and without
a b;x=b/nope|b => lost feature: nope of path+file:///w/b#0.1.0, closure $
a b;x=b/nope|b|c => lost feature: nope of path+file:///w/b#0.1.0, closure $
// two versions, of which the least lists it: the other is reported, and where the name means both, nothing is
a d?;x=d/j|d@0.10.0;j=|d@0.9.0 / nodes a d@0.10.0 d@0.9.0;x|d@0.10.0;j|d@0.9.0 => ad>::::, closure d
a d?;x=d/j|d@0.10.0;j=|d@0.9.0 / nodes a d@0.10.0 d@0.9.0;x|d@0.10.0;j|d@0.9.0 / names all => lost feature: j of path+file:///w/d#d@0.9.0, closure $
a d?;x=d/j|c|d@0.10.0;j=|d@0.9.0 / nodes a d@0.10.0 d@0.9.0;x|d@0.10.0;j|d@0.9.0 / names all => lost feature: j of path+file:///w/d#d@0.9.0, closure $
";

/// The crates that are found by the name in the section `ask`.
struct Called;

impl Told<Named> for Called {
    fn push(text: &mut Text, krates: &Krates<Named>, line: &str) -> Result<(), Fail> {
        for found in krates.krates_by_name(section(line, "ask ").unwrap_or("")) {
            let word = word_of(found.kid.repr());
            write!(text, " {}={word}", found.node_id.index());
        }
        Ok(())
    }
}

static CALLED: &str = "
// a crate is found by what its owner calls it, and not by the name of its package or of its id
a b|b / ask /w/b/Cargo.toml =>  1=b
a b|b / ask b =>
// two versions, which are called alike
a d|d@0.10.0|d@0.9.0 / nodes a d@0.10.0 d@0.9.0|d@0.10.0|d@0.9.0 / ask /w/d/Cargo.toml =>  1=d@0.10.0 2=d@0.9.0
";

#[test]
fn own_types(rt: HostRuntime) -> Result<(), Fail> {
    hold_lines::<Own>(rt.alloc(), OWN)?;
    hold_lines::<OfGraph<Called, Named>>(rt.alloc(), CALLED)
}
