//! Which crates a build keeps of a document, which it reports, and why it is refused.

ghost use Rattle.std.specs.Prelude.{◌≡◌, None, ⊤};

use crate::builders::builder_of;
use crate::of_graph::{OfGraph, Told, push_features, push_marked, push_number};
use crate::real_documents::metadata_of;
use krates::cm::Metadata;
use krates::{Builder, Error, Krates, OnFilter, Package};
use krates_samples::documents::{kid_of, word_of};
use krates_samples::table::{Tell, hold_lines};
use krates_text::text::Text;
use std::test::Fail;

/// Adds a package after a mark: its name, and its word or id where that is another.
pub(crate) fn push_package(text: &mut Text, mark: &str, pkg: &Package) {
    push_marked(text, mark, pkg.name.as_str());
    let word = word_of(pkg.id.repr.as_str());
    if word != pkg.name.as_str() {
        push_marked(text, "=", word);
    }
}

/// The packages that aren't kept, each after a minus sign.
#[derive(Drop)]
pub(crate) struct Reported {
    pub(crate) text: Text,
}

impl OnFilter for Reported {
    ghost filters = { λ _ _ _. ⊤ };

    fn filtered(&mut self, pkg: Package) {
        push_package(&mut self.text, "-", &pkg);
        drop(pkg);
    }
}

/// Adds the kept crates in order, each after a plus sign.
pub(crate) fn push_krates(text: &mut Text, krates: &Krates) {
    for krate in krates.krates() {
        push_package(text, "+", krate);
    }
}

/// Adds what a build kept and then what it reported, each in order, or the text of the refusal.
pub(crate) fn push_built(told: &mut Text, built: &Result<Krates, Error>, reported: &Reported) {
    match built {
        Ok(krates) => {
            push_krates(told, krates);
            told.push_str(reported.text.as_str())
        }
        Err(error) => write!(told, "{error}"),
    }
}

/// Adds what a builder without an index keeps and reports.
pub(crate) fn push_outcome(told: &mut Text, builder: Builder, metadata: Box<Metadata>)
    requires no_index { builder.index ≡ None }
{
    let text = Text::new(told.allocator());
    let mut reported = Reported { text };
    let metadata = Box::into_inner(metadata);
    let built: Result<Krates, Error> = builder.build_with_metadata(metadata, &mut reported);
    push_built(told, &built, &reported);
}

/// What is kept and reported of a document under the setting of its line.
pub(crate) struct Built;

impl Tell for Built {
    fn tell(told: &mut Text, line: &str) -> Result<(), Fail> {
        let metadata = metadata_of(told.allocator(), line)?;
        let builder = builder_of(told.allocator(), line)?;
        push_outcome(told, builder, metadata);
        Ok(())
    }
}

static BUILT: &str = "
// what is needed is kept, and what isn't is reported
a b|b => +a+b
a b|b|c => +a+b-c
// in the order of the ids, whatever the order of the document
d|c|b|a b / nodes c|b|a b|d => +a+b-c-d
// a cycle, a member that is listed twice, and a node that no crate needs and that has no package
a b|b a => +a+b
a b|b / members a a => +a+b
a b|b / nodes a b|b|c => +a+b
// an optional edge isn't kept, even where a weak reference alone leads over it
a b?|b => +a-b
a b?;b=dep:b w=b?/j|b;j= / nodes a b;w|b;j => +a-b
// the root, where there is one, and not the members
a|b / members a b / root b => +b-a
// what is refused
a|b / nodes b => lost node: path+file:///w/a#0.1.0
b / nodes a|b => lost package: path+file:///w/a#0.1.0
a b|b / nodes a b => lost node: path+file:///w/b#0.1.0
a b / nodes a b|b => lost package: path+file:///w/b#0.1.0
a|b / nodes a b|b => undeclared dependency: path+file:///w/b#0.1.0 of path+file:///w/a#0.1.0
a|b / members => no root crates available
a|a / nodes a => doubled id: path+file:///w/a#0.1.0
// the first class that is true counts: a member that isn't an id, or a lost root, comes after a missing graph or a doubled id
a|a / members x&id=x / no graph => no resolution graph was provided
b|b / nodes b => doubled id: path+file:///w/b#0.1.0
";

/// Adds how many crates are kept, or the text of the refusal.
pub(crate) fn push_count(told: &mut Text, built: &Result<Krates, Error>) {
    match built {
        Ok(krates) => write!(told, "{} kept", krates.len()),
        Err(error) => write!(told, "{error}"),
    }
}

/// Adds the number of a crate and its enabled features, or that there is none.
fn push_answers(text: &mut Text, krates: &Krates, name: &str) -> Result<(), Fail> {
    write!(text, ", {name} is ");
    let kid = kid_of(text.allocator(), name)?;
    push_number(text, krates.nid_for_kid(&kid));
    let features = krates.get_enabled_features(&kid);
    push_features(text, features, "", " without features");
    Ok(())
}

/// How many crates are kept in which workspace, and the number and the enabled features of `a`, `b` and `c`.
struct Queried;

impl Told<Package> for Queried {
    fn push(text: &mut Text, krates: &Krates, _line: &str) -> Result<(), Fail> {
        write!(text, "{} of {}", krates.len(), krates.workspace_root());
        for name in &["a", "b", "c"] {
            push_answers(text, krates, name)?;
        }
        Ok(())
    }
}

static QUERIES: &str = "
c|b|a b / nodes a b|b|c => 2 of /w, a is 0, b is 1, c is none without features
// `b` brings the optional dependency of that name, and `w` enables its feature `j`; `c` isn't needed
a b?;w=b?/j b=dep:b|b;j= k=|c;x= / nodes a b;w b|b;j|c;x => 2 of /w, a is 0+b+w, b is 1+j, c is none without features
";

#[test]
fn kept_and_reported_or_refused_and_queried(rt: HostRuntime) -> Result<(), Fail> {
    hold_lines::<Built>(rt.alloc(), BUILT)?;
    hold_lines::<OfGraph<Queried>>(rt.alloc(), QUERIES)
}
