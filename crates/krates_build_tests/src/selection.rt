//! What is selected of a document: crates, edges with their places, and features, each in order; features and references by the rules.

use crate::of_selection::{OfSelection, ToldOfSelection};
use krates_cm::DependencyKind;
use krates_resolve::Selection;
use krates_samples::documents::word_of;
use krates_samples::table::hold_lines;
use krates_text::text::Text;
use std::test::Fail;

/// The name of a kind.
fn name_of(kind: DependencyKind) -> &'static str {
    match kind {
        DependencyKind::Normal => "normal",
        DependencyKind::Development => "dev",
        DependencyKind::Build => "build",
    }
}

/// The word of the kept crate with a number.
fn word_at(selection: &Selection, number: usize) -> &str {
    match selection.krates.get(number) {
        Some(krate) => word_of(krate.repr()),
        None => "?",
    }
}

/// Adds the kept crates, each after a plus sign.
fn push_krates(text: &mut Text, selection: &Selection) {
    for krate in selection.krates.as_slice() {
        write!(text, "+{}", word_of(krate.repr()));
    }
}

/// Adds the kept edges, each with its first place and that of its declared dependency.
fn push_edges(text: &mut Text, selection: &Selection) {
    for edge in selection.edges.as_slice() {
        let parent = word_at(selection, edge.parent);
        let child = word_at(selection, edge.child);
        let kind = name_of(edge.kind);
        let (place, declared) = (edge.place, edge.declared);
        write!(text, ", {parent}>{child} {kind} {place} as {declared}");
    }
}

/// The kept crates, the kept edges, and the enabled features, each after its crate.
struct Listed;

impl ToldOfSelection for Listed {
    fn push(told: &mut Text, selection: &Selection) {
        push_krates(told, selection);
        push_edges(told, selection);
        for feature in selection.features.as_slice() {
            let krate = word_at(selection, feature.krate);
            write!(told, ", {krate}/{}", feature.name);
        }
    }
}

/// What is selected of a document under the setting of its line, or the text of the refusal.
type Selected = OfSelection<Listed>;

static PLACES: &str = "
// a crate that declares another three times, last for its build, and whose node lists that for the build, for tests and for
// the build again, beside another crate that it needs and that comes first by its id
m z&dev z? z&build b|z|b / nodes m z&build&dev&build&normal b|z|b / members m => +b+m+z, m>b normal 0 as 3, m>z build 0 as 2, m>z dev 1 as 0
";

/// Which features are enabled by the rules, which edges they keep, and which are lost.
static ENABLED: &str = "
// a weak reference over an edge that another feature keeps, and over none
a b?;b=dep:b w=b?/j|b;j= => +a+b, a>b normal 0 as 0, a/b, a/w, b/j
a b?;b=dep:b w=b?/j|b;j= / nodes a b;w|b;j => +a, a/w
// a strong reference keeps the edge, and a weak one is woken by it
a b?;s=b/k w=b?/j|b;j= k= => +a+b, a>b normal 0 as 0, a/s, a/w, b/j, b/k
// both kinds of reference beside the feature that enables the crate; the crate's manifest lacks one of what its node lists
a b?;b=dep:b w=b?/j s=b/k|b;j= / nodes a b;b w s|b;j k => +a+b, a>b normal 0 as 0, a/b, a/s, a/w, b/j, b/k
// features by use, and the default one
a b!&with=j|b;default=j j= => +a+b, a>b normal 0 as 0, b/default, b/j
a b!|b => +a+b, a>b normal 0 as 0
a b!&with=default|b / nodes a b|b;default => +a+b, a>b normal 0 as 0, b/default
// a feature without a manifest entry, and one that names a crate that isn't a dependency
a / nodes a;x => +a, a/x
a;x=nope/y => +a, a/x
// one feature of a crate enables another, also in a circle
a;x=y y=z z= => +a, a/x, a/y, a/z
a;f=g g=f => +a, a/f, a/g
// lost features
a b;x=b/nope|b => lost feature: nope of path+file:///w/b#0.1.0
// the least of two versions lists it, and the other doesn't
a d?;x=d/j|d@0.10.0;j=|d@0.9.0 / nodes a d@0.10.0 d@0.9.0;x|d@0.10.0;j|d@0.9.0 => +a+d@0.10.0, a>d@0.10.0 normal 0 as 0, a/x, d@0.10.0/j
a d?;x=d/j|d@0.10.0;j=|d@0.9.0 / nodes a d@0.10.0 d@0.9.0;x|d@0.10.0;j|d@0.9.0 / names all => lost feature: j of path+file:///w/d#d@0.9.0
a;x=y / nodes a;x => lost feature: y of path+file:///w/a#0.1.0
a b&with=z|b => lost feature: z of path+file:///w/b#0.1.0
a b;w=b?/j|b => lost feature: j of path+file:///w/b#0.1.0
// of an excluded crate
a b;x=b/nope|b / without b => +a, a/x
// where each name has one meaning, it is the same whether a name means the least or all
a b?;s=b/k w=b?/j|b;j= k= / names all => +a+b, a>b normal 0 as 0, a/s, a/w, b/j, b/k
a b? b&dev;w=b?/j|b;j= / nodes a b&normal&dev;w|b;j / names all => +a+b, a>b dev 1 as 1, a/w, b/j
a md-5?;x=md-5/std|md-5&lib=md5;std= / nodes a md-5&as=md5;x|md-5;std / names all => +a+md-5, a>md-5 normal 0 as 0, a/x, md-5/std
a;x=nope/y / names all => +a, a/x
a / nodes a;x / names all => +a, a/x
a b!|b / names all => +a+b, a>b normal 0 as 0
a;x=y / nodes a;x / names all => lost feature: y of path+file:///w/a#0.1.0
a b&with=z|b / names all => lost feature: z of path+file:///w/b#0.1.0
a b;x=b/nope|b / names all => lost feature: nope of path+file:///w/b#0.1.0
";

/// Which dependency a feature reference means: the least by id or all, also by the name of its library, and over edges of any kind.
static MEANT: &str = "
// a member that needs a crate twice, optional as a normal dependency and not optional as one for development
a b? b&dev;w=b?/j|b;j= / nodes a b&normal&dev;w|b;j => +a+b, a>b dev 1 as 1, a/w, b/j
// a crate whose library has another name, by which the node knows it
a md-5?;x=md-5/std|md-5&lib=md5;std= / nodes a md-5&as=md5;x|md-5;std => +a+md-5, a>md-5 normal 0 as 0, a/x, md-5/std
// two versions of a crate; in the order of ids, by bytes, the one that is listed first comes last
a d;x=d/f|d@0.9.0;f=|d@0.10.0;f= / nodes a d@0.9.0 d@0.10.0;x|d@0.9.0;f|d@0.10.0;f => +a+d@0.10.0+d@0.9.0, a>d@0.10.0 normal 0 as 0, a>d@0.9.0 normal 0 as 0, a/x, d@0.10.0/f
// all versions, where a name means all
a d;x=d/f|d@0.9.0;f=|d@0.10.0;f= / nodes a d@0.9.0 d@0.10.0;x|d@0.9.0;f|d@0.10.0;f / names all => +a+d@0.10.0+d@0.9.0, a>d@0.10.0 normal 0 as 0, a>d@0.9.0 normal 0 as 0, a/x, d@0.10.0/f, d@0.9.0/f
// a feature that enables a dependency for development
a b&dev;x=b/y|b;y= => +a+b, a>b dev 0 as 0, a/x, b/y
// of an ignored kind
a b&dev;x=b/y|b;y= / ignore dev all => +a, a/x
";

#[test]
fn selections(rt: HostRuntime) -> Result<(), Fail> {
    hold_lines::<Selected>(rt.alloc(), PLACES)?;
    hold_lines::<Selected>(rt.alloc(), ENABLED)?;
    hold_lines::<Selected>(rt.alloc(), MEANT)
}
