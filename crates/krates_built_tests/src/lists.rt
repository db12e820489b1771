//! What cargo builds for a small document, list by list, or why it isn't said.

use crate::builds::{Told, name_of, push_edge, push_platform, push_side, push_unit};
use crate::of_build::{OfBuild, OfUnits, ToldOfUnits};
use krates_built::Units;
use krates_samples::table::hold_lines;
use krates_text::text::Text;
use std::alloc::AllocError;
use std::test::Fail;

/// A document and what is asked for, as in `builds`; and each list in its order, or the refusal.
static LISTS: &str = "
a b&build c|b|c;f= / targets a:bin,custom-build b:lib c:lib / build 2 target=windows features=c/f => c/f, | a Bin@windows, b Lib@host, c Lib@windows, | a script, | a@windows, | a@host>b@host, a@windows>c@windows, | $
a b|b / targets a:bin,custom-build b:lib,custom-build,links / build 2 => | a Bin@linux, b Lib@linux, | a script, b script, | a@linux, b@linux, | a@linux>b@linux, | a@linux>b@linux, $
// a request that names nothing is refused, as cargo does
a;x= / targets a:bin / build 2 features=x,y => no package that is asked for has the feature `y`
a / targets a:bin / build 2 package=b => no package fits `b`
// what the document lacks is named: the first by crate and place
a b c|b|c / nodes a|b|c / targets a:bin b:lib c:lib / build 2 => the document has no edge for `b`, on which path+file:///w/a#0.1.0 depends
// a lost dependency that the build doesn't need is none
a b?|b / nodes a|b / targets a:bin b:lib / build 2 => | a Bin@linux, | | | | $
// one build script, with the dependencies of the side that cargo meets first (tried: it depends on the name of the member `o`)
o p&build|p a?&build;on=dep:a|a;x= / members o p / targets o:lib,custom-build p:lib,custom-build a:lib / build 2 features=a/x => what the build script of path+file:///w/p#0.1.0 depends on is a matter of cargo's order
// with one set of features there is one answer
o p&build|p a?&build;on=dep:a|a;x= / members o p / targets o:lib,custom-build p:lib,custom-build a:lib / build 1 features=a/x => a/x, | a Lib@host, o Lib@linux, p Lib@host, p Lib@linux, | o script, p script, p script^, | o@linux, p@host, p@linux, | o@host>p@host, p@host>a@host, | $
";

/// Writes what is between lists.
fn push_bar(told: &mut Text) {
    told.push_str("| ");
}

/// Writes the features, with `?` where one isn't among those of its crate and side.
fn push_features(told: &mut Text, of: Told<'_, '_>, built: &Units<'_>) -> Result<(), AllocError> {
    for feature in built.features() {
        let names = built.features_of(told.allocator(), feature.krate, feature.side)?;
        write!(
            told,
            "{}/{}",
            name_of(of.document, feature.krate),
            feature.name
        );
        if !names.as_slice().contains(&feature.name) {
            told.push_str("?");
        }
        push_side(told, feature.side);
    }
    push_bar(told);
    Ok(())
}

/// Writes the units and the build scripts.
fn push_compiled(told: &mut Text, of: Told<'_, '_>, built: &Units<'_>) {
    for unit in built.units() {
        push_unit(told, of, *unit);
    }
    push_bar(told);
    for script in built.scripts() {
        write!(told, "{} script", name_of(of.document, script.krate));
        push_side(told, script.side);
    }
    push_bar(told);
}

/// Writes the runs, the needs, and the runs that runs need.
fn push_edges(told: &mut Text, of: Told<'_, '_>, built: &Units<'_>) {
    for run in built.runs() {
        told.push_str(name_of(of.document, run.krate));
        push_platform(told, of, run.placement.platform);
        told.push_str(", ");
    }
    push_bar(told);
    for need in built.needs() {
        push_edge(
            told,
            of,
            need.link,
            need.from,
            need.library.placement.platform,
        );
    }
    push_bar(told);
    for need in built.run_needs() {
        push_edge(told, of, need.link, need.from.platform, need.run.platform);
    }
}

/// The lists of a build.
struct Lists;

impl ToldOfUnits for Lists {
    fn push(told: &mut Text, of: Told<'_, '_>, units: &Units<'_>) -> Result<(), AllocError> {
        push_features(told, of, units)?;
        push_compiled(told, of, units);
        push_edges(told, of, units);
        Ok(())
    }
}

#[test]
fn builds_are_listed(rt: HostRuntime) -> Result<(), Fail> {
    hold_lines::<OfBuild<OfUnits<Lists>>>(rt.alloc(), LISTS)
}
