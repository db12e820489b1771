//! Which runs of build scripts need others, in a build of a small document (Cargo Book, "Build Scripts", "The `links` Manifest Key").

use crate::builds::RunNeeds;
use krates_samples::table::hold_lines;
use std::test::Fail;

/// A document and what is asked for, as in `builds`, and each run that another needs: the crates, each with what it is run for.
static RUNS: &str = "
a b|b / targets a:bin,custom-build b:lib,custom-build,links / build 2 => a@linux>b@linux, $
// not of a crate that is for no native library
a b|b / targets a:bin,custom-build b:lib,custom-build / build 2 =>
// nor where the crate that depends on it has no build script, even if one depends on that
a b|b c|c / targets a:bin,custom-build b:lib c:lib,custom-build,links / build 2 =>
// nor over what isn't linked: a build or dev dependency, or a library for other languages
a b&build|b / targets a:bin,custom-build b:lib,custom-build,links / build 2 =>
a b&dev|b / targets a:lib!,custom-build b:lib,custom-build,links / build 2 tests =>
a b|b / targets a:bin,custom-build b:cdylib,custom-build,links / build 2 =>
// an optional dependency is needed if it is turned on, and one for a machine there
a b?;x=dep:b|b / targets a:bin,custom-build b:lib,custom-build,links / build 2 =>
a b?;x=dep:b|b / targets a:bin,custom-build b:lib,custom-build,links / build 2 features=x => a@linux>b@linux, $
a b&on=cfg(windows)|b / targets a:bin,custom-build b:lib,custom-build,links / build 2 target=linux target=windows => a@windows>b@windows, $
// a procedural macro, and what is below it, is the host's
a m|m b|b / targets a:bin,custom-build m:proc-macro,custom-build,links b:lib,custom-build,links / build 2 target=windows => a@windows>m@host, m@host>b@host, $
// a crate may be compiled for both, each time with its own features
a b m|m b&with=f|b c?;f=dep:c|c / targets a:bin m:proc-macro b:lib,custom-build c:lib,custom-build,links / build 2 => b@host>c@host, $
";

#[test]
fn runs_are_needed(rt: HostRuntime) -> Result<(), Fail> {
    hold_lines::<RunNeeds>(rt.alloc(), RUNS)
}
