//! Which features are enabled on each side, in a build of a small document.

use crate::builds::Units;
use krates_samples::table::hold_lines;
use std::test::Fail;

/// A document and what is asked for, and what is compiled with the features of each side, as in `builds`.
static ENABLED: &str = r#"
// what takes part gives features to its dependencies, on each layer (Cargo Book, "Features")
a b|b c&with=f|c;f= / targets a:bin b:lib c:lib / build 2 => c/f, a Bin@linux, b Lib@linux, c Lib@linux, $
// a feature of an optional dependency that is named turns it on, even if `dep:` hides the feature of its name
a b?;x=b/f y=dep:b|b;f= / targets a:bin b:lib / build 2 features=x => a/x, b/f, a Bin@linux, b Lib@linux, $
// a weak reference doesn't turn on what a dev dependency brings
a b? b&dev;x=b?/f y=dep:b|b;f= / nodes a b&normal&dev;x y|b;f / targets a:lib,test b:lib / build 2 features=x => a/x, a Lib@linux, $
a b? b&dev;x=b?/f y=dep:b|b;f= / nodes a b&normal&dev;x y|b;f / targets a:lib,test b:lib / build 2 features=x tests => a/x, b/f, a Lib@linux, a Test!@linux, b Lib@linux, $
// a dependency that is declared twice, and once is optional: each declaration gives its own features
a b?&on=cfg(unix)&with=x b&on=cfg(unix)&with=y;b=dep:b|b;x= y= / nodes a b&on=cfg(unix);b|b;x y / targets a:bin b:lib / build 2 => b/y, a Bin@linux, b Lib@linux, $
a b?&on=cfg(unix)&with=x b&on=cfg(unix)&with=y;b=dep:b|b;x= y= / nodes a b&on=cfg(unix);b|b;x y / targets a:bin b:lib / build 2 features=b => a/b, b/x, b/y, a Bin@linux, b Lib@linux, $
"#;

/// The same where the later resolvers tell features apart which the first one unites (Cargo Book, "Features", "Feature resolver version 2").
static DEV_AND_MACHINES: &str = "
// those of dev dependencies, unless something is asked for that has such
a b b&dev&with=f|b;f= / nodes a b&normal&dev|b;f / targets a:bin b:lib / build 2 => a Bin@linux, b Lib@linux, $
a b b&dev&with=f|b;f= / nodes a b&normal&dev|b;f / targets a:bin,test b:lib / build 2 tests => b/f, a Bin@linux, a Test!@linux, b Lib@linux, $
a b b&dev&with=f|b;f= / nodes a b&normal&dev|b;f / targets a:bin b:lib / build 1 => b/f, a Bin@linux, b Lib@linux, $
// also those that a package turns on of itself
a a&dev&with=f;f= / targets a:lib,test / build 2 => a Lib@linux, $
a a&dev&with=f;f= / targets a:lib,test / build 2 tests => a/f, a Lib@linux, a Test!@linux, $
a a&dev&with=f;f= / targets a:lib,test / build 1 => a/f, a Lib@linux, $
// those of dependencies for other machines
a b c|b;f=|c b&on=cfg(windows)&with=f / targets a:bin b:lib c:lib / build 2 => a Bin@linux, b Lib@linux, c Lib@linux, $
a b c|b;f=|c b&on=cfg(windows)&with=f / targets a:bin b:lib c:lib / build 2 target=linux target=windows => b/f, a Bin@linux, a Bin@windows, b Lib@linux, b Lib@windows, c Lib@linux, c Lib@windows, $
a b c|b;f=|c b&on=cfg(windows)&with=f / targets a:bin b:lib c:lib / build 1 => b/f, a Bin@linux, b Lib@linux, c Lib@linux, $
";

/// The same, of features of what the build itself runs.
static HOST: &str = "
// build dependencies, and what is below them
a b b&build&with=f|b;f= / nodes a b&normal&build|b;f / targets a:bin,custom-build b:lib / build 2 target=windows => b/f^, a Bin@windows, b Lib@host, b Lib@windows, a script, $
a b b&build&with=f|b;f= / nodes a b&normal&build|b;f / targets a:bin,custom-build b:lib / build 1 target=windows => b/f, a Bin@windows, b Lib@host, b Lib@windows, a script, $
a b&build c|b c&with=f|c;f= / targets a:bin,custom-build b:lib c:lib / build 2 => c/f^, a Bin@linux, b Lib@host, c Lib@host, c Lib@linux, a script, $
// also those of a package without a build script, though nothing of them is built
a b c|b c&build&with=f|c;f= / targets a:bin b:lib c:lib / build 2 => c/f^, a Bin@linux, b Lib@linux, c Lib@linux, $
a b c|b c&build&with=f|c;f= / targets a:bin b:lib c:lib / build 1 => c/f, a Bin@linux, b Lib@linux, c Lib@linux, $
// procedural macros, and what is below them
a c m|c;f=|m c&with=f / targets a:bin c:lib m:proc-macro / build 2 => c/f^, a Bin@linux, c Lib@host, c Lib@linux, m ProcMacro@host, $
a c m|c;f=|m c&with=f / targets a:bin c:lib m:proc-macro / build 1 => c/f, a Bin@linux, c Lib@host, c Lib@linux, m ProcMacro@host, $
a m;x=m/f|m;f= / targets a:bin m:proc-macro / build 2 features=x => a/x, m/f^, a Bin@linux, m ProcMacro@host, $
// a member that is a procedural macro has its features on both sides, even if an example is one alone
a c;x=c/f|c;f= / targets a:proc-macro c:lib / build 2 features=x => a/x, a/x^, c/f, c/f^, a ProcMacro@host, c Lib@host, $
a;x= / targets a:lib,macro-example / build 2 features=x => a/x, a/x^, a Lib@linux, $
// of a dependency the library alone counts
a b|b c&with=f|c;f= / targets a:bin b:lib,macro-example c:lib / build 2 => c/f, a Bin@linux, b Lib@linux, c Lib@linux, $
// a reference turns on the dependencies of its name that pass on its side: here the optional one is for the targets
a b?&on=linux b&build&on=linux;b=dep:b|b;f= / nodes a b&normal&build&on=linux|b / targets a:bin,custom-build b:lib / build 2 features=b/f => a/b, b/f, b/f^, a Bin@linux, b Lib@host, b Lib@linux, a script, $
a b?&on=linux b&build&on=linux;b=dep:b|b;f= / nodes a b&normal&build&on=linux|b / targets a:bin,custom-build b:lib / build 2 features=b/f target=windows => b/f^, a Bin@windows, b Lib@host, a script, $
";

/// The same, of targets that require features (Cargo Book, "Cargo Targets", "The `required-features` field").
static REQUIRED: &str = "
a;x= / targets a:lib,bin=x / build 2 => a Lib@linux, $
a;x= / targets a:lib,bin=x / build 2 features=x => a/x, a Lib@linux, a Bin@linux, $
a;x= / targets a:bin=x / build 2 =>
// one of a dependency, on the side on which that is
a b&with=f|b;f= / targets a:bin=b/f b:lib / build 2 => b/f, a Bin@linux, b Lib@linux, $
a b&build&with=f|b;f= / targets a:bin=b/f,custom-build b:lib / build 2 => b/f^, a Bin@linux, b Lib@host, a script, $
a m&with=f|m;f= / targets a:bin=m/f m:proc-macro / build 2 => m/f^, a Bin@linux, m ProcMacro@host, $
// but for cargo the host's where an example of it is a procedural macro, even if its library isn't
a b&with=f|b;f= / targets a:lib,bin=b/f b:lib,macro-example / build 2 => b/f, a Lib@linux, b Lib@linux, $
a b&with=f|b;f= / targets a:lib,bin=b/f b:lib,macro-example / build 1 => b/f, a Lib@linux, a Bin@linux, b Lib@linux, $
";

#[test]
fn features_are_enabled(rt: HostRuntime) -> Result<(), Fail> {
    hold_lines::<Units>(rt.alloc(), ENABLED)
}

#[test]
fn features_are_told_apart(rt: HostRuntime) -> Result<(), Fail> {
    hold_lines::<Units>(rt.alloc(), DEV_AND_MACHINES)
}

#[test]
fn the_host_has_its_own_features(rt: HostRuntime) -> Result<(), Fail> {
    hold_lines::<Units>(rt.alloc(), HOST)
}

#[test]
fn targets_require_features(rt: HostRuntime) -> Result<(), Fail> {
    hold_lines::<Units>(rt.alloc(), REQUIRED)
}
