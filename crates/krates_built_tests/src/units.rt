//! Which units are compiled, and what for, in a build of a small document.

use crate::builds::{Needs, Units};
use krates_samples::table::hold_lines;
use std::test::Fail;

/// A document and what is asked for, and what is compiled, as in `builds`.
static COMPILED: &str = r#"
// what a program needs is for the machine that it is for (Cargo Book, "cargo build")
a b|b / targets a:bin b:lib / build 2 => a Bin@linux, b Lib@linux, $
a b|b / targets a:bin b:lib / build 2 target=windows => a Bin@windows, b Lib@windows, $
// a machine that is asked for again is one all the same, and they come in the order in which they were asked for first
a / targets a:bin / build 2 target=windows target=linux target=windows => a Bin@windows, a Bin@linux, $
// a target text holds at the machine that the unit is for (Cargo Book, "Platform specific dependencies")
a b&on=cfg(windows)|b / targets a:bin b:lib / build 2 => a Bin@linux, $
a b&on=cfg(windows)|b / targets a:bin b:lib / build 2 target=linux target=windows => a Bin@linux, a Bin@windows, b Lib@windows, $
// or is its triple
a b&on=linux c&on=windows|b|c / targets a:bin b:lib c:lib / build 2 => a Bin@linux, b Lib@linux, $
// a dependency that passes nowhere may be needed by another
a b? c&on=cfg(not(all()));x=dep:b|b c|c / targets a:bin b:lib c:lib / build 2 => a Bin@linux, $
a b? c&on=cfg(not(all()));x=dep:b|b c|c / targets a:bin b:lib c:lib / build 2 features=x => a/x, a Bin@linux, b Lib@linux, c Lib@linux, $
// a dependency may be a library for other languages
a b|b c|c / targets a:bin b:cdylib c:lib / build 2 => a Bin@linux, b CDyLib@linux, c Lib@linux, $
"#;

/// The same of what the build itself runs.
static RUN_BY_THE_BUILD: &str = r#"
// a build script and what it needs are the host's (Cargo Book, "Build Scripts")
a b&build|b c|c / targets a:bin,custom-build b:lib c:lib / build 2 target=windows => a Bin@windows, b Lib@host, c Lib@host, a script, $
// a target text of a build dependency, or of what is below it, holds at the host
a b&build&on=cfg(windows)|b / targets a:bin,custom-build b:lib / build 2 target=windows => a Bin@windows, a script, $
a b&build|b c&on=cfg(unix) d&on=cfg(windows)|c|d / targets a:bin,custom-build b:lib c:lib d:lib / build 2 target=windows => a Bin@windows, b Lib@host, c Lib@host, a script, $
// without a build script nothing needs its dependencies
a b&build|b / targets a:bin b:lib / build 2 => a Bin@linux, $
// and a build script needs no others
a b|b / targets a:lib,custom-build b:lib / build 2 target=windows => a Lib@windows, b Lib@windows, a script, $
// a procedural macro is the host's, and so is all below it (Rust Reference, "Procedural Macros")
a m|m c|c / targets a:bin m:proc-macro c:lib / build 2 target=windows => a Bin@windows, c Lib@host, m ProcMacro@host, $
// a build script there has the features of the host's side
a m|m b|b c&build|c / targets a:bin m:proc-macro b:lib,custom-build c:lib / build 2 target=windows => a Bin@windows, b Lib@host, c Lib@host, m ProcMacro@host, b script^, $
a m|m b&build|b / targets a:bin m:proc-macro,custom-build b:lib / build 2 target=windows => a Bin@windows, b Lib@host, m ProcMacro@host, m script^, $
// a crate may be compiled for both, each time with its own optional dependencies
a b m|m b&with=f|b c?;f=dep:c|c / targets a:bin m:proc-macro b:lib c:lib / build 2 => b/f^, a Bin@linux, b Lib@host, b Lib@linux, c Lib@host, m ProcMacro@host, $
a b m|m b&with=f|b c?;f=dep:c|c / targets a:bin m:proc-macro b:lib c:lib / build 1 => b/f, a Bin@linux, b Lib@host, b Lib@linux, c Lib@host, c Lib@linux, m ProcMacro@host, $
// and so may its build script
a b m|m b&with=f|b c?&build;f=dep:c|c / targets a:bin m:proc-macro b:lib,custom-build c:lib / build 2 => b/f^, a Bin@linux, b Lib@host, b Lib@linux, c Lib@host, m ProcMacro@host, b script, b script^, $
a b&with=f|b c?&build;f=dep:c|c / targets a:bin b:lib,custom-build c:lib / build 2 => b/f, a Bin@linux, b Lib@linux, c Lib@host, b script, $
a b|b c?&build;f=dep:c|c / targets a:bin b:lib,custom-build c:lib / build 2 => a Bin@linux, b Lib@linux, b script, $
"#;

/// The same of the targets of one package (Cargo Book, "Cargo Targets", and "cargo build", "Target Selection").
static BESIDE: &str = r#"
// what isn't a library needs that of its package, even if it isn't asked for
a / targets a:lib,bin / build 2 bins => a Lib@linux, a Bin@linux, $
a / targets a:lib,bin / build 2 lib => a Lib@linux, $
// one for other languages it doesn't need
a / targets a:cdylib,bin / build 2 bins => a Bin@linux, $
// and a procedural macro for the host
a / targets a:proc-macro,bin / build 2 bins target=windows => a ProcMacro@host, a Bin@windows, $
// an example that is a procedural macro is the host's, and what it needs
a b|b / targets a:lib,macro-example b:lib / build 2 examples target=windows => a Lib@host, a Example@host, b Lib@host, $
// tests have dev dependencies, and so have examples (Cargo Book, "Specifying Dependencies", "Development dependencies")
a b&dev|b / targets a:lib!,bin b:lib / build 2 => a Lib@linux, a Bin@linux, $
a b&dev|b / targets a:lib!,bin b:lib / build 2 tests => a Lib!@linux, b Lib@linux, $
a b&dev|b / targets a:lib,example b:lib / build 2 examples => a Lib@linux, a Example@linux, b Lib@linux, $
// tests run the programs of their package, and need these (Cargo Book, "Cargo Targets", "Integration tests")
a b&dev|b / targets a:lib,bin,test b:lib / build 2 tests => a Lib@linux, a Bin@linux, a Test!@linux, b Lib@linux, $
// if the features are there that they require
a;x= / targets a:lib,bin=x,test / build 2 tests => a Lib@linux, a Test!@linux, $
a;x= / targets a:lib,bin=x,test / build 2 tests features=x => a/x, a Lib@linux, a Bin@linux, a Test!@linux, $
// examples run none
a / targets a:bin,example / build 2 examples => a Example@linux, $
// benchmarks run them too, and libraries and programs may have some
a / targets a:lib,bin,bench / build 2 benches => a Lib@linux, a Lib!@linux, a Bin@linux, a Bin!@linux, a Bench!@linux, $
a / targets a:lib,bin!,example,test / build 2 all-targets => a Lib@linux, a Lib!@linux, a Bin@linux, a Bin!@linux, a Example@linux, a Test!@linux, $
"#;

/// A document and what is asked for, and what units need over the dependencies of their crates, and for what.
static NEEDED: &str = "
a b|b c|c / targets a:bin b:lib c:lib / build 2 => a@linux>b@linux, b@linux>c@linux, $
a m b&build|m c|c|b / targets a:bin,custom-build m:proc-macro c:lib b:lib / build 2 target=windows => a@windows>m@host, a@host>b@host, m@host>c@host, $
// an optional dependency is needed on the side on which it is turned on
a b m|m b&with=f|b c?;f=dep:c|c / targets a:bin m:proc-macro b:lib c:lib / build 2 => a@linux>b@linux, a@linux>m@host, b@host>c@host, m@host>b@host, $
a b m|m b&with=f|b c?;f=dep:c|c / targets a:bin m:proc-macro b:lib c:lib / build 1 => a@linux>b@linux, a@linux>m@host, b@host>c@host, b@linux>c@linux, m@host>b@host, $
";

#[test]
fn units_are_compiled(rt: HostRuntime) -> Result<(), Fail> {
    hold_lines::<Units>(rt.alloc(), COMPILED)
}

#[test]
fn the_build_runs_units(rt: HostRuntime) -> Result<(), Fail> {
    hold_lines::<Units>(rt.alloc(), RUN_BY_THE_BUILD)
}

#[test]
fn targets_need_others_of_their_package(rt: HostRuntime) -> Result<(), Fail> {
    hold_lines::<Units>(rt.alloc(), BESIDE)
}

#[test]
fn units_are_needed(rt: HostRuntime) -> Result<(), Fail> {
    hold_lines::<Needs>(rt.alloc(), NEEDED)
}
