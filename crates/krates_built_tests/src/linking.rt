//! Which dependencies exist, in a build of a small document: each row is answered otherwise without one of the rules that say so.

use crate::builds::Units;
use krates_samples::table::hold_lines;
use std::test::Fail;

/// A document and what is asked for, and what is compiled, as in `builds`.
static LINKED: &str = r#"
// what exists is met, and has dependencies in its turn (Cargo Book, "Dependency Resolution")
a b|b c|c / targets a:bin b:lib c:lib / build 2 => a Bin@linux, b Lib@linux, c Lib@linux, $
// an optional dependency exists if it is turned on (Cargo Book, "Features", "Optional dependencies")
a b?;x=dep:b|b / targets a:bin b:lib / build 2 => a Bin@linux, $
a b?;x=dep:b|b / targets a:bin b:lib / build 2 features=x => a/x, a Bin@linux, b Lib@linux, $
a b?;x=dep:b|b / targets a:bin b:lib / build 2 all-features => a/x, a Bin@linux, b Lib@linux, $
// by a feature that another lists
a b?;x=y y=dep:b|b / targets a:bin b:lib / build 2 features=x => a/x, a/y, a Bin@linux, b Lib@linux, $
// by the default features, which a build may go without (Cargo Book, "Features", "The `default` feature")
a b?;default=dep:b|b / targets a:bin b:lib / build 2 => a/default, a Bin@linux, b Lib@linux, $
a b?;default=dep:b|b / targets a:bin b:lib / build 2 no-default-features => a Bin@linux, $
// by a feature of it that is named, which turns on the feature of its name too, and what that lists
a b?;x=b/f b=dep:b|b;f= / targets a:bin b:lib / build 2 features=x => a/b, a/x, b/f, a Bin@linux, b Lib@linux, $
a b? c?;x=b/f b=dep:b,dep:c|b;f=|c / targets a:bin b:lib c:lib / build 2 features=x => a/b, a/x, b/f, a Bin@linux, b Lib@linux, c Lib@linux, $
// what that feature of it turns on exists too, whether it is named by a feature or on the command line
a b;x=b/f|b c?;f=dep:c|c / targets a:bin b:lib c:lib / build 2 features=x => a/x, b/f, a Bin@linux, b Lib@linux, c Lib@linux, $
a b|b c?;f=dep:c|c / targets a:bin b:lib c:lib / build 2 features=b/f => b/f, a Bin@linux, b Lib@linux, c Lib@linux, $
// and what is turned on by a feature that the dependency gives, or by those that it uses by default
a b&with=f|b c?;f=dep:c|c / targets a:bin b:lib c:lib / build 2 => b/f, a Bin@linux, b Lib@linux, c Lib@linux, $
a b!|b c?;default=dep:c|c / targets a:bin b:lib c:lib / build 2 => b/default, a Bin@linux, b Lib@linux, c Lib@linux, $
a b|b c?;default=dep:c|c / targets a:bin b:lib c:lib / build 2 => a Bin@linux, b Lib@linux, $
// a weak reference turns nothing on; where something else does, it names a feature as any other
a b?;x=b?/f|b;f= / targets a:bin b:lib / build 2 features=x => a/x, a Bin@linux, $
a b?;x=b?/f y=dep:b|b c?;f=dep:c|c / targets a:bin b:lib c:lib / build 2 features=x,y => a/x, a/y, b/f, a Bin@linux, b Lib@linux, c Lib@linux, $
// a member that is a dependency too has no dev dependencies as such, though a feature of it that turns something on there is enabled
a d&dev;f=d/x|b a&with=f|d e?;x=dep:e|e / members a b / targets a:lib,test b:lib d:lib e:lib / build 2 tests => a/f, d/x, a Lib@linux, a Test!@linux, d Lib@linux, $
a d&dev;f=d/x|b a&with=f|d e?;x=dep:e|e / members a b / targets a:lib,test b:lib d:lib e:lib / build 2 tests features=a/f => a/f, d/x, a Lib@linux, a Test!@linux, d Lib@linux, e Lib@linux, $
// two versions of a package are two crates, of which the new name of a dependency tells one
a c c@2.0.0&as=d;f=d/x|c|c@2.0.0 e?;x=dep:e|e / targets a:bin c:lib e:lib / build 2 features=f => a/f, c/x, a Bin@linux, c Lib@linux, c Lib@linux, e Lib@linux, $
a b?&as=c;x=c/f c=dep:c|b;f= / targets a:bin b:lib / build 2 features=x => a/c, a/x, b/f, a Bin@linux, b Lib@linux, $
// otherwise code calls a dependency by the name of its library, and so does the document
a b|b&lib=c / nodes a b&as=c|b / targets a:bin / build 2 => a Bin@linux, b Lib@linux, $
a b&as=d;x=d/f|b&lib=c;f= / targets a:bin / build 2 features=x => a/x, b/f, a Bin@linux, b Lib@linux, $
"#;

/// The same where the document lacks edges, and what is lost by this.
static LOST: &str = "
a b|b / nodes a|b / targets a:bin b:lib / build 2 => lost b of a, a Bin@linux, $
// an optional dependency is lost if it is turned on
a b?;x=dep:b|b / nodes a;x|b / targets a:bin b:lib / build 2 => a Bin@linux, $
a b?;x=dep:b|b / nodes a;x|b / targets a:bin b:lib / build 2 features=x => lost b of a, a/x, a Bin@linux, $
// a dev dependency of a root is lost, even if nothing that is asked for has it; that of a dependency isn't
a b&dev|b / nodes a|b / targets a:bin b:lib / build 2 => lost b of a, a Bin@linux, $
a b|b c&dev|c / nodes a b|b|c / targets a:bin b:lib c:lib / build 2 => a Bin@linux, b Lib@linux, $
// cargo writes no edge and no package where a package has no library
a b c|c / nodes a c|c / targets a:bin c:lib / build 2 => lost b of a, a Bin@linux, c Lib@linux, $
";

#[test]
fn dependencies_are_linked(rt: HostRuntime) -> Result<(), Fail> {
    hold_lines::<Units>(rt.alloc(), LINKED)
}

#[test]
fn dependencies_are_lost(rt: HostRuntime) -> Result<(), Fail> {
    hold_lines::<Units>(rt.alloc(), LOST)
}
