//! Which crates are roots, and what is requested of each, in a build of a small document.

use crate::builds::Units;
use krates_samples::table::hold_lines;
use std::test::Fail;

/// A document and what is asked for, and what is compiled with which features, as in `builds`: where each member that is asked for is asked
/// alike, since the resolver is a later one, or the folder has no package (Cargo Book, "Features", "Command-line feature options").
static ALIKE: &str = "
// only what is asked for is built
a|b / members a b / targets a:lib b:lib / build 2 => a Lib@linux, b Lib@linux, $
a|b / members a b / targets a:lib b:lib / build 2 package=b => b Lib@linux, $
a|b / members a b / root a / targets a:lib b:lib / build 2 => a Lib@linux, $
a|b / members a b / root a / targets a:lib b:lib / build 2 workspace => a Lib@linux, b Lib@linux, $
// each member takes of what is asked for what it has, and no more
a;x=|b;x= y= / members a b / targets a:lib b:lib / build 2 features=a/x,y => a/x, b/y, a Lib@linux, b Lib@linux, $
a;default= x=|b;default= / members a b / targets a:lib b:lib / build 2 no-default-features features=x => a/x, a Lib@linux, b Lib@linux, $
a;x= y= / targets a:lib / build 2 all-features => a/x, a/y, a Lib@linux, $
// a member that isn't asked for asks for nothing
a c;x=c/f|b c;x=|c;f= / members a b / root a / targets a:lib b:lib c:lib / build 2 package=b features=x => b/x, b Lib@linux, c Lib@linux, $
// but where no member is asked for, cargo takes each of them with its default features
a b&with=f;default= x=|b;f= / targets a:lib b:lib / build 2 package=b => a/default, b/f, b Lib@linux, $
";

/// The same in the folder of `a` with the first resolver: this is a root, with all that isn't for another member.
static OF_THE_FOLDER: &str = "
// even if another is asked for
a c;x=c/f|b c|c;f= / members a b / root a / targets a:lib b:lib c:lib / build 1 package=b features=x => a/x, c/f, b Lib@linux, c Lib@linux, $
// a feature of another is under its name
a|b;x= / members a b / root a / targets a:lib b:lib / build 1 workspace features=b/x => b/x, a Lib@linux, b Lib@linux, $
// each other has its default features, whatever is asked of `a`
a;default=|b;default= / members a b / root a / targets a:lib b:lib / build 1 workspace no-default-features => b/default, a Lib@linux, b Lib@linux, $
// and all of them, if all are asked for
a;x=|b;y= / members a b / root a / targets a:lib b:lib / build 1 workspace all-features => a/x, b/y, a Lib@linux, b Lib@linux, $
// a member that isn't asked for is no root
a c|b c&with=f;default=|c;f= / members a b / root a / targets a:lib b:lib c:lib / build 1 => a Lib@linux, c Lib@linux, $
";

#[test]
fn members_are_asked_alike(rt: HostRuntime) -> Result<(), Fail> {
    hold_lines::<Units>(rt.alloc(), ALIKE)
}

#[test]
fn the_folder_is_asked_first(rt: HostRuntime) -> Result<(), Fail> {
    hold_lines::<Units>(rt.alloc(), OF_THE_FOLDER)
}
