//! Where cargo builds something else than what the resolved graph alone keeps, which has no sides, no resolver and no request.

use crate::builds::{Needs, Units};
use krates_samples::table::hold_lines;
use std::test::Fail;

/// A document and what is asked for, and what is compiled, as in `builds`: a feature that only a dev dependency asks for counts by the first
/// resolver, and so a crate is built that it turns on.
static FIRST_RESOLVER: &str = "
a b b&dev&with=f|b c?;f=dep:c|c / nodes a b&normal&dev|b c;f|c / targets a:bin b:lib c:lib / build 1 => b/f, a Bin@linux, b Lib@linux, c Lib@linux, $
a b b&dev&with=f|b c?;f=dep:c|c / nodes a b&normal&dev|b c;f|c / targets a:bin b:lib c:lib / build 2 => a Bin@linux, b Lib@linux, $
";

/// The same: what the host alone needs isn't part of what is built for another machine.
static OTHER_MACHINE: &str = "
a b&build c&on=cfg(unix)|b|c / targets a:bin,custom-build b:lib c:lib / build 2 target=windows => a Bin@windows, b Lib@host, a script, $
a b&build c&on=cfg(unix)|b c&on=cfg(unix)|c / targets a:bin,custom-build b:lib c:lib / build 2 target=windows => a Bin@windows, b Lib@host, c Lib@host, a script, $
";

/// The same: build dependencies are those of the host, whatever is built for.
static BUILD_DEPENDENCIES: &str = "
a b&build&on=cfg(unix) c&build&on=cfg(windows)|b|c / targets a:bin,custom-build b:lib c:lib / build 2 target=windows => a Bin@windows, b Lib@host, a script, $
a b|b c&build&on=cfg(windows)|c / targets a:bin b:lib,custom-build c:lib / build 2 target=windows => a Bin@windows, b Lib@windows, b script, $
";

/// The same: an optional dependency that a feature of it turns on gives the feature of its name.
static FEATURE_OF_THE_NAME: &str = "
a b?;std=b/std b=dep:b|b;std= / targets a:lib b:lib / build 2 features=std => a/b, a/std, b/std, a Lib@linux, b Lib@linux, $
";

/// The same: in the folder of a member, and where it alone is asked for, it lacks the features that only other members turn on, though its
/// node lists them.
static MEMBER_ALONE: &str = "
a c?;f=dep:c|b a&with=f|c / nodes a c;f|b a|c / members a b / root a / targets a:lib b:lib c:lib / build 1 => a Lib@linux, $
a c?;f=dep:c|b a&with=f|c / nodes a c;f|b a|c / members a b / targets a:lib b:lib c:lib / build 2 package=a => a Lib@linux, $
a c?;f=dep:c|b a&with=f|c / nodes a c;f|b a|c / members a b / targets a:lib b:lib c:lib / build 2 => a/f, a Lib@linux, b Lib@linux, c Lib@linux, $
";

/// The same, where a build that is asked for less isn't a part of one that is asked for more: if no member is asked for, each turns on features
/// of its dependencies, and otherwise only those do that are asked for.
static LESS_WITHOUT_MEMBERS: &str = "
a c|b c&with=f|c;f= / members a b / targets a:lib b:lib c:lib / build 2 package=c => c/f, c Lib@linux, $
a c|b c&with=f|c;f= / members a b / targets a:lib b:lib c:lib / build 2 package=c,a => a Lib@linux, c Lib@linux, $
";

/// The same in the folder of `a` by the first resolver, for which `b/f` is a feature of the dependency `b` of `a`, unless the member `b` is asked
/// for too: then it is one of that member. Both are built either way.
static LESS_OF_THE_FOLDER: &str = "
a b?;y=dep:b|b;f= / members a b / root a / targets a:lib b:lib / build 1 features=b/f => b/f, a Lib@linux, b Lib@linux, $
a b?;y=dep:b|b;f= / members a b / root a / targets a:lib b:lib / build 1 package=a,b features=b/f => b/f, a Lib@linux, b Lib@linux, $
";

/// What units need in the same builds: only the one that is asked for less turns on the dependency, so that `a` needs `b` there.
static NEEDED_OF_THE_FOLDER: &str = "
a b?;y=dep:b|b;f= / members a b / root a / targets a:lib b:lib / build 1 features=b/f => a@linux>b@linux, $
a b?;y=dep:b|b;f= / members a b / root a / targets a:lib b:lib / build 1 package=a,b features=b/f =>
";

#[test]
fn the_first_resolver_counts_dev_dependencies(rt: HostRuntime) -> Result<(), Fail> {
    hold_lines::<Units>(rt.alloc(), FIRST_RESOLVER)
}

#[test]
fn another_machine_needs_nothing_of_the_host(rt: HostRuntime) -> Result<(), Fail> {
    hold_lines::<Units>(rt.alloc(), OTHER_MACHINE)
}

#[test]
fn build_dependencies_are_the_hosts(rt: HostRuntime) -> Result<(), Fail> {
    hold_lines::<Units>(rt.alloc(), BUILD_DEPENDENCIES)
}

#[test]
fn optional_dependencies_give_their_feature(rt: HostRuntime) -> Result<(), Fail> {
    hold_lines::<Units>(rt.alloc(), FEATURE_OF_THE_NAME)
}

#[test]
fn members_lack_features_of_others(rt: HostRuntime) -> Result<(), Fail> {
    hold_lines::<Units>(rt.alloc(), MEMBER_ALONE)
}

#[test]
fn fewer_packages_may_have_more_features(rt: HostRuntime) -> Result<(), Fail> {
    hold_lines::<Units>(rt.alloc(), LESS_WITHOUT_MEMBERS)
}

#[test]
fn features_of_a_member_are_enabled_either_way(rt: HostRuntime) -> Result<(), Fail> {
    hold_lines::<Units>(rt.alloc(), LESS_OF_THE_FOLDER)
}

#[test]
fn fewer_packages_may_need_more(rt: HostRuntime) -> Result<(), Fail> {
    hold_lines::<Needs>(rt.alloc(), NEEDED_OF_THE_FOLDER)
}
