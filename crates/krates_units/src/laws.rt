//! Laws of what cargo builds, for all documents and builds. Each is the contract of a function that does nothing.
ghost use Rattle.krates_units.specs.BuildNarrowing.{IsBuildNarrowing};
ghost use Rattle.krates_units.specs.BuildReordering.{IsBuildOrderFree};
ghost use Rattle.krates_units.specs.Built.{ScriptsAreBuilt};
ghost use Rattle.krates_units.specs.KeptBuild.{BuildsEachKept, KeepsEachBuild};
ghost use Rattle.krates_units.specs.WholeSetting.{AllowsEachBuild};

/// A build script that is compiled is built for the host.
pub fn scripts_are_built()
    ensures { ScriptsAreBuilt }
{}

/// What cargo builds doesn't depend on the order in which a document lists its packages, its members, the
/// nodes of its graph, or the dependencies and features of a node. Of two documents that differ only in this,
/// the same facts have derivations for each build, the same requests name something, and cargo's answer
/// depends on the order of its visits for the same crates.
pub fn build_reordering()
    ensures { IsBuildOrderFree }
{}

/// A build that is asked for less builds a part: for fewer machines, fewer kinds of targets, fewer packages
/// or fewer features, of the same document, by the same resolver and on the same host. Each crate that it
/// builds, the other one builds for the same platform and with at least the same features. If the document
/// lacks nothing for the other one, it lacks nothing for this.
///
/// Two ways of asking for fewer packages build more, and aren't meant:
///
/// - To leave out the only member that is asked for makes a root of every member. If `c` is no member,
///   `--package c` builds it with the features that the dependencies of a member `b` give it, and
///   `--package c --package a` with those of member `a` alone.
/// - By the first resolver, in the folder of a package with an optional dependency `b` that is a member too,
///   `--features b/f` turns on that dependency. If `b` is asked for too, the feature is meant for `b` itself,
///   and the folder's package is built without the dependency.
pub fn build_narrowing()
    ensures { IsBuildNarrowing }
{}

/// The seven rules keep what cargo builds, if their setting leaves out nothing that may count for it: each
/// crate that is built, each edge over which something is needed, and each feature that a crate is built
/// with, but for the names of optional dependencies. So a crate that they don't keep isn't built.
///
/// This is told of a whole build, by each resolver, with build scripts, procedural macros and tests; and by a
/// later resolver of what is compiled for the machines that the build is for: then the setting may ignore
/// build dependencies and leave out procedural macros. It may ignore dev dependencies where they don't count.
pub fn builds_are_kept()
    ensures { KeepsEachBuild }
{}

/// Of a plain build, cargo builds for the machine exactly the crates that the seven rules keep, needs
/// something over exactly the edges that they keep, and builds each crate with at least the features that
/// they enable. A build is plain if it asks for all that they begin with, and each dependency that they may
/// keep is a normal one, passes on the machine, and is no procedural macro.
pub fn plain_builds()
    ensures { BuildsEachKept }
{}

/// Of a document that has what cargo writes into each, the setting that leaves out nothing that may count
/// allows each build of members, if the seven rules lose nothing under it: so they keep what is built.
pub fn whole_settings()
    ensures { AllowsEachBuild }
{}
