//! Kinds of dependencies, and which of them are ignored.

ghost use Rattle.std.specs.Prelude.{◌≡◌, ◌↔◌, IsTrue, Some, true, false};
ghost use Rattle.krates_rules.specs.Kind.{kind_of, kind_text, has_kind, ignores, HasOneMore, IgnoresMore};

use krates_cm::DependencyKind;
use std::fmt;

/// The kind of a dependency: what it is needed for (Cargo Book, "Specifying Dependencies").
#[derive(Clone, Copy, Debug, PartialEq, Eq, PartialOrd, Ord)]
pub enum DepKind {
    /// For the package itself.
    Normal,
    /// For the build script.
    Build,
    /// For tests, examples and benchmarks.
    Dev,
}

impl DepKind {
    /// Whether this is the kind that the document writes.
    ///
    /// Time: O(1).
    pub fn is(self, kind: DependencyKind) -> bool
        ensures { IsTrue result ↔ (self ≡ kind_of kind) }
    {
        self == DepKind::from(kind)
    }
}

impl From<DependencyKind> for DepKind {
    ghost from_gives = { λ written kind. kind ≡ kind_of written };

    fn from(kind: DependencyKind) -> DepKind {
        match kind {
            DependencyKind::Normal => DepKind::Normal,
            DependencyKind::Build => DepKind::Build,
            DependencyKind::Development => DepKind::Dev,
        }
    }
}

impl fmt::Display for DepKind {
    ghost output = { λ kind. Some (kind_text kind) };

    fn fmt<W: fmt::Write>(&self, f: &mut fmt::Formatter<W>) -> fmt::Result {
        f.pad(match self {
            DepKind::Normal => "",
            DepKind::Build => "build",
            DepKind::Dev => "dev",
        })
    }
}

/// Whose dependencies a setting applies to.
#[derive(Clone, Copy, Debug)]
pub enum Scope {
    /// Those of the members of the workspace.
    Workspace,
    /// Those of all other crates.
    NonWorkspace,
    /// Those of every crate.
    All,
}

/// A set of kinds: those whose field is true.
#[derive(Clone, Copy, Debug)]
pub struct KindSet {
    /// Whether it has the kind `Normal`.
    pub normal: bool,
    /// Whether it has the kind `Build`.
    pub build: bool,
    /// Whether it has the kind `Dev`.
    pub dev: bool,
}

/// The set without a kind.
pub const NO_KINDS: KindSet = KindSet {
    normal: false,
    build: false,
    dev: false,
};

impl KindSet {
    /// The set with one more kind.
    fn with(self, kind: DepKind) -> KindSet
        ensures { HasOneMore self result kind }
    {
        KindSet {
            normal: self.normal || kind == DepKind::Normal,
            build: self.build || kind == DepKind::Build,
            dev: self.dev || kind == DepKind::Dev,
        }
    }

    /// Whether the kind is in the set.
    fn has(self, kind: DepKind) -> bool
        ensures { result ≡ has_kind self kind }
    {
        match kind {
            DepKind::Normal => self.normal,
            DepKind::Build => self.build,
            DepKind::Dev => self.dev,
        }
    }
}

/// The kinds of the dependencies that are ignored.
#[derive(Clone, Copy, Debug)]
pub struct IgnoredKinds {
    /// Where a member of the workspace has them.
    pub of_members: KindSet,
    /// Where another crate has them.
    pub of_others: KindSet,
}

impl IgnoredKinds {
    /// Those, and this kind in the scope. Time O(1).
    pub fn with(self, kind: DepKind, scope: Scope) -> IgnoredKinds
        ensures { IgnoresMore self result kind scope }
    {
        let IgnoredKinds {
            of_members,
            of_others,
        } = self;
        match scope {
            Scope::Workspace => IgnoredKinds {
                of_members: of_members.with(kind),
                of_others,
            },
            Scope::NonWorkspace => IgnoredKinds {
                of_members,
                of_others: of_others.with(kind),
            },
            Scope::All => IgnoredKinds {
                of_members: of_members.with(kind),
                of_others: of_others.with(kind),
            },
        }
    }

    /// Whether dependencies of this kind are ignored, if a member of the workspace has them, or if another crate does.
    /// Time O(1).
    pub fn has(self, kind: DepKind, is_member: bool) -> bool
        ensures { result ≡ ignores self kind is_member }
    {
        if is_member {
            self.of_members.has(kind)
        } else {
            self.of_others.has(kind)
        }
    }
}
