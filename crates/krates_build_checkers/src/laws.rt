//! Laws of accepted and closed lists, for all documents and builds. Each is the contract of a function that does nothing.
ghost use Rattle.krates_build_checkers.specs.Acceptance.{AcceptedAreRules, AcceptedFollows, AcceptedIsDerivable};
ghost use Rattle.krates_build_checkers.specs.Closedness.{ClosedHasAll, ClosedHasDerivable, FollowingIsClosed};

use krates_build_facts::laws::{meaning, steps};

/// What accepted steps give follows from the instances of rules that the tables have. If these are the tables of a document and a build, it
/// means a fact that is derivable by the rules of what cargo builds, and each step is one of these rules.
pub fn accepted_lists()
    ensures follows { AcceptedFollows }
    ensures derivable { AcceptedIsDerivable }
    ensures rules { AcceptedAreRules }
{
    steps();
    meaning();
}

/// A closed list has each fact that follows and may matter. If the tables are those of a document and a build, it has each such number of what
/// is derivable by the rules of what cargo builds. A list of all facts that follow and may matter, as `Derived::facts` of `krates_grounding`
/// gives it, is closed.
pub fn closed_lists()
    ensures all { ClosedHasAll }
    ensures derivable { ClosedHasDerivable }
    ensures following { FollowingIsClosed }
{
    meaning();
}
