//! Laws of verdicts about builds, for all documents and builds. Each is the contract of a function that does nothing.

ghost use Rattle.krates_build_verdict.specs.BuildTruth.{CompiledIsAmong, FollowsIsDerivable, ScriptIsAmong};

use krates_build_facts::laws::meaning;

/// What a verdict says is true of the document and the build, whoever made the certificate: the fact that follows is derivable by the rules of
/// what cargo builds, and no crate is built by these rules except those that were counted.
pub fn verdicts_are_true()
    ensures follows { FollowsIsDerivable }
    ensures compiled { CompiledIsAmong }
    ensures scripts { ScriptIsAmong }
{
    meaning();
}
