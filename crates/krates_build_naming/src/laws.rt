//! A law of words and the facts that they name, for all documents and builds: the contract of a function that does nothing.
ghost use Rattle.krates_build_naming.specs.NamedFacts.{FactsAreExact};

/// Some fault is true of words exactly where they name no fact: so a refusal names a true fault, and words of which a fault is true are
/// refused.
pub fn faults_are_exact()
    ensures { FactsAreExact }
{}
