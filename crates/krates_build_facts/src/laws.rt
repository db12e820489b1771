//! Laws of facts by number, for all documents and builds. Each is the contract of a function that does nothing.
ghost use Rattle.krates_build_facts.specs.Meanings.{EachHasMeaning, EachHasNumber, EachRowIsRule, FollowsAsDerivable};
ghost use Rattle.krates_build_facts.specs.Steps.{StepsAreRules, StepsAreSound};

/// From the instances of rules that tables have, exactly the facts follow that are derivable by the rules of what cargo builds, and each
/// instance is one of these rules.
pub fn meaning()
    ensures exact { FollowsAsDerivable }
    ensures sound { EachHasMeaning }
    ensures complete { EachHasNumber }
    ensures rules { EachRowIsRule }
{}

/// What the steps of a derivation give follows, and each step is one rule of what cargo builds.
pub fn steps()
    ensures sound { StepsAreSound }
    ensures rules { StepsAreRules }
{}
