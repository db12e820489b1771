//! Laws of answers about a build, for all documents and builds. Each is the contract of a function that does nothing.
ghost use Rattle.krates_build_answers.specs.BuiltMeanings.{BuiltAtIsBuilt, BuiltCratesAreBuilt};
ghost use Rattle.krates_build_answers.specs.BuiltSides.{SidesAreTold, UsesAreOf};
ghost use Rattle.krates_build_answers.specs.LinkMeanings.{LinksAreNeeds};
ghost use Rattle.krates_build_answers.specs.TwiceMeanings.{TwiceIsCompiledTwice};
ghost use Rattle.krates_build_answers.specs.Unbuilt.{UnbuiltIsNotBuilt};

use krates_build_facts::laws;

/// What is built by number is what cargo builds, crate by crate and platform by platform: a number that means a crate and a platform is built
/// exactly where cargo builds the crate for the platform, and all that cargo builds has a number in the list.
pub fn built_crates()
    ensures exact { BuiltAtIsBuilt }
    ensures whole { BuiltCratesAreBuilt }
{
    laws::meaning();
}

/// A list of what is built says of each crate whether cargo builds it for the host, for some machine, or at all.
pub fn sides()
    ensures { SidesAreTold }
{
    laws::meaning();
}

/// The uses of two builds of one document are those of what cargo builds: each crate that the second builds has one, which says for what
/// the first builds it.
pub fn uses()
    ensures { UsesAreOf }
{
    laws::meaning();
}

/// What isn't built by the tables of a document and a build, as `is_unbuilt` says without trusting what derives facts, cargo doesn't build.
pub fn unbuilt()
    ensures { UnbuiltIsNotBuilt }
{
    laws::meaning();
}

/// The links between built crates are the needs of what cargo builds: each is one, and each such need has a link.
pub fn links()
    ensures { LinksAreNeeds }
{
    laws::meaning();
}

/// The crates that are built twice by number are those that cargo compiles twice, with different features.
pub fn twice()
    ensures { TwiceIsCompiledTwice }
{
    laws::meaning();
}
