//! Laws of what is built, for all documents and builds. Each is the contract of a function that does nothing.
ghost use Rattle.krates_built.specs.BuiltBy.{ListsAreBuilt};

use krates_build_facts::laws;

/// The lists of what follows from the tables of a document and a build are exactly what is derivable: each place means a unit, a build script, a
/// run, a need of a library or of a run, or a feature that is derivable, and each of these that is derivable has a place.
pub fn lists_are_built()
    ensures { ListsAreBuilt }
{
    laws::meaning();
}
