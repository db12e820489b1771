//! Laws of the drawn graph, for all documents and settings. Each is the contract of a function that does nothing.
ghost use Rattle.krates_drawing.specs.Agreement.{DependenciesAgree};
ghost use Rattle.krates_drawing.specs.Alike.{IsDrawnAlike, IsOutlineThere};
ghost use Rattle.krates_drawing.specs.Connected.{AreConnected};
ghost use Rattle.krates_drawing.specs.Ends.{EndsStand};
ghost use Rattle.krates_drawing.specs.Narrower.{NarrowerDrawsNoMore};
ghost use Rattle.krates_drawing.specs.Rebuilding.{FilteredHoldsRebuild};

use krates_rules::laws;
use krates_text::laws as texts;

/// Every crate that is kept by a build which ignores one more kind is reached from kept members without edges of that kind,
/// where the graph has no root or one of the members; and no other, where no feature is enabled and each member is a root.
pub fn filtered_holds_rebuild()
    ensures { FilteredHoldsRebuild }
{
    laws::narrowing();
}

/// Where no two crates have kept edges of a crate with one declared dependency, the crate's mapping names exactly the crates
/// into which its edges lead.
pub fn dependencies_agree()
    ensures { DependenciesAgree }
{}

/// Each edge that is drawn leads from a node to a node.
pub fn ends_stand()
    ensures { EndsStand }
{}

/// Of documents that differ in order alone, the same graph is drawn: the same nodes with the same numbers and mappings, and the
/// same edges.
pub fn drawn_alike()
    ensures { IsDrawnAlike }
{
    laws::reordering();
    texts::one_reference();
}

/// What is an outline of one of two documents that differ in order alone is an outline of the other.
pub fn outline_there()
    ensures { IsOutlineThere }
{
    laws::reordering();
}

/// Under a setting that leaves out more, a part of the crates, edges and features is kept, and no more nodes and edges are drawn.
pub fn narrower_draws_no_more()
    ensures { NarrowerDrawsNoMore }
{
    laws::narrowing();
    texts::one_reference();
}

/// What the mapping of a crate names is a crate, and an edge leads from the first into it or into a feature of it; from each
/// feature an edge leads to its crate; and a crate's node has the crate's number.
pub fn connected()
    ensures { AreConnected }
{}
