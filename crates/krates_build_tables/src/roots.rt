//! Which crates have their features resolved as those of roots (Cargo Book, "Features", "Feature resolver version 2").
ghost use Rattle.std.specs.Prelude.{◌≡◌, ◌↔◌, IsTrue, option_map};
ghost use Rattle.krates_questions.specs.Lookup.{resolved_view};
ghost use Rattle.krates_units.specs.BuildSetting.{build_setting_view};
ghost use Rattle.krates_units.specs.Requests.{AsksAlike};
ghost use Rattle.krates_build_tables.specs.RequestsFlags.{NoneSelected, kind_by, root_kind};

use crate::selection::CrateFlags;
use krates_questions::Document;
use krates_units::{BuildSetting, Resolver};

/// Why the features of a crate are resolved as those of a root.
#[derive(Clone, Copy, Debug, PartialEq, Eq)]
pub(crate) enum RootAs {
    /// It is a selected member, and members are asked alike.
    Alike,
    /// It is a member, and none is selected.
    Unselected,
    /// It is the package of the folder of the build.
    Current,
    /// It is another member that is selected.
    Other,
}

/// Whether members are asked alike.
pub(crate) fn asks_alike(document: &Document<'_>, setting: &BuildSetting) -> bool
    ensures { IsTrue result ↔ AsksAlike (resolved_view document.now) (build_setting_view setting.now) }
{
    match setting.resolver {
        Resolver::V1 => document.graph_root().is_none(),
        Resolver::V2 | Resolver::V3 => true,
    }
}

/// Whether no member is selected.
pub(crate) fn selects_no_member(flags: &[CrateFlags<'_>]) -> bool
    ensures { IsTrue result ↔ NoneSelected flags.now }
{
    for krate in flags {
        if krate.is_member && krate.is_selected {
            return false;
        }
    }
    true
}

/// Why the crate is a root, where members are asked alike or not, and none of them is selected or some is; none if it isn't a root.
pub(crate) fn root_as(alike: bool, none_selected: bool, krate: &CrateFlags<'_>) -> Option<RootAs>
    ensures { option_map root_kind result ≡ kind_by alike none_selected krate.now }
{
    let is_selected_member = krate.is_member && krate.is_selected;
    if !alike && krate.is_current {
        return Some(RootAs::Current);
    }
    if is_selected_member {
        return if alike {
            Some(RootAs::Alike)
        } else {
            Some(RootAs::Other)
        };
    }
    if alike && none_selected && krate.is_member {
        return Some(RootAs::Unselected);
    }
    None
}
