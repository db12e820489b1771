//! Why it isn't said what cargo builds, of what a build derives.
ghost use Rattle.std.specs.Prelude.{ℕ, MatchOption, map};
ghost use Rattle.krates_cm.specs.Document.{DependencyModel, PackageModel, package_view};
ghost use Rattle.krates_build_tables.specs.CrateParts.{AreTablesOf};
ghost use Rattle.krates_built.specs.BuildLists.{IsListed};
ghost use Rattle.krates_built.specs.OrderAt.{DependsAt};
ghost use Rattle.krates_built.specs.Refusals.{IsLostOf, IsPackageAt, IsRefusalAt, LosesNothing, TellsLost};
ghost use Rattle.krates_questions.specs.Lookup.{resolved_view};
ghost use Rattle.krates_rules.specs.Resolved.{id_of};
ghost use Rattle.krates_units.specs.BuildSetting.{BuildSettingModel};

use crate::listed::Listed;
use crate::not_built::NotBuilt;
use crate::places::LostPlace;
use crate::visit_order::first_dependent;
use krates_build_facts::laws;
use krates_build_tables::Tables;
use krates_cm::Package;
use krates_questions::Document;

/// Why it isn't said what a build of the document builds; none where it is.
pub(crate) fn refusal<'a>(document: &Document<'a>, listed: &Listed<'a>) -> Option<NotBuilt<'a>>
    requires tables { (s : BuildSettingModel) × AreTablesOf (resolved_view document.now) s
        (map id_of document.now.ids.now.table.ids.items) listed.now.derived }
    requires listed { IsListed listed.now }
    ensures { MatchOption result
        (LosesNothing listed.now.derived × ((krate : ℕ) → ¬ DependsAt listed.now.derived krate))
        (IsRefusalAt (resolved_view document.now)
        (map id_of document.now.ids.now.table.ids.items) listed.now.derived) }
{
    laws::meaning();
    if let Some(place) = listed.lists.lost.first() {
        return Some(lost_at(document, listed.derived.tables(), *place));
    }
    let krate = first_dependent(listed)?;
    let package = package_at(document, krate);
    Some(NotBuilt::DependsOnOrder { package })
}

/// The refusal that names the dependency at that place.
fn lost_at<'a>(document: &Document<'a>, tables: &Tables<'a>, place: LostPlace) -> NotBuilt<'a>
    requires { (pkg : PackageModel) × (d : DependencyModel) × IsLostOf (resolved_view document.now)
        (map id_of document.now.ids.now.table.ids.items) tables.now place pkg d }
    ensures { TellsLost (resolved_view document.now) (map id_of document.now.ids.now.table.ids.items)
        tables.now place result }
{
    NotBuilt::Lost {
        package: package_at(document, place.krate),
        dependency: tables.crates[place.krate].lacking[place.index].declared,
    }
}

/// The package of the crate with that number.
fn package_at<'a>(document: &Document<'a>, number: usize) -> &'a Package
    requires { (pkg : PackageModel) × IsPackageAt (resolved_view document.now)
        (map id_of document.now.ids.now.table.ids.items) number pkg }
    ensures { IsPackageAt (resolved_view document.now)
        (map id_of document.now.ids.now.table.ids.items) number (package_view result.now) }
{
    let krate = &document.crate_ids()[number];
    let Some(package) = document.package_of(krate) else {
        unreachable!()
    };
    package
}
