//! The texts by which the document names target kinds, crate types and editions.

ghost use Rattle.std.specs.Prelude.{◌≡◌, Some, None, MatchResult};
ghost use Rattle.krates_cm.specs.Document.{id_view, source_view};
ghost use Rattle.krates_cm.specs.Names.{target_kind_named, crate_type_named, edition_named, dependency_kind_text, edition_text};
ghost use Rattle.krates_cm.specs.declared.dependency.DependencyKind.TheVariants.{Normal};
ghost use Rattle.krates_cm.specs.declared.target.Edition.TheVariants.{E2015};
ghost use Rattle.krates_cm.specs.declared.names.UnknownName.TheVariants as unknown;

use crate::dependency::DependencyKind;
use crate::package::Source;
use crate::package_id::PackageId;
use crate::target::{CrateType, Edition, TargetKind};
use std::fmt;
use std::str::FromStr;
use thiserror::Error;

/// The text isn't the name of a value of its type.
#[derive(Clone, Copy, Debug, Error)]
pub enum UnknownName {
    #[error("unknown target kind")]
    TargetKind,
    #[error("unknown crate type")]
    CrateType,
    #[error("unknown edition")]
    Edition,
}

impl FromStr for TargetKind {
    type Err = UnknownName;

    ghost from_str_gives = { λ text r. MatchResult r (λ x. target_kind_named text ≡ Some x)
        (λ e. (e ≡ unknown.TargetKind) × (target_kind_named text ≡ None)) };

    fn from_str(text: &str) -> Result<TargetKind, UnknownName> {
        match text {
            "bench" => Ok(TargetKind::Bench),
            "bin" => Ok(TargetKind::Bin),
            "custom-build" => Ok(TargetKind::CustomBuild),
            "cdylib" => Ok(TargetKind::CDyLib),
            "dylib" => Ok(TargetKind::DyLib),
            "example" => Ok(TargetKind::Example),
            "lib" => Ok(TargetKind::Lib),
            "proc-macro" => Ok(TargetKind::ProcMacro),
            "rlib" => Ok(TargetKind::RLib),
            "staticlib" => Ok(TargetKind::StaticLib),
            "test" => Ok(TargetKind::Test),
            _ => Err(UnknownName::TargetKind),
        }
    }
}

impl FromStr for CrateType {
    type Err = UnknownName;

    ghost from_str_gives = { λ text r. MatchResult r (λ x. crate_type_named text ≡ Some x)
        (λ e. (e ≡ unknown.CrateType) × (crate_type_named text ≡ None)) };

    fn from_str(text: &str) -> Result<CrateType, UnknownName> {
        match text {
            "bin" => Ok(CrateType::Bin),
            "cdylib" => Ok(CrateType::CDyLib),
            "dylib" => Ok(CrateType::DyLib),
            "lib" => Ok(CrateType::Lib),
            "proc-macro" => Ok(CrateType::ProcMacro),
            "rlib" => Ok(CrateType::RLib),
            "staticlib" => Ok(CrateType::StaticLib),
            _ => Err(UnknownName::CrateType),
        }
    }
}

impl FromStr for Edition {
    type Err = UnknownName;

    ghost from_str_gives = { λ text r. MatchResult r (λ x. edition_named text ≡ Some x)
        (λ e. (e ≡ unknown.Edition) × (edition_named text ≡ None)) };

    fn from_str(text: &str) -> Result<Edition, UnknownName> {
        match text {
            "2015" => Ok(Edition::E2015),
            "2018" => Ok(Edition::E2018),
            "2021" => Ok(Edition::E2021),
            "2024" => Ok(Edition::E2024),
            _ => Err(UnknownName::Edition),
        }
    }
}

impl Edition {
    /// The year, as the document has it. Time O(1).
    pub fn as_str(&self) -> &'static str
        ensures { result.now ≡ edition_text self.now }
    {
        match self {
            Edition::E2015 => "2015",
            Edition::E2018 => "2018",
            Edition::E2021 => "2021",
            Edition::E2024 => "2024",
        }
    }
}

impl fmt::Display for Edition {
    ghost output = { λ edition. Some (edition_text edition) };

    fn fmt<W: fmt::Write>(&self, f: &mut fmt::Formatter<W>) -> fmt::Result {
        f.write_str(self.as_str())
    }
}

/// The oldest edition.
impl Default for Edition {
    ghost is_default = { λ edition. edition ≡ E2015 };

    fn default() -> Edition {
        Edition::E2015
    }
}

impl fmt::Display for DependencyKind {
    ghost output = { λ kind. Some (dependency_kind_text kind) };

    fn fmt<W: fmt::Write>(&self, f: &mut fmt::Formatter<W>) -> fmt::Result {
        f.write_str(match self {
            DependencyKind::Normal => "normal",
            DependencyKind::Development => "dev",
            DependencyKind::Build => "build",
        })
    }
}

/// The normal kind.
impl Default for DependencyKind {
    ghost is_default = { λ kind. kind ≡ Normal };

    fn default() -> DependencyKind {
        DependencyKind::Normal
    }
}

impl fmt::Display for PackageId {
    ghost output = { λ id. Some (id_view id) };

    fn fmt<W: fmt::Write>(&self, f: &mut fmt::Formatter<W>) -> fmt::Result {
        f.write_str(self.repr.as_str())
    }
}

impl fmt::Display for Source {
    ghost output = { λ source. Some (source_view source) };

    fn fmt<W: fmt::Write>(&self, f: &mut fmt::Formatter<W>) -> fmt::Result {
        f.write_str(self.repr.as_str())
    }
}
