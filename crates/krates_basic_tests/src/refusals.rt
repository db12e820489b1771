//! What each refusal prints. Those of cfg expressions, ids, specifications and JSON values are beside the texts that are
//! refused with them.

use crate::ids::kid;
use krates_cm::{Error as MetadataError, ReadError, UnknownName};
use krates_ids::{Error, Kid, Lost};
use krates_samples::table::{Question, Tell, compare, hold_lines};
use krates_text::text::Text;
use std::alloc::Global;
use std::test::Fail;
use std::{io, str};

/// Refusals of a build by their names, and what each prints.
static OF_BUILDS: &str = "
NoResolveGraph => no resolution graph was provided
Metadata => features given twice
NoRootKrates => no root crates available
InvalidId => invalid package id: a b
Doubled => doubled id: path+file:///w/a#0.1.0
Package => lost package: path+file:///w/a#0.1.0
Node => lost node: path+file:///w/a#0.1.0
Feature => lost feature: f of path+file:///w/a#0.1.0
Undeclared => undeclared dependency: path+file:///w/b#0.1.0 of path+file:///w/a#0.1.0
TooMany => too many nodes or edges
Memory => out of memory
";

/// Refusals of metadata by their names, and what each prints.
static OF_METADATA: &str = "
CargoMetadata => `cargo metadata` exited with an error: no manifest
NoJson => could not find any json in the output of `cargo metadata`
FeaturesTwice => features given twice
NoManifestParent => manifest path without parent
Memory => out of memory
";

/// Those whose cause comes from the library, and how what each prints begins.
static OF_CAUSES: &str = "
Io => failed to start `cargo metadata`: $
Utf8 => cannot convert the stdout of `cargo metadata`: $
ErrUtf8 => cannot convert the stderr of `cargo metadata`: $
";

/// The failure where there is no refusal of this name.
fn no_refusal(name: &str) -> Fail {
    Fail::new(format_args!("no refusal {name}"))
}

/// A dependency that a package doesn't declare.
fn undeclared(alloc: Global, krate: Kid) -> Result<Lost, Fail> {
    let dep = kid(alloc, "path+file:///w/b#0.1.0")?;
    Ok(Lost::Undeclared { krate, dep })
}

/// What a package lacks, or an error of a name that is none.
fn lost(alloc: Global, name: &str) -> Result<Lost, Fail> {
    let krate = kid(alloc, "path+file:///w/a#0.1.0")?;
    match name {
        "Package" => Ok(Lost::Package(krate)),
        "Node" => Ok(Lost::Node(krate)),
        "Feature" => {
            let name = String::from_str(alloc, "f")?;
            Ok(Lost::Feature { krate, name })
        }
        "Undeclared" => undeclared(alloc, krate),
        _ => Err(no_refusal(name)),
    }
}

/// The refusal of a build with this name.
fn of_build(alloc: Global, name: &str) -> Result<Error, Fail> {
    match name {
        "NoResolveGraph" => Ok(Error::NoResolveGraph),
        "Metadata" => Ok(Error::Metadata(MetadataError::FeaturesTwice)),
        "NoRootKrates" => Ok(Error::NoRootKrates),
        "InvalidId" => Ok(Error::InvalidId(String::from_str(alloc, "a b")?)),
        "Doubled" => Ok(Error::Doubled(kid(alloc, "path+file:///w/a#0.1.0")?)),
        "TooMany" => Ok(Error::TooMany),
        "Memory" => Ok(Error::Memory),
        _ => Ok(Error::Lost(lost(alloc, name)?)),
    }
}

/// The refusal of bytes that aren't a text.
fn not_utf8(is_of_errors: bool) -> MetadataError {
    match str::from_utf8(b"\xff") {
        Err(error) if is_of_errors => MetadataError::ErrUtf8(error),
        Err(error) => MetadataError::Utf8(error),
        Ok(_) => MetadataError::NoJson,
    }
}

/// The refusal of metadata with this name.
fn of_metadata(alloc: Global, name: &str) -> Result<MetadataError, Fail> {
    match name {
        "CargoMetadata" => Ok(MetadataError::CargoMetadata {
            stderr: String::from_str(alloc, "no manifest")?,
        }),
        "Io" => Ok(MetadataError::Io(io::Error::other("no cargo"))),
        "Utf8" => Ok(not_utf8(false)),
        "ErrUtf8" => Ok(not_utf8(true)),
        "NoJson" => Ok(MetadataError::NoJson),
        "FeaturesTwice" => Ok(MetadataError::FeaturesTwice),
        "NoManifestParent" => Ok(MetadataError::NoManifestParent),
        "Memory" => Ok(MetadataError::Memory),
        _ => Err(no_refusal(name)),
    }
}

/// What the refusal of a build with this name prints.
struct OfBuild;

impl Tell for OfBuild {
    fn tell(told: &mut Text, name: &str) -> Result<(), Fail> {
        let refusal = of_build(told.allocator(), name)?;
        write!(told, "{refusal}");
        Ok(())
    }
}

/// What the refusal of metadata with this name prints.
struct OfMetadata;

impl Tell for OfMetadata {
    fn tell(told: &mut Text, name: &str) -> Result<(), Fail> {
        let refusal = of_metadata(told.allocator(), name)?;
        write!(told, "{refusal}");
        Ok(())
    }
}

/// What the refusal prints up to the first colon and the space after that, where it has one.
struct Begun;

impl Tell for Begun {
    fn tell(told: &mut Text, name: &str) -> Result<(), Fail> {
        let printed = OfMetadata::told(told.allocator(), name)?;
        match printed.split_once(": ") {
            Some((begun, _)) => write!(told, "{begun}: "),
            None => told.push_str(printed.as_str()),
        }
        Ok(())
    }
}

#[test]
fn refusals_of_builds_of_metadata_and_of_names(rt: HostRuntime) -> Result<(), Fail> {
    hold_lines::<OfBuild>(rt.alloc(), OF_BUILDS)?;
    hold_lines::<OfMetadata>(rt.alloc(), OF_METADATA)?;
    hold_lines::<Begun>(rt.alloc(), OF_CAUSES)?;
    let told = format!(in rt.alloc();
        "{} | {} | {} | {}",
        UnknownName::TargetKind,
        UnknownName::CrateType,
        UnknownName::Edition,
        ReadError::Memory
    )?;
    let expected = "unknown target kind | unknown crate type | unknown edition | out of memory";
    compare("names", told.as_str(), expected)
}
