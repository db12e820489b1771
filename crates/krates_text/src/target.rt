//! Targets, at which cfg expressions are asked.
ghost use Rattle.std.specs.Prelude.{◌≡◌, Some, IfOk, find, map, string_bytes};
ghost use Rattle.std.specs.Option.{option_copied, option_map};
ghost use Rattle.std.specs.Str.{bytes_eq};
ghost use Rattle.krates_text.specs.TargetTable.{table, row_of, description_of, is_described, target_of, target_named, printed};
ghost use Rattle.krates_text.specs.TableRow.{described};

use crate::copies::four_copies;
use std::alloc::{AllocError, Global};
use std::fmt;

/// What a target is, by the texts that a cfg expression compares. A caller may describe a target of its own.
#[derive(Debug, Drop)]
pub struct TargetInfo {
    /// Its triple, such as `x86_64-unknown-linux-gnu`.
    pub triple: String,
    /// What `target_arch` is compared with, such as `x86_64`.
    pub arch: String,
    /// `target_os`, such as `linux`.
    pub os: String,
    /// `target_env`, such as `gnu`; empty if there is none.
    pub env: String,
    /// `target_abi`; mostly empty.
    pub abi: String,
    /// `target_vendor`, such as `unknown`.
    pub vendor: String,
    /// `target_pointer_width`, such as `64`.
    pub pointer_width: String,
    /// `target_endian`, such as `little`.
    pub endian: String,
    /// `panic`, such as `unwind`.
    pub panic: String,
    /// `target_family`, each of them, such as `unix`.
    pub families: Vec<String>,
    /// `target_has_atomic`, each width, such as `64`.
    pub atomics: Vec<String>,
}

/// A target to build for.
#[derive(Debug, Drop)]
pub enum Target {
    /// A target that is described.
    Builtin(TargetInfo),
    /// A text about which nothing is known.
    Unknown(String),
}

impl Clone for TargetInfo {
    ghost is_clone = { λ info copy. description_of copy ≡ description_of info };

    /// A copy that describes the same. The only error is running out of memory.
    fn clone(&self) -> Result<TargetInfo, AllocError> {
        let named = four_copies(&self.triple, &self.arch, &self.os, &self.env)?;
        let told = four_copies(&self.abi, &self.vendor, &self.pointer_width, &self.endian)?;
        let panic = self.panic.clone()?;
        let families = self.families.clone()?;
        let atomics = self.atomics.clone()?;
        Ok(TargetInfo {
            triple: named.0,
            arch: named.1,
            os: named.2,
            env: named.3,
            abi: told.0,
            vendor: told.1,
            pointer_width: told.2,
            endian: told.3,
            panic,
            families,
            atomics,
        })
    }
}

impl Clone for Target {
    ghost is_clone = { λ target copy. target_of copy ≡ target_of target };

    /// A copy that is the same target. The only error is running out of memory.
    fn clone(&self) -> Result<Target, AllocError> {
        match self {
            Target::Builtin(info) => Ok(Target::Builtin(info.clone()?)),
            Target::Unknown(text) => Ok(Target::Unknown(text.clone()?)),
        }
    }
}

/// What differs between the targets of the table.
#[derive(Clone, Copy)]
struct Row {
    triple: &'static str,
    arch: &'static str,
    os: &'static str,
    env: &'static str,
    vendor: &'static str,
    family: &'static str,
    pointer_width: &'static str,
    panic: &'static str,
}

const TABLE: [Row; 7] = [
    Row {
        triple: "x86_64-unknown-linux-gnu",
        arch: "x86_64",
        os: "linux",
        env: "gnu",
        vendor: "unknown",
        family: "unix",
        pointer_width: "64",
        panic: "unwind",
    },
    Row {
        triple: "x86_64-unknown-linux-musl",
        arch: "x86_64",
        os: "linux",
        env: "musl",
        vendor: "unknown",
        family: "unix",
        pointer_width: "64",
        panic: "unwind",
    },
    Row {
        triple: "aarch64-unknown-linux-gnu",
        arch: "aarch64",
        os: "linux",
        env: "gnu",
        vendor: "unknown",
        family: "unix",
        pointer_width: "64",
        panic: "unwind",
    },
    Row {
        triple: "x86_64-pc-windows-msvc",
        arch: "x86_64",
        os: "windows",
        env: "msvc",
        vendor: "pc",
        family: "windows",
        pointer_width: "64",
        panic: "unwind",
    },
    Row {
        triple: "x86_64-apple-darwin",
        arch: "x86_64",
        os: "macos",
        env: "",
        vendor: "apple",
        family: "unix",
        pointer_width: "64",
        panic: "unwind",
    },
    Row {
        triple: "aarch64-apple-darwin",
        arch: "aarch64",
        os: "macos",
        env: "",
        vendor: "apple",
        family: "unix",
        pointer_width: "64",
        panic: "unwind",
    },
    Row {
        triple: "wasm32-unknown-unknown",
        arch: "wasm32",
        os: "unknown",
        env: "",
        vendor: "unknown",
        family: "wasm",
        pointer_width: "32",
        panic: "abort",
    },
];

/// The first of these rows with this triple.
fn find_row<'r>(rows: &'r [Row], triple: &str) -> Option<&'r Row>
    ensures { option_copied result ≡ find (λ row. bytes_eq row.triple.now triple.now) rows.now }
{
    rows.iter().find(|row| row.triple == triple)
}

/// The same, by what the rows describe.
fn described_row<'r>(rows: &'r [Row], triple: &str) -> Option<&'r Row>
    ensures { option_map (λ row. described row.now) result
        ≡ find (λ d. bytes_eq d.triple triple.now) (map described rows.now) }
{
    find_row(rows, triple)
}

/// The row of the table with this triple.
fn row_with(triple: &str) -> Option<&'static Row>
    ensures { option_map (λ row. described row.now) result ≡ row_of triple.now }
{
    described_row(&TABLE, triple)
}

impl Row {
    fn describe(&self, alloc: Global) -> Result<TargetInfo, AllocError>
        ensures { IfOk result (λ info. description_of info ≡ described self.now) }
    {
        Ok(TargetInfo {
            triple: String::from_str(alloc, self.triple)?,
            arch: String::from_str(alloc, self.arch)?,
            os: String::from_str(alloc, self.os)?,
            env: String::from_str(alloc, self.env)?,
            abi: String::new(alloc),
            vendor: String::from_str(alloc, self.vendor)?,
            pointer_width: String::from_str(alloc, self.pointer_width)?,
            endian: String::from_str(alloc, "little")?,
            panic: String::from_str(alloc, self.panic)?,
            families: strings(alloc, &[self.family])?,
            atomics: strings(alloc, &["8", "16", "32", "64", "ptr"])?,
        })
    }
}

fn strings(alloc: Global, texts: &[&str]) -> Result<Vec<String>, AllocError>
    ensures { IfOk result (λ v. map string_bytes v.items ≡ map (λ text. text.now) texts.now) }
{
    let mut all = Vec::new(alloc);
    for text in texts {
        all.push(String::from_str(alloc, *text)?)?;
    }
    Ok(all)
}

/// The description of the target with this triple, where the table of seven has it. The only error is running out of
/// memory. Time O(1).
///
/// ```text
/// let linux = builtin(alloc, "x86_64-unknown-linux-gnu")?; // Some
/// let other = builtin(alloc, "avr-unknown-gnu-atmega328")?; // None
/// ```
pub fn builtin(alloc: Global, triple: &str) -> Result<Option<TargetInfo>, AllocError>
    ensures { IfOk result (λ info. option_map description_of info ≡ row_of triple.now) }
{
    match row_with(triple) {
        Some(row) => Ok(Some(row.describe(alloc)?)),
        None => Ok(None),
    }
}

impl Target {
    /// The target that a text names: described if it is a triple of the table, and unknown otherwise. The only
    /// error is running out of memory. Time O(length).
    ///
    /// ```text
    /// let linux = Target::new(alloc, "x86_64-unknown-linux-gnu")?;
    /// assert_eq!(rt; linux.as_str(), "x86_64-unknown-linux-gnu");
    /// ```
    pub fn new(alloc: Global, text: &str) -> Result<Target, AllocError>
        ensures { IfOk result (λ target. target_of target ≡ target_named text.now) }
    {
        match builtin(alloc, text)? {
            Some(info) => Ok(Target::Builtin(info)),
            None => Ok(Target::Unknown(String::from_str(alloc, text)?)),
        }
    }

    /// Whether the target is described. At one that isn't, no predicate such as `unix` or `target_os = ".."` holds, so
    /// so a program that is given a triple should refuse it, or describe it by
    /// [`TargetInfo::from_rustc`]. Time O(1).
    ///
    /// ```text
    /// if !Target::new(alloc, triple)?.is_known() {
    ///     eprintln!(rt; "{triple}: not in the table of targets")?;
    /// }
    /// ```
    pub fn is_known(&self) -> bool
        ensures { result ≡ is_described (target_of self.now) }
    {
        matches!(self, Target::Builtin(_))
    }

    /// The triple, or the unknown text. Time O(1).
    pub fn as_str(&self) -> &str
        ensures { result.now ≡ printed (target_of self.now) }
    {
        match self {
            Target::Builtin(info) => info.triple.as_str(),
            Target::Unknown(text) => text.as_str(),
        }
    }
}

/// The triple, or the unknown text.
impl fmt::Display for Target {
    ghost output = { λ target. Some (printed (target_of target)) };

    fn fmt<W: fmt::Write>(&self, f: &mut fmt::Formatter<W>) -> fmt::Result {
        f.pad(self.as_str())
    }
}
