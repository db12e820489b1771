//! Targets: the table row by row, and how a target is printed.

use crate::rustc_cfg::target_of;
use krates_samples::table::{Tell, hold_lines};
use krates_text::target::{Target, builtin};
use krates_text::text::Text;
use std::alloc::{AllocError, Global};
use std::test::Fail;

/// A triple and the description of its target, with each of its fields.
static DESCRIBED: &str = r#"
x86_64-unknown-linux-gnu => TargetInfo { triple: "x86_64-unknown-linux-gnu", arch: "x86_64", os: "linux", env: "gnu", abi: "", vendor: "unknown", pointer_width: "64", endian: "little", panic: "unwind", families: ["unix"], atomics: ["8", "16", "32", "64", "ptr"] }
x86_64-unknown-linux-musl => TargetInfo { triple: "x86_64-unknown-linux-musl", arch: "x86_64", os: "linux", env: "musl", abi: "", vendor: "unknown", pointer_width: "64", endian: "little", panic: "unwind", families: ["unix"], atomics: ["8", "16", "32", "64", "ptr"] }
aarch64-unknown-linux-gnu => TargetInfo { triple: "aarch64-unknown-linux-gnu", arch: "aarch64", os: "linux", env: "gnu", abi: "", vendor: "unknown", pointer_width: "64", endian: "little", panic: "unwind", families: ["unix"], atomics: ["8", "16", "32", "64", "ptr"] }
x86_64-pc-windows-msvc => TargetInfo { triple: "x86_64-pc-windows-msvc", arch: "x86_64", os: "windows", env: "msvc", abi: "", vendor: "pc", pointer_width: "64", endian: "little", panic: "unwind", families: ["windows"], atomics: ["8", "16", "32", "64", "ptr"] }
x86_64-apple-darwin => TargetInfo { triple: "x86_64-apple-darwin", arch: "x86_64", os: "macos", env: "", abi: "", vendor: "apple", pointer_width: "64", endian: "little", panic: "unwind", families: ["unix"], atomics: ["8", "16", "32", "64", "ptr"] }
aarch64-apple-darwin => TargetInfo { triple: "aarch64-apple-darwin", arch: "aarch64", os: "macos", env: "", abi: "", vendor: "apple", pointer_width: "64", endian: "little", panic: "unwind", families: ["unix"], atomics: ["8", "16", "32", "64", "ptr"] }
wasm32-unknown-unknown => TargetInfo { triple: "wasm32-unknown-unknown", arch: "wasm32", os: "unknown", env: "", abi: "", vendor: "unknown", pointer_width: "32", endian: "little", panic: "abort", families: ["wasm"], atomics: ["8", "16", "32", "64", "ptr"] }
x86_64 => no row
"#;

/// Texts, and a copy of the target of each, with each of its fields; with `;` in the text that of the caller's own target, which rustc's lines
/// after it describe.
static COPIED: &str = r#"
aarch64-apple-darwin => Builtin(TargetInfo { triple: "aarch64-apple-darwin", arch: "aarch64", os: "macos", env: "", abi: "", vendor: "apple", pointer_width: "64", endian: "little", panic: "unwind", families: ["unix"], atomics: ["8", "16", "32", "64", "ptr"] })
t;target_arch="a";target_os="o";target_env="e";target_abi="i";target_vendor="v";target_pointer_width="16";target_endian="big";panic="abort";target_family="f";target_family="g";target_has_atomic="8";target_has_atomic="ptr" => Builtin(TargetInfo { triple: "t", arch: "a", os: "o", env: "e", abi: "i", vendor: "v", pointer_width: "16", endian: "big", panic: "abort", families: ["f", "g"], atomics: ["8", "ptr"] })
linux => Unknown("linux")
 => Unknown("")
"#;

/// Texts that are printed as they are: a triple, and two about which nothing is known.
static PRINTED: &str = "
wasm32-unknown-unknown => wasm32-unknown-unknown
x => x
 =>
";

/// Texts, and whether the target of each is described.
static KNOWN: &str = "
x86_64-unknown-linux-gnu => true
wasm32-unknown-unknown => true
x86_64-pc-windows-gnu => false
linux => false
 => false
";

/// The description of a target with each of its fields, or that there is none.
struct Described;

impl Tell for Described {
    fn tell(told: &mut Text, triple: &str) -> Result<(), Fail> {
        match builtin(told.allocator(), triple)? {
            Some(info) => write!(told, "{info:?}"),
            None => told.push_str("no row"),
        }
        Ok(())
    }
}

/// That of a copy of it.
struct CopiedInfo;

impl Tell for CopiedInfo {
    fn tell(told: &mut Text, triple: &str) -> Result<(), Fail> {
        match builtin(told.allocator(), triple)? {
            Some(info) => write!(told, "{:?}", info.clone()?),
            None => told.push_str("no row"),
        }
        Ok(())
    }
}

/// The target of a text, or the one that a caller describes.
fn target(alloc: Global, line: &str) -> Result<Target, AllocError> {
    if !line.contains(';') {
        return Target::new(alloc, line);
    }
    let (info, _) = target_of(alloc, line)?;
    Ok(Target::Builtin(info))
}

/// A copy of a target, with each of its fields.
struct Copied;

impl Tell for Copied {
    fn tell(told: &mut Text, line: &str) -> Result<(), Fail> {
        let target = target(told.allocator(), line)?;
        write!(told, "{:?}", target.clone()?);
        Ok(())
    }
}

/// What the target of a text prints.
struct Printed;

impl Tell for Printed {
    fn tell(told: &mut Text, text: &str) -> Result<(), Fail> {
        let target = Target::new(told.allocator(), text)?;
        write!(told, "{target}");
        Ok(())
    }
}

/// Whether the target of a text is described.
struct Known;

impl Tell for Known {
    fn tell(told: &mut Text, text: &str) -> Result<(), Fail> {
        let target = Target::new(told.allocator(), text)?;
        write!(told, "{}", target.is_known());
        Ok(())
    }
}

#[test]
fn each_row_of_the_table_and_what_targets_print(rt: HostRuntime) -> Result<(), Fail> {
    hold_lines::<Described>(rt.alloc(), DESCRIBED)?;
    hold_lines::<CopiedInfo>(rt.alloc(), DESCRIBED)?;
    hold_lines::<Copied>(rt.alloc(), COPIED)?;
    hold_lines::<Printed>(rt.alloc(), PRINTED)?;
    hold_lines::<Known>(rt.alloc(), KNOWN)
}
