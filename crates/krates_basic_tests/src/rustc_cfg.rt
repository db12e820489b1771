//! Targets as rustc describes them: the lines that `rustc --print cfg --target TRIPLE` of Rust 1.95 prints.

use krates_samples::failures::Failures;
use krates_samples::table::{Tell, hold_lines, row_of};
use krates_text::target::{TargetInfo, builtin};
use krates_text::text::Text;
use std::alloc::{AllocError, Global};
use std::test::Fail;

/// The triples of the table of seven, each with the lines that rustc prints for it; and the description with each of its
/// fields, and the target features.
static IN_THE_TABLE: &str = r#"
x86_64-unknown-linux-gnu;debug_assertions;panic="unwind";target_abi="";target_arch="x86_64";target_endian="little";target_env="gnu";target_family="unix";target_feature="fxsr";target_feature="sse";target_feature="sse2";target_has_atomic="16";target_has_atomic="32";target_has_atomic="64";target_has_atomic="8";target_has_atomic="ptr";target_os="linux";target_pointer_width="64";target_vendor="unknown";unix => TargetInfo { triple: "x86_64-unknown-linux-gnu", arch: "x86_64", os: "linux", env: "gnu", abi: "", vendor: "unknown", pointer_width: "64", endian: "little", panic: "unwind", families: ["unix"], atomics: ["16", "32", "64", "8", "ptr"] } ["fxsr", "sse", "sse2"]
x86_64-unknown-linux-musl;debug_assertions;panic="unwind";target_abi="";target_arch="x86_64";target_endian="little";target_env="musl";target_family="unix";target_feature="crt-static";target_feature="fxsr";target_feature="sse";target_feature="sse2";target_has_atomic="16";target_has_atomic="32";target_has_atomic="64";target_has_atomic="8";target_has_atomic="ptr";target_os="linux";target_pointer_width="64";target_vendor="unknown";unix => TargetInfo { triple: "x86_64-unknown-linux-musl", arch: "x86_64", os: "linux", env: "musl", abi: "", vendor: "unknown", pointer_width: "64", endian: "little", panic: "unwind", families: ["unix"], atomics: ["16", "32", "64", "8", "ptr"] } ["crt-static", "fxsr", "sse", "sse2"]
aarch64-unknown-linux-gnu;debug_assertions;panic="unwind";target_abi="";target_arch="aarch64";target_endian="little";target_env="gnu";target_family="unix";target_feature="neon";target_has_atomic="128";target_has_atomic="16";target_has_atomic="32";target_has_atomic="64";target_has_atomic="8";target_has_atomic="ptr";target_os="linux";target_pointer_width="64";target_vendor="unknown";unix => TargetInfo { triple: "aarch64-unknown-linux-gnu", arch: "aarch64", os: "linux", env: "gnu", abi: "", vendor: "unknown", pointer_width: "64", endian: "little", panic: "unwind", families: ["unix"], atomics: ["128", "16", "32", "64", "8", "ptr"] } ["neon"]
x86_64-pc-windows-msvc;debug_assertions;panic="unwind";target_abi="";target_arch="x86_64";target_endian="little";target_env="msvc";target_family="windows";target_feature="cmpxchg16b";target_feature="fxsr";target_feature="sse";target_feature="sse2";target_feature="sse3";target_has_atomic="128";target_has_atomic="16";target_has_atomic="32";target_has_atomic="64";target_has_atomic="8";target_has_atomic="ptr";target_os="windows";target_pointer_width="64";target_vendor="pc";windows => TargetInfo { triple: "x86_64-pc-windows-msvc", arch: "x86_64", os: "windows", env: "msvc", abi: "", vendor: "pc", pointer_width: "64", endian: "little", panic: "unwind", families: ["windows"], atomics: ["128", "16", "32", "64", "8", "ptr"] } ["cmpxchg16b", "fxsr", "sse", "sse2", "sse3"]
x86_64-apple-darwin;debug_assertions;panic="unwind";target_abi="";target_arch="x86_64";target_endian="little";target_env="";target_family="unix";target_feature="cmpxchg16b";target_feature="fxsr";target_feature="sse";target_feature="sse2";target_feature="sse3";target_feature="sse4.1";target_feature="ssse3";target_has_atomic="128";target_has_atomic="16";target_has_atomic="32";target_has_atomic="64";target_has_atomic="8";target_has_atomic="ptr";target_os="macos";target_pointer_width="64";target_vendor="apple";unix => TargetInfo { triple: "x86_64-apple-darwin", arch: "x86_64", os: "macos", env: "", abi: "", vendor: "apple", pointer_width: "64", endian: "little", panic: "unwind", families: ["unix"], atomics: ["128", "16", "32", "64", "8", "ptr"] } ["cmpxchg16b", "fxsr", "sse", "sse2", "sse3", "sse4.1", "ssse3"]
aarch64-apple-darwin;debug_assertions;panic="unwind";target_abi="";target_arch="aarch64";target_endian="little";target_env="";target_family="unix";target_feature="aes";target_feature="crc";target_feature="dit";target_feature="dotprod";target_feature="dpb";target_feature="dpb2";target_feature="fcma";target_feature="fhm";target_feature="flagm";target_feature="fp16";target_feature="frintts";target_feature="jsconv";target_feature="lor";target_feature="lse";target_feature="neon";target_feature="paca";target_feature="pacg";target_feature="pan";target_feature="pmuv3";target_feature="ras";target_feature="rcpc";target_feature="rcpc2";target_feature="rdm";target_feature="sb";target_feature="sha2";target_feature="sha3";target_feature="ssbs";target_feature="vh";target_has_atomic="128";target_has_atomic="16";target_has_atomic="32";target_has_atomic="64";target_has_atomic="8";target_has_atomic="ptr";target_os="macos";target_pointer_width="64";target_vendor="apple";unix => TargetInfo { triple: "aarch64-apple-darwin", arch: "aarch64", os: "macos", env: "", abi: "", vendor: "apple", pointer_width: "64", endian: "little", panic: "unwind", families: ["unix"], atomics: ["128", "16", "32", "64", "8", "ptr"] } ["aes", "crc", "dit", "dotprod", "dpb", "dpb2", "fcma", "fhm", "flagm", "fp16", "frintts", "jsconv", "lor", "lse", "neon", "paca", "pacg", "pan", "pmuv3", "ras", "rcpc", "rcpc2", "rdm", "sb", "sha2", "sha3", "ssbs", "vh"]
wasm32-unknown-unknown;debug_assertions;panic="abort";target_abi="";target_arch="wasm32";target_endian="little";target_env="";target_family="wasm";target_feature="bulk-memory";target_feature="multivalue";target_feature="mutable-globals";target_feature="nontrapping-fptoint";target_feature="reference-types";target_feature="sign-ext";target_has_atomic="16";target_has_atomic="32";target_has_atomic="64";target_has_atomic="8";target_has_atomic="ptr";target_os="unknown";target_pointer_width="32";target_vendor="unknown" => TargetInfo { triple: "wasm32-unknown-unknown", arch: "wasm32", os: "unknown", env: "", abi: "", vendor: "unknown", pointer_width: "32", endian: "little", panic: "abort", families: ["wasm"], atomics: ["16", "32", "64", "8", "ptr"] } ["bulk-memory", "multivalue", "mutable-globals", "nontrapping-fptoint", "reference-types", "sign-ext"]
"#;

/// Other triples, in the same way.
static BESIDE_THE_TABLE: &str = r#"
aarch64-linux-android;debug_assertions;panic="unwind";target_abi="";target_arch="aarch64";target_endian="little";target_env="";target_family="unix";target_feature="neon";target_has_atomic="128";target_has_atomic="16";target_has_atomic="32";target_has_atomic="64";target_has_atomic="8";target_has_atomic="ptr";target_os="android";target_pointer_width="64";target_vendor="unknown";unix => TargetInfo { triple: "aarch64-linux-android", arch: "aarch64", os: "android", env: "", abi: "", vendor: "unknown", pointer_width: "64", endian: "little", panic: "unwind", families: ["unix"], atomics: ["128", "16", "32", "64", "8", "ptr"] } ["neon"]
i686-pc-windows-msvc;debug_assertions;panic="unwind";target_abi="";target_arch="x86";target_endian="little";target_env="msvc";target_family="windows";target_feature="fxsr";target_feature="sse";target_feature="sse2";target_has_atomic="16";target_has_atomic="32";target_has_atomic="64";target_has_atomic="8";target_has_atomic="ptr";target_os="windows";target_pointer_width="32";target_vendor="pc";windows => TargetInfo { triple: "i686-pc-windows-msvc", arch: "x86", os: "windows", env: "msvc", abi: "", vendor: "pc", pointer_width: "32", endian: "little", panic: "unwind", families: ["windows"], atomics: ["16", "32", "64", "8", "ptr"] } ["fxsr", "sse", "sse2"]
thumbv7em-none-eabihf;debug_assertions;panic="abort";target_abi="eabihf";target_arch="arm";target_endian="little";target_env="";target_has_atomic="16";target_has_atomic="32";target_has_atomic="8";target_has_atomic="ptr";target_os="none";target_pointer_width="32";target_vendor="unknown" => TargetInfo { triple: "thumbv7em-none-eabihf", arch: "arm", os: "none", env: "", abi: "eabihf", vendor: "unknown", pointer_width: "32", endian: "little", panic: "abort", families: [], atomics: ["16", "32", "8", "ptr"] } []
wasm32-wasip1;debug_assertions;panic="abort";target_abi="";target_arch="wasm32";target_endian="little";target_env="p1";target_family="wasm";target_feature="bulk-memory";target_feature="crt-static";target_feature="multivalue";target_feature="mutable-globals";target_feature="nontrapping-fptoint";target_feature="reference-types";target_feature="sign-ext";target_has_atomic="16";target_has_atomic="32";target_has_atomic="64";target_has_atomic="8";target_has_atomic="ptr";target_os="wasi";target_pointer_width="32";target_vendor="unknown" => TargetInfo { triple: "wasm32-wasip1", arch: "wasm32", os: "wasi", env: "p1", abi: "", vendor: "unknown", pointer_width: "32", endian: "little", panic: "abort", families: ["wasm"], atomics: ["16", "32", "64", "8", "ptr"] } ["bulk-memory", "crt-static", "multivalue", "mutable-globals", "nontrapping-fptoint", "reference-types", "sign-ext"]
x86_64-pc-windows-gnu;debug_assertions;panic="unwind";target_abi="";target_arch="x86_64";target_endian="little";target_env="gnu";target_family="windows";target_feature="cmpxchg16b";target_feature="fxsr";target_feature="sse";target_feature="sse2";target_feature="sse3";target_has_atomic="128";target_has_atomic="16";target_has_atomic="32";target_has_atomic="64";target_has_atomic="8";target_has_atomic="ptr";target_os="windows";target_pointer_width="64";target_vendor="pc";windows => TargetInfo { triple: "x86_64-pc-windows-gnu", arch: "x86_64", os: "windows", env: "gnu", abi: "", vendor: "pc", pointer_width: "64", endian: "little", panic: "unwind", families: ["windows"], atomics: ["128", "16", "32", "64", "8", "ptr"] } ["cmpxchg16b", "fxsr", "sse", "sse2", "sse3"]
x86_64-unknown-freebsd;debug_assertions;panic="unwind";target_abi="";target_arch="x86_64";target_endian="little";target_env="";target_family="unix";target_feature="fxsr";target_feature="sse";target_feature="sse2";target_has_atomic="16";target_has_atomic="32";target_has_atomic="64";target_has_atomic="8";target_has_atomic="ptr";target_os="freebsd";target_pointer_width="64";target_vendor="unknown";unix => TargetInfo { triple: "x86_64-unknown-freebsd", arch: "x86_64", os: "freebsd", env: "", abi: "", vendor: "unknown", pointer_width: "64", endian: "little", panic: "unwind", families: ["unix"], atomics: ["16", "32", "64", "8", "ptr"] } ["fxsr", "sse", "sse2"]
// lines that rustc doesn't print today
none => TargetInfo { triple: "none", arch: "", os: "", env: "", abi: "", vendor: "", pointer_width: "", endian: "", panic: "", families: [], atomics: [] } []
// the last line of a key counts, even where it is empty; of families and features each
t;target_os="a";target_os="b";target_env="c";target_env="";target_family="unix";target_family="wasm";target_family="unix" => TargetInfo { triple: "t", arch: "", os: "b", env: "", abi: "", vendor: "", pointer_width: "", endian: "", panic: "", families: ["unix", "wasm", "unix"], atomics: [] } []
// lines of another form say nothing: without quotes, with spaces, with something after, or with more before the key
t;target_os=linux;target_os = "linux"; target_os="linux";target_os="linux" ;xtarget_os="linux";target_os;target_os=";target_os_x="linux" => TargetInfo { triple: "t", arch: "", os: "", env: "", abi: "", vendor: "", pointer_width: "", endian: "", panic: "", families: [], atomics: [] } []
// what is between the first quote and the last is the value
t;target_os="a"b="c" => TargetInfo { triple: "t", arch: "", os: "a\"b=\"c", env: "", abi: "", vendor: "", pointer_width: "", endian: "", panic: "", families: [], atomics: [] } []
"#;

/// The target of a line: its triple, and after each `;` a line of rustc's.
pub(crate) fn target_of(
    alloc: Global,
    line: &str,
) -> Result<(TargetInfo, Vec<String>), AllocError> {
    let (triple, lines) = line.split_once(";").unwrap_or((line, ""));
    let text = lines.replace(alloc, ";", "\n")?;
    TargetInfo::from_rustc(alloc, triple, text.as_str())
}

/// The description of the target of a line, and its features.
struct Described;

impl Tell for Described {
    fn tell(told: &mut Text, line: &str) -> Result<(), Fail> {
        let (info, features) = target_of(told.allocator(), line)?;
        write!(told, "{info:?} {features:?}");
        Ok(())
    }
}

#[test]
fn reads_what_rustc_prints_and_other_lines(rt: HostRuntime) -> Result<(), Fail> {
    hold_lines::<Described>(rt.alloc(), IN_THE_TABLE)?;
    hold_lines::<Described>(rt.alloc(), BESIDE_THE_TABLE)
}

/// A description with its atomics in order, except `128`, which the table doesn't have.
fn in_fixed_order(alloc: Global, mut info: TargetInfo) -> Result<String, AllocError> {
    info.atomics.retain(|width| width.as_str() != "128");
    info.atomics.sort()?;
    format!(in alloc; "{info:?}")
}

/// The description that a line's target has, in fixed order.
fn description_of(alloc: Global, line: &str) -> Result<String, Fail> {
    let (info, _) = target_of(alloc, line)?;
    Ok(in_fixed_order(alloc, info)?)
}

/// The description that the table has for the triple of a line, in fixed order, or none.
fn in_table(alloc: Global, line: &str) -> Result<String, AllocError> {
    let (triple, _) = line.split_once(";").unwrap_or((line, ""));
    match builtin(alloc, triple)? {
        Some(info) => in_fixed_order(alloc, info),
        None => String::from_str(alloc, "none"),
    }
}

#[test]
fn describes_as_the_table(rt: HostRuntime) -> Result<(), Fail> {
    let mut failures = Failures::new(rt.alloc());
    for line in IN_THE_TABLE.lines() {
        if let Some((line, _)) = row_of(line) {
            let known = in_table(rt.alloc(), line)?;
            failures.compare(line, description_of(rt.alloc(), line), known.as_str())?;
        }
    }
    failures.reported()
}
