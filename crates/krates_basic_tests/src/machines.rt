//! Machines as rustc describes them, where target texts hold, and which targets a build asks for.

use crate::packages::read;
use krates_cm::Target;
use krates_samples::table::{Tell, hold, hold_lines};
use krates_text::text::Text;
use krates_units::kinds::{
    Mode, asks_for, is_library, is_linkable, is_macro, is_script, runs_programs, uses_dev,
};
use krates_units::machine::passes_on;
use krates_units::{Machine, MachineError, TargetFlags};
use std::alloc::Global;
use std::test::Fail;

/// What `rustc --print cfg --target TRIPLE` of Rust 1.95 prints: the triple, and after each `;` a line.
static LINUX: &str =
    r#"x86_64-unknown-linux-gnu;debug_assertions;panic="unwind";target_abi="";target_arch="x86_64";target_endian="little";target_env="gnu";target_family="unix";target_feature="fxsr";target_feature="sse";target_feature="sse2";target_has_atomic="16";target_has_atomic="32";target_has_atomic="64";target_has_atomic="8";target_has_atomic="ptr";target_os="linux";target_pointer_width="64";target_vendor="unknown";unix"#;

static WINDOWS: &str =
    r#"x86_64-pc-windows-msvc;debug_assertions;panic="unwind";target_abi="";target_arch="x86_64";target_endian="little";target_env="msvc";target_family="windows";target_feature="cmpxchg16b";target_feature="fxsr";target_feature="sse";target_feature="sse2";target_feature="sse3";target_has_atomic="128";target_has_atomic="16";target_has_atomic="32";target_has_atomic="64";target_has_atomic="8";target_has_atomic="ptr";target_os="windows";target_pointer_width="64";target_vendor="pc";windows"#;

static DARWIN: &str =
    r#"x86_64-apple-darwin;debug_assertions;panic="unwind";target_abi="";target_arch="x86_64";target_endian="little";target_env="";target_family="unix";target_feature="cmpxchg16b";target_feature="fxsr";target_feature="sse";target_feature="sse2";target_feature="sse3";target_feature="sse4.1";target_feature="ssse3";target_has_atomic="128";target_has_atomic="16";target_has_atomic="32";target_has_atomic="64";target_has_atomic="8";target_has_atomic="ptr";target_os="macos";target_pointer_width="64";target_vendor="apple";unix"#;

static WASM: &str =
    r#"wasm32-unknown-unknown;debug_assertions;panic="abort";target_abi="";target_arch="wasm32";target_endian="little";target_env="";target_family="wasm";target_feature="bulk-memory";target_feature="multivalue";target_feature="mutable-globals";target_feature="nontrapping-fptoint";target_feature="reference-types";target_feature="sign-ext";target_has_atomic="16";target_has_atomic="32";target_has_atomic="64";target_has_atomic="8";target_has_atomic="ptr";target_os="unknown";target_pointer_width="32";target_vendor="unknown""#;

/// What rustc prints in the same way, and what is read of it or which line isn't.
static PRINTED: &str = r#"
x86_64-pc-windows-msvc;debug_assertions;panic="unwind";target_abi="";target_arch="x86_64";target_endian="little";target_env="msvc";target_family="windows";target_feature="cmpxchg16b";target_feature="fxsr";target_feature="sse";target_feature="sse2";target_feature="sse3";target_has_atomic="128";target_has_atomic="16";target_has_atomic="32";target_has_atomic="64";target_has_atomic="8";target_has_atomic="ptr";target_os="windows";target_pointer_width="64";target_vendor="pc";windows => Machine { triple: "x86_64-pc-windows-msvc", words: ["debug_assertions", "windows"], pairs: [("panic", "unwind"), ("target_abi", ""), ("target_arch", "x86_64"), ("target_endian", "little"), ("target_env", "msvc"), ("target_family", "windows"), ("target_feature", "cmpxchg16b"), ("target_feature", "fxsr"), ("target_feature", "sse"), ("target_feature", "sse2"), ("target_feature", "sse3"), ("target_has_atomic", "128"), ("target_has_atomic", "16"), ("target_has_atomic", "32"), ("target_has_atomic", "64"), ("target_has_atomic", "8"), ("target_has_atomic", "ptr"), ("target_os", "windows"), ("target_pointer_width", "64"), ("target_vendor", "pc")] }
wasm32-unknown-unknown;debug_assertions;panic="abort";target_abi="";target_arch="wasm32";target_endian="little";target_env="";target_family="wasm";target_feature="bulk-memory";target_feature="multivalue";target_feature="mutable-globals";target_feature="nontrapping-fptoint";target_feature="reference-types";target_feature="sign-ext";target_has_atomic="16";target_has_atomic="32";target_has_atomic="64";target_has_atomic="8";target_has_atomic="ptr";target_os="unknown";target_pointer_width="32";target_vendor="unknown" => Machine { triple: "wasm32-unknown-unknown", words: ["debug_assertions"], pairs: [("panic", "abort"), ("target_abi", ""), ("target_arch", "wasm32"), ("target_endian", "little"), ("target_env", ""), ("target_family", "wasm"), ("target_feature", "bulk-memory"), ("target_feature", "multivalue"), ("target_feature", "mutable-globals"), ("target_feature", "nontrapping-fptoint"), ("target_feature", "reference-types"), ("target_feature", "sign-ext"), ("target_has_atomic", "16"), ("target_has_atomic", "32"), ("target_has_atomic", "64"), ("target_has_atomic", "8"), ("target_has_atomic", "ptr"), ("target_os", "unknown"), ("target_pointer_width", "32"), ("target_vendor", "unknown")] }
// the order of the lines stays, and what comes twice stays twice; a string may be empty or have any byte but a quotation mark
t;_b9;k="";k="=, 'é";k="";_b9 => Machine { triple: "t", words: ["_b9", "_b9"], pairs: [("k", ""), ("k", "=, 'é"), ("k", "")] }
t => Machine { triple: "t", words: [], pairs: [] }
// a line of another form is refused, and the first of them is named
t;unix;9a;9b => line 2 is no cfg of rustc
t;unix;;a => line 2 is no cfg of rustc
t;a-b => line 1 is no cfg of rustc
t;é => line 1 is no cfg of rustc
t;a;k="v";c;k=v => line 4 is no cfg of rustc
t;k = "v" => line 1 is no cfg of rustc
t;k="v"  => line 1 is no cfg of rustc
t;k="v => line 1 is no cfg of rustc
t;k=v" => line 1 is no cfg of rustc
t;k="v"w" => line 1 is no cfg of rustc
t;="v" => line 1 is no cfg of rustc
t;k=" => line 1 is no cfg of rustc
"#;

/// A target text, and the triples of the machines above at which it holds: those of the Cargo Book's section "Platform specific
/// dependencies" first.
static HELD: &str = r#"
cfg(windows) => x86_64-pc-windows-msvc $
cfg(unix) => x86_64-unknown-linux-gnu x86_64-apple-darwin $
cfg(target_arch = "x86") =>
cfg(target_arch = "x86_64") => x86_64-unknown-linux-gnu x86_64-pc-windows-msvc x86_64-apple-darwin $
x86_64-pc-windows-msvc => x86_64-pc-windows-msvc $
x86_64-unknown-linux-gnu => x86_64-unknown-linux-gnu $
cfg(not(unix)) => x86_64-pc-windows-msvc wasm32-unknown-unknown $
cfg(all(unix, target_os = "macos")) => x86_64-apple-darwin $
cfg(any(windows, target_family = "wasm")) => x86_64-pc-windows-msvc wasm32-unknown-unknown $
// what rustc prints holds, whatever the profile of the build
cfg(debug_assertions) => x86_64-unknown-linux-gnu x86_64-pc-windows-msvc x86_64-apple-darwin wasm32-unknown-unknown $
cfg(target_feature = "sse3") => x86_64-pc-windows-msvc x86_64-apple-darwin $
cfg(panic = "abort") => wasm32-unknown-unknown $
cfg(target_env = "") => x86_64-apple-darwin wasm32-unknown-unknown $
cfg(target_has_atomic = "128") => x86_64-pc-windows-msvc x86_64-apple-darwin $
// a key is no word, and a pair isn't compared by its key or by its string alone
cfg(target_os) =>
cfg(unix = "") =>
cfg(target_os = "unix") =>
cfg(true) => x86_64-unknown-linux-gnu x86_64-pc-windows-msvc x86_64-apple-darwin wasm32-unknown-unknown $
cfg(any()) =>
cfg(all()) => x86_64-unknown-linux-gnu x86_64-pc-windows-msvc x86_64-apple-darwin wasm32-unknown-unknown $
// what isn't an expression is a triple
cfg(unix =>
unix =>
 =>
"#;

/// Machines, and after a bar the target text of a dependency, if it has one; and whether it passes on some of them.
static PASSED: &str = "
linux windows|cfg(windows) => true
windows linux|cfg(windows) => true
linux darwin|cfg(windows) => false
// no machine alone makes it true
linux windows|cfg(all(unix, windows)) => false
linux windows|cfg(not(all(unix, windows))) => true
linux| => false
|cfg(all()) => false
|cfg(unix) => false
linux => true
 => true
";

/// JSON of a target's kinds and of what else counts, and after a bar the flags; what the target is, and in which modes it is asked
/// for, has dev dependencies and runs programs.
static ASKED: &str = r#"
// where no kind is asked for, libraries and programs are
"kind":["lib"]| => library linkable build; tests use dev $
"kind":["bin"]| => build; tests use dev $
"kind":["example"]| => ; builds use dev tests use dev $
"kind":["test"]| => ; builds use dev tests use dev tests run $
"kind":["bench"]| => ; tests use dev tests run $
"kind":["custom-build"]| => script ; tests use dev $
// forms of a library
"kind":["cdylib"]| => library build; tests use dev $
"kind":["staticlib"]| => library build; tests use dev $
"kind":["staticlib","rlib"]| => library linkable build; tests use dev $
"kind":["dylib"]| => library linkable build; tests use dev $
"kind":["proc-macro"]| => library linkable macro build; tests use dev $
// an example may be a procedural macro, and a program isn't one whatever its forms
"kind":["example"],"crate_types":["proc-macro"]|examples => macro build; builds use dev tests use dev $
"kind":["bin"],"crate_types":["proc-macro"]| => build; tests use dev $
// each flag asks for its kind alone
"kind":["lib"]|lib => library linkable build; tests use dev $
"kind":["bin"]|lib => ; tests use dev $
"kind":["bin"]|bins => build; tests use dev $
"kind":["lib"]|bins => library linkable ; tests use dev $
"kind":["example"]|examples => build; builds use dev tests use dev $
// `--tests` asks for what has `test = true`
"kind":["lib"],"test":true|tests => library linkable test; tests use dev $
"kind":["lib"],"test":false|tests => library linkable ; tests use dev $
"kind":["test"],"test":true|tests => test; builds use dev tests use dev tests run $
"kind":["example"],"test":true|tests => test; builds use dev tests use dev $
"kind":["bench"],"test":false|tests => ; tests use dev tests run $
// `--benches` asks for libraries, programs and benchmarks
"kind":["bench"],"test":false|benches => test; tests use dev tests run $
"kind":["lib"],"test":false|benches => library linkable test; tests use dev $
"kind":["bin"],"test":false|benches => test; tests use dev $
"kind":["test"],"test":true|benches => ; builds use dev tests use dev tests run $
// `--all-targets` asks for all, in both modes
"kind":["lib"],"test":true|all => library linkable build test; tests use dev $
"kind":["bin"],"test":false|all => build test; tests use dev $
"kind":["example"],"test":false|all => build; builds use dev tests use dev $
"kind":["test"],"test":true|all => test; builds use dev tests use dev tests run $
"kind":["bench"],"test":false|all => test; tests use dev tests run $
"#;

/// Flags, and whether they ask for some kind of target, and for one that has dev dependencies.
static FLAGS: &str = "
 =>
lib => kinds $
bins => kinds $
lib bins => kinds $
examples => kinds dev $
tests => kinds dev $
benches => kinds dev $
all => kinds dev $
";

/// The machine of a line.
fn machine_of(alloc: Global, line: &str) -> Result<Machine, MachineError> {
    let (triple, lines) = line.split_once(";").unwrap_or((line, ""));
    let printed = lines.replace(alloc, ";", "\n")?;
    Machine::from_rustc(alloc, triple, printed.as_str())
}

/// What is read of what rustc prints.
struct Described;

impl Tell for Described {
    fn tell(told: &mut Text, line: &str) -> Result<(), Fail> {
        match machine_of(told.allocator(), line) {
            Ok(machine) => write!(told, "{machine:?}"),
            Err(error) => write!(told, "{error}"),
        }
        Ok(())
    }
}

/// Writes the triple of a machine if a target text holds there.
fn push_holding(told: &mut Text, lines: &str, text: &str) -> Result<(), Fail> {
    let machine = machine_of(told.allocator(), lines)?;
    if machine.holds(told.allocator(), text)? {
        write!(told, "{} ", machine.triple());
    }
    Ok(())
}

/// At which machines a target text holds.
struct Held;

impl Tell for Held {
    fn tell(told: &mut Text, text: &str) -> Result<(), Fail> {
        push_holding(told, LINUX, text)?;
        push_holding(told, WINDOWS, text)?;
        push_holding(told, DARWIN, text)?;
        push_holding(told, WASM, text)
    }
}

/// The machines of these names.
fn machines_of(alloc: Global, names: &str) -> Result<Vec<Machine>, MachineError> {
    let mut machines = Vec::new(alloc);
    for name in names.split(" ") {
        match name {
            "linux" => machines.push(machine_of(alloc, LINUX)?)?,
            "windows" => machines.push(machine_of(alloc, WINDOWS)?)?,
            "darwin" => machines.push(machine_of(alloc, DARWIN)?)?,
            _ => {}
        }
    }
    Ok(machines)
}

/// Whether a dependency passes on some machine of a line.
struct Passed;

impl Tell for Passed {
    fn tell(told: &mut Text, line: &str) -> Result<(), Fail> {
        let (names, text) = match line.split_once("|") {
            Some((names, text)) => (names, Some(text)),
            None => (line, None),
        };
        let machines = machines_of(told.allocator(), names)?;
        let passes = passes_on(told.allocator(), machines.as_slice(), text)?;
        write!(told, "{passes}");
        Ok(())
    }
}

/// The flags that a text has.
fn flags_in(text: &str) -> TargetFlags {
    TargetFlags {
        lib: text.contains("lib"),
        bins: text.contains("bins"),
        examples: text.contains("examples"),
        tests: text.contains("tests"),
        benches: text.contains("benches"),
        all: text.contains("all"),
    }
}

/// Writes what a target is, and where it is asked for.
fn push_answers(told: &mut Text, flags: TargetFlags, target: &Target) {
    let all = [
        (is_library(target), "library "),
        (is_linkable(target), "linkable "),
        (is_script(target), "script "),
        (is_macro(target), "macro "),
        (asks_for(flags, target, Mode::Build), "build"),
        (
            asks_for(flags, target, Mode::Build) && asks_for(flags, target, Mode::Test),
            " ",
        ),
        (asks_for(flags, target, Mode::Test), "test"),
        (true, "; "),
        (uses_dev(target, Mode::Build), "builds use dev "),
        (uses_dev(target, Mode::Test), "tests use dev "),
        (runs_programs(target, Mode::Build), "builds run "),
        (runs_programs(target, Mode::Test), "tests run "),
    ];
    for &(is, name) in all.as_slice() {
        if is {
            told.push_str(name);
        }
    }
}

/// What a target of a line is, and where it is asked for.
struct Asked;

impl Tell for Asked {
    fn tell(told: &mut Text, line: &str) -> Result<(), Fail> {
        let (fields, flags) = line.split_once("|").unwrap_or((line, ""));
        let alloc = told.allocator();
        let json = format!(in alloc; "{{\"name\":\"t\",\"src_path\":\"s\",{fields}}}")?;
        let target: Target = read(alloc, json.as_str())?;
        push_answers(told, flags_in(flags), &target);
        Ok(())
    }
}

/// What flags ask for.
struct Flags;

impl Tell for Flags {
    fn tell(told: &mut Text, text: &str) -> Result<(), Fail> {
        let flags = flags_in(text);
        if flags.asks_kinds() {
            told.push_str("kinds ");
        }
        if flags.asks_dev() {
            told.push_str("dev ");
        }
        Ok(())
    }
}

#[test]
fn reads_what_rustc_prints_of_a_machine_or_names_the_line(rt: HostRuntime) -> Result<(), Fail> {
    hold_lines::<Described>(rt.alloc(), PRINTED)
}

#[test]
fn target_texts_hold_at_machines(rt: HostRuntime) -> Result<(), Fail> {
    hold_lines::<Held>(rt.alloc(), HELD)?;
    hold_lines::<Passed>(rt.alloc(), PASSED)
}

#[test]
fn targets_are_asked_for_by_their_kinds(rt: HostRuntime) -> Result<(), Fail> {
    hold_lines::<Flags>(rt.alloc(), FLAGS)?;
    hold_lines::<Asked>(rt.alloc(), ASKED)
}
