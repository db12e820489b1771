//! What is read and run for an answer, and who reads it: files, standard input, cargo and rustc up to a limit, and a reader who has gone.

use crate::acting::NOTE;
use crate::asked::replaced;
use crate::listing::words_of;
use krates::path::parent;
use krates_samples::failures::Failures;
use krates_samples::stand_in::DOCUMENT;
use krates_samples::table::Row;
use std::alloc::{AllocError, Global};
use std::fs::{File, Permissions};
use std::io::PipeWriter;
use std::os::unix::fs::PermissionsExt;
use std::path::PathBuf;
use std::process::{Command, Output};
use std::test::Fail;
use std::{env, fs, io, process, str};

/// What each test prints behind its answer where it passes.
static PASSED: &str = "\ntest result: ok\n";

/// What each test adds to what it says where it fails, as it is shown.
static FAILED: &str = "\n    the test failed: its result gives status 1";

/// The same where it acts as cargo, of which each line is said.
static FAILED_AS_CARGO: &str = "cargo: the test failed: its result gives status 1\n";

/// A line of the many that it writes as cargo.
static LOUD: &str = "cargo: a line of what goes to standard error\n";

/// What is listed of the document.
const LISTED: &str = "a v0.1.0 (/w/a)\nb v0.1.0 (/w/b)\nstatus 0";

/// A program and its words, where `ROOM` is a folder with files, and what it prints, with the status of an answer. Standard input is
/// `empty.json`, of two bytes.
static READ: &[Row] = &[
    ("krates list --metadata ROOM/document.json", LISTED),
    (
        "krates list --metadata ROOM/document.json --max-bytes 100",
        "error: ROOM/document.json: this is longer than 100 bytes, the limit that --max-bytes sets\n",
    ),
    // as long as the limit, and a byte longer
    (
        "krates list --metadata ROOM/empty.json --max-bytes 2",
        "error: ROOM/empty.json: failed to interpret `cargo metadata`'s json: missing key: packages\n",
    ),
    (
        "krates list --metadata ROOM/empty.json --max-bytes 1",
        "error: ROOM/empty.json: this is longer than 1 bytes, the limit that --max-bytes sets\n",
    ),
    (
        "krates list --metadata - --max-bytes 2",
        "error: standard input: failed to interpret `cargo metadata`'s json: missing key: packages\n",
    ),
    (
        "krates list --metadata - --max-bytes 1",
        "error: standard input: this is longer than 1 bytes, the limit that --max-bytes sets\n",
    ),
    (
        "krates list --metadata ROOM/marked.json",
        "error: ROOM/marked.json: this begins with a byte order mark; save it as UTF-8 without one\n",
    ),
    (
        "krates list --metadata ROOM/none.json",
        "error: ROOM/none.json: No such file or directory (os error 2)\n",
    ),
];

/// The same for `krates_check`, whose certificate is standard input.
static CHECKED: &[Row] = &[
    (
        "krates_check --metadata ROOM/document.json",
        "read\nstatus 0",
    ),
    (
        "krates_check --metadata ROOM/document.json --max-bytes 1",
        "error: standard input: this is longer than 1 bytes, the limit that --max-bytes sets\n",
    ),
    (
        "krates_check --metadata ROOM/document.json --max-bytes 2",
        "error: ROOM/document.json: this is longer than 2 bytes, the limit that --max-bytes sets\n",
    ),
    (
        "krates_check --metadata ROOM/marked.json",
        "error: ROOM/marked.json: this begins with a byte order mark; save it as UTF-8 without one\n",
    ),
];

/// The same where cargo is run, in whose place is `SELF`.
static BY_CARGO: &[Row] = &[
    ("krates list", LISTED),
    ("krates list -F loud", LISTED),
    (
        "krates list -F loud --max-bytes 100000",
        "error: the output of `SELF`: this is longer than 100000 bytes, the limit that --max-bytes sets\n",
    ),
    (
        "krates list -F endless --max-bytes 1000000",
        "error: the output of `SELF`: this is longer than 1000000 bytes, the limit that --max-bytes sets\n",
    ),
    (
        "krates list -F killed",
        "error: `cargo metadata` failed (signal: 6 (SIGABRT))\n",
    ),
    (
        "krates list -F crash",
        "cargo: error: no manifest\nerror: `cargo metadata` failed (signal: 6 (SIGABRT))\n",
    ),
    (
        "krates list -F hostile",
        "cargo: error: no \\u{1b}[2Kmanifest\ncargo: error: no cargo\nerror: `cargo metadata` failed (signal: 6 (SIGABRT))\n",
    ),
    (
        "krates list -F refuse",
        "cargo: error: no manifest\nerror: `cargo metadata` failed (exit status: 101)\n",
    ),
    // what isn't UTF-8 hides neither the status nor the rest
    (
        "krates list -F garbled",
        "cargo: error: no \u{fffd}manifest\nerror: `cargo metadata` failed (signal: 6 (SIGABRT))\n",
    ),
    (
        "krates list -F silent",
        "error: could not find any json in the output of `cargo metadata`\n",
    ),
];

/// The same where rustc is run, in whose place is a file beside which one stands.
static BY_RUSTC: &[Row] = &[
    (
        "RUSTC=./killed krates list --target odd",
        "error: `./killed` failed (signal: 6 (SIGABRT))\n",
    ),
    // one that a signal ends hasn't refused the target, whatever it said before
    (
        "RUSTC=./crash krates list --target odd",
        "error: `./crash` failed (signal: 6 (SIGABRT)): no manifest\n",
    ),
    (
        "RUSTC=./refuse krates list --target odd",
        "error: unknown target `odd`: no manifest\n",
    ),
    (
        "RUSTC=./garbled krates list --target odd",
        "error: `./garbled` failed (signal: 6 (SIGABRT)): no \u{fffd}manifest\n",
    ),
    (
        "RUSTC=./silent krates list --target odd",
        "error: unknown target `odd`: rustc doesn't describe it\n",
    ),
    (
        "RUSTC=./endless krates list --target odd --max-bytes 100000",
        "error: the output of `./endless`: this is longer than 100000 bytes, the limit that --max-bytes sets\n",
    ),
    (
        "RUSTC=./none krates list --target odd",
        "error: can't run `./none`: No such file or directory (os error 2); install Rust, set RUSTC to a rustc, or describe the target by --cfg FILE\n",
    ),
    // from where one stands, whatever folder is looked at
    (
        "RUSTC=./silent krates list --target odd --manifest-path ROOM/none/Cargo.toml",
        "error: unknown target `odd`: rustc doesn't describe it\n",
    ),
    // by build, the host that it names is a machine that it has to describe
    (
        "RUSTC=./rustc krates list --resolver 2 --metadata ROOM/document.json",
        "error: unknown target `odd`: rustc doesn't describe it\n",
    ),
    (
        "RUSTC=./silent krates list --resolver 2 --metadata ROOM/document.json",
        "error: `./silent -vV` prints no line that begins with `host: `\n",
    ),
    (
        "RUSTC=./crash krates list --resolver 2 --metadata ROOM/document.json",
        "error: `./crash` failed (signal: 6 (SIGABRT)): no manifest\n",
    ),
    (
        "RUSTC=./refuse krates list --resolver 2 --metadata ROOM/document.json",
        "error: `./refuse` failed (exit status: 101): no manifest\n",
    ),
];

/// What is said of a build, whose machines are described by files. The workspace of `document.json` has no manifest, that of `here.json` has one.
static BY_BUILD: &[Row] = &[
    (
        "krates list --by build --host odd --host-cfg ROOM/odd.cfg --metadata ROOM/here.json",
        "described\nnote: by build: resolver 2 (of Cargo.toml; --resolver sets another), built on and for odd\nstatus 0",
    ),
    (
        "krates list --by build --host odd --host-cfg ROOM/odd.cfg --metadata ROOM/document.json",
        "error: /w/Cargo.toml: No such file or directory (os error 2); say by --resolver 1, 2 or 3 which resolver the workspace has\n",
    ),
    (
        "krates list --resolver 2 --host odd --host-cfg ROOM/odd.cfg --metadata ROOM/document.json",
        "described\nnote: by build: resolver 2 (of --resolver), built on and for odd\nstatus 0",
    ),
    (
        "krates list --by build --resolver 1 --host odd --host-cfg ROOM/odd.cfg --target odd --cfg ROOM/odd.cfg --target other --cfg ROOM/odd.cfg --metadata ROOM/document.json",
        "described\nnote: by build: resolver 1 (of --resolver), built on odd for odd, other\nstatus 0",
    ),
    (
        "krates list --resolver 3 -p a -F x,y --no-default-features --tests --host odd --host-cfg ROOM/odd.cfg --target odd --cfg ROOM/odd.cfg --metadata ROOM/document.json",
        "described\nnote: by build: resolver 3 (of --resolver), built on odd for odd, with --package=a --tests --features=x --features=y --no-default-features\nstatus 0",
    ),
    // without notes, and in colours
    (
        "krates list --quiet --resolver 2 --host odd --host-cfg ROOM/odd.cfg --metadata ROOM/document.json",
        "described\nstatus 0",
    ),
    (
        "krates list --color always --resolver 2 --host odd --host-cfg ROOM/odd.cfg --metadata ROOM/document.json",
        "described\n\u{1b}[1;33mnote\u{1b}[0m: by build: resolver 2 (of --resolver), built on and for odd\nstatus 0",
    ),
    (
        "krates list --color always --metadata ROOM/none.json --by krates",
        "\u{1b}[1;31merror\u{1b}[0m: ROOM/none.json: No such file or directory (os error 2)\n",
    ),
    (
        "krates list --color always --metadata ROOM/document.json --by krates",
        "\u{1b}[1ma\u{1b}[0m v0.1.0 (/w/a)\n\u{1b}[1mb\u{1b}[0m v0.1.0 (/w/b)\nstatus 0",
    ),
    (
        "krates list --color never --metadata ROOM/document.json --by krates",
        LISTED,
    ),
    (
        "krates unreachable z --color always --json --metadata ROOM/document.json --by krates",
        "{\n  \"answer\": {\n    \"id\": null,\n    \"near\": [],\n    \"unreachable\": true\n  },\n  \"rules\": \"krates\",\n  \"version\": 1\n}\nstatus 0",
    ),
    (
        "krates unreachable b --color always --metadata ROOM/document.json --by krates",
        "\u{1b}[31mb v0.1.0 (/w/b) is kept; `why` says why\u{1b}[0m\nstatus 1",
    ),
    // what is written with others' characters
    (
        "krates list --resolver 2 --host o\u{202e}d --host-cfg ROOM/odd.cfg -F x\u{1b}[2K --metadata ROOM/document.json",
        "described\nnote: by build: resolver 2 (of --resolver), built on and for o\\u{202e}d, with --features=x\\u{1b}[2K\nstatus 0",
    ),
];

/// The same where whoever reads the answer may have gone: a no stays a no, and nothing is said of it.
static TO_NOBODY: &[Row] = &[
    (
        "krates unreachable b --metadata ROOM/document.json",
        "b v0.1.0 (/w/b) is kept; `why` says why\nstatus 1",
    ),
    (
        "krates unreachable b --metadata ROOM/document.json | nobody",
        "status 1",
    ),
    (
        "krates list --metadata ROOM/document.json | nobody",
        "status 0",
    ),
];

/// The files that are run as rustc: by its name each chooses what this program does in its place.
static RUSTCS: [&str; 7] = [
    "rustc", "killed", "crash", "refuse", "garbled", "silent", "endless",
];

/// A folder with files, this program, and whether one stands beside it who asks, and not in the folder.
#[derive(Drop)]
struct Place {
    room: String,
    program: PathBuf,
    is_outside: bool,
}

impl Place {
    /// Where one stands who asks.
    fn folder(&self) -> &str {
        if self.is_outside {
            parent(self.program.as_str()).unwrap_or("/")
        } else {
            self.room.as_str()
        }
    }

    /// What is run as cargo: this program, by a relative path from outside.
    fn cargo(&self, alloc: Global) -> Result<String, AllocError> {
        let program = self.program.as_str();
        match program.rsplit_once('/') {
            Some((_, name)) if self.is_outside => format!(in alloc; "./{name}"),
            _ => String::from_str(alloc, program),
        }
    }

    /// The path of a file in the folder.
    fn file(&self, alloc: Global, name: &str) -> Result<String, AllocError> {
        format!(in alloc; "{}/{name}", self.room)
    }

    /// Writes a file in the folder.
    fn write(&self, rt: &HostRuntime, name: &str, text: &str) -> io::Result<()> {
        fs::write(rt, self.file(rt.alloc(), name)?.as_str(), text)
    }
}

/// A new folder for files.
fn room_of(rt: &HostRuntime, name: &str) -> Result<String, Fail> {
    let (folder, number) = (env::temp_dir(rt)?, process::id(rt.process()));
    let room = format!(in rt.alloc(); "{}/krates_{name}_{number}", folder.as_str())?;
    fs::create_dir_all(rt, room.as_str())?;
    Ok(room)
}

/// A place with a new folder, in which is `empty.json`.
fn place_of(rt: &HostRuntime, name: &str, is_outside: bool) -> Result<Place, Fail> {
    let room = room_of(rt, name)?;
    let program = env::current_exe(rt)?;
    let place = Place {
        room,
        program,
        is_outside,
    };
    place.write(rt, "empty.json", "{}")?;
    Ok(place)
}

/// The program in the variable `RUSTC`, which is empty where there is none, and the other words of a line.
fn rustc_of(line: &str) -> (&str, &str) {
    match line.strip_prefix("RUSTC=") {
        Some(line) => line.split_once(' ').unwrap_or((line, "")),
        None => ("", line),
    }
}

/// Whether a line says by which rules it is, or which resolver a build has.
fn says_rules(line: &str) -> bool {
    line.contains("--by ") || line.contains("--resolver ")
}

/// Adds the words of a line. If it says no rules, it is by krates.
fn add_words(alloc: Global, command: &mut Command, room: &str, line: &str) -> Result<(), Fail> {
    for word in &words_of(alloc, line)? {
        command.arg(word.replace(alloc, "ROOM", room)?.as_str())?;
    }
    if !says_rules(line) {
        command.arg("--by=krates")?;
    }
    Ok(())
}

/// Sets which programs are run, and where.
fn set_programs(
    alloc: Global,
    command: &mut Command,
    place: &Place,
    rustc: &str,
) -> Result<(), AllocError> {
    command.env("CARGO", place.cargo(alloc)?.as_str())?;
    command.env("RUSTC", rustc)?;
    command.current_dir(place.folder())?;
    Ok(())
}

/// Where nobody reads: a pipe whose other end is closed.
fn nobody(rt: &HostRuntime) -> io::Result<PipeWriter> {
    let (reader, writer) = io::pipe(rt)?;
    drop(reader);
    Ok(writer)
}

/// Asks as a line says, behind whose words `| nobody` may stand.
fn prepare(rt: &HostRuntime, command: &mut Command, place: &Place, line: &str) -> Result<(), Fail> {
    let (rustc, line) = rustc_of(line);
    let words = line.strip_suffix(" | nobody");
    command.arg("metadata")?;
    add_words(
        rt.alloc(),
        command,
        place.room.as_str(),
        words.unwrap_or(line),
    )?;
    set_programs(rt.alloc(), command, place, rustc)?;
    let input = place.file(rt.alloc(), "empty.json")?;
    command.stdin(File::open(rt, input.as_str())?);
    if words.is_some() {
        command.stdout(nobody(rt)?);
    }
    Ok(())
}

/// What is printed, with what the place and this program are called in lines, and without what a test adds.
fn told(alloc: Global, place: &Place, output: &Output) -> Result<String, Fail> {
    let (answer, errors) = (
        str::from_utf8(&output.stdout)?,
        str::from_utf8(&output.stderr)?,
    );
    let names = [
        (PASSED, ""),
        (FAILED, ""),
        (FAILED_AS_CARGO, ""),
        (LOUD, ""),
        (" (core dumped)", ""),
        (place.room.as_str(), "ROOM"),
        (place.program.as_str(), "SELF"),
    ];
    let told = format!(in alloc; "{answer}{errors}")?;
    Ok(replaced(alloc, told.as_str(), &names)?)
}

/// What is printed for a line by a command that has no words yet.
fn told_by(
    rt: &HostRuntime,
    command: &mut Command,
    place: &Place,
    line: &str,
) -> Result<String, Fail> {
    prepare(rt, command, place, line)?;
    told(rt.alloc(), place, &command.output(rt)?)
}

/// What is printed for a line.
fn answered(rt: &HostRuntime, place: &Place, line: &str) -> Result<String, Fail> {
    let mut command = Command::new(rt.alloc(), place.program.as_str())?;
    let told = told_by(rt, &mut command, place, line);
    drop(command);
    told
}

/// Compares what is printed for each line in a place.
fn hold_in(rt: &HostRuntime, place: &Place, rows: &[Row]) -> Result<(), Fail> {
    let mut failures = Failures::new(rt.alloc());
    for &(line, answer) in rows {
        failures.compare(line, answered(rt, place, line), answer)?;
    }
    failures.reported()
}

/// Writes a file that is run as rustc.
fn make_rustc(rt: &HostRuntime, place: &Place, name: &str) -> Result<(), Fail> {
    let path = place.file(rt.alloc(), name)?;
    let text = format!(in rt.alloc(); "#!{} metadata\n", place.program.as_str())?;
    fs::write(rt, path.as_str(), text.as_str())?;
    Ok(fs::set_permissions(rt, path.as_str(), Permissions::from_mode(0o755))?)
}

/// Writes a document whose workspace is here, and the manifest of that workspace.
fn make_workspace(rt: &HostRuntime, place: &Place) -> Result<(), Fail> {
    let root = format!(in rt.alloc(); "\"workspace_root\":\"{}\"", place.room)?;
    let document = DOCUMENT.replace(rt.alloc(), "\"workspace_root\":\"/w\"", root.as_str())?;
    place.write(rt, "here.json", document.as_str())?;
    place.write(rt, "Cargo.toml", "[workspace]\nresolver = \"2\"\n")?;
    Ok(())
}

/// Writes the files that are read, and those that are run.
fn make_files(rt: &HostRuntime, place: &Place) -> Result<(), Fail> {
    place.write(rt, "document.json", DOCUMENT)?;
    place.write(rt, "marked.json", "\u{feff}{}")?;
    place.write(rt, "odd.cfg", "target_arch=\"odd\"\nunix\n")?;
    make_workspace(rt, place)?;
    for name in &RUSTCS {
        make_rustc(rt, place, *name)?;
    }
    Ok(())
}

/// Compares what is printed in a place with such files.
fn hold_with_files(rt: &HostRuntime, place: &Place) -> Result<(), Fail> {
    make_files(rt, place)?;
    hold_in(rt, place, READ)?;
    hold_in(rt, place, CHECKED)?;
    hold_in(rt, place, BY_CARGO)?;
    hold_in(rt, place, BY_RUSTC)?;
    hold_in(rt, place, BY_BUILD)?;
    hold_in(rt, place, TO_NOBODY)?;
    Ok(fs::remove_dir_all(rt, place.room.as_str())?)
}

#[test]
fn reads_and_runs_up_to_a_limit(rt: HostRuntime) -> Result<(), Fail> {
    let place = place_of(&rt, "inputs", false)?;
    hold_with_files(&rt, &place)
}

/// Writes files by which the folder of a place names programs.
fn make_naming(rt: &HostRuntime, place: &Place) -> Result<(), Fail> {
    fs::create_dir_all(rt, place.file(rt.alloc(), ".cargo")?.as_str())?;
    place.write(rt, ".cargo/config.toml", "[build]\nrustc = \"./rustc\"\n")?;
    place.write(rt, "rust-toolchain.toml", "[toolchain]\npath = \".\"\n")?;
    Ok(place.write(rt, "Cargo.toml", "")?)
}

/// Asks by these rows in a place whose folder names programs, and returns whether one of them was started.
fn starts(rt: &HostRuntime, place: &Place, rows: &[Row]) -> Result<bool, Fail> {
    make_naming(rt, place)?;
    hold_in(rt, place, rows)?;
    let note = place.file(rt.alloc(), NOTE)?;
    let has_started = fs::exists(rt, note.as_str())?;
    fs::remove_dir_all(rt, place.room.as_str())?;
    Ok(has_started)
}

/// What is asked of a folder from outside, where a relative path means a cargo from where one stands.
static FROM_OUTSIDE: &[Row] = &[("krates list --manifest-path ROOM/Cargo.toml", LISTED)];

#[test]
fn looks_from_outside(rt: HostRuntime) -> Result<(), Fail> {
    let place = place_of(&rt, "outside", true)?;
    assert!(rt; !starts(&rt, &place, FROM_OUTSIDE)?);
    Ok(())
}

/// What is asked of the folder that one stands in.
static FROM_INSIDE: &[Row] = &[("krates list", LISTED)];

#[test]
fn looks_from_inside(rt: HostRuntime) -> Result<(), Fail> {
    let place = place_of(&rt, "inside", false)?;
    assert!(rt; starts(&rt, &place, FROM_INSIDE)?);
    Ok(())
}
