//! Package specifications: what they are read as, why a text isn't one, and which packages they match.

use crate::packages::package;
use krates_ids::PkgSpec;
use krates_samples::table::{Question, Row, Tell, hold, hold_lines};
use krates_text::text::Text;
use std::test::Fail;

/// Texts, and the name, version and url of the specification that each is.
static READ: &str = "
 => , any version, any url
bitflags => bitflags, any version, any url
bitflags:1.0.4 => bitflags, 1.0.4, any url
bitflags@1.0.4 => bitflags, 1.0.4, any url
@1.0.4-rc.1+build => , 1.0.4-rc.1+build, any url
https://github.com/rust-lang/cargo => cargo, any version, https://github.com/rust-lang/cargo
https://github.com/rust-lang/cargo#0.33.0 => cargo, 0.33.0, https://github.com/rust-lang/cargo
https://github.com/rust-lang/crates.io-index#bitflags => bitflags, any version, https://github.com/rust-lang/crates.io-index
https://github.com/rust-lang/cargo#crates-io:0.21.0 => crates-io, 0.21.0, https://github.com/rust-lang/cargo
https://github.com/rust-lang/cargo#crates-io@0.21.0 => crates-io, 0.21.0, https://github.com/rust-lang/cargo
crates.io/foo => foo, any version, cargo://crates.io/foo
crates.io/foo#1.2.3 => foo, 1.2.3, cargo://crates.io/foo
https://x.org/7zip => 7zip, any version, https://x.org/7zip
https://x.org/7zip#7zip:1.0.0 => 7zip, 1.0.0, https://x.org/7zip
https://x.org/a#@1.0.0 => , 1.0.0, https://x.org/a
";

/// Texts, and how the specification that each is prints.
static PRINTED: &str = "
 =>
bitflags => bitflags
bitflags@1.0.4 => bitflags@1.0.4
bitflags:1.0.4 => bitflags@1.0.4
7zip => 7zip
@1.0.4-rc.1+build => @1.0.4-rc.1+build
https://github.com/rust-lang/cargo => https://github.com/rust-lang/cargo
https://github.com/rust-lang/cargo#0.33.0-beta.1 => https://github.com/rust-lang/cargo#0.33.0-beta.1
https://github.com/rust-lang/crates.io-index#bitflags => https://github.com/rust-lang/crates.io-index#bitflags
https://github.com/rust-lang/cargo#crates-io@0.21.0 => https://github.com/rust-lang/cargo#crates-io@0.21.0
https://github.com/rust-lang/cargo#crates-io:0.21.0 => https://github.com/rust-lang/cargo#crates-io@0.21.0
// the last piece is left out where it is given as the name
https://x.org/b/a#a => https://x.org/b/a
https://x.org/b/a#a@1.0.0 => https://x.org/b/a#1.0.0
// an earlier piece isn't, nor the end of the last
https://x.org/b/a#b => https://x.org/b/a#b
https://x.org/b/crates-io#io@1.0.0 => https://x.org/b/crates-io#io@1.0.0
crates.io/foo => cargo://crates.io/foo
crates.io/foo#1.2.3 => cargo://crates.io/foo#1.2.3
crates.io/foo#bar => cargo://crates.io/foo#bar
https://x.org/7zip => https://x.org/7zip
https://x.org/7zip#1.0.0 => https://x.org/7zip#1.0.0
https://x.org/7zip#7zip:1.0.0 => https://x.org/7zip#1.0.0
https://x.org/a#7zip@1.0.0 => https://x.org/a#7zip@1.0.0
https://x.org/a#@1.0.0 => https://x.org/a#@1.0.0
";

const NO_NAME: &str = "package spec was invalid: found an invalid character for the package name";

const NO_PATH: &str = "package spec was invalid: path required for urls";

const NO_VERSION: &str = "package spec was invalid: failed to parse version";

const ENDS_WITH_SLASH: &str = "package spec was invalid: url ends with /";

/// Texts that aren't a specification, and why.
static REFUSED: &[Row] = &[
    ("https://crates.io#1.2.3", NO_PATH),
    ("https://crates.io", NO_PATH),
    ("https://crates.io#foo", NO_PATH),
    ("https://crates.io/", ENDS_WITH_SLASH),
    ("crates.io/#1.2.3", ENDS_WITH_SLASH),
    ("crates.io#foo", NO_NAME),
    ("crates.io#1.2.3", NO_NAME),
    ("https://x.org/a#b#", NO_NAME),
    ("a.b@x", NO_NAME),
    ("https://x.org/a.b#1.0.0", NO_NAME),
    ("https://x.org/a.b#1.x", NO_VERSION),
    ("a@1.0", NO_VERSION),
    ("a/b#c://d", "package spec was invalid: missing url scheme"),
    (
        "https://crates.io/#",
        "package spec was invalid: package spec cannot end with '#'",
    ),
    (
        "a@",
        "package spec was invalid: package spec cannot end with ':'",
    ),
];

/// A specification, the version of the package `cargo` and its source as JSON, and whether the two match.
static MATCHES: &str = r#"
https://github.com/rust-lang/cargo 0.1.0 "git+https://github.com/rust-lang/cargo?branch=x#abc" => true
https://github.com/rust-lang/cargo 0.1.0 null => true
https://github.com/rust-lang/cargo 0.1.0 "a?b+c" => false
https://github.com/rust-lang/cargo 0.1.0 "https://github.com/rust-lang/cargo#abc" => true
https://github.com/rust-lang/cargo 0.1.0 "git+https://github.com/rust-lang/cargo.git" => false
cargo 0.1.0 "git+https://github.com/rust-lang/cargo?branch=x#abc" => true
crates-io 0.1.0 "git+https://github.com/rust-lang/cargo?branch=x#abc" => false
cargo@0.1.0 0.1.0 "git+https://github.com/rust-lang/cargo?branch=x#abc" => true
cargo@0.1.0 0.1.1 "git+https://github.com/rust-lang/cargo?branch=x#abc" => false
cargo@0.1.0 0.1.0+build "git+https://github.com/rust-lang/cargo?branch=x#abc" => false
cargo@0.1.0-rc.1 0.1.0 "git+https://github.com/rust-lang/cargo?branch=x#abc" => false
https://github.com/rust-lang/cargo#0.1.0 0.1.1 null => false
https://github.com/rust-lang/cargo#cargo-x@0.1.0 0.1.0 null => false
// of a source what is behind its first plus and before its first question mark, wherever a hash is
https://x.org/a+b#cargo 0.1.0 "git+https://x.org/a+b#c?d" => false
https://x.org/a+b#cargo 0.1.0 "git+https://x.org/a+b#c" => true
https://x.org/b#cargo 0.1.0 "git+https://x.org/a+b#c" => false
cargo@0.1.0-rc.1 0.1.0-rc.1 "git+https://github.com/rust-lang/cargo?branch=x#abc" => true
"#;

/// Adds the name, version and url of a specification.
fn push_described(told: &mut Text, spec: &PkgSpec) {
    let name = &spec.name;
    let url = match &spec.url {
        Some(url) => url.as_str(),
        None => "any url",
    };
    match &spec.version {
        Some(version) => write!(told, "{name}, {version}, {url}"),
        None => write!(told, "{name}, any version, {url}"),
    }
}

/// The specification that a text is, or why it isn't one.
struct Read;

impl Tell for Read {
    fn tell(told: &mut Text, text: &str) -> Result<(), Fail> {
        match PkgSpec::from_str(told.allocator(), text) {
            Ok(spec) => push_described(told, &spec),
            Err(error) => write!(told, "{error}"),
        }
        Ok(())
    }
}

/// The copy of the specification that a text is.
struct Copied;

impl Tell for Copied {
    fn tell(told: &mut Text, text: &str) -> Result<(), Fail> {
        let spec = PkgSpec::from_str(told.allocator(), text)?;
        push_described(told, &spec.clone()?);
        Ok(())
    }
}

/// How the specification that a text is prints.
struct Printed;

impl Tell for Printed {
    fn tell(told: &mut Text, text: &str) -> Result<(), Fail> {
        let spec = PkgSpec::from_str(told.allocator(), text)?;
        write!(told, "{spec}");
        Ok(())
    }
}

/// The specification that its printed text is.
struct PrintedAndRead;

impl Tell for PrintedAndRead {
    fn tell(told: &mut Text, text: &str) -> Result<(), Fail> {
        let printed = Printed::told(told.allocator(), text)?;
        Read::tell(told, printed.as_str())
    }
}

/// Whether the specification of a line matches the package `cargo` of its version, with its source as JSON.
struct Matches;

impl Tell for Matches {
    fn tell(told: &mut Text, line: &str) -> Result<(), Fail> {
        let (spec, line) = line.split_once(' ').unwrap_or((line, ""));
        let (version, source) = line.split_once(' ').unwrap_or((line, ""));
        let spec = PkgSpec::from_str(told.allocator(), spec)?;
        let package = package(told.allocator(), "cargo", version, source, "{}")?;
        write!(told, "{}", spec.matches(&package));
        Ok(())
    }
}

#[test]
fn specifications_are_read_printed_and_matched(rt: HostRuntime) -> Result<(), Fail> {
    hold_lines::<Read>(rt.alloc(), READ)?;
    hold_lines::<Copied>(rt.alloc(), READ)?;
    hold::<Read>(rt.alloc(), REFUSED)?;
    hold_lines::<Printed>(rt.alloc(), PRINTED)?;
    hold_lines::<PrintedAndRead>(rt.alloc(), READ)?;
    hold_lines::<Matches>(rt.alloc(), MATCHES)
}
