//! Which resolver a workspace uses, by the manifest of its root. What is expected is what the Cargo Book says, and what cargo 1.95 does.

use krates_cm::{Edition, Metadata};
use krates_manifest::resolver_of;
use krates_samples::documents;
use krates_samples::table::{Row, Tell, hold};
use krates_text::text::Text;
use std::alloc::Global;
use std::test::Fail;

/// What is named in the manifest, whatever the edition of the package is.
static NAMED: &[Row] = &[
    (
        "/w/a 2024 / [package]\nname = \"a\"\nresolver = \"1\"",
        "V1",
    ),
    (
        "/w/a 2015 / [package]\nname = \"a\"\nresolver = \"2\"",
        "V2",
    ),
    (
        "/w/a 2015 / [package]\nname = \"a\"\nresolver = \"3\"",
        "V3",
    ),
    ("/w/a 2024 / [workspace]\nresolver = \"1\"\n[package]", "V1"),
    ("/w/a 2024 / [workspace]\nresolver = \"2\"\n[package]", "V2"),
    ("/w/a 2018 / [workspace]\nresolver = \"3\"\n[package]", "V3"),
    // in other words of TOML
    ("/w/a 2015 / package.resolver = '2'", "V2"),
    ("/w/a 2015 / package = { resolver = \"\"\"2\"\"\" }", "V2"),
    (
        "/w/a 2015 / [\"package\"]\n\"resolver\" = \"\\u0032\"",
        "V2",
    ),
    ("/w/a 2024 / # none\r\n[workspace]\r\nresolver=\"1\"", "V1"),
    // as the package was once called
    ("/w/a 2015 / [project]\nresolver = \"2\"", "V2"),
    // what else is called so, or stands elsewhere
    (
        "/w/a 2015 / resolver = \"3\"\n[package]\n[features]\nresolver = [\"2\"]",
        "V1",
    ),
    (
        "/w/a 2015 / [package]\n[workspace]\npackage = { resolver = \"2\" }",
        "V1",
    ),
    (
        "/w/a 2015 / [package]\nmetadata.resolver = \"2\"\n[project]\nresolver = \"3\"",
        "V1",
    ),
];

/// What is used where the manifest names none: by the edition of its package, as the document says it.
static BY_EDITION: &[Row] = &[
    ("/w/a 2015 / [package]", "V1"),
    ("/w/a 2018 / [package]", "V1"),
    ("/w/a 2021 / [package]", "V2"),
    ("/w/a 2024 / [package]", "V3"),
    // the edition may be that of `workspace.package`, which the document has resolved
    (
        "/w/a 2021 / [package]\nedition.workspace = true\n[workspace.package]\nedition = \"2021\"",
        "V2",
    ),
    ("/w/a 2021 / [workspace]\n[project]", "V2"),
    // a path that cargo may have been given
    ("/w/./a/ 2021 / [package]", "V2"),
    // the other package, `b`, is of the edition 2024
    ("/w/b 2015 / [package]", "V3"),
    ("/w/b 2021 / [package]", "V3"),
];

/// A virtual manifest, whatever the editions of its members are.
static VIRTUAL: &[Row] = &[
    ("/w 2024 / [workspace]\nmembers = [\"a\", \"b\"]", "V1"),
    (
        "/w 2024 / [workspace]\n[workspace.package]\nedition = \"2024\"",
        "V1",
    ),
    ("/w 2015 / [workspace]\nresolver = \"2\"", "V2"),
    ("/w 2015 / [workspace]\nresolver = \"3\"", "V3"),
    ("/w 2015 / workspace.resolver = \"1\"", "V1"),
];

/// What is refused, and how.
static REFUSED: &[Row] = &[
    (
        "/w/a 2021 / [package",
        "TOML parse error at line 1, column 9: unclosed table, expected `]`",
    ),
    (
        "/w/a 2021 / [package]\nname = \"a\"\nname = \"b\"",
        "TOML parse error at line 3, column 1: duplicate key",
    ),
    // two, even if they are equal
    (
        "/w/a 2021 / [package]\nresolver = \"1\"\n[workspace]\nresolver = \"2\"",
        "both `workspace` and `package` of the manifest name a resolver",
    ),
    (
        "/w/a 2021 / [package]\nresolver = \"2\"\n[workspace]\nresolver = \"2\"",
        "both `workspace` and `package` of the manifest name a resolver",
    ),
    (
        "/w/a 2021 / [package]\nresolver = \"4\"\n[workspace]\nresolver = 2",
        "both `workspace` and `package` of the manifest name a resolver",
    ),
    (
        "/w/a 2021 / [package]\nresolver = \"4\"",
        "\"4\" is no resolver: there are \"1\", \"2\" and \"3\"",
    ),
    (
        "/w/a 2021 / [package]\nresolver = 2",
        "2 is no resolver: there are \"1\", \"2\" and \"3\"",
    ),
    (
        "/w 2021 / [workspace]\nresolver = [\"2\"]",
        "[\"2\"] is no resolver: there are \"1\", \"2\" and \"3\"",
    ),
    (
        "/w 2021 / [workspace]\nresolver = \"\u{202e}2\"",
        "\"\\u{202e}2\" is no resolver: there are \"1\", \"2\" and \"3\"",
    ),
    (
        "/w 2021 / [workspace]\nresolver = \"2 \"",
        "\"2 \" is no resolver: there are \"1\", \"2\" and \"3\"",
    ),
    // a document of another workspace
    (
        "/w 2021 / [package]",
        "the document has no package with the manifest of the workspace's root",
    ),
    (
        "/w/c 2021 / [package]",
        "the document has no package with the manifest of the workspace's root",
    ),
];

/// The edition of this name.
fn edition_named(name: &str) -> Edition {
    name.parse::<Edition>().unwrap_or(Edition::E2015)
}

/// The document of a workspace in a directory, with the packages `a` and `b`, of which the second is of the edition 2024.
fn document_in(alloc: Global, directory: &str, edition: &str) -> Result<Metadata, Fail> {
    let mut metadata = documents::metadata(alloc, "a|b / members a b")?;
    metadata.workspace_root = String::from_str(alloc, directory)?;
    for pkg in metadata.packages.iter_mut() {
        pkg.edition = match pkg.name.as_str() {
            "a" => edition_named(edition),
            _ => Edition::E2024,
        };
    }
    Ok(metadata)
}

/// The resolver of a workspace: a line has its root, the edition of `a`, and the manifest.
struct Used;

impl Tell for Used {
    fn tell(told: &mut Text, line: &str) -> Result<(), Fail> {
        let (words, manifest) = line.split_once(" / ").unwrap_or((line, ""));
        let (directory, edition) = words.split_once(' ').unwrap_or((words, ""));
        let metadata = document_in(told.allocator(), directory, edition)?;
        match resolver_of(told.allocator(), &metadata, manifest) {
            Ok(resolver) => write!(told, "{resolver:?}"),
            Err(error) => write!(told, "{error}"),
        }
        Ok(())
    }
}

#[test]
fn named_resolvers_are_used(rt: HostRuntime) -> Result<(), Fail> {
    hold::<Used>(rt.alloc(), NAMED)
}

#[test]
fn editions_have_resolvers(rt: HostRuntime) -> Result<(), Fail> {
    hold::<Used>(rt.alloc(), BY_EDITION)
}

#[test]
fn virtual_manifests_have_the_first(rt: HostRuntime) -> Result<(), Fail> {
    hold::<Used>(rt.alloc(), VIRTUAL)
}

#[test]
fn other_manifests_are_refused(rt: HostRuntime) -> Result<(), Fail> {
    hold::<Used>(rt.alloc(), REFUSED)
}
