//! What each type is read as, and each refusal by a value of which only that one is true.

use crate::packages::hold_within;
use json::Scratch;
use krates_cm::{
    DepKindInfo, Dependency, Metadata, Node, NodeDep, Package, PackageId, ReadError, Resolve,
    Source, Target,
};
use krates_cm_json::{Borrowed, FromValue, JsonRef, Parsed};
use krates_samples::table::{Row, Tell, compare, hold, hold_lines};
use krates_text::text::Text;
use serde_json::Value;
use std::alloc::{AllocError, Global};
use std::fmt::Debug;
use std::test::Fail;

/// JSON that is read as an id, or why it isn't.
static IDS: &str = r#"
"a 0.1.0" => PackageId { repr: "a 0.1.0" }
null => wrong type at key: $
1 => wrong type at key: $
[] => wrong type at key: $
"#;

/// The same of a source.
static SOURCES: &str = r#"
"a 0.1.0" => Source { repr: "a 0.1.0" }
null => wrong type at key: $
1 => wrong type at key: $
[] => wrong type at key: $
"#;

/// The same of what a resolved dependency is needed for.
static KINDS: &str = r#"
{} => DepKindInfo { kind: Normal, target: None }
{"kind":null,"target":null} => DepKindInfo { kind: Normal, target: None }
{"kind":"normal","other":[1]} => DepKindInfo { kind: Normal, target: None }
{"kind":"dev","target":"cfg(unix)"} => DepKindInfo { kind: Development, target: Some("cfg(unix)") }
{"kind":"dev","kind":"build"} => DepKindInfo { kind: Build, target: None }
[] => wrong type at key: $
{"kind":1} => wrong type at key: kind
{"kind":"Dev"} => bad dependency kind
{"target":[]} => wrong type at key: target
"#;

/// The same of a dependency of a node.
static NODE_DEPENDENCIES: &str = r#"
{"name":"b","pkg":"c","dep_kinds":[{"kind":"dev"}]} => NodeDep { name: "b", pkg: PackageId { repr: "c" }, dep_kinds: [DepKindInfo { kind: Development, target: None }] }
{"name":"b","pkg":"c"} => NodeDep { name: "b", pkg: PackageId { repr: "c" }, dep_kinds: [] }
{"pkg":"c"} => missing key: name
{"name":"b"} => missing key: pkg
{"name":"b","pkg":"c","dep_kinds":null} => wrong type at key: dep_kinds
"#;

/// The same of a node.
static NODES: &str = r#"
{"id":"a","deps":[],"dependencies":["c"],"features":["f","g"]} => Node { id: PackageId { repr: "a" }, deps: [], dependencies: [PackageId { repr: "c" }], features: ["f", "g"] }
{"id":"a","dependencies":[]} => Node { id: PackageId { repr: "a" }, deps: [], dependencies: [], features: [] }
{"dependencies":[]} => missing key: id
{"id":"a"} => missing key: dependencies
{"id":"a","dependencies":[],"deps":null} => wrong type at key: deps
{"id":"a","dependencies":[],"features":["f",2]} => wrong type at key: features
"#;

/// The same of a resolved graph.
static GRAPHS: &str = r#"
{"nodes":[],"root":null} => Resolve { nodes: [], root: None }
{"nodes":[],"root":"a"} => Resolve { nodes: [], root: Some(PackageId { repr: "a" }) }
{"nodes":[]} => missing key: root
{"root":null} => missing key: nodes
{"nodes":null,"root":null} => wrong type at key: nodes
{"nodes":[7],"root":null} => wrong type at key: nodes
"#;

/// The same of a declared dependency.
static DECLARED: &str = r#"
{"name":"b","source":"s","req":"*","kind":"build","rename":"c","optional":true,"uses_default_features":false,"features":["f"],"target":"t","registry":"r","path":"p"} => Dependency { name: "b", source: Some("s"), req: VersionReq { comparators: [] }, kind: Build, optional: true, uses_default_features: false, features: ["f"], target: Some("t"), rename: Some("c"), registry: Some("r"), path: Some("p") }
{"name":"b","req":"*","optional":false,"uses_default_features":true,"features":[]} => Dependency { name: "b", source: None, req: VersionReq { comparators: [] }, kind: Normal, optional: false, uses_default_features: true, features: [], target: None, rename: None, registry: None, path: None }
{"name":"b","req":"one","optional":false,"uses_default_features":true,"features":[]} => bad version requirement
{"name":"b","req":"*","optional":"no","uses_default_features":true,"features":[]} => wrong type at key: optional
{"name":"b","req":"*","optional":false,"uses_default_features":true,"features":null} => wrong type at key: features
{"name":"b","req":"*","optional":false,"features":[]} => missing key: uses_default_features
"#;

/// The same of a target.
static TARGETS: &str = r#"
{"name":"t","kind":["lib","proc-macro"],"crate_types":["rlib"],"required-features":["f"],"src_path":"s","edition":"2021","doctest":false,"test":true,"doc":false} => Target { name: "t", kind: [Lib, ProcMacro], crate_types: [RLib], required_features: ["f"], src_path: "s", edition: E2021, doctest: false, test: true, doc: false }
{"name":"t","kind":[],"src_path":"s"} => Target { name: "t", kind: [], crate_types: [], required_features: [], src_path: "s", edition: E2015, doctest: true, test: true, doc: true }
// JSON that isn't a target, and why
{"name":"t","kind":["library"],"src_path":"s"} => bad target kind
{"name":"t","kind":[],"crate_types":["test"],"src_path":"s"} => bad crate type
{"name":"t","kind":[],"src_path":"s","edition":"2020"} => bad edition
{"name":"t","kind":[],"src_path":"s","edition":null} => wrong type at key: edition
{"name":"t","kind":"lib","src_path":"s"} => wrong type at key: kind
{"name":"t","kind":[],"src_path":"s","required-features":null} => wrong type at key: required-features
"#;

/// A package that has every key, and what it is read as.
static EVERY_KEY: &[Row] = &[(
    r#"{"name":"a","version":"1.2.3-rc.1+b","id":"i","license":"MIT","license_file":"L",
        "description":"d","source":"s","dependencies":[],"targets":[],"features":{"y":[],"x":["dep:b","y"]},
        "manifest_path":"/w/a/Cargo.toml","metadata":{"k":[1]},"publish":["r"],"authors":["A"],
        "categories":["c"],"keywords":["k"],"readme":"R","repository":"p","homepage":"h",
        "documentation":"o","edition":"2024","links":"n","default_run":"u","rust_version":"1.70"}"#,
    r#"Package { name: "a", version: Version { major: 1, minor: 2, patch: 3, pre: Prerelease("rc.1"), build: BuildMetadata("b") }, authors: ["A"], id: PackageId { repr: "i" }, source: Some(Source { repr: "s" }), description: Some("d"), dependencies: [], license: Some("MIT"), license_file: Some("L"), targets: [], features: {"x": ["dep:b", "y"], "y": []}, manifest_path: "/w/a/Cargo.toml", categories: ["c"], keywords: ["k"], readme: Some("R"), repository: Some("p"), homepage: Some("h"), documentation: Some("o"), edition: E2024, metadata: Object {"k": Array [Number(1)]}, links: Some("n"), publish: Some(["r"]), default_run: Some("u"), rust_version: Some(Version { major: 1, minor: 70, patch: 0 }) }"#,
)];

/// The keys that a package must have, around a further one, which may occur twice: the last counts.
const PACKAGE: (&str, &str) = (
    r#"{"name":"a","version":"1.0.0","id":"i","dependencies":[],"targets":[],"features":{},"manifest_path":"m","#,
    "}",
);

/// What is wrong with a package of one more key.
static PACKAGES_REFUSED: &str = r#"
"version":"1.0" => bad version
"authors":null => wrong type at key: authors
"features":{"x":[],"y":[0]} => wrong type at key: features
"edition":null => wrong type at key: edition
"rust_version":"1" => bad rust version
"rust_version":"1.70.0-beta" => bad rust version
"rust_version":"1.70.0+b" => bad rust version
"dependencies":[null] => wrong type at key: dependencies
"#;

/// The keys that a document has to have, around further ones.
const DOCUMENT: (&str, &str) = (
    r#"{"packages":[],"workspace_members":["a"],"workspace_root":"/w","target_directory":"/t","#,
    "}",
);

/// What is read of a document of further keys, or why it isn't.
static DOCUMENTS: &str = r#"
"resolve":null,"build_directory":null => Metadata { packages: [], workspace_members: [PackageId { repr: "a" }], workspace_default_members: WorkspaceDefaultMembers(None), resolve: None, workspace_root: "/w", target_directory: "/t", build_directory: None, workspace_metadata: Null, version: 0 }
"version":18446744073709551615,"build_directory":"/b","workspace_default_members":[],"metadata":true => Metadata { packages: [], workspace_members: [PackageId { repr: "a" }], workspace_default_members: WorkspaceDefaultMembers(Some([])), resolve: None, workspace_root: "/w", target_directory: "/t", build_directory: Some("/b"), workspace_metadata: Bool(true), version: 18446744073709551615 }
"version":18446744073709551616 => wrong type at key: version
"version":-1 => wrong type at key: version
"version":1.5 => wrong type at key: version
"version":null => wrong type at key: version
"workspace_default_members":null => wrong type at key: workspace_default_members
"resolve":{"nodes":[]} => missing key: root
"packages":[null] => wrong type at key: packages
"#;

/// What is read as this type, or the text of the refusal.
struct Read<T> {
    value: T,
}

/// Adds what was read, with all its fields, or the text of the refusal.
fn push_read<T: Debug + Drop>(told: &mut Text, read: Result<T, ReadError>) {
    match read {
        Ok(read) => write!(told, "{read:?}"),
        Err(error) => write!(told, "{error}"),
    }
}

/// What is read as this type from a value that is kept somewhere.
fn read_from<T: FromValue + Debug, J: JsonRef>(
    alloc: Global,
    value: J,
) -> Result<String, AllocError> {
    let mut told = Text::new(alloc);
    push_read(&mut told, T::from_json_at(alloc, value, ""));
    told.whole()
}

/// What is read as this type from a value in its text.
fn read_in_text<T: FromValue + Debug>(alloc: Global, json: &str) -> Result<String, Fail> {
    let mut scratch = Scratch::new(alloc);
    let Some(parsed) = Parsed::parse(alloc, json, &mut scratch)? else {
        return Err(Fail::new(format_args!("not read in its text: {json}")));
    };
    Ok(read_from::<T, Borrowed<'_, '_>>(alloc, parsed.root())?)
}

/// A value in a text reads as the same as one of `serde_json`.
impl<T: FromValue + Debug> Tell for Read<T> {
    fn tell(told: &mut Text, json: &str) -> Result<(), Fail> {
        let value = Value::from_str(told.allocator(), json)?;
        let read = T::from_value(told.allocator(), &value);
        push_read(told, read);
        let in_text = read_in_text::<T>(told.allocator(), json)?;
        compare(json, in_text.as_str(), told.as_str())
    }
}

#[test]
fn texts_graphs_and_dependencies(rt: HostRuntime) -> Result<(), Fail> {
    hold_lines::<Read<PackageId>>(rt.alloc(), IDS)?;
    hold_lines::<Read<Source>>(rt.alloc(), SOURCES)?;
    hold_lines::<Read<DepKindInfo>>(rt.alloc(), KINDS)?;
    hold_lines::<Read<NodeDep>>(rt.alloc(), NODE_DEPENDENCIES)?;
    hold_lines::<Read<Node>>(rt.alloc(), NODES)?;
    hold_lines::<Read<Resolve>>(rt.alloc(), GRAPHS)?;
    hold_lines::<Read<Dependency>>(rt.alloc(), DECLARED)?;
    hold_lines::<Read<Target>>(rt.alloc(), TARGETS)
}

#[test]
fn packages_and_whole_documents(rt: HostRuntime) -> Result<(), Fail> {
    hold::<Read<Package>>(rt.alloc(), EVERY_KEY)?;
    hold_within::<Read<Package>>(rt.alloc(), PACKAGE, PACKAGES_REFUSED)?;
    hold_within::<Read<Metadata>>(rt.alloc(), DOCUMENT, DOCUMENTS)
}
