//! What a document answers, what its kinds and ids print, and copies of its types.

use crate::ids::package_id;
use crate::packages::{hold_within, package, read, same_fields};
use krates_cm::{
    DepKindInfo, Dependency, DependencyKind, Edition, Metadata, Package, PackageId, Source, Target,
    TargetKind, WorkspaceDefaultMembers,
};
use krates_cm_json::FromValue;
use krates_samples::stand_in::DOCUMENT as TWO_PACKAGES;
use krates_samples::table::{Tell, compare, hold_lines};
use krates_text::text::Text;
use std::alloc::{AllocError, Global};
use std::fmt::Debug;
use std::marker::PhantomData;
use std::test::Fail;

/// What comes before and after the rows: the packages `a` in `/w/a` and `b` in `/w/b`, two packages of one id, of which the first has a manifest
/// of another name, and a member `a`.
const DOCUMENT: (&str, &str) = (
    r#"{"packages":[{"name":"a","version":"0.1.0","id":"A","dependencies":[],"targets":[],"features":{},"manifest_path":"/w/a/Cargo.toml"},{"name":"b","version":"0.1.0","id":"B","dependencies":[],"targets":[],"features":{},"manifest_path":"/w/./b//Cargo.toml"},{"name":"c","version":"0.1.0","id":"C","dependencies":[],"targets":[],"features":{},"manifest_path":"/w/c/Other.toml"},{"name":"d","version":"0.1.0","id":"C","dependencies":[],"targets":[],"features":{},"manifest_path":"/w/d/Cargo.toml"}],"workspace_members":["A"],"target_directory":"/t","#,
    "}",
);

/// The rest of a document, and its root, the packages of the workspace, the default ones, and the package `B`.
static ANSWERS: &str = r#"
"workspace_root":"/w" => root None, members ["a"], default None, B is Some("b")
"workspace_root":"/w/b/","workspace_default_members":["B"] => root Some("b"), members ["a"], default Some(["b"]), B is Some("b")
"workspace_root":"/w/b","resolve":null,"workspace_default_members":["B","A","D"] => root Some("b"), members ["a"], default Some(["a", "b"]), B is Some("b")
"workspace_root":"/w/b","resolve":{"nodes":[],"root":"A"},"workspace_default_members":[] => root Some("a"), members ["a"], default Some([]), B is Some("b")
"workspace_root":"/w/b","resolve":{"nodes":[],"root":null} => root None, members ["a"], default None, B is Some("b")
"workspace_root":"/w/b","resolve":{"nodes":[],"root":"D"} => root None, members ["a"], default None, B is Some("b")
// of two packages of one id the first, and both where several are meant
"workspace_root":"/w/b","resolve":{"nodes":[],"root":"C"},"workspace_default_members":["C"] => root Some("c"), members ["a"], default Some(["c", "d"]), B is Some("b")
// only a manifest that is called so is that of the workspace's root
"workspace_root":"/w/c" => root None, members ["a"], default None, B is Some("b")
"#;

/// Further keys of the document of two packages, of which `a` is the member; and the packages of the workspace and the default ones.
static WORKSPACES: &str = r#"
 => members ["a"], default None
,"workspace_default_members":["path+file:///w/b#0.1.0"] => members ["a"], default Some(["b"])
"#;

/// The manifest of a package with its licence file and its readme, and where these are.
static FILES: &str = r#"
"manifest_path":"/w/a/Cargo.toml","license_file":"LICENSE","readme":"R" => Some("/w/a/LICENSE"), Some("/w/a/R")
"manifest_path":"/w/a/Cargo.toml","license_file":"../L" => Some("/w/a/../L"), None
"manifest_path":"/w/a/Cargo.toml","license_file":"/x" => Some("/x"), None
"manifest_path":"Cargo.toml","readme":"R" => None, Some("R")
"manifest_path":"/","readme":"R" => None, Some("/R")
"#;

/// What surrounds the rows above.
const PACKAGE: (&str, &str) = (
    r#"{"name":"a","version":"0.1.0","id":"A","dependencies":[],"targets":[],"features":{},"#,
    "}",
);

/// What surrounds the kinds of a target.
const TARGET: (&str, &str) = (r#"{"name":"t","src_path":"s","kind":["#, "]}");

/// The kinds of a target, and which tests say yes.
static KINDS: &str = r#"
"lib" => lib $
"rlib","dylib","cdylib","staticlib" =>
"bin" => bin $
"example" => example $
"test" => test $
"bench" => bench $
"custom-build" => custom-build $
"proc-macro" => proc-macro $
"test","lib","bin" => lib bin test $
"#;

/// The source of a package as JSON, and of what kind it is, and whether the package is local.
static SOURCES: &str = r#"
// as cargo writes a path dependency, and a member
null => None, local: true
// as it writes crates.io, by either protocol
"registry+https://github.com/rust-lang/crates.io-index" => Some(Registry), local: false
"sparse+https://index.crates.io/" => Some(SparseRegistry), local: false
"git+https://github.com/x/y?branch=a#abc" => Some(Git), local: false
// as an id has it
"path+file:///w/x" => Some(Path), local: true
// only the first plus counts
"git+path+x" => Some(Git), local: false
"path+git+x" => Some(Path), local: true
"x+path+y" => Some(Other), local: false
// the word is whole, and in small letters, and may have nothing after it
"gitx+https://h" => Some(Other), local: false
"gi+https://h" => Some(Other), local: false
" path+file:///w/x" => Some(Other), local: false
"Path+file:///w/x" => Some(Other), local: false
"+x" => Some(Other), local: false
"sparse+" => Some(SparseRegistry), local: false
// no plus
"file:///x" => Some(Other), local: false
"registry" => Some(Other), local: false
"path" => Some(Other), local: false
"" => Some(Other), local: false
"#;

/// Adds the names of packages, as a list.
fn push_names(told: &mut Text, packages: &[&Package]) {
    let mut mark = "[";
    for package in packages {
        write!(told, "{mark}{:?}", package.name);
        mark = ", ";
    }
    told.push_str(if packages.is_empty() { "[]" } else { "]" })
}

/// A value that answers small questions.
trait Answers: FromValue {
    /// Adds what it answers.
    fn push_answers(&self, told: &mut Text) -> Result<(), AllocError>;
}

/// Adds the packages of the workspace of a document, and the default ones.
fn push_workspace(told: &mut Text, metadata: &Metadata) -> Result<(), AllocError> {
    let alloc = told.allocator();
    told.push_str("members ");
    push_names(told, &metadata.workspace_packages(alloc)?);
    told.push_str(", default ");
    match metadata.workspace_default_packages(alloc)? {
        Some(packages) => {
            told.push_str("Some(");
            push_names(told, &packages);
            told.push_str(")")
        }
        None => told.push_str("None"),
    }
    Ok(())
}

/// What a document answers.
impl Answers for Metadata {
    fn push_answers(&self, told: &mut Text) -> Result<(), AllocError> {
        let root = self.root_package().map(|p| p.name.as_str());
        write!(told, "root {root:?}, ");
        push_workspace(told, self)?;
        let id = package_id(told.allocator(), "B")?;
        let b = self.package(&id).map(|p| p.name.as_str());
        write!(told, ", B is {b:?}");
        Ok(())
    }
}

/// Where the licence file and the readme of a package are.
impl Answers for Package {
    fn push_answers(&self, told: &mut Text) -> Result<(), AllocError> {
        let license = self.license_file(told.allocator())?;
        let readme = self.readme(told.allocator())?;
        write!(told, "{license:?}, {readme:?}");
        Ok(())
    }
}

/// The tests that say yes of a target.
impl Answers for Target {
    fn push_answers(&self, told: &mut Text) -> Result<(), AllocError> {
        let all = [
            (self.is_lib(), "lib "),
            (self.is_bin(), "bin "),
            (self.is_example(), "example "),
            (self.is_test(), "test "),
            (self.is_bench(), "bench "),
            (self.is_custom_build(), "custom-build "),
            (self.is_proc_macro(), "proc-macro "),
        ];
        for &(is, name) in all.as_slice() {
            if is {
                told.push_str(name);
            }
        }
        Ok(())
    }
}

/// What the value answers that JSON is.
struct AnswersOf<T: Answers> {
    of: PhantomData<T>,
}

impl<T: Answers> Tell for AnswersOf<T> {
    fn tell(told: &mut Text, json: &str) -> Result<(), Fail> {
        let value: T = read(told.allocator(), json)?;
        Ok(value.push_answers(told)?)
    }
}

/// The packages of the workspace of the document that JSON is, and the default ones.
struct Workspace;

impl Tell for Workspace {
    fn tell(told: &mut Text, json: &str) -> Result<(), Fail> {
        let metadata: Metadata = read(told.allocator(), json)?;
        Ok(push_workspace(told, &metadata)?)
    }
}

/// Of what kind a source is that JSON is, and whether a package of it is local.
struct Origin;

impl Tell for Origin {
    fn tell(told: &mut Text, source: &str) -> Result<(), Fail> {
        let package = package(told.allocator(), "p", "1.0.0", source, "{}")?;
        let kind = package.source.as_ref().map(|source| source.kind());
        write!(told, "{kind:?}, local: {}", package.is_local());
        Ok(())
    }
}

#[test]
fn what_documents_packages_targets_and_sources_answer(rt: HostRuntime) -> Result<(), Fail> {
    hold_lines::<Origin>(rt.alloc(), SOURCES)?;
    let document = TWO_PACKAGES.strip_suffix("}").unwrap_or("");
    hold_within::<Workspace>(rt.alloc(), (document, "}"), WORKSPACES)?;
    hold_within::<AnswersOf<Metadata>>(rt.alloc(), DOCUMENT, ANSWERS)?;
    hold_within::<AnswersOf<Package>>(rt.alloc(), PACKAGE, FILES)?;
    hold_within::<AnswersOf<Target>>(rt.alloc(), TARGET, KINDS)
}

/// JSON of each type that is copied.
static COPIED_ID: &str = r#""a 0.1.0""#;

static COPIED_INFO: &str = r#"{"kind":"dev","target":"t"}"#;

static COPIED_DEPENDENCY: &str =
    r#"{"name":"b","source":"s","req":">=1.2, <3","kind":"build","optional":true,"uses_default_features":false,"features":["f","g"],"target":"t","rename":"r","registry":"g","path":"/b"}"#;

static COPIED_TARGET: &str =
    r#"{"name":"t","kind":["custom-build"],"crate_types":["cdylib"],"required-features":["f"],"src_path":"s","edition":"2021","doctest":false,"test":true,"doc":false}"#;

static COPIED_DOCUMENTED_TARGET: &str =
    r#"{"name":"t","kind":["lib","rlib"],"src_path":"s","doctest":false,"test":false,"doc":true}"#;

static COPIED_PACKAGE: &str =
    r#"{"name":"a","version":"1.2.3-rc+b","authors":["x"],"id":"i","source":"s","description":"d","dependencies":[{"name":"b","req":"*","optional":false,"uses_default_features":true,"features":[]}],"license":"MIT","license_file":"L","targets":[{"name":"t","kind":["bin"],"src_path":"s"}],"features":{"f":["g"]},"manifest_path":"m","categories":["c"],"keywords":["k"],"readme":"R","repository":"o","homepage":"h","documentation":"u","edition":"2024","metadata":{"k":[1,null]},"links":"l","publish":["p"],"default_run":"p","rust_version":"1.70.1"}"#;

static COPIED_DOCUMENT: &str =
    r#"{"packages":[{"name":"a","version":"0.1.0","id":"a","dependencies":[],"targets":[],"features":{},"manifest_path":"m"}],"workspace_members":["a"],"workspace_default_members":["b"],"workspace_root":"/w","target_directory":"/t","build_directory":"/b","metadata":{"k":[true]},"version":1,"resolve":{"nodes":[{"id":"a","deps":[{"name":"b","pkg":"c","dep_kinds":[{"kind":"build","target":"t"}]}],"dependencies":["c"],"features":["f"]}],"root":"a"}}"#;

/// Fails where a copy of what is read of a text shows other fields.
fn copied<T: FromValue + Clone + Debug>(alloc: Global, json: &str) -> Result<(), Fail> {
    let read: T = read(alloc, json)?;
    let copy = read.clone()?;
    same_fields(alloc, json, &copy, &read)
}

/// A copy of the default members of a document.
fn copied_members(alloc: Global, json: &str) -> Result<WorkspaceDefaultMembers, Fail> {
    let metadata: Metadata = read(alloc, json)?;
    Ok(metadata.workspace_default_members.clone()?)
}

#[test]
fn copies(rt: HostRuntime) -> Result<(), Fail> {
    let alloc = rt.alloc();
    copied::<PackageId>(alloc, COPIED_ID)?;
    copied::<Source>(alloc, COPIED_ID)?;
    copied::<DepKindInfo>(alloc, COPIED_INFO)?;
    copied::<Dependency>(alloc, COPIED_DEPENDENCY)?;
    copied::<Target>(alloc, COPIED_TARGET)?;
    copied::<Target>(alloc, COPIED_DOCUMENTED_TARGET)?;
    copied::<Package>(alloc, COPIED_PACKAGE)?;
    copied::<Metadata>(alloc, COPIED_DOCUMENT)?;
    let members = copied_members(alloc, COPIED_DOCUMENT)?;
    assert!(rt; matches!(members.as_slice(), Some([_])));
    Ok(())
}

/// The source of this text.
fn source(alloc: Global, text: &str) -> Result<Source, AllocError> {
    Ok(Source {
        repr: String::from_str(alloc, text)?,
    })
}

/// What an id, a source, the kinds of dependencies and three editions print.
fn printed(alloc: Global) -> Result<String, AllocError> {
    let id = package_id(alloc, "i")?;
    let source = source(alloc, "s")?;
    let [normal, dev, build] = [
        DependencyKind::default(),
        DependencyKind::Development,
        DependencyKind::Build,
    ];
    let [first, latest] = [Edition::default(), Edition::E2024];
    let second = Edition::E2018.as_str();
    format!(in alloc; "{id} {source} {normal} {dev} {build} {first} {latest} {second}")
}

/// Whether two kinds of targets, two editions and two ids are ordered as they are named here.
fn ordered(alloc: Global) -> Result<String, AllocError> {
    let upper = package_id(alloc, "B")?;
    let lower = package_id(alloc, "a")?;
    let are_ordered = (
        TargetKind::CustomBuild < TargetKind::CDyLib,
        Edition::E2015 < Edition::E2018,
        upper < lower,
    );
    format!(in alloc; "{are_ordered:?}")
}

/// Sources, and whether each is crates.io.
static CRATES_IO: &str = "
registry+https://github.com/rust-lang/crates.io-index => true
registry+https://github.com/rust-lang/crates.io-index/ => false
";

/// Whether the source of a text is crates.io.
struct IsCratesIo;

impl Tell for IsCratesIo {
    fn tell(told: &mut Text, text: &str) -> Result<(), Fail> {
        let source = source(told.allocator(), text)?;
        write!(told, "{}", source.is_crates_io());
        Ok(())
    }
}

#[test]
fn printed_compared_and_known_sources(rt: HostRuntime) -> Result<(), Fail> {
    let alloc = rt.alloc();
    let expected = "i s normal dev build 2015 2024 2018";
    compare("printed", printed(alloc)?.as_str(), expected)?;
    compare("ordered", ordered(alloc)?.as_str(), "(true, true, true)")?;
    hold_lines::<IsCratesIo>(alloc, CRATES_IO)
}
