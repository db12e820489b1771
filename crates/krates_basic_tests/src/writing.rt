//! What each type is written as, and that what was written is read as it was.

use crate::packages::{read, same_fields, told_within};
use krates_cm::{Dependency, Metadata, Node, Package, PackageId, Resolve, Source, Target};
use krates_cm_json::{FromValue, ToValue};
use krates_samples::table::{Tell, hold_lines};
use krates_text::text::Text;
use std::fmt::Debug;
use std::test::Fail;

/// JSON that is read as an id, and what is written for it.
static IDS: &str = r#"
"a 0.1.0" => "a 0.1.0"
"#;

/// The same of a declared dependency.
static DECLARED: &str = r#"
{"name":"b","req":"*","kind":"dev","optional":false,"uses_default_features":false,"features":[]} => {"features":[],"kind":"dev","name":"b","optional":false,"registry":null,"rename":null,"req":"*","source":null,"target":null,"uses_default_features":false}
{"name":"b","source":"s","req":"*","kind":"normal","optional":true,"uses_default_features":true,"features":["f"],"target":"t","rename":"r","registry":"g","path":"/b"} => {"features":["f"],"kind":null,"name":"b","optional":true,"path":"/b","registry":"g","rename":"r","req":"*","source":"s","target":"t","uses_default_features":true}
"#;

/// The same of a target.
static TARGETS: &str = r#"
{"name":"t","kind":["lib","proc-macro"],"src_path":"s"} => {"crate_types":[],"doc":true,"doctest":true,"edition":"2015","kind":["lib","proc-macro"],"name":"t","src_path":"s","test":true}
{"name":"t","kind":["custom-build"],"crate_types":["cdylib","staticlib"],"required-features":["f"],"src_path":"s","edition":"2021","doctest":false,"test":false,"doc":false} => {"crate_types":["cdylib","staticlib"],"doc":false,"doctest":false,"edition":"2021","kind":["custom-build"],"name":"t","required-features":["f"],"src_path":"s","test":false}
"#;

/// The same of a package.
static PACKAGES: &str = r#"
{"name":"a","version":"0.1.0-rc.1+b","id":"i","dependencies":[],"targets":[],"features":{"g":["f"],"f":[]},"manifest_path":"m"} => {"authors":[],"categories":[],"default_run":null,"dependencies":[],"description":null,"documentation":null,"edition":"2015","features":{"f":[],"g":["f"]},"homepage":null,"id":"i","keywords":[],"license":null,"license_file":null,"links":null,"manifest_path":"m","metadata":null,"name":"a","publish":null,"readme":null,"repository":null,"rust_version":null,"source":null,"targets":[],"version":"0.1.0-rc.1+b"}
{"name":"a","version":"1.2.3","authors":["x"],"id":"i","source":"s","description":"d","dependencies":[],"license":"MIT","license_file":"L","targets":[],"features":{},"manifest_path":"m","categories":["c"],"keywords":["k"],"readme":"R","repository":"o","homepage":"h","documentation":"u","edition":"2024","metadata":{"k":[1,null]},"links":"l","publish":[],"default_run":"p","rust_version":"1.70.1"} => {"authors":["x"],"categories":["c"],"default_run":"p","dependencies":[],"description":"d","documentation":"u","edition":"2024","features":{},"homepage":"h","id":"i","keywords":["k"],"license":"MIT","license_file":"L","links":"l","manifest_path":"m","metadata":{"k":[1,null]},"name":"a","publish":[],"readme":"R","repository":"o","rust_version":"1.70.1","source":"s","targets":[],"version":"1.2.3"}
"#;

/// What surrounds the version of Rust that a package needs, as it is read and as it is written.
static BEFORE: &str =
    r#"{"name":"a","version":"1.0.0","id":"i","dependencies":[],"targets":[],"features":{},"manifest_path":"m","rust_version":"#;

static WRITTEN_BEFORE: &str =
    r#"{"authors":[],"categories":[],"default_run":null,"dependencies":[],"description":null,"documentation":null,"edition":"2015","features":{},"homepage":null,"id":"i","keywords":[],"license":null,"license_file":null,"links":null,"manifest_path":"m","metadata":null,"name":"a","publish":null,"readme":null,"repository":null,"rust_version":"#;

static WRITTEN_BEHIND: &str = r#","source":null,"targets":[],"version":"1.0.0"}"#;

/// A version of Rust, and what is written for it.
static RUST_VERSIONS: &str = r#"
"1.70" => "1.70"
"1.70.0" => "1.70"
"1.70.1" => "1.70.1"
"0.0" => "0.0"
"#;

/// JSON that is read as a node or a resolved graph, and what is written for it.
static NODES: &str = r#"
{"id":"a","dependencies":["c"]} => {"dependencies":["c"],"deps":[],"features":[],"id":"a"}
"#;

static GRAPHS: &str = r#"
{"nodes":[],"root":"a"} => {"nodes":[],"root":"a"}
{"nodes":[{"id":"a","deps":[{"name":"b","pkg":"c","dep_kinds":[{"kind":"build","target":"t"},{}]}],"dependencies":["c"],"features":["f"]}],"root":null} => {"nodes":[{"dependencies":["c"],"deps":[{"dep_kinds":[{"kind":"build","target":"t"},{"kind":null,"target":null}],"name":"b","pkg":"c"}],"features":["f"],"id":"a"}],"root":null}
"#;

/// The same of a whole document.
static DOCUMENTS: &str = r#"
{"packages":[],"workspace_members":["a"],"workspace_root":"/w","target_directory":"/t"} => {"metadata":null,"packages":[],"resolve":null,"target_directory":"/t","version":0,"workspace_members":["a"],"workspace_root":"/w"}
{"packages":[],"workspace_members":[],"workspace_default_members":["b"],"workspace_root":"/w","target_directory":"/t","build_directory":"/b","metadata":{"k":[true]},"version":1,"resolve":{"nodes":[],"root":null}} => {"build_directory":"/b","metadata":{"k":[true]},"packages":[],"resolve":{"nodes":[],"root":null},"target_directory":"/t","version":1,"workspace_default_members":["b"],"workspace_members":[],"workspace_root":"/w"}
{"packages":[{"name":"a","version":"0.1.0","id":"path+file:///w/a#0.1.0","dependencies":[{"name":"b","req":"*","kind":"dev","optional":false,"uses_default_features":false,"features":[]}],"targets":[],"features":{},"manifest_path":"/w/a/Cargo.toml"},{"name":"b","version":"0.1.0","id":"path+file:///w/b#0.1.0","dependencies":[],"targets":[],"features":{},"manifest_path":"/w/b/Cargo.toml"}],"workspace_members":["path+file:///w/a#0.1.0"],"workspace_root":"/w","target_directory":"/w/target","resolve":{"nodes":[{"id":"path+file:///w/a#0.1.0","deps":[{"name":"b","pkg":"path+file:///w/b#0.1.0","dep_kinds":[{"kind":"dev","target":null}]}],"dependencies":["path+file:///w/b#0.1.0"],"features":[]},{"id":"path+file:///w/b#0.1.0","deps":[],"dependencies":[],"features":[]}],"root":null}} => {"metadata":null,"packages":[{"authors":[],"categories":[],"default_run":null,"dependencies":[{"features":[],"kind":"dev","name":"b","optional":false,"registry":null,"rename":null,"req":"*","source":null,"target":null,"uses_default_features":false}],"description":null,"documentation":null,"edition":"2015","features":{},"homepage":null,"id":"path+file:///w/a#0.1.0","keywords":[],"license":null,"license_file":null,"links":null,"manifest_path":"/w/a/Cargo.toml","metadata":null,"name":"a","publish":null,"readme":null,"repository":null,"rust_version":null,"source":null,"targets":[],"version":"0.1.0"},{"authors":[],"categories":[],"default_run":null,"dependencies":[],"description":null,"documentation":null,"edition":"2015","features":{},"homepage":null,"id":"path+file:///w/b#0.1.0","keywords":[],"license":null,"license_file":null,"links":null,"manifest_path":"/w/b/Cargo.toml","metadata":null,"name":"b","publish":null,"readme":null,"repository":null,"rust_version":null,"source":null,"targets":[],"version":"0.1.0"}],"resolve":{"nodes":[{"dependencies":["path+file:///w/b#0.1.0"],"deps":[{"dep_kinds":[{"kind":"dev","target":null}],"name":"b","pkg":"path+file:///w/b#0.1.0"}],"features":[],"id":"path+file:///w/a#0.1.0"},{"dependencies":[],"deps":[],"features":[],"id":"path+file:///w/b#0.1.0"}],"root":null},"target_directory":"/w/target","version":0,"workspace_members":["path+file:///w/a#0.1.0"],"workspace_root":"/w"}
"#;

/// What is written for what is read of a text as this type. Fails where that is read as another value.
struct Written<T> {
    value: T,
}

impl<T: FromValue + ToValue + Debug> Tell for Written<T> {
    fn tell(told: &mut Text, json: &str) -> Result<(), Fail> {
        let alloc = told.allocator();
        let value: T = read(alloc, json)?;
        write!(told, "{}", value.to_value(alloc)?);
        let again: T = read(alloc, told.as_str())?;
        same_fields(alloc, json, &again, &value)
    }
}

/// What is written between everything else that is written for a package, or the whole where other things are written.
fn between(written: &str) -> &str {
    match written.strip_prefix(WRITTEN_BEFORE) {
        Some(rest) => rest.strip_suffix(WRITTEN_BEHIND).unwrap_or(""),
        None => written,
    }
}

/// What is written for the version of Rust that a package needs, between everything else that is written for the package.
struct RustVersion;

impl Tell for RustVersion {
    fn tell(told: &mut Text, json: &str) -> Result<(), Fail> {
        let written = told_within::<Written<Package>>(told.allocator(), (BEFORE, "}"), json)?;
        told.push_str(between(written.as_str()));
        Ok(())
    }
}

#[test]
fn each_type_is_written_and_read_as_it_was(rt: HostRuntime) -> Result<(), Fail> {
    hold_lines::<Written<PackageId>>(rt.alloc(), IDS)?;
    hold_lines::<Written<Source>>(rt.alloc(), IDS)?;
    hold_lines::<Written<Dependency>>(rt.alloc(), DECLARED)?;
    hold_lines::<Written<Target>>(rt.alloc(), TARGETS)?;
    hold_lines::<Written<Package>>(rt.alloc(), PACKAGES)?;
    hold_lines::<RustVersion>(rt.alloc(), RUST_VERSIONS)?;
    hold_lines::<Written<Node>>(rt.alloc(), NODES)?;
    hold_lines::<Written<Resolve>>(rt.alloc(), GRAPHS)?;
    hold_lines::<Written<Metadata>>(rt.alloc(), DOCUMENTS)
}
