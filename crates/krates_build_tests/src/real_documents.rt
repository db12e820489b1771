//! Two documents that cargo wrote of small workspaces, broken into lines between values, with other paths.

use krates_cm::Metadata;
use krates_cm_json::parse;
use krates_samples::documents::document;
use std::alloc::Global;
use std::test::Fail;

/// The real documents, by the name of the member of each.
static REAL: &[(&str, &str)] = &[("weakling", WEAK), ("gitter", GIT)];

/// The text of the real document of the member that a line names.
fn real_json(line: &str) -> Option<&'static str> {
    for &(member, json) in REAL {
        if member == line {
            return Some(json);
        }
    }
    None
}

/// The text of the document of a line, or of the real document of the member that it names.
fn json_of(alloc: Global, line: &str) -> Result<String, Fail> {
    match real_json(line) {
        Some(json) => Ok(String::from_str(alloc, json)?),
        None => document(alloc, line),
    }
}

/// The document of a line, or the real document of the member that it names, read.
pub(crate) fn metadata_of(alloc: Global, line: &str) -> Result<Box<Metadata>, Fail> {
    let json = json_of(alloc, line)?;
    Ok(Box::new(alloc, parse(alloc, json.as_str())?)?)
}

/// A member with weak references to optional dependencies, with all its features.
const WEAK: &str =
    r#"{"packages":[{"name":"weakling","version":"0.1.0","id":"path+file:///w/ws-weak#weakling@0.1.0","license":null,"license_file":null,"description":null,
"source":null,"dependencies":[{"name":"wk-leaf","source":"registry+https://github.com/rust-lang/crates.io-index","req":"^1","kind":null,"rename":"l",
"optional":true,"uses_default_features":false,"features":[],"target":null,"registry":null},{"name":"wk-leaf",
"source":"registry+https://github.com/rust-lang/crates.io-index","req":"^2","kind":null,"rename":"l2","optional":true,"uses_default_features":false,
"features":[],"target":null,"registry":null},{"name":"wk-mid","source":"registry+https://github.com/rust-lang/crates.io-index","req":"^0.2",
"kind":null,"rename":"mid","optional":true,"uses_default_features":true,"features":[],"target":null,"registry":null},{"name":"wk-leaf",
"source":"registry+https://github.com/rust-lang/crates.io-index","req":"^2","kind":"dev","rename":"l2","optional":false,"uses_default_features":true,
"features":["extra"],"target":null,"registry":null},{"name":"wk-leaf","source":"registry+https://github.com/rust-lang/crates.io-index","req":"^1",
"kind":"build","rename":"l","optional":false,"uses_default_features":true,"features":[],"target":null,"registry":null}],"targets":[{"kind":["lib"],
"crate_types":["lib"],"name":"weakling","src_path":"/w/ws-weak/src/lib.rs","edition":"2021","doc":true,"doctest":true,"test":true}],
"features":{"a-weak":["l?/json"],"b-weak":["l2?/json","mid?/slow"],"both":["a-weak","b-weak"],"default":["z-on"],"l2":["dep:l2"],"mid":["dep:mid"],
"mid-on":["mid"],"z-on":["dep:l"],"zz-strong":["l2/only2"]},"manifest_path":"/w/ws-weak/Cargo.toml","metadata":null,"publish":null,"authors":[],
"categories":[],"keywords":[],"readme":null,"repository":null,"homepage":null,"documentation":null,"edition":"2021","links":null,"default_run":null,
"rust_version":null},{"name":"wk-leaf","version":"1.0.0","id":"registry+https://github.com/rust-lang/crates.io-index#wk-leaf@1.0.0","license":null,
"license_file":null,"description":null,"source":"registry+https://github.com/rust-lang/crates.io-index","dependencies":[],"targets":[{"kind":["lib"],
"crate_types":["lib"],"name":"wk_leaf","src_path":"/w/reg/wk-leaf-1.0.0/src/lib.rs","edition":"2021","doc":true,"doctest":true,"test":true}],
"features":{"default":["std"],"extra":["json"],"json":[],"serde":[],"std":[]},"manifest_path":"/w/reg/wk-leaf-1.0.0/Cargo.toml","metadata":null,
"publish":null,"authors":[],"categories":[],"keywords":[],"readme":null,"repository":null,"homepage":null,"documentation":null,"edition":"2021",
"links":null,"default_run":null,"rust_version":null},{"name":"wk-leaf","version":"2.1.0",
"id":"registry+https://github.com/rust-lang/crates.io-index#wk-leaf@2.1.0","license":null,"license_file":null,"description":null,
"source":"registry+https://github.com/rust-lang/crates.io-index","dependencies":[],"targets":[{"kind":["lib"],"crate_types":["lib"],"name":"wk_leaf",
"src_path":"/w/reg/wk-leaf-2.1.0/src/lib.rs","edition":"2021","doc":true,"doctest":true,"test":true}],"features":{"alloc":[],"default":["std"],
"extra":["json","alloc"],"json":[],"only2":[],"serde":[],"std":["alloc"]},"manifest_path":"/w/reg/wk-leaf-2.1.0/Cargo.toml","metadata":null,
"publish":null,"authors":[],"categories":[],"keywords":[],"readme":null,"repository":null,"homepage":null,"documentation":null,"edition":"2021",
"links":null,"default_run":null,"rust_version":null},{"name":"wk-mid","version":"0.2.5",
"id":"registry+https://github.com/rust-lang/crates.io-index#wk-mid@0.2.5","license":null,"license_file":null,"description":null,
"source":"registry+https://github.com/rust-lang/crates.io-index","dependencies":[{"name":"wk-leaf",
"source":"registry+https://github.com/rust-lang/crates.io-index","req":"^1","kind":null,"rename":"leaf1","optional":false,
"uses_default_features":false,"features":[],"target":null,"registry":null},{"name":"wk-leaf",
"source":"registry+https://github.com/rust-lang/crates.io-index","req":"^2","kind":null,"rename":"leaf2","optional":true,
"uses_default_features":false,"features":[],"target":null,"registry":null}],"targets":[{"kind":["lib"],"crate_types":["lib"],"name":"wk_mid",
"src_path":"/w/reg/wk-mid-0.2.5/src/lib.rs","edition":"2021","doc":true,"doctest":true,"test":true}],"features":{"default":["fast"],
"fast":["leaf2?/alloc","leaf1/std"],"name-with-dash":["dep:leaf2","leaf2?/only2"],"slow":["leaf2/extra"]},
"manifest_path":"/w/reg/wk-mid-0.2.5/Cargo.toml","metadata":null,"publish":null,"authors":[],"categories":[],"keywords":[],"readme":null,
"repository":null,"homepage":null,"documentation":null,"edition":"2021","links":null,"default_run":null,"rust_version":null}],
"workspace_members":["path+file:///w/ws-weak#weakling@0.1.0"],"workspace_default_members":["path+file:///w/ws-weak#weakling@0.1.0"],
"resolve":{"nodes":[{"id":"path+file:///w/ws-weak#weakling@0.1.0",
"dependencies":["registry+https://github.com/rust-lang/crates.io-index#wk-leaf@1.0.0",
"registry+https://github.com/rust-lang/crates.io-index#wk-leaf@2.1.0","registry+https://github.com/rust-lang/crates.io-index#wk-mid@0.2.5"],
"deps":[{"name":"l","pkg":"registry+https://github.com/rust-lang/crates.io-index#wk-leaf@1.0.0","dep_kinds":[{"kind":null,"target":null},
{"kind":"build","target":null}]},{"name":"l2","pkg":"registry+https://github.com/rust-lang/crates.io-index#wk-leaf@2.1.0","dep_kinds":[{"kind":null,
"target":null},{"kind":"dev","target":null}]},{"name":"mid","pkg":"registry+https://github.com/rust-lang/crates.io-index#wk-mid@0.2.5",
"dep_kinds":[{"kind":null,"target":null}]}],"features":["a-weak","b-weak","both","default","l2","mid","mid-on","z-on","zz-strong"]},
{"id":"registry+https://github.com/rust-lang/crates.io-index#wk-leaf@1.0.0","dependencies":[],"deps":[],"features":["default","json","std"]},
{"id":"registry+https://github.com/rust-lang/crates.io-index#wk-leaf@2.1.0","dependencies":[],"deps":[],"features":["alloc","default","extra","json",
"only2","std"]},{"id":"registry+https://github.com/rust-lang/crates.io-index#wk-mid@0.2.5",
"dependencies":["registry+https://github.com/rust-lang/crates.io-index#wk-leaf@1.0.0",
"registry+https://github.com/rust-lang/crates.io-index#wk-leaf@2.1.0"],"deps":[{"name":"leaf1",
"pkg":"registry+https://github.com/rust-lang/crates.io-index#wk-leaf@1.0.0","dep_kinds":[{"kind":null,"target":null}]},{"name":"leaf2",
"pkg":"registry+https://github.com/rust-lang/crates.io-index#wk-leaf@2.1.0","dep_kinds":[{"kind":null,"target":null}]}],"features":["default","fast",
"slow"]}],"root":"path+file:///w/ws-weak#weakling@0.1.0"},"target_directory":"/w/ws-weak/target","build_directory":"/w/ws-weak/target","version":1,
"workspace_root":"/w/ws-weak","metadata":null}"#;

/// A member whose dependencies come from git repositories, with all its features.
const GIT: &str =
    r#"{"packages":[{"name":"gitter","version":"0.1.0","id":"path+file:///w/ws-git#gitter@0.1.0","license":null,"license_file":null,"description":null,
"source":null,"dependencies":[{"name":"many","source":"git+file:///w/gitrepo/many?branch=feat/some+thing@2","req":"*","kind":null,"rename":null,
"optional":false,"uses_default_features":true,"features":[],"target":null,"registry":null},{"name":"many",
"source":"git+file:///w/gitrepo/many?branch=other","req":"*","kind":null,"rename":"many-other","optional":false,"uses_default_features":false,
"features":[],"target":null,"registry":null},{"name":"many","source":"git+file:///w/gitrepo/many?tag=v0.1.0","req":"*","kind":null,
"rename":"many-tag","optional":true,"uses_default_features":true,"features":[],"target":null,"registry":null},{"name":"sub",
"source":"git+file:///w/gitrepo/many","req":"*","kind":null,"rename":null,"optional":false,"uses_default_features":true,"features":[],"target":null,
"registry":null},{"name":"many","source":"git+file:///w/gitrepo/many?rev=7070fac3db96a2bfbedbb3ea5f17c6ae76c0fca2","req":"*","kind":"dev",
"rename":"many-rev","optional":false,"uses_default_features":true,"features":[],"target":null,"registry":null}],"targets":[{"kind":["lib"],
"crate_types":["lib"],"name":"gitter","src_path":"/w/ws-git/src/lib.rs","edition":"2021","doc":true,"doctest":true,"test":true}],
"features":{"many-tag":["dep:many-tag"],"t":["many-tag/x"],"y":["many-other/y"]},"manifest_path":"/w/ws-git/Cargo.toml","metadata":null,
"publish":null,"authors":[],"categories":[],"keywords":[],"readme":null,"repository":null,"homepage":null,"documentation":null,"edition":"2021",
"links":null,"default_run":null,"rust_version":null},{"name":"many","version":"0.1.0","id":"git+file:///w/gitrepo/many?tag=v0.1.0#0.1.0",
"license":null,"license_file":null,"description":null,"source":"git+file:///w/gitrepo/many?tag=v0.1.0#7070fac3db96a2bfbedbb3ea5f17c6ae76c0fca2",
"dependencies":[{"name":"sub","source":"git+file:///w/gitrepo/many?tag=v0.1.0#7070fac3db96a2bfbedbb3ea5f17c6ae76c0fca2","req":"*","kind":null,
"rename":null,"optional":false,"uses_default_features":true,"features":[],"target":null,"registry":null}],"targets":[{"kind":["lib"],
"crate_types":["lib"],"name":"many","src_path":"/w/checkouts/many-9b7368f4b8acdbb1/7070fac/src/lib.rs","edition":"2021","doc":true,"doctest":true,
"test":true}],"features":{"default":["x"],"x":[]},"manifest_path":"/w/checkouts/many-9b7368f4b8acdbb1/7070fac/Cargo.toml","metadata":null,
"publish":null,"authors":[],"categories":[],"keywords":[],"readme":null,"repository":null,"homepage":null,"documentation":null,"edition":"2021",
"links":null,"default_run":null,"rust_version":null},{"name":"many","version":"0.1.0",
"id":"git+file:///w/gitrepo/many?branch=feat%2Fsome%2Bthing%402#0.1.0","license":null,"license_file":null,"description":null,
"source":"git+file:///w/gitrepo/many?branch=feat/some+thing@2#7070fac3db96a2bfbedbb3ea5f17c6ae76c0fca2","dependencies":[{"name":"sub",
"source":"git+file:///w/gitrepo/many?branch=feat/some+thing@2#7070fac3db96a2bfbedbb3ea5f17c6ae76c0fca2","req":"*","kind":null,"rename":null,
"optional":false,"uses_default_features":true,"features":[],"target":null,"registry":null}],"targets":[{"kind":["lib"],"crate_types":["lib"],
"name":"many","src_path":"/w/checkouts/many-9b7368f4b8acdbb1/7070fac/src/lib.rs","edition":"2021","doc":true,"doctest":true,"test":true}],
"features":{"default":["x"],"x":[]},"manifest_path":"/w/checkouts/many-9b7368f4b8acdbb1/7070fac/Cargo.toml","metadata":null,"publish":null,
"authors":[],"categories":[],"keywords":[],"readme":null,"repository":null,"homepage":null,"documentation":null,"edition":"2021","links":null,
"default_run":null,"rust_version":null},{"name":"many","version":"0.1.0",
"id":"git+file:///w/gitrepo/many?rev=7070fac3db96a2bfbedbb3ea5f17c6ae76c0fca2#0.1.0","license":null,"license_file":null,"description":null,
"source":"git+file:///w/gitrepo/many?rev=7070fac3db96a2bfbedbb3ea5f17c6ae76c0fca2#7070fac3db96a2bfbedbb3ea5f17c6ae76c0fca2",
"dependencies":[{"name":"sub",
"source":"git+file:///w/gitrepo/many?rev=7070fac3db96a2bfbedbb3ea5f17c6ae76c0fca2#7070fac3db96a2bfbedbb3ea5f17c6ae76c0fca2","req":"*","kind":null,
"rename":null,"optional":false,"uses_default_features":true,"features":[],"target":null,"registry":null}],"targets":[{"kind":["lib"],
"crate_types":["lib"],"name":"many","src_path":"/w/checkouts/many-9b7368f4b8acdbb1/7070fac/src/lib.rs","edition":"2021","doc":true,"doctest":true,
"test":true}],"features":{"default":["x"],"x":[]},"manifest_path":"/w/checkouts/many-9b7368f4b8acdbb1/7070fac/Cargo.toml","metadata":null,
"publish":null,"authors":[],"categories":[],"keywords":[],"readme":null,"repository":null,"homepage":null,"documentation":null,"edition":"2021",
"links":null,"default_run":null,"rust_version":null},{"name":"many","version":"0.2.0","id":"git+file:///w/gitrepo/many?branch=other#0.2.0",
"license":null,"license_file":null,"description":null,"source":"git+file:///w/gitrepo/many?branch=other#0c2cd1deff7c1b913ad8756a335082bdb44e49d9",
"dependencies":[{"name":"sub","source":"git+file:///w/gitrepo/many?branch=other#0c2cd1deff7c1b913ad8756a335082bdb44e49d9","req":"*","kind":null,
"rename":null,"optional":false,"uses_default_features":true,"features":[],"target":null,"registry":null}],"targets":[{"kind":["lib"],
"crate_types":["lib"],"name":"many","src_path":"/w/checkouts/many-9b7368f4b8acdbb1/0c2cd1d/src/lib.rs","edition":"2021","doc":true,"doctest":true,
"test":true}],"features":{"default":["x"],"x":[],"y":["x"]},"manifest_path":"/w/checkouts/many-9b7368f4b8acdbb1/0c2cd1d/Cargo.toml","metadata":null,
"publish":null,"authors":[],"categories":[],"keywords":[],"readme":null,"repository":null,"homepage":null,"documentation":null,"edition":"2021",
"links":null,"default_run":null,"rust_version":null},{"name":"sub","version":"0.1.0","id":"git+file:///w/gitrepo/many?tag=v0.1.0#sub@0.1.0",
"license":null,"license_file":null,"description":null,"source":"git+file:///w/gitrepo/many?tag=v0.1.0#7070fac3db96a2bfbedbb3ea5f17c6ae76c0fca2",
"dependencies":[],"targets":[{"kind":["lib"],"crate_types":["lib"],"name":"sub",
"src_path":"/w/checkouts/many-9b7368f4b8acdbb1/7070fac/sub/src/lib.rs","edition":"2021","doc":true,"doctest":true,"test":true}],"features":{},
"manifest_path":"/w/checkouts/many-9b7368f4b8acdbb1/7070fac/sub/Cargo.toml","metadata":null,"publish":null,"authors":[],"categories":[],"keywords":[],
"readme":null,"repository":null,"homepage":null,"documentation":null,"edition":"2021","links":null,"default_run":null,"rust_version":null},
{"name":"sub","version":"0.1.0","id":"git+file:///w/gitrepo/many?branch=feat%2Fsome%2Bthing%402#sub@0.1.0","license":null,"license_file":null,
"description":null,"source":"git+file:///w/gitrepo/many?branch=feat/some+thing@2#7070fac3db96a2bfbedbb3ea5f17c6ae76c0fca2","dependencies":[],
"targets":[{"kind":["lib"],"crate_types":["lib"],"name":"sub","src_path":"/w/checkouts/many-9b7368f4b8acdbb1/7070fac/sub/src/lib.rs","edition":"2021",
"doc":true,"doctest":true,"test":true}],"features":{},"manifest_path":"/w/checkouts/many-9b7368f4b8acdbb1/7070fac/sub/Cargo.toml","metadata":null,
"publish":null,"authors":[],"categories":[],"keywords":[],"readme":null,"repository":null,"homepage":null,"documentation":null,"edition":"2021",
"links":null,"default_run":null,"rust_version":null},{"name":"sub","version":"0.1.0","id":"git+file:///w/gitrepo/many?branch=other#sub@0.1.0",
"license":null,"license_file":null,"description":null,"source":"git+file:///w/gitrepo/many?branch=other#0c2cd1deff7c1b913ad8756a335082bdb44e49d9",
"dependencies":[],"targets":[{"kind":["lib"],"crate_types":["lib"],"name":"sub",
"src_path":"/w/checkouts/many-9b7368f4b8acdbb1/0c2cd1d/sub/src/lib.rs","edition":"2021","doc":true,"doctest":true,"test":true}],"features":{},
"manifest_path":"/w/checkouts/many-9b7368f4b8acdbb1/0c2cd1d/sub/Cargo.toml","metadata":null,"publish":null,"authors":[],"categories":[],"keywords":[],
"readme":null,"repository":null,"homepage":null,"documentation":null,"edition":"2021","links":null,"default_run":null,"rust_version":null},
{"name":"sub","version":"0.1.0","id":"git+file:///w/gitrepo/many?rev=7070fac3db96a2bfbedbb3ea5f17c6ae76c0fca2#sub@0.1.0","license":null,
"license_file":null,"description":null,
"source":"git+file:///w/gitrepo/many?rev=7070fac3db96a2bfbedbb3ea5f17c6ae76c0fca2#7070fac3db96a2bfbedbb3ea5f17c6ae76c0fca2","dependencies":[],
"targets":[{"kind":["lib"],"crate_types":["lib"],"name":"sub","src_path":"/w/checkouts/many-9b7368f4b8acdbb1/7070fac/sub/src/lib.rs","edition":"2021",
"doc":true,"doctest":true,"test":true}],"features":{},"manifest_path":"/w/checkouts/many-9b7368f4b8acdbb1/7070fac/sub/Cargo.toml","metadata":null,
"publish":null,"authors":[],"categories":[],"keywords":[],"readme":null,"repository":null,"homepage":null,"documentation":null,"edition":"2021",
"links":null,"default_run":null,"rust_version":null},{"name":"sub","version":"0.1.0","id":"git+file:///w/gitrepo/many#sub@0.1.0","license":null,
"license_file":null,"description":null,"source":"git+file:///w/gitrepo/many#7070fac3db96a2bfbedbb3ea5f17c6ae76c0fca2","dependencies":[],
"targets":[{"kind":["lib"],"crate_types":["lib"],"name":"sub","src_path":"/w/checkouts/many-9b7368f4b8acdbb1/7070fac/sub/src/lib.rs","edition":"2021",
"doc":true,"doctest":true,"test":true}],"features":{},"manifest_path":"/w/checkouts/many-9b7368f4b8acdbb1/7070fac/sub/Cargo.toml","metadata":null,
"publish":null,"authors":[],"categories":[],"keywords":[],"readme":null,"repository":null,"homepage":null,"documentation":null,"edition":"2021",
"links":null,"default_run":null,"rust_version":null}],"workspace_members":["path+file:///w/ws-git#gitter@0.1.0"],
"workspace_default_members":["path+file:///w/ws-git#gitter@0.1.0"],"resolve":{"nodes":[{"id":"path+file:///w/ws-git#gitter@0.1.0",
"dependencies":["git+file:///w/gitrepo/many?tag=v0.1.0#0.1.0","git+file:///w/gitrepo/many?branch=feat%2Fsome%2Bthing%402#0.1.0",
"git+file:///w/gitrepo/many?rev=7070fac3db96a2bfbedbb3ea5f17c6ae76c0fca2#0.1.0","git+file:///w/gitrepo/many?branch=other#0.2.0",
"git+file:///w/gitrepo/many#sub@0.1.0"],"deps":[{"name":"many_tag","pkg":"git+file:///w/gitrepo/many?tag=v0.1.0#0.1.0","dep_kinds":[{"kind":null,
"target":null}]},{"name":"many","pkg":"git+file:///w/gitrepo/many?branch=feat%2Fsome%2Bthing%402#0.1.0","dep_kinds":[{"kind":null,"target":null}]},
{"name":"many_rev","pkg":"git+file:///w/gitrepo/many?rev=7070fac3db96a2bfbedbb3ea5f17c6ae76c0fca2#0.1.0","dep_kinds":[{"kind":"dev","target":null}]},
{"name":"many_other","pkg":"git+file:///w/gitrepo/many?branch=other#0.2.0","dep_kinds":[{"kind":null,"target":null}]},{"name":"sub",
"pkg":"git+file:///w/gitrepo/many#sub@0.1.0","dep_kinds":[{"kind":null,"target":null}]}],"features":["many-tag","t","y"]},
{"id":"git+file:///w/gitrepo/many?tag=v0.1.0#0.1.0","dependencies":["git+file:///w/gitrepo/many?tag=v0.1.0#sub@0.1.0"],"deps":[{"name":"sub",
"pkg":"git+file:///w/gitrepo/many?tag=v0.1.0#sub@0.1.0","dep_kinds":[{"kind":null,"target":null}]}],"features":["default","x"]},
{"id":"git+file:///w/gitrepo/many?branch=feat%2Fsome%2Bthing%402#0.1.0",
"dependencies":["git+file:///w/gitrepo/many?branch=feat%2Fsome%2Bthing%402#sub@0.1.0"],"deps":[{"name":"sub",
"pkg":"git+file:///w/gitrepo/many?branch=feat%2Fsome%2Bthing%402#sub@0.1.0","dep_kinds":[{"kind":null,"target":null}]}],"features":["default","x"]},
{"id":"git+file:///w/gitrepo/many?rev=7070fac3db96a2bfbedbb3ea5f17c6ae76c0fca2#0.1.0",
"dependencies":["git+file:///w/gitrepo/many?rev=7070fac3db96a2bfbedbb3ea5f17c6ae76c0fca2#sub@0.1.0"],"deps":[{"name":"sub",
"pkg":"git+file:///w/gitrepo/many?rev=7070fac3db96a2bfbedbb3ea5f17c6ae76c0fca2#sub@0.1.0","dep_kinds":[{"kind":null,"target":null}]}],
"features":["default","x"]},{"id":"git+file:///w/gitrepo/many?branch=other#0.2.0",
"dependencies":["git+file:///w/gitrepo/many?branch=other#sub@0.1.0"],"deps":[{"name":"sub","pkg":"git+file:///w/gitrepo/many?branch=other#sub@0.1.0",
"dep_kinds":[{"kind":null,"target":null}]}],"features":["x","y"]},{"id":"git+file:///w/gitrepo/many?tag=v0.1.0#sub@0.1.0","dependencies":[],"deps":[],
"features":[]},{"id":"git+file:///w/gitrepo/many?branch=feat%2Fsome%2Bthing%402#sub@0.1.0","dependencies":[],"deps":[],"features":[]},
{"id":"git+file:///w/gitrepo/many?branch=other#sub@0.1.0","dependencies":[],"deps":[],"features":[]},
{"id":"git+file:///w/gitrepo/many?rev=7070fac3db96a2bfbedbb3ea5f17c6ae76c0fca2#sub@0.1.0","dependencies":[],"deps":[],"features":[]},
{"id":"git+file:///w/gitrepo/many#sub@0.1.0","dependencies":[],"deps":[],"features":[]}],"root":"path+file:///w/ws-git#gitter@0.1.0"},
"target_directory":"/w/ws-git/target","build_directory":"/w/ws-git/target","version":1,"workspace_root":"/w/ws-git","metadata":null}"#;
