//! What a build keeps and reports under each setting of the builder.

use crate::building::{Built, push_outcome};
use crate::real_documents::metadata_of;
use crate::setting::setting_of;
use krates::{Builder, DepKind, Scope};
use krates_samples::settings::package_specs;
use krates_samples::table::{Tell, hold_lines};
use krates_text::text::Text;
use std::test::Fail;

static SETTINGS: &str = r#"
// crates that are included
a|c / members a c / include /w/c => +c-a
a|c / members a c / include /w/./c//Cargo.toml => +c-a
// the workspace itself means every member, until a crate is included
a|c / members a c / include /w => +a+c
a|c / members a c / include /w /w/c => +c-a
a|c / members a c / include /./w => +a+c
a|c / members a c / include /w /w => no root crates available
// a member that isn't there isn't missed where it isn't a root
a / members a z / include /w/a => +a
a / members a z / root a => +a
// a member alone, and by its directory, whatever that is called
a b|b / members a / include /w/b => no root crates available
a|xCargo.toml / members a xCargo.toml / include /w/xCargo.toml => +xCargo.toml-a
// more crates beside those that were included before
a|c|d / members a c d / include /w/a / include /w/c => +a+c-d
a|c / members a c / include /w/x => no root crates available
// a kind that is ignored: a member needs a crate for its build, which needs another for its own
a b&build|b c&build|c / ignore build non-workspace => +a+b-c
a b&build|b c&build|c / ignore build workspace => +a-b-c
a b&build|b c&build|c / ignore build all => +a-b-c
a b&build|b c&build|c / ignore build non-workspace / ignore build workspace => +a-b-c
a b&build|b c&build|c / ignore normal all => +a+b+c
// the whole workspace
a|c / members a c / root a => +a-c
a|c / members a c / root a / workspace on => +a+c
a|c / members a c / root a / workspace on / workspace off => +a-c
// every dependency of a name, and the least
a d?;x=dep:d|d@0.10.0|d@0.9.0 / nodes a d@0.10.0 d@0.9.0;x|d@0.10.0|d@0.9.0 / names all => +a+d=d@0.10.0+d=d@0.9.0
a d?;x=dep:d|d@0.10.0|d@0.9.0 / nodes a d@0.10.0 d@0.9.0;x|d@0.10.0|d@0.9.0 / names all / names least => +a+d=d@0.10.0-d=d@0.9.0
// packages that are left out
a b|b c|c / without b => +a-b-c
a b|b c|c / without a => no root crates available
a|c / members a c / root a / without a => no root crates available
// of another version
a b|b c|c / without b@0.2.0 => +a+b+c
// more packages beside those that were left out before
a b c|b|c / without b / without c => +a-b-c
// the node of a package that is left out may be missing
a b|b / nodes a b / without b => +a-b
// and so may the feature of it that a reference names
a b;x=b/nope|b / nodes a b;x|b / without b => +a-b
// targets
a b&on=cfg(any())|b => +a-b
// an edge that isn't declared is lost, whether its target passes or not
a|b / nodes a b&on=cfg(any())|b => undeclared dependency: path+file:///w/b#0.1.0 of path+file:///w/a#0.1.0
// no one of the targets makes both parts true
a b&on=cfg(all(windows,~target_env~=~"musl"))|b => +a+b
a b&on=cfg(all(windows,~target_env~=~"musl"))|b / for x86_64-pc-windows-msvc x86_64-unknown-linux-musl => +a-b
a b&on=cfg(unix)|b => +a+b
a b&on=cfg(unix)|b / for x86_64-unknown-linux-gnu => +a+b
a b&on=cfg(unix)|b / for x86_64-pc-windows-msvc => +a-b
a b&on=cfg(unix)|b / for x86_64-pc-windows-msvc x86_64-unknown-linux-gnu => +a+b
// more targets beside those that were set before
a b&on=cfg(unix)|b / for x86_64-unknown-linux-gnu / for x86_64-pc-windows-msvc => +a+b
a b&on=cfg(unix)|b / for x86_64-pc-windows-msvc / for x86_64-unknown-linux-gnu => +a+b
// a feature is looked up among those given with the target, of which nothing else need be known
a b&on=cfg(target_feature~=~"atomics")|b / for x+atomics => +a+b
a b&on=cfg(target_feature~=~"atomics")|b / for x => +a-b
// a triple outside of the table: by itself it has no property, and as rustc describes it those that cargo uses
a b&on=cfg(windows) c&on=cfg(all(windows,~target_env~=~"gnu")) d&on=cfg(unix) e&on=x86_64-pc-windows-gnu f&on=cfg(target_os~=~"freebsd") g&on=cfg(target_feature~=~"sse3")|b|c|d|e|f|g / for x86_64-pc-windows-gnu => +a+e-b-c-d-f-g
a b&on=cfg(windows) c&on=cfg(all(windows,~target_env~=~"gnu")) d&on=cfg(unix) e&on=x86_64-pc-windows-gnu f&on=cfg(target_os~=~"freebsd") g&on=cfg(target_feature~=~"sse3")|b|c|d|e|f|g / for x86_64-pc-windows-gnu;debug_assertions;panic="unwind";target_abi="";target_arch="x86_64";target_endian="little";target_env="gnu";target_family="windows";target_feature="cmpxchg16b";target_feature="fxsr";target_feature="sse";target_feature="sse2";target_feature="sse3";target_has_atomic="128";target_has_atomic="16";target_has_atomic="32";target_has_atomic="64";target_has_atomic="8";target_has_atomic="ptr";target_os="windows";target_pointer_width="64";target_vendor="pc";windows => +a+b+c+e+g-d-f
a b&on=cfg(windows) c&on=cfg(all(windows,~target_env~=~"gnu")) d&on=cfg(unix) e&on=x86_64-pc-windows-gnu f&on=cfg(target_os~=~"freebsd") g&on=cfg(target_feature~=~"sse3")|b|c|d|e|f|g / for x86_64-unknown-freebsd;debug_assertions;panic="unwind";target_abi="";target_arch="x86_64";target_endian="little";target_env="";target_family="unix";target_feature="fxsr";target_feature="sse";target_feature="sse2";target_has_atomic="16";target_has_atomic="32";target_has_atomic="64";target_has_atomic="8";target_has_atomic="ptr";target_os="freebsd";target_pointer_width="64";target_vendor="unknown";unix => +a+d+f-b-c-e-g
// a crate whose node needs two versions of the one dependency that it declares; ids are ordered as texts
a d|d@0.9.0|d@0.10.0 / nodes a d@0.9.0 d@0.10.0|d@0.9.0|d@0.10.0 => +a+d=d@0.10.0+d=d@0.9.0
"#;

/// What is kept and reported of a document under setters that are chained.
struct Chained;

impl Tell for Chained {
    fn tell(told: &mut Text, line: &str) -> Result<(), Fail> {
        let alloc = told.allocator();
        let specs = package_specs(alloc, "e")?;
        let metadata = metadata_of(alloc, line)?;
        let mut builder = Builder::new(alloc);
        builder
            .exclude(specs)?
            .workspace(true)
            .ignore_kind(DepKind::Build, Scope::All)
            .ignore_kind(DepKind::Dev, Scope::Workspace)
            .ignore_kind(DepKind::Normal, Scope::NonWorkspace);
        push_outcome(told, builder, metadata);
        Ok(())
    }
}

static CHAINED: &str = "
a b&build|b|c|e / members a c e / root a => +a+c-b-e
// what a member needs for its tests, and what another crate needs
a b d&dev|b f|d|f => +a+b-d-f
";

/// What is kept and reported of a document by a builder that is made with the setting of its line.
struct Under;

impl Tell for Under {
    fn tell(told: &mut Text, line: &str) -> Result<(), Fail> {
        let metadata = metadata_of(told.allocator(), line)?;
        let setting = setting_of(told.allocator(), line)?;
        let builder = Builder::under(told.allocator(), setting);
        push_outcome(told, builder, metadata);
        Ok(())
    }
}

static UNDER: &str = "
// of two crates that are included one is left out, and a third member isn't included; a kind is ignored, and a target set
a b&on=cfg(unix) c&dev|b|c|d|e / members a d e / include /w/a /w/d / without d / ignore dev all / for x86_64-unknown-linux-gnu => +a+b-c-d-e
// every member, and every dependency of a name
a d?;x=dep:d|c|d@0.10.0|d@0.9.0 / nodes a d@0.10.0 d@0.9.0;x|c|d@0.10.0|d@0.9.0 / members a c / root a / workspace on / names all => +a+c+d=d@0.10.0+d=d@0.9.0
";

#[test]
fn settings_and_the_order_of_versions(rt: HostRuntime) -> Result<(), Fail> {
    hold_lines::<Built>(rt.alloc(), SETTINGS)?;
    hold_lines::<Chained>(rt.alloc(), CHAINED)?;
    hold_lines::<Under>(rt.alloc(), UNDER)
}
