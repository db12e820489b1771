//! What tables of builds are made of: references, machines, and what a document says of itself.

use crate::builds::machine_of;
use crate::of_build::{OfBuild, ToldOfBuild};
use krates_build_tables::FeatureReference;
use krates_questions::Document;
use krates_samples::table::{Tell, hold_lines};
use krates_text::features::ParsedFeature;
use krates_text::text::Text;
use krates_units::BuildSetting;
use std::test::Fail;

/// A reference, and a name; the feature of the dependency of that name that it names, and whether it turns that on (Cargo Book,
/// "Features", "Dependency features").
static REFERENCES: &str = "
b/f b => f, on
b?/f b => f
dep:b b =>
b b =>
b/f c =>
b?/f c =>
b/f/g b => f/g, on
";

/// What a reference names.
struct Named;

impl Tell for Named {
    fn tell(told: &mut Text, line: &str) -> Result<(), Fail> {
        let (text, name) = line.split_once(' ').unwrap_or((line, ""));
        let reference = FeatureReference::from(ParsedFeature::from(text).feat());
        if let Some(feature) = reference.feature_named(name) {
            told.push_str(feature);
        }
        if reference.turns_on(name) {
            told.push_str(", on");
        }
        Ok(())
    }
}

#[test]
fn references_are_read(rt: HostRuntime) -> Result<(), Fail> {
    hold_lines::<Named>(rt.alloc(), REFERENCES)
}

/// Two machines, and whether they are the same.
static MACHINES: &str = "
linux linux => true
linux windows => false
windows windows => true
";

/// Whether two machines are the same.
struct Same;

impl Tell for Same {
    fn tell(told: &mut Text, line: &str) -> Result<(), Fail> {
        let (one, other) = line.split_once(' ').unwrap_or((line, ""));
        let one = machine_of(told.allocator(), one)?;
        let other = machine_of(told.allocator(), other)?;
        write!(told, "{}", one.is_same(&other));
        Ok(())
    }
}

#[test]
fn machines_are_the_same(rt: HostRuntime) -> Result<(), Fail> {
    hold_lines::<Same>(rt.alloc(), MACHINES)
}

/// A document, and its folder and root.
static ROOTS: &str = "
a => /w
a|b / members a b / root b => /w b
";

/// What a document says of itself.
struct Rooted;

impl ToldOfBuild<BuildSetting> for Rooted {
    fn push<'a>(
        told: &mut Text,
        document: &Document<'a>,
        _asked: &'a BuildSetting,
        _words: &str,
    ) -> Result<(), Fail> {
        told.push_str(document.metadata().workspace_root.as_str());
        if let Some(root) = document.graph_root() {
            write!(told, " {}", root.name());
        }
        Ok(())
    }
}

#[test]
fn documents_have_roots(rt: HostRuntime) -> Result<(), Fail> {
    hold_lines::<OfBuild<Rooted>>(rt.alloc(), ROOTS)
}
