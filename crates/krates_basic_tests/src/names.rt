//! The names of target kinds, crate types and editions, as they are read and as they are written.

use krates_cm::{CrateType, Edition, TargetKind, UnknownName};
use krates_cm_json::ToValue;
use krates_samples::table::{Tell, hold_lines};
use krates_text::text::Text;
use std::fmt::Debug;
use std::str::FromStr;
use std::test::Fail;

/// Texts, and the kind of a target that each names, with what is written for it; or why it names none.
static KINDS: &str = r#"
bench => Bench "bench"
bin => Bin "bin"
custom-build => CustomBuild "custom-build"
cdylib => CDyLib "cdylib"
dylib => DyLib "dylib"
example => Example "example"
lib => Lib "lib"
proc-macro => ProcMacro "proc-macro"
rlib => RLib "rlib"
staticlib => StaticLib "staticlib"
test => Test "test"
 => unknown target kind
library => unknown target kind
Lib => unknown target kind
"#;

/// The same of the type of a crate.
static TYPES: &str = r#"
bin => Bin "bin"
cdylib => CDyLib "cdylib"
dylib => DyLib "dylib"
lib => Lib "lib"
proc-macro => ProcMacro "proc-macro"
rlib => RLib "rlib"
staticlib => StaticLib "staticlib"
 => unknown crate type
test => unknown crate type
"#;

/// The same of an edition.
static EDITIONS: &str = r#"
2015 => E2015 "2015"
2018 => E2018 "2018"
2021 => E2021 "2021"
2024 => E2024 "2024"
 => unknown edition
2020 => unknown edition
E2021 => unknown edition
"#;

/// Adds the value that was read, with what is written for it, or why none was.
fn push_named<T: ToValue + Debug + Drop>(
    told: &mut Text,
    read: Result<T, UnknownName>,
) -> Result<(), Fail> {
    match read {
        Ok(named) => {
            let value = named.to_value(told.allocator())?;
            write!(told, "{named:?} {value}");
        }
        Err(error) => write!(told, "{error}"),
    }
    Ok(())
}

/// The kind of a target that a text names.
struct Kind;

impl Tell for Kind {
    fn tell(told: &mut Text, text: &str) -> Result<(), Fail> {
        push_named(told, TargetKind::from_str(text))
    }
}

/// The type of a crate that a text names.
struct Type;

impl Tell for Type {
    fn tell(told: &mut Text, text: &str) -> Result<(), Fail> {
        push_named(told, CrateType::from_str(text))
    }
}

/// The edition that a text names.
struct Year;

impl Tell for Year {
    fn tell(told: &mut Text, text: &str) -> Result<(), Fail> {
        push_named(told, Edition::from_str(text))
    }
}

#[test]
fn each_name_is_read_and_written(rt: HostRuntime) -> Result<(), Fail> {
    hold_lines::<Kind>(rt.alloc(), KINDS)?;
    hold_lines::<Type>(rt.alloc(), TYPES)?;
    hold_lines::<Year>(rt.alloc(), EDITIONS)
}
