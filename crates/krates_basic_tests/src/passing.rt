//! Passing: which target text lets a dependency pass at which targets.

use crate::expressions::opened;
use krates_samples::settings::targets_of;
use krates_samples::table::{Tell, hold_lines};
use krates_text::passing::passes;
use krates_text::text::Text;
use std::test::Fail;

/// Targets, each with the feature that is enabled there after a plus sign, and after a bar a target text, if there is one; and whether
/// that passes there.
static PASSING: &str = r#"
// where there are no targets
 | cfg(unix) => true
 | x86_64-unknown-linux-gnu => true
 => true
 | cfg(any(false, false)) => false
 | cfg(not(any())) => true
 | cfg(foo) => true
 | cfg(unix => true
// a space before the bracket makes it a triple
 | cfg (unix) => true
 | cfg(all(windows, target_env = "musl")) => true
// at two targets, of which each is one half of what no single target is
x86_64-pc-windows-msvc x86_64-unknown-linux-musl | cfg(all(windows, target_env = "musl")) => false
x86_64-pc-windows-msvc x86_64-unknown-linux-musl | cfg(windows) => true
x86_64-pc-windows-msvc x86_64-unknown-linux-musl | cfg(unix => false
x86_64-pc-windows-msvc x86_64-unknown-linux-musl | x86_64-unknown-linux-musl => true
x86_64-pc-windows-msvc x86_64-unknown-linux-musl | x86_64-unknown-linux-gnu => false
x86_64-pc-windows-msvc x86_64-unknown-linux-musl | cfg(target_has_atomic = "ptr") => true
x86_64-pc-windows-msvc x86_64-unknown-linux-musl | cfg(target_has_atomic = "128") => false
x86_64-pc-windows-msvc x86_64-unknown-linux-musl | cfg(target_has_atomic) => false
x86_64-pc-windows-msvc x86_64-unknown-linux-musl => true
// at a target for which a table has a description
x86_64-unknown-linux-gnu | cfg(unix => false
x86_64-unknown-linux-gnu | x86_64-unknown-linux-gnu => true
x86_64-unknown-linux-gnu | cfg(target_has_atomic) => false
// at a target about which nothing is known
x | x => true
x | y => false
x | cfg(unix) => false
x | cfg(not(unix)) => true
x | cfg(not(target_os = "linux")) => true
x | cfg(target_feature = "atomics") => false
x | cfg(target_has_atomic = "8") => false
x => true
// the same with a feature
x+atomics | x => true
x+atomics | cfg(target_feature = "atomics") => true
x+atomics | cfg(target_feature = "simd128") => false
x+atomics | cfg(all(unix, target_feature = "atomics")) => false
// the same where its text begins like an expression and isn't one
cfg(unix | cfg(unix => true
cfg(unix | cfg(unix) => false
cfg(unix | cfg(windows => false
"#;

/// Targets, and whether the beginning of an expression with too many forms passes there as a triple.
static WITHOUT_END: &str = "
 => true
x86_64-pc-windows-msvc x86_64-unknown-linux-musl => false
";

/// Adds whether a text passes at the targets of these words.
fn push_passing(told: &mut Text, targets: &str, text: Option<&str>) -> Result<(), Fail> {
    let targets = targets_of(told.allocator(), targets)?;
    let is_passing = passes(told.allocator(), text, targets.as_slice())?;
    write!(told, "{is_passing}");
    Ok(())
}

/// Whether the text of a line passes at its targets.
struct Passing;

impl Tell for Passing {
    fn tell(told: &mut Text, line: &str) -> Result<(), Fail> {
        match line.split_once(" | ") {
            Some((targets, text)) => push_passing(told, targets, Some(text)),
            None => push_passing(told, line, None),
        }
    }
}

/// Whether the beginning of an expression with too many forms passes at the targets of a line.
struct TooDeep;

impl Tell for TooDeep {
    fn tell(told: &mut Text, targets: &str) -> Result<(), Fail> {
        let text = opened(told.allocator(), 100_000)?;
        push_passing(told, targets, Some(text.as_str()))
    }
}

#[test]
fn passes_by_one_single_target(rt: HostRuntime) -> Result<(), Fail> {
    hold_lines::<Passing>(rt.alloc(), PASSING)?;
    hold_lines::<TooDeep>(rt.alloc(), WITHOUT_END)
}
