//! cfg expressions: their values at targets, what they count, and which text isn't one.

use krates_samples::settings::FromText;
use krates_samples::table::{Row, Tell, hold, hold_lines};
use krates_text::cfg::{CfgError, Expression};
use krates_text::target::Target;
use krates_text::text::Text;
use std::alloc::{AllocError, Global};
use std::test::Fail;

/// Where an expression is asked, a target by its triple and after a plus sign the one feature that is enabled there; the
/// expression, and its value. Of the target `x` nothing is known.
static VALUES: &str = r#"
x86_64-unknown-linux-gnu cfg(all(unix, not(target_os = "linux"),)) => false
aarch64-apple-darwin cfg(all(unix, not(target_os = "linux"),)) => true
x86_64-pc-windows-msvc cfg(all(windows, target_env = "musl")) => false
x86_64-unknown-linux-musl cfg(all(windows, target_env = "musl")) => false
x86_64-unknown-linux-gnu cfg(any()) => false
x86_64-unknown-linux-gnu cfg(all()) => true
x cfg(any(false, true)) => true
x cfg(not(target_os = "linux")) => true
x+atomics cfg(target_feature = "atomics") => true
x86_64-unknown-linux-gnu+simd cfg(target_feature = "atomics") => false
x86_64-unknown-linux-gnu cfg(target_has_atomic) => false
x86_64-unknown-linux-gnu cfg(target_has_atomic = "ptr") => true
x86_64-unknown-linux-gnu cfg(target_family = "unix") => true
x86_64-unknown-linux-gnu cfg(target_family = "wasm") => false
aarch64-apple-darwin cfg(target_env = "") => true
x86_64-pc-windows-msvc cfg(target_vendor = "pc") => true
wasm32-unknown-unknown cfg(panic = "abort") => true
wasm32-unknown-unknown cfg(panic = "unwind") => false
aarch64-unknown-linux-gnu cfg(target_arch = "aarch64") => true
aarch64-unknown-linux-gnu cfg(target_arch = "x86_64") => false
wasm32-unknown-unknown cfg(target_pointer_width = "32") => true
x86_64-apple-darwin cfg(target_pointer_width = "32") => false
x86_64-apple-darwin cfg(target_endian = "little") => true
x86_64-apple-darwin cfg(target_endian = "big") => false
x86_64-unknown-linux-gnu cfg(target_abi = "") => true
x86_64-unknown-linux-gnu cfg(target_abi = "gnu") => false
// of the families only two are words
x86_64-pc-windows-msvc cfg(windows) => true
x86_64-pc-windows-msvc cfg(unix) => false
wasm32-unknown-unknown cfg(wasm) => false
// a key without its prefix is none
x86_64-unknown-linux-gnu cfg(os = "linux") => false
x86_64-unknown-linux-gnu cfg(foo) => false
"#;

/// The refusal of a text that isn't an expression.
const SYNTAX: &str = "bad cfg expression";

/// The refusal of one that nests too deep.
const TOO_DEEP: &str = "cfg expression too deep";

/// An expression, and how many words and pairs it has, or why the text isn't one.
static COUNTS: &[Row] = &[
    (r#"cfg(all(unix, true, target_os = "linux"))"#, "2"),
    ("cfg( unix ) ", "1"),
    ("cfg(\tall\n(\r ) )\n", "0"),
    ("cfg(all(a ,\tany( b, ) , not ( c = \"d e\" ) ,))", "3"),
    // texts that are outside the grammar
    ("", SYNTAX),
    ("unix", SYNTAX),
    ("cfg(unix,)", SYNTAX),
    ("cfg()", SYNTAX),
    ("cfg(all)", SYNTAX),
    ("cfg(all(,))", SYNTAX),
    ("cfg (unix)", SYNTAX),
    ("cfg(unix", SYNTAX),
    ("cfg(unix))", SYNTAX),
    ("cfg(all(a b))", SYNTAX),
    ("cfg(all(a,,b))", SYNTAX),
    ("cfg(not())", SYNTAX),
    ("cfg(not(a, b))", SYNTAX),
    ("cfg(not(a,))", SYNTAX),
    ("cfg(any)", SYNTAX),
    ("cfg(not)", SYNTAX),
    ("cfg(true = \"a\")", SYNTAX),
    ("cfg(all = \"a\")", SYNTAX),
    ("cfg(a = b)", SYNTAX),
    ("cfg(a = \"b)", SYNTAX),
    ("cfg(1a)", SYNTAX),
    ("cfg(foo(a))", SYNTAX),
    ("cfg(\u{e9})", SYNTAX),
];

/// How many forms are nested, what is in the innermost, and what is counted.
static NESTED: &[Row] = &[("127 a", "1"), ("128 ", TOO_DEEP), ("100000 ", TOO_DEEP)];

/// How many forms are opened, of which none is closed.
static OPENED: &[Row] = &[("100000", TOO_DEEP)];

/// Each error, and what it prints.
static ERRORS: &[Row] = &[
    ("Syntax", SYNTAX),
    ("TooDeep", TOO_DEEP),
    ("Memory", "out of memory"),
];

/// The value of an expression at a place.
struct Value;

impl Tell for Value {
    fn tell(told: &mut Text, line: &str) -> Result<(), Fail> {
        let (place, text) = line.split_once(' ').unwrap_or((line, ""));
        let alloc = told.allocator();
        let expression = Expression::parse(alloc, text)?;
        let (target, features): (Target, Vec<String>) = FromText::from_text(alloc, place)?;
        write!(told, "{}", expression.eval(&target, features.as_slice()));
        Ok(())
    }
}

/// The words and pairs of an expression, counted, or why a text isn't one.
struct Counted;

impl Tell for Counted {
    fn tell(told: &mut Text, text: &str) -> Result<(), Fail> {
        match Expression::parse(told.allocator(), text) {
            Ok(expression) => write!(told, "{}", expression.predicates()),
            Err(error) => write!(told, "{error}"),
        }
        Ok(())
    }
}

/// The beginning of an expression in which this many forms are opened.
pub(crate) fn opened(alloc: Global, times: usize) -> Result<String, AllocError> {
    let forms = "not(".repeat(alloc, times)?;
    format!(in alloc; "cfg({forms}")
}

/// The words and pairs of an expression of nested forms, counted.
struct FormsInOneAnother;

impl Tell for FormsInOneAnother {
    fn tell(told: &mut Text, line: &str) -> Result<(), Fail> {
        let (times, inner) = line.split_once(' ').unwrap_or((line, ""));
        let (times, alloc) = (times.parse()?, told.allocator());
        let opened = opened(alloc, times)?;
        let closed = ")".repeat(alloc, times)?;
        let text = format!(in alloc; "{opened}{inner}{closed})")?;
        Counted::tell(told, text.as_str())
    }
}

/// Why the beginning of an expression with too many forms isn't one.
struct OpenedForms;

impl Tell for OpenedForms {
    fn tell(told: &mut Text, times: &str) -> Result<(), Fail> {
        let text = opened(told.allocator(), times.parse()?)?;
        Counted::tell(told, text.as_str())
    }
}

/// What an error prints.
struct Printed;

impl Tell for Printed {
    fn tell(told: &mut Text, name: &str) -> Result<(), Fail> {
        let error = match name {
            "Syntax" => CfgError::Syntax,
            "TooDeep" => CfgError::TooDeep,
            _ => CfgError::Memory,
        };
        write!(told, "{error}");
        Ok(())
    }
}

#[test]
fn expressions_are_evaluated_counted_or_refused(rt: HostRuntime) -> Result<(), Fail> {
    hold_lines::<Value>(rt.alloc(), VALUES)?;
    hold::<Counted>(rt.alloc(), COUNTS)?;
    hold::<FormsInOneAnother>(rt.alloc(), NESTED)?;
    hold::<OpenedForms>(rt.alloc(), OPENED)?;
    hold::<Printed>(rt.alloc(), ERRORS)
}
