//! JSON texts that are read in place, and what each is as a value of `serde_json`.

use json::Scratch;
use krates_cm_json::{JsonRef, Owned, Parsed};
use krates_samples::table::{Tell, compare, hold_lines};
use krates_text::text::Text;
use serde_json::Value;
use std::alloc::{AllocError, Global};
use std::test::Fail;

/// Texts, and the value of each; or that it isn't read.
static TEXTS: &str = r#"
null => null
 true  => true
"a\u0041\n" => "aA\n"
[] => []
[1, -2, [3.5, 0], {}] => [1,-2,[3.5,0],{}]
// The names of an object are in order, and the last value of a name stays.
{"b":[false],"a":null} => {"a":null,"b":[false]}
{"a":1,"b":2,"a":{"c":3}} => {"a":{"c":3},"b":2}
{"a":1e999,"a":1} => not read
// Numbers are in range where a float is that isn't infinite.
18446744073709551615 => 18446744073709551615
-9223372036854775808 => -9223372036854775808
1e308 => 1e+308
1e309 => not read
-1e309 => not read
// What isn't JSON, or continues after its value.
 => not read
[1 => not read
1 2 => not read
{} x => not read
[1,] => not read
{"a"} => not read
01 => not read
nul => not read
"#;

/// How deep arrays nest, and whether they are read.
static DEPTHS: &str = "
1 => read
127 => read
128 => not read
";

/// What a text is.
struct InPlace;

impl Tell for InPlace {
    fn tell(told: &mut Text, text: &str) -> Result<(), Fail> {
        let mut scratch = Scratch::new(told.allocator());
        let Some(parsed) = Parsed::parse(told.allocator(), text, &mut scratch)? else {
            told.push_str("not read");
            return Ok(());
        };
        let value = parsed.root().to_value(told.allocator())?;
        write!(told, "{value}");
        same_parts(
            told.allocator(),
            parsed.root(),
            Owned { value: &value },
            text,
        )
    }
}

/// Adds a part after its name, where there is one, and a line feed.
fn push_part<J: JsonRef>(told: &mut Text, name: &str, part: Option<J>) -> Result<(), AllocError> {
    if let Some(part) = part {
        let value = part.to_value(told.allocator())?;
        write!(told, "{name}{value}");
    }
    told.push_str("\n");
    Ok(())
}

/// Adds the members of an object; nothing where it has none.
fn push_members<J: JsonRef>(told: &mut Text, value: J) -> Result<(), AllocError> {
    let Some(members) = value.members(told.allocator())? else {
        return Ok(());
    };
    for (name, member) in members.iter() {
        push_part(told, name, Some(*member))?;
    }
    Ok(())
}

/// Adds of what kind a value is, what it is as a plain value, its second item, its member `a`, and all members.
fn push_parts<J: JsonRef>(told: &mut Text, value: J) -> Result<(), AllocError> {
    let is = (value.is_null(), value.is_object(), value.as_bool());
    write!(told, "{is:?} {:?} {:?}\n", value.as_str(), value.len());
    push_part(told, "", value.item(1))?;
    push_part(told, "", value.get("a"))?;
    push_members(told, value)
}

/// Compares what two equal values answer, and names their text where that differs.
fn same_parts<J: JsonRef, K: JsonRef>(alloc: Global, a: J, b: K, text: &str) -> Result<(), Fail> {
    let mut told = Text::new(alloc);
    let mut known = Text::new(alloc);
    push_parts(&mut told, a)?;
    push_parts(&mut known, b)?;
    compare(text, told.whole()?.as_str(), known.whole()?.as_str())
}

/// Arrays that nest this deep.
fn arrays(alloc: Global, depth: usize) -> Result<String, AllocError> {
    let opened = "[".repeat(alloc, depth)?;
    let closed = "]".repeat(alloc, depth)?;
    format!(in alloc; "{opened}{closed}")
}

/// Whether arrays that nest this deep are read.
struct Nested;

impl Tell for Nested {
    fn tell(told: &mut Text, depth: &str) -> Result<(), Fail> {
        let text = arrays(told.allocator(), depth.parse()?)?;
        let mut scratch = Scratch::new(told.allocator());
        let parsed = Parsed::parse(told.allocator(), text.as_str(), &mut scratch)?;
        told.push_str(if parsed.is_some() { "read" } else { "not read" });
        Ok(())
    }
}

/// What `serde_json` reads a text as, which refuses what isn't read in place.
struct AsValue;

impl Tell for AsValue {
    fn tell(told: &mut Text, text: &str) -> Result<(), Fail> {
        match Value::from_str(told.allocator(), text) {
            Ok(value) => write!(told, "{value}"),
            Err(_) => told.push_str("not read"),
        }
        Ok(())
    }
}

#[test]
fn texts_in_place_and_as_values(rt: HostRuntime) -> Result<(), Fail> {
    hold_lines::<InPlace>(rt.alloc(), TEXTS)?;
    hold_lines::<AsValue>(rt.alloc(), TEXTS)?;
    hold_lines::<Nested>(rt.alloc(), DEPTHS)
}
