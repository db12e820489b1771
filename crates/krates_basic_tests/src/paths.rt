//! Paths: their components, their parents, and how they are joined and compared.

use krates_samples::table::{Tell, hold_lines};
use krates_text::path::{components, ends_with, join, parent, same};
use krates_text::text::Text;
use std::test::Fail;

/// A path and its components, in order, each after a bar.
static COMPONENTS: &str = "
/D:/a//krates/./tests/ => |/|D:|a|krates|tests
./a/.././.b => |.|a|..|.b
";

/// The components of a path.
struct Components;

impl Tell for Components {
    fn tell(told: &mut Text, path: &str) -> Result<(), Fail> {
        for component in components(path) {
            write!(told, "|{}", component.as_os_str());
        }
        Ok(())
    }
}

/// A path and its parent.
static PARENTS: &str = r#"
/w/a/Cargo.toml => Some("/w/a")
/w/./a//Cargo.toml/. => Some("/w/./a")
/w => Some("/")
//./w/ => Some("/")
Cargo.toml => Some("")
./a => Some(".")
. => Some("")
/ => None
//. => None
 => None
"#;

/// The parent of a path.
struct Parent;

impl Tell for Parent {
    fn tell(told: &mut Text, path: &str) -> Result<(), Fail> {
        write!(told, "{:?}", parent(path));
        Ok(())
    }
}

/// A base, a bar, a path that is meant there, and the two joined.
static JOINED: &str = "
/w/a|LICENSE => /w/a/LICENSE
/w/a|../L => /w/a/../L
/w/a|/x => /x
/w/|a => /w/a
|R => R
";

/// A base and a path, joined.
struct Joined;

impl Tell for Joined {
    fn tell(told: &mut Text, line: &str) -> Result<(), Fail> {
        let (base, path) = line.split_once('|').unwrap_or((line, ""));
        let joined = join(told.allocator(), base, path)?;
        told.push_str(joined.as_str());
        Ok(())
    }
}

/// Two paths with a bar between them, whether the first ends with the components of the second, and whether the two are the same.
static COMPARED: &str = "
/w/./c//Cargo.toml|c/Cargo.toml => (true, false)
/w| => (true, false)
/w/MyCargo.toml|Cargo.toml => (false, false)
/w/c|/c => (false, false)
/w/./c//Cargo.toml|/w/c/Cargo.toml/ => (true, true)
/w/c|w/c => (true, false)
./c|c => (true, false)
";

/// How two paths compare.
struct Compared;

impl Tell for Compared {
    fn tell(told: &mut Text, line: &str) -> Result<(), Fail> {
        let (path, other) = line.split_once('|').unwrap_or((line, ""));
        write!(told, "{:?}", (ends_with(path, other), same(path, other)));
        Ok(())
    }
}

#[test]
fn components_parents_joined_and_compared(rt: HostRuntime) -> Result<(), Fail> {
    hold_lines::<Components>(rt.alloc(), COMPONENTS)?;
    hold_lines::<Parent>(rt.alloc(), PARENTS)?;
    hold_lines::<Joined>(rt.alloc(), JOINED)?;
    hold_lines::<Compared>(rt.alloc(), COMPARED)
}
