//! Feature references: which form each text has.

use krates_samples::table::{Tell, hold_lines};
use krates_text::features::ParsedFeature;
use krates_text::text::Text;
use std::test::Fail;

/// A text and the form that it has.
static FORMS: &str = r#"
a/b?/c => Weak { krate: "a/b", feature: "c" }
reqwest?/json => Weak { krate: "reqwest", feature: "json" }
serde/derive => Strong { krate: "serde", feature: "derive" }
dep:x/y => Krate("x/y")
dep:x?/y => Krate("x?/y")
dep: => Krate("")
// the first mark counts, and one with a question mark before any other
a?/b?/c => Weak { krate: "a", feature: "b?/c" }
a?/b/c => Weak { krate: "a", feature: "b/c" }
a/b/c => Strong { krate: "a", feature: "b/c" }
/ => Strong { krate: "", feature: "" }
a/dep:b => Strong { krate: "a", feature: "dep:b" }
a? => Simple("a?")
std => Simple("std")
 => Simple("")
"#;

/// The form of a text.
struct Form;

impl Tell for Form {
    fn tell(told: &mut Text, text: &str) -> Result<(), Fail> {
        write!(told, "{:?}", ParsedFeature::from(text).feat());
        Ok(())
    }
}

#[test]
fn reads_each_form(rt: HostRuntime) -> Result<(), Fail> {
    hold_lines::<Form>(rt.alloc(), FORMS)
}
