//! Texts of others: what is shown of each.

use krates_samples::table::{Row, Tell, hold};
use krates_shown::Shown;
use krates_text::text::Text;
use std::test::Fail;

/// A text and what is shown of it.
static SHOWN: &[Row] = &[
    ("", ""),
    ("serde v1.0.152 (/w/a b)", "serde v1.0.152 (/w/a b)"),
    ("\"'`<>&%$é漢🦀", "\"'`<>&%$é漢🦀"),
    // what ends a line
    ("MIT\nopenssl v9.9.9", r"MIT\u{a}openssl v9.9.9"),
    ("\r", r"\u{d}"),
    ("\u{b}\u{c}\u{85}", r"\u{b}\u{c}\u{85}"),
    ("\u{2028}\u{2029}", r"\u{2028}\u{2029}"),
    // what moves the cursor
    ("\u{1b}[2K\u{1b}[1A", r"\u{1b}[2K\u{1b}[1A"),
    ("\u{9b}8m", r"\u{9b}8m"),
    ("a\tb", r"a\u{9}b"),
    // the first and the last of each kind, and their neighbours
    ("\0\u{1f} ~\u{7f}", r"\u{0}\u{1f} ~\u{7f}"),
    ("\u{80}\u{9f}\u{a0}", "\\u{80}\\u{9f}\u{a0}"),
    // what turns the direction
    ("\u{202e}gpj.exe", r"\u{202e}gpj.exe"),
    (
        "\u{202a}\u{202b}\u{202c}\u{202d}\u{202f}",
        "\\u{202a}\\u{202b}\\u{202c}\\u{202d}\u{202f}",
    ),
    (
        "\u{2065}\u{2066}\u{2067}\u{2068}\u{2069}\u{206a}",
        "\u{2065}\\u{2066}\\u{2067}\\u{2068}\\u{2069}\u{206a}",
    ),
    (
        "\u{200d}\u{200e}\u{200f}\u{2010}",
        "\u{200d}\\u{200e}\\u{200f}\u{2010}",
    ),
    ("\u{61b}\u{61c}\u{61d}", "\u{61b}\\u{61c}\u{61d}"),
    // what reads as a number is told apart from one
    (r"\u{1b}", r"\u{5c}u{1b}"),
    ("\\\u{1b}", r"\\u{1b}"),
    (r"\u{", r"\u{5c}u{"),
    (r"\\u{a}", r"\\u{5c}u{a}"),
    (r"C:\Users\u \u", r"C:\Users\u \u"),
];

/// What is shown of a text.
struct AsShown;

impl Tell for AsShown {
    fn tell(told: &mut Text, text: &str) -> Result<(), Fail> {
        write!(told, "{}", Shown(text));
        Ok(())
    }
}

#[test]
fn shows_texts_of_others(rt: HostRuntime) -> Result<(), Fail> {
    hold::<AsShown>(rt.alloc(), SHOWN)
}
