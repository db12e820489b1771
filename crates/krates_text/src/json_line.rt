//! The line of a program's output that holds a JSON object.
ghost use Rattle.std.specs.Prelude.{◌≡◌};
ghost use Rattle.std.specs.Option.{option_map};
ghost use Rattle.krates_text.specs.JsonLine.{begins_object, json_line};

/// The first line that begins with `{`, without the `\n` or `\r\n` that ends it. A program's warnings may come before it.
/// Time O(length).
///
/// ```text
/// assert_eq!(rt; first_object_line("a warning\n{}\n"), Some("{}"));
/// ```
pub fn first_object_line(output: &str) -> Option<&str>
    ensures { option_map (λ line. line.now) result ≡ json_line output.now }
{
    output.lines().find(|line| begins_object(line))
}

/// Whether the line begins with `{`.
fn begins_object(line: &str) -> bool
    ensures { result ≡ begins_object line.now }
{
    line.starts_with('{')
}
