//! What a substitute for cargo writes: its last word chooses it.

ghost use Rattle.std.specs.Prelude.{◌≡◌, ◌++◌, ◌∷◌, [], IfOk, map, string_bytes};
ghost use Rattle.std.specs.Option.{option_map};
ghost use Rattle.krates_samples.specs.StandIn.{answer, answer_view, documented, in_lines, last_word};

use std::alloc::{AllocError, Global};

/// A document of two packages, of which the first needs the second for its tests.
pub const DOCUMENT: &str =
    r#"{"packages":[{"name":"a","version":"0.1.0","id":"path+file:///w/a#0.1.0","dependencies":[{"name":"b","req":"*","kind":"dev","optional":false,"uses_default_features":false,"features":[]}],"targets":[],"features":{},"manifest_path":"/w/a/Cargo.toml"},{"name":"b","version":"0.1.0","id":"path+file:///w/b#0.1.0","dependencies":[],"targets":[],"features":{},"manifest_path":"/w/b/Cargo.toml"}],"workspace_members":["path+file:///w/a#0.1.0"],"workspace_root":"/w","target_directory":"/w/target","resolve":{"nodes":[{"id":"path+file:///w/a#0.1.0","deps":[{"name":"b","pkg":"path+file:///w/b#0.1.0","dep_kinds":[{"kind":"dev","target":null}]}],"dependencies":["path+file:///w/b#0.1.0"],"features":[]},{"id":"path+file:///w/b#0.1.0","deps":[],"dependencies":[],"features":[]}],"root":null}}"#;

/// What is written to standard output and to standard error, and the status.
#[derive(Debug, Drop)]
pub struct Output {
    /// What goes to standard output.
    pub stdout: Vec<u8>,
    /// What goes to standard error.
    pub stderr: Vec<u8>,
    /// The exit status.
    pub status: u8,
}

/// What is written for the words after the program's name, where a variable of the environment has this value. By the last word:
///
/// - `--fake=fail`: the line `no manifest` as an error, and status 101.
/// - `--fake=badout`, `--fake=baderr`: a byte that isn't UTF-8, as output, or as an error with status 1.
/// - `--fake=nojson`: the line `hello`.
/// - `--fake=words`: each word on a line, as an error, and status 1.
/// - `--fake=env`: the value on a line, as an error, and status 1; an empty line where there is none.
/// - any other, or none: the line `a warning`, and then the document on one line.
///
/// Time: O(n) for n bytes of words and value.
pub fn answer(alloc: Global, words: &[String], variable: Option<&str>) -> Result<Output, AllocError>
    ensures { IfOk result (λ a.
        answer_view a ≡ answer (map string_bytes words.now) (option_map (λ v. v.now) variable.entry)) }
{
    match last_word(words) {
        "--fake=fail" => written(alloc, b"", b"no manifest\n", 101),
        "--fake=badout" => written(alloc, b"\xff", b"", 0),
        "--fake=baderr" => written(alloc, b"", b"\xff", 1),
        "--fake=nojson" => written(alloc, b"hello\n", b"", 0),
        "--fake=words" => written(alloc, b"", lines(alloc, words)?.as_bytes(), 1),
        "--fake=env" => written(
            alloc,
            b"",
            line(alloc, variable.unwrap_or(""))?.as_bytes(),
            1,
        ),
        _ => documented(alloc),
    }
}

/// The last word, empty where there is none.
fn last_word(words: &[String]) -> &str
    ensures { result.now ≡ last_word (map string_bytes words.now) }
{
    match words.last() {
        Some(word) => word.as_str(),
        None => "",
    }
}

/// An answer with copies of these bytes.
fn written(alloc: Global, stdout: &[u8], stderr: &[u8], status: u8) -> Result<Output, AllocError>
    ensures { IfOk result (λ a.
        answer_view a ≡ record { stdout = stdout.now; stderr = stderr.now; status = status }) }
{
    Ok(Output {
        stdout: Vec::from_slice(alloc, stdout)?,
        stderr: Vec::from_slice(alloc, stderr)?,
        status,
    })
}

/// The text on a line.
fn line(alloc: Global, text: &str) -> Result<String, AllocError>
    ensures { IfOk result (λ line. string_bytes line ≡ text.now ++ 10 ∷ []) }
{
    let mut line = String::from_str(alloc, text)?;
    line.push('\n')?;
    Ok(line)
}

/// Each word on a line.
fn lines(alloc: Global, words: &[String]) -> Result<String, AllocError>
    ensures { IfOk result (λ lines. string_bytes lines ≡ in_lines (map string_bytes words.now)) }
{
    let mut lines = String::new(alloc);
    for word in words {
        lines.push_str(word.as_str())?;
        lines.push('\n')?;
    }
    Ok(lines)
}

/// A warning, and then the document.
#[tactic(auto, unfolding(crate::specs::StandIn::documented))]
fn documented(alloc: Global) -> Result<Output, AllocError>
    ensures { IfOk result (λ a. answer_view a ≡ documented) }
{
    let mut text = line(alloc, "a warning")?;
    text.push_str(DOCUMENT)?;
    text.push('\n')?;
    written(alloc, text.as_bytes(), b"", 0)
}
