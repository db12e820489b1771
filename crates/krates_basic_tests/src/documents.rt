//! Whole documents, read from their text.

use krates_cm::{Error, Metadata};
use krates_cm_json::parse;
use krates_samples::stand_in::DOCUMENT;
use krates_samples::table::{Row, Tell, hold};
use krates_text::text::Text;
use std::alloc::AllocError;
use std::test::Fail;

/// Texts, and what is read of them.
static READ: &[Row] = &[
    (
        DOCUMENT,
        r#"a needs [Dependency { name: "b", source: None, req: VersionReq { comparators: [] }, kind: Development, optional: false, uses_default_features: false, features: [], target: None, rename: None, registry: None, path: None }]; the other is path+file:///w/b#0.1.0; 2 nodes, root None"#,
    ),
    // texts that aren't a document, and why
    ("", "no JSON"),
    ("hello", "no JSON"),
    ("{\"packages\":", "no JSON"),
    ("{\"packages\":[]} x", "no JSON"),
    (
        "[]",
        "no metadata: failed to interpret `cargo metadata`'s json: wrong type at key: ",
    ),
    (
        "{\"packages\":[],\"workspace_members\":[],\"workspace_root\":\"/w\"}",
        "no metadata: failed to interpret `cargo metadata`'s json: missing key: target_directory",
    ),
];

/// Adds what is in a document of two packages and a graph.
fn push_summary(told: &mut Text, metadata: &Metadata) {
    let ([one, other], Some(graph)) = (metadata.packages.as_slice(), &metadata.resolve) else {
        return told.push_str("not two packages and a graph");
    };
    write!(
        told,
        "{} needs {:?}; the other is {}; {} nodes, root {:?}",
        one.name,
        one.dependencies,
        other.id.repr,
        graph.nodes.len(),
        graph.root
    )
}

/// Adds why nothing is read: the kind of the error, and what it prints. Of a text that isn't JSON the library says why, in words
/// of its own, so only the words before them are looked at.
fn push_refusal(told: &mut Text, error: &Error) -> Result<(), AllocError> {
    let printed = error.to_string(told.allocator())?;
    let is_begun = printed.starts_with("failed to interpret `cargo metadata`'s json: ");
    match error {
        Error::Json(_) if is_begun => told.push_str("no JSON"),
        Error::Value(_) => write!(told, "no metadata: {printed}"),
        _ => told.push_str(printed.as_str()),
    }
    Ok(())
}

/// What is read of a text, or why nothing is.
struct Parsed;

impl Tell for Parsed {
    fn tell(told: &mut Text, text: &str) -> Result<(), Fail> {
        match parse(told.allocator(), text) {
            Ok(metadata) => push_summary(told, &metadata),
            Err(error) => push_refusal(told, &error)?,
        }
        Ok(())
    }
}

#[test]
fn texts_are_read_or_refused(rt: HostRuntime) -> Result<(), Fail> {
    hold::<Parsed>(rt.alloc(), READ)
}
