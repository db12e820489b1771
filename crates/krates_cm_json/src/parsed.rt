//! JSON texts that were read.

ghost use Rattle.json.specs.Value.{value_view};
ghost use Rattle.krates_cm_json.specs.Readable.{IsReadable, IsReadable-prop};

use json::Value as Tree;

/// A JSON text that was read (RFC 8259). Its texts stay where they are: in the text, or in the scratch that was lent.
///
/// ```text
/// let mut scratch = Scratch::new(alloc);
/// if let Some(parsed) = Parsed::parse(alloc, text, &mut scratch)? {
///     let version = parsed.root().get("version");
/// }
/// ```
#[derive(Drop)]
pub struct Parsed<'t> {
    pub(crate) tree: Tree<'t>,
    ghost readable: { IsReadable (value_view tree) } by { IsReadable-prop _ },
}
