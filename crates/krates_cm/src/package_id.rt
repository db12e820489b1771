//! Package ids, as the document writes them.

/// The id of a package: an opaque text by which the document refers to it.
///
/// Two ids of one document name the same package if their texts are equal
/// (Cargo Book, "cargo metadata", "JSON format").
#[derive(Debug, Drop, PartialEq, Eq, PartialOrd, Ord, Hash)]
pub struct PackageId {
    /// The text of the id.
    pub repr: String,
}
