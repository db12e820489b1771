//! Reading a document item by item: each package and each node of the graph is read as a tree and turned into a value of its type, and
//! the tree is dropped before the next one is read. So the tree of the whole document is never in memory.
//!
//! What is read in this way is what the text has. `None` says nothing about the text: a key that occurs twice, or keys in another order, are
//! left to the reader of the whole document.

ghost use Rattle.std.specs.Prelude.{◌≡◌, ◌∷◌, ◌++◌, [], IfSome, List, Some, map};
ghost use Rattle.json.specs.Json.{object, array, no_items, no_members, member};
ghost use Rattle.json.specs.Tree.{json_tokens};
ghost use Rattle.json.specs.Value.{value_view};
ghost use Rattle.krates_cm.specs.Document.{metadata_view, package_view, resolve_view};
ghost use Rattle.krates_cm_json.specs.ByItem.{AreShallow, IsShallow, Lacks, Member, ReadsNext, joined, last_token, member_tokens};
ghost use Rattle.krates_cm_json.specs.Parsing.{IsDocument};
ghost use Rattle.krates_cm_json.specs.Readable.{data_in};
ghost use Rattle.krates_cm_json.specs.Reading.{list};
ghost use Rattle.krates_cm_json.specs.Tables.{metadata, resolve};

use crate::JsonRef;
use crate::parsed::Parsed;
use crate::range::is_in_range;
use crate::read::FromValue;
use json::{Reader, Scratch, Token, Value as Tree};
use krates_cm::{Metadata, Package, Resolve};
use std::alloc::Global;

/// How deep an item may nest, and any other value of the document or of its graph.
const ITEM_DEPTH: usize = 124;

/// The next value of the reader.
fn next_value<'t>(alloc: Global, reader: &mut Reader<'t>) -> Option<Parsed<'t>>
    ensures { IfSome result (λ p. IsShallow 124 (value_view p.tree)
        × (reader.old ≡ json_tokens (value_view p.tree) ++ reader.new)) }
{
    let tree = Tree::read(alloc, reader, ITEM_DEPTH).ok()?;
    if is_in_range(&tree) {
        Some(Parsed { tree })
    } else {
        None
    }
}

/// What is read from a value; `None` where it is refused or memory runs out.
fn read_value<T: FromValue, J: JsonRef>(alloc: Global, value: J) -> Option<T>
    ensures { IfSome result (λ x. (T.reads [] (J.meaning value)).value ≡ Some (T.view x)) }
{
    T::from_json_at(alloc, value, "").ok()
}

/// What is read from the next value of the reader.
fn next_item<T: FromValue>(alloc: Global, reader: &mut Reader<'_>) -> Option<T>
    ensures { IfSome result (λ x. ReadsNext 124 (T.reads []) reader.old (T.view x) reader.new) }
{
    let parsed = next_value(alloc, reader)?;
    read_value(alloc, parsed.root())
}

/// The next list of the reader, item by item.
fn next_list<T: FromValue>(alloc: Global, reader: &mut Reader<'_>) -> Option<Vec<T>>
    ensures { IfSome result
        (λ v. ReadsNext 125 (list T.reads []) reader.old (map T.view v.items) reader.new) }
{
    let Some(Token::BeginArray) = reader.next() else {
        return None;
    };
    let mut items = Vec::new(alloc);
    while !reader.take_end_array() {
        let item = next_item(alloc, reader)?;
        push(&mut items, item)?;
    }
    Some(items)
}

/// Adds to a list, unless memory runs out.
fn push<T: Drop>(list: &mut Vec<T>, item: T) -> Option<()>
    ensures { IfSome result (λ _. list.new.items ≡ list.old.items ++ item ∷ []) }
{
    list.push(item).ok()
}

/// Adds the next members of an object to others, up to a key or to the end of the object, and returns whether the key was found.
/// `None` at the key that was found before.
fn has_key_behind<'t>(
    alloc: Global,
    reader: &mut Reader<'t>,
    members: &mut Vec<(&'t str, Tree<'t>)>,
    wanted: &str,
    given: &str,
) -> Option<bool>
    ensures { IfSome result (λ found. (ms : List Member) × (members.new.items ≡ members.old.items ++ ms)
        × AreShallow 124 ms × Lacks wanted.now ms × Lacks given.now ms
        × (reader.old ≡ member_tokens ms ++ (last_token found wanted.now ∷ reader.new))) }
{
    while let Some(key) = reader.next_key().ok()? {
        if key == wanted {
            return Some(true);
        }
        if key == given {
            return None;
        }
        let value = next_value(alloc, reader)?;
        push(members, (key, value.tree))?;
    }
    Some(false)
}

/// What is read from an object of these members and of an empty list under one more key.
fn read_beside<'t, T: FromValue>(
    alloc: Global,
    members: Vec<(&'t str, Tree<'t>)>,
    list_key: &'t str,
) -> Option<T>
    requires { AreShallow 124 members.items }
    ensures { IfSome result (λ x. (T.reads [] (data_in (object
        (joined members.entry.items (member list_key.now (array no_items) no_members))))).value
        ≡ Some (T.view x)) }
{
    let whole = with_empty_list(alloc, members, list_key)?;
    read_value(alloc, whole.root())
}

/// The object of these members and of an empty list under one more key.
fn with_empty_list<'t>(
    alloc: Global,
    members: Vec<(&'t str, Tree<'t>)>,
    key: &'t str,
) -> Option<Parsed<'t>>
    requires { AreShallow 124 members.items }
    ensures { IfSome result (λ p. value_view p.tree
        ≡ object (joined members.entry.items (member key.now (array no_items) no_members))) }
{
    let mut members = members;
    push(&mut members, (key, Tree::Array(Vec::new(alloc))))?;
    Some(Parsed {
        tree: Tree::Object(members),
    })
}

/// The graph that comes next, read node by node.
fn next_resolve(alloc: Global, reader: &mut Reader<'_>) -> Option<Resolve>
    ensures { IfSome result
        (λ r. ReadsNext 126 (resolve []) reader.old (resolve_view r) reader.new) }
{
    let Some(Token::BeginObject) = reader.next() else {
        return None;
    };
    let mut others = Vec::new(alloc);
    if !has_key_behind(alloc, reader, &mut others, "nodes", "nodes")? {
        return None;
    }
    let nodes = next_list(alloc, reader)?;
    if has_key_behind(alloc, reader, &mut others, "nodes", "nodes")? {
        return None;
    }
    let resolve: Resolve = read_beside(alloc, others, "nodes")?;
    Some(Resolve {
        nodes,
        root: resolve.root,
    })
}

/// The document that comes next, read package by package and node by node.
fn next_document(alloc: Global, reader: &mut Reader<'_>) -> Option<Metadata>
    ensures { IfSome result
        (λ m. ReadsNext 127 (metadata []) reader.old (metadata_view m) reader.new) }
{
    let Some(Token::BeginObject) = reader.next() else {
        return None;
    };
    let mut others = Vec::new(alloc);
    if !has_key_behind(alloc, reader, &mut others, "packages", "packages")? {
        return None;
    }
    let packages = next_list(alloc, reader)?;
    if !has_key_behind(alloc, reader, &mut others, "resolve", "packages")? {
        return None;
    }
    let resolve = next_resolve(alloc, reader)?;
    if has_key_behind(alloc, reader, &mut others, "resolve", "packages")? {
        return None;
    }
    let document = read_beside(alloc, others, "packages")?;
    Some(with_parts(document, packages, resolve))
}

/// A document with these packages and this graph instead of its own.
fn with_parts(document: Metadata, packages: Vec<Package>, resolve: Resolve) -> Metadata
    ensures { metadata_view result ≡ record (metadata_view document) {
      packages = map package_view packages.items;
      resolve = Some (resolve_view resolve);
    } }
{
    let mut document = document;
    document.packages = packages;
    document.resolve = Some(resolve);
    document
}

/// Reads a document item by item. `None` says nothing about the text.
pub(crate) fn document(alloc: Global, text: &str) -> Option<Metadata>
    ensures { IfSome result (λ m. IsDocument text.now (metadata_view m)) }
{
    let mut scratch = Scratch::new(alloc);
    let mut reader = Reader::new(text, &mut scratch).ok()?;
    let document = next_document(alloc, &mut reader)?;
    if reader.next().is_some() {
        return None;
    }
    Some(document)
}
