//! A small language of documents: one line says what `cargo metadata` writes of a workspace.
//!
//! A line has sections with ` / ` between them. The first has the packages, with bars between them. Each is a word for the
//! package, a word for each dependency that it declares, and after a semicolon the features of its manifest, each a name, `=`
//! and references with commas between them: `a b?;x=b/y,z`.
//!
//! A word is a name, `@` and a version where it isn't 0.1.0, and options, each after `&`:
//!
//! - `id=ID`: its id is this text instead of the one that cargo gives to a crate at `/w/NAME`;
//! - `crates.io`: it is a package of crates.io, and has an id of that registry;
//! - `lib=NAME`: the library of the package has this name.
//!
//! The name of a declared dependency is followed by `?` where it is optional and by `!` where it uses default features. It
//! has more options: `normal`, `dev` and `build` (its kind), `on=TARGET`, `with=FEATURES`, `from=SOURCE`, `at=PATH`,
//! `as=NAME` (its new name) and `req=REQUIREMENT` (of its version; without it `*`, which has no comparator).
//!
//! The other sections begin with a name.
//!
//! - `nodes`: the nodes, written as packages are, with the names of features alone; each kind that a word lists is one of
//!   its `dep_kinds`. Without this section each package has a node, which needs what the package declares and lists the
//!   features of its manifest.
//! - `members`: the words of the members; without it `a` is the only one.
//! - `root`: the word of the root; without it the graph has no root.
//! - `no graph` and `null graph`: there is no resolved graph, or it is null.
//!
//! Any other section is skipped here: it says how the document is used. A tilde anywhere means a space.

use krates_cm::{DependencyKind, Metadata, PackageId};
use krates_cm_json::parse;
use krates_ids::Kid;
use krates_text::text::Text;
use std::alloc::Global;
use std::test::Fail;

/// The index of crates.io, as a source.
const CRATES_IO: &str = "registry+https://github.com/rust-lang/crates.io-index";

/// The options of a declared dependency that are texts, and the key of each.
const OPTIONS: &[(&str, &str)] = &[
    ("on=", "target"),
    ("from=", "source"),
    ("at=", "path"),
    ("as=", "rename"),
];

/// The section of this name, without it.
pub fn section<'a>(line: &'a str, name: &str) -> Option<&'a str> {
    for part in line.split(" / ") {
        if let Some(rest) = part.strip_prefix(name) {
            return Some(rest);
        }
    }
    None
}

/// What a word has after this key, up to its next option.
fn option_of<'a>(word: &'a str, key: &str) -> Option<&'a str> {
    let (_, options) = word.split_once('&')?;
    for part in options.split('&') {
        if let Some(value) = part.strip_prefix(key) {
            return Some(value);
        }
    }
    None
}

/// The name and the version of a word.
fn named(word: &str) -> (&str, &str) {
    let (head, _) = word.split_once('&').unwrap_or((word, ""));
    let head = head.trim_end_matches('!').trim_end_matches('?');
    head.split_once('@').unwrap_or((head, "0.1.0"))
}

/// Whether the name of a word is followed by this mark.
fn is_marked(word: &str, mark: char) -> bool {
    let (head, _) = word.split_once('&').unwrap_or((word, ""));
    head.ends_with(mark)
}

/// Writes the id of a word.
fn push_id(text: &mut Text, word: &str) {
    if let Some(id) = option_of(word, "id=") {
        return text.push_str(id);
    }
    let (name, version) = named(word);
    let is_registered = option_of(word, "crates.io").is_some();
    text.push_str(if is_registered {
        CRATES_IO
    } else {
        "path+file:///w/"
    });
    text.push_str(if is_registered { "" } else { name });
    text.push_str("#");
    if is_registered || version != "0.1.0" {
        write!(text, "{name}@");
    }
    text.push_str(version);
}

/// The word for an id of a crate at `/w`, or the id itself where it is another.
pub fn word_of(id: &str) -> &str {
    let Some(place) = id.strip_prefix("path+file:///w/") else {
        return id;
    };
    let (name, version) = place.split_once('#').unwrap_or((place, ""));
    if version == "0.1.0" {
        return name;
    }
    let (own, _) = version.split_once('@').unwrap_or(("", ""));
    if own == name { version } else { id }
}

/// Separates the next item of a JSON list or object from the one before it, if there is one.
fn divide(json: &mut Text) {
    if !json.as_str().ends_with(['[', '{']) {
        json.push_str(",");
    }
}

/// Writes the texts between commas as items of a JSON list.
fn push_texts(json: &mut Text, texts: &str) {
    for text in texts.split(',') {
        if !text.is_empty() {
            divide(json);
            write!(json, "{text:?}");
        }
    }
}

/// Writes a member of a JSON object, where there is a text for it.
fn push_member(json: &mut Text, key: &str, text: Option<&str>) {
    if let Some(text) = text {
        write!(json, ",{key:?}:{text:?}");
    }
}

/// Writes the id of a word as a JSON text.
fn push_quoted_id(json: &mut Text, word: &str) {
    json.push_str("\"");
    push_id(json, word);
    json.push_str("\"");
}

/// The kind of dependency of this name: `dev`, `build`, and any other for a normal one.
pub fn kind_named(name: &str) -> DependencyKind {
    if name == "dev" {
        return DependencyKind::Development;
    }
    if name == "build" {
        return DependencyKind::Build;
    }
    DependencyKind::Normal
}

/// A kind, as JSON.
fn json_of(kind: DependencyKind) -> &'static str {
    match kind {
        DependencyKind::Normal => "null",
        DependencyKind::Development => "\"dev\"",
        DependencyKind::Build => "\"build\"",
    }
}

/// Whether an option names a kind.
fn is_kind(option: &str) -> bool {
    option == "normal" || kind_named(option) != DependencyKind::Normal
}

/// The first kind that a word lists, as JSON.
fn first_kind(word: &str) -> &'static str {
    for option in word.split('&') {
        if is_kind(option) {
            return json_of(kind_named(option));
        }
    }
    "null"
}

/// Writes a declared dependency.
fn push_declaration(json: &mut Text, word: &str) {
    let (name, _) = named(word);
    let kind = first_kind(word);
    let req = option_of(word, "req=").unwrap_or("*");
    let (optional, defaults) = (is_marked(word, '?'), is_marked(word, '!'));
    write!(
        json,
        "{{\"name\":{name:?},\"req\":{req:?},\"kind\":{kind},\"optional\":{optional},\"uses_default_features\":{defaults},\"features\":["
    );
    push_texts(json, option_of(word, "with=").unwrap_or(""));
    json.push_str("]");
    for &(option, key) in OPTIONS {
        push_member(json, key, option_of(word, option));
    }
    json.push_str("}");
}

/// Writes one of the `dep_kinds` of a dependency of a node.
fn push_kind(json: &mut Text, word: &str, kind: DependencyKind) {
    divide(json);
    write!(json, "{{\"kind\":{}", json_of(kind));
    push_member(json, "target", option_of(word, "on="));
    json.push_str("}");
}

/// Writes the kinds of a dependency of a node: those that its word lists, or the normal one.
fn push_kinds(json: &mut Text, word: &str) {
    for option in word.split('&') {
        if is_kind(option) {
            push_kind(json, word, kind_named(option));
        }
    }
    if json.as_str().ends_with('[') {
        push_kind(json, word, DependencyKind::Normal);
    }
}

/// Writes a dependency of a node.
fn push_dependency(json: &mut Text, word: &str) {
    let (name, _) = named(word);
    let name = option_of(word, "as=").unwrap_or(name);
    write!(json, "{{\"name\":{name:?},\"pkg\":");
    push_quoted_id(json, word);
    json.push_str(",\"dep_kinds\":[");
    push_kinds(json, word);
    json.push_str("]}");
}

/// The name of a feature of a manifest, and its references.
fn feature_of(word: &str) -> (&str, &str) {
    word.split_once('=').unwrap_or((word, ""))
}

/// Writes a feature of a manifest.
fn push_manifest_feature(json: &mut Text, word: &str) {
    let (name, references) = feature_of(word);
    write!(json, "{name:?}:[");
    push_texts(json, references);
    json.push_str("]");
}

/// What words are written as.
#[derive(Clone, Copy)]
enum Item {
    /// The declared dependencies of a package.
    Declaration,
    /// The dependencies of a node.
    Dependency,
    /// The features of a manifest.
    Feature,
    /// The names of features, of a manifest or of a node.
    FeatureName,
    /// The members of the workspace.
    Member,
}

/// Writes a word as this.
fn push_item(json: &mut Text, item: Item, word: &str) {
    match item {
        Item::Declaration => push_declaration(json, word),
        Item::Dependency => push_dependency(json, word),
        Item::Feature => push_manifest_feature(json, word),
        Item::FeatureName => write!(json, "{:?}", feature_of(word).0),
        Item::Member => push_quoted_id(json, word),
    }
}

/// Writes how a list begins, and each word as this.
fn push_items(json: &mut Text, begin: &str, item: Item, words: &str) {
    json.push_str(begin);
    for word in words.split_whitespace() {
        divide(json);
        push_item(json, item, word);
    }
}

/// The word of a package or a node, those of what it needs, and its features.
fn parts_of(item: &str) -> (&str, &str, &str) {
    let (words, features) = item.split_once(';').unwrap_or((item, ""));
    let words = words.trim_start_matches(' ');
    let (word, needs) = words.split_once(' ').unwrap_or((words, ""));
    (word, needs, features)
}

/// Writes the end of the features, and the targets of a package: its library, where its word has one.
fn push_targets(json: &mut Text, word: &str) {
    match option_of(word, "lib=") {
        Some(library) => write!(
            json,
            "}},\"targets\":[{{\"name\":{library:?},\"kind\":[\"lib\"],\"src_path\":\"lib.rs\"}}]"
        ),
        None => json.push_str("},\"targets\":[]"),
    }
}

/// The source of the package of a word.
fn source_of(word: &str) -> Option<&'static str> {
    option_of(word, "crates.io")?;
    Some(CRATES_IO)
}

/// Writes a package.
fn push_package(json: &mut Text, item: &str) {
    let (word, needs, features) = parts_of(item);
    let (name, version) = named(word);
    write!(
        json,
        "{{\"name\":{name:?},\"version\":\"{version}\",\"manifest_path\":\"/w/{name}/Cargo.toml\",\"id\":"
    );
    push_quoted_id(json, word);
    push_items(json, ",\"dependencies\":[", Item::Declaration, needs);
    push_items(json, "],\"features\":{", Item::Feature, features);
    push_targets(json, word);
    push_member(json, "source", source_of(word));
    json.push_str("}");
}

/// Writes a node. Its `dependencies` have a text that isn't an id, since nothing looks at them.
fn push_node(json: &mut Text, item: &str) {
    let (word, needs, features) = parts_of(item);
    json.push_str("{\"id\":");
    push_quoted_id(json, word);
    let begin = ",\"dependencies\":[\"x\"],\"features\":[";
    push_items(json, begin, Item::FeatureName, features);
    push_items(json, "],\"deps\":[", Item::Dependency, needs);
    json.push_str("]}");
}

/// What items between bars are.
#[derive(Clone, Copy)]
enum Listed {
    Packages,
    Nodes,
}

/// Writes the packages or the nodes between bars.
fn push_listed(json: &mut Text, listed: Listed, items: &str) {
    for item in items.split('|') {
        if !item.trim().is_empty() {
            divide(json);
            match listed {
                Listed::Packages => push_package(json, item),
                Listed::Nodes => push_node(json, item),
            }
        }
    }
}

/// Writes the resolved graph, or null instead, or neither.
fn push_graph(json: &mut Text, line: &str, packages: &str) {
    if section(line, "null graph").is_some() {
        json.push_str(",\"resolve\":null");
    } else if section(line, "no graph").is_none() {
        json.push_str(",\"resolve\":{\"nodes\":[");
        push_listed(
            json,
            Listed::Nodes,
            section(line, "nodes").unwrap_or(packages),
        );
        json.push_str("],\"root\":");
        match section(line, "root ") {
            Some(word) => push_quoted_id(json, word),
            None => json.push_str("null"),
        }
        json.push_str("}");
    }
}

/// Writes the document of a line. Its default members aren't ids, since nothing looks at them.
fn push_document(json: &mut Text, line: &str) {
    let (packages, _) = line.split_once(" / ").unwrap_or((line, ""));
    json.push_str(
        "{\"workspace_root\":\"/w\",\"target_directory\":\"/t\",\"workspace_default_members\":[\"x\"],\"packages\":[",
    );
    push_listed(json, Listed::Packages, packages);
    let members = section(line, "members").unwrap_or("a");
    push_items(json, "],\"workspace_members\":[", Item::Member, members);
    json.push_str("]");
    push_graph(json, line, packages);
    json.push_str("}");
}

/// The text of the document of a line.
pub fn document(alloc: Global, line: &str) -> Result<String, Fail> {
    let mut json = Text::new(alloc);
    push_document(&mut json, line);
    Ok(json.whole()?.as_str().replace(alloc, '~', " ")?)
}

/// The document of a line, read.
pub fn metadata(alloc: Global, line: &str) -> Result<Metadata, Fail> {
    let json = document(alloc, line)?;
    Ok(parse(alloc, json.as_str())?)
}

/// The id of a word, read.
pub fn kid_of(alloc: Global, word: &str) -> Result<Kid, Fail> {
    let mut id = Text::new(alloc);
    push_id(&mut id, word);
    let repr = id.whole()?;
    Ok(Kid::try_from(PackageId { repr })?)
}
