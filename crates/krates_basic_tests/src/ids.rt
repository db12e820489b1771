//! Ids as cargo writes them, read and compared.

ghost use Rattle.std.specs.Prelude.{◌≡◌};
ghost use Rattle.std.specs.BTreeMap.{get};
ghost use Rattle.krates_ids.specs.Identity.{id_cmp};

use crate::packages::same_fields;
use krates_cm::PackageId;
use krates_ids::{IdError, Kid};
use krates_samples::table::{Row, Tell, compare, hold, hold_lines};
use krates_text::text::Text;
use std::alloc::{AllocError, Global};
use std::collections::BTreeMap;
use std::hash::{DefaultHasher, Hash, Hasher};
use std::test::Fail;

/// Ids of the stable form and others, and the name, version and source of each.
static READ: &str = "
registry+https://github.com/rust-lang/crates.io-index#ab_glyph@0.2.22 => stable, as written: ab_glyph | 0.2.22 | registry+https://github.com/rust-lang/crates.io-index
path+file:///w/a#0.1.0 => stable, as written: a | 0.1.0 | path+file:///w/a
path+file:///w/parts/alloc#w-alloc@0.1.0 => stable, as written: w-alloc | 0.1.0 | path+file:///w/parts/alloc
path+file:///w/a?b#0.1.0 => stable, as written: a?b | 0.1.0 | path+file:///w/a?b
path+file:///w/a#b#c@1.0.0 => stable, as written: c | 1.0.0 | path+file:///w/a#b
x#n@1@2 => stable, as written: n | 1@2 | x
path+file:///w/%2f#a@1.0.0 => stable, as written: a | 1.0.0 | path+file:///w/%2f
// ids of git sources; only the query is decoded
git+https://github.com/a/b?branch=c%2Fd#0.1.0 => stable, decoded: b | 0.1.0 | git+https://github.com/a/b?branch=c/d
git+https://x.org/y?branch=c%2fd#n@1.0.0 => stable, decoded: n | 1.0.0 | git+https://x.org/y?branch=c/d
git+https://x.org/y#0.38.0+1.3 => stable, as written: y | 0.38.0+1.3 | git+https://x.org/y
git+https://x.org/y?rev=1%20%252f#0.1.0 => stable, decoded: y | 0.1.0 | git+https://x.org/y?rev=1 %2f
git+https://x.org/%41#%2@% => stable, as written: %2 | % | git+https://x.org/%41
git+x?a%23b#n@1.0.0 => stable, decoded: n | 1.0.0 | git+x?a#b
// ids of git sources as cargo wrote them
git+file:///w/gitrepo/many?branch=feat%2Fsome%2Bthing%402#0.1.0 => stable, decoded: many | 0.1.0 | git+file:///w/gitrepo/many?branch=feat/some+thing@2
git+file:///w/gitrepo/many?rev=7070fac3db96a2bfbedbb3ea5f17c6ae76c0fca2#0.1.0 => stable, as written: many | 0.1.0 | git+file:///w/gitrepo/many?rev=7070fac3db96a2bfbedbb3ea5f17c6ae76c0fca2
git+file:///w/gitrepo/many?tag=v0.1.0#0.1.0 => stable, as written: many | 0.1.0 | git+file:///w/gitrepo/many?tag=v0.1.0
git+file:///w/gitrepo/many?tag=v0.1.0#sub@0.1.0 => stable, as written: sub | 0.1.0 | git+file:///w/gitrepo/many?tag=v0.1.0
git+file:///w/gitrepo/many#sub@0.1.0 => stable, as written: sub | 0.1.0 | git+file:///w/gitrepo/many
// ids of packages that exist: each way in which cargo names a source, in both forms
git+https://github.com/EmbarkStudios/egui-stylist?rev=3900e8aedc5801e42c1bb747cfd025615bf3b832#0.2.0 => stable, as written: egui-stylist | 0.2.0 | git+https://github.com/EmbarkStudios/egui-stylist?rev=3900e8aedc5801e42c1bb747cfd025615bf3b832
path+file:///home/jake/code/ark/components/allocator#ark-allocator@0.1.0 => stable, as written: ark-allocator | 0.1.0 | path+file:///home/jake/code/ark/components/allocator
git+https://github.com/EmbarkStudios/ash?branch=nv-low-latency2#0.38.0+1.3.269 => stable, as written: ash | 0.38.0+1.3.269 | git+https://github.com/EmbarkStudios/ash?branch=nv-low-latency2
git+https://github.com/EmbarkStudios/fsr-rs?branch=nv-low-latency2#fsr@0.1.7 => stable, as written: fsr | 0.1.7 | git+https://github.com/EmbarkStudios/fsr-rs?branch=nv-low-latency2
git+https://github.com/ComunidadAylas/glsl-lang#0.5.2 => stable, as written: glsl-lang | 0.5.2 | git+https://github.com/ComunidadAylas/glsl-lang
git+https://github.com/vtavernier/glsl-lang?tag=v0.5.2#0.5.2 => stable, as written: glsl-lang | 0.5.2 | git+https://github.com/vtavernier/glsl-lang?tag=v0.5.2
fuser 0.4.1 (git+https://github.com/cberner/fuser?rev=b2e7622#b2e7622942e52a28ffa85cdaf48e28e982bb6923) => opaque, as written: fuser | 0.4.1 | git+https://github.com/cberner/fuser?rev=b2e7622
a 0.1.0 (path+file:///home/jake/code/krates/tests/ws/a) => opaque, as written: a | 0.1.0 | path+file:///home/jake/code/krates/tests/ws/a
bindgen 0.59.2 (registry+https://github.com/rust-lang/crates.io-index) => opaque, as written: bindgen | 0.59.2 | registry+https://github.com/rust-lang/crates.io-index
// ids of the opaque form, whose texts are kept
fuser 0.4.1 (git+https://github.com/cberner/fuser?branch=master#b2e7622942e52a28ffa85cdaf48e28e982bb6923) => opaque, as written: fuser | 0.4.1 | git+https://github.com/cberner/fuser?branch=master
ahash 0.7.6 (registry+https://github.com/rust-lang/crates.io-index) => opaque, as written: ahash | 0.7.6 | registry+https://github.com/rust-lang/crates.io-index
cli-top 0.1.0 (path+file:///w/old/ws-cli) => opaque, as written: cli-top | 0.1.0 | path+file:///w/old/ws-cli
a 0.1.0 (git+https://x.org/a?rev=%2f#b#c) => opaque, as written: a | 0.1.0 | git+https://x.org/a?rev=%2f#b
a 0.1.0 () => opaque, as written: a | 0.1.0 | $
// texts that aren't ids, and why
a 0.1.0 ( => bad opaque id: a 0.1.0 (
a 0.1.0 => bad opaque id: a 0.1.0
a 0.1.0 (b#c => bad opaque id: a 0.1.0 (b#c
a#b 0.1.0 (c) => bad opaque id: a#b 0.1.0 (c)
a/b => bad stable id: a/b
x#1/2 => bad stable id: x#1/2
x/y#1?2 => bad stable id: x/y#1?2
x#1 => bad stable id: x#1
 => bad stable id: $
git+https://x.org/y?branch=c%41#n@1.0.0 => bad escape: git+https://x.org/y?branch=c%41#n@1.0.0
git+https://x.org/y?branch=c%41d#n@1.0.0 => bad escape: git+https://x.org/y?branch=c%41d#n@1.0.0
git+https://x.org/y?branch=c%2#n@1.0.0 => bad escape: git+https://x.org/y?branch=c%2#n@1.0.0
git+https://x.org/y?branch=c%7F#0.1.0 => bad escape: git+https://x.org/y?branch=c%7F#0.1.0
";

/// How two ids compare that are equal.
const EQUAL: &str = "Equal, Some(Equal), equal with equal hashes";

/// How two ids compare of which the first is less.
const LESS: &str = "Less, Some(Less), less";

/// Two ids, and how they compare.
static COMPARED: &[Row] = &[
    // with equal parts: of one package at two commits, which don't count, and in the stable form
    (
        "fuser 0.4.1 (git+https://github.com/cberner/fuser?branch=master#b2e7622942e52a28ffa85cdaf48e28e982bb6923) | fuser 0.4.1 (git+https://github.com/cberner/fuser?branch=master#0d3c4d1f9a3b5e6c7d8e9f0a1b2c3d4e5f607182)",
        EQUAL,
    ),
    (
        "fuser 0.4.1 (git+https://x.org/fuser?branch=master#b2e76229) | fuser 0.4.1 (git+https://x.org/fuser?branch=master#0a1b2c3d)",
        EQUAL,
    ),
    (
        "fuser 0.4.1 (git+https://x.org/fuser?branch=master#0a1b2c3d) | git+https://x.org/fuser?branch=master#0.4.1",
        EQUAL,
    ),
    (
        "fuser 0.4.1 (git+https://x.org/fuser?branch=master#b2e76229) | git+https://x.org/fuser?branch=master#0.4.1",
        EQUAL,
    ),
    // in their order: by name, then by version as text, then by source
    ("path+file:///w/d#d@0.10.0 | path+file:///w/d#d@0.9.0", LESS),
    ("path+file:///w/e#a@1.0.0 | path+file:///w/d#d@0.10.0", LESS),
    (
        "path+file:///w/d#d@0.10.0 | path+file:///w/e#d@0.10.0",
        LESS,
    ),
    ("path+file:///w/e#d@0.10.0 | path+file:///w/d#d@0.9.0", LESS),
    // names that are alike for many bytes, or of which one begins with the other
    (
        "path+file:///w/e#serde_json-a@2.0.0 | path+file:///w/d#serde_json-b@1.0.0",
        LESS,
    ),
    (
        "path+file:///w/e#serde_js@2.0.0 | path+file:///w/d#serde_json@1.0.0",
        LESS,
    ),
    (
        "path+file:///w/e#serde@2.0.0 | path+file:///w/d#serde_json@1.0.0",
        LESS,
    ),
    ("path+file:///w/e#Z@2.0.0 | path+file:///w/d#a@1.0.0", LESS),
    (
        "path+file:///w/e#serde_json-b@1.0.0 | path+file:///w/d#serde_json-a@2.0.0",
        "Greater, Some(Greater), neither",
    ),
];

/// Ids that are looked up in a map that has the first under 7.
static KEYS: &str = "
a 0.1.0 (git+https://x.org/a#1) => Some(7)
git+https://x.org/a#0.1.0 => Some(7)
git+https://x.org/a#0.2.0 => None
";

/// The id of this text, not read.
pub(crate) fn package_id(alloc: Global, text: &str) -> Result<PackageId, AllocError> {
    Ok(PackageId {
        repr: String::from_str(alloc, text)?,
    })
}

/// The id that a text is.
pub(crate) fn kid(alloc: Global, text: &str) -> Result<Kid, Fail> {
    Ok(Kid::try_from(package_id(alloc, text)?)?)
}

/// Adds the form of an id, whether its text is kept, and its name, version and source.
fn push_described(told: &mut Text, kid: &Kid, text: &str) {
    let form = if kid.is_opaque() { "opaque" } else { "stable" };
    let repr = if kid.repr() == text {
        "as written"
    } else {
        "decoded"
    };
    let (name, version, source) = (kid.name(), kid.version(), kid.source());
    write!(told, "{form}, {repr}: {name} | {version} | {source}")
}

/// The description of the id that a text is, or why it isn't one.
struct Read;

impl Tell for Read {
    fn tell(told: &mut Text, text: &str) -> Result<(), Fail> {
        match Kid::try_from(package_id(told.allocator(), text)?) {
            Ok(kid) => push_described(told, &kid, text),
            Err(error) => write!(told, "{error}"),
        }
        Ok(())
    }
}

#[test]
fn reads_each_form_and_refuses_other_texts(rt: HostRuntime) -> Result<(), Fail> {
    hold_lines::<Read>(rt.alloc(), READ)
}

#[test]
fn prints_that_memory_is_out(rt: HostRuntime) -> Result<(), Fail> {
    let error = IdError::Memory(package_id(rt.alloc(), "x")?);
    compare("x", error.to_string(rt.alloc())?.as_str(), "out of memory")
}

fn hash_of(kid: &Kid) -> u64 {
    let mut hasher = DefaultHasher::new();
    kid.hash(&mut hasher);
    hasher.finish()
}

/// How two ids compare, and whether they hash alike where they are equal.
fn relation(left: &Kid, right: &Kid) -> &'static str {
    if left == right && hash_of(left) == hash_of(right) {
        "equal with equal hashes"
    } else if left < right {
        "less"
    } else {
        "neither"
    }
}

/// How two ids compare, which a bar separates, and whether they hash alike where they are equal.
struct Compared;

impl Tell for Compared {
    fn tell(told: &mut Text, line: &str) -> Result<(), Fail> {
        let (left, right) = line.split_once(" | ").unwrap_or((line, ""));
        let left = kid(told.allocator(), left)?;
        let right = kid(told.allocator(), right)?;
        let (order, partial) = (left.cmp(&right), left.partial_cmp(&right));
        write!(told, "{order:?}, {partial:?}, {}", relation(&left, &right));
        Ok(())
    }
}

fn number_of(numbers: &BTreeMap<Kid, u32>, kid: &Kid) -> Option<u32>
    ensures { result ≡ get id_cmp numbers.now kid.now }
{
    numbers.get(kid).copied()
}

/// What a map has for an id.
struct Key;

impl Tell for Key {
    fn tell(told: &mut Text, text: &str) -> Result<(), Fail> {
        let mut numbers = BTreeMap::new(told.allocator());
        numbers.insert(kid(told.allocator(), "a 0.1.0 (git+https://x.org/a#1)")?, 7)?;
        let number = number_of(&numbers, &kid(told.allocator(), text)?);
        write!(told, "{number:?}");
        Ok(())
    }
}

/// Ids, and what each prints; and the copy of each: how it is described as an id of that text, and how it compares with the id. The empty text is
/// for the empty id.
static COPIED: &str = "
git+https://x.org/y?branch=c%2fd#n@1.0.0 => git+https://x.org/y?branch=c/d#n@1.0.0; stable, decoded: n | 1.0.0 | git+https://x.org/y?branch=c/d; Equal, equal with equal hashes
path+file:///w/parts/alloc#w-alloc@0.1.0 => path+file:///w/parts/alloc#w-alloc@0.1.0; stable, as written: w-alloc | 0.1.0 | path+file:///w/parts/alloc; Equal, equal with equal hashes
fuser 0.4.1 (git+https://github.com/cberner/fuser?branch=master#b2e7622942e52a28ffa85cdaf48e28e982bb6923) => fuser 0.4.1 (git+https://github.com/cberner/fuser?branch=master#b2e7622942e52a28ffa85cdaf48e28e982bb6923); opaque, as written: fuser | 0.4.1 | git+https://github.com/cberner/fuser?branch=master; Equal, equal with equal hashes
 => ; stable, as written:  |  | ; Equal, equal with equal hashes
";

/// The id that a text is, or the empty one.
fn kid_or_empty(alloc: Global, text: &str) -> Result<Kid, Fail> {
    if text.is_empty() {
        return Ok(Kid::empty(alloc));
    }
    kid(alloc, text)
}

/// What an id prints, the description of a copy of it, and how the copy compares with it. Fails where the copy shows other fields.
struct Copied;

impl Tell for Copied {
    fn tell(told: &mut Text, text: &str) -> Result<(), Fail> {
        let kid = kid_or_empty(told.allocator(), text)?;
        let copy = kid.clone()?;
        write!(told, "{kid}; ");
        push_described(told, &copy, text);
        write!(told, "; {:?}, {}", copy.cmp(&kid), relation(&copy, &kid));
        same_fields(told.allocator(), text, &copy, &kid)
    }
}

#[test]
fn compares_by_parts_is_a_key_prints_and_copies(rt: HostRuntime) -> Result<(), Fail> {
    hold::<Compared>(rt.alloc(), COMPARED)?;
    hold_lines::<Key>(rt.alloc(), KEYS)?;
    hold_lines::<Copied>(rt.alloc(), COPIED)
}
