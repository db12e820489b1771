//! Package ids, read and compared.

ghost use Rattle.std.specs.Prelude.{◌≡◌, Some, string_bytes};
ghost use Rattle.std.proofs.Common.{rules};
ghost use Rattle.std.specs.Cmp.{partial_order_from_own_ties};
ghost use Rattle.std.specs.Cmp.Lexicographic.{slice_cmp};
ghost use Rattle.std.specs.Cmp.Rules.{comparing, hashing};
ghost use Rattle.std.specs.Ordering.{as_partial_cmp, nat_cmp};
ghost use Rattle.krates_cm.specs.Document.{id_view};
ghost use Rattle.krates_text.specs.Cuts.{Lacks};
ghost use Rattle.krates_ids.specs.Identity.{empty_identity, same_id, id_cmp, id_hash_input};
ghost use Rattle.krates_ids.specs.IdRefusals.{Converts};
ghost use Rattle.krates_ids.specs.Separators.{blank};
ghost use Rattle.krates_ids.specs.Spans.{AreSpans, identity_of};

use crate::beginning::beginning_of;
use crate::cuts::has;
use crate::escapes::{are_escapes, decoded_text};
use crate::id_error::IdError;
use crate::opaque::opaque_parts;
use crate::span::{Parts, Span, part};
use crate::stable::{escaped_query, parts_in, stable_pieces};
use krates_cm::PackageId;
use std::alloc::{AllocError, Global};
use std::cmp::Ordering;
use std::fmt;
use std::hash::{Hash, Hasher};
use std::marker::Model;

/// A package's unique id: the text that cargo gives it, and the name, version and source in it (Cargo Book, "Package ID
/// Specifications").
///
/// Two ids are equal where these three parts are, whatever else their texts contain, such as the commit of an opaque id. They are
/// ordered by name, then version, then source, each compared by its bytes.
#[derive(Debug, Drop)]
pub struct Kid {
    repr: String,
    parts: Parts,
    /// How the name begins, as a number: most ids can be ordered by it alone.
    beginning: u64,
    is_opaque: bool,
}

impl Model for Kid {
    ghost use Rattle.std.specs.Prelude.{string_bytes};
    ghost use Rattle.krates_ids.specs.Beginning.{IsBeginning};
    ghost use Rattle.krates_ids.specs.Identity.{Identity};
    ghost use Rattle.krates_ids.specs.Spans.{AreSpans, identity_of, part};

    ghost Value = { Identity };

    ghost view = { λ k. identity_of (string_bytes k.repr) k.parts k.is_opaque };

    ghost invariant = { λ k. AreSpans (string_bytes k.repr) k.parts
        × IsBeginning (part (string_bytes k.repr) k.parts.name) k.beginning };
}

impl TryFrom<PackageId> for Kid {
    type Error = IdError;

    ghost try_from_gives = { Converts };

    /// Reads the text of a package id.
    ///
    /// A text with a space must be of the opaque form, `NAME VERSION (SOURCE)`; any other must be of the stable form,
    /// `SOURCE#NAME@VERSION`, or `SOURCE#VERSION` where the name is the last piece of the source. The query of a git source
    /// is decoded (RFC 3986, section 2.1), which is the only step that takes memory, and only where it has an escape.
    ///
    /// A refusal returns the id unchanged. Time O(length).
    fn try_from(id: PackageId) -> Result<Kid, IdError> {
        if !has(id.repr.as_str(), ' ') {
            return read_stable(id);
        }
        match opaque_parts(id.repr.as_str()) {
            Some(parts) => Ok(kid_of(id.repr, parts, true)),
            None => Err(IdError::Opaque(id)),
        }
    }
}

/// Reads an id whose text has no space.
fn read_stable(id: PackageId) -> Result<Kid, IdError>
    requires { Lacks blank (id_view id) }
    ensures { Converts id result }
{
    let Some(pieces) = stable_pieces(id.repr.as_str()) else {
        return Err(IdError::Stable(id));
    };
    let Some((front, query)) = escaped_query(pieces.left) else {
        let parts = parts_in(id.repr.as_str(), pieces);
        return Ok(kid_of(id.repr, parts, false));
    };
    if !are_escapes(query) {
        return Err(IdError::Escape(id));
    }
    let Ok(repr) = decoded_text(*id.repr.allocator(), front, query, pieces.fragment) else {
        return Err(IdError::Memory(id));
    };
    let parts = parts_in(repr.as_str(), pieces);
    Ok(kid_of(repr, parts, false))
}

/// The id of a text whose parts are at these places.
fn kid_of(repr: String, parts: Parts, is_opaque: bool) -> Kid
    requires { AreSpans (string_bytes repr) parts }
    ensures { result ≡ identity_of (string_bytes repr) parts is_opaque }
{
    let beginning = beginning_of(part(repr.as_str(), parts.name).as_bytes());
    Kid {
        repr,
        parts,
        beginning,
        is_opaque,
    }
}

impl Kid {
    /// The empty id: an empty text with three empty parts. Time O(1).
    pub fn empty(alloc: Global) -> Kid
        ensures { result ≡ empty_identity }
    {
        let nowhere = Span { start: 0, end: 0 };
        Kid {
            repr: String::new(alloc),
            parts: Parts {
                name: nowhere,
                version: nowhere,
                source: nowhere,
            },
            beginning: 0,
            is_opaque: false,
        }
    }

    /// The text of the id, the query of a git source decoded. Time O(1).
    pub fn repr(&self) -> &str
        ensures { result.now ≡ self.now.text }
    {
        self.repr.as_str()
    }

    /// The name of the package. Time O(1).
    ///
    /// ```text
    /// let kid = Kid::try_from(pkg.id.clone()?)?;
    /// println!(rt; "{} {} of {}", kid.name(), kid.version(), kid.source())?;
    /// ```
    pub fn name(&self) -> &str
        ensures { result.now ≡ self.now.name }
    {
        part(self.repr(), self.parts.name)
    }

    /// The version of the package, as text. Time O(1).
    pub fn version(&self) -> &str
        ensures { result.now ≡ self.now.version }
    {
        part(self.repr(), self.parts.version)
    }

    /// The source of the package, the query of a git source decoded. Time O(1).
    pub fn source(&self) -> &str
        ensures { result.now ≡ self.now.source }
    {
        part(self.repr(), self.parts.source)
    }

    /// Whether the id was of the opaque form, that is, whether its text as it was written has a space. Time O(1).
    pub fn is_opaque(&self) -> bool
        ensures { result ≡ self.now.is_opaque }
    {
        self.is_opaque
    }
}

impl Clone for Kid {
    ghost is_clone = { λ a b. b ≡ a };

    /// A copy that is equal in its text and all its parts.
    fn clone(&self) -> Result<Kid, AllocError> {
        Ok(Kid {
            repr: self.repr.clone()?,
            parts: self.parts,
            beginning: self.beginning,
            is_opaque: self.is_opaque,
        })
    }
}

impl PartialEq for Kid {
    ghost eq = { same_id };

    ghost laws = { Prim.search (comparing, rules) depth 9 };

    fn eq(&self, other: &Kid) -> bool {
        self.name() == other.name()
            && self.version() == other.version()
            && self.source() == other.source()
    }
}

impl Eq for Kid {
    ghost laws = { Prim.search (comparing, rules) depth 9 };
}

impl Ord for Kid {
    ghost cmp = { id_cmp };

    ghost total = { Prim.search (comparing, rules) depth 9 };

    ghost matches_partial_cmp = { Prim.search (comparing, rules) depth 9 };

    ghost matches_eq = { Prim.search (comparing, rules) depth 9 };

    fn cmp(&self, other: &Kid) -> Ordering {
        match order_of_names(self, other) {
            Ordering::Equal => match self.version().cmp(&other.version()) {
                Ordering::Equal => self.source().cmp(&other.source()),
                order => order,
            },
            order => order,
        }
    }
}

/// How the names of two ids compare by their bytes: usually as their beginnings do.
fn order_of_names(one: &Kid, other: &Kid) -> Ordering
    ensures { result ≡ slice_cmp nat_cmp one.now.name other.now.name }
{
    match one.beginning.cmp(&other.beginning) {
        Ordering::Equal => one.name().cmp(&other.name()),
        order => order,
    }
}

impl PartialOrd for Kid {
    ghost partial_cmp = { as_partial_cmp id_cmp };

    ghost laws = { partial_order_from_own_ties
        (Prim.search (comparing, rules) depth 9) (Prim.search (comparing, rules) depth 9) };

    fn partial_cmp(&self, other: &Kid) -> Option<Ordering> {
        Some(self.cmp(other))
    }
}

impl Hash for Kid {
    ghost hash_input = { id_hash_input };

    ghost respects_eq = { Prim.search (hashing, rules) };

    fn hash<H: Hasher>(&self, state: &mut H) {
        self.name().hash(state);
        self.version().hash(state);
        self.source().hash(state);
    }
}

impl fmt::Display for Kid {
    ghost output = { λ k. Some k.text };

    fn fmt<W: fmt::Write>(&self, f: &mut fmt::Formatter<W>) -> fmt::Result {
        f.write_str(self.repr())
    }
}
