//! Whether a list has a fact.

ghost use Rattle.std.specs.Prelude.{◌≡◌, ◌↔◌, Contains, IfOk, IsTrue, List};
ghost use Rattle.krates_derive.specs.FactRef.{fact_of_ref, HasBetween, HasKeys, HasPairs};
ghost use Rattle.krates_rules.specs.Facts.{Crate, Feature};
ghost use Rattle.krates_rules.specs.Resolved.{id_of};
ghost use Rattle.krates_rules.specs.StepViews.{facts_view};

use crate::fact_ref::{EdgeRef, FactRef, FeatureRef};
use krates_ids::{Kid, laws};
use krates_rules::Fact;
use std::alloc::{AllocError, Global};
use std::collections::BTreeSet;
use std::marker::Model;

/// Two crates: one, and one that it depends on.
#[derive(Clone, Copy, PartialEq, Eq, PartialOrd, Ord)]
struct Pair<'a> {
    /// The crate that has the dependency.
    parent: &'a Kid,
    /// The crate that it depends on.
    child: &'a Kid,
}

/// A list of facts in which single facts are looked up, by binary search.
#[derive(Drop)]
pub struct FactSet<'a> {
    /// The list.
    facts: &'a [Fact],
    /// Its facts.
    keys: BTreeSet<FactRef<'a>>,
    /// The crates of its edges.
    pairs: BTreeSet<Pair<'a>>,
}

impl<'a> Model for FactSet<'a> {
    ghost use Rattle.std.specs.Prelude.{List};
    ghost use Rattle.krates_derive.specs.FactRef.{HasKeys, HasPairs};
    ghost use Rattle.krates_rules.specs.StepViews.{facts_view};
    ghost use Rattle.krates_rules.specs.declared.derivation.Fact.{Fact};

    ghost Value = { List Fact };

    ghost view = { λ set. set.facts.now };

    ghost invariant = { λ set. let fs = facts_view set.facts.now in HasKeys set.keys fs × HasPairs set.pairs fs };
}

impl<'a> FactSet<'a> {
    /// The list, ready for look-ups.
    pub fn of(alloc: Global, facts: &'a [Fact]) -> Result<FactSet<'a>, AllocError>
        ensures { IfOk result (λ set. set ≡ facts.now) }
    {
        let keys = keys_of(alloc, facts)?;
        let pairs = pairs_of(alloc, facts)?;
        Ok(FactSet { facts, keys, pairs })
    }

    /// Whether the list has the fact.
    pub(crate) fn has(&self, wanted: &FactRef<'a>) -> bool
        ensures { IsTrue result ↔ Contains (facts_view self.now) (fact_of_ref wanted.now) }
    {
        self.keys.contains(wanted)
    }

    /// Whether the list says that the crate is kept.
    pub fn has_crate(&self, krate: &'a Kid) -> bool
        ensures { IsTrue result ↔ Contains (facts_view self.now) (Crate (id_of krate.now)) }
    {
        self.has(&FactRef::Crate(krate))
    }

    /// Whether the list says that the feature is enabled.
    pub fn has_feature(&self, krate: &'a Kid, name: &'a str) -> bool
        ensures { IsTrue result ↔ Contains (facts_view self.now) (Feature (id_of krate.now) name.now) }
    {
        self.has(&FactRef::Feature(FeatureRef { krate, name }))
    }

    /// Whether the list has an edge between two crates.
    pub(crate) fn has_between(&self, parent: &'a Kid, child: &'a Kid) -> bool
        ensures { IsTrue result ↔ HasBetween (facts_view self.now) (id_of parent.now) (id_of child.now) }
    {
        self.pairs.contains(&Pair { parent, child })
    }
}

/// The facts of a list.
fn keys_of<'a>(alloc: Global, facts: &'a [Fact]) -> Result<BTreeSet<FactRef<'a>>, AllocError>
    ensures { IfOk result (λ keys. HasKeys keys (facts_view facts.now)) }
{
    laws::comparison();
    let mut keys = BTreeSet::new(alloc);
    for fact in facts {
        keys.insert(FactRef::of(fact))?;
    }
    Ok(keys)
}

/// The crates of the edges of a list.
fn pairs_of<'a>(alloc: Global, facts: &'a [Fact]) -> Result<BTreeSet<Pair<'a>>, AllocError>
    ensures { IfOk result (λ pairs. HasPairs pairs (facts_view facts.now)) }
{
    laws::comparison();
    let mut pairs = BTreeSet::new(alloc);
    for fact in facts {
        if let FactRef::Kept(EdgeRef { parent, child, .. }) = FactRef::of(fact) {
            pairs.insert(Pair { parent, child })?;
        }
    }
    Ok(pairs)
}
