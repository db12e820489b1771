//! The tree of a cfg expression.
ghost use Rattle.std.specs.Prelude.{◌≡◌, ◌^◌, ◌<◌, IfOk, IfErr, map, string_bytes};
ghost use Rattle.krates_text.specs.CfgValue.{value, all_true, some_true, word_value, pair_value, described_value, count, count_among};
ghost use Rattle.krates_text.specs.TargetTable.{target_of, description_of, builtin};
ghost use Rattle.krates_text.specs.CfgGrammar as grammar;
ghost use Rattle.krates_text.specs.CfgView.{tree_of, trees_of};
ghost use Rattle.krates_text.specs.declared.cfg.CfgError.TheVariants.{Memory};

use crate::cfg::CfgError;
use crate::target::{Target, TargetInfo};
use crate::texts::has_text;
use std::alloc::Global;

/// A predicate, which may hold other predicates.
#[derive(Debug, Drop)]
pub(crate) enum Predicate {
    All(Vec<Predicate>),
    Any(Vec<Predicate>),
    Not(Box<Predicate>),
    Constant(bool),
    Word(String),
    Pair { key: String, string: String },
}

/// `all` of these predicates.
pub(crate) fn all_of(predicates: Vec<Predicate>) -> Predicate
    ensures { tree_of result ≡ grammar.all_of (trees_of predicates.items) }
{
    Predicate::All(predicates)
}

/// `any` of these predicates.
pub(crate) fn any_of(predicates: Vec<Predicate>) -> Predicate
    ensures { tree_of result ≡ grammar.any_of (trees_of predicates.items) }
{
    Predicate::Any(predicates)
}

/// `not` of this predicate.
pub(crate) fn not_of(alloc: Global, predicate: Predicate) -> Result<Predicate, CfgError>
    ensures ok { IfOk result (λ p. tree_of p ≡ grammar.not_of (tree_of predicate)) }
    ensures err { IfErr result (λ e. e ≡ Memory) }
{
    Ok(Predicate::Not(Box::new(alloc, predicate)?))
}

/// The value at a target with its features.
#[cycle(eval)]
pub(crate) fn eval(predicate: &Predicate, target: &Target, features: &[String]) -> bool
    ensures { result ≡ value (target_of target.now) (map string_bytes features.now) (tree_of predicate.now) }
{
    match predicate {
        Predicate::All(predicates) => all_hold(predicates.as_slice(), target, features),
        Predicate::Any(predicates) => any_holds(predicates.as_slice(), target, features),
        Predicate::Not(inner) => !eval(&**inner, target, features),
        Predicate::Constant(b) => *b,
        Predicate::Word(word) => word_holds(word.as_str(), target),
        Predicate::Pair { key, string } => pair_holds(
            key.as_str(),
            string.as_str(),
            target,
            features,
        ),
    }
}

#[cycle(eval)]
fn all_hold(predicates: &[Predicate], target: &Target, features: &[String]) -> bool
    ensures { result
        ≡ all_true (target_of target.now) (map string_bytes features.now) (trees_of predicates.now) }
{
    for predicate in predicates {
        if !eval(predicate, target, features) {
            return false;
        }
    }
    true
}

#[cycle(eval)]
fn any_holds(predicates: &[Predicate], target: &Target, features: &[String]) -> bool
    ensures { result
        ≡ some_true (target_of target.now) (map string_bytes features.now) (trees_of predicates.now) }
{
    for predicate in predicates {
        if eval(predicate, target, features) {
            return true;
        }
    }
    false
}

fn word_holds(word: &str, target: &Target) -> bool
    ensures { result ≡ word_value (target_of target.now) word.now }
{
    match target {
        Target::Builtin(info) => {
            (word == "unix" || word == "windows") && has_text(info.families.as_slice(), word)
        }
        Target::Unknown(_) => false,
    }
}

fn pair_holds(key: &str, string: &str, target: &Target, features: &[String]) -> bool
    ensures { result ≡ pair_value (target_of target.now) (map string_bytes features.now) key.now string.now }
{
    if key == "target_feature" {
        return has_text(features, string);
    }
    match target {
        Target::Builtin(info) => described(info, key, string),
        Target::Unknown(_) => false,
    }
}

fn described(info: &TargetInfo, key: &str, string: &str) -> bool
    ensures { result ≡ described_value (builtin (description_of info.now)) key.now string.now }
{
    match key {
        "target_family" => has_text(info.families.as_slice(), string),
        "target_has_atomic" => has_text(info.atomics.as_slice(), string),
        "target_os" => info.os.as_str() == string,
        "target_arch" => info.arch.as_str() == string,
        "target_env" => info.env.as_str() == string,
        "target_abi" => info.abi.as_str() == string,
        "target_vendor" => info.vendor.as_str() == string,
        "target_pointer_width" => info.pointer_width.as_str() == string,
        "target_endian" => info.endian.as_str() == string,
        "panic" => info.panic.as_str() == string,
        _ => false,
    }
}

/// How many words and pairs there are, if a `usize` can hold the number.
#[cycle(count)]
pub(crate) fn count(predicate: &Predicate) -> usize
    ensures { count (tree_of predicate.now) < 2 ^ 64 → result ≡ count (tree_of predicate.now) }
{
    match predicate {
        Predicate::All(predicates) => count_among(predicates.as_slice()),
        Predicate::Any(predicates) => count_among(predicates.as_slice()),
        Predicate::Not(inner) => count(&**inner),
        Predicate::Constant(_) => 0,
        Predicate::Word(_) => 1,
        Predicate::Pair { key: _, string: _ } => 1,
    }
}

#[cycle(count)]
fn count_among(predicates: &[Predicate]) -> usize
    ensures { count_among (trees_of predicates.now) < 2 ^ 64
        → result ≡ count_among (trees_of predicates.now) }
{
    let mut total = 0usize;
    for predicate in predicates {
        total = total.saturating_add(count(predicate));
    }
    total
}
