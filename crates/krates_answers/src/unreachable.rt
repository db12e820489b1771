//! Shows, without trusting the search, that a crate can't be kept.

ghost use Rattle.std.specs.Prelude.{◌≡◌, ◌↔◌, Contains, IfErr, IfOk, IsTrue};
ghost use Rattle.krates_cm.specs.Document.{metadata_view};
ghost use Rattle.krates_rules.specs.Facts.{Crate};
ghost use Rattle.krates_rules.specs.Resolved.{id_of};
ghost use Rattle.krates_rules.specs.StepViews.{fact_view, facts_view};
ghost use Rattle.krates_answers.specs.Unreachable.{IsUntold, TellsUnreachable};

use krates::derive::{CheckError, Fact, check_closed};
use krates::{Builder, Kid, Metadata};
use krates_ids::laws::comparison;
use krates_rules::laws::closed_lists;

/// Whether the fact says that the crate is kept.
fn is_crate(fact: &Fact, kid: &Kid) -> bool
    ensures { IsTrue result ↔ (fact_view fact.now ≡ Crate (id_of kid.now)) }
{
    comparison();
    match fact {
        Fact::Crate(krate) => krate == kid,
        Fact::Feature { .. } | Fact::Kept { .. } | Fact::Toggled { .. } => false,
    }
}

/// Whether the facts say that the crate is kept.
fn has_crate(facts: &[Fact], kid: &Kid) -> bool
    ensures { IsTrue result ↔ Contains (facts_view facts.now) (Crate (id_of kid.now)) }
{
    for fact in facts {
        if is_crate(fact, kid) {
            return true;
        }
    }
    false
}

/// Whether no derivation leads to a crate, under what the builder has set: yes only where the facts, such as `Krates::facts`, are
/// closed under the rules, which `check_closed` says, and the crate isn't among them; no exactly where it is among them. The
/// document is used unchanged, even if the builder has an index.
///
/// Where the crate isn't among them, it is refused as `check_closed` refuses the facts: as `Document`, or else as `Open`. It
/// may instead return `Memory`. Time: that of `check_closed`.
pub fn is_unreachable(
    metadata: &Metadata,
    builder: &Builder,
    facts: &[Fact],
    kid: &Kid,
) -> Result<bool, CheckError>
    ensures told { IfOk result (TellsUnreachable (metadata_view metadata.now) builder.now.setting
        (facts_view facts.now) (id_of kid.now)) }
    ensures refused { IfErr result (IsUntold (metadata_view metadata.now) builder.now.setting
        (facts_view facts.now) (id_of kid.now)) }
{
    closed_lists();
    if has_crate(facts, kid) {
        return Ok(false);
    }
    check_closed(metadata, builder, None, facts)?;
    Ok(true)
}
