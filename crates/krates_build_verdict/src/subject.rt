//! What a certificate of a build is judged against, and how it is judged.

ghost use Rattle.std.specs.Prelude.{IfErr, IfOk, map};
ghost use Rattle.krates_cm.specs.Document.{texts_view};
ghost use Rattle.krates_build_certificate.specs.BuildCertificateViews.{claim_told, step_told, told_closed, told_steps};
ghost use Rattle.krates_build_verdict.specs.BuildVerdicts.{Holds};
ghost use Rattle.krates_build_verdict.specs.ClaimRefusals.{ClaimRefusal};
ghost use Rattle.krates_build_verdict.specs.JudgedBytes.{IsSubjectFor, SubjectRefusal};
ghost use Rattle.krates_build_verdict.specs.SaidClaims.{AreNamesFor, ClaimSays};
ghost use Rattle.krates_questions.specs.Lookup.{resolved_view};
ghost use Rattle.krates_units.specs.BuildSetting.{build_setting_view};

use crate::built_crates::built_crates;
use crate::claim::{facts_of, steps_of};
use crate::lost::expect_none_lost;
use crate::refusal::BuildRefusal;
use crate::verdict::BuildVerdict;
use krates_build_certificate::{BuildClaim, NamedStep};
use krates_build_checkers::{check_built, check_built_closed, laws};
use krates_build_naming::FactNames;
use krates_build_tables::Tables;
use krates_build_tables::tables_of::tables_of;
use krates_build_tables::unanswered::first_unanswered;
use krates_questions::Document;
use krates_units::BuildSetting;
use std::alloc::Global;

/// What a certificate of a build is judged against: a document, and the tables of it and of what a build is asked for.
#[derive(Drop)]
pub struct BuildSubject<'d, 'a> {
    /// The document.
    pub document: &'d Document<'a>,
    /// The tables of the document and the build.
    pub tables: Tables<'a>,
}

impl<'d, 'a> BuildSubject<'d, 'a> {
    /// What certificates are judged against of this document and this build. It is refused as `Unanswered` where a request of the build names
    /// nothing, so that cargo refuses the build; it may instead return `Memory`. Time: that of `first_unanswered` and of `tables_of`.
    pub fn new(
        alloc: Global,
        document: &'d Document<'a>,
        setting: &'a BuildSetting,
    ) -> Result<BuildSubject<'d, 'a>, BuildRefusal>
        ensures made { IfOk result (IsSubjectFor document.now (build_setting_view setting.now)) }
        ensures refused { IfErr result (SubjectRefusal (resolved_view document.now)
            (build_setting_view setting.now)) }
    {
        if let Some(request) = first_unanswered(alloc, document, setting)? {
            return Err(BuildRefusal::unanswered(alloc, request));
        }
        let tables = tables_of(alloc, document, setting)?;
        Ok(BuildSubject { document, tables })
    }

    /// What the words of facts are read against. Time O(1).
    pub fn names(&self) -> FactNames<'_, 'a>
        ensures { AreNamesFor self.now result }
    {
        FactNames {
            ids: self.document.crate_ids(),
            tables: &self.tables,
        }
    }

    /// Judges what a certificate claims: its steps are accepted, or its facts are closed. Then its last step says what follows, or its facts say
    /// which crates are built and no others.
    ///
    /// It is refused as `Unnamed` where words name no fact, as `Later` where a step uses one that isn't before it, as `Lost` where a fact of a
    /// list says that the document lacks what the build needs, and otherwise as `Check` where a checker says no. It may instead return `Memory`.
    ///
    /// Time: that of the checker, and for each fact that of `fact_named`.
    pub fn judge(
        &self,
        alloc: Global,
        claim: &'a BuildClaim,
    ) -> Result<BuildVerdict<'a>, BuildRefusal>
        ensures holds { IfOk result (Holds self.now.tables) }
        ensures says { IfOk result (ClaimSays self.now (claim_told claim.now)) }
        ensures refused { IfErr result (ClaimRefusal self.now (claim_told claim.now)) }
    {
        match claim {
            BuildClaim::Steps(steps) => self.judge_steps(alloc, steps),
            BuildClaim::Closed(facts) => self.judge_closed(alloc, facts),
        }
    }

    /// Judges steps.
    fn judge_steps(
        &self,
        alloc: Global,
        named: &'a [NamedStep],
    ) -> Result<BuildVerdict<'a>, BuildRefusal>
        ensures holds { IfOk result (Holds self.now.tables) }
        ensures says { IfOk result (ClaimSays self.now (told_steps (map step_told named.now))) }
        ensures refused { IfErr result (ClaimRefusal self.now (told_steps (map step_told named.now))) }
    {
        laws::accepted_lists();
        let steps = steps_of(alloc, &self.names(), named)?;
        check_built(alloc, &self.tables, &steps)?;
        match steps.last() {
            Some(last) => Ok(BuildVerdict::Follows {
                fact: last.fact,
                steps: steps.len(),
            }),
            None => unreachable!(),
        }
    }

    /// Judges a list of facts.
    fn judge_closed(
        &self,
        alloc: Global,
        named: &'a [Vec<String>],
    ) -> Result<BuildVerdict<'a>, BuildRefusal>
        ensures holds { IfOk result (Holds self.now.tables) }
        ensures says { IfOk result (ClaimSays self.now (told_closed (map texts_view named.now))) }
        ensures refused { IfErr result (ClaimRefusal self.now
            (told_closed (map texts_view named.now))) }
    {
        laws::closed_lists();
        let facts = facts_of(alloc, &self.names(), named)?;
        expect_none_lost(&facts)?;
        check_built_closed(alloc, &self.tables, &facts)?;
        let krates = built_crates(alloc, &facts)?;
        Ok(BuildVerdict::Nothing { krates })
    }
}
