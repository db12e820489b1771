//! Certificates of what cargo builds.

use crate::build::Build;
use crate::error::BuildReportError;
use crate::why::built_fact;
use krates_build_certificate::{BuildCertificate, BuildClaim, MachineText, NamedStep};
use krates_build_facts::{BuildFact, BuildStep};
use krates_build_naming::{FactNames, words_of};
use krates_units::{BuildSetting, Machine};
use krates_words::build_setting_words;
use std::alloc::{AllocError, Global};
use std::collections::BTreeMap;

/// What a certificate says besides what it claims: under which setting it is made, and what `rustc --print cfg` prints of the machine that
/// builds and of each that the build is for, in this order.
#[derive(Clone, Copy)]
pub(crate) struct Certified<'a> {
    /// What the build is asked for.
    pub(crate) setting: &'a BuildSetting,
    /// What is printed of its machines.
    pub(crate) cfgs: &'a [String],
}

impl Certified<'_> {
    /// The certificate with this claim.
    fn claiming(
        &self,
        alloc: Global,
        claim: BuildClaim,
    ) -> Result<BuildCertificate, BuildReportError> {
        let setting = build_setting_words(alloc, self.setting)?;
        let machines = self.machines(alloc)?;
        Ok(BuildCertificate {
            setting,
            machines,
            claim,
        })
    }

    /// The machines, each by its texts.
    fn machines(&self, alloc: Global) -> Result<Vec<MachineText>, AllocError> {
        let mut machines = Vec::new(alloc);
        let mut cfgs = self.cfgs.iter();
        machines.push(machine_text(alloc, &self.setting.host, cfgs.next())?)?;
        for target in &self.setting.targets {
            machines.push(machine_text(alloc, target, cfgs.next())?)?;
        }
        Ok(machines)
    }
}

/// The texts of a machine.
fn machine_text(
    alloc: Global,
    machine: &Machine,
    cfg: Option<&String>,
) -> Result<MachineText, AllocError> {
    let cfg = match cfg {
        Some(cfg) => cfg.clone()?,
        None => String::new(alloc),
    };
    Ok(MachineText {
        triple: String::from_str(alloc, machine.triple())?,
        cfg,
    })
}

/// A certificate of why the crate is built that the word means; or, without a word and where cargo doesn't build what it means, of all that
/// follows.
pub(crate) fn certificate_of(
    alloc: Global,
    build: &Build<'_>,
    certified: Certified<'_>,
    spec: Option<&String>,
) -> Result<BuildCertificate, BuildReportError> {
    let fact = match spec {
        Some(spec) => fact_about(alloc, build, spec.as_str())?,
        None => None,
    };
    let claim = match fact {
        Some(fact) => BuildClaim::Steps(steps_to(alloc, build, &fact)?),
        None => BuildClaim::Closed(all_words(alloc, build)?),
    };
    certified.claiming(alloc, claim)
}

/// What says that the package is built that a word means, if it is.
fn fact_about<'a>(
    alloc: Global,
    build: &Build<'a>,
    spec: &str,
) -> Result<Option<BuildFact<'a>>, BuildReportError> {
    let package = build.any(alloc, spec)?;
    match build.number_of_package(package) {
        Some(number) => Ok(built_fact(build, number)),
        None => Ok(None),
    }
}

/// The steps that lead to a fact.
fn steps_to<'a>(
    alloc: Global,
    build: &Build<'a>,
    fact: &BuildFact<'a>,
) -> Result<Vec<NamedStep>, BuildReportError> {
    let Some(steps) = build.units.derived().why(alloc, fact)? else {
        return Err(BuildReportError::NoAnswer);
    };
    let names = names_in(build);
    let mut numbers = BTreeMap::new(alloc);
    let mut named = Vec::new(alloc);
    for step in &steps {
        named.push(named_step(alloc, &names, step, &numbers)?)?;
        let number = numbers.len();
        numbers.insert(step.fact, number)?;
    }
    Ok(named)
}

/// A step by words and by the numbers of those that it uses.
fn named_step<'a>(
    alloc: Global,
    names: &FactNames<'_, '_>,
    step: &BuildStep<'a>,
    numbers: &BTreeMap<BuildFact<'a>, usize>,
) -> Result<NamedStep, BuildReportError> {
    let fact = named_fact(alloc, names, &step.fact)?;
    let mut uses = Vec::new(alloc);
    for premise in &step.premises {
        if let Some(number) = numbers.get(premise) {
            uses.push(*number)?;
        }
    }
    Ok(NamedStep { fact, uses })
}

/// The words of all that follows, as the checker of closed lists wants it.
fn all_words(alloc: Global, build: &Build<'_>) -> Result<Vec<Vec<String>>, BuildReportError> {
    let names = names_in(build);
    let facts = build.units.derived().facts(alloc)?;
    let mut named = Vec::new(alloc);
    for fact in &facts {
        named.push(named_fact(alloc, &names, fact)?)?;
    }
    Ok(named)
}

/// The words of a fact.
fn named_fact(
    alloc: Global,
    names: &FactNames<'_, '_>,
    fact: &BuildFact<'_>,
) -> Result<Vec<String>, BuildReportError> {
    match words_of(alloc, names, fact)? {
        Some(words) => Ok(words),
        None => Err(BuildReportError::Unnamed(format!(in alloc; "{fact:?}")?)),
    }
}

/// What the words of facts are read against.
fn names_in<'s, 'a>(build: &'s Build<'a>) -> FactNames<'s, 'a> {
    FactNames {
        ids: build.document.crate_ids(),
        tables: build.tables(),
    }
}
