//! Derivations about a build in plain sentences.

use crate::build::Build;
use crate::places::{PlatformName, UnitName};
use krates::Kid;
use krates_build_facts::{BuildFact, BuildStep, PlatformNumber, UnitPlace};
use krates_build_tables::{Link, LinkPlace};
use krates_cm::DependencyKind;
use krates_report::crate_name::ShortId;
use krates_report::lines::Lines;
use krates_units::Side;
use std::alloc::{AllocError, Global};
use std::fmt;

impl<'a> Build<'a> {
    /// The crate with that number.
    fn crate_name(&self, number: usize) -> CrateName<'_> {
        CrateName(self.id(number))
    }

    /// The link at that place.
    fn link(&self, place: LinkPlace) -> Option<&Link<'a>> {
        self.tables().entry(place.krate)?.link(place.index)
    }

    /// The crate that has the link at that place, and the crate to which it leads.
    fn ends(&self, place: LinkPlace) -> (CrateName<'_>, CrateName<'_>) {
        let child = match self.link(place) {
            Some(link) => self.crate_name(link.child),
            None => CrateName(None),
        };
        (self.crate_name(place.krate), child)
    }

    /// What something is compiled for.
    fn platform_name(&self, platform: PlatformNumber) -> PlatformName<'_, 'a> {
        PlatformName {
            tables: self.tables(),
            platform,
        }
    }

    /// A unit.
    fn unit_name(&self, unit: UnitPlace) -> UnitName<'_, 'a> {
        UnitName {
            tables: self.tables(),
            unit,
        }
    }
}

/// The steps of a derivation, and what has the names of what they say by numbers.
#[derive(Clone, Copy)]
pub(crate) struct Steps<'s, 'd, 'a> {
    build: &'d Build<'a>,
    steps: &'s [BuildStep<'a>],
}

impl<'s, 'd, 'a> Steps<'s, 'd, 'a> {
    /// These steps, of this build.
    pub(crate) fn new(build: &'d Build<'a>, steps: &'s [BuildStep<'a>]) -> Steps<'s, 'd, 'a> {
        Steps { build, steps }
    }

    /// From which fact, the first that its rule names, a fact follows.
    fn before(&self, fact: &BuildFact<'a>) -> Option<BuildFact<'a>> {
        for step in self.steps {
            if step.fact == *fact {
                return step.premises.first().copied();
            }
        }
        None
    }

    /// Adds a sentence for each step that says more than the others.
    pub(crate) fn push(&self, lines: &mut Lines) {
        for step in self.steps {
            self.push_step(step, lines);
        }
    }

    /// Adds the sentence of a step, if it says more than the others.
    fn push_step(&self, step: &BuildStep<'a>, lines: &mut Lines) {
        match step.fact {
            BuildFact::Compiled(unit) => self.push_compiled(unit, step, lines),
            BuildFact::Needed(place, from, library) => self.push_needed(
                place, from, &library, lines,
            ),
            BuildFact::ScriptRun(krate, placement) => {
                let (krate, platform) = (
                    self.build.crate_name(krate),
                    self.build.platform_name(placement.platform),
                );
                write!(
                    lines,
                    "  the build script of {krate} is run, for {platform}"
                );
                lines.end();
            }
            BuildFact::ActivatedFeature(krate, side, name) => {
                let (krate, side) = (self.build.crate_name(krate), OnSide(side));
                let reason = self.reason(step.fact);
                write!(
                    lines,
                    "  feature `{name}` of {krate} is enabled{side}: {reason}"
                );
                lines.end();
            }
            _ => {}
        }
    }

    /// Adds that a unit is compiled, if that is asked for.
    fn push_compiled(&self, unit: UnitPlace, step: &BuildStep<'a>, lines: &mut Lines) {
        match step.premises.first() {
            Some(BuildFact::Needed(_, _, _) | BuildFact::Compiled(_)) => {}
            _ => {
                let krate = self.build.crate_name(unit.target.krate);
                write!(
                    lines,
                    "  {krate} is asked for: {}",
                    self.build.unit_name(unit)
                );
                lines.end();
            }
        }
    }

    /// Adds that a library is needed.
    fn push_needed(
        &self,
        place: LinkPlace,
        from: PlatformNumber,
        library: &UnitPlace,
        lines: &mut Lines,
    ) {
        let (parent, child) = self.build.ends(place);
        let Some(link) = self.build.link(place) else {
            return;
        };
        let by = match link.kind {
            DependencyKind::Build => "the build script of ",
            DependencyKind::Normal | DependencyKind::Development => "",
        };
        write!(lines, "  {by}{parent} needs {child}{}", Conditions(link));
        if library.placement.platform != from {
            write!(
                lines,
                ", for {}",
                self.build.platform_name(library.placement.platform)
            );
        }
        lines.end();
    }

    /// The text of why a feature is enabled.
    fn reason_text(&self, alloc: Global, fact: BuildFact<'a>) -> Result<String, AllocError> {
        format!(in alloc; "{}", self.reason(fact))
    }

    /// Why a feature is enabled.
    fn reason(&self, fact: BuildFact<'a>) -> Reason<'_, 's, 'd, 'a> {
        Reason { steps: self, fact }
    }
}

/// `NAME vVERSION` of the id of a crate.
#[derive(Clone, Copy)]
struct CrateName<'d>(Option<&'d Kid>);

impl fmt::Display for CrateName<'_> {
    fn fmt<W: fmt::Write>(&self, f: &mut fmt::Formatter<W>) -> fmt::Result {
        match self.0 {
            Some(id) => write!(f, "{}", ShortId(id)),
            None => Ok(()),
        }
    }
}

/// What follows a feature: on which side it is, if that isn't the targets'.
#[derive(Clone, Copy)]
struct OnSide(Side);

impl fmt::Display for OnSide {
    fn fmt<W: fmt::Write>(&self, f: &mut fmt::Formatter<W>) -> fmt::Result {
        match self.0 {
            Side::Targets => Ok(()),
            Side::Host => f.write_str(" for what the build itself runs"),
        }
    }
}

/// What follows a dependency: for what it is, where it is, and by which name it is turned on.
#[derive(Clone, Copy)]
struct Conditions<'b, 'a>(&'b Link<'a>);

impl fmt::Display for Conditions<'_, '_> {
    fn fmt<W: fmt::Write>(&self, f: &mut fmt::Formatter<W>) -> fmt::Result {
        let link = self.0;
        match link.kind {
            DependencyKind::Development => f.write_str(" for its tests")?,
            DependencyKind::Normal | DependencyKind::Build => {}
        }
        if let Some(cfg) = link.cfg {
            write!(f, ", on {cfg}")?;
        }
        if link.is_optional {
            write!(f, ", as its optional dependency `{}`", link.name)?;
        }
        Ok(())
    }
}

/// Why a feature is enabled.
#[derive(Clone, Copy)]
struct Reason<'r, 's, 'd, 'a> {
    steps: &'r Steps<'s, 'd, 'a>,
    fact: BuildFact<'a>,
}

impl<'a> Reason<'_, '_, '_, 'a> {
    /// Writes who lists a reference that counts at a crate.
    fn write_listing<W: fmt::Write>(
        &self,
        f: &mut fmt::Formatter<W>,
        reference: BuildFact<'a>,
        is_own: bool,
    ) -> fmt::Result {
        match (self.listing(&reference), is_own) {
            (Some((_, feature)), true) => write!(f, "its feature `{feature}` enables it"),
            (Some((krate, feature)), false) => {
                let krate = self.steps.build.crate_name(krate);
                write!(f, "feature `{feature}` of {krate} enables it")
            }
            (None, _) => f.write_str("it is asked for"),
        }
    }

    /// The crate and the feature that list a reference, unless it is asked for.
    fn listing(&self, reference: &BuildFact<'a>) -> Option<(usize, &'a str)> {
        match self.steps.before(reference)? {
            BuildFact::ActivatedFeature(krate, _, feature) => Some((krate, feature)),
            _ => None,
        }
    }
}

impl fmt::Display for Reason<'_, '_, '_, '_> {
    fn fmt<W: fmt::Write>(&self, f: &mut fmt::Formatter<W>) -> fmt::Result {
        let BuildFact::ActivatedFeature(krate, _, name) = self.fact else {
            return Ok(());
        };
        match self.steps.before(&self.fact) {
            Some(BuildFact::Used(place, _)) => {
                let (parent, _) = self.steps.build.ends(place);
                if name == "default" {
                    write!(f, "{parent} needs it with default features")
                } else {
                    write!(f, "{parent} asks for it")
                }
            }
            Some(reference) => {
                let is_own = match reference {
                    BuildFact::ActivatedReference(listing, _, _) => listing == krate,
                    _ => false,
                };
                self.write_listing(f, reference, is_own)
            }
            None => f.write_str("it is asked for"),
        }
    }
}

/// Why a feature is enabled, as one derivation says; nothing if it isn't. The only error is running out of memory.
pub(crate) fn last_reason<'a>(
    alloc: Global,
    build: &Build<'a>,
    fact: &BuildFact<'a>,
) -> Result<String, AllocError> {
    match build.units.derived().why(alloc, fact)? {
        Some(steps) => {
            let steps = Steps::new(build, &steps);
            steps.reason_text(alloc, *fact)
        }
        None => Ok(String::new(alloc)),
    }
}
