//! Verdicts about a build, as they are printed.

use crate::subject::BuildSubject;
use crate::verdict::BuildVerdict;
use krates_build_facts::{BuildFact, PlatformNumber, UnitPlace};
use krates_build_naming::{FactNames, words_of};
use krates_shown::Shown;
use std::alloc::{AllocError, Global};
use std::fmt;

impl<'a> BuildSubject<'_, 'a> {
    /// The line of a verdict, with its end. A crate is named by the id text of the document's package and a machine by the triple that the
    /// build has, never by texts of the certificate, and each is printed as `Shown`, so that none can end the line. The only error is running
    /// out of memory. Time O(length), and that of `words_of`.
    ///
    /// ```text
    /// holds: cargo builds path+file:///w/b#0.1.0 for x86_64-unknown-linux-gnu, 9 steps
    /// holds: cargo builds nothing but these 12 crates
    /// ```
    pub fn line(&self, alloc: Global, verdict: &BuildVerdict<'a>) -> Result<String, AllocError> {
        match verdict {
            BuildVerdict::Nothing { krates } => {
                let krates = Only(krates.len());
                format!(in alloc; "holds: cargo builds nothing but {krates}\n")
            }
            BuildVerdict::Follows { fact, steps } => {
                let said = self.said(alloc, fact)?;
                let steps = Steps(*steps);
                format!(in alloc; "holds: {said}, {steps}\n")
            }
        }
    }

    /// What a fact says.
    fn said(&self, alloc: Global, fact: &BuildFact<'a>) -> Result<String, AllocError> {
        let names = self.names();
        match fact {
            BuildFact::Compiled(unit) => unit_said(alloc, &names, unit),
            BuildFact::ScriptCompiled(krate, _) => {
                let id = id_of(&names, *krate);
                format!(in alloc; "cargo builds the build script of {id}")
            }
            _ => fact_said(alloc, &names, fact),
        }
    }
}

/// What is said of a unit.
fn unit_said(
    alloc: Global,
    names: &FactNames<'_, '_>,
    unit: &UnitPlace,
) -> Result<String, AllocError> {
    let id = id_of(names, unit.target.krate);
    match unit.placement.platform {
        PlatformNumber::Host => format!(in alloc; "cargo builds {id} for the host"),
        PlatformNumber::Machine(number) => {
            let triple = triple_of(names, number);
            format!(in alloc; "cargo builds {id} for {triple}")
        }
    }
}

/// What another fact says, by its words.
fn fact_said(
    alloc: Global,
    names: &FactNames<'_, '_>,
    fact: &BuildFact<'_>,
) -> Result<String, AllocError> {
    let mut said = String::new(alloc);
    if let Some(words) = words_of(alloc, names, fact)? {
        for word in &words {
            let word = Shown(word.as_str()).to_string(alloc)?;
            said.push_str(word.as_str())?;
            said.push_str(" ")?;
        }
    }
    said.push_str("follows")?;
    Ok(said)
}

/// The id text of the crate with that number.
fn id_of<'s>(names: &FactNames<'s, '_>, number: usize) -> Shown<'s> {
    match names.ids.get(number) {
        Some(id) => Shown(id.repr()),
        None => Shown(""),
    }
}

/// The triple of the machine with that number.
fn triple_of<'s>(names: &FactNames<'s, '_>, number: usize) -> Shown<'s> {
    match names.tables.machines.get(number) {
        Some(machine) => Shown(machine.triple()),
        None => Shown(""),
    }
}

/// A number of steps.
#[derive(Clone, Copy)]
struct Steps(usize);

/// `1 step`, or the number and ` steps`.
impl fmt::Display for Steps {
    fn fmt<W: fmt::Write>(&self, f: &mut fmt::Formatter<W>) -> fmt::Result {
        if self.0 == 1 {
            return f.write_str("1 step");
        }
        write!(f, "{} steps", self.0)
    }
}

/// A number of crates that are all.
#[derive(Clone, Copy)]
struct Only(usize);

/// `these N crates`, and for one `this 1 crate`.
impl fmt::Display for Only {
    fn fmt<W: fmt::Write>(&self, f: &mut fmt::Formatter<W>) -> fmt::Result {
        if self.0 == 1 {
            return f.write_str("this 1 crate");
        }
        write!(f, "these {} crates", self.0)
    }
}
