//! Why a crate is built, as it is shown.

use crate::build::Build;
use crate::sentences::Steps;
use krates::Package;
use krates_build_facts::{BuildFact, BuildStep, PlatformNumber};
use krates_build_naming::{FactNames, words_of};
use krates_report::answer::Answer;
use krates_report::crate_name::ShortName;
use krates_report::dot;
use krates_report::json::{JsonObject, Values};
use krates_report::lines::Lines;
use krates_words::WhyForm;
use serde_json::Value;
use std::alloc::{AllocError, Global};

/// Why a crate is built.
#[derive(Drop)]
pub(crate) struct WhyBuilt<'d, 'a> {
    /// What is built.
    pub(crate) build: &'d Build<'a>,
    /// The crate.
    pub(crate) package: &'d Package,
    /// A derivation that ends in one of its units, or in its build script.
    pub(crate) steps: Vec<BuildStep<'a>>,
    /// The words of the fact that each step gives.
    pub(crate) words: Vec<Vec<String>>,
    /// How it is printed.
    pub(crate) form: WhyForm,
}

impl WhyBuilt<'_, '_> {
    /// Adds a line for each step.
    fn push_steps(&self, lines: &mut Lines) {
        let mut words = self.words.iter();
        for (number, step) in self.steps.iter().enumerate() {
            write!(lines, "{number}");
            if let Some(words) = words.next() {
                push_words(words, lines);
            }
            self.push_uses(step, lines);
            lines.end();
        }
    }

    /// Adds the numbers of the steps from which a step follows.
    fn push_uses(&self, step: &BuildStep<'_>, lines: &mut Lines) {
        let mut before = " from ";
        for premise in &step.premises {
            if let Some(number) = self.step_of(premise) {
                write!(lines, "{before}{number}");
                before = " ";
            }
        }
    }

    /// Adds a picture: a box for each step, with the words of its fact, and an arrow to it from each step that it follows from.
    fn push_dot(&self, lines: &mut Lines) -> Result<(), AllocError> {
        let alloc = lines.allocator();
        dot::push_begin(lines);
        for (number, (step, words)) in self.steps.iter().zip(&self.words).enumerate() {
            let label = words_text(alloc, words)?;
            dot::push_box(alloc, number, label.as_str(), "", lines)?;
            self.push_arrows(number, step, lines);
        }
        dot::push_end(lines);
        Ok(())
    }

    /// Adds an arrow to a step from each that it follows from.
    fn push_arrows(&self, number: usize, step: &BuildStep<'_>, lines: &mut Lines) {
        for premise in &step.premises {
            if let Some(used) = self.step_of(premise) {
                dot::push_arrow(used, number, "", lines);
            }
        }
    }

    /// What JSON says of a step, whose fact has these words.
    fn step_json(
        &self,
        alloc: Global,
        step: &BuildStep<'_>,
        words: &[String],
    ) -> Result<Value, AllocError> {
        let mut uses = Values::new(alloc);
        for premise in &step.premises {
            if let Some(number) = self.step_of(premise) {
                uses.add(Ok(Value::from(number as u64)));
            }
        }
        JsonObject::new(alloc)
            .put("fact", words_json(alloc, words))
            .put("uses", uses.list())
            .object()
    }

    /// The number of the step that gives a fact.
    fn step_of(&self, fact: &BuildFact<'_>) -> Option<usize> {
        self.steps.iter().position(|step| step.fact == *fact)
    }
}

impl Answer for WhyBuilt<'_, '_> {
    /// The derivation in plain sentences, below the crate; or its steps, a line for each; or a picture of these in the language DOT.
    fn push_lines(&self, lines: &mut Lines) -> Result<(), AllocError> {
        match self.form {
            WhyForm::Steps => self.push_steps(lines),
            WhyForm::Dot => self.push_dot(lines)?,
            WhyForm::Sentences => {
                write!(lines, "cargo builds {}:", ShortName(self.package));
                lines.end();
                Steps::new(self.build, &self.steps).push(lines);
            }
        }
        Ok(())
    }

    /// `id` and `steps`, each with `fact` and `uses`.
    fn json(&self, alloc: Global) -> Result<Value, AllocError> {
        let mut steps = Values::new(alloc);
        for (step, words) in self.steps.iter().zip(&self.words) {
            steps.add(self.step_json(alloc, step, words));
        }
        JsonObject::new(alloc)
            .text("id", self.package.id.repr.as_str())
            .put("steps", steps.list())
            .object()
    }
}

/// Adds words, with a space in front of each.
fn push_words(words: &[String], lines: &mut Lines) {
    for word in words {
        write!(lines, " {word}");
    }
}

/// Words in one text, with a space between each two.
fn words_text(alloc: Global, words: &[String]) -> Result<String, AllocError> {
    let mut text = String::new(alloc);
    for word in words {
        if !text.is_empty() {
            text.push_str(" ")?;
        }
        text.push_str(word.as_str())?;
    }
    Ok(text)
}

/// Words as JSON.
fn words_json(alloc: Global, words: &[String]) -> Result<Value, AllocError> {
    let mut values = Values::new(alloc);
    for word in words {
        values.add(Value::try_from_str(alloc, word.as_str()));
    }
    values.list()
}

/// The words of the fact that each step gives. The only error is running out of memory.
pub(crate) fn words_of_steps(
    alloc: Global,
    build: &Build<'_>,
    steps: &[BuildStep<'_>],
) -> Result<Vec<Vec<String>>, AllocError> {
    let names = FactNames {
        ids: build.document.crate_ids(),
        tables: build.tables(),
    };
    let mut words = Vec::new(alloc);
    for step in steps {
        words.push(words_of_fact(alloc, &names, &step.fact)?)?;
    }
    Ok(words)
}

/// The words of a fact; if none name it, what it says by numbers.
fn words_of_fact(
    alloc: Global,
    names: &FactNames<'_, '_>,
    fact: &BuildFact<'_>,
) -> Result<Vec<String>, AllocError> {
    match words_of(alloc, names, fact)? {
        Some(words) => Ok(words),
        None => {
            let mut words = Vec::new(alloc);
            words.push(format!(in alloc; "{fact:?}")?)?;
            Ok(words)
        }
    }
}

/// What says that the crate with that number is built: a unit for a machine, or else one for the host, or else its build script.
pub(crate) fn built_fact<'a>(build: &Build<'a>, number: usize) -> Option<BuildFact<'a>> {
    let units = build.units.units();
    let mut found = None;
    for unit in units {
        if unit.target.krate == number {
            found = Some(*unit);
            if unit.placement.platform != PlatformNumber::Host {
                return Some(BuildFact::Compiled(*unit));
            }
        }
    }
    if let Some(unit) = found {
        return Some(BuildFact::Compiled(unit));
    }
    let script = build
        .units
        .scripts()
        .iter()
        .find(|script| script.krate == number)?;
    Some(BuildFact::ScriptCompiled(script.krate, script.side))
}
