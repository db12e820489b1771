//! Why a crate is kept and why its features are enabled, and whether a package can be reached.

use crate::answer::Answer;
use crate::crate_name::ShortName;
use crate::dot;
use crate::json::{InJson, JsonObject, list_json, string};
use crate::lines::Lines;
use crate::sentences::{last_reason, push_sentences};
use krates::derive::{Derivation, Step};
use krates::{KrateMatch, Krates, Node, NodeId, Package};
use krates_words::WhyForm;
use serde_json::Value;
use std::alloc::{AllocError, Global};

/// Why a crate is kept.
#[derive(Drop)]
pub struct Why<'a> {
    /// The crate.
    pub krate: &'a Package,
    /// A derivation that ends in it.
    pub derivation: Derivation,
    /// How it is printed.
    pub form: WhyForm,
}

impl InJson for Step {
    /// `rule`, `fact`, and in `uses` the numbers of steps.
    fn json(&self, alloc: Global) -> Result<Value, AllocError> {
        JsonObject::new(alloc)
            .put("rule", Ok(Value::from(self.rule as u64)))
            .put("fact", string(format!(in alloc; "{}", self.fact)))
            .put("uses", list_json(alloc, &self.uses))
            .object()
    }
}

impl Why<'_> {
    /// Adds a line for each step, as the `Display` of a derivation prints it.
    fn push_steps(&self, lines: &mut Lines) {
        for (number, step) in self.derivation.steps.iter().enumerate() {
            write!(lines, "{number} {step}");
            lines.end();
        }
    }
}

impl Why<'_> {
    /// Adds a picture: a box for each step, with its fact, and an arrow to it from each step that it uses.
    fn push_dot(&self, lines: &mut Lines) -> Result<(), AllocError> {
        let alloc = lines.allocator();
        dot::push_begin(lines);
        for (number, step) in self.derivation.steps.iter().enumerate() {
            let label = step.fact.to_string(alloc)?;
            dot::push_box(alloc, number, label.as_str(), "", lines)?;
            push_arrows(number, &step.uses, lines);
        }
        dot::push_end(lines);
        Ok(())
    }
}

/// Adds an arrow to a step from each of these.
fn push_arrows(number: usize, uses: &[usize], lines: &mut Lines) {
    for used in uses {
        dot::push_arrow(*used, number, "", lines);
    }
}

impl Answer for Why<'_> {
    /// The derivation in plain sentences, below the crate; or its steps, a line for each; or a picture of these in the language DOT.
    fn push_lines(&self, lines: &mut Lines) -> Result<(), AllocError> {
        match self.form {
            WhyForm::Steps => self.push_steps(lines),
            WhyForm::Dot => self.push_dot(lines)?,
            WhyForm::Sentences => {
                write!(lines, "{} is kept:", ShortName(self.krate));
                lines.end();
                push_sentences(&self.derivation, lines);
            }
        }
        Ok(())
    }

    /// `id` and `steps`, each with `rule`, `fact` and `uses`.
    fn json(&self, alloc: Global) -> Result<Value, AllocError> {
        JsonObject::new(alloc)
            .text("id", self.krate.id.repr.as_str())
            .put("steps", list_json(alloc, &self.derivation.steps))
            .object()
    }
}

/// An enabled feature, and why it is enabled.
#[derive(Drop)]
pub struct ExplainedFeature<'a> {
    /// Its name.
    pub name: &'a str,
    /// One reason.
    pub reason: String,
}

/// The enabled features of a crate.
#[derive(Drop)]
pub struct ExplainedFeatures<'a> {
    /// The crate.
    pub krate: &'a Package,
    /// Its enabled features, by name.
    pub features: Vec<ExplainedFeature<'a>>,
}

/// Adds the feature that a node is, where it is one of this crate.
fn push_feature<'a>(
    alloc: Global,
    krates: &'a Krates,
    krate: NodeId,
    node: NodeId,
    features: &mut Vec<ExplainedFeature<'a>>,
) -> Result<(), AllocError> {
    match krates.graph().raw_nodes().get(node.index()) {
        Some(Node::Feature { krate_index, name }) if krate_index.index() == krate.index() => {
            let reason = match krates.why(node)? {
                Some(derivation) => last_reason(alloc, &derivation)?,
                None => String::new(alloc),
            };
            Ok(features.push(ExplainedFeature {
                name: name.as_str(),
                reason,
            })?)
        }
        _ => Ok(()),
    }
}

impl<'a> ExplainedFeatures<'a> {
    /// The enabled features of a crate, each with one reason. The only refusal is running out of memory. Time O(n + f s) for n nodes, f
    /// features of the crate and s steps of the build.
    pub fn of(
        alloc: Global,
        krates: &'a Krates,
        found: KrateMatch<'a, Package>,
    ) -> Result<ExplainedFeatures<'a>, AllocError> {
        let mut features = Vec::new(alloc);
        for number in krates.len()..krates.graph().node_count() {
            let node = NodeId::new(number as u32);
            push_feature(alloc, krates, found.node_id, node, &mut features)?;
        }
        Ok(ExplainedFeatures {
            krate: found.krate,
            features,
        })
    }
}

impl InJson for ExplainedFeature<'_> {
    /// `name` and `reason`.
    fn json(&self, alloc: Global) -> Result<Value, AllocError> {
        JsonObject::new(alloc)
            .text("name", self.name)
            .text("reason", self.reason.as_str())
            .object()
    }
}

impl Answer for ExplainedFeatures<'_> {
    /// The crate, and below it a line for each feature: its name, and why it is enabled.
    fn push_lines(&self, lines: &mut Lines) -> Result<(), AllocError> {
        write!(lines, "{}", ShortName(self.krate));
        lines.end();
        for feature in &self.features {
            write!(lines, "  {}: {}", feature.name, feature.reason);
            lines.end();
        }
        Ok(())
    }

    /// `id` and `features`, each with `name` and `reason`.
    fn json(&self, alloc: Global) -> Result<Value, AllocError> {
        JsonObject::new(alloc)
            .text("id", self.krate.id.repr.as_str())
            .put("features", list_json(alloc, &self.features))
            .object()
    }
}

/// Whether it is certain that a package isn't reached.
#[derive(Drop)]
pub struct Certainty<'a> {
    /// The package.
    pub package: &'a Package,
    /// Whether the checker says that nothing leads to it.
    pub is_unreachable: bool,
    /// How many facts are closed under the rules without it.
    pub facts: usize,
}

impl Answer for Certainty<'_> {
    /// One line.
    fn push_lines(&self, lines: &mut Lines) -> Result<(), AllocError> {
        let name = ShortName(self.package);
        if self.is_unreachable {
            let facts = self.facts;
            write!(
                lines,
                "{name} can't be reached: it isn't among the facts ({facts}), and these are closed under the rules"
            );
        } else {
            write!(lines, "{name} is kept; `why` says why");
        }
        lines.end();
        Ok(())
    }

    /// An object with `id` and `unreachable`.
    fn json(&self, alloc: Global) -> Result<Value, AllocError> {
        JsonObject::new(alloc)
            .text("id", self.package.id.repr.as_str())
            .put("unreachable", Ok(Value::Bool(self.is_unreachable)))
            .object()
    }
}
