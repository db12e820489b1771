//! An order in which crates can be built, as it is shown.

use crate::answer::Answer;
use crate::crate_name::ShortName;
use crate::difference::side_name;
use crate::json::{JsonObject, Values, ids_json, string};
use crate::lines::Lines;
use krates::{KrateMatch, NodeId, Package};
use krates_answers::direct_links::DirectLinks;
use krates_answers::enabled_feature::EnabledFeature;
use krates_answers::order::Order;
use serde_json::Value;
use std::alloc::{AllocError, Global};

/// Crates in an order in which each comes behind all that it needs, or why there is none.
#[derive(Drop)]
pub struct OrderedCrates<'a> {
    /// The crates, each at its number.
    pub crates: Vec<KrateMatch<'a, Package>>,
    /// Which crate needs which.
    pub links: DirectLinks,
    /// Their features that are enabled.
    pub features: Vec<EnabledFeature<'a>>,
    /// The order, or a cycle.
    pub order: Order,
}

impl<'a> OrderedCrates<'a> {
    /// The order of these crates, of which these are the links to what they need. The only refusal is running out of memory, now or while the links
    /// were made. Time: that of `DirectLinks::order`.
    pub fn of(
        alloc: Global,
        crates: Vec<KrateMatch<'a, Package>>,
        links: Result<DirectLinks, AllocError>,
        features: Vec<EnabledFeature<'a>>,
    ) -> Result<OrderedCrates<'a>, AllocError> {
        let links = links?;
        let order = links.order(alloc)?;
        Ok(OrderedCrates {
            crates,
            links,
            features,
            order,
        })
    }
}

impl OrderedCrates<'_> {
    /// Whether there is an order.
    pub fn is_order(&self) -> bool {
        matches!(self.order, Order::Whole(_))
    }

    /// Adds a line for each of these crates, so far to the right.
    fn push_crates(&self, margin: &str, numbers: &[NodeId], lines: &mut Lines) {
        for number in numbers {
            if let Some(found) = self.crates.get(number.index()) {
                write!(lines, "{margin}{}", ShortName(found.krate));
                lines.end();
            }
        }
    }

    /// What JSON says of the crates of these numbers.
    fn crates_json(&self, alloc: Global, numbers: &[NodeId]) -> Result<Value, AllocError> {
        let mut values = Values::new(alloc);
        for number in numbers {
            if let Some(found) = self.crates.get(number.index()) {
                values.add(self.crate_json(alloc, *number, found.krate));
            }
        }
        values.list()
    }

    /// What JSON says of the crate of this number.
    fn crate_json(
        &self,
        alloc: Global,
        number: NodeId,
        package: &Package,
    ) -> Result<Value, AllocError> {
        let needs = self.links.of(number).unwrap_or(&[]);
        JsonObject::new(alloc)
            .text("id", package.id.repr.as_str())
            .text("name", package.name.as_str())
            .put("version", string(package.version.to_string(alloc)))
            .put("features", self.features_json(alloc, package))
            .put("dependencies", ids_json(alloc, &self.crates, needs))
            .object()
    }

    /// What JSON says of the features of a package.
    fn features_json(&self, alloc: Global, package: &Package) -> Result<Value, AllocError> {
        let mut values = Values::new(alloc);
        for feature in &self.features {
            if feature.krate.id == package.id {
                values.add(feature_json(alloc, feature));
            }
        }
        values.list()
    }
}

/// What JSON says of a feature of a crate.
fn feature_json(alloc: Global, feature: &EnabledFeature<'_>) -> Result<Value, AllocError> {
    let members = JsonObject::new(alloc).text("name", feature.name);
    match feature.is_for_host {
        Some(is_for_host) => members.text("side", side_name(is_for_host)).object(),
        None => members.object(),
    }
}

impl Answer for OrderedCrates<'_> {
    /// A line for each crate, in the order; or a line that there is none, and below it the crates of a cycle, each of which needs the next one, and
    /// the last the first.
    fn push_lines(&self, lines: &mut Lines) -> Result<(), AllocError> {
        match &self.order {
            Order::Whole(order) => self.push_crates("", order, lines),
            Order::Cycle(cycle) => {
                lines.push_str(
                    "there is no order: each of these needs the next one, and the last the first:",
                );
                lines.end();
                self.push_crates("    ", cycle, lines);
            }
        }
        Ok(())
    }

    /// An object with `order`, a list of the crates, each with `id`, `name`, `version`, `features`, each of these with `name` and by build the `side`, and the
    /// ids of its direct `dependencies`; and with `cycle`, a list of ids. The one that there isn't is null.
    fn json(&self, alloc: Global) -> Result<Value, AllocError> {
        let (order, cycle) = match &self.order {
            Order::Whole(order) => (self.crates_json(alloc, order), Ok(Value::Null)),
            Order::Cycle(cycle) => (Ok(Value::Null), ids_json(alloc, &self.crates, cycle)),
        };
        JsonObject::new(alloc)
            .put("order", order)
            .put("cycle", cycle)
            .object()
    }
}
