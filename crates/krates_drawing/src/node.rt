//! The nodes of the graph.

ghost use Rattle.std.specs.Prelude.{◌≡◌};
ghost use Rattle.krates_drawing.specs.Node.{is_own_feature, node_text};

use krates_graph::graph::NodeId;
use krates_ids::Kid;
use std::collections::BTreeSet;
use std::fmt;

/// The enabled features of a crate, in the order of their names as bytes.
pub type EnabledFeatures = BTreeSet<String>;

/// A node of the graph: a kept crate, or an enabled feature of one.
#[derive(Debug, Drop)]
pub enum Node<N> {
    /// A kept crate.
    Krate {
        /// Its id, as read from the text of its package's id.
        id: Kid,
        /// What was made from its package.
        krate: N,
        /// The names of its enabled features.
        features: EnabledFeatures,
        /// For each declared dependency of its package the number of the crate that it means, if one is kept for it.
        dep_mapping: Vec<Option<NodeId>>,
    },
    /// An enabled feature of a kept crate.
    Feature {
        /// The number of its crate.
        krate_index: NodeId,
        /// Its name.
        name: String,
    },
}

impl<N> Node<N> {
    /// Whether this is a feature of the crate of that number. Time O(1).
    ///
    /// ```text
    /// let own = graph.raw_nodes().iter().filter(|node| node.is_feature_of(krate)).count();
    /// ```
    pub fn is_feature_of(&self, krate: NodeId) -> bool
        ensures { result ≡ is_own_feature krate self.now }
    {
        match self {
            Node::Krate { .. } => false,
            Node::Feature { krate_index, .. } => *krate_index == krate,
        }
    }
}

/// `crate ` and the crate as it is printed, or `feature ` and the name.
impl<N: fmt::Display> fmt::Display for Node<N> {
    ghost output = { node_text N.output };

    fn fmt<W: fmt::Write>(&self, f: &mut fmt::Formatter<W>) -> fmt::Result {
        match self {
            Node::Krate { krate, .. } => write!(f, "crate {krate}"),
            Node::Feature { name, .. } => write!(f, "feature {name}"),
        }
    }
}
