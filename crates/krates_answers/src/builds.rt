//! Builds of one document, which show together what its crates are used for.

ghost use Rattle.std.specs.Prelude.{◌≡◌};
ghost use Rattle.krates_answers.specs.Builds.{AreOfOneDocument};

use crate::three_graphs::ThreeGraphs;
use krates::Krates;
use std::marker::Model;

/// Builds of one document: under a setting, and under the same one with more kinds of dependencies ignored. Three other graphs can't be
/// put together here, so what these answer is said of the document.
#[derive(Debug, Drop)]
pub struct Builds {
    pub(crate) graphs: ThreeGraphs,
}

impl Model for Builds {
    ghost use Rattle.krates_answers.specs.declared.three_graphs.ThreeGraphs.{ThreeGraphs};

    ghost Value = { ThreeGraphs };

    ghost use Rattle.std.specs.Coded.{codes};
    ghost use Rattle.krates_answers.specs.contracts.three_graphs.ThreeGraphs as three_graphs;

    ghost coded = { Prim.hlevel (codes, three_graphs.the_row.coded) };

    ghost use Rattle.krates_answers.specs.Builds.{AreOfOneDocument};

    ghost view = { λ b. b.graphs };

    ghost invariant = { λ b. AreOfOneDocument b.graphs };
}

impl Builds {
    /// These graphs, which are built of one document. Time O(1).
    pub fn of(graphs: ThreeGraphs) -> Builds
        requires { AreOfOneDocument graphs }
        ensures { result ≡ graphs }
    {
        Builds { graphs }
    }

    /// The graph under the setting, in which no more is ignored. Time O(1).
    pub fn all(&self) -> &Krates
        ensures { result.now ≡ self.now.all }
    {
        &self.graphs.all
    }

    /// What always holds of builds: they are of one document.
    pub fn agree(&self)
        ensures { AreOfOneDocument self.now }
    {
        let _ = &self.graphs;
    }
}
