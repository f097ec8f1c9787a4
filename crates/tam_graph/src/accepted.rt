// A graph that was accepted.
ghost use Rattle.std.specs.Prelude.{◌≡◌, ◌<◌, ◌≤◌, length};
ghost use Rattle.tam_graph.specs.Graphs.{code_of, params_of, results_of};
ghost use Rattle.tam_graph.specs.Reading.{IsOfText};
ghost use Rattle.tam_graph.specs.Accepted.{IsAccepted};

use crate::Graph;
use std::marker::Model;

/// A graph that no rule refuses.
///
/// docs/FORMATS.md, "Which graphs are accepted".
#[derive(Debug, Drop)]
pub struct Accepted {
    graph: Graph,
    main: u32,
}

impl Model for Accepted {
    ghost use Rattle.std.specs.Prelude.{◌≡◌};
    ghost use Rattle.tam_graph.specs.Graphs.{Graph as GraphRecord};
    ghost use Rattle.tam_graph.specs.Reading.{IsOfText};
    ghost use Rattle.tam_graph.specs.Accepted.{IsAccepted};

    ghost Value = { GraphRecord };

    ghost view = { λ a. a.graph };

    ghost invariant = { λ a. IsOfText a.graph × IsAccepted a.graph × (a.main ≡ a.graph.main) };
}

impl Accepted {
    pub fn of(graph: Graph) -> Accepted
        requires accepted { IsAccepted graph }
        ensures value { result ≡ graph }
    {
        let main = graph.main();
        Accepted { graph, main }
    }

    pub fn graph(&self) -> &Graph
        ensures value { result.now ≡ self.now }
        ensures accepted { IsAccepted self.now }
        ensures of_text { IsOfText self.now }
    {
        &self.graph
    }

    /// The number of the code `main`.
    pub fn main(&self) -> u32
        ensures value { result ≡ self.now.main }
        ensures in_range { result < length self.now.codes }
    {
        self.main
    }

    /// How many params a code has.
    pub fn params(&self, code: u32) -> u32
        requires in_range { code < length self.now.codes }
        ensures value { result ≡ params_of (code_of self.now code) }
        ensures few { result ≤ 64 }
    {
        self.graph.code(code).params()
    }

    /// How many results a code has.
    pub fn results(&self, code: u32) -> u32
        requires in_range { code < length self.now.codes }
        ensures value { result ≡ results_of (code_of self.now code) }
        ensures few { result ≤ 64 }
    {
        self.graph.code(code).results()
    }
}
