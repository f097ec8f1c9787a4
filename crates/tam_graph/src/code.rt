// A code.
ghost use Rattle.std.specs.Prelude.{ℕ, ◌≡◌, ◌<◌, ◌≤◌, length, IfSome};
ghost use Rattle.tam_graph.specs.Graphs.{params_of, results_of, is_any_param, is_any_give};
ghost use Rattle.tam_graph.specs.Reading.{IsCode};
ghost use Rattle.tam_graph.specs.NodeLists.{number_where};
ghost use Rattle.tam_graph.specs.Finding.{name_at};

use crate::index::Index;
use crate::{Kind, Name, Node};
use std::marker::Model;

/// A code of a graph text within the limits.
///
/// docs/FORMATS.md, "Graph text".
#[derive(Debug, Drop)]
pub struct Code {
    name: Name,
    nodes: Vec<Node>,
    owners: Vec<Option<u32>>,
    param_count: u32,
    result_count: u32,
    index: Index,
}

impl Model for Code {
    ghost use Rattle.tam_graph.specs.Graphs.{Code as CodeRecord};

    ghost Value = { CodeRecord };

    ghost use Rattle.tam_graph.specs.KeptCodes.{kept_code, IsKept};

    ghost view = { kept_code };

    // The counts and the index are those of its nodes.
    ghost invariant = { IsKept };
}

impl Code {
    /// The code of these parts: the nodes in file order over all blocks, and for each block the cond that opens it.
    pub fn of(name: Name, nodes: Vec<Node>, owners: Vec<Option<u32>>) -> Code
        requires of_text { IsCode (record { name = name; nodes = nodes.items; owners = owners.items }) }
        ensures value { result ≡ record { name = name; nodes = nodes.items; owners = owners.items } }
    {
        let param_count = count_params(&nodes);
        let result_count = count_results(&nodes);
        let index = Index::of(&nodes);
        Code {
            name,
            nodes,
            owners,
            param_count,
            result_count,
            index,
        }
    }

    pub fn name(&self) -> &Name
        ensures value { result.now ≡ self.now.name }
    {
        &self.name
    }

    /// The nodes, in file order over all blocks.
    pub fn nodes(&self) -> &[Node]
        ensures value { result.now ≡ self.now.nodes }
        ensures of_text { IsCode self.now }
        ensures few { length self.now.nodes ≤ 1024 }
    {
        &self.nodes
    }

    /// For each block the cond that opens it.
    pub fn owners(&self) -> &[Option<u32>]
        ensures value { result.now ≡ self.now.owners }
        ensures of_text { IsCode self.now }
    {
        &self.owners
    }

    /// How many params it has.
    pub fn params(&self) -> u32
        ensures value { result ≡ params_of self.now }
    {
        self.param_count
    }

    /// How many results it has.
    pub fn results(&self) -> u32
        ensures value { result ≡ results_of self.now }
    {
        self.result_count
    }

    /// The number of the node of this name.
    pub fn find(&self, name: &[u8]) -> Option<u32>
        ensures found { IfSome result (λ x. (x < length self.now.nodes) × (name_at self.now x ≡ Some name.now)) }

        // No two nodes have one name.
        ensures only { (x : ℕ) → name_at self.now x ≡ Some name.now → result ≡ Some x }
    {
        let x = self.index.find(&self.nodes, name)?;
        Some(u32::from(x))
    }
}

fn count_params(nodes: &[Node]) -> u32
    requires few { length nodes.now ≤ 1024 }
    ensures value { result ≡ number_where is_any_param nodes.now }
{
    let mut count = 0;
    for node in nodes {
        if matches!(node.kind, Kind::Param { .. }) {
            count += 1;
        }
    }
    count
}

fn count_results(nodes: &[Node]) -> u32
    requires few { length nodes.now ≤ 1024 }
    ensures value { result ≡ number_where is_any_give nodes.now }
{
    let mut count = 0;
    for node in nodes {
        if matches!(node.kind, Kind::Give { .. }) {
            count += 1;
        }
    }
    count
}
