// A graph.
ghost use Rattle.std.specs.Prelude.{ℕ, ◌≡◌, ◌<◌, ◌≤◌, length, IfSome};
ghost use Rattle.std.specs.List.{position_or_len};
ghost use Rattle.tam_word.specs.Lists.{same_bytes};
ghost use Rattle.tam_graph.specs.Graphs.{graph_of, code_of};
ghost use Rattle.tam_graph.specs.Reading.{IsOfText};

use crate::Code;
use std::marker::Model;

/// A graph that a text within the limits has: its codes, in file order.
///
/// docs/FORMATS.md, "Graph text".
#[derive(Debug, Drop)]
pub struct Graph {
    codes: Vec<Code>,
}

impl Model for Graph {
    ghost use Rattle.tam_graph.specs.Graphs.{Graph as GraphRecord};

    ghost Value = { GraphRecord };

    ghost use Rattle.tam_graph.specs.Graphs.{graph_of};
    ghost use Rattle.tam_graph.specs.Reading.{IsOfText};

    ghost view = { λ g. graph_of g.codes.items };

    ghost invariant = { λ g. IsOfText (graph_of g.codes.items) };
}

impl Graph {
    /// The graph of these codes.
    pub fn of(codes: Vec<Code>) -> Graph
        requires of_text { IsOfText (graph_of codes.items) }
        ensures value { result ≡ graph_of codes.items }
    {
        Graph { codes }
    }

    /// How many codes it has.
    pub fn codes(&self) -> u32
        ensures value { result ≡ length self.now.codes }
        ensures of_text { IsOfText self.now }
        ensures few { result ≤ 256 }
    {
        self.codes.len() as u32
    }

    pub fn code(&self, code: u32) -> &Code
        requires in_range { code < length self.now.codes }
        ensures value { result.now ≡ code_of self.now code }
    {
        &self.codes[code as usize]
    }

    /// The number of the code of this name.
    pub fn find(&self, name: &[u8]) -> Option<u32>
        ensures found { IfSome result (λ c. (c < length self.now.codes) × ((code_of self.now c).name ≡ name.now)) }

        // No two codes have one name.
        ensures only { (c : ℕ) → c < length self.now.codes → (code_of self.now c).name ≡ name.now → result ≡ Some c }
    {
        let code = place_called(&self.codes, name);
        if code < self.codes.len() {
            Some(code as u32)
        } else {
            None
        }
    }

    /// The number of the code `main`, or how many codes there are where none has this name.
    pub fn main(&self) -> u32
        ensures value { result ≡ self.now.main }
        ensures of_text { IsOfText self.now }
    {
        place_called(&self.codes, b"main") as u32
    }
}

// The place of the first code of this name, or how many there are where none has it.
fn place_called(codes: &[Code], name: &[u8]) -> usize
    ensures value { result ≡ position_or_len (λ c. same_bytes name.now c.name) codes.now }
    ensures within { result ≤ length codes.now }
{
    for place in 0..codes.len() {
        if codes[place].name().is(name) {
            return place;
        }
    }
    codes.len()
}
