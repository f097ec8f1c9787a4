//! Reads a graph from its text.
ghost use Rattle.std.specs.Prelude.{◌≡◌, ◌≤◌, ◌∷◌, ◌++◌, [], ℕ, List, map, length, IfOk, IfErr, MatchResult};
ghost use Rattle.tam_graph.specs.Graphs.{graph_of, Graph as GraphRecord};
ghost use Rattle.tam_graph.specs.Reading.{IsCode, IsOfText, Reads};
ghost use Rattle.tam_read.specs.Faults.{faults};
ghost use Rattle.tam_read.specs.PartView.{code_of_part};
ghost use Rattle.tam_read.specs.Placed.{lines_in};
ghost use Rattle.tam_read.specs.Refusals.{IsFirst};
ghost use Rattle.tam_read.specs.declared.refused.Refused.TheVariants.{NoMemory};

use crate::part::Part;
use crate::placed::{Lines, lines_of};
use crate::refusal::read_parts;
use crate::refused::Refused;
use std::alloc::{AllocError, Global};
use tam_graph::{Code, Graph, Name};

/// A graph that was read, and the lines of its places.
#[derive(Debug, Drop)]
pub struct Found {
    pub graph: Graph,
    pub lines: Lines,
}

// The code of what was read of it.
fn code_of(alloc: Global, part: &Part<'_>) -> Result<Code, AllocError>
    requires of_text { IsCode (code_of_part part.now) }
    ensures value { IfOk result (λ c. c ≡ code_of_part part.now) }
{
    let Some(name) = Name::of(part.name) else {
        unreachable!();
    };
    let nodes = Vec::from_slice(alloc, &part.built.nodes)?;
    let owners = Vec::from_slice(alloc, &part.built.owners)?;
    Ok(Code::of(name, nodes, owners))
}

// The graph of what was read.
fn graph_of(alloc: Global, parts: &[Part<'_>]) -> Result<Graph, AllocError>
    requires of_text { IsOfText (graph_of (map code_of_part parts.now)) }
    ensures value { IfOk result (λ g. g ≡ graph_of (map code_of_part parts.now)) }
{
    let mut codes = Vec::new(alloc);
    let mut rest = parts;
    while let [part, others @ ..] = rest {
        codes.push(code_of(alloc, part)?)?;
        rest = others;
    }
    Ok(Graph::of(codes))
}

/// Reads a graph from its text, or refuses the text at its first fault.
///
/// docs/FORMATS.md, "Graph text".
pub fn read(alloc: Global, text: &[u8]) -> Result<Found, Refused>
    requires short { length text.now ≤ 1048576 }
    ensures reads { IfOk result (λ found. Reads text.now found.graph) }
    ensures lines { IfOk result (λ found. found.lines ≡ lines_in text.now) }
    ensures refused { IfErr result (IsFirst (faults text.now)) }
    ensures faultless { IfOk result (λ _. faults text.now ≡ []) }

    // A text that reads as a graph reads as that graph alone, and only want of memory refuses it.
    ensures complete { (g : GraphRecord) → Reads text.now g → MatchResult result (λ found. found.graph ≡ g) (λ e. e ≡ NoMemory) }
{
    match read_parts(alloc, text) {
        Ok(parts) => {
            let graph = graph_of(alloc, &parts)?;
            let lines = lines_of(alloc, &parts)?;
            Ok(Found { graph, lines })
        }
        Err(refused) => Err(refused),
    }
}
