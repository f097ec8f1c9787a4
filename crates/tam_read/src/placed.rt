//! The lines of the places of a graph.
ghost use Rattle.std.specs.Prelude.{◌≡◌, ◌∷◌, ◌++◌, [], map, slice_get, IfOk};
ghost use Rattle.tam_read.specs.Placed.{line_at, or_first};
ghost use Rattle.tam_read.specs.PartView.{lines_of_part};

use crate::part::Part;
use std::alloc::{AllocError, Global};
use std::marker::Model;
use tam_graph::Place;

/// The line of a code's name, and the lines of its nodes.
#[derive(Debug, Drop)]
pub struct CodeLines {
    line: u32,
    nodes: Vec<u32>,
}

/// The line of each place of a graph that was read.
#[derive(Debug, Drop)]
pub struct Lines {
    codes: Vec<CodeLines>,
}

impl Model for Lines {
    ghost use Rattle.tam_read.specs.Placed.{PlaceLines};
    ghost use Rattle.tam_read.specs.LinesView.{placed};

    ghost Value = { PlaceLines };

    ghost view = { placed };
}

impl Lines {
    /// The line of a place. The file stands at line 1, and so does a place that isn't there.
    pub fn line(&self, place: Place) -> u32
        ensures value { result ≡ line_at self.now place }
    {
        match place {
            Place::File => 1,
            Place::Code { code } => match self.codes.get(code as usize) {
                Some(lines) => lines.line,
                None => 1,
            },
            Place::Node { code, node } => match self.codes.get(code as usize) {
                Some(lines) => node_line(&lines.nodes, node),
                None => 1,
            },
        }
    }
}

fn node_line(lines: &[u32], node: u32) -> u32
    ensures value { result ≡ or_first (slice_get lines.now node) }
{
    match lines.get(node as usize) {
        Some(line) => *line,
        None => 1,
    }
}

// The lines of a code and of its nodes.
fn lines_of_code(alloc: Global, part: &Part<'_>) -> Result<CodeLines, AllocError>
    ensures line { IfOk result (λ c. c.line ≡ part.now.line) }
    ensures nodes { IfOk result (λ c. c.nodes.items ≡ part.now.lines.items) }
{
    let nodes = Vec::from_slice(alloc, &part.lines)?;
    Ok(CodeLines {
        line: part.line,
        nodes,
    })
}

/// The lines of the places of what was read.
pub fn lines_of(alloc: Global, parts: &[Part<'_>]) -> Result<Lines, AllocError>
    ensures value { IfOk result (λ l. l ≡ map lines_of_part parts.now) }
{
    let mut codes = Vec::new(alloc);
    let mut rest = parts;
    while let [part, others @ ..] = rest {
        codes.push(lines_of_code(alloc, part)?)?;
        rest = others;
    }
    Ok(Lines { codes })
}
