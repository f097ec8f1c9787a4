//! The lines of a code's body, read into its nodes and blocks.
ghost use Rattle.std.specs.Prelude.{◌≡◌, ◌∷◌, ◌++◌, [], ◌+◌, ◌<◌, ◌≤◌, ◌^◌, length, map, IfOk, OnOk, IfErr};
ghost use Rattle.tam_read.specs.Naming.{faults_known, faults_within};
ghost use Rattle.tam_read.specs.Building.{built_behind, built, nothing_built};
ghost use Rattle.tam_read.specs.BuildingView.{built_so_far};
ghost use Rattle.tam_read.specs.KnownView.{known};
ghost use Rattle.tam_read.specs.LineView.{saying, sayings_of, numbered};
ghost use Rattle.tam_read.specs.Refusals.{IsFirst};
ghost use Rattle.tam_read.specs.Parts.{node_lines};

use crate::branch::Branch;
use crate::building::{Building, build};
use crate::line::Line;
use crate::naming::{Known, names_cause};
use crate::refused::Refused;
use crate::table::is_node;
use std::alloc::{AllocError, Global};

// Before the first line of a code: its block 0 is open.
fn nothing_built(alloc: Global) -> Result<Building, AllocError>
    ensures value { IfOk result (λ b. built_so_far b ≡ nothing_built) }
{
    let owners = vec![in alloc; None]?;
    let within = vec![in alloc; Branch { block: 0, cond: 0 }]?;
    Ok(Building {
        nodes: Vec::new(alloc),
        owners,
        within,
    })
}

// Reads a line that names nothing unknown.
fn build_line(built: &mut Building, names: &Known<'_, '_>, line: &Line<'_>) -> Result<(), Refused>
    requires nodes { length built.old.nodes.items < 2 ^ 32 }
    requires owners { length built.old.owners.items < 2 ^ 32 }
    ensures ok { OnOk result (built_so_far built.new ≡ built_behind (known names.now) (built_so_far built.old) (saying line.now)) }
    ensures faultless { OnOk result (faults_known (known names.now) (saying line.now) ≡ []) }
    ensures refused { IfErr result (IsFirst (map (λ c. (line.now.number, c)) (faults_known (known names.now) (saying line.now)))) }
{
    if let Some(cause) = names_cause(names, line) {
        return Err(Refused::At {
            line: line.number,
            cause,
        });
    }
    build(built, names, line)?;
    Ok(())
}

/// Reads the lines of a code, up to the first that names something unknown.
pub fn build_body(
    alloc: Global,
    names: &Known<'_, '_>,
    lines: &[Line<'_>],
) -> Result<Building, Refused>
    requires few { length lines.now < 2 ^ 31 }
    ensures ok { IfOk result (λ b. built_so_far b ≡ built (known names.now) nothing_built (sayings_of lines.now)) }
    ensures faultless { OnOk result (faults_within (known names.now) (map numbered lines.now) ≡ []) }
    ensures refused { IfErr result (IsFirst (faults_within (known names.now) (map numbered lines.now))) }
{
    let mut built = nothing_built(alloc)?;
    let mut rest = lines;
    while let [line, others @ ..] = rest {
        match build_line(&mut built, names, line) {
            Ok(()) => rest = others,
            Err(refused) => return Err(refused),
        }
    }
    Ok(built)
}

/// The lines of the nodes.
pub fn node_lines(alloc: Global, lines: &[Line<'_>]) -> Result<Vec<u32>, AllocError>
    ensures value { IfOk result (λ ls. ls.items ≡ node_lines (map numbered lines.now)) }
{
    let mut found = Vec::new(alloc);
    let mut rest = lines;
    while let [line, others @ ..] = rest {
        if is_node(line.verb) {
            found.push(line.number)?;
        }
        rest = others;
    }
    Ok(found)
}
