//! The nodes and blocks of a code, built line by line.
ghost use Rattle.std.specs.Prelude.{◌≡◌, ◌∷◌, ◌++◌, [], ◌+◌, ◌<◌, ◌≤◌, ◌^◌, Some, length, reverse, OnOk};
ghost use Rattle.tam_word.specs.Lists.{changed_at};
ghost use Rattle.tam_read.specs.Building.{block_within, cond_within, outside, a_branch, with_else, with_node, built_behind, built_by, turned_else, else_kind};
ghost use Rattle.tam_read.specs.declared.form.Verb.TheVariants as verb;
ghost use Rattle.tam_read.specs.BuildingView.{built_so_far};
ghost use Rattle.tam_read.specs.KnownView.{known};
ghost use Rattle.tam_read.specs.LineView.{saying};

use crate::branch::Branch;
use crate::form::Verb;
use crate::line::Line;
use crate::naming::Known;
use crate::node::{depth_made, kind_said, name_given};
use std::alloc::AllocError;
use tam_graph::{Kind, Name, Node};

/// The nodes so far, for each block so far the cond that opens it, and the blocks that are open, the innermost last.
#[derive(Drop)]
pub struct Building {
    pub nodes: Vec<Node>,
    pub owners: Vec<Option<u32>>,
    pub within: Vec<Branch>,
}

fn innermost(within: &[Branch]) -> Branch
    ensures block { result.block ≡ block_within (reverse within.now) }
    ensures cond { result.cond ≡ cond_within (reverse within.now) }
{
    match within.last() {
        Some(branch) => *branch,
        None => Branch { block: 0, cond: 0 },
    }
}

fn leave(within: &mut Vec<Branch>)
    ensures value { reverse within.new.items ≡ outside (reverse within.old.items) }
{
    let _left = within.pop();
}

fn enter(within: &mut Vec<Branch>, block: u32, cond: u32) -> Result<(), AllocError>
    ensures ok { OnOk result (reverse within.new.items ≡ a_branch block cond ∷ reverse within.old.items) }
{
    within.push(Branch { block, cond })?;
    Ok(())
}

fn else_kind(number: u32, kind: Kind) -> Kind
    ensures value { result ≡ else_kind number kind }
{
    match kind {
        Kind::Cond { test, yes, .. } => Kind::Cond {
            test,
            yes,
            no: number,
        },
        other => other,
    }
}

fn with_else(number: u32, node: Node) -> Node
    ensures value { result ≡ with_else number node }
{
    Node {
        kind: else_kind(number, node.kind),
        ..node
    }
}

// Gives a cond its else block.
fn set_else(nodes: &mut [Node], cond: u32, number: u32)
    ensures value { nodes.new ≡ changed_at cond (with_else number) nodes.old }
{
    let cond = cond as usize;
    if cond < nodes.len() {
        let node = with_else(number, nodes[cond]);
        nodes[cond] = node;
    }
}

fn push_owner(owners: &mut Vec<Option<u32>>, cond: u32) -> Result<(), AllocError>
    ensures ok { OnOk result (owners.new.items ≡ owners.old.items ++ Some cond ∷ []) }
{
    owners.push(Some(cond))?;
    Ok(())
}

// Builds the node of a line in the innermost block.
fn build_node(
    built: &mut Building,
    names: &Known<'_, '_>,
    line: &Line<'_>,
) -> Result<(), AllocError>
    requires few { length built.old.owners.items < 2 ^ 32 }
    ensures nodes { OnOk result (built.new.nodes.items ≡ with_node (known names.now) (built_so_far built.old) (saying line.now)) }
    ensures owners { OnOk result (built.new.owners.items ≡ built.old.owners.items) }
    ensures within { OnOk result (built.new.within.items ≡ built.old.within.items) }
{
    let block = innermost(&built.within).block;
    let next = built.owners.len() as u32;
    let name: Option<Name> = name_given(line);
    let depth = depth_made(line.verb, line.name);
    let kind = kind_said(names, next, line);
    built.nodes.push(Node {
        name,
        depth,
        block,
        kind,
    })?;
    Ok(())
}

// Builds a cond, and opens its then block.
fn build_cond(
    built: &mut Building,
    names: &Known<'_, '_>,
    line: &Line<'_>,
) -> Result<(), AllocError>
    requires nodes { length built.old.nodes.items < 2 ^ 32 }
    requires owners { length built.old.owners.items < 2 ^ 32 }
    ensures ok { OnOk result (built_so_far built.new ≡ built_by (known names.now) (built_so_far built.old) (saying line.now) verb.Cond) }
{
    let cond = built.nodes.len() as u32;
    let block = built.owners.len() as u32;
    build_node(built, names, line)?;
    push_owner(&mut built.owners, cond)?;
    enter(&mut built.within, block, cond)
}

// Opens the else block of the innermost cond.
fn build_else(built: &mut Building) -> Result<(), AllocError>
    requires few { length built.old.owners.items < 2 ^ 32 }
    ensures ok { OnOk result (built_so_far built.new ≡ turned_else (built_so_far built.old)) }
{
    let cond = innermost(&built.within).cond;
    let block = built.owners.len() as u32;
    set_else(&mut built.nodes, cond, block);
    push_owner(&mut built.owners, cond)?;
    leave(&mut built.within);
    enter(&mut built.within, block, cond)
}

/// Builds what a line says.
pub fn build(built: &mut Building, names: &Known<'_, '_>, line: &Line<'_>) -> Result<(), AllocError>
    requires nodes { length built.old.nodes.items < 2 ^ 32 }
    requires owners { length built.old.owners.items < 2 ^ 32 }
    ensures ok { OnOk result (built_so_far built.new ≡ built_behind (known names.now) (built_so_far built.old) (saying line.now)) }
{
    match line.verb {
        Verb::Code => Ok(()),
        Verb::Cond => build_cond(built, names, line),
        Verb::Else => build_else(built),
        Verb::End => {
            leave(&mut built.within);
            Ok(())
        }
        _ => build_node(built, names, line),
    }
}
