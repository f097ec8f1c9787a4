// Which calls and conds lack a place that the other side of an interface has.
ghost use Rattle.std.specs.Prelude.{◌≡◌};
ghost use Rattle.tam_word.specs.Lists.{any_of};
ghost use Rattle.tam_graph.specs.Graphs.{kind_at, node_numbers};
ghost use Rattle.tam_graph.specs.Accepted.{is_place_missing, lacks_for_call, lacks_in_branches};
ghost use Rattle.tam_check.specs.Interfaces.{call_lacks_at, branches_lack_at};

use crate::code_tables::CodeTables;
use crate::graph_tables::{Border, GraphTables};
use crate::interface::Interface;
use tam_graph::Kind;

const PLACES: u32 = 64;

/// Whether the interface of a call or of a cond lacks a place that the other side has.
///
/// docs/FORMATS.md, "Which graphs are accepted".
pub fn is_place_missing(
    graph: &GraphTables<'_>,
    tables: &CodeTables<'_>,
    x: u32,
    kind: Kind,
) -> bool
    ensures value { result ≡ is_place_missing graph.now.graph.now tables.now.code.now x kind }
{
    match kind {
        Kind::Call { callee } => callee < graph.graph.codes()
            && call_lacks(tables, x, &graph.border(callee)),
        Kind::Cond { yes, no, .. } => branches_lack(tables, x, yes, no),
        _ => false,
    }
}

// Whether the call lacks a place for a param or a result of its callee.
fn call_lacks(tables: &CodeTables<'_>, call: u32, callee: &Border<'_>) -> bool
    ensures value { result ≡ any_of (λ y. lacks_for_call tables.now.code.now call (kind_at callee.now.code.now y)) (node_numbers callee.now.code.now) }
{
    for place in 0..PLACES {
        if call_lacks_at(tables, call, callee, place) {
            return true;
        }
    }
    false
}

fn call_lacks_at(tables: &CodeTables<'_>, call: u32, callee: &Border<'_>, place: u32) -> bool
    ensures value { result ≡ call_lacks_at tables.now.code.now call callee.now.code.now place }
{
    callee.has_param(place) && !tables.has_place(Interface::Args { call }, place)
        || callee.has_result(place) && !tables.has_place(Interface::Rets { call }, place)
}

// Whether a branch of the cond lacks a place for a switch or a merge.
fn branches_lack(tables: &CodeTables<'_>, cond: u32, yes: u32, no: u32) -> bool
    ensures value { result ≡ any_of (λ z. lacks_in_branches tables.now.code.now cond yes no (kind_at tables.now.code.now z))
        (node_numbers tables.now.code.now) }
{
    for place in 0..PLACES {
        if branches_lack_at(tables, cond, yes, no, place) {
            return true;
        }
    }
    false
}

fn branches_lack_at(tables: &CodeTables<'_>, cond: u32, yes: u32, no: u32, place: u32) -> bool
    ensures value { result ≡ branches_lack_at tables.now.code.now cond yes no place }
{
    let lacks_in = |block: u32| !tables.has_place(Interface::Ins { block }, place);
    let lacks_out = |block: u32| !tables.has_place(Interface::Outs { block }, place);
    tables.has_place(Interface::Switches { cond }, place) && (lacks_in(yes) || lacks_in(no))
        || tables.has_place(Interface::Merges { cond }, place) && (lacks_out(yes) || lacks_out(no))
}
