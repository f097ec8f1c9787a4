// Which nodes have a place that is taken, out of range, or lacking on the other side.
ghost use Rattle.std.specs.Prelude.{◌≡◌, ◌<◌, ◌+◌, ◌*◌, length};
ghost use Rattle.tam_word.specs.Lists.{any_of, beyond};
ghost use Rattle.tam_graph.specs.Graphs.{kind_at, node_numbers, number_of};
ghost use Rattle.tam_graph.specs.Accepted.{is_switch_of, is_merge_of, is_place_twice, is_place_range};
ghost use Rattle.tam_check.specs.Tables.{IsTable};

use crate::code_tables::CodeTables;
use crate::interface::Interface;
use crate::nodes::{block_at, callee_of, kind_at, owner_of, params_of, results_of};
use crate::table::Table;
use tam_graph::{Code, Graph, Kind};

/// Whether an earlier node has the same place of the same interface; the table tells of the earlier nodes.
///
/// docs/FORMATS.md, "Which graphs are accepted".
pub fn is_place_twice(code: &Code, earlier: &Table, x: u32) -> bool
    requires in_range { x < length code.now.nodes }
    requires earlier { IsTable code.now x (8 * (length code.now.nodes + length code.now.owners)) earlier.now.rows.items earlier.now.seen.items }
    ensures value { result ≡ is_place_twice code.now x }
{
    match Interface::of(block_at(code, x), kind_at(code, x)) {
        Some((interface, place)) => earlier.look(interface, place).is_something(),
        None => false,
    }
}

/// Whether a place isn't below the size of the interface.
///
/// docs/FORMATS.md, "Which graphs are accepted".
pub fn is_place_range(graph: &Graph, tables: &CodeTables<'_>, x: u32, kind: Kind) -> bool
    ensures value { result ≡ is_place_range graph.now tables.now.code.now x kind }
{
    let code = tables.code;
    match kind {
        Kind::Param { place } => is_beyond(place, code.params()),
        Kind::Give { place, .. } => is_beyond(place, code.results()),
        Kind::Arg { call, place, .. } => is_beyond(place, params_of(graph, callee_of(code, call))),
        Kind::Ret { call, place } => is_beyond(place, results_of(graph, callee_of(code, call))),
        Kind::Switch { cond, place, .. } => is_beyond(place, switch_count(tables, cond)),
        Kind::Merge { cond, place } => is_beyond(place, merge_count(tables, cond)),
        Kind::Enter { place } => match owner_of(code, block_at(code, x)) {
            Some(cond) => is_beyond(place, switch_count(tables, cond)),
            None => false,
        },
        Kind::Leave { place, .. } => match owner_of(code, block_at(code, x)) {
            Some(cond) => is_beyond(place, merge_count(tables, cond)),
            None => false,
        },
        _ => false,
    }
}

fn is_beyond(place: u32, size: u32) -> bool
    ensures value { result ≡ beyond place size }
{
    place >= size
}

// How many switches a cond has.
fn switch_count(tables: &CodeTables<'_>, cond: u32) -> u32
    ensures value { result ≡ number_of tables.now.code.now (is_switch_of cond) }
{
    tables.size(Interface::Switches { cond })
}

// How many merges a cond has.
fn merge_count(tables: &CodeTables<'_>, cond: u32) -> u32
    ensures value { result ≡ number_of tables.now.code.now (is_merge_of cond) }
{
    tables.size(Interface::Merges { cond })
}
