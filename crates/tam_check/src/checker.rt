// The check of a graph, node by node in file order.
ghost use Rattle.std.specs.Prelude.{◌≡◌, ◌==◌, ◌&&◌, ◌<◌, ◌+◌, ◌*◌, None, take, length, IfOk, IfErr, option_to_list};
ghost use Rattle.tam_graph.specs.Graphs.{code_of};
ghost use Rattle.tam_graph.specs.Accepted.{is_main_type, faults_at, faults_of, IsAccepted};
ghost use Rattle.tam_check.specs.declared.checker.CheckError.TheVariants.{NoMemory as Wants_memory};
ghost use Rattle.tam_check.specs.FirstFault.{faults_in, first_fault, IsTold};
ghost use Rattle.tam_check.specs.Sources.{AreCycles};
ghost use Rattle.tam_check.specs.Tables.{IsTable};

use crate::blocks::is_wrong_block;
use crate::code_tables::CodeTables;
use crate::cycles::{cycles, is_cycle};
use crate::depths::{has_right_depth, is_main_type};
use crate::graph_tables::GraphTables;
use crate::lacking::is_place_missing;
use crate::nodes::{kind_at, node_count};
use crate::places::{is_place_range, is_place_twice};
use crate::table::{Table, interface_count};
use std::alloc::{AllocError, Global};
use tam_graph::{Accepted, CheckCause, Code, Graph, Kind, Place};

/// Why a graph wasn't accepted.
#[derive(Clone, Copy, Debug, PartialEq, Eq)]
pub enum CheckError {
    /// The first place in file order that has a fault, and its first cause.
    At { place: Place, cause: CheckCause },
    NoMemory,
}

impl From<AllocError> for CheckError {
    ghost from_gives = { λ _ error. error ≡ Wants_memory };

    fn from(_error: AllocError) -> CheckError {
        CheckError::NoMemory
    }
}

/// Accepts a graph without a fault, or gives it back with its first fault.
///
/// docs/FORMATS.md, "Which graphs are accepted".
pub fn check(alloc: Global, graph: Graph) -> Result<Accepted, (Graph, CheckError)>
    ensures value { IfOk result (λ accepted. accepted ≡ graph) }
    ensures accepted { IfOk result (λ accepted. IsAccepted accepted) }

    // The graph comes back as it was, with its first fault.
    ensures kept { IfErr result (λ refused. refused.0 ≡ graph) }
    ensures refused { IfErr result (λ refused. IsTold graph refused.1) }
{
    match first_fault(alloc, &graph) {
        Ok(None) => Ok(Accepted::of(graph)),
        Ok(Some((place, cause))) => Err((graph, CheckError::At { place, cause })),
        Err(error) => Err((graph, CheckError::from(error))),
    }
}

// The first fault of a graph.
fn first_fault(alloc: Global, graph: &Graph) -> Result<Option<(Place, CheckCause)>, AllocError>
    ensures value { IfOk result (λ fault. fault ≡ first_fault graph.now) }
    ensures accepted { IfOk result (λ fault. fault ≡ None → IsAccepted graph.now) }
{
    if graph.main() >= graph.codes() {
        return Ok(Some((Place::File, CheckCause::NoMain)));
    }
    let tables = GraphTables::of(alloc, graph)?;
    match first_in_codes(alloc, &tables)? {
        Some((code, node, cause)) => Ok(Some((Place::Node { code, node }, cause))),
        None => Ok(None),
    }
}

// The first fault of the codes of a graph: the code, the node and the cause.
fn first_in_codes(
    alloc: Global,
    graph: &GraphTables<'_>,
) -> Result<Option<(u32, u32, CheckCause)>, AllocError>
    ensures value { IfOk result (λ fault. option_to_list fault ≡ take 1 (faults_of graph.now.graph.now)) }
{
    for n in 0..graph.graph.codes() {
        if let Some(fault) = first_in(alloc, graph, n)? {
            return Ok(Some(fault));
        }
    }
    Ok(None)
}

// The first fault of a code.
fn first_in(
    alloc: Global,
    graph: &GraphTables<'_>,
    n: u32,
) -> Result<Option<(u32, u32, CheckCause)>, AllocError>
    requires in_range { n < length graph.now.graph.now.codes }
    ensures value { IfOk result (λ fault. option_to_list fault ≡ take 1 (faults_in graph.now.graph.now n)) }
{
    let code = graph.graph.code(n);
    let tables = CodeTables::of(alloc, code)?;
    let cycles = cycles(alloc, code)?;
    let interfaces = interface_count(code);
    let mut earlier = Table::of(alloc, code, interfaces)?;
    for x in 0..node_count(code) {
        if let Some(cause) = first_at(graph, n, &tables, &earlier, x, &cycles) {
            return Ok(Some((n, x, cause)));
        }
        earlier.add(code, interfaces, x)?;
    }
    Ok(None)
}

// The first fault of a node; the table tells of the earlier nodes.
fn first_at(
    graph: &GraphTables<'_>,
    n: u32,
    tables: &CodeTables<'_>,
    earlier: &Table,
    x: u32,
    cycles: &[Option<u32>],
) -> Option<CheckCause>
    requires code { tables.now.code.now ≡ code_of graph.now.graph.now n }
    requires in_range { x < length tables.now.code.now.nodes }
    requires earlier { IsTable tables.now.code.now x (8 * (length tables.now.code.now.nodes + length tables.now.code.now.owners))
        earlier.now.rows.items earlier.now.seen.items }
    requires cycles { AreCycles tables.now.code.now cycles.now }
    ensures value { option_to_list result ≡ take 1 (faults_at graph.now.graph.now n x) }
{
    let code = tables.code;
    let kind = kind_at(code, x);
    if is_wrong_block(code, x) {
        Some(CheckCause::WrongBlock)
    } else if is_place_twice(code, earlier, x) {
        Some(CheckCause::PlaceTwice)
    } else if is_place_range(graph.graph, tables, x, kind) {
        Some(CheckCause::PlaceRange)
    } else if is_place_missing(graph, tables, x, kind) {
        Some(CheckCause::PlaceMissing)
    } else if !has_right_depth(graph, tables, x, kind) {
        Some(CheckCause::DepthMismatch)
    } else if breaks_main(graph.graph, n, code, x, kind) {
        Some(CheckCause::MainType)
    } else if is_cycle(code, x, cycles) {
        Some(CheckCause::Cycle)
    } else {
        None
    }
}

// Whether the code is `main`, and the node takes or gives an array.
fn breaks_main(graph: &Graph, n: u32, code: &Code, x: u32, kind: Kind) -> bool
    ensures value { result ≡ ((n == graph.now.main) && is_main_type code.now x kind) }
{
    n == graph.main() && is_main_type(code, x, kind)
}
