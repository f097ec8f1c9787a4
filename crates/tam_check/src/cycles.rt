// The least node of each block that reaches itself.
ghost use Rattle.std.specs.Prelude.{◌≡◌, ◌<◌, length, IfOk, option_to_list};
ghost use Rattle.tam_graph.specs.Accepted.{on_cycle, is_cycle};
ghost use Rattle.tam_check.specs.Sources.{is_on_cycle, AreCycles};

use crate::nodes::{block_at, block_count, node_count};
use crate::order::has_order;
use crate::reached::reaches_itself;
use std::alloc::{AllocError, Global};
use tam_graph::Code;

/// For each block the least node that reaches itself; an empty list where there is none in any.
///
/// docs/FORMATS.md, "Which graphs are accepted".
pub fn cycles(alloc: Global, code: &Code) -> Result<Vec<Option<u32>>, AllocError>
    ensures value { IfOk result (λ cycles. AreCycles code.now cycles.items) }
{
    if has_order(alloc, code)? {
        return Ok(Vec::new(alloc));
    }
    let mut cycles = Vec::new(alloc);
    for block in 0..block_count(code) {
        let node = cycle_in(alloc, code, block)?;
        cycles.push(node)?;
    }
    Ok(cycles)
}

/// Whether a node is the least of its block that reaches itself.
pub fn is_cycle(code: &Code, x: u32, cycles: &[Option<u32>]) -> bool
    requires cycles { AreCycles code.now cycles.now }
    ensures value { result ≡ is_cycle code.now x }
{
    match cycles.get(block_at(code, x) as usize) {
        Some(Some(node)) => *node == x,
        _ => false,
    }
}

// The least node of the block that reaches itself.
fn cycle_in(alloc: Global, code: &Code, block: usize) -> Result<Option<u32>, AllocError>
    ensures value { IfOk result (λ node. option_to_list node ≡ on_cycle code.now block) }
{
    for x in 0..node_count(code) {
        if is_on_cycle(alloc, code, block, x)? {
            return Ok(Some(x));
        }
    }
    Ok(None)
}

// Whether a node stands in the block and reaches itself.
fn is_on_cycle(alloc: Global, code: &Code, block: usize, x: u32) -> Result<bool, AllocError>
    requires in_range { x < length code.now.nodes }
    ensures value { IfOk result (λ answer. answer ≡ is_on_cycle code.now block x) }
{
    if block_at(code, x) as usize == block {
        reaches_itself(alloc, code, block, x)
    } else {
        Ok(false)
    }
}
