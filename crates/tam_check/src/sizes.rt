// The sizes of the interfaces of a code.
ghost use Rattle.std.specs.Prelude.{◌≡◌, ◌≤◌, ◌+◌, ◌<◌, length, IfOk};
ghost use Rattle.tam_check.specs.Tables.{AreSizes};

use crate::interface::Interface;
use crate::nodes::{block_at, kind_at, node_count};
use std::alloc::{AllocError, Global};
use tam_graph::Code;

/// How many nodes each of the first interfaces has, by their numbers.
pub fn sizes(alloc: Global, code: &Code, interfaces: usize) -> Result<Vec<u32>, AllocError>
    ensures value { IfOk result (λ sizes. AreSizes code.now (length code.now.nodes) interfaces sizes.items) }
{
    let mut sizes = vec![in alloc; 0; interfaces]?;
    for x in 0..node_count(code) {
        count_node(code, interfaces, &mut sizes, x);
    }
    Ok(sizes)
}

// Counts the next node.
fn count_node(code: &Code, interfaces: usize, sizes: &mut [u32], x: u32)
    requires few { x < 1024 }
    requires before { AreSizes code.now x interfaces sizes.old }
    ensures after { AreSizes code.now (x + 1) interfaces sizes.new }
{
    if let Some((interface, _)) = Interface::of(block_at(code, x), kind_at(code, x)) {
        let number = interface.number();
        if number < interfaces {
            sizes[number] += 1;
        }
    }
}
