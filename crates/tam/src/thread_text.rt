// The thread code of a graph as text.
ghost use Rattle.std.specs.Prelude.{◌≡◌, IfOk};
ghost use Rattle.tl0_code.specs.CodeTexts.{program_text};
ghost use Rattle.tl0_keep.specs.Compiled.{compiled};

use std::alloc::Global;
use tam_edge::NoMemory;
use tam_graph::Accepted;
use tam_run::compile;
use tl0_text::print0;

/// The text of an accepted graph's thread code.
///
/// docs/THREADS.md, "From graph to threads" and "Thread code as text".
pub fn thread_text(alloc: Global, graph: &Accepted) -> Result<Vec<u8>, NoMemory>
    ensures value { IfOk result (λ text. text.items ≡ program_text (compiled graph.now)) }
{
    print0(alloc, &compile(alloc, graph)?)
}
