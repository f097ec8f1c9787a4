// The thread code of a graph.
ghost use Rattle.std.specs.Prelude.{◌≡◌, ◌<◌, length, IfOk};
ghost use Rattle.tam_graph.specs.Graphs.{code_of};
ghost use Rattle.tl0_keep.specs.Compiled.{compiled_with, compiled_code};
ghost use Rattle.tl0_emit.specs.CodeParts.{ArePartsOf, ArePartsOfAll, AreKept};
ghost use Rattle.tl0_emit.specs.Emitting.{partitions_of};

use crate::CodeTables;
use std::alloc::Global;
use tam_edge::NoMemory;
use tam_graph::Accepted;
use tam_split::Parts;
use tam_world::Program;
use tl0_code::{Code0, Program0};

/// The thread code of a graph over these partitions, one for each block of each code.
///
/// docs/THREADS.md, "From graph to threads".
pub fn emit(alloc: Global, g: &Accepted, parts: &[Vec<Parts>]) -> Result<Program0, NoMemory>
    requires whole { ArePartsOfAll g.now (partitions_of parts.now) }
    ensures value { IfOk result (λ program. program ≡ compiled_with g.now (partitions_of parts.now)) }
{
    let program = Program::new(alloc, g.graph())?;
    let mut codes = Vec::new(alloc);
    for code in 0..parts.len() {
        codes.push(code_of(alloc, g, &program, code as u32, &parts[code])?)?;
    }
    Ok(Program0::of(g.main(), codes))
}

// The thread code of a code over these partitions, one for each block.
fn code_of<'a>(
    alloc: Global,
    g: &'a Accepted,
    program: &'a Program<'a>,
    code: u32,
    parts: &'a [Parts],
) -> Result<Code0, NoMemory>
    requires same { program.now ≡ g.now }
    requires in_range { code < length g.now.codes }
    requires whole { ArePartsOf (code_of g.now code) parts.now }
    ensures value { IfOk result (λ text. text ≡ compiled_code g.now (code_of g.now code, parts.now)) }
    ensures kept { IfOk result (λ _. AreKept parts.now) }
{
    let tables = CodeTables::of(alloc, g, program, code, parts)?;
    let inlets = tables.inlet_list(alloc)?;
    let threads = tables.threads(alloc)?;
    let own = tables.code();
    Ok(Code0::of(own.params(), own.results(), tables.slots(), inlets, threads))
}
