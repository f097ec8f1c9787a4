// The machine code of a graph, as assembly text and as the file of its image.
ghost use Rattle.std.specs.Prelude.{◌≡◌, IfOk};
ghost use Rattle.tl0_keep.specs.Compiled.{compiled};
ghost use Rattle.rv_keep.specs.Image.{image_of};
ghost use Rattle.rv_image.specs.ImageFiles.{image_bytes};
ghost use Rattle.rv_asm.specs.AsmText.{asm_text};

use rv_asm::print_asm;
use rv_image::write_image;
use std::alloc::Global;
use tam_edge::NoMemory;
use tam_graph::Accepted;
use tam_run::compile_image;

/// The assembly text of an accepted graph's machine code.
///
/// docs/MACHINE.md, "Machine code" and "Assembly text".
pub fn assembly_text(alloc: Global, graph: &Accepted) -> Result<Vec<u8>, NoMemory>
    ensures value { IfOk result (λ text. text.items ≡ asm_text (image_of (compiled graph.now))) }
{
    print_asm(alloc, &compile_image(alloc, graph)?)
}

/// The file of its image.
///
/// docs/MACHINE.md, "Machine code" and "Image file".
pub fn image_file(alloc: Global, graph: &Accepted) -> Result<Vec<u8>, NoMemory>
    ensures value { IfOk result (λ file. file.items ≡ image_bytes (image_of (compiled graph.now))) }
{
    write_image(alloc, &compile_image(alloc, graph)?)
}
