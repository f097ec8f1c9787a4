// The machine code of checked thread code.
ghost use Rattle.std.specs.Prelude.{◌≡◌, ◌≤◌, IfOk};
ghost use Rattle.rv_image.specs.ImageFiles.{max_words};
ghost use Rattle.rv_keep.specs.Image.{image_of, words_in_all};

use crate::kernel::push_kernel;
use crate::lengths::{code_table, stride_of, words_in_all};
use crate::records::{push_records, push_table};
use crate::threads::push_codes;
use rv_image::Image;
use std::alloc::Global;
use tam_edge::NoMemory;
use tl0_check::Checked0;

/// The machine code of a program. `image_words` tells whether it fits, before a word is made.
///
/// docs/MACHINE.md, "Machine code".
pub fn generate(alloc: Global, code: &Checked0) -> Result<Image, NoMemory>
    requires fits { words_in_all code.now ≤ max_words }
    ensures value { IfOk result (λ image. image ≡ image_of code.now) }
{
    let program = code.program();
    let main = &program.codes()[program.main() as usize];
    let all = words_in_all(program);
    let stride = stride_of(program);
    let table = code_table(program);
    let mut words = Vec::with_capacity(alloc, all as usize)?;
    push_kernel(&mut words, 4 * all, stride, table, program.main())?;
    push_codes(alloc, &mut words, program)?;
    push_table(&mut words, program, table)?;
    push_records(alloc, &mut words, program, table)?;
    Ok(Image::of(stride, main.params(), main.results(), words))
}
