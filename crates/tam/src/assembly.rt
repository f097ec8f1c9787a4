// What is answered to an assembly text.
ghost use Rattle.std.specs.Prelude.{◌≡◌, ◌≤◌, length};
ghost use Rattle.tam_words.specs.declared.mode.Mode.TheVariants.{Assemble};
ghost use Rattle.tam_input.specs.Inputs.{Request};
ghost use Rattle.tam.specs.Answers.{AnswerTo};
ghost use Rattle.tam.specs.Headline.{IsDone};

use crate::refusal::{asm_cause_name, refused_line};
use crate::say::{say_made, say_no_memory};
use rv_asm::{AsmError, assemble};
use rv_image::write_image;
use std::alloc::Global;
use tam_edge::Sink;
use tam_input::Ending;

/// Answers an assembly text with the file of its image.
pub fn answer_assembly_text<K: Sink>(alloc: Global, text: &[u8], out: &mut K) -> Ending
    requires few { length text.now ≤ 67108864 }
    ensures done { (ask : Request) → ask.mode ≡ Assemble → IsDone (AnswerTo ask text.now) result
        (K.taken out.old) (K.taken out.new) (K.faults out.old) (K.faults out.new) }
{
    match assemble(alloc, text) {
        Ok(image) => say_made(write_image(alloc, &image), Ending::Done, out),
        Err(AsmError::At { line, cause }) => {
            say_made(
                refused_line(alloc, line, asm_cause_name(cause)),
                Ending::Refused,
                out,
            )
        }
        Err(AsmError::NoMemory) => say_no_memory(out),
    }
}
