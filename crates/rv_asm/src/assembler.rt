// The image of a text.
ghost use Rattle.std.specs.Prelude.{◌≡◌, ◌≤◌, ◌^◌, [], length, IfOk, OnOk, IfErr, MatchResult};
ghost use Rattle.rv_inst.specs.Images.{Image as MachineCode};
ghost use Rattle.rv_image.specs.ImageFiles.{IsImage};
ghost use Rattle.rv_image.specs.ImageLaws.{AreBelow};
ghost use Rattle.rv_asm.specs.AsmText.{asm_text};
ghost use Rattle.rv_asm.specs.declared.asm_error.AsmError.TheVariants.{NoMemory};
ghost use Rattle.rv_asm.specs.Faults.{asm_faults, IsFirst};
ghost use Rattle.rv_asm.specs.Reading.{AsmReads};

use crate::AsmError;
use crate::first_pass::first_pass;
use crate::second_pass::words_of;
use rv_image::Image;
use std::alloc::Global;

/// The image of a text, or why it has none.
///
/// docs/MACHINE.md, "Assembly text".
pub fn assemble(alloc: Global, text: &[u8]) -> Result<Image, AsmError>
    requires in_range { length text.now ≤ 4294967294 }
    ensures reads { IfOk result (λ image. AsmReads text.now image) }
    ensures faultless { OnOk result (asm_faults text.now ≡ []) }
    ensures refused { IfErr result (IsFirst (asm_faults text.now)) }

    // A text that reads as an image assembles to that image alone, and only want of memory refuses it.
    ensures complete { (image : MachineCode) → AsmReads text.now image → MatchResult result (λ made. made ≡ image) (λ e. e ≡ NoMemory) }

    // The text that is printed of an image of words assembles to that image.
    ensures printed { (image : MachineCode) → IsImage image → AreBelow (2 ^ 32) image.words → text.now ≡ asm_text image → MatchResult result
        (λ made. made ≡ image) (λ e. e ≡ NoMemory) }
{
    let pass = match first_pass(alloc, text) {
        Ok(pass) => pass,
        Err(error) => return Err(error),
    };
    match words_of(alloc, &pass.labels, &pass.words) {
        Ok(words) => Ok(Image::of(pass.stride, pass.params, pass.results, words)),
        Err(error) => Err(error),
    }
}
