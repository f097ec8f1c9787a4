// The lines of refusals.
ghost use Rattle.std.specs.Prelude.{◌≡◌, ◌++◌, IfOk, OnOk, codes};
ghost use Rattle.std.specs.Fmt.{decimal};
ghost use Rattle.tam_msgs.specs.Runs.{line};
ghost use Rattle.tam.specs.AnswerLines.{refused_line, read_cause_name, check_cause_name, asm_cause_name, code_text_cause_name, code_cause_name};
ghost use Rattle.tam.specs.AnswerLines.{refused_byte_line, image_cause_name};

use rv_asm::AsmCause;
use rv_image::ImageCause;
use std::alloc::{AllocError, Global};
use tam_graph::CheckCause;
use tam_read::{Limit, ReadCause};
use tam_word::print_number;
use tl0_code::BadCause;
use tl0_text::Cause0;

/// Adds a number in decimal.
pub fn push_number(line: &mut Vec<u8>, number: u32) -> Result<(), AllocError>
    ensures ok { OnOk result (line.new.items ≡ line.old.items ++ decimal number) }
{
    let mut digits = [0; 10];
    let len = print_number(number, &mut digits);
    line.extend_from_slice(&digits[..len])
}

/// The line of a text that is refused at one of its lines, for a cause with this name.
pub fn refused_line(alloc: Global, line: u32, cause: &[u8]) -> Result<Vec<u8>, AllocError>
    ensures value { IfOk result (λ text. text.items ≡ refused_line line cause.now) }
{
    refused_at(alloc, b"refused line ", line, cause)
}

/// The line of an image file that is refused at one of its bytes, for a cause with this name.
pub fn refused_byte_line(alloc: Global, byte: u32, cause: &[u8]) -> Result<Vec<u8>, AllocError>
    ensures value { IfOk result (λ text. text.items ≡ refused_byte_line byte cause.now) }
{
    refused_at(alloc, b"refused byte ", byte, cause)
}

// The line of a refusal at a place, for a cause with this name.
fn refused_at(alloc: Global, what: &[u8], place: u32, cause: &[u8]) -> Result<Vec<u8>, AllocError>
    ensures value { IfOk result (λ text. text.items ≡ line (what.now ++ decimal place ++ codes " " ++ cause.now)) }
{
    let mut text = Vec::from_slice(alloc, what)?;
    push_number(&mut text, place)?;
    text.extend_from_slice(b" ")?;
    text.extend_from_slice(cause)?;
    text.extend_from_slice(b"\n")?;
    Ok(text)
}

/// A fault of a graph's text by its name.
pub fn read_cause_name(cause: ReadCause) -> &'static [u8]
    ensures value { result.now ≡ read_cause_name cause }
{
    match cause {
        ReadCause::BadByte => b"BadByte",
        ReadCause::BadHead => b"BadHead",
        ReadCause::BadLine => b"BadLine",
        ReadCause::BadName => b"BadName",
        ReadCause::BadNumber => b"BadNumber",
        ReadCause::BadNesting => b"BadNesting",
        ReadCause::TwiceNamed => b"TwiceNamed",
        ReadCause::TooMany(Limit::Codes) => b"TooMany Codes",
        ReadCause::TooMany(Limit::CodeVertices) => b"TooMany CodeVertices",
        ReadCause::TooMany(Limit::BlockVertices) => b"TooMany BlockVertices",
        ReadCause::TooMany(Limit::Nesting) => b"TooMany Nesting",
        ReadCause::Ended => b"Ended",
        ReadCause::UnknownName => b"UnknownName",
        ReadCause::UnknownCode => b"UnknownCode",
    }
}

/// A fault of a graph by its name.
pub fn check_cause_name(cause: CheckCause) -> &'static [u8]
    ensures value { result.now ≡ check_cause_name cause }
{
    match cause {
        CheckCause::NoMain => b"NoMain",
        CheckCause::WrongBlock => b"WrongBlock",
        CheckCause::PlaceTwice => b"PlaceTwice",
        CheckCause::PlaceRange => b"PlaceRange",
        CheckCause::PlaceMissing => b"PlaceMissing",
        CheckCause::DepthMismatch => b"DepthMismatch",
        CheckCause::MainType => b"MainType",
        CheckCause::Cycle => b"Cycle",
    }
}

/// A fault of a text of thread code by its name.
pub fn code_text_cause_name(cause: Cause0) -> &'static [u8]
    ensures value { result.now ≡ code_text_cause_name cause }
{
    match cause {
        Cause0::BadHead => b"BadHead",
        Cause0::BadLine => b"BadLine",
        Cause0::BadNumber => b"BadNumber",
        Cause0::TooMany => b"TooMany",
        Cause0::Ended => b"Ended",
    }
}

/// A fault of thread code by its name.
pub fn code_cause_name(cause: BadCause) -> &'static [u8]
    ensures value { result.now ≡ code_cause_name cause }
{
    match cause {
        BadCause::Frame => b"Frame",
        BadCause::Main => b"Main",
        BadCause::Slot => b"Slot",
        BadCause::Thread => b"Thread",
        BadCause::Inlet => b"Inlet",
        BadCause::Callee => b"Callee",
        BadCause::Place => b"Place",
    }
}

/// A fault of an assembly text by its name.
pub fn asm_cause_name(cause: AsmCause) -> &'static [u8]
    ensures value { result.now ≡ asm_cause_name cause }
{
    match cause {
        AsmCause::BadHead => b"BadHead",
        AsmCause::BadLine => b"BadLine",
        AsmCause::BadNumber => b"BadNumber",
        AsmCause::Offset => b"Offset",
        AsmCause::TwiceNamed => b"TwiceNamed",
        AsmCause::UnknownName => b"UnknownName",
        AsmCause::Ended => b"Ended",
        AsmCause::TooMany => b"TooMany",
    }
}

/// A fault of an image file by its name.
pub fn image_cause_name(cause: ImageCause) -> &'static [u8]
    ensures value { result.now ≡ image_cause_name cause }
{
    match cause {
        ImageCause::Magic => b"Magic",
        ImageCause::Version => b"Version",
        ImageCause::Size => b"Size",
        ImageCause::Stride => b"Stride",
        ImageCause::Params => b"Params",
        ImageCause::Results => b"Results",
    }
}
