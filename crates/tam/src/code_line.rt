// Where a fault of thread code stands in its text.
ghost use Rattle.std.specs.Prelude.{◌≡◌, ◌<◌, ◌^◌, flat_map, length};
ghost use Rattle.tl0_code.specs.ThreadCode.{code_text};
ghost use Rattle.tl0_code.specs.CodeTexts.{text_lines, thread_lines, program_lines};
ghost use Rattle.tam.specs.CodeAnswers.{code_line};

use tl0_code::{Code0, Program0, Thread};

/// The number of a line of a code, by its place behind the code's head, in the text of the program.
pub fn code_line(program: &Program0, code: u32, place: u32) -> u32
    requires short { length (program_lines program.now) < 2 ^ 32 }
    requires there { code < length program.now.codes }
    requires in_code { place < length (text_lines (code_text program.now code)) }
    ensures value { result ≡ code_line program.now code place }
{
    3 + lines_of(&program.codes()[..code as usize]) + place
}

// How many lines the texts of codes have.
fn lines_of(codes: &[Code0]) -> u32
    requires short { length (flat_map text_lines codes.now) < 2 ^ 32 }
    ensures value { result ≡ length (flat_map text_lines codes.now) }
{
    let mut count = 0;
    let mut rest = codes;
    while let [code, after @ ..] = rest {
        count += 2 + code.inlets().len() as u32 + thread_lines_of(code.threads());
        rest = after;
    }
    count
}

// How many lines threads have.
fn thread_lines_of(threads: &[Thread]) -> u32
    requires short { length (flat_map thread_lines threads.now) < 2 ^ 32 }
    ensures value { result ≡ length (flat_map thread_lines threads.now) }
{
    let mut count = 0;
    let mut rest = threads;
    while let [thread, after @ ..] = rest {
        count += 2 + thread.instrs().len() as u32;
        rest = after;
    }
    count
}
