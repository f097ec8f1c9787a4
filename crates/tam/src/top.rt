// All that the program does.
ghost use Rattle.tam_input.specs.Endings.{code_of};
ghost use Rattle.tam_input.specs.Told.{told};
ghost use Rattle.tam.specs.Asks.{ask_of};
ghost use Rattle.tam.specs.Headline.{IsRightCall};

use crate::answer::answer;
use crate::say::say;
use crate::status::Status;
use rv_machine::Rv;
use std::alloc::Global;
use tam_edge::{Files, Sink};
use tam_fits::laws::{law_file, law_texts};
use tam_input::{Ending, read_input};
use tam_make::laws::law_made;
use tam_run::law_runs;
use tl0_keep::laws::law_checked;

/// Does all that the program does, and answers its status.
///
/// docs/FORMATS.md, "Command line".
pub fn tam<F: Files, K: Sink>(
    alloc: Global,
    words: &[String],
    files: &mut F,
    machine: &mut Option<Rv>,
    out: &mut K,
) -> Status
    // For some bytes of each file, which agree with all that is told: the status that is answered and the text that was written, or a prefix of it, are
    // theirs. Whatever run the words ask for, of whatever accepted graph the bytes spell, at whatever level, on whatever arguments and under whatever
    // order of delivery: each line is a result of the firing rules, a quiet run has exactly the results, each once, and every other end has its cause.
    // So it is with the runs of a large input that is made. A run of thread code or of an image that the words ask for is told as its rules say, and where
    // the code is what is written of an accepted graph, the run is that of the graph. Each other input is answered by its listing, or by its first fault.
    // The machine of a run that came to its end is handed out. What isn't asked for stays as it was, and a read fault is told by the count of the file
    // that failed.
    ensures headline { IsRightCall (ask_of words.now) (told F.left F.faults F.ends files.old) (told F.left F.faults F.ends files.new) result.code
        (K.taken out.old) (K.taken out.new) (K.faults out.old) (K.faults out.new) machine.old machine.new }
{
    let ending = end(alloc, words, files, machine, out);
    Status {
        code: ending.code(),
    }
}

// Does it all, and answers how the program ends.
fn end<F: Files, K: Sink>(
    alloc: Global,
    words: &[String],
    files: &mut F,
    machine: &mut Option<Rv>,
    out: &mut K,
) -> Ending
    ensures headline { IsRightCall (ask_of words.now) (told F.left F.faults F.ends files.old) (told F.left F.faults F.ends files.new) (code_of result)
        (K.taken out.old) (K.taken out.new) (K.faults out.old) (K.faults out.new) machine.old machine.new }
{
    law_made();
    law_runs();
    law_checked();
    law_texts();
    law_file();
    match read_input(alloc, words, files) {
        Ok(input) => answer(alloc, input, machine, out),
        Err(refusal) => say(refusal.line(), refusal.ending(), out),
    }
}
