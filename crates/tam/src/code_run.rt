// What is answered to a text of thread code.
ghost use Rattle.std.specs.Prelude.{◌≡◌, ◌≤◌, ℕ, List, length, Some, IfOk};
ghost use Rattle.tam_words.specs.declared.mode.Mode.TheVariants.{ExecTl0};
ghost use Rattle.tam_input.specs.Inputs.{request_of};
ghost use Rattle.tl0_code.specs.CodeTexts.{program_text};
ghost use Rattle.tl0_code.specs.CodeRules.{first_fault};
ghost use Rattle.tl0_check.specs.FirstFault.{fault_told};
ghost use Rattle.tl0_text.specs.Reading.{Reads0};
ghost use Rattle.tam.specs.CodeAnswers.{code_fault_line, main_params};
ghost use Rattle.tam.specs.Answers.{AnswerTo};
ghost use Rattle.tam.specs.Headline.{IsDone};

use crate::code_line::code_line;
use crate::outcome::answer_exec;
use crate::refusal::{code_cause_name, code_text_cause_name, refused_line};
use crate::say::{say, say_made, say_no_memory};
use std::alloc::{AllocError, Global};
use tam_edge::Sink;
use tam_input::Ending;
use tam_msgs::Order;
use tam_run::run_code;
use tam_words::Job;
use tl0_check::{Check0Error, Checked0, check0};
use tl0_code::{BadCause, Program0};
use tl0_text::{Refused0, read0};

/// Answers a text of thread code with its run.
///
/// docs/FORMATS.md, "Command line"; docs/THREADS.md, "Runs of threads".
pub fn answer_code_text<K: Sink>(
    alloc: Global,
    text: &[u8],
    job: &Job,
    order: Order,
    out: &mut K,
) -> Ending
    requires few { length text.now ≤ 67108864 }
    requires mode { job.now.mode ≡ ExecTl0 }
    ensures done { IsDone (AnswerTo (request_of job.now order) text.now) result
        (K.taken out.old) (K.taken out.new) (K.faults out.old) (K.faults out.new) }
{
    match read0(alloc, text) {
        Ok(program) => answer_program(alloc, program, job, order, out),
        Err(Refused0::At { line, cause }) => {
            say_made(
                refused_line(alloc, line, code_text_cause_name(cause)),
                Ending::Refused,
                out,
            )
        }
        Err(Refused0::NoMemory) => say_no_memory(out),
    }
}

// Answers thread code that was read.
fn answer_program<K: Sink>(
    alloc: Global,
    program: Program0,
    job: &Job,
    order: Order,
    out: &mut K,
) -> Ending
    requires short { length (program_text program) ≤ 67108864 }
    requires mode { job.now.mode ≡ ExecTl0 }
    ensures done { (bytes : List ℕ) → Reads0 bytes program → IsDone (AnswerTo (request_of job.now order) bytes) result
        (K.taken out.old) (K.taken out.new) (K.faults out.old) (K.faults out.new) }
{
    match check0(program) {
        Ok(code) => run_checked(alloc, code, job, order, out),
        Err((program, error)) => {
            say_made(
                fault_line(alloc, &program, parts_of(error)),
                Ending::Refused,
                out,
            )
        }
    }
}

// The code of a fault, its place there, and its cause.
fn parts_of(error: Check0Error) -> (u32, u32, BadCause)
    ensures value { result ≡ fault_told error }
{
    match error {
        Check0Error::Bad { code, place, cause } => (code, place, cause),
    }
}

// The line of the first fault of thread code.
fn fault_line(
    alloc: Global,
    program: &Program0,
    fault: (u32, u32, BadCause),
) -> Result<Vec<u8>, AllocError>
    requires short { length (program_text program.now) ≤ 67108864 }
    requires first { first_fault program.now ≡ Some fault }
    ensures value { IfOk result (λ line. line.items ≡ code_fault_line program.now fault) }
{
    let (code, place, cause) = fault;
    let line = code_line(program, code, place);
    refused_line(alloc, line, code_cause_name(cause))
}

// Runs thread code without a fault on the job's arguments, within its limits.
fn run_checked<K: Sink>(
    alloc: Global,
    code: Checked0,
    job: &Job,
    order: Order,
    out: &mut K,
) -> Ending
    requires mode { job.now.mode ≡ ExecTl0 }
    ensures done { (bytes : List ℕ) → Reads0 bytes code → IsDone (AnswerTo (request_of job.now order) bytes) result
        (K.taken out.old) (K.taken out.new) (K.faults out.old) (K.faults out.new) }
{
    let args = job.args();
    if args.len() != main_params(&code) as usize {
        return say(b"usage ArgsCount\n", Ending::Usage, out);
    }
    let exec = run_code(alloc, code, args, order, job.limits(), out);
    answer_exec(exec, out)
}

// How many params `main` has.
fn main_params(code: &Checked0) -> u32
    ensures value { result ≡ main_params code.now }
{
    let program = code.program();
    program.codes()[program.main() as usize].params()
}
