// What is answered to a job and the bytes of its file.
ghost use Rattle.std.specs.Prelude.{◌≡◌, ◌≤◌, ℕ, List, length};
ghost use Rattle.tam_words.specs.declared.mode.Mode.TheVariants.{Make};
ghost use Rattle.tam_msgs.specs.declared.item.Item.{Item};
ghost use Rattle.tam_input.specs.Refusing.{most_bytes};
ghost use Rattle.tam_input.specs.Inputs.{request_of};
ghost use Rattle.tam.specs.Answers.{AnswerTo};
ghost use Rattle.tam.specs.Machines.{LeavesMachine, HandsOver};
ghost use Rattle.tam.specs.Headline.{IsDone};

use crate::assembly::answer_assembly_text;
use crate::code_run::answer_code_text;
use crate::graph_text::answer_graph_text;
use crate::image_run::answer_image_file;
use crate::made::answer_made;
use rv_machine::Rv;
use std::alloc::Global;
use tam_edge::Sink;
use tam_input::{Ending, Input};
use tam_words::{Job, Mode};

/// Answers the bytes of a job's file, or what it is to make.
pub fn answer<K: Sink>(alloc: Global, input: Input, machine: &mut Option<Rv>, out: &mut K) -> Ending
    requires few { length input.text.items ≤ most_bytes input.job.mode }
    ensures done { IsDone (AnswerTo (request_of input.job input.order) input.text.items) result
        (K.taken out.old) (K.taken out.new) (K.faults out.old) (K.faults out.new) }
    ensures machine { HandsOver (LeavesMachine (request_of input.job input.order) input.text.items) result machine.old machine.new }
{
    let Input { job, order, text } = input;
    match job.mode() {
        Mode::Assemble => answer_assembly_text(alloc, &text, out),
        Mode::Graph
        | Mode::Tl0
        | Mode::Rv32
        | Mode::Check
        | Mode::EmitDg
        | Mode::Sets
        | Mode::Parts
        | Mode::EmitTl0
        | Mode::EmitAsm
        | Mode::EmitImage => answer_graph_text(alloc, &text, &job, order, machine, out),
        Mode::ExecTl0 => answer_code_text(alloc, &text, &job, order, out),
        Mode::ExecRv32 => answer_image_file(alloc, &text, &job, order, machine, out),
        Mode::Make => answer_made_job(alloc, &job, machine, out),
    }
}

// Makes the large input of a job, and runs it.
fn answer_made_job<K: Sink>(
    alloc: Global,
    job: &Job,
    machine: &mut Option<Rv>,
    out: &mut K,
) -> Ending
    requires mode { job.now.mode ≡ Make }
    ensures done { (order : List Item) (bytes : List ℕ) → IsDone (AnswerTo (request_of job.now order) bytes) result
        (K.taken out.old) (K.taken out.new) (K.faults out.old) (K.faults out.new) }
    ensures machine { (order : List Item) (bytes : List ℕ) → HandsOver (LeavesMachine (request_of job.now order) bytes) result machine.old machine.new }
{
    match job.shape() {
        Some(shape) => answer_made(alloc, shape, job.count(), machine, out),
        None => unreachable!(),
    }
}
