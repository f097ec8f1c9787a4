// What is answered to a graph's text.
ghost use Rattle.std.specs.Prelude.{◌≡◌, ◌≤◌, true, ℕ, List, length};
ghost use Rattle.tam_graph.specs.Reading.{Reads};
ghost use Rattle.tam_read.specs.Placed.{lines_in};
ghost use Rattle.tam_input.specs.Inputs.{request_of};
ghost use Rattle.tam.specs.GraphAnswers.{Spells, reads_graph};
ghost use Rattle.tam.specs.Answers.{AnswerTo};
ghost use Rattle.tam.specs.Machines.{LeavesMachine, HandsOver};
ghost use Rattle.tam.specs.Headline.{IsDone};

use crate::graph_run::run_graph;
use crate::image_text::{assembly_text, image_file};
use crate::refusal::{check_cause_name, read_cause_name, refused_line};
use crate::say::{say_made, say_no_memory};
use crate::thread_text::thread_text;
use rv_machine::Rv;
use std::alloc::Global;
use tam_check::{CheckError, check};
use tam_edge::Sink;
use tam_graph::Accepted;
use tam_input::Ending;
use tam_list::{print_check, print_parts, print_sets};
use tam_msgs::Order;
use tam_print::print;
use tam_read::{Found, Refused, read};
use tam_run::Level;
use tam_words::{Job, Mode};

/// Answers a graph's text by the job's mode.
pub fn answer_graph_text<K: Sink>(
    alloc: Global,
    text: &[u8],
    job: &Job,
    order: Order,
    machine: &mut Option<Rv>,
    out: &mut K,
) -> Ending
    requires few { length text.now ≤ 1048576 }
    requires graph { reads_graph job.now.mode ≡ true }
    ensures done { IsDone (AnswerTo (request_of job.now order) text.now) result
        (K.taken out.old) (K.taken out.new) (K.faults out.old) (K.faults out.new) }
    ensures machine { HandsOver (LeavesMachine (request_of job.now order) text.now) result machine.old machine.new }
{
    match read(alloc, text) {
        Ok(found) => answer_found(alloc, found, job, order, machine, out),
        Err(Refused::At { line, cause }) => {
            say_made(
                refused_line(alloc, line, read_cause_name(cause)),
                Ending::Refused,
                out,
            )
        }
        Err(Refused::NoMemory) => say_no_memory(out),
    }
}

// Answers a graph that was read.
fn answer_found<K: Sink>(
    alloc: Global,
    found: Found,
    job: &Job,
    order: Order,
    machine: &mut Option<Rv>,
    out: &mut K,
) -> Ending
    requires graph { reads_graph job.now.mode ≡ true }
    ensures done { (bytes : List ℕ) → Reads bytes found.graph → found.lines ≡ lines_in bytes → IsDone (AnswerTo (request_of job.now order) bytes) result
        (K.taken out.old) (K.taken out.new) (K.faults out.old) (K.faults out.new) }
    ensures machine { (bytes : List ℕ) → Reads bytes found.graph → HandsOver (LeavesMachine (request_of job.now order) bytes) result machine.old machine.new }
{
    let Found { graph, lines } = found;
    match check(alloc, graph) {
        Ok(accepted) => answer_accepted(alloc, &accepted, job, order, machine, out),
        Err((_, CheckError::At { place, cause })) => {
            let line = lines.line(place);
            say_made(
                refused_line(alloc, line, check_cause_name(cause)),
                Ending::Refused,
                out,
            )
        }
        Err((_, CheckError::NoMemory)) => say_no_memory(out),
    }
}

// Answers an accepted graph.
fn answer_accepted<K: Sink>(
    alloc: Global,
    graph: &Accepted,
    job: &Job,
    order: Order,
    machine: &mut Option<Rv>,
    out: &mut K,
) -> Ending
    requires graph { reads_graph job.now.mode ≡ true }
    ensures done { (bytes : List ℕ) → Spells bytes graph.now → IsDone (AnswerTo (request_of job.now order) bytes) result
        (K.taken out.old) (K.taken out.new) (K.faults out.old) (K.faults out.new) }
    ensures machine { (bytes : List ℕ) → Spells bytes graph.now → HandsOver (LeavesMachine (request_of job.now order) bytes) result machine.old machine.new }
{
    match job.mode() {
        Mode::Graph => run_graph(alloc, Level::Graph, graph, job, order, machine, out),
        Mode::Tl0 => run_graph(alloc, Level::Tl0, graph, job, order, machine, out),
        Mode::Rv32 => run_graph(alloc, Level::Rv32, graph, job, order, machine, out),
        Mode::Check => say_made(print_check(alloc, graph), Ending::Done, out),
        Mode::EmitDg => say_made(print(alloc, graph.graph()), Ending::Done, out),
        Mode::Sets => say_made(print_sets(alloc, graph), Ending::Done, out),
        Mode::Parts => say_made(print_parts(alloc, graph), Ending::Done, out),
        Mode::EmitTl0 => say_made(thread_text(alloc, graph), Ending::Done, out),
        Mode::EmitAsm => say_made(assembly_text(alloc, graph), Ending::Done, out),
        Mode::EmitImage => say_made(image_file(alloc, graph), Ending::Done, out),
        Mode::Assemble | Mode::ExecTl0 | Mode::ExecRv32 | Mode::Make => unreachable!(),
    }
}
