// A large input: it is made, and run at each level.
ghost use Rattle.std.specs.Prelude.{◌≡◌, ◌≢◌, [], ◌∷◌, ◌⊎◌, true, length, IfOk};
ghost use Rattle.tam_graph.specs.Graphs.{code_of, params_of};
ghost use Rattle.tam_graph.specs.Reading.{Reads};
ghost use Rattle.tam_graph.specs.Accepted.{IsAccepted};
ghost use Rattle.tam_make.specs.MadeTexts.{IsCount, made_text};
ghost use Rattle.tam_msgs.specs.Messages.{AreLimits};
ghost use Rattle.tam_msgs.specs.Runs.{joined};
ghost use Rattle.tam_run.specs.declared.level.Level.TheVariants.{Rv32};
ghost use Rattle.tam_run.specs.HandedOut.{handed_out};
ghost use Rattle.tam_words.specs.Options.{usual_limits};
ghost use Rattle.tam_input.specs.declared.ending.Ending.TheVariants.{NoMemory, WriteFault};
ghost use Rattle.tam.specs.SaidRuns.{ending_of};
ghost use Rattle.tam.specs.MadeRuns.{argument_of, first_ending, head_lines, level_line, level_lines, levels_ending, run_lines};
ghost use Rattle.tam.specs.MadeRuns.{made_run, made_lines, made_ending, SaysLines, SaysMade};
ghost use Rattle.tam.specs.Machines.{has_answered, HandsMade, BehindLevels};
ghost use Rattle.tam.specs.Headline.{IsDone};

use crate::graph_run::run_at;
use crate::refusal::push_number;
use crate::say::say_no_memory;
use rv_machine::Rv;
use std::alloc::{AllocError, Global};
use tam_check::{CheckError, check};
use tam_edge::{Sink, write_whole};
use tam_graph::{Accepted, Graph};
use tam_input::Ending;
use tam_make::laws::law_made;
use tam_make::{Shape, make};
use tam_msgs::{Limits, Order};
use tam_read::{Refused, read};
use tam_run::Level;
use tam_words::shape_name;

/// The levels at which a large input is run, in their order.
const LEVELS: [Level; 3] = [Level::Graph, Level::Tl0, Level::Rv32];

/// Makes a large input and runs it at each level.
///
/// docs/FORMATS.md, "The text of a large input".
pub fn answer_made<K: Sink>(
    alloc: Global,
    shape: Shape,
    n: u32,
    machine: &mut Option<Rv>,
    out: &mut K,
) -> Ending
    requires in_range { IsCount shape n }
    ensures done { IsDone (SaysMade shape n) result (K.taken out.old) (K.taken out.new) (K.faults out.old) (K.faults out.new) }
    ensures machine { HandsMade shape n result machine.old machine.new }
{
    law_made();
    match make(alloc, shape, n) {
        Ok(text) => answer_made_text(alloc, shape, n, &text, machine, out),
        Err(_) => say_no_memory(out),
    }
}

// Reads the text that was made, and runs its graph.
fn answer_made_text<K: Sink>(
    alloc: Global,
    shape: Shape,
    n: u32,
    text: &[u8],
    machine: &mut Option<Rv>,
    out: &mut K,
) -> Ending
    requires in_range { IsCount shape n }
    requires made { text.now ≡ made_text shape n }
    ensures done { IsDone (SaysMade shape n) result (K.taken out.old) (K.taken out.new) (K.faults out.old) (K.faults out.new) }
    ensures machine { HandsMade shape n result machine.old machine.new }
{
    law_made();
    match read(alloc, text) {
        Ok(found) => answer_made_graph(
            alloc,
            shape,
            n,
            text.len() as u32,
            found.graph,
            machine,
            out,
        ),
        Err(Refused::NoMemory) => say_no_memory(out),
        Err(Refused::At { .. }) => unreachable!(),
    }
}

// Checks the graph of the text, which has so many bytes, and runs it.
fn answer_made_graph<K: Sink>(
    alloc: Global,
    shape: Shape,
    n: u32,
    len: u32,
    graph: Graph,
    machine: &mut Option<Rv>,
    out: &mut K,
) -> Ending
    requires in_range { IsCount shape n }
    requires len { len ≡ length (made_text shape n) }
    requires reads { Reads (made_text shape n) graph }
    requires accepted { IsAccepted graph }
    requires one_param { params_of (code_of graph graph.main) ≡ 1 }
    ensures done { IsDone (SaysMade shape n) result (K.taken out.old) (K.taken out.new) (K.faults out.old) (K.faults out.new) }
    ensures machine { machine.new ≡ handed_out (has_answered result) (made_run shape n graph Rv32).machine machine.old }
{
    match check(alloc, graph) {
        Ok(accepted) => run_made(alloc, shape, n, len, &accepted, machine, out),
        Err((_, CheckError::NoMemory)) => say_no_memory(out),
        Err((_, CheckError::At { .. })) => unreachable!(),
    }
}

// Writes the head, and runs the graph at each level.
fn run_made<K: Sink>(
    alloc: Global,
    shape: Shape,
    n: u32,
    len: u32,
    graph: &Accepted,
    machine: &mut Option<Rv>,
    out: &mut K,
) -> Ending
    requires in_range { IsCount shape n }
    requires len { len ≡ length (made_text shape n) }
    requires one_param { params_of (code_of graph.now graph.now.main) ≡ 1 }
    ensures done { IsDone (SaysLines (made_lines shape n graph.now) (made_ending shape n graph.now)) result
        (K.taken out.old) (K.taken out.new) (K.faults out.old) (K.faults out.new) }
    ensures machine { machine.new ≡ handed_out (has_answered result) (made_run shape n graph.now Rv32).machine machine.old }
{
    match head(alloc, shape, n, len) {
        Ok(head) => match write_whole(out, &head) {
            Ok(()) => run_levels(alloc, shape, n, graph, &LEVELS, machine, out),
            Err(_) => Ending::WriteFault,
        },
        Err(_) => say_no_memory(out),
    }
}

// The lines before the first level.
fn head(alloc: Global, shape: Shape, n: u32, len: u32) -> Result<Vec<u8>, AllocError>
    requires len { len ≡ length (made_text shape n) }
    ensures value { IfOk result (λ text. text.items ≡ joined (head_lines shape n)) }
{
    let mut text = Vec::from_slice(alloc, b"shape ")?;
    text.extend_from_slice(shape_name(shape))?;
    text.extend_from_slice(b" ")?;
    push_number(&mut text, n)?;
    text.extend_from_slice(b"\nbytes ")?;
    push_number(&mut text, len)?;
    text.extend_from_slice(b"\n")?;
    Ok(text)
}

// Runs the graph at some levels, up to one at which a write fails or memory is wanted. The first ending that isn't success is answered.
fn run_levels<K: Sink>(
    alloc: Global,
    shape: Shape,
    n: u32,
    graph: &Accepted,
    levels: &[Level],
    machine: &mut Option<Rv>,
    out: &mut K,
) -> Ending
    requires in_range { IsCount shape n }
    requires one_param { params_of (code_of graph.now graph.now.main) ≡ 1 }
    ensures done { IsDone (SaysLines (level_lines (made_run shape n graph.now) levels.now) (levels_ending (made_run shape n graph.now) levels.now)) result
        (K.taken out.old) (K.taken out.new) (K.faults out.old) (K.faults out.new) }
    ensures machine { BehindLevels (made_run shape n graph.now) levels.now result machine.old machine.new }
{
    let mut first = Ending::Done;
    for level in levels {
        let ending = run_level(alloc, shape, n, graph, *level, machine, out);
        if breaks_off(ending) {
            return ending;
        }
        first = earlier(first, ending);
    }
    first
}

// Whether no further level is run.
fn breaks_off(ending: Ending) -> bool
    ensures broken { result ≡ true → (ending ≡ NoMemory) ⊎ (ending ≡ WriteFault) }
    ensures not_out { ending ≡ NoMemory → result ≡ true }
    ensures not_broken { ending ≡ WriteFault → result ≡ true }
{
    match ending {
        Ending::NoMemory | Ending::WriteFault => true,
        _ => false,
    }
}

// The first of two endings that isn't success.
fn earlier(first: Ending, second: Ending) -> Ending
    ensures value { result ≡ first_ending (first ∷ second ∷ []) }
{
    if first.code() == 0 { second } else { first }
}

// Writes the line of a level, and runs the graph at it.
fn run_level<K: Sink>(
    alloc: Global,
    shape: Shape,
    n: u32,
    graph: &Accepted,
    level: Level,
    machine: &mut Option<Rv>,
    out: &mut K,
) -> Ending
    requires in_range { IsCount shape n }
    requires one_param { params_of (code_of graph.now graph.now.main) ≡ 1 }
    ensures done { IsDone (SaysLines (level_line level ∷ run_lines (made_run shape n graph.now level))
        (ending_of (made_run shape n graph.now level).report)) result
        (K.taken out.old) (K.taken out.new) (K.faults out.old) (K.faults out.new) }
    ensures machine { machine.new ≡ handed_out (has_answered result) (made_run shape n graph.now level).machine machine.old }
{
    match write_whole(out, level_line(level)) {
        Ok(()) => {
            let args = [argument_of(shape, n)];
            let order = Order::none(alloc);
            run_at(
                alloc,
                level,
                graph,
                &args,
                order,
                usual_limits(),
                machine,
                out,
            )
        }
        Err(_) => Ending::WriteFault,
    }
}

// The line that begins a level.
fn level_line(level: Level) -> &'static [u8]
    ensures value { result.now ≡ level_line level }
{
    match level {
        Level::Graph => b"level graph\n",
        Level::Tl0 => b"level tl0\n",
        Level::Rv32 => b"level rv32\n",
    }
}

// The argument of a large input's `main`.
fn argument_of(shape: Shape, n: u32) -> u32
    ensures value { result ≡ argument_of shape n }
{
    match shape {
        Shape::Ladder => 0,
        Shape::Wave => n,
    }
}

// The limits of its runs.
fn usual_limits() -> Limits
    ensures value { result ≡ usual_limits }
    ensures in_range { AreLimits result }
{
    Limits {
        budget: 1_000_000,
        frames: 4096,
        cells: 1_048_576,
    }
}
