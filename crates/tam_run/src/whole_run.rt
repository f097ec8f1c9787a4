// One run of a graph, from its opening to its text.
ghost use Rattle.std.specs.Prelude.{◌≡◌};
ghost use Rattle.tam_graph.specs.Graphs.{AreArguments};
ghost use Rattle.tam_msgs.specs.Messages.{AreLimits};
ghost use Rattle.tam_eval.specs.GraphRuns.{graph_told};
ghost use Rattle.tl0_code.specs.ThreadRuns.{thread_told};
ghost use Rattle.tl0_keep.specs.Compiled.{compiled};
ghost use Rattle.rv_keep.specs.Image.{image_of};
ghost use Rattle.tam_run.specs.Accounts.{image_account, plain_account};
ghost use Rattle.tam_run.specs.HandedOut.{HandsOut, HandsOutExec};
ghost use Rattle.tam_run.specs.Levels.{account_at};
ghost use Rattle.tam_run.specs.Writing.{Writes, CountsRun, Executes, CountsExec};

use crate::code_run::{run_code, run_image};
use crate::compiling::{compile, compile_image};
use crate::following::follow;
use crate::laws::law_runs;
use crate::{Exec, Level, Outcome};
use rv_machine::Rv;
use std::alloc::Global;
use tam_edge::Sink;
use tam_eval::Eval;
use tam_graph::Accepted;
use tam_msgs::{Limits, Order, Stop};
use tl0_check::Checked0;
use tl0_keep::laws::law_checked;

/// Runs an accepted graph at a level on arguments under an order list, and writes the text of its run, one write for each line. At the level of the
/// machine, where neither want of memory nor a fault of a write broke that off, the machine that was run is handed out.
///
/// docs/FORMATS.md, "The text of a run".
pub fn run<K: Sink>(
    alloc: Global,
    level: Level,
    g: &Accepted,
    args: &[u32],
    order: Order,
    limits: Limits,
    machine: &mut Option<Rv>,
    out: &mut K,
) -> Outcome
    requires arguments { AreArguments g.now args.now }
    requires limits { AreLimits limits }
    ensures text { Writes (account_at level g.now args.now order limits) (K.taken out.old) (K.taken out.new) result }
    ensures counted { CountsRun (K.faults out.old) (K.faults out.new) result }
    ensures machine { HandsOut (account_at level g.now args.now order limits).machine machine.old machine.new result }
{
    law_runs();
    let _graph = g.graph();
    match execute(alloc, level, g, args, order, limits, machine, out) {
        Exec::Run(outcome) => outcome,
        // What a journal bears out isn't wild, and is no trap.
        Exec::Wild => unreachable!(),
        Exec::Trap => unreachable!(),
    }
}

// The run at the level.
fn execute<K: Sink>(
    alloc: Global,
    level: Level,
    g: &Accepted,
    args: &[u32],
    order: Order,
    limits: Limits,
    machine: &mut Option<Rv>,
    out: &mut K,
) -> Exec
    requires arguments { AreArguments g.now args.now }
    requires limits { AreLimits limits }
    ensures text { Executes (account_at level g.now args.now order limits) (K.taken out.old) (K.taken out.new) result }
    ensures counted { CountsExec (K.faults out.old) (K.faults out.new) result }
    ensures machine { HandsOutExec (account_at level g.now args.now order limits).machine machine.old machine.new result }
{
    match level {
        Level::Graph => run_graph(alloc, g, args, order, limits, out),
        Level::Tl0 => run_threads(alloc, g, args, order, limits, out),
        Level::Rv32 => run_machine(alloc, g, args, order, limits, machine, out),
    }
}

// The run vertex by vertex.
fn run_graph<K: Sink>(
    alloc: Global,
    g: &Accepted,
    args: &[u32],
    order: Order,
    limits: Limits,
    out: &mut K,
) -> Exec
    requires arguments { AreArguments g.now args.now }
    requires limits { AreLimits limits }
    ensures text { Executes (plain_account (graph_told g.now args.now order limits)) (K.taken out.old) (K.taken out.new) result }
    ensures counted { CountsExec (K.faults out.old) (K.faults out.new) result }
{
    let results = g.results(g.main());
    match Eval::new(alloc, g, args, limits) {
        Ok(mut eval) => follow(alloc, &mut eval, results, order, out),
        Err(error) => Exec::Run(Outcome::Stopped(Stop::from(error))),
    }
}

// The run thread by thread.
fn run_threads<K: Sink>(
    alloc: Global,
    g: &Accepted,
    args: &[u32],
    order: Order,
    limits: Limits,
    out: &mut K,
) -> Exec
    requires arguments { AreArguments g.now args.now }
    requires limits { AreLimits limits }
    ensures text { Executes (plain_account (thread_told (compiled g.now) args.now order limits)) (K.taken out.old) (K.taken out.new) result }
    ensures counted { CountsExec (K.faults out.old) (K.faults out.new) result }
{
    law_checked();
    let _graph = g.graph();
    match compile(alloc, g) {
        Ok(program) => run_code(alloc, Checked0::of(program), args, order, limits, out),
        Err(error) => Exec::Run(Outcome::Stopped(Stop::from(error))),
    }
}

// The run instruction by instruction.
fn run_machine<K: Sink>(
    alloc: Global,
    g: &Accepted,
    args: &[u32],
    order: Order,
    limits: Limits,
    machine: &mut Option<Rv>,
    out: &mut K,
) -> Exec
    requires arguments { AreArguments g.now args.now }
    requires limits { AreLimits limits }
    ensures text { Executes (image_account (image_of (compiled g.now)) args.now order limits) (K.taken out.old) (K.taken out.new) result }
    ensures counted { CountsExec (K.faults out.old) (K.faults out.new) result }
    ensures machine { HandsOutExec (image_account (image_of (compiled g.now)) args.now order limits).machine machine.old machine.new result }
{
    let _graph = g.graph();
    match compile_image(alloc, g) {
        Ok(image) => run_image(alloc, &image, args, order, limits, machine, out),
        Err(error) => Exec::Run(Outcome::Stopped(Stop::from(error))),
    }
}
