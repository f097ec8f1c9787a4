// The run of an accepted graph.
ghost use Rattle.std.specs.Prelude.{◌≡◌, ℕ, List, Some};
ghost use Rattle.tam_graph.specs.Graphs.{AreArguments};
ghost use Rattle.tam_msgs.specs.Messages.{AreLimits};
ghost use Rattle.tam_run.specs.HandedOut.{handed_out};
ghost use Rattle.tam_run.specs.Levels.{account_at, machine_at};
ghost use Rattle.tam_input.specs.Inputs.{request_of};
ghost use Rattle.tam.specs.GraphAnswers.{Spells, level_of};
ghost use Rattle.tam.specs.Answers.{AnswerTo};
ghost use Rattle.tam.specs.SaidRuns.{SaysRun};
ghost use Rattle.tam.specs.Machines.{has_answered, LeavesMachine, HandsOver};
ghost use Rattle.tam.specs.Headline.{IsDone};

use crate::outcome::answer_outcome;
use crate::say::say;
use rv_machine::Rv;
use std::alloc::Global;
use tam_edge::Sink;
use tam_graph::Accepted;
use tam_input::Ending;
use tam_msgs::{Limits, Order};
use tam_run::{Level, run};
use tam_words::Job;

/// Runs an accepted graph at the level of the job's mode, on its arguments and within its limits.
pub fn run_graph<K: Sink>(
    alloc: Global,
    level: Level,
    graph: &Accepted,
    job: &Job,
    order: Order,
    machine: &mut Option<Rv>,
    out: &mut K,
) -> Ending
    requires mode { level_of job.now.mode ≡ Some level }
    ensures done { (bytes : List ℕ) → Spells bytes graph.now → IsDone (AnswerTo (request_of job.now order) bytes) result
        (K.taken out.old) (K.taken out.new) (K.faults out.old) (K.faults out.new) }
    ensures machine { (bytes : List ℕ) → Spells bytes graph.now → HandsOver (LeavesMachine (request_of job.now order) bytes) result machine.old machine.new }
{
    let args = job.args();
    if args.len() != graph.params(graph.main()) as usize {
        return say(b"usage ArgsCount\n", Ending::Usage, out);
    }
    run_at(alloc, level, graph, args, order, job.limits(), machine, out)
}

/// Runs an accepted graph at a level, and answers how the program ends.
pub fn run_at<K: Sink>(
    alloc: Global,
    level: Level,
    graph: &Accepted,
    args: &[u32],
    order: Order,
    limits: Limits,
    machine: &mut Option<Rv>,
    out: &mut K,
) -> Ending
    requires arguments { AreArguments graph.now args.now }
    requires limits { AreLimits limits }
    ensures done { IsDone (SaysRun (account_at level graph.now args.now order limits)) result
        (K.taken out.old) (K.taken out.new) (K.faults out.old) (K.faults out.new) }
    ensures machine { machine.new ≡ handed_out (has_answered result) (machine_at level graph.now args.now order limits) machine.old }
{
    let outcome = run(alloc, level, graph, args, order, limits, machine, out);
    answer_outcome(outcome, out)
}
