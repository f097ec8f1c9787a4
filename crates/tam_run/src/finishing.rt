// The end of a run: the lines behind its results.
ghost use Rattle.std.specs.Prelude.{◌≡◌, length, filter};
ghost use Rattle.rv_inst.specs.Traps.{trap_text};
ghost use Rattle.tam_word.specs.Lists.{below};
ghost use Rattle.tam_msgs.specs.declared.stop.Stop.TheVariants.{NoMemory};
ghost use Rattle.tam_msgs.specs.Runs.{is_without};
ghost use Rattle.tam_msgs.specs.Runs as Runs;
ghost use Rattle.tam_run.specs.declared.outcome.Outcome.TheVariants as RunOutcome;
ghost use Rattle.tam_run.specs.Accounts.{told_of};
ghost use Rattle.tam_run.specs.Ends.{cause_of};
ghost use Rattle.tam_run.specs.Writing.{outcome_of, Finishes, StopsSo, HaltsSo, CountsRun, CountsExec};

use crate::last_lines::{end_lines, is_printed, quiet_lines, stopped_lines};
use crate::lines::{trap_line, wild_line};
use crate::writing::put_lines;
use crate::{Broken, Cause, Exec, Outcome, Tally};
use rv_inst::TrapCause;
use std::alloc::Global;
use tam_edge::Sink;
use tam_msgs::Stop;

// How many of the results below a number were not printed.
fn missing_count(printed: &[(u32, u32)], results: u32) -> u32
    ensures exact { result ≡ length (filter (is_without printed.now) (below results)) }
{
    let mut count = 0;
    for place in 0..results {
        if !is_printed(printed, place) {
            count += 1;
        }
    }
    count
}

/// What broke a run off, as its outcome.
pub fn outcome_of(broken: Broken) -> Outcome
    ensures value { result ≡ outcome_of broken }
{
    match broken {
        Broken::NoMemory => Outcome::Stopped(Stop::NoMemory),
        Broken::WriteFault => Outcome::WriteFault,
    }
}

/// Writes the lines behind the results of a quiet run.
pub fn finish_quiet<K: Sink>(
    alloc: Global,
    results: u32,
    printed: &[(u32, u32)],
    tally: Tally,
    out: &mut K,
) -> Outcome
    ensures text { Finishes (told_of printed.now Runs.Quiet results tally.counts) tally.instructions (K.taken out.old) (K.taken out.new) result }
    ensures counted { CountsRun (K.faults out.old) (K.faults out.new) result }
{
    match put_lines(quiet_lines(alloc, results, printed, tally), out) {
        Ok(()) => Outcome::Quiet {
            missing: missing_count(printed, results),
        },
        Err(broken) => outcome_of(broken),
    }
}

/// Writes the lines behind the results of a run that stopped, and nothing for want of memory.
pub fn finish_stopped<K: Sink>(alloc: Global, stop: Stop, tally: Tally, out: &mut K) -> Outcome
    ensures text { StopsSo stop tally (K.taken out.old) (K.taken out.new) result }
    ensures no_memory { stop ≡ NoMemory → (result ≡ RunOutcome.Stopped NoMemory) × (K.taken out.new ≡ K.taken out.old) }
    ensures counted { CountsRun (K.faults out.old) (K.faults out.new) result }
{
    if let Stop::NoMemory = stop {
        return Outcome::Stopped(Stop::NoMemory);
    }
    match put_lines(stopped_lines(alloc, stop, tally), out) {
        Ok(()) => Outcome::Stopped(stop),
        Err(broken) => outcome_of(broken),
    }
}

/// Writes the lines behind the results of a run that is wild.
pub fn finish_wild<K: Sink>(
    alloc: Global,
    what: Cause,
    number: u32,
    tally: Tally,
    out: &mut K,
) -> Exec
    ensures text { HaltsSo (Runs.Wild (cause_of what) number) tally (K.taken out.old) (K.taken out.new) result }
    ensures counted { CountsExec (K.faults out.old) (K.faults out.new) result }
{
    match put_lines(end_lines(alloc, wild_line(alloc, what, number), tally), out) {
        Ok(()) => Exec::Wild,
        Err(broken) => Exec::Run(outcome_of(broken)),
    }
}

/// Writes the lines behind the results of a run that traps.
pub fn finish_trap<K: Sink>(
    alloc: Global,
    pc: u32,
    cause: TrapCause,
    tally: Tally,
    out: &mut K,
) -> Exec
    ensures text { HaltsSo (Runs.Trap pc (trap_text cause)) tally (K.taken out.old) (K.taken out.new) result }
    ensures counted { CountsExec (K.faults out.old) (K.faults out.new) result }
{
    match put_lines(end_lines(alloc, trap_line(alloc, pc, cause), tally), out) {
        Ok(()) => Exec::Trap,
        Err(broken) => Exec::Run(outcome_of(broken)),
    }
}
