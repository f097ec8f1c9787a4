// The ending behind a run.
ghost use Rattle.std.specs.Prelude.{◌≡◌, ◌≢◌, ℕ, List, Option};
ghost use Rattle.tam_run.specs.Accounts.{Account};
ghost use Rattle.tam_run.specs.HandedOut.{is_whole, is_whole_exec};
ghost use Rattle.tam_run.specs.Writing.{Writes, CountsRun, Executes, CountsExec};
ghost use Rattle.tam_input.specs.declared.ending.Ending.TheVariants.{Done, ResultsMissing};
ghost use Rattle.tam.specs.SaidRuns.{SaysRun};
ghost use Rattle.tam.specs.Machines.{has_answered};
ghost use Rattle.tam.specs.Headline.{IsDone};
ghost use Rattle.tam.specs.Stopping.{AnswersStop};

use crate::say::say_no_memory;
use tam_edge::Sink;
use tam_input::Ending;
use tam_msgs::Stop;
use tam_run::{Exec, Outcome};

/// Answers how the program ends behind a run of code that ended so, and says where memory was wanted.
pub fn answer_exec<K: Sink>(exec: Exec, out: &mut K) -> Ending
    // Whatever the run tells, and whatever was taken before it.
    ensures done { (account : Account) (before : Option (List ℕ)) (faults : ℕ) → Executes account before (K.taken out.old) exec
        → CountsExec faults (K.faults out.old) exec → IsDone (SaysRun account) result before (K.taken out.new) faults (K.faults out.new) }
    ensures answered { has_answered result ≡ is_whole_exec exec }
{
    match exec {
        Exec::Run(outcome) => answer_outcome(outcome, out),
        Exec::Wild | Exec::Trap => Ending::Broken,
    }
}

/// Answers how the program ends behind a run with this outcome, and says where memory was wanted.
pub fn answer_outcome<K: Sink>(outcome: Outcome, out: &mut K) -> Ending
    ensures done { (account : Account) (before : Option (List ℕ)) (faults : ℕ) → Writes account before (K.taken out.old) outcome
        → CountsRun faults (K.faults out.old) outcome → IsDone (SaysRun account) result before (K.taken out.new) faults (K.faults out.new) }
    ensures answered { has_answered result ≡ is_whole outcome }
{
    match outcome {
        Outcome::Quiet { missing } => quiet_ending(missing),
        Outcome::Stopped(stop) => answer_stop(stop, out),
        Outcome::WriteFault => Ending::WriteFault,
    }
}

// How the program ends behind a quiet run with so many results missing.
fn quiet_ending(missing: u32) -> Ending
    ensures none { missing ≡ 0 → result ≡ Done }
    ensures some { missing ≢ 0 → result ≡ ResultsMissing }
{
    if missing == 0 {
        Ending::Done
    } else {
        Ending::ResultsMissing
    }
}

// Answers a run that stopped.
fn answer_stop<K: Sink>(stop: Stop, out: &mut K) -> Ending
    ensures stopped { AnswersStop stop result (K.taken out.old) (K.taken out.new) (K.faults out.old) (K.faults out.new) }
{
    match stop {
        Stop::DoubleWrite { .. } => Ending::DoubleWrite,
        Stop::OutOfRange { .. } => Ending::OutOfRange,
        Stop::FramesFull { .. } => Ending::FramesFull,
        Stop::CellsFull { .. } => Ending::CellsFull,
        Stop::BudgetSpent { .. } => Ending::BudgetSpent,
        Stop::NoMemory => say_no_memory(out),
    }
}
