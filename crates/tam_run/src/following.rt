// A run from its opening to its text.
ghost use Rattle.std.specs.Prelude.{◌≡◌, []};
ghost use Rattle.tam_run.specs.Accounts.{Account};
ghost use Rattle.tam_run.specs.HandedOut.{Leaves};
ghost use Rattle.tam_run.specs.Writing.{Executes, CountsExec};

use crate::finishing::{finish_quiet, finish_stopped, finish_trap, finish_wild, outcome_of};
use crate::level_run::LevelRun;
use crate::writing::print_result;
use crate::{Exec, Halt};
use std::alloc::Global;
use tam_edge::Sink;
use tam_msgs::{Order, Step};

/// Makes the events of a run, and writes its text, one write for each line.
pub fn follow<M: LevelRun, K: Sink>(
    alloc: Global,
    run: &mut M,
    results: u32,
    order: Order,
    out: &mut K,
) -> Exec
    requires begun { (a : Account) × M.tells run.old order [] a }
    requires results { (a : Account) → M.tells run.old order [] a → a.report.results ≡ results }
    ensures text { (a : Account) → M.tells run.old order [] a → Executes a (K.taken out.old) (K.taken out.new) result }
    ensures counted { CountsExec (K.faults out.old) (K.faults out.new) result }
    ensures machine { (a : Account) → M.tells run.old order [] a → Leaves a.machine (M.stand run.new).machine result }
{
    let mut printed = Vec::new(alloc);
    let mut order = order;
    'events: loop {
        match run.advance(&mut order) {
            Ok(Step::Ran) => {}
            Ok(Step::Delivered) => {}
            Ok(Step::Printed { place, word }) => {
                if let Err(broken) = print_result(alloc, &mut printed, place, word, out) {
                    return Exec::Run(outcome_of(broken));
                }
            }
            Ok(Step::Quiet) => {
                return Exec::Run(finish_quiet(alloc, results, &printed, run.tally(), out));
            }
            Err(Halt::Stop(stop)) => {
                return Exec::Run(finish_stopped(alloc, stop, run.tally(), out));
            }
            Err(Halt::Wild { what, number }) => {
                return finish_wild(alloc, what, number, run.tally(), out);
            }
            Err(Halt::Trap { pc, cause }) => {
                return finish_trap(alloc, pc, cause, run.tally(), out);
            }
        }
    }
}
