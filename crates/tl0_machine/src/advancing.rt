// One event.
ghost use Rattle.std.specs.Prelude.{ℕ, List, ◌≡◌, ◌+◌, ◌<◌, ◌≤◌, length, slice_get, IsTrue};
ghost use Rattle.tam_msgs.specs.Messages.{AreLimits};
ghost use Rattle.frame_tables.specs.FrameTables.{is_ready, next_thread};
ghost use Rattle.tl0_code.specs.Machines.{Giving};
ghost use Rattle.tl0_code.specs.ThreadRuns.{run_next, delivered_at};
ghost use Rattle.tl0_machine.specs.ThreadStates.{state_of, IsKept, HasFewBegun};
ghost use Rattle.tl0_machine.specs.ThreadEvents.{Counted, Advances, Marks, IsRun, IsDelivery, IsAnswerOf, next_choice, LeavesAtQuiet};
ghost use Rattle.tl0_machine.specs.QuickEvents.{WantsNothing, is_light_at, runs_silent, is_quick};

use crate::Stop0;
use crate::code_table::CodeTable;
use crate::delivering::deliver;
use crate::thread_state::{ThreadState, code_at};
use crate::threads::run_thread;
use tam_msgs::{Choice, Limits, Order, Step, Stop};

// The next thread runs to its stop.
fn run_next(state: &mut ThreadState, table: &CodeTable, limits: &Limits) -> Result<Step, Stop0>
    requires limits { AreLimits limits.now }
    requires kept { IsKept table.now limits.now state.old }
    requires few { HasFewBegun state.old }
    requires ready { IsTrue (is_ready state.old.frames.table) }
    requires events { state.old.events < limits.now.budget }
    ensures value { Counted (run_next Giving table.now) state.old state.new result }
    ensures marks { Marks state.old state.new result }
    ensures kept { IsKept table.now limits.now state.new }
    ensures begun { state.new.begun ≤ state.new.events }
    ensures goes { IsRun result }
    ensures quick { IsTrue (runs_silent table.now state.old.codes.items (next_thread state.old.frames.table).0) → WantsNothing result }
{
    let Some((f, thread)) = state.frames.next_thread() else {
        unreachable!();
    };
    state.events += 1;
    let code = code_at(&state.codes, f);
    run_thread(state, f, table.instrs(code, thread))?;
    Ok(Step::Ran)
}

// The message at a place is delivered.
fn deliver_at(
    state: &mut ThreadState,
    table: &CodeTable,
    limits: &Limits,
    place: u32,
) -> Result<Step, Stop0>
    requires limits { AreLimits limits.now }
    requires kept { IsKept table.now limits.now state.old }
    requires few { HasFewBegun state.old }
    requires place { place < length state.old.pending.messages }
    requires events { state.old.events < limits.now.budget }
    ensures value { Counted (λ m. delivered_at Giving table.now limits.now m place (slice_get state.old.pending.messages place)) state.old state.new result }
    ensures marks { Marks state.old state.new result }
    ensures kept { IsKept table.now limits.now state.new }
    ensures begun { state.new.begun ≤ state.new.events }
    ensures goes { IsDelivery result }
    ensures quick { IsTrue (is_light_at state.old.cells (slice_get state.old.pending.messages place)) → WantsNothing result }
{
    let message = state.pending.take(place);
    state.events += 1;
    deliver(state, table, limits, message)
}

/// What comes next is done, unless nothing is left to do or the budget is spent.
///
/// docs/THREADS.md, "Runs of threads".
pub(crate) fn advance(
    state: &mut ThreadState,
    table: &CodeTable,
    limits: &Limits,
    order: &mut Order,
) -> Result<Step, Stop0>
    requires limits { AreLimits limits.now }
    requires kept { IsKept table.now limits.now state.old }
    requires few { HasFewBegun state.old }
    ensures value { Advances table.now limits.now state.old state.new order.old order.new result }
    ensures marks { Marks state.old state.new result }
    ensures chosen { IsAnswerOf (next_choice (state_of state.old) order.old) result }
    ensures quiet { LeavesAtQuiet (state_of state.old) (state_of state.new) order.old order.new result }
    ensures kept { IsKept table.now limits.now state.new }
    ensures few { HasFewBegun state.new }
    ensures quick { IsTrue (is_quick table.now (state_of state.old) (next_choice (state_of state.old) order.old)) → WantsNothing result }
{
    let ready = state.frames.ready();
    let pending = state.pending.len();
    if !ready && pending == 0 {
        return Ok(Step::Quiet);
    }
    if state.events == limits.budget {
        return Err(Stop0::Stop(Stop::BudgetSpent {
            events: state.events,
        }));
    }
    match order.choose(ready, pending) {
        Choice::Run => run_next(state, table, limits),
        Choice::Deliver(place) => deliver_at(state, table, limits, place),
        Choice::Quiet => unreachable!(),
    }
}
