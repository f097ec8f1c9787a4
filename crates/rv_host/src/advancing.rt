// One event.
ghost use Rattle.std.specs.Prelude.{◌≡◌, ◌==◌, not, ◌+◌, ◌<◌, ◌≤◌, ◌^◌, length, slice_get};
ghost use Rattle.tam_msgs.specs.Messages.{AreLimits};
ghost use Rattle.rv_inst.specs.Harts.{reg};
ghost use Rattle.rv_keep.specs.Hosts.{At_poll};
ghost use Rattle.rv_keep.specs.HostRuns.{at_poll};
ghost use Rattle.rv_host.specs.HostStates.{IsKept};
ghost use Rattle.rv_host.specs.HostEvents.{MakesOf, DeliversAt, Advances, Marks, IsCounted, GoesOn};

use crate::StopRv;
use crate::calls::run_to_poll;
use crate::delivering::deliver;
use crate::host_state::HostState;
use rv_machine::Rv;
use tam_msgs::{Choice, Limits, Order, Step, Stop};

// What the machine is to do behind a poll: run a thread.
const RUN_THREAD: u32 = 1;

/// The machine runs to its next poll, and one event is made there.
///
/// docs/MACHINE.md, "The host".
pub(crate) fn advance(
    state: &mut HostState,
    rv: &mut Rv,
    limits: &Limits,
    order: &mut Order,
    most: u32,
) -> Result<Step, StopRv>
    requires limits { AreLimits limits.now }
    requires kept { IsKept limits.now state.old }
    requires few { rv.old.steps + most < 2 ^ 64 }
    ensures value { Advances most limits.now state.old state.new rv.old rv.new order.old order.new result }
    ensures marks { Marks state.old state.new result }
    ensures kept { IsKept limits.now state.new }
    ensures results { length state.new.printed.items ≡ length state.old.printed.items }
    ensures counted { IsCounted state.old.events state.new.events result }
    ensures steps { rv.new.steps ≤ rv.old.steps + most }
{
    run_to_poll(state, rv, most)?;
    make_event(state, rv, limits, order)
}

// What comes next at a poll is done, unless nothing is left to do or the budget is spent.
fn make_event(
    state: &mut HostState,
    rv: &mut Rv,
    limits: &Limits,
    order: &mut Order,
) -> Result<Step, StopRv>
    requires limits { AreLimits limits.now }
    requires kept { IsKept limits.now state.old }
    ensures value { MakesOf (λ image s. at_poll image limits.now (At_poll s)) state.old state.new rv.old rv.new order.old order.new result }
    ensures marks { Marks state.old state.new result }
    ensures kept { IsKept limits.now state.new }
    ensures results { length state.new.printed.items ≡ length state.old.printed.items }
    ensures counted { IsCounted state.old.events state.new.events result }
    ensures steps { rv.new.steps ≡ rv.old.steps }
{
    let ready = is_ready(rv);
    let pending = state.pending.len();
    if !ready && pending == 0 {
        return Ok(Step::Quiet);
    }
    if state.events == limits.budget {
        return Err(StopRv::Stop(Stop::BudgetSpent {
            events: state.events,
        }));
    }
    match order.choose(ready, pending) {
        Choice::Run => {
            state.events += 1;
            rv.set_reg(10, RUN_THREAD);
            Ok(Step::Ran)
        }
        Choice::Deliver(place) => deliver_at(state, rv, limits, place),
        Choice::Quiet => unreachable!(),
    }
}

// Whether the machine tells at a poll that something is ready.
fn is_ready(rv: &Rv) -> bool
    ensures value { result ≡ not (reg rv.now 10 == 0) }
{
    rv.reg(10) != 0
}

// The message at a place is delivered.
fn deliver_at(
    state: &mut HostState,
    rv: &mut Rv,
    limits: &Limits,
    place: u32,
) -> Result<Step, StopRv>
    requires limits { AreLimits limits.now }
    requires kept { IsKept limits.now state.old }
    requires place { place < length state.old.pending.messages }
    requires events { state.old.events < limits.now.budget }
    ensures value { DeliversAt limits.now place state.old state.new rv.old rv.new result }
    ensures marks { Marks state.old state.new result }
    ensures kept { IsKept limits.now state.new }
    ensures results { length state.new.printed.items ≡ length state.old.printed.items }
    ensures events { state.new.events ≡ state.old.events + 1 }
    ensures steps { rv.new.steps ≡ rv.old.steps }
    ensures goes { GoesOn result }
{
    let message = state.pending.take(place);
    state.events += 1;
    deliver(state, rv, limits, message)
}
