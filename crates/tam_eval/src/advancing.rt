// One event.
ghost use Rattle.std.specs.Prelude.{ℕ, List, ◌≡◌, ◌+◌, ◌-◌, ◌<◌, ◌≤◌, ◌^◌, length, slice_get, OnOk};
ghost use Rattle.tam_msgs.specs.Messages.{AreLimits};
ghost use Rattle.tam_msgs.specs.declared.item.Item.{Item};
ghost use Rattle.tam_eval.specs.GraphRuns.{fired_first, delivered_at, counted, graph_step};
ghost use Rattle.tam_eval.specs.Machines.{state_of, CountsEvent, IsWithinLimits};
ghost use Rattle.tam_eval.specs.Waiting.{IsCounted};
ghost use Rattle.tam_eval.specs.Events.{state_with, IsOutcome, IsRun, IsDelivery, IsAnswerOf, next_choice};
ghost use Rattle.tam_eval.specs.Events.{LeavesAtQuiet, Delivers, FiresFirst, DeliversAt, Advances};

use crate::delivering::deliver;
use crate::machine::Machine;
use crate::steps::apply;
use tam_msgs::{Choice, Limits, Order, Step, Stop};
use tam_world::{Program, firing};

// The vertex that became ready first fires.
fn run_first(program: &Program<'_>, machine: &mut Machine) -> Result<Step, Stop>
    requires ready { 0 < length machine.old.ready.items }
    requires events { machine.old.events < 2 ^ 32 - 1 }
    requires counted { IsCounted program.now machine.old }
    ensures outcome { FiresFirst program.now machine.old machine.new result }
    ensures counted { OnOk result (IsCounted program.now machine.new) }
    ensures sizes { CountsEvent machine.old machine.new }
    ensures goes { IsRun result }
{
    let Some(at) = machine.ready.pop_front() else {
        unreachable!();
    };
    machine.events += 1;
    let effect = firing(program, &machine.world, at);
    apply(program, machine, effect)?;
    machine.left.less(at.activation);
    Ok(Step::Ran)
}

// The message at a place is delivered.
fn deliver_at(
    program: &Program<'_>,
    machine: &mut Machine,
    limits: &Limits,
    place: u32,
) -> Result<Step, Stop>
    requires limits { AreLimits limits.now }
    requires within { IsWithinLimits machine.old limits.now }
    requires place { place < length machine.old.pending.messages }
    requires events { machine.old.events < limits.now.budget }
    requires counted { IsCounted program.now machine.old }
    ensures outcome { DeliversAt program.now limits.now machine.old machine.new place result }
    ensures counted { OnOk result (IsCounted program.now machine.new) }
    ensures within { IsWithinLimits machine.new limits.now }
    ensures goes { IsDelivery result }
{
    let message = machine.pending.take(place);
    machine.events += 1;
    deliver(program, machine, limits, message)
}

// What comes next is done, unless nothing is left to do or the budget is spent.
pub(crate) fn advance(
    program: &Program<'_>,
    machine: &mut Machine,
    limits: &Limits,
    order: &mut Order,
) -> Result<Step, Stop>
    requires limits { AreLimits limits.now }
    requires within { IsWithinLimits machine.old limits.now }
    requires counted { IsCounted program.now machine.old }
    ensures outcome { Advances program.now limits.now machine.old machine.new order.old order.new result }
    ensures chosen { IsAnswerOf (next_choice (state_of machine.old) order.old) result }
    ensures quiet { LeavesAtQuiet (state_of machine.old) (state_of machine.new) order.old order.new result }
    ensures counted { OnOk result (IsCounted program.now machine.new) }
    ensures within { IsWithinLimits machine.new limits.now }
{
    let ready = !machine.ready.is_empty();
    let pending = machine.pending.len();
    if !ready && pending == 0 {
        return Ok(Step::Quiet);
    }
    let budget = limits.budget;
    if machine.events == budget {
        return Err(Stop::BudgetSpent {
            events: machine.events,
        });
    }
    match order.choose(ready, pending) {
        Choice::Run => run_first(program, machine),
        Choice::Deliver(place) => deliver_at(program, machine, limits, place),
        Choice::Quiet => unreachable!(),
    }
}
