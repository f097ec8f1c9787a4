// The delivery of a message.
ghost use Rattle.std.specs.Prelude.{◌<◌, ◌≤◌, ◌+◌, ◌^◌, length, OnOk};
ghost use Rattle.tam_istr.specs.Cells.{cells_used};
ghost use Rattle.tam_msgs.specs.Messages.{AreLimits};
ghost use Rattle.tam_world.specs.Effects.{activations_wished, begun_by, fault_of};
ghost use Rattle.tam_eval.specs.Machines.{Grows, Fits};
ghost use Rattle.tam_eval.specs.Waiting.{IsCounted, IsCovered, KeepsCounts};
ghost use Rattle.tam_eval.specs.Events.{IsDelivery, IsStopOf, Delivers, Settles, Refuses};

use crate::machine::Machine;
use crate::steps::{apply, begin, send_answers};
use tam_msgs::{Limits, Message, Step, Stop};
use tam_world::{Delivery, Fault, Program};

// Whether the limits leave room for what a message asks for.
fn has_room(
    program: &Program<'_>,
    machine: &Machine,
    limits: &Limits,
    message: Message,
) -> Result<(), Stop>
    requires limits { AreLimits limits.now }
    requires cells { cells_used machine.now.world.arrays ≤ limits.now.cells }
    requires counted { IsCounted program.now machine.now }
    ensures value { Refuses program.now limits.now machine.now message result }
{
    let world = &machine.world;
    match message {
        Message::Frame { .. } if machine.left.live() == limits.frames as usize => {
            Err(Stop::FramesFull {
                count: limits.frames,
            })
        }
        Message::Cells { len, .. }
            if world.cells_used() + u64::from(len) > u64::from(limits.cells) => {
            Err(Stop::CellsFull {
                used: world.cells_used() as u32,
                len,
            })
        }
        _ => Ok(()),
    }
}

// The stop of an access that found a fault.
fn stop_of(fault: Fault) -> Stop
    ensures value { IsStopOf (fault_of fault) result }
{
    match fault {
        Fault::SecondStore { first, second } => Stop::DoubleWrite { first, second },
        Fault::OutsideCells { site, index, len } => Stop::OutOfRange { site, index, len },
    }
}

// What comes of a delivery is done.
fn settle(program: &Program<'_>, machine: &mut Machine, delivery: Delivery) -> Result<Step, Stop>
    requires few { length machine.old.world.activations < 2 ^ 32 }
    requires covered { IsCovered program.now machine.old }
    ensures outcome { Settles program.now machine.old machine.new delivery result }
    ensures counts { OnOk result (KeepsCounts program.now machine.old machine.new) }
    ensures sizes { Grows machine.old machine.new (begun_by delivery) }
    ensures goes { IsDelivery result }
{
    match delivery {
        Delivery::Went { effect } => {
            apply(program, machine, effect)?;
            Ok(Step::Delivered)
        }
        Delivery::Begins { code, call } => {
            begin(program, machine, code, call)?;
            Ok(Step::Delivered)
        }
        Delivery::Answered { word, readers } => {
            send_answers(&mut machine.pending, word, &readers)?;
            Ok(Step::Delivered)
        }
        Delivery::Printed { place, word } => Ok(Step::Printed { place, word }),
        Delivery::Faulted { fault } => Err(stop_of(fault)),
    }
}

// A message is delivered, unless the limits refuse it.
pub(crate) fn deliver(
    program: &Program<'_>,
    machine: &mut Machine,
    limits: &Limits,
    message: Message,
) -> Result<Step, Stop>
    requires limits { AreLimits limits.now }
    requires made { length machine.old.world.arrays < machine.old.events }
    requires begun { length machine.old.world.activations + activations_wished message ≤ machine.old.events }
    requires events { machine.old.events ≤ limits.now.budget }
    requires cells { cells_used machine.old.world.arrays ≤ limits.now.cells }
    requires counted { IsCounted program.now machine.old }
    ensures outcome { Delivers program.now limits.now machine.old machine.new message result }
    ensures counted { OnOk result (IsCounted program.now machine.new) }
    ensures within { Fits machine.old machine.new limits.now }
    ensures goes { IsDelivery result }
{
    has_room(program, machine, limits, message)?;
    let delivery = machine.world.deliver(message)?;
    settle(program, machine, delivery)
}
