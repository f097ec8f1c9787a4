// What an event changes in a journal's state.
ghost use Rattle.std.specs.Prelude.{◌≡◌, ◌<◌, ◌++◌, ◌∷◌, [], length, map, OnOk};
ghost use Rattle.tam_istr.specs.CellAnswers.{reader_pair};
ghost use Rattle.tam_msgs.specs.Messages.{answers};
ghost use Rattle.tam_world.specs.Worlds.{delivered, sends_only};
ghost use Rattle.tam_world.specs.Effects.{effect_in, delivery_in, with_begun};
ghost use Rattle.tam_judge.specs.Machines.{HasEffect, Settles};

use crate::machine::Machine;
use tam_edge::NoMemory;
use tam_istr::Reader;
use tam_msgs::Message;
use tam_world::{Delivery, Effect, NodeAt};

// What a firing or a delivery says is done.
pub(crate) fn apply(machine: &mut Machine, effect: Effect) -> Result<(), NoMemory>
    ensures ok { HasEffect machine.old machine.new (λ w. effect_in w effect) result }
{
    match effect {
        Effect::Nothing => {}
        Effect::Gives { at, word } => machine.world.give(at, word)?,
        Effect::Enters { activation, block } => machine.world.enter(activation, block)?,
        Effect::Sends { message } => machine.sent.push(message)?,
    }
    Ok(())
}

// An activation begins, and its number goes to the call.
fn begin(machine: &mut Machine, code: u32, call: NodeAt) -> Result<(), NoMemory>
    requires few { length machine.old.world.activations < 4294967295 }
    ensures ok { HasEffect machine.old machine.new (λ w. sends_only (with_begun w code call.activation call.node) (Message.Word call.activation call.node
        (length w.activations) ∷ [])) result }
{
    let word = machine.world.activations() as u32;
    machine.world.begin(code, call)?;
    machine.sent.push(Message::Word {
        frame: call.activation,
        inlet: call.node,
        word,
    })?;
    Ok(())
}

// The word of a cell goes to those who waited for it.
fn send_answers(sent: &mut Vec<Message>, word: u32, readers: &[Reader]) -> Result<(), NoMemory>
    ensures ok { OnOk result (sent.new.items ≡ sent.old.items ++ answers word (map reader_pair readers.now)) }
{
    for reader in readers {
        sent.push(Message::Word {
            frame: reader.frame,
            inlet: reader.inlet,
            word,
        })?;
    }
    Ok(())
}

// What comes of a delivery that the world has made is done.
fn settle(machine: &mut Machine, delivery: Delivery) -> Result<(), NoMemory>
    requires few { length machine.old.world.activations < 4294967295 }
    ensures ok { Settles machine.old machine.new (λ w. delivery_in w delivery) result }
{
    match delivery {
        Delivery::Went { effect } => apply(machine, effect),
        Delivery::Begins { code, call } => begin(machine, code, call),
        Delivery::Answered { word, readers } => send_answers(&mut machine.sent, word, &readers),
        Delivery::Printed { place, word } => {
            machine.printed.push((place, word))?;
            Ok(())
        }
        Delivery::Faulted { fault } => {
            machine.fault = Some(fault);
            Ok(())
        }
    }
}

// A message is delivered.
pub(crate) fn deliver(machine: &mut Machine, message: Message) -> Result<(), NoMemory>
    requires activations { length machine.old.world.activations < 4294967295 }
    requires arrays { length machine.old.world.arrays < 4294967295 }
    ensures ok { Settles machine.old machine.new (λ w. delivered w message) result }
{
    let delivery = machine.world.deliver(message)?;
    settle(machine, delivery)
}
