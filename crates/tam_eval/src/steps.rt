// What an event changes in a run.
ghost use Rattle.std.specs.Prelude.{◌≡◌, ◌+◌, ◌<◌, ◌≤◌, ◌^◌, ◌++◌, ◌∷◌, [], not, count_by, filter, length, map, OnOk};
ghost use Rattle.tam_istr.specs.CellAnswers.{reader_pair};
ghost use Rattle.tam_msgs.specs.Messages.{answers};
ghost use Rattle.tam_world.specs.Worlds.{got, entered, has_word, changes, sends_only};
ghost use Rattle.tam_world.specs.Kept.{pairs_of};
ghost use Rattle.tam_world.specs.Effects.{effect_in, with_begun};
ghost use Rattle.tam_eval.specs.GraphRuns.{is_enabled};
ghost use Rattle.tam_eval.specs.Machines.{sizes_of, Grows};
ghost use Rattle.tam_eval.specs.Effects.{HasEffect};
ghost use Rattle.tam_eval.specs.Waiting.{IsCovered, KeepsCounts};

use crate::machine::{Machine, ready_among};
use crate::standing::Standing;
use std::alloc::AllocError;
use std::collections::VecDeque;
use tam_edge::NoMemory;
use tam_istr::Reader;
use tam_msgs::{Message, Pending};
use tam_world::nodes::nodes_of;
use tam_world::{Effect, NodeAt, Program, World};

// A node gets a word, and those of its takers become ready that may fire now.
#[inline(always)]
fn give_word(
    program: &Program<'_>,
    machine: &mut Machine,
    at: NodeAt,
    word: u32,
) -> Result<(), NoMemory>
    requires covered { IsCovered program.now machine.old }
    ensures value { HasEffect program.now machine.old machine.new (λ w. changes (got w at.activation at.node word)) result }
    ensures counts { OnOk result (KeepsCounts program.now machine.old machine.new) }
    ensures sizes { sizes_of machine.new ≡ sizes_of machine.old }
{
    let had = machine.world.has_word(at.activation, at.node);
    machine.world.give(at, word)?;
    if had {
        return Ok(());
    }
    let standing = Standing::of(program, &machine.world, at.activation);
    let awaited = standing.is_awaited(program, at.node);
    let takers = program.takers(standing.code, at.node);
    ready_among(&standing, &mut machine.ready, at.activation, takers)?;
    if awaited {
        machine.left.less(at.activation);
    }
    Ok(())
}

// A block is entered, and those of its nodes become ready that may fire now.
fn enter_block(
    program: &Program<'_>,
    machine: &mut Machine,
    i: u32,
    block: u32,
) -> Result<(), NoMemory>
    requires covered { IsCovered program.now machine.old }
    ensures value { HasEffect program.now machine.old machine.new (λ w. changes (entered w i block)) result }
    ensures counts { OnOk result (KeepsCounts program.now machine.old machine.new) }
    ensures sizes { sizes_of machine.new ≡ sizes_of machine.old }
{
    let had = machine.world.has_entered(i, block);
    let code = machine.world.code_at(i);
    machine.world.enter(i, block)?;
    if had {
        return Ok(());
    }
    let firers = program.firers(code, block);
    ready_at(program, &machine.world, &mut machine.ready, i, firers)?;
    let empty = empty_among(&machine.world, i, program.block_inlets(code, block));
    machine.left.more(i, firers.len() + empty);
    Ok(())
}

// Those of an activation's nodes that may fire become ready.
fn ready_at(
    program: &Program<'_>,
    world: &World,
    ready: &mut VecDeque<NodeAt>,
    i: u32,
    nodes: &[u32],
) -> Result<(), AllocError>
    ensures ok { OnOk result (pairs_of ready.new.items ≡ pairs_of ready.old.items
        ++ map (λ x. (i, x)) (filter (is_enabled program.now world.now i) nodes.now)) }
{
    let standing = Standing::of(program, world, i);
    ready_among(&standing, ready, i, nodes)
}

// How many of the nodes have no word.
fn empty_among(world: &World, i: u32, nodes: &[u32]) -> usize
    ensures value { result ≡ count_by (λ x. not (has_word world.now i x)) nodes.now }
    ensures few { result ≤ length nodes.now }
{
    let mut count = 0;
    for node in nodes {
        if !world.has_word(i, *node) {
            count += 1;
        }
    }
    count
}

// A message is sent.
#[inline(always)]
fn send(pending: &mut Pending, message: Message) -> Result<(), NoMemory>
    ensures ok { OnOk result (pending.new.messages ≡ pending.old.messages ++ message ∷ []) }
{
    match pending.send(message) {
        Ok(()) => Ok(()),
        Err((_, error)) => Err(error),
    }
}

// Messages are sent, in order.
pub(crate) fn send_all(pending: &mut Pending, messages: &[Message]) -> Result<(), NoMemory>
    ensures ok { OnOk result (pending.new.messages ≡ pending.old.messages ++ messages.now) }
{
    for message in messages {
        send(pending, *message)?;
    }
    Ok(())
}

// The word of a cell goes to those who waited for it.
pub(crate) fn send_answers(
    pending: &mut Pending,
    word: u32,
    readers: &[Reader],
) -> Result<(), NoMemory>
    ensures ok { OnOk result (pending.new.messages ≡ pending.old.messages ++ answers word (map reader_pair readers.now)) }
{
    for reader in readers {
        let message = Message::Word {
            frame: reader.frame,
            inlet: reader.inlet,
            word,
        };
        send(pending, message)?;
    }
    Ok(())
}

// All the nodes become ready.
pub(crate) fn ready_all(
    ready: &mut VecDeque<NodeAt>,
    i: u32,
    nodes: &[u32],
) -> Result<(), AllocError>
    ensures ok { OnOk result (pairs_of ready.new.items ≡ pairs_of ready.old.items ++ map (λ x. (i, x)) nodes.now) }
{
    for node in nodes {
        ready.push_back(NodeAt {
            activation: i,
            node: *node,
        })?;
    }
    Ok(())
}

// An activation begins, and its number goes to the call.
pub(crate) fn begin(
    program: &Program<'_>,
    machine: &mut Machine,
    code: u32,
    call: NodeAt,
) -> Result<(), NoMemory>
    requires few { length machine.old.world.activations < 2 ^ 32 }
    requires covered { IsCovered program.now machine.old }
    ensures value { HasEffect program.now machine.old machine.new (λ w. sends_only (with_begun w code call.activation call.node) (Message.Word call.activation
        call.node (length w.activations) ∷ [])) result }
    ensures counts { OnOk result (KeepsCounts program.now machine.old machine.new) }
    ensures grows { Grows machine.old machine.new 1 }
{
    let word = machine.world.activations() as u32;
    let nodes = nodes_of(program.graph(), code).len();
    machine.world.begin_with_room(code, call, nodes)?;
    ready_all(&mut machine.ready, word, program.starters(code))?;
    let count = program.firers(code, 0).len() + program.block_inlets(code, 0).len();
    machine.left.begin(count)?;
    send(
        &mut machine.pending,
        Message::Word {
            frame: call.activation,
            inlet: call.node,
            word,
        },
    )
}

// What a firing or a delivery says is done.
#[inline(always)]
pub(crate) fn apply(
    program: &Program<'_>,
    machine: &mut Machine,
    effect: Effect,
) -> Result<(), NoMemory>
    requires covered { IsCovered program.now machine.old }
    ensures value { HasEffect program.now machine.old machine.new (λ w. effect_in w effect) result }
    ensures counts { OnOk result (KeepsCounts program.now machine.old machine.new) }
    ensures sizes { sizes_of machine.new ≡ sizes_of machine.old }
{
    match effect {
        Effect::Nothing => Ok(()),
        Effect::Gives { at, word } => give_word(program, machine, at, word),
        Effect::Enters { activation, block } => enter_block(program, machine, activation, block),
        Effect::Sends { message } => send(&mut machine.pending, message),
    }
}
