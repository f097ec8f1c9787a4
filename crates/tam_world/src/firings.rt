// The firing of a vertex.
ghost use Rattle.std.specs.Prelude.{◌≡◌, ◌<◌, option_to_list};
ghost use Rattle.tam_graph.specs.Graphs.{Graph as GraphRecord};
ghost use Rattle.tam_world.specs.Worlds.{World as WorldRecord, activation_at, fired, all_got, changes, sends_only};
ghost use Rattle.tam_world.specs.Effects.{effect_in, fired_as};

use crate::finding::{find_enter, find_merge};
use crate::messages::{argument_message, result_message, site_of};
use crate::nodes::{block_at, chosen_branch, node_at, test_of};
use crate::operands::{one_word, three_words, two_words};
use crate::{Effect, NodeAt, Program, World};
use tam_graph::Kind;
use tam_msgs::Message;
use tam_word::{Op, apply};

/// What a vertex does when it fires.
pub fn firing(program: &Program<'_>, world: &World, at: NodeAt) -> Effect
    ensures value { effect_in world.now result ≡ fired program.now world.now at.activation at.node }
{
    let code = world.code_at(at.activation);
    match node_at(program.graph(), code, at.node) {
        Some(node) => fire_kind(program, world, at, code, node.kind),
        None => Effect::Nothing,
    }
}

// What a vertex of this kind does.
fn fire_kind(program: &Program<'_>, world: &World, at: NodeAt, code: u32, kind: Kind) -> Effect
    requires code { code ≡ (activation_at world.now at.activation).code }
    requires small { code < 256 }
    requires node { at.node < 1024 }
    ensures value { effect_in world.now result ≡ fired_as program.now world.now at.activation at.node kind }
{
    match kind {
        Kind::Const { word } => Effect::Gives { at, word },
        Kind::Op { op, a, b } => fire_op(world, at, op, a, b),
        Kind::Seq { a, b } => fire_seq(world, at, a, b),
        Kind::Call { callee } => Effect::Sends {
            message: Message::Frame {
                code: callee,
                frame: at.activation,
                inlet: at.node,
            },
        },
        Kind::Arg { call, place, a } => fire_arg(program, world, at, code, call, place, a),
        Kind::Give { place, a } => fire_give(program, world, at, place, a),
        Kind::Alloc { len } => fire_alloc(world, at, len),
        Kind::Fetch { array, index } => fire_fetch(world, at, code, array, index),
        Kind::Store { array, index, a } => fire_store(world, at, code, array, index, a),
        Kind::Cond { test, yes, no } => fire_cond(program, world, at, code, test, yes, no),
        Kind::Switch { cond, place, a } => fire_switch(program, world, at, code, cond, place, a),
        Kind::Leave { place, a } => fire_leave(program, world, at, code, place, a),
        Kind::Param { .. } | Kind::Ret { .. } | Kind::Merge { .. } | Kind::Enter { .. } => {
            Effect::Nothing
        }
    }
}

fn fire_op(world: &World, at: NodeAt, op: Op, a: u32, b: u32) -> Effect
    ensures value { (g : GraphRecord) → effect_in world.now result ≡ fired_as g world.now at.activation at.node (Kind.Op op a b) }
{
    match two_words(world, at.activation, a, b) {
        Some((u, v)) => Effect::Gives {
            at,
            word: apply(op, u, v),
        },
        None => Effect::Nothing,
    }
}

fn fire_seq(world: &World, at: NodeAt, a: u32, b: u32) -> Effect
    ensures value { (g : GraphRecord) → effect_in world.now result ≡ fired_as g world.now at.activation at.node (Kind.Seq a b) }
{
    match two_words(world, at.activation, a, b) {
        Some((word, _)) => Effect::Gives { at, word },
        None => Effect::Nothing,
    }
}

fn fire_arg(
    program: &Program<'_>,
    world: &World,
    at: NodeAt,
    code: u32,
    call: u32,
    place: u32,
    a: u32,
) -> Effect
    requires code { code ≡ (activation_at world.now at.activation).code }
    ensures value { effect_in world.now result ≡ fired_as program.now world.now at.activation at.node (Kind.Arg call place a) }
{
    match two_words(world, at.activation, a, call) {
        Some((word, frame)) => sends(argument_message(program, code, call, place, frame, word)),
        None => Effect::Nothing,
    }
}

fn fire_give(program: &Program<'_>, world: &World, at: NodeAt, place: u32, a: u32) -> Effect
    ensures value { effect_in world.now result ≡ fired_as program.now world.now at.activation at.node (Kind.Give place a) }
{
    match one_word(world, at.activation, a) {
        Some(word) => sends(result_message(program, world, at.activation, place, word)),
        None => Effect::Nothing,
    }
}

fn fire_alloc(world: &World, at: NodeAt, len: u32) -> Effect
    ensures value { (g : GraphRecord) → effect_in world.now result ≡ fired_as g world.now at.activation at.node (Kind.Alloc len) }
{
    match one_word(world, at.activation, len) {
        Some(len) => Effect::Sends {
            message: Message::Cells {
                len,
                frame: at.activation,
                inlet: at.node,
            },
        },
        None => Effect::Nothing,
    }
}

fn fire_fetch(world: &World, at: NodeAt, code: u32, array: u32, index: u32) -> Effect
    requires code { code ≡ (activation_at world.now at.activation).code }
    requires small { code < 256 }
    requires node { at.node < 1024 }
    ensures value { (g : GraphRecord) → effect_in world.now result ≡ fired_as g world.now at.activation at.node (Kind.Fetch array index) }
{
    match two_words(world, at.activation, array, index) {
        Some((array, index)) => {
            let site = site_of(code, at.node);
            Effect::Sends {
                message: Message::Fetch {
                    array,
                    index,
                    frame: at.activation,
                    inlet: at.node,
                    site,
                },
            }
        }
        None => Effect::Nothing,
    }
}

fn fire_store(world: &World, at: NodeAt, code: u32, array: u32, index: u32, a: u32) -> Effect
    requires code { code ≡ (activation_at world.now at.activation).code }
    requires small { code < 256 }
    requires node { at.node < 1024 }
    ensures value { (g : GraphRecord) → effect_in world.now result ≡ fired_as g world.now at.activation at.node (Kind.Store array index a) }
{
    match three_words(world, at.activation, array, index, a) {
        Some((array, index, word)) => {
            let site = site_of(code, at.node);
            Effect::Sends {
                message: Message::Store {
                    array,
                    index,
                    word,
                    site,
                },
            }
        }
        None => Effect::Nothing,
    }
}

fn fire_cond(
    program: &Program<'_>,
    world: &World,
    at: NodeAt,
    code: u32,
    test: u32,
    yes: u32,
    no: u32,
) -> Effect
    requires code { code ≡ (activation_at world.now at.activation).code }
    ensures value { effect_in world.now result ≡ fired_as program.now world.now at.activation at.node (Kind.Cond test yes no) }
{
    match one_word(world, at.activation, test) {
        Some(word) => Effect::Enters {
            activation: at.activation,
            block: chosen_branch(program.graph(), code, at.node, word),
        },
        None => Effect::Nothing,
    }
}

fn fire_switch(
    program: &Program<'_>,
    world: &World,
    at: NodeAt,
    code: u32,
    cond: u32,
    place: u32,
    a: u32,
) -> Effect
    requires code { code ≡ (activation_at world.now at.activation).code }
    ensures value { effect_in world.now result ≡ fired_as program.now world.now at.activation at.node (Kind.Switch cond place a) }
{
    let test = test_of(program.graph(), code, cond);
    match two_words(world, at.activation, test, a) {
        Some((choice, word)) => {
            let block = chosen_branch(program.graph(), code, cond, choice);
            gives(at.activation, find_enter(program, code, block, place), word)
        }
        None => Effect::Nothing,
    }
}

fn fire_leave(
    program: &Program<'_>,
    world: &World,
    at: NodeAt,
    code: u32,
    place: u32,
    a: u32,
) -> Effect
    requires code { code ≡ (activation_at world.now at.activation).code }
    ensures value { effect_in world.now result ≡ fired_as program.now world.now at.activation at.node (Kind.Leave place a) }
{
    match one_word(world, at.activation, a) {
        Some(word) => {
            let block = block_at(program.graph(), code, at.node);
            gives(at.activation, find_merge(program, code, block, place), word)
        }
        None => Effect::Nothing,
    }
}

// The node found, if one was, gets a word.
fn gives(activation: u32, found: Option<u32>, word: u32) -> Effect
    ensures value { (w : WorldRecord) → effect_in w result ≡ changes (all_got w activation (option_to_list found) word) }
{
    match found {
        Some(node) => Effect::Gives {
            at: NodeAt { activation, node },
            word,
        },
        None => Effect::Nothing,
    }
}

// The message, if there is one, is sent.
fn sends(message: Option<Message>) -> Effect
    ensures value { (w : WorldRecord) → effect_in w result ≡ sends_only w (option_to_list message) }
{
    match message {
        Some(message) => Effect::Sends { message },
        None => Effect::Nothing,
    }
}
