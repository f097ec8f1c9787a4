// The messages of a firing, and those of a run's beginning.
ghost use Rattle.std.specs.Prelude.{◌≡◌, ◌<◌, ◌≤◌, ◌++◌, length, map, zip, flat_map, IfOk, OnOk, option_to_list};
ghost use Rattle.tam_word.specs.Lists.{below};
ghost use Rattle.tam_msgs.specs.Messages.{site};
ghost use Rattle.tam_graph.specs.Graphs.{code_of, callee_of, node_where, is_param};
ghost use Rattle.tam_world.specs.Worlds.{result_message, argument_message};

use crate::finding::{Sought, find_node};
use crate::nodes::callee_of;
use crate::{OUTSIDE, Program, World};
use std::alloc::{AllocError, Global};
use tam_msgs::Message;

// The message of a result: to the call that began the activation, or outside.
pub(crate) fn result_message(
    program: &Program<'_>,
    world: &World,
    i: u32,
    place: u32,
    word: u32,
) -> Option<Message>
    ensures value { option_to_list result ≡ result_message program.now world.now i place word }
{
    let frame = world.caller_at(i);
    if frame == OUTSIDE {
        return Some(Message::Word {
            frame,
            inlet: place,
            word,
        });
    }
    let call = world.call_at(i);
    match find_node(program, world.code_at(frame), Sought::Ret { call, place }) {
        Some(inlet) => Some(Message::Word { frame, inlet, word }),
        None => None,
    }
}

// The site of a node.
pub(crate) fn site_of(code: u32, node: u32) -> u32
    requires code { code < 256 }
    requires node { node < 1024 }
    ensures value { result ≡ site code node }
{
    1024 * code + node
}

// The message that carries a word to the param of a code that a call begins.
pub(crate) fn argument_message(
    program: &Program<'_>,
    code: u32,
    call: u32,
    place: u32,
    frame: u32,
    word: u32,
) -> Option<Message>
    ensures value { option_to_list result ≡ map (λ y. Message.Word frame y word) (node_where (code_of program.now (callee_of (code_of program.now code)
        call)) (is_param place)) }
{
    message_to(
        program,
        callee_of(program.graph(), code, call),
        place,
        frame,
        word,
    )
}

// The message that carries a word to the param of a code.
fn message_to(
    program: &Program<'_>,
    code: u32,
    place: u32,
    frame: u32,
    word: u32,
) -> Option<Message>
    ensures value { option_to_list result ≡ map (λ y. Message.Word frame y word) (node_where (code_of program.now code) (is_param place)) }
{
    match find_node(program, code, Sought::Param { place }) {
        Some(inlet) => Some(Message::Word { frame, inlet, word }),
        None => None,
    }
}

/// The messages of the arguments of the root, in the order of places.
pub fn argument_messages(
    alloc: Global,
    program: &Program<'_>,
    main: u32,
    args: &[u32],
) -> Result<Vec<Message>, AllocError>
    requires main { main ≡ program.now.main }
    requires args { length args.now ≤ 64 }
    ensures value { IfOk result (λ messages. messages.items ≡ flat_map (argument_message program.now) (zip (below (length args.now)) args.now)) }
{
    let mut messages = Vec::new(alloc);
    for (place, word) in args.iter().enumerate() {
        push_some(
            &mut messages,
            message_to(program, main, place as u32, 0, *word),
        )?;
    }
    Ok(messages)
}

// Adds the message, if there is one.
fn push_some(messages: &mut Vec<Message>, message: Option<Message>) -> Result<(), AllocError>
    ensures ok { OnOk result (messages.new.items ≡ messages.old.items ++ option_to_list message) }
{
    if let Some(message) = message {
        messages.push(message)?;
    }
    Ok(())
}
