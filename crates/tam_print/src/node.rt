// The line of a node.
ghost use Rattle.std.specs.Prelude.{◌≡◌, ◌<◌, ◌++◌, true, length, slice_get, OnOk};
ghost use Rattle.tam_graph.specs.Written.{is_line};
ghost use Rattle.tam_graph.specs.Reading.{IsCodeOfText};
ghost use Rattle.tam_graph.specs.Texts.{line_text, tokens, or_name, node_line};
ghost use Rattle.tam_print.specs.PrintedLines.{prefix_text};

use crate::line::{
    push_const, push_named, push_one, push_place, push_place_of, push_three, push_two, push_value,
    push_value_of,
};
use std::alloc::AllocError;
use tam_graph::{Code, Graph, Kind, Name, Node};
use tam_word::op_name;

/// Adds the line of a node.
pub fn push_node(text: &mut Vec<u8>, g: &Graph, code: &Code, x: u32) -> Result<(), AllocError>
    requires of_text { IsCodeOfText (length g.now.codes) code.now }
    requires in_range { x < length code.now.nodes }
    ensures ok { OnOk result (text.new.items ≡ text.old.items ++ line_text (node_line g.now code.now x)) }
{
    let nodes = code.nodes();
    let node = nodes[x as usize];
    push_prefix(text, node.name, node.depth)?;
    push_tokens(text, g, code, node.kind)
}

// Adds what stands before the verb on a node's line: its name and its depth, where it has a name.
fn push_prefix(text: &mut Vec<u8>, name: Option<Name>, depth: u8) -> Result<(), AllocError>
    ensures ok { OnOk result (text.new.items ≡ text.old.items ++ prefix_text name depth) }
{
    match name {
        Some(name) => push_named(text, name.bytes(), depth),
        None => Ok(()),
    }
}

// Adds a line's tokens behind its name.
fn push_tokens(text: &mut Vec<u8>, g: &Graph, code: &Code, kind: Kind) -> Result<(), AllocError>
    requires line { is_line (length g.now.codes) code.now kind ≡ true }
    ensures ok { OnOk result (text.new.items ≡ text.old.items ++ line_text (tokens g.now code.now kind)) }
{
    let nodes = code.nodes();
    match kind {
        Kind::Param { place } => push_place(text, b"param", place),
        Kind::Const { word } => push_const(text, b"const", word),
        Kind::Op { op, a, b } => push_two(text, op_name(op), name_at(nodes, a), name_at(nodes, b)),
        Kind::Seq { a, b } => push_two(text, b"seq", name_at(nodes, a), name_at(nodes, b)),
        Kind::Call { callee } => push_one(text, b"call", g.code(callee).name().bytes()),
        Kind::Arg { call, place, a } => {
            push_value_of(text, b"arg", name_at(nodes, call), place, name_at(nodes, a))
        }
        Kind::Ret { call, place } => push_place_of(text, b"ret", name_at(nodes, call), place),
        Kind::Give { place, a } => push_value(text, b"result", place, name_at(nodes, a)),
        Kind::Alloc { len } => push_one(text, b"alloc", name_at(nodes, len)),
        Kind::Fetch { array, index } => {
            push_two(text, b"fetch", name_at(nodes, array), name_at(nodes, index))
        }
        Kind::Store { array, index, a } => push_three(
            text,
            b"store",
            name_at(nodes, array),
            name_at(nodes, index),
            name_at(nodes, a),
        ),
        Kind::Cond { test, .. } => push_one(text, b"cond", name_at(nodes, test)),
        Kind::Switch { cond, place, a } => {
            push_value_of(
                text,
                b"switch",
                name_at(nodes, cond),
                place,
                name_at(nodes, a),
            )
        }
        Kind::Merge { cond, place } => {
            push_place_of(text, b"merge", name_at(nodes, cond), place)
        }
        Kind::Enter { place } => push_place(text, b"in", place),
        Kind::Leave { place, a } => push_value(text, b"out", place, name_at(nodes, a)),
    }
}

// The name of the node of that number, empty where it has none or there is no node.
fn name_at(nodes: &[Node], x: u32) -> &[u8]
    ensures value { result.now ≡ or_name (slice_get nodes.now x) }
{
    match nodes.get(x as usize) {
        Some(
            Node {
                name: Some(name),
                ..
            },
        ) => name.bytes(),
        _ => b"",
    }
}
