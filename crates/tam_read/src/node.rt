//! The node of a line.
ghost use Rattle.std.specs.Prelude.{◌≡◌, ◌∷◌, []};
ghost use Rattle.tam_read.specs.Sentences.{names_made};
ghost use Rattle.tam_read.specs.Building.{kind_made, kind_said, depth_written, depth_made, name_given};
ghost use Rattle.tam_read.specs.KnownView.{known};
ghost use Rattle.tam_read.specs.LineView.{saying};
ghost use Rattle.tam_read.specs.SaidView.{texts_of};

use crate::form::{Role, Verb, makes, roles_of};
use crate::line::Line;
use crate::names::{has_depth, name_made};
use crate::naming::{Known, first_number, second_number, third_number};
use tam_graph::{Kind, Name};

// What the node does, by its verb and the numbers of its tokens; a cond's else block has no number yet, where `next` is the next block.
fn kind_made(verb: Verb, x: u32, y: u32, z: u32, next: u32) -> Kind
    ensures value { result ≡ kind_made verb x y z next }
{
    match verb {
        Verb::Param => Kind::Param { place: x },
        Verb::Const => Kind::Const { word: x },
        Verb::Operate(op) => Kind::Op { op, a: x, b: y },
        Verb::Seq => Kind::Seq { a: x, b: y },
        Verb::Call => Kind::Call { callee: x },
        Verb::Arg => Kind::Arg {
            call: x,
            place: y,
            a: z,
        },
        Verb::Ret => Kind::Ret { call: x, place: y },
        Verb::Give => Kind::Give { place: x, a: y },
        Verb::Alloc => Kind::Alloc { len: x },
        Verb::Fetch => Kind::Fetch { array: x, index: y },
        Verb::Store => Kind::Store {
            array: x,
            index: y,
            a: z,
        },
        Verb::Cond => Kind::Cond {
            test: x,
            yes: next,
            no: 0,
        },
        Verb::Switch => Kind::Switch {
            cond: x,
            place: y,
            a: z,
        },
        Verb::Merge => Kind::Merge { cond: x, place: y },
        Verb::Enter => Kind::Enter { place: x },
        Verb::Leave => Kind::Leave { place: x, a: y },
        Verb::Code | Verb::Else | Verb::End => Kind::Enter { place: 0 },
    }
}

/// What the node of a line does, where `next` is the next block.
pub fn kind_said(names: &Known<'_, '_>, next: u32, line: &Line<'_>) -> Kind
    ensures value { result ≡ kind_said (known names.now) next (saying line.now) }
{
    let roles = roles_of(line.verb);
    let x = first_number(names, roles, &line.rest);
    let y = second_number(names, roles, &line.rest);
    let z = third_number(names, roles, &line.rest);
    kind_made(line.verb, x, y, z, next)
}

// The depth at the end of a token, or 0.
fn depth_written(token: &[u8]) -> u8
    ensures value { result ≡ depth_written token.now }
{
    if has_depth(token) {
        token[token.len() - 1] - b'0'
    } else {
        0
    }
}

/// The depth of the node of a verb, where this stands before `=`.
pub fn depth_made(verb: Verb, name: Option<&[u8]>) -> u8
    ensures value { result ≡ depth_made verb (texts_of name.entry) }
{
    let Some(token) = name else {
        return 0;
    };
    match makes(verb) {
        Some(Role::Value) => depth_written(token),
        _ => 0,
    }
}

/// The name of the node of a line.
pub fn name_given(line: &Line<'_>) -> Option<Name>
    ensures value { result ≡ name_given (names_made (saying line.now)) }
{
    match line.name {
        None => None,
        Some(token) => Name::of(name_made(line.verb, token)),
    }
}
