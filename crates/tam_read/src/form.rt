//! The verbs that say what a line does, and what stands behind each.
ghost use Rattle.std.specs.Prelude.{◌≡◌, ◌≤◌, ◌∷◌, [], List, option_to_list};
ghost use Rattle.tam_read.specs.Sentences.{verb_text, verb_called, roles_of, makes, vertices_of};

use tam_word::{Op, op_name};

/// The word that says what a line does.
#[derive(Clone, Copy)]
pub enum Verb {
    Param,
    Const,
    Operate(Op),
    Seq,
    Call,
    Arg,
    Ret,
    Give,
    Alloc,
    Fetch,
    Store,
    Cond,
    Switch,
    Merge,
    Enter,
    Leave,
    Code,
    Else,
    End,
}

/// What a token stands for.
#[derive(Clone, Copy)]
pub enum Role {
    /// The name of a node with a value that is no call.
    Value,
    /// The name of a call.
    Call,
    /// The name of a cond.
    Cond,
    /// The name of a code that is called.
    Callee,
    /// The name of a code that begins.
    Code,
    /// A place of an interface.
    Place,
    /// A word.
    Word,
}

/// Every verb.
#[rattlefmt::skip]
pub const VERBS: [Verb; 34] = [
    Verb::Param, Verb::Const, Verb::Seq, Verb::Call, Verb::Arg, Verb::Ret, Verb::Give, Verb::Alloc, Verb::Fetch, Verb::Store, Verb::Cond, Verb::Switch,
    Verb::Merge, Verb::Enter, Verb::Leave, Verb::Code, Verb::Else, Verb::End,
    Verb::Operate(Op::Add), Verb::Operate(Op::Sub), Verb::Operate(Op::Mul), Verb::Operate(Op::Div), Verb::Operate(Op::Divu), Verb::Operate(Op::Rem),
    Verb::Operate(Op::Remu), Verb::Operate(Op::And), Verb::Operate(Op::Or), Verb::Operate(Op::Xor), Verb::Operate(Op::Sll), Verb::Operate(Op::Srl),
    Verb::Operate(Op::Sra), Verb::Operate(Op::Slt), Verb::Operate(Op::Sltu), Verb::Operate(Op::Eq),
];

/// How the verb is written.
pub fn verb_text(verb: Verb) -> &'static [u8]
    ensures value { result.now ≡ verb_text verb }
{
    match verb {
        Verb::Param => b"param",
        Verb::Const => b"const",
        Verb::Operate(op) => op_name(op),
        Verb::Seq => b"seq",
        Verb::Call => b"call",
        Verb::Arg => b"arg",
        Verb::Ret => b"ret",
        Verb::Give => b"result",
        Verb::Alloc => b"alloc",
        Verb::Fetch => b"fetch",
        Verb::Store => b"store",
        Verb::Cond => b"cond",
        Verb::Switch => b"switch",
        Verb::Merge => b"merge",
        Verb::Enter => b"in",
        Verb::Leave => b"out",
        Verb::Code => b"code",
        Verb::Else => b"else",
        Verb::End => b"end",
    }
}

/// The verb that the token writes.
pub fn verb_called(token: &[u8]) -> Option<Verb>
    ensures value { verb_called token.now ≡ option_to_list result }
{
    for verb in &VERBS {
        if token == verb_text(*verb) {
            return Some(*verb);
        }
    }
    None
}

/// What the tokens behind the verb stand for.
pub fn roles_of(verb: Verb) -> &'static [Role]
    ensures value { result.now ≡ roles_of verb }
{
    match verb {
        Verb::Param | Verb::Enter => &[Role::Place],
        Verb::Const => &[Role::Word],
        Verb::Operate(_) | Verb::Seq | Verb::Fetch => &[Role::Value, Role::Value],
        Verb::Call => &[Role::Callee],
        Verb::Arg => &[Role::Call, Role::Place, Role::Value],
        Verb::Ret => &[Role::Call, Role::Place],
        Verb::Give | Verb::Leave => &[Role::Place, Role::Value],
        Verb::Alloc | Verb::Cond => &[Role::Value],
        Verb::Store => &[Role::Value, Role::Value, Role::Value],
        Verb::Switch => &[Role::Cond, Role::Place, Role::Value],
        Verb::Merge => &[Role::Cond, Role::Place],
        Verb::Code => &[Role::Code],
        Verb::Else | Verb::End => &[],
    }
}

/// What the node that the verb makes can be named for.
pub fn makes(verb: Verb) -> Option<Role>
    ensures value { result ≡ makes verb }
{
    match verb {
        Verb::Call => Some(Role::Call),
        Verb::Cond => Some(Role::Cond),
        Verb::Arg
        | Verb::Give
        | Verb::Store
        | Verb::Switch
        | Verb::Leave
        | Verb::Code
        | Verb::Else
        | Verb::End => None,
        _ => Some(Role::Value),
    }
}

/// How many vertices the verb's node has.
pub fn vertices_of(verb: Verb) -> u32
    ensures value { result ≡ vertices_of verb }
    ensures few { result ≤ 2 }
{
    match verb {
        Verb::Call | Verb::Alloc | Verb::Fetch => 2,
        Verb::Code | Verb::Else | Verb::End => 0,
        _ => 1,
    }
}
