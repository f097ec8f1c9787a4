// What a line says with the tokens behind its word.
ghost use Rattle.std.specs.Prelude.{◌≡◌, ◌∷◌, []};
ghost use Rattle.tam_word.specs.Numbers.{negative_of};
ghost use Rattle.tl0_text.specs.CodeSayings.{number_of, printed_word, not_zero, second_of, line_of, line_said};
ghost use Rattle.tl0_text.specs.TokensView.{texts};

use crate::verb::{Form, Verb};
use tam_word::{read_number, read_word};
use tl0_code::{CodeLine, Inlet, Instr};

/// The number that a token spells.
pub fn number_of(token: &[u8]) -> Option<u32>
    ensures value { result ≡ number_of token.now }
{
    read_number(token, u32::MAX)
}

// The word that a token spells in signed decimal.
fn printed_word(token: &[u8]) -> Option<u32>
    ensures value { result ≡ printed_word token.now }
{
    match token {
        [] => None,
        [b'-', digits @ ..] => negative(read_number(digits, 1 << 31)),
        [_, ..] => read_number(token, u32::MAX >> 1),
    }
}

// The word below 0 of so many; there is none of 0.
fn negative(number: Option<u32>) -> Option<u32>
    ensures value { result ≡ negative_of (not_zero number) }
{
    match number {
        None | Some(0) => None,
        Some(number) => Some(number.wrapping_neg()),
    }
}

// The second number of a line: that of an `imm` is a word.
fn second_of(form: Form, token: &[u8]) -> Option<u32>
    ensures value { result ≡ second_of form token.now }
{
    match form {
        Form::Instr(Verb::Imm) => printed_word(token),
        _ => number_of(token),
    }
}

fn with_none(form: Form) -> Option<CodeLine>
    ensures value { result ≡ line_of form [] }
{
    match form {
        Form::Stop => Some(CodeLine::Stops),
        Form::End => Some(CodeLine::Ends),
        _ => None,
    }
}

fn with_one(form: Form, a: u32) -> Option<CodeLine>
    ensures value { result ≡ line_of form (a ∷ []) }
{
    let instr = match form {
        Form::Thread => return Some(CodeLine::Begins { count: a }),
        Form::Instr(Verb::Fork) => Instr::Fork { thread: a },
        Form::Instr(Verb::Skip) => Instr::Skip { n: a },
        _ => return None,
    };
    Some(CodeLine::Does { instr })
}

fn with_two(form: Form, a: u32, b: u32) -> Option<CodeLine>
    ensures value { result ≡ line_of form (a ∷ b ∷ []) }
{
    let instr = match form {
        Form::Inlet => {
            let inlet = Inlet { slot: a, thread: b };
            return Some(CodeLine::Into { inlet });
        }
        Form::Instr(Verb::Imm) => Instr::Imm { d: a, word: b },
        Form::Instr(Verb::Mov) => Instr::Mov { d: a, a: b },
        Form::Instr(Verb::Falloc) => Instr::Falloc { code: a, inlet: b },
        Form::Instr(Verb::Ret) => Instr::Ret { place: a, a: b },
        Form::Instr(Verb::Ialloc) => Instr::Ialloc { n: a, inlet: b },
        _ => return None,
    };
    Some(CodeLine::Does { instr })
}

fn with_three(form: Form, a: u32, b: u32, c: u32) -> Option<CodeLine>
    ensures value { result ≡ line_of form (a ∷ b ∷ c ∷ []) }
{
    let instr = match form {
        Form::Code => {
            return Some(CodeLine::Head {
                params: a,
                results: b,
                slots: c,
            });
        }
        Form::Instr(Verb::Operator(op)) => Instr::Op {
            op,
            d: a,
            a: b,
            b: c,
        },
        Form::Instr(Verb::Switch) => Instr::Switch {
            s: a,
            yes: b,
            no: c,
        },
        Form::Instr(Verb::Send) => Instr::Send {
            f: a,
            inlet: b,
            a: c,
        },
        _ => return None,
    };
    Some(CodeLine::Does { instr })
}

fn with_four(form: Form, a: u32, b: u32, c: u32, d: u32) -> Option<CodeLine>
    ensures value { result ≡ line_of form (a ∷ b ∷ c ∷ d ∷ []) }
{
    let instr = match form {
        Form::Instr(Verb::Ifetch) => Instr::Ifetch {
            array: a,
            index: b,
            inlet: c,
            node: d,
        },
        Form::Instr(Verb::Istore) => Instr::Istore {
            array: a,
            index: b,
            a: c,
            node: d,
        },
        _ => return None,
    };
    Some(CodeLine::Does { instr })
}

// The line of a form with two tokens behind its word.
fn said_with_two(form: Form, a: &[u8], b: &[u8]) -> Option<CodeLine>
    ensures value { result ≡ line_said form (a.now ∷ b.now ∷ []) }
{
    with_two(form, number_of(a)?, second_of(form, b)?)
}

// With three.
fn said_with_three(form: Form, a: &[u8], b: &[u8], c: &[u8]) -> Option<CodeLine>
    ensures value { result ≡ line_said form (a.now ∷ b.now ∷ c.now ∷ []) }
{
    with_three(form, number_of(a)?, number_of(b)?, number_of(c)?)
}

// With four.
fn said_with_four(form: Form, a: &[u8], b: &[u8], c: &[u8], d: &[u8]) -> Option<CodeLine>
    ensures value { result ≡ line_said form (a.now ∷ b.now ∷ c.now ∷ d.now ∷ []) }
{
    with_four(
        form,
        number_of(a)?,
        number_of(b)?,
        number_of(c)?,
        number_of(d)?,
    )
}

/// The line of a form with these tokens behind its word.
pub fn line_said(form: Form, tokens: &[&[u8]]) -> Option<CodeLine>
    ensures value { result ≡ line_said form (texts tokens.now) }
{
    match tokens {
        [] => with_none(form),
        [a] => with_one(form, number_of(a)?),
        [a, b] => said_with_two(form, a, b),
        [a, b, c] => said_with_three(form, a, b, c),
        [a, b, c, d] => said_with_four(form, a, b, c, d),
        [_, _, _, _, _, ..] => None,
    }
}
