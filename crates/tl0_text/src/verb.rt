// The words that lines begin with.
ghost use Rattle.std.specs.Prelude.{◌≡◌};
ghost use Rattle.tl0_text.specs.CodeSayings.{verb_text, form_text, size_of_verb, size_of, forms_at, form_of};

use crate::Next;
use tam_text::is_same;
use tam_word::{Op, op_name};

/// Which instruction a line has.
#[derive(Clone, Copy, Debug, PartialEq, Eq)]
pub enum Verb {
    Operator(Op),
    Imm,
    Mov,
    Fork,
    Switch,
    Falloc,
    Send,
    Ret,
    Ialloc,
    Ifetch,
    Istore,
    Skip,
}

/// Which line it is, behind the first two.
#[derive(Clone, Copy, Debug, PartialEq, Eq)]
pub enum Form {
    Code,
    Inlet,
    Thread,
    Stop,
    End,
    Instr(Verb),
}

const HEAD_FORMS: [Form; 1] = [Form::Code];

const INLET_FORMS: [Form; 2] = [Form::Inlet, Form::Thread];

const THREAD_FORMS: [Form; 2] = [Form::Thread, Form::End];

#[rattlefmt::skip]
const INSTR_FORMS: [Form; 28] = [
    Form::Stop,
    Form::Instr(Verb::Operator(Op::Add)), Form::Instr(Verb::Operator(Op::Sub)), Form::Instr(Verb::Operator(Op::Mul)),
    Form::Instr(Verb::Operator(Op::Div)), Form::Instr(Verb::Operator(Op::Divu)), Form::Instr(Verb::Operator(Op::Rem)),
    Form::Instr(Verb::Operator(Op::Remu)), Form::Instr(Verb::Operator(Op::And)), Form::Instr(Verb::Operator(Op::Or)),
    Form::Instr(Verb::Operator(Op::Xor)), Form::Instr(Verb::Operator(Op::Sll)), Form::Instr(Verb::Operator(Op::Srl)),
    Form::Instr(Verb::Operator(Op::Sra)), Form::Instr(Verb::Operator(Op::Slt)), Form::Instr(Verb::Operator(Op::Sltu)),
    Form::Instr(Verb::Operator(Op::Eq)),
    Form::Instr(Verb::Imm), Form::Instr(Verb::Mov), Form::Instr(Verb::Fork), Form::Instr(Verb::Switch), Form::Instr(Verb::Falloc),
    Form::Instr(Verb::Send), Form::Instr(Verb::Ret), Form::Instr(Verb::Ialloc), Form::Instr(Verb::Ifetch), Form::Instr(Verb::Istore),
    Form::Instr(Verb::Skip),
];

/// The word of an instruction.
///
/// docs/THREADS.md, "Instructions of threads".
pub fn verb_text(verb: Verb) -> &'static [u8]
    ensures value { result.now ≡ verb_text verb }
{
    match verb {
        Verb::Operator(op) => op_name(op),
        Verb::Imm => b"imm",
        Verb::Mov => b"mov",
        Verb::Fork => b"fork",
        Verb::Switch => b"switch",
        Verb::Falloc => b"falloc",
        Verb::Send => b"send",
        Verb::Ret => b"ret",
        Verb::Ialloc => b"ialloc",
        Verb::Ifetch => b"ifetch",
        Verb::Istore => b"istore",
        Verb::Skip => b"skip",
    }
}

/// The word that a line begins with.
///
/// docs/THREADS.md, "Thread code as text".
pub fn form_text(form: Form) -> &'static [u8]
    ensures value { result.now ≡ form_text form }
{
    match form {
        Form::Code => b"code",
        Form::Inlet => b"inlet",
        Form::Thread => b"thread",
        Form::Stop => b"stop",
        Form::End => b"end",
        Form::Instr(verb) => verb_text(verb),
    }
}

// How many numbers stand behind the word of an instruction.
fn size_of_verb(verb: Verb) -> usize
    ensures value { result ≡ size_of_verb verb }
{
    match verb {
        Verb::Fork | Verb::Skip => 1,
        Verb::Imm | Verb::Mov | Verb::Falloc | Verb::Ret | Verb::Ialloc => 2,
        Verb::Operator(_) | Verb::Switch | Verb::Send => 3,
        Verb::Ifetch | Verb::Istore => 4,
    }
}

/// How many numbers stand behind the word of a line.
pub fn size_of(form: Form) -> usize
    ensures value { result ≡ size_of form }
{
    match form {
        Form::Stop | Form::End => 0,
        Form::Thread => 1,
        Form::Inlet => 2,
        Form::Code => 3,
        Form::Instr(verb) => size_of_verb(verb),
    }
}

// The lines that may come next.
fn forms_at(next: Next) -> &'static [Form]
    ensures value { result.now ≡ forms_at next }
{
    match next {
        Next::Head => &HEAD_FORMS,
        Next::Inlets => &INLET_FORMS,
        Next::Threads => &THREAD_FORMS,
        Next::Instrs => &INSTR_FORMS,
        Next::Version | Next::Counts | Next::Done => &[],
    }
}

/// Which of the lines that may come next begins with the word.
pub fn form_of(next: Next, word: &[u8]) -> Option<Form>
    ensures value { result ≡ form_of next word.now }
{
    let mut rest = forms_at(next);
    while let [form, after @ ..] = rest {
        if is_same(word, form_text(*form)) {
            return Some(*form);
        }
        rest = after;
    }
    None
}
