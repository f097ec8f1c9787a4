// The text of a program.
ghost use Rattle.std.specs.Prelude.{◌≡◌, ◌++◌, ◌∷◌, [], true, OnOk, IfOk, decimal, flat_map, length, ◌≤◌};
ghost use Rattle.std.specs.List.{AllByRecursion};
ghost use Rattle.tam_word.specs.Lists.{all_of};
ghost use Rattle.tam_word.specs.Words.{signed_text};
ghost use Rattle.tl0_code.specs.ThreadCode.{Program, IsCodeText, numbers_of};
ghost use Rattle.tl0_code.specs.CodeTexts.{program_text};
ghost use Rattle.tl0_text.specs.Reading.{Reads0};
ghost use Rattle.tl0_text.specs.Printing.{is_word, inlet_numbers, HasWords, further, numbers_line, imm_line, instr_text, inlet_text, thread_text};
ghost use Rattle.tl0_text.specs.Printing.{code_bytes, counts_text, printed};

use crate::verb::{Form, Verb, form_text, verb_text};
use std::alloc::Global;
use tam_edge::NoMemory;
use tam_word::{print_number, print_word};
use tl0_code::{Code0, Inlet, Instr, Program0, Thread};

/// The text of a program.
///
/// docs/THREADS.md, "Thread code as text".
pub fn print0(alloc: Global, program: &Program0) -> Result<Vec<u8>, NoMemory>
    ensures value { IfOk result (λ text. text.items ≡ program_text program.now) }
    ensures reads { IfOk result (λ text. Reads0 text.items program.now) }
{
    let mut text = Vec::new(alloc);
    push_program(&mut text, program.main(), program.codes())?;
    Ok(text)
}

fn push_program(text: &mut Vec<u8>, main: u32, all: &[Code0]) -> Result<(), NoMemory>
    requires few { length all.now ≤ 256 }
    ensures ok { OnOk result (text.new.items ≡ text.old.items ++ printed (record { main = main; codes = all.now })) }
    ensures each { IfOk result (λ _. AllByRecursion IsCodeText all.now) }
    ensures main { is_word main ≡ true }
{
    push_line(text, b"tl0 2", &[])?;
    push_counts(text, all.len() as u32, main)?;
    push_codes(text, all)
}

// How many codes there are, and the number of `main`.
fn push_counts(text: &mut Vec<u8>, number: u32, main: u32) -> Result<(), NoMemory>
    ensures ok { OnOk result (text.new.items ≡ text.old.items ++ counts_text number main) }
{
    push(text, b"codes")?;
    push_further(text, &[number])?;
    push_line(text, b" main", &[main])
}

fn push_codes(text: &mut Vec<u8>, all: &[Code0]) -> Result<(), NoMemory>
    ensures ok { OnOk result (text.new.items ≡ text.old.items ++ flat_map code_bytes all.now) }
    ensures each { IfOk result (λ _. AllByRecursion IsCodeText all.now) }
{
    let mut rest = all;
    while let [code, after @ ..] = rest {
        push_code(text, code)?;
        rest = after;
    }
    Ok(())
}

fn push_code(text: &mut Vec<u8>, code: &Code0) -> Result<(), NoMemory>
    ensures ok { OnOk result (text.new.items ≡ text.old.items ++ code_bytes code.now) }
    ensures words { IfOk result (λ _. IsCodeText code.now) }
{
    let numbers = [code.params(), code.results(), code.slots()];
    push_line(text, form_text(Form::Code), &numbers)?;
    push_inlets(text, code.inlets())?;
    push_threads(text, code.threads())?;
    push_line(text, form_text(Form::End), &[])
}

fn push_inlets(text: &mut Vec<u8>, inlets: &[Inlet]) -> Result<(), NoMemory>
    ensures ok { OnOk result (text.new.items ≡ text.old.items ++ flat_map inlet_text inlets.now) }
    ensures words { IfOk result (λ _. all_of is_word (flat_map inlet_numbers inlets.now) ≡ true) }
{
    let mut rest = inlets;
    while let [inlet, after @ ..] = rest {
        push_line(text, form_text(Form::Inlet), &[inlet.slot, inlet.thread])?;
        rest = after;
    }
    Ok(())
}

fn push_threads(text: &mut Vec<u8>, threads: &[Thread]) -> Result<(), NoMemory>
    ensures ok { OnOk result (text.new.items ≡ text.old.items ++ flat_map thread_text threads.now) }
    ensures words { IfOk result (λ _. AllByRecursion HasWords threads.now) }
{
    let mut rest = threads;
    while let [thread, after @ ..] = rest {
        push_thread(text, thread)?;
        rest = after;
    }
    Ok(())
}

fn push_thread(text: &mut Vec<u8>, thread: &Thread) -> Result<(), NoMemory>
    ensures ok { OnOk result (text.new.items ≡ text.old.items ++ thread_text thread.now) }
    ensures words { IfOk result (λ _. HasWords thread.now) }
{
    push_line(text, form_text(Form::Thread), &[thread.count()])?;
    push_instrs(text, thread.instrs())?;
    push_line(text, form_text(Form::Stop), &[])
}

fn push_instrs(text: &mut Vec<u8>, instrs: &[Instr]) -> Result<(), NoMemory>
    ensures ok { OnOk result (text.new.items ≡ text.old.items ++ flat_map instr_text instrs.now) }
    ensures words { IfOk result (λ _. all_of is_word (flat_map numbers_of instrs.now) ≡ true) }
{
    let mut rest = instrs;
    while let [instr, after @ ..] = rest {
        push_instr(text, instr)?;
        rest = after;
    }
    Ok(())
}

fn push_instr(text: &mut Vec<u8>, instr: &Instr) -> Result<(), NoMemory>
    ensures ok { OnOk result (text.new.items ≡ text.old.items ++ instr_text instr.now) }
    ensures words { all_of is_word (numbers_of instr.now) ≡ true }
{
    match instr {
        Instr::Imm { d, word } => push_imm(text, *d, *word),
        Instr::Mov { d, a } => push_line(text, verb_text(Verb::Mov), &[*d, *a]),
        Instr::Op { op, d, a, b } => {
            push_line(text, verb_text(Verb::Operator(*op)), &[*d, *a, *b])
        }
        Instr::Fork { thread } => push_line(text, verb_text(Verb::Fork), &[*thread]),
        Instr::Switch { s, yes, no } => {
            push_line(text, verb_text(Verb::Switch), &[*s, *yes, *no])
        }
        Instr::Falloc { code, inlet } => {
            push_line(text, verb_text(Verb::Falloc), &[*code, *inlet])
        }
        Instr::Send { f, inlet, a } => push_line(text, verb_text(Verb::Send), &[*f, *inlet, *a]),
        Instr::Ret { place, a } => push_line(text, verb_text(Verb::Ret), &[*place, *a]),
        Instr::Ialloc { n, inlet } => push_line(text, verb_text(Verb::Ialloc), &[*n, *inlet]),
        Instr::Ifetch {
            array,
            index,
            inlet,
            node,
        } => push_line(
            text,
            verb_text(Verb::Ifetch),
            &[*array, *index, *inlet, *node],
        ),
        Instr::Istore {
            array,
            index,
            a,
            node,
        } => push_line(text, verb_text(Verb::Istore), &[*array, *index, *a, *node]),
        Instr::Skip { n } => push_line(text, verb_text(Verb::Skip), &[*n]),
    }
}

// A word goes into a slot: it is signed.
fn push_imm(text: &mut Vec<u8>, d: u32, word: u32) -> Result<(), NoMemory>
    ensures ok { OnOk result (text.new.items ≡ text.old.items ++ imm_line d word) }
    ensures words { all_of is_word (d ∷ word ∷ []) ≡ true }
{
    push(text, verb_text(Verb::Imm))?;
    push_further(text, &[d])?;
    push(text, b" ")?;
    push_signed(text, word)?;
    push(text, b"\n")
}

// A line of a word and numbers.
fn push_line(text: &mut Vec<u8>, word: &[u8], numbers: &[u32]) -> Result<(), NoMemory>
    ensures ok { OnOk result (text.new.items ≡ text.old.items ++ numbers_line word.now numbers.now) }
    ensures words { all_of is_word numbers.now ≡ true }
{
    push(text, word)?;
    push_further(text, numbers)?;
    push(text, b"\n")
}

// Numbers, each behind a space.
fn push_further(text: &mut Vec<u8>, numbers: &[u32]) -> Result<(), NoMemory>
    ensures ok { OnOk result (text.new.items ≡ text.old.items ++ further numbers.now) }
{
    let mut rest = numbers;
    while let [number, after @ ..] = rest {
        push(text, b" ")?;
        push_number(text, *number)?;
        rest = after;
    }
    Ok(())
}

fn push_number(text: &mut Vec<u8>, n: u32) -> Result<(), NoMemory>
    ensures ok { OnOk result (text.new.items ≡ text.old.items ++ decimal n) }
{
    let mut digits = [0; 10];
    let len = print_number(n, &mut digits);
    push(text, &digits[..len])
}

fn push_signed(text: &mut Vec<u8>, word: u32) -> Result<(), NoMemory>
    ensures ok { OnOk result (text.new.items ≡ text.old.items ++ signed_text word) }
{
    let mut digits = [0; 11];
    let len = print_word(word, &mut digits);
    push(text, &digits[..len])
}

fn push(text: &mut Vec<u8>, bytes: &[u8]) -> Result<(), NoMemory>
    ensures ok { OnOk result (text.new.items ≡ text.old.items ++ bytes.now) }
{
    text.extend_from_slice(bytes)?;
    Ok(())
}
