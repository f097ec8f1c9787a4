// How many words machine code has, part by part.
ghost use Rattle.std.specs.Prelude.{ℕ, ◌≡◌, ◌+◌, ◌^◌, ◌<◌, max, sum_by};
ghost use Rattle.tl0_code.specs.declared.instr.Instr.TheVariants.{Op as Operate};
ghost use Rattle.rv_keep.specs.Image.{instr_words, thread_words, threads_words, code_words, record_words, words_in_all, code_table, frame_bytes, stride_of};

use crate::frame_record::cell_at;
use crate::kernel::KERNEL_WORDS;
use tam_word::Op;
use tl0_check::Checked0;
use tl0_code::{Code0, Instr, Program0, Thread};

// What a register with a number, a slot, a call of the host and a fork have.
const NUMBER: u32 = 2;

const SLOT: u32 = 3;

const HOST: u32 = 2;

const FORK: u32 = 7;

/// How many words the image of a program has.
///
/// docs/MACHINE.md, "Machine code".
pub fn image_words(code: &Checked0) -> u64
    ensures value { result ≡ words_in_all code.now }
{
    u64::from(words_in_all(code.program()))
}

/// So many, where they are within what a word counts.
pub fn words_in_all(program: &Program0) -> u32
    requires fits { words_in_all program.now < 2 ^ 32 }
    ensures value { result ≡ words_in_all program.now }
{
    let codes = program.codes();
    KERNEL_WORDS + codes_words(codes) + codes.len() as u32 + records_words(codes)
}

/// The address of the code table, which stands behind all threads.
pub fn code_table(program: &Program0) -> u32
    requires fits { code_table program.now < 2 ^ 32 }
    ensures value { result ≡ code_table program.now }
{
    4 * (KERNEL_WORDS + codes_words(program.codes()))
}

// The threads of codes.
fn codes_words(codes: &[Code0]) -> u32
    requires fits { sum_by code_words codes.now < 2 ^ 32 }
    ensures value { result ≡ sum_by code_words codes.now }
{
    let mut words = 0;
    let mut rest = codes;
    while let [code, after @ ..] = rest {
        words += threads_words(code.threads());
        rest = after;
    }
    words
}

// The records of codes, with their inlet tables.
fn records_words(codes: &[Code0]) -> u32
    requires fits { sum_by record_words codes.now < 2 ^ 32 }
    ensures value { result ≡ sum_by record_words codes.now }
{
    let mut words = 0;
    let mut rest = codes;
    while let [code, after @ ..] = rest {
        words += record_words(code);
        rest = after;
    }
    words
}

/// The record and the inlet table of a code.
pub fn record_words(code: &Code0) -> u32
    ensures value { result ≡ record_words code.now }
{
    4 + code.threads().len() as u32 + 4 * code.inlets().len() as u32
}

/// Threads.
pub fn threads_words(threads: &[Thread]) -> u32
    requires fits { threads_words threads.now < 2 ^ 32 }
    ensures value { result ≡ threads_words threads.now }
{
    let mut words = 0;
    let mut rest = threads;
    while let [thread, after @ ..] = rest {
        words += thread_words(thread);
        rest = after;
    }
    words
}

/// A thread.
pub fn thread_words(thread: &Thread) -> u32
    requires fits { thread_words thread.now < 2 ^ 32 }
    ensures value { result ≡ thread_words thread.now }
{
    let mut words = 1;
    let mut rest = thread.instrs();
    while let [instr, after @ ..] = rest {
        words += instr_words(instr);
        rest = after;
    }
    words
}

// An instruction.
fn instr_words(instr: &Instr) -> u32
    ensures value { result ≡ instr_words instr.now }
{
    match instr {
        Instr::Imm { .. } => NUMBER + SLOT,
        Instr::Mov { .. } => 2 * SLOT,
        Instr::Op { op, .. } => operator_words(*op),
        Instr::Fork { .. } => FORK,
        Instr::Switch { .. } => SLOT + 1 + FORK + 1 + FORK,
        Instr::Falloc { .. } => 2 + NUMBER + HOST,
        Instr::Send { .. } => 2 * SLOT + NUMBER + HOST,
        Instr::Ret { .. } => 3 + SLOT + HOST,
        Instr::Ialloc { .. } => SLOT + 1 + NUMBER + HOST,
        Instr::Ifetch { .. } => 2 * SLOT + 1 + 2 * NUMBER + HOST,
        Instr::Istore { .. } => 3 * SLOT + NUMBER + HOST,
        Instr::Skip { .. } => 1 + NUMBER + 2,
    }
}

// An operator on slots.
fn operator_words(op: Op) -> u32
    ensures value { (d a b : ℕ) → result ≡ instr_words (Operate op d a b) }
{
    match op {
        Op::Add
        | Op::Sub
        | Op::Mul
        | Op::Div
        | Op::Divu
        | Op::Rem
        | Op::Remu
        | Op::And
        | Op::Or
        | Op::Xor
        | Op::Sll
        | Op::Srl
        | Op::Sra
        | Op::Slt
        | Op::Sltu => 3 * SLOT + 1,
        Op::Eq => 3 * SLOT + 2,
    }
}

/// The bytes of the widest frame.
pub fn stride_of(program: &Program0) -> u32
    ensures value { result ≡ stride_of program.now }
{
    let mut stride = 0;
    let mut rest = program.codes();
    while let [code, after @ ..] = rest {
        stride = wider(stride, frame_bytes(code));
        rest = after;
    }
    stride
}

// The bytes of a frame of a code.
fn frame_bytes(code: &Code0) -> u32
    ensures value { result ≡ frame_bytes code.now }
{
    cell_at(code.slots(), code.threads().len() as u32)
}

// The greater of two numbers.
fn wider(a: u32, b: u32) -> u32
    ensures value { result ≡ max a b }
{
    if a < b { b } else { a }
}
