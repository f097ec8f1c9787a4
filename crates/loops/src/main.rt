//! Loops that bench/ measures: instructions of the machine, and words that are printed and read.
//!
//! `loops count STEPS` makes so many steps of a machine that counts in a register, `loops copy STEPS` of one that loads and stores; both print the
//! register x5 then. `loops words COUNT` prints so many words into a buffer, reads each again and prints their sum. `loops forks COUNT` reads a text
//! of thread code with one thread of so many instructions, and prints how many there are. `loops block COUNT VERTICES` cuts so many random blocks of
//! so many vertices into classes, of 512 vertices where their number isn't given, and prints how many classes there are.
//! Over the assembler, the machine, words, the text of thread code, and the partition of blocks.
#![tactic(auto)]

mod blocks;

ghost use Rattle.std.specs.Prelude.{◌≤◌, length};

use blocks::{MOST_VERTICES, classes_of_blocks};
use rv_asm::assemble;
use rv_machine::Rv;
use std::alloc::{AllocError, Global};
use std::env;
use std::process::ExitCode;
use tam_word::{print_word, read_number, read_word};
use tl0_text::read0;

const COUNT: &[u8] = b".image 1
.stride 32
.params 0
.results 0
on:
addi x5, x5, 1
bne x5, x0, on
";

const COPY: &[u8] = b".image 1
.stride 32
.params 0
.results 0
on:
lw x5, 32(x0)
addi x5, x5, 1
sw x5, 32(x0)
jal x0, on
";

// An odd number: its multiples are all words, of every length.
const SPREAD: u32 = 2_654_435_761;

// The lines before the instructions of a text of thread code, one instruction, and the lines behind them.
const HEAD: &[u8] = b"tl0 2
codes 1 main 0
code 0 0 2
thread 1
";

const FORK: &[u8] = b"fork 0
";

const TAIL: &[u8] = b"stop
end
";

// The most bytes of a text of thread code.
const MOST_BYTES: usize = 67_108_864;

const USAGE: u8 = 2;

const NO_MEMORY: u8 = 11;

#[derive(Clone, Copy)]
enum Loop {
    Count,
    Copy,
    Words,
    Forks,
    Block { vertices: u32 },
}

fn main(rt: HostRuntime) -> ExitCode {
    let Some((kind, times)) = asked(&rt) else {
        return ExitCode::from(USAGE);
    };
    let Some(end) = run(rt.alloc(), kind, times) else {
        return ExitCode::from(NO_MEMORY);
    };
    if println!(rt; "{end}").is_err() {
        return ExitCode::FAILURE;
    }
    ExitCode::SUCCESS
}

// The loop, and how many times it is asked for.
fn asked(rt: &HostRuntime) -> Option<(Loop, u32)> {
    let mut words = env::args(rt).ok()?.skip(1);
    let name = words.next()?;
    let times = read_number(words.next()?.as_str().as_bytes(), u32::MAX)?;
    let kind = match name.as_str() {
        "count" => Loop::Count,
        "copy" => Loop::Copy,
        "words" => Loop::Words,
        "forks" => Loop::Forks,
        "block" => Loop::Block {
            vertices: size_of_block(words.next())?,
        },
        _ => return None,
    };
    Some((kind, times))
}

// How many vertices a block is to have: as many as it may, where no word says it.
fn size_of_block(word: Option<String>) -> Option<u32> {
    match word {
        None => Some(MOST_VERTICES),
        Some(word) => read_number(word.as_str().as_bytes(), MOST_VERTICES),
    }
}

// What is left at the end of a loop, where there is memory for it.
fn run(alloc: Global, kind: Loop, times: u32) -> Option<u32> {
    match kind {
        Loop::Count => run_machine(alloc, COUNT, times),
        Loop::Copy => run_machine(alloc, COPY, times),
        Loop::Words => Some(sum_of_words(times)),
        Loop::Forks => read_forks(alloc, times),
        Loop::Block { vertices } => cut_blocks(alloc, times, vertices),
    }
}

// The register x5 after so many steps, or fewer where one traps.
fn run_machine(alloc: Global, text: &[u8], steps: u32) -> Option<u32>
    requires few { length text.now ≤ 1000 }
{
    let image = assemble(alloc, text).ok()?;
    let mut rv = Rv::new(alloc, &image, 1).ok()?;
    rv.run(steps);
    Some(rv.reg(5))
}

// The sum of so many words, each printed and read again.
fn sum_of_words(count: u32) -> u32 {
    let mut sum = 0_u32;
    let mut digits = [0; 11];
    for n in 0..count {
        let len = print_word(n.wrapping_mul(SPREAD), &mut digits);
        if let Some(word) = read_word(&digits[..len]) {
            sum = sum.wrapping_add(word);
        }
    }
    sum
}

// How many instructions are read of the text of a thread that has so many.
fn read_forks(alloc: Global, count: u32) -> Option<u32> {
    let text = forks_text(alloc, count).ok()?;
    if text.len() > MOST_BYTES {
        return None;
    }
    let program = read0(alloc, &text).ok()?;
    let thread = program.codes().first()?.threads().first()?;
    Some(thread.instrs().len() as u32)
}

// A text of thread code with one thread, in which one short line stands so many times.
fn forks_text(alloc: Global, count: u32) -> Result<Vec<u8>, AllocError> {
    let mut text = Vec::from_slice(alloc, HEAD)?;
    for _ in 0..count {
        text.extend_from_slice(FORK)?;
    }
    text.extend_from_slice(TAIL)?;
    Ok(text)
}

// How many classes so many random blocks have, where they aren't too large.
fn cut_blocks(alloc: Global, count: u32, vertices: u32) -> Option<u32> {
    if vertices > MOST_VERTICES {
        return None;
    }
    classes_of_blocks(alloc, count, vertices).ok()
}
