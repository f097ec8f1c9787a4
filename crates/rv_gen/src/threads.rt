// The machine code of threads, code by code.
ghost use Rattle.std.specs.Prelude.{◌≡◌, ◌+◌, ◌*◌, ◌≤◌, ◌<◌, ◌^◌, ◌++◌, map, flat_map, length, slice_index, OnOk, IfOk};
ghost use Rattle.std.specs.List.{AllByRecursion};
ghost use Rattle.tam_word.specs.Lists.{below};
ghost use Rattle.tl0_code.specs.ThreadCode.{code_text};
ghost use Rattle.tl0_code.specs.CodeRules.{IsChecked};
ghost use Rattle.rv_image.specs.ImageFiles.{max_words};
ghost use Rattle.rv_keep.specs.Expansions.{expanded};
ghost use Rattle.rv_keep.specs.Image.{threads_words, code_insts, start_of, words_in_all};
ghost use Rattle.rv_gen.specs.Sayable.{IsSayable, AreSayable};
ghost use Rattle.rv_gen.specs.Parts.{words_of, starts_from, starts_in, insts_at};

use crate::expansions::push_instr;
use crate::insts::{jalr, push_insts};
use crate::kernel::{KERNEL_WORDS, STOP_AT};
use crate::lengths::thread_words;
use std::alloc::Global;
use tam_edge::NoMemory;
use tl0_code::{Code0, Instr, Program0, Thread};

/// Puts the machine code of the threads of all codes behind the words.
///
/// docs/MACHINE.md, "Machine code".
pub fn push_codes(alloc: Global, words: &mut Vec<u32>, program: &Program0) -> Result<(), NoMemory>
    requires checked { IsChecked program.now }
    requires fits { words_in_all program.now ≤ max_words }
    ensures ok { OnOk result (words.new.items ≡ words.old.items ++ words_of (flat_map (code_insts program.now) (below (length program.now.codes)))) }
{
    let mut first = 4 * KERNEL_WORDS;
    for number in 0..program.codes().len() as u32 {
        first = push_code(alloc, words, program, number, first)?;
    }
    Ok(())
}

// Those of a code whose threads begin at an address. What stands behind them begins at the one that is given.
fn push_code(
    alloc: Global,
    words: &mut Vec<u32>,
    program: &Program0,
    number: u32,
    first: u32,
) -> Result<u32, NoMemory>
    requires checked { IsChecked program.now }
    requires fits { words_in_all program.now ≤ max_words }
    requires there { number < length program.now.codes }
    requires first { first ≡ start_of program.now number 0 }
    ensures ok { IfOk result (λ _. words.new.items ≡ words.old.items ++ words_of (code_insts program.now number)) }
    ensures next { IfOk result (λ next. next ≡ start_of program.now (number + 1) 0) }
{
    let code = code_at(program, number);
    let starts = starts_in(alloc, program, number, first)?;
    push_threads(words, code.slots(), &starts, number, code.threads())?;
    Ok(starts[code.threads().len()])
}

/// A code by its number.
pub fn code_at(program: &Program0, number: u32) -> &Code0
    requires there { number < length program.now.codes }
    ensures value { result.now ≡ code_text program.now number }
{
    &program.codes()[number as usize]
}

/// The addresses of the threads of a code, the first of which begins at an address, and of what stands behind them.
pub fn starts_in(
    alloc: Global,
    program: &Program0,
    number: u32,
    first: u32,
) -> Result<Vec<u32>, NoMemory>
    requires fits { words_in_all program.now ≤ max_words }
    requires there { number < length program.now.codes }
    requires first { first ≡ start_of program.now number 0 }
    ensures value { IfOk result (λ starts. starts.items ≡ starts_in program.now number) }
{
    starts_of(alloc, code_at(program, number).threads(), first)
}

// Those of threads.
fn starts_of(alloc: Global, threads: &[Thread], first: u32) -> Result<Vec<u32>, NoMemory>
    requires fits { first + 4 * threads_words threads.now < 2 ^ 32 }
    ensures value { IfOk result (λ starts. starts.items ≡ starts_from first threads.now) }
{
    let mut starts = Vec::new(alloc);
    let mut next = first;
    let mut rest = threads;
    while let [thread, after @ ..] = rest {
        starts.push(next)?;
        next += 4 * thread_words(thread);
        rest = after;
    }
    starts.push(next)?;
    Ok(starts)
}

fn push_threads(
    words: &mut Vec<u32>,
    slots: u32,
    starts: &[u32],
    code: u32,
    threads: &[Thread],
) -> Result<(), NoMemory>
    requires few_slots { slots ≤ 1026 }
    requires few_threads { length starts.now ≤ 3074 }
    requires few_codes { code < 256 }
    requires sayable { AllByRecursion (AreSayable slots (length starts.now)) threads.now }
    ensures ok { OnOk result (words.new.items ≡ words.old.items ++ words_of (flat_map (insts_at slots starts.now code) threads.now)) }
{
    let mut rest = threads;
    while let [thread, after @ ..] = rest {
        push_instrs(words, slots, starts, code, thread.instrs())?;
        push_insts(words, &[jalr(0, 0, STOP_AT)])?;
        rest = after;
    }
    Ok(())
}

fn push_instrs(
    words: &mut Vec<u32>,
    slots: u32,
    starts: &[u32],
    code: u32,
    instrs: &[Instr],
) -> Result<(), NoMemory>
    requires few_slots { slots ≤ 1026 }
    requires few_threads { length starts.now ≤ 3074 }
    requires few_codes { code < 256 }
    requires sayable { AllByRecursion (IsSayable slots (length starts.now)) instrs.now }
    ensures ok { OnOk result (words.new.items ≡ words.old.items ++ words_of (flat_map (expanded slots (slice_index starts.now) code) instrs.now)) }
{
    let mut rest = instrs;
    while let [instr, after @ ..] = rest {
        push_instr(words, slots, starts, code, instr)?;
        rest = after;
    }
    Ok(())
}
