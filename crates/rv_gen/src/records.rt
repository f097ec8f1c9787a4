// The tables behind the threads: the address of each code's record, and the records with their inlet tables.
ghost use Rattle.std.specs.Prelude.{◌≡◌, ◌+◌, ◌*◌, ◌≤◌, ◌<◌, ◌^◌, ◌++◌, map, flat_map, length, OnOk, IfOk};
ghost use Rattle.std.specs.List.{AllByRecursion};
ghost use Rattle.tam_word.specs.Lists.{below};
ghost use Rattle.tl0_code.specs.CodeRules.{IsChecked};
ghost use Rattle.rv_image.specs.ImageFiles.{max_words};
ghost use Rattle.rv_keep.specs.Image.{start_of, code_table, record_of, record_and_inlets, words_in_all};
ghost use Rattle.rv_gen.specs.Sayable.{IsInletThere};
ghost use Rattle.rv_gen.specs.Parts.{inlet_at, record_at};

use crate::frame_record::{cell_at, slot_at};
use crate::kernel::KERNEL_WORDS;
use crate::lengths::record_words;
use crate::threads::{code_at, starts_in};
use std::alloc::Global;
use tam_edge::NoMemory;
use tl0_code::{Code0, Inlet, Program0, Thread};

// How many words of a record stand before its entry counts.
const RECORD_HEAD: u32 = 4;

/// Puts the address of each code's record behind the words, where their table stands at an address.
///
/// docs/MACHINE.md, "Machine code".
pub fn push_table(words: &mut Vec<u32>, program: &Program0, table: u32) -> Result<(), NoMemory>
    requires fits { words_in_all program.now ≤ max_words }
    requires table { table ≡ code_table program.now }
    ensures ok { OnOk result (words.new.items ≡ words.old.items ++ map (record_of program.now) (below (length program.now.codes))) }
{
    let codes = program.codes();
    let mut address = table + 4 * codes.len() as u32;
    for number in 0..codes.len() {
        words.push(address)?;
        address += 4 * record_words(&codes[number]);
    }
    Ok(())
}

/// Puts the records of all codes with their inlet tables behind the words.
///
/// docs/MACHINE.md, "Machine code".
pub fn push_records(
    alloc: Global,
    words: &mut Vec<u32>,
    program: &Program0,
    table: u32,
) -> Result<(), NoMemory>
    requires checked { IsChecked program.now }
    requires fits { words_in_all program.now ≤ max_words }
    requires table { table ≡ code_table program.now }
    ensures ok { OnOk result (words.new.items ≡ words.old.items ++ flat_map (record_and_inlets program.now) (below (length program.now.codes))) }
{
    let codes = program.codes();
    let mut first = 4 * KERNEL_WORDS;
    let mut address = table + 4 * codes.len() as u32;
    for number in 0..codes.len() as u32 {
        first = push_code_record(alloc, words, program, number, first, address)?;
        address += 4 * record_words(&codes[number as usize]);
    }
    Ok(())
}

// Those of a code whose threads begin at an address, and whose record stands at another. What stands behind its threads begins at the one that
// is given.
fn push_code_record(
    alloc: Global,
    words: &mut Vec<u32>,
    program: &Program0,
    number: u32,
    first: u32,
    address: u32,
) -> Result<u32, NoMemory>
    requires checked { IsChecked program.now }
    requires fits { words_in_all program.now ≤ max_words }
    requires there { number < length program.now.codes }
    requires first { first ≡ start_of program.now number 0 }
    requires address { address ≡ record_of program.now number }
    ensures ok { IfOk result (λ _. words.new.items ≡ words.old.items ++ record_and_inlets program.now number) }
    ensures next { IfOk result (λ next. next ≡ start_of program.now (number + 1) 0) }
{
    let code = code_at(program, number);
    let starts = starts_in(alloc, program, number, first)?;
    let inlets = address + 4 * (RECORD_HEAD + code.threads().len() as u32);
    push_record(words, inlets, code, &starts)?;
    Ok(starts[code.threads().len()])
}

// The record and the inlet table of a code, where the table stands at an address, and its threads begin at these.
fn push_record(
    words: &mut Vec<u32>,
    table: u32,
    code: &Code0,
    starts: &[u32],
) -> Result<(), NoMemory>
    requires some_thread { 0 < length starts.now }
    requires few_threads { length starts.now ≤ 3074 }
    requires there { AllByRecursion (IsInletThere code.now.slots (length starts.now)) code.now.inlets }
    ensures ok { OnOk result (words.new.items ≡ words.old.items ++ record_at table starts.now code.now) }
{
    let threads = code.threads();
    let cells = cell_at(code.slots(), 0);
    words.extend_from_slice(&[table, cells, threads.len() as u32, starts[0]])?;
    push_counts(words, threads)?;
    push_inlets(words, code.slots(), starts, code.inlets())
}

fn push_counts(words: &mut Vec<u32>, threads: &[Thread]) -> Result<(), NoMemory>
    ensures ok { OnOk result (words.new.items ≡ words.old.items ++ map (λ t. t.count) threads.now) }
{
    let mut rest = threads;
    while let [thread, after @ ..] = rest {
        words.push(thread.count())?;
        rest = after;
    }
    Ok(())
}

fn push_inlets(
    words: &mut Vec<u32>,
    slots: u32,
    starts: &[u32],
    inlets: &[Inlet],
) -> Result<(), NoMemory>
    requires few_slots { slots ≤ 1026 }
    requires few_threads { length starts.now ≤ 3074 }
    requires there { AllByRecursion (IsInletThere slots (length starts.now)) inlets.now }
    ensures ok { OnOk result (words.new.items ≡ words.old.items ++ flat_map (inlet_at slots starts.now) inlets.now) }
{
    let mut rest = inlets;
    while let [inlet, after @ ..] = rest {
        let cell = cell_at(slots, inlet.thread);
        let start = starts[inlet.thread as usize];
        words.extend_from_slice(&[slot_at(inlet.slot), cell, start, 0])?;
        rest = after;
    }
    Ok(())
}
