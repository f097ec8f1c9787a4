// The lines of a run's text.
ghost use Rattle.std.specs.Prelude.{◌≡◌, ◌++◌, ◌∷◌, [], map, IfOk, OnOk, IfSome};
ghost use Rattle.std.specs.Fmt.{decimal};
ghost use Rattle.tam_word.specs.Words.{signed_text};
ghost use Rattle.tam_msgs.specs.Runs.{line, result_line, site_text, end_text, missing_line, count_lines};
ghost use Rattle.tam_msgs.specs.Runs as End;
ghost use Rattle.rv_inst.specs.Traps.{trap_text};
ghost use Rattle.tam_run.specs.Accounts.{instructions_line};
ghost use Rattle.tam_run.specs.Ends.{end_of_stop, cause_of};
ghost use Rattle.tam_run.specs.LineLists.{texts_of};
ghost use Rattle.tam_run.specs.Tallies.{tally_lines};

use crate::{Cause, Tally};
use itoa::Buffer;
use rv_inst::TrapCause;
use std::alloc::{AllocError, Global};
use tam_msgs::{Counts, Stop};
use tam_word::{print_number, print_word};

// A site is this times the number of a code, plus the number of a node.
const SITES_OF_CODE: u32 = 1024;

// Adds a word in signed decimal.
fn push_word(line: &mut Vec<u8>, word: u32) -> Result<(), AllocError>
    ensures ok { OnOk result (line.new.items ≡ line.old.items ++ signed_text word) }
{
    let mut digits = [0; 11];
    let len = print_word(word, &mut digits);
    line.extend_from_slice(&digits[..len])
}

// Adds a number in decimal.
fn push_number(line: &mut Vec<u8>, number: u32) -> Result<(), AllocError>
    ensures ok { OnOk result (line.new.items ≡ line.old.items ++ decimal number) }
{
    let mut digits = [0; 10];
    let len = print_number(number, &mut digits);
    line.extend_from_slice(&digits[..len])
}

// Adds a site: code, `.`, node.
fn push_site(line: &mut Vec<u8>, site: u32) -> Result<(), AllocError>
    ensures ok { OnOk result (line.new.items ≡ line.old.items ++ site_text site) }
{
    push_number(line, site / SITES_OF_CODE)?;
    line.extend_from_slice(b".")?;
    push_number(line, site % SITES_OF_CODE)
}

/// The line of a result.
pub fn result_line(alloc: Global, place: u32, word: u32) -> Result<Vec<u8>, AllocError>
    ensures value { IfOk result (λ line. line.items ≡ result_line (place, word)) }
{
    let mut line = Vec::from_slice(alloc, b"result ")?;
    push_number(&mut line, place)?;
    line.extend_from_slice(b" = ")?;
    push_word(&mut line, word)?;
    line.extend_from_slice(b"\n")?;
    Ok(line)
}

// A line of a text and a number.
fn number_line(alloc: Global, text: &[u8], number: u32) -> Result<Vec<u8>, AllocError>
    ensures value { IfOk result (λ made. made.items ≡ line (text.now ++ decimal number)) }
{
    let mut made = Vec::from_slice(alloc, text)?;
    push_number(&mut made, number)?;
    made.extend_from_slice(b"\n")?;
    Ok(made)
}

/// The line of a result that is missing.
pub fn missing_line(alloc: Global, place: u32) -> Result<Vec<u8>, AllocError>
    ensures value { IfOk result (λ made. made.items ≡ missing_line place) }
{
    number_line(alloc, b"missing ", place)
}

// The line of two sites behind a text.
fn double_write_line(alloc: Global, first: u32, second: u32) -> Result<Vec<u8>, AllocError>
    ensures value { IfOk result (λ made. made.items ≡ line (end_text (End.Double_write first second))) }
{
    let mut made = Vec::from_slice(alloc, b"double write ")?;
    push_site(&mut made, first)?;
    made.extend_from_slice(b" ")?;
    push_site(&mut made, second)?;
    made.extend_from_slice(b"\n")?;
    Ok(made)
}

// The line of an access out of range.
fn out_of_range_line(alloc: Global, site: u32, index: u32, len: u32) -> Result<Vec<u8>, AllocError>
    ensures value { IfOk result (λ made. made.items ≡ line (end_text (End.Out_of_range site index len))) }
{
    let mut made = Vec::from_slice(alloc, b"out of range ")?;
    push_site(&mut made, site)?;
    made.extend_from_slice(b" ")?;
    push_number(&mut made, index)?;
    made.extend_from_slice(b" ")?;
    push_number(&mut made, len)?;
    made.extend_from_slice(b"\n")?;
    Ok(made)
}

// The line of cells that are full.
fn cells_full_line(alloc: Global, used: u32, len: u32) -> Result<Vec<u8>, AllocError>
    ensures value { IfOk result (λ made. made.items ≡ line (end_text (End.Cells_full used len))) }
{
    let mut made = Vec::from_slice(alloc, b"cells full ")?;
    push_number(&mut made, used)?;
    made.extend_from_slice(b" ")?;
    push_number(&mut made, len)?;
    made.extend_from_slice(b"\n")?;
    Ok(made)
}

/// The line of a stop, which isn't want of memory.
pub fn stop_line(alloc: Global, stop: Stop) -> Result<Vec<u8>, AllocError>
    ensures value { IfOk result (λ made. IfSome (end_of_stop stop) (λ how. made.items ≡ line (end_text how))) }
{
    match stop {
        Stop::DoubleWrite { first, second } => double_write_line(alloc, first, second),
        Stop::OutOfRange { site, index, len } => out_of_range_line(alloc, site, index, len),
        Stop::FramesFull { count } => number_line(alloc, b"frames full ", count),
        Stop::CellsFull { used, len } => cells_full_line(alloc, used, len),
        Stop::BudgetSpent { events } => number_line(alloc, b"budget spent ", events),
        Stop::NoMemory => Ok(Vec::new(alloc)),
    }
}

/// The line of a run that is wild.
pub fn wild_line(alloc: Global, what: Cause, number: u32) -> Result<Vec<u8>, AllocError>
    ensures value { IfOk result (λ made. made.items ≡ line (end_text (End.Wild (cause_of what) number))) }
{
    match what {
        Cause::Frame => number_line(alloc, b"wild frame ", number),
        Cause::Inlet => number_line(alloc, b"wild inlet ", number),
        Cause::Thread => number_line(alloc, b"wild thread ", number),
        Cause::Array => number_line(alloc, b"wild array ", number),
        Cause::Place => number_line(alloc, b"wild result ", number),
        Cause::Ecall => number_line(alloc, b"wild ecall ", number),
        Cause::Skip => number_line(alloc, b"wild skip ", number),
    }
}

/// The line of a run that traps.
pub fn trap_line(alloc: Global, pc: u32, cause: TrapCause) -> Result<Vec<u8>, AllocError>
    ensures value { IfOk result (λ made. made.items ≡ line (end_text (End.Trap pc (trap_text cause)))) }
{
    let mut made = Vec::from_slice(alloc, b"trap ")?;
    push_number(&mut made, pc)?;
    made.extend_from_slice(b" ")?;
    made.extend_from_slice(cause.text())?;
    made.extend_from_slice(b"\n")?;
    Ok(made)
}

// The line of a number of instructions.
fn instructions_line(alloc: Global, instructions: u64) -> Result<Vec<u8>, AllocError>
    ensures value { IfOk result (λ made. made.items ≡ instructions_line instructions) }
{
    let mut made = Vec::from_slice(alloc, b"instructions ")?;
    let mut buffer = Buffer::new();
    made.extend_from_slice(buffer.format(instructions).as_bytes())?;
    made.extend_from_slice(b"\n")?;
    Ok(made)
}

// Adds a line behind the others.
pub fn push_line(lines: &mut Vec<Vec<u8>>, line: Vec<u8>) -> Result<(), AllocError>
    ensures ok { OnOk result (texts_of lines.new.items ≡ texts_of lines.old.items ++ line.items ∷ []) }
{
    lines.push(line)?;
    Ok(())
}

// Adds the lines of the counts.
fn push_counts(alloc: Global, lines: &mut Vec<Vec<u8>>, counts: Counts) -> Result<(), AllocError>
    ensures ok { OnOk result (texts_of lines.new.items ≡ texts_of lines.old.items ++ count_lines counts.events counts.activations counts.cells) }
{
    push_line(lines, number_line(alloc, b"events ", counts.events)?)?;
    push_line(
        lines,
        number_line(alloc, b"activations ", counts.activations)?,
    )?;
    push_line(lines, number_line(alloc, b"cells ", counts.cells)?)?;
    Ok(())
}

/// Adds the lines of the counts, and that of the instructions where they are counted.
pub fn push_tally(alloc: Global, lines: &mut Vec<Vec<u8>>, tally: Tally) -> Result<(), AllocError>
    ensures ok { OnOk result (texts_of lines.new.items ≡ texts_of lines.old.items ++ tally_lines tally) }
{
    push_counts(alloc, lines, tally.counts)?;
    if let Some(instructions) = tally.instructions {
        push_line(lines, instructions_line(alloc, instructions)?)?;
    }
    Ok(())
}
