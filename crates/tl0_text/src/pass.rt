// What the lines of a text said so far.
ghost use Rattle.std.specs.Prelude.{◌≡◌, ◌≤◌, ◌++◌, ◌∷◌, [], OnOk, Some, length};
ghost use Rattle.tl0_code.specs.ThreadCode.{HasCodeLimits};
ghost use Rattle.tl0_code.specs.declared.code_line.CodeLine.TheVariants.{Stops, Ends};
ghost use Rattle.tl0_text.specs.Reading.{nothing_said, with_line, passes, behind_code};
ghost use Rattle.tl0_text.specs.TextView.{said, code_seen, thread_seen};

use crate::Next;
use crate::draft::{CodeDraft, ThreadDraft, bare, idle, idle_with_room};
use std::alloc::{AllocError, Global};
use std::mem;
use tam_text::{is_same, split_line};
use tl0_code::{Code0, CodeLine, Inlet, Instr, Thread};

// The most slots of a code.
const MAX_SLOTS: u32 = 1_026;

const MAX_INLETS: usize = 1_024;

const MAX_THREADS: usize = 3_073;

// The fewest bytes of the line of an instruction, its LF included.
const MIN_INSTR_LEN: usize = 7;

/// What comes next, the numbers of the head, the codes that ended, and the code and the thread that are open.
#[derive(Drop)]
pub struct Pass {
    pub next: Next,
    pub number: u32,
    pub main: u32,
    pub done: Vec<Code0>,
    pub code: CodeDraft,
    pub thread: ThreadDraft,
}

/// Before the first line.
pub fn nothing_said(alloc: Global) -> Pass
    ensures value { said result ≡ nothing_said }
{
    Pass {
        next: Next::Version,
        number: 0,
        main: 0,
        done: Vec::new(alloc),
        code: bare(alloc, 0, 0, 0),
        thread: idle(alloc, 0),
    }
}

/// Whether the line passes a limit of its code.
pub fn passes(pass: &Pass, line: &CodeLine) -> bool
    ensures value { result ≡ passes (said pass.now) (Some line.now) }
{
    match line {
        CodeLine::Head { slots, .. } => *slots > MAX_SLOTS,
        CodeLine::Into { .. } => pass.code.inlets.len() >= MAX_INLETS,
        CodeLine::Begins { .. } => pass.code.threads.len() >= MAX_THREADS,
        _ => false,
    }
}

// Appends an inlet.
fn put_inlet(code: &mut CodeDraft, inlet: Inlet) -> Result<(), AllocError>
    ensures ok { OnOk result (code_seen code.new ≡ record (code_seen code.old) { inlets = code.old.inlets.items ++ inlet ∷ [] }) }
{
    code.inlets.push(inlet)?;
    Ok(())
}

// Appends an instruction.
fn put_instr(thread: &mut ThreadDraft, instr: Instr) -> Result<(), AllocError>
    ensures ok { OnOk result (thread_seen thread.new ≡ record (thread_seen thread.old) { instrs = thread.old.instrs.items ++ instr ∷ [] }) }
{
    thread.instrs.push(instr)?;
    Ok(())
}

// Appends a thread.
fn put_thread(code: &mut CodeDraft, thread: ThreadDraft) -> Result<(), AllocError>
    ensures ok { OnOk result (code_seen code.new ≡ record (code_seen code.old) { threads = code.old.threads.items ++ thread_seen thread ∷ [] }) }
{
    code.threads.push(Thread::of(thread.count, thread.instrs))?;
    Ok(())
}

// The code whose lines were read.
fn code_of(code: CodeDraft) -> Code0
    requires limits { HasCodeLimits (code_seen code) }
    ensures value { result ≡ code_seen code }
{
    Code0::of(
        code.params,
        code.results,
        code.slots,
        code.inlets,
        code.threads,
    )
}

// Appends a code.
fn put_code(done: &mut Vec<Code0>, code: CodeDraft) -> Result<(), AllocError>
    requires limits { HasCodeLimits (code_seen code) }
    ensures ok { OnOk result (done.new.items ≡ done.old.items ++ code_seen code ∷ []) }
{
    done.push(code_of(code))?;
    Ok(())
}

// Behind a code comes another, or nothing.
fn behind_code(number: u32, done: usize) -> Next
    ensures value { result ≡ behind_code number done }
{
    if done == number as usize {
        Next::Done
    } else {
        Next::Head
    }
}

// A thread ends.
fn stop(alloc: Global, pass: &mut Pass) -> Result<(), AllocError>
    ensures ok { OnOk result (said pass.new ≡ with_line (said pass.old) Stops) }
{
    let thread = mem::replace(&mut pass.thread, idle(alloc, 0));
    put_thread(&mut pass.code, thread)?;
    pass.next = Next::Threads;
    Ok(())
}

// A code ends.
fn end(alloc: Global, pass: &mut Pass) -> Result<(), AllocError>
    requires limits { HasCodeLimits (code_seen pass.old.code) }
    ensures ok { OnOk result (said pass.new ≡ with_line (said pass.old) Ends) }
{
    let code = mem::replace(&mut pass.code, bare(alloc, 0, 0, 0));
    put_code(&mut pass.done, code)?;
    pass.next = behind_code(pass.number, pass.done.len());
    Ok(())
}

// How many bytes stand before the next line that ends a thread.
fn thread_len(text: &[u8]) -> usize
    ensures within { result ≤ length text.now }
{
    let mut len = 0;
    let mut rest = text;
    while !rest.is_empty() {
        let (line, after) = split_line(rest);
        if is_same(line, b"stop\n") {
            return len;
        }
        len += line.len();
        rest = after;
    }
    len
}

/// Adds what a line says. Where a thread begins, the text behind the line tells how much room it takes, so that none is left unused.
pub fn put_line(
    alloc: Global,
    pass: &mut Pass,
    line: &CodeLine,
    after: &[u8],
) -> Result<(), AllocError>
    requires limits { line.now ≡ Ends → HasCodeLimits (code_seen pass.old.code) }
    ensures ok { OnOk result (said pass.new ≡ with_line (said pass.old) line.now) }
{
    match line {
        CodeLine::Version => pass.next = Next::Counts,
        CodeLine::Counts { number, main } => {
            pass.number = *number;
            pass.main = *main;
            pass.next = Next::Head;
        }
        CodeLine::Head {
            params,
            results,
            slots,
        } => {
            pass.code = bare(alloc, *params, *results, *slots);
            pass.next = Next::Inlets;
        }
        CodeLine::Into { inlet } => {
            put_inlet(&mut pass.code, *inlet)?;
            pass.next = Next::Inlets;
        }
        CodeLine::Begins { count } => {
            pass.thread = idle_with_room(alloc, *count, thread_len(after) / MIN_INSTR_LEN)?;
            pass.next = Next::Instrs;
        }
        CodeLine::Does { instr } => put_instr(&mut pass.thread, *instr)?,
        CodeLine::Stops => stop(alloc, pass)?,
        CodeLine::Ends => end(alloc, pass)?,
    }
    Ok(())
}
