// The code and the thread that are open while a text is read.
ghost use Rattle.std.specs.Prelude.{◌≡◌, IfOk};
ghost use Rattle.tl0_text.specs.Reading.{bare, idle};
ghost use Rattle.tl0_text.specs.TextView.{code_seen, thread_seen};

use std::alloc::{AllocError, Global};
use tl0_code::{Inlet, Instr, Thread};

/// The lines of a code that were read.
#[derive(Drop)]
pub struct CodeDraft {
    pub params: u32,
    pub results: u32,
    pub slots: u32,
    pub inlets: Vec<Inlet>,
    pub threads: Vec<Thread>,
}

/// The lines of a thread that were read.
#[derive(Drop)]
pub struct ThreadDraft {
    pub count: u32,
    pub instrs: Vec<Instr>,
}

/// A code without inlets and threads.
pub fn bare(alloc: Global, params: u32, results: u32, slots: u32) -> CodeDraft
    ensures value { code_seen result ≡ bare params results slots }
{
    CodeDraft {
        params,
        results,
        slots,
        inlets: Vec::new(alloc),
        threads: Vec::new(alloc),
    }
}

/// A thread without instructions.
pub fn idle(alloc: Global, count: u32) -> ThreadDraft
    ensures value { thread_seen result ≡ idle count }
{
    ThreadDraft {
        count,
        instrs: Vec::new(alloc),
    }
}

/// A thread without instructions, with room for so many.
pub fn idle_with_room(alloc: Global, count: u32, room: usize) -> Result<ThreadDraft, AllocError>
    ensures value { IfOk result (λ thread. thread_seen thread ≡ idle count) }
{
    let instrs = Vec::with_capacity(alloc, room)?;
    Ok(ThreadDraft { count, instrs })
}
