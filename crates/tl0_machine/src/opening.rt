// The state before the first event.
ghost use Rattle.std.specs.Prelude.{◌≡◌, ◌<◌, ◌≤◌, ◌^◌, [], false, length, map, replicate, zip, IfOk, OnOk};
ghost use Rattle.tam_word.specs.Lists.{below};
ghost use Rattle.tam_msgs.specs.Messages.{AreLimits};
ghost use Rattle.tam_msgs.specs.declared.message.Message.TheVariants.{Word as Carry};
ghost use Rattle.tl0_code.specs.ThreadCode.{code_text};
ghost use Rattle.tl0_code.specs.ThreadRuns.{nothing_begun};
ghost use Rattle.tl0_machine.specs.ThreadStates.{state_of, machine_of, IsKept, HasFewBegun};
ghost use Rattle.tl0_machine.specs.ThreadEvents.{opening_state};

use crate::beginning::begin;
use crate::code_table::CodeTable;
use crate::thread_state::{OUTSIDE, ThreadState, send};
use std::alloc::Global;
use tam_edge::NoMemory;
use tam_frames::Frames;
use tam_istr::Cells;
use tam_msgs::{Limits, Message, Pending};

/// Frame 0 of `main` is taken, its thread 0 is spent once, and one word for each argument is pending.
///
/// docs/THREADS.md, "Runs of threads".
pub(crate) fn opening(
    alloc: Global,
    table: &CodeTable,
    args: &[u32],
    limits: &Limits,
) -> Result<ThreadState, NoMemory>
    requires args { length args.now ≡ (code_text table.now table.now.main).params }
    requires limits { AreLimits limits.now }
    ensures value { IfOk result (λ state. state_of state ≡ opening_state table.now args.now) }
    ensures kept { IfOk result (λ state. IsKept table.now limits.now state) }
    ensures few { IfOk result (λ state. HasFewBegun state) }
{
    let _params = table.params();
    let mut state = nothing_begun(alloc, table, args, limits)?;
    begin(&mut state, table, table.main(), OUTSIDE, 0);
    Ok(state)
}

// No frame has begun, and the arguments are on their way.
fn nothing_begun(
    alloc: Global,
    table: &CodeTable,
    args: &[u32],
    limits: &Limits,
) -> Result<ThreadState, NoMemory>
    requires few { length args.now < 2 ^ 32 }
    ensures value { IfOk result (λ state. machine_of state [] [] ≡ nothing_begun args.now []) }
    ensures marks { IfOk result (λ state. state.printed.items ≡ replicate (code_text table.now table.now.main).results false) }
    ensures kept { IfOk result (λ state. IsKept table.now limits.now state) }
{
    Ok(ThreadState {
        frames: Frames::new(
            alloc,
            limits.frames,
            table.widest_slots(),
            table.widest_threads(),
        )?,
        codes: Vec::with_capacity(alloc, limits.frames as usize)?,
        begun: 0,
        pending: argument_messages(alloc, args)?,
        cells: Cells::new(alloc),
        printed: vec![in alloc; false; table.results() as usize]?,
        events: 0,
    })
}

// The messages of the arguments, each to the inlet of its param.
fn argument_messages(alloc: Global, args: &[u32]) -> Result<Pending, NoMemory>
    requires few { length args.now < 2 ^ 32 }
    ensures value { IfOk result (λ pending. pending.messages ≡ map (λ kw. Carry 0 kw.0 kw.1) (zip (below (length args.now)) args.now)) }
{
    let mut pending = Pending::new(alloc);
    for (place, word) in args.iter().enumerate() {
        let inlet = place as u32;
        send(
            &mut pending,
            Message::Word {
                frame: 0,
                inlet,
                word: *word,
            },
        )?;
    }
    Ok(pending)
}
