// The run of a thread to its stop.
ghost use Rattle.std.specs.Prelude.{ℕ, List, ◌≡◌, ◌<◌, ◌≤◌, slice_index, IsTrue};
ghost use Rattle.tam_msgs.specs.declared.item.Item.{Item};
ghost use Rattle.tam_msgs.specs.Messages.{site};
ghost use Rattle.frame_tables.specs.FrameTables.{is_live, slot_in};
ghost use Rattle.tl0_code.specs.Machines.{Giving, Fine, put, spend, skipped, done, done_all, stopped, done_thread, with_message};
ghost use Rattle.tam_word.specs.Lists.{all_of};
ghost use Rattle.tl0_machine.specs.QuickEvents.{WantsNothing, is_silent};
ghost use Rattle.tl0_machine.specs.CodeFits.{IsNamed, AreNamed};
ghost use Rattle.tl0_machine.specs.ThreadStates.{beside_of, KeepsLive, Does, machine_of};

use crate::thread_state::{ThreadState, code_at, inlet_behind, send};
use crate::{Stop0, Wild};
use tam_frames::Spend;
use tam_msgs::Message;
use tam_word::apply;
use tl0_code::Instr;

const SITE_STRIDE: u32 = 1024;

// One of the entry count of a thread of frame f is spent.
pub fn spend(state: &mut ThreadState, f: u32, thread: u32) -> Result<(), Stop0>
    requires live { IsTrue (is_live state.old.frames.table f) }
    requires thread { thread < state.old.frames.threads }
    ensures value { Does (λ m. spend m f thread) state.old state.new result }
    ensures beside { beside_of state.new ≡ beside_of state.old }
    ensures live { KeepsLive state.old state.new }
    ensures quick { WantsNothing result }
{
    match state.frames.spend(f, thread) {
        Spend::Spent => Err(Stop0::Wild {
            what: Wild::Thread,
            number: thread,
        }),
        Spend::Left | Spend::Enabled => Ok(()),
    }
}

// So many further threads of frame f won't run.
fn skip(state: &mut ThreadState, f: u32, n: u32) -> Result<(), Stop0>
    requires live { IsTrue (is_live state.old.frames.table f) }
    ensures value { Does (λ m. skipped Giving m f n) state.old state.new result }
    ensures beside { beside_of state.new ≡ beside_of state.old }
    ensures live { KeepsLive state.old state.new }
    ensures quick { WantsNothing result }
{
    if n >= state.frames.owed(f) {
        return Err(Stop0::Wild {
            what: Wild::Skip,
            number: n,
        });
    }
    state.frames.lower(f, n);
    Ok(())
}

// A slot of frame f gets a word.
pub fn put(state: &mut ThreadState, f: u32, slot: u32, word: u32)
    requires live { IsTrue (is_live state.old.frames.table f) }
    requires slot { slot < state.old.frames.slots }
    ensures value { (order : List Item) (printed : List (ℕ × ℕ)) → machine_of state.new order printed ≡ put (machine_of state.old order printed) f slot word }
    ensures beside { beside_of state.new ≡ beside_of state.old }
    ensures live { KeepsLive state.old state.new }
{
    state.frames.set(f, slot, word);
}

// The word in a slot of frame f.
fn word(state: &ThreadState, f: u32, slot: u32) -> u32
    requires live { IsTrue (is_live state.now.frames.table f) }
    requires slot { slot < state.now.frames.slots }
    ensures value { result ≡ slot_in state.now.frames.table f slot }
{
    state.frames.get(f, slot)
}

// The site of a node of the code of frame f.
fn site_at(state: &ThreadState, f: u32, node: u32) -> u32
    requires code { slice_index state.now.codes.items f < 256 }
    requires node { node < 1024 }
    ensures value { result ≡ site (slice_index state.now.codes.items f) node }
{
    SITE_STRIDE * code_at(&state.codes, f) + node
}

// A message is sent.
fn post(state: &mut ThreadState, message: Message) -> Result<(), Stop0>
    ensures value { Does (λ m. Fine (with_message m message)) state.old state.new result }
    ensures beside { beside_of state.new ≡ beside_of state.old }
    ensures live { KeepsLive state.old state.new }
{
    send(&mut state.pending, message)?;
    Ok(())
}

// A slot goes to an inlet of the frame that another slot names.
fn send_word(state: &mut ThreadState, f: u32, to: u32, inlet: u32, a: u32) -> Result<(), Stop0>
    requires live { IsTrue (is_live state.old.frames.table f) }
    requires to { to < state.old.frames.slots }
    requires a { a < state.old.frames.slots }
    ensures value { Does (λ m. done Giving m f (Instr.Send to inlet a)) state.old state.new result }
    ensures beside { beside_of state.new ≡ beside_of state.old }
    ensures live { KeepsLive state.old state.new }
{
    let frame = word(state, f, to);
    let word = word(state, f, a);
    post(state, Message::Word { frame, inlet, word })
}

// A slot goes to the caller, as the result of a place.
fn ret(state: &mut ThreadState, f: u32, place: u32, a: u32) -> Result<(), Stop0>
    requires live { IsTrue (is_live state.old.frames.table f) }
    requires first_slots { 2 ≤ state.old.frames.slots }
    requires a { a < state.old.frames.slots }
    ensures value { Does (λ m. done Giving m f (Instr.Ret place a)) state.old state.new result }
    ensures beside { beside_of state.new ≡ beside_of state.old }
    ensures live { KeepsLive state.old state.new }
{
    let frame = word(state, f, 0);
    let first = word(state, f, 1);
    let inlet = inlet_behind(first, place);
    let word = word(state, f, a);
    post(state, Message::Word { frame, inlet, word })
}

// So many cells as a slot says are asked for.
fn ialloc(state: &mut ThreadState, f: u32, n: u32, inlet: u32) -> Result<(), Stop0>
    requires live { IsTrue (is_live state.old.frames.table f) }
    requires n { n < state.old.frames.slots }
    ensures value { Does (λ m. done Giving m f (Instr.Ialloc n inlet)) state.old state.new result }
    ensures beside { beside_of state.new ≡ beside_of state.old }
    ensures live { KeepsLive state.old state.new }
{
    let len = word(state, f, n);
    post(
        state,
        Message::Cells {
            len,
            frame: f,
            inlet,
        },
    )
}

// A cell is asked for its word.
fn ifetch(
    state: &mut ThreadState,
    f: u32,
    array: u32,
    index: u32,
    inlet: u32,
    node: u32,
) -> Result<(), Stop0>
    requires live { IsTrue (is_live state.old.frames.table f) }
    requires code { slice_index state.old.codes.items f < 256 }
    requires named { IsNamed state.old.frames.slots state.old.frames.threads (Instr.Ifetch array index inlet node) }
    ensures value { Does (λ m. done Giving m f (Instr.Ifetch array index inlet node)) state.old state.new result }
    ensures beside { beside_of state.new ≡ beside_of state.old }
    ensures live { KeepsLive state.old state.new }
{
    let array = word(state, f, array);
    let index = word(state, f, index);
    let site = site_at(state, f, node);
    post(
        state,
        Message::Fetch {
            array,
            index,
            frame: f,
            inlet,
            site,
        },
    )
}

// A slot goes to a cell.
fn istore(
    state: &mut ThreadState,
    f: u32,
    array: u32,
    index: u32,
    a: u32,
    node: u32,
) -> Result<(), Stop0>
    requires live { IsTrue (is_live state.old.frames.table f) }
    requires code { slice_index state.old.codes.items f < 256 }
    requires named { IsNamed state.old.frames.slots state.old.frames.threads (Instr.Istore array index a node) }
    ensures value { Does (λ m. done Giving m f (Instr.Istore array index a node)) state.old state.new result }
    ensures beside { beside_of state.new ≡ beside_of state.old }
    ensures live { KeepsLive state.old state.new }
{
    let array = word(state, f, array);
    let index = word(state, f, index);
    let site = site_at(state, f, node);
    let word = word(state, f, a);
    post(
        state,
        Message::Store {
            array,
            index,
            word,
            site,
        },
    )
}

// The thread of frame f that slot s chooses is spent.
fn switch(state: &mut ThreadState, f: u32, s: u32, yes: u32, no: u32) -> Result<(), Stop0>
    requires live { IsTrue (is_live state.old.frames.table f) }
    requires named { IsNamed state.old.frames.slots state.old.frames.threads (Instr.Switch s yes no) }
    ensures value { Does (λ m. done Giving m f (Instr.Switch s yes no)) state.old state.new result }
    ensures beside { beside_of state.new ≡ beside_of state.old }
    ensures live { KeepsLive state.old state.new }
    ensures quick { WantsNothing result }
{
    if word(state, f, s) == 0 {
        spend(state, f, no)
    } else {
        spend(state, f, yes)
    }
}

// One instruction of a thread of frame f.
fn carry_out(state: &mut ThreadState, f: u32, instr: Instr) -> Result<(), Stop0>
    requires live { IsTrue (is_live state.old.frames.table f) }
    requires first_slots { 2 ≤ state.old.frames.slots }
    requires code { slice_index state.old.codes.items f < 256 }
    requires named { IsNamed state.old.frames.slots state.old.frames.threads instr }
    ensures value { Does (λ m. done Giving m f instr) state.old state.new result }
    ensures beside { beside_of state.new ≡ beside_of state.old }
    ensures live { KeepsLive state.old state.new }
    ensures quick { IsTrue (is_silent instr) → WantsNothing result }
{
    match instr {
        Instr::Imm { d, word } => {
            put(state, f, d, word);
            Ok(())
        }
        Instr::Mov { d, a } => {
            let word = word(state, f, a);
            put(state, f, d, word);
            Ok(())
        }
        Instr::Op { op, d, a, b } => {
            let left = word(state, f, a);
            let right = word(state, f, b);
            let word = apply(op, left, right);
            put(state, f, d, word);
            Ok(())
        }
        Instr::Fork { thread } => spend(state, f, thread),
        Instr::Switch { s, yes, no } => switch(state, f, s, yes, no),
        Instr::Falloc { code, inlet } => post(
            state,
            Message::Frame {
                code,
                frame: f,
                inlet,
            },
        ),
        Instr::Send { f: to, inlet, a } => send_word(state, f, to, inlet, a),
        Instr::Ret { place, a } => ret(state, f, place, a),
        Instr::Ialloc { n, inlet } => ialloc(state, f, n, inlet),
        Instr::Ifetch {
            array,
            index,
            inlet,
            node,
        } => ifetch(state, f, array, index, inlet, node),
        Instr::Istore {
            array,
            index,
            a,
            node,
        } => istore(state, f, array, index, a, node),
        Instr::Skip { n } => skip(state, f, n),
    }
}

// Instructions of a thread of frame f, up to the first that breaks.
fn carry_out_all(state: &mut ThreadState, f: u32, instrs: &[Instr]) -> Result<(), Stop0>
    requires live { IsTrue (is_live state.old.frames.table f) }
    requires first_slots { 2 ≤ state.old.frames.slots }
    requires code { slice_index state.old.codes.items f < 256 }
    requires named { AreNamed state.old.frames.slots state.old.frames.threads instrs.now }
    ensures value { Does (λ m. done_all Giving m f instrs.now) state.old state.new result }
    ensures beside { beside_of state.new ≡ beside_of state.old }
    ensures live { KeepsLive state.old state.new }
    ensures quick { IsTrue (all_of is_silent instrs.now) → WantsNothing result }
{
    for instr in instrs {
        carry_out(state, f, *instr)?;
    }
    Ok(())
}

// The stop of a thread of frame f, which is given back where it owes nothing more.
fn stop(state: &mut ThreadState, f: u32) -> Result<(), Stop0>
    requires live { IsTrue (is_live state.old.frames.table f) }
    ensures value { Does (λ m. stopped Giving m f) state.old state.new result }
    ensures beside { beside_of state.new ≡ beside_of state.old }
    ensures quick { WantsNothing result }
{
    state.frames.lower(f, 1);
    if state.frames.owed(f) > 0 {
        state.frames.rest();
        return Ok(());
    }
    if state.frames.busy(f) {
        return Err(Stop0::Wild {
            what: Wild::Skip,
            number: 0,
        });
    }
    state.frames.give(f);
    Ok(())
}

// A thread of frame f runs to its stop.
pub fn run_thread(state: &mut ThreadState, f: u32, instrs: &[Instr]) -> Result<(), Stop0>
    requires live { IsTrue (is_live state.old.frames.table f) }
    requires first_slots { 2 ≤ state.old.frames.slots }
    requires code { slice_index state.old.codes.items f < 256 }
    requires named { AreNamed state.old.frames.slots state.old.frames.threads instrs.now }
    ensures value { Does (λ m. done_thread Giving m f instrs.now) state.old state.new result }
    ensures beside { beside_of state.new ≡ beside_of state.old }
    ensures quick { IsTrue (all_of is_silent instrs.now) → WantsNothing result }
{
    carry_out_all(state, f, instrs)?;
    stop(state, f)
}
