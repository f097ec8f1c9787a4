// The delivery of a message.
ghost use Rattle.std.specs.Prelude.{ℕ, ◌≡◌, ◌<◌, ◌≤◌, ◌++◌, length, map, IfSome, OnOk, IsTrue};
ghost use Rattle.tam_istr.specs.Cells.{fetched_from, stored_into, cells_used};
ghost use Rattle.tam_istr.specs.CellAnswers.{reader_pair};
ghost use Rattle.tam_msgs.specs.Messages.{AreLimits, answers};
ghost use Rattle.tam_msgs.specs.declared.limits.Limits.{Limits};
ghost use Rattle.frame_tables.specs.FrameTables.{is_live};
ghost use Rattle.tl0_code.specs.ThreadCode.{Program, code_text};
ghost use Rattle.tl0_code.specs.Machines.{Giving};
ghost use Rattle.tl0_code.specs.ThreadRuns.{delivered, printed_outside, word_into, accessed};
ghost use Rattle.tl0_machine.specs.CodeFits.{IsInletNamed};
ghost use Rattle.tl0_machine.specs.ThreadStates.{IsKept, KeepsAll, HasRoom, AreCodes, sizes_of};
ghost use Rattle.tl0_machine.specs.QuickEvents.{WantsNothing, is_light, answers_now};
ghost use Rattle.tl0_machine.specs.ThreadEvents.{IsDelivery, Steps, Marks};

use crate::beginning::begin;
use crate::code_table::CodeTable;
use crate::thread_state::{OUTSIDE, ThreadState, code_at, inlet_behind, send};
use crate::threads::{put, spend};
use crate::{Stop0, Wild};
use tam_edge::NoMemory;
use tam_istr::{FetchError, Fetched, Reader, StoreError};
use tam_msgs::{Limits, Message, Pending, Step, Stop};
use tl0_code::Inlet;

/// Delivers a message that is pending no more, once its event is counted.
///
/// docs/THREADS.md, "Runs of threads".
pub(crate) fn deliver(
    state: &mut ThreadState,
    table: &CodeTable,
    limits: &Limits,
    message: Message,
) -> Result<Step, Stop0>
    requires limits { AreLimits limits.now }
    requires kept { IsKept table.now limits.now state.old }
    requires counted { length state.old.cells < state.old.events }
    requires begun { state.old.begun ≤ state.old.events }
    requires wished { (c f i : ℕ) → message ≡ Message.Frame c f i → state.old.begun < state.old.events }
    requires spare { 0 < state.old.pending.spare }
    ensures value { Steps (λ m. delivered Giving table.now limits.now m message) state.old state.new result }
    ensures marks { Marks state.old state.new result }
    ensures kept { IsKept table.now limits.now state.new }
    ensures begun { state.new.begun ≤ state.new.events }
    ensures goes { IsDelivery result }
    ensures quick { IsTrue (is_light state.old.cells message) → WantsNothing result }
{
    match message {
        Message::Word { frame, inlet, word } => deliver_word(state, table, frame, inlet, word),
        Message::Frame { code, frame, inlet } => {
            begin_for(state, table, limits, code, frame, inlet)
        }
        Message::Cells { len, frame, inlet } => make_cells(state, limits, len, frame, inlet),
        Message::Fetch {
            array,
            index,
            frame,
            inlet,
            site,
        } => fetch(state, array, index, Reader { frame, inlet }, site),
        Message::Store {
            array,
            index,
            word,
            site,
        } => store(state, array, index, word, site),
    }
}

// A word goes outside, or to a frame.
fn deliver_word(
    state: &mut ThreadState,
    table: &CodeTable,
    frame: u32,
    inlet: u32,
    word: u32,
) -> Result<Step, Stop0>
    requires room { HasRoom table.now state.old.frames.count state.old.frames }
    requires codes { AreCodes table.now state.old.codes.items }
    requires marked { length state.old.printed.items ≡ (code_text table.now table.now.main).results }
    ensures value { (limits : Limits) → Steps (λ m. delivered Giving table.now limits m (Message.Word frame inlet word)) state.old state.new result }
    ensures marks { Marks state.old state.new result }
    ensures sizes { sizes_of state.new ≡ sizes_of state.old }
    ensures goes { IsDelivery result }
    ensures quick { WantsNothing result }
{
    if frame == OUTSIDE {
        return print(state, table, inlet, word);
    }
    if !state.frames.live(frame) {
        return Err(Stop0::Wild {
            what: Wild::Frame,
            number: frame,
        });
    }
    let to = table.inlet(code_at(&state.codes, frame), inlet);
    word_into(state, frame, inlet, word, to)
}

// A word goes outside, as the result of a place.
fn print(state: &mut ThreadState, table: &CodeTable, place: u32, word: u32) -> Result<Step, Stop0>
    requires marked { length state.old.printed.items ≡ (code_text table.now table.now.main).results }
    ensures value { Steps (λ m. printed_outside table.now m place word) state.old state.new result }
    ensures marks { Marks state.old state.new result }
    ensures sizes { sizes_of state.new ≡ sizes_of state.old }
    ensures goes { IsDelivery result }
    ensures quick { WantsNothing result }
{
    if place >= table.results() || state.printed[place as usize] {
        return Err(Stop0::Wild {
            what: Wild::Place,
            number: place,
        });
    }
    state.printed[place as usize] = true;
    Ok(Step::Printed { place, word })
}

// A word goes into the slot of an inlet of a live frame, where the frame's code has the inlet, and one of the entry count of its thread is spent.
fn word_into(
    state: &mut ThreadState,
    frame: u32,
    inlet: u32,
    word: u32,
    to: Option<Inlet>,
) -> Result<Step, Stop0>
    requires live { IsTrue (is_live state.old.frames.table frame) }
    requires named { IfSome to (λ to. IsInletNamed state.old.frames.slots state.old.frames.threads to) }
    ensures value { Steps (λ m. word_into m frame inlet word to) state.old state.new result }
    ensures marks { Marks state.old state.new result }
    ensures sizes { sizes_of state.new ≡ sizes_of state.old }
    ensures goes { IsDelivery result }
    ensures quick { WantsNothing result }
{
    let Some(to) = to else {
        return Err(Stop0::Wild {
            what: Wild::Inlet,
            number: inlet,
        });
    };
    put(state, frame, to.slot, word);
    spend(state, frame, to.thread)?;
    Ok(Step::Delivered)
}

// An activation begins, and its number goes to who asked.
fn begin_for(
    state: &mut ThreadState,
    table: &CodeTable,
    limits: &Limits,
    code: u32,
    frame: u32,
    inlet: u32,
) -> Result<Step, Stop0>
    requires limits { AreLimits limits.now }
    requires kept { IsKept table.now limits.now state.old }
    requires begun { state.old.begun < state.old.events }
    requires spare { 0 < state.old.pending.spare }
    ensures value { Steps (λ m. delivered Giving table.now limits.now m (Message.Frame code frame inlet)) state.old state.new result }
    ensures marks { Marks state.old state.new result }
    ensures kept { IsKept table.now limits.now state.new }
    ensures begun { state.new.begun ≤ state.new.events }
    ensures goes { IsDelivery result }
    ensures quick { WantsNothing result }
{
    if state.frames.used() == limits.frames {
        return Err(Stop0::Stop(Stop::FramesFull {
            count: limits.frames,
        }));
    }
    // A code that isn't there has no thread that could be spent.
    if table.counts(code).is_none() {
        return Err(Stop0::Wild {
            what: Wild::Thread,
            number: 0,
        });
    }
    let word = begin(state, table, code, frame, inlet_behind(inlet, 1));
    send(&mut state.pending, Message::Word { frame, inlet, word })?;
    Ok(Step::Delivered)
}

// An array is made, and its number goes to who asked.
fn make_cells(
    state: &mut ThreadState,
    limits: &Limits,
    len: u32,
    frame: u32,
    inlet: u32,
) -> Result<Step, Stop0>
    requires limits { AreLimits limits.now }
    requires cells { cells_used state.old.cells ≤ limits.now.cells }
    requires counted { length state.old.cells < state.old.events }
    ensures value { (p : Program) → Steps (λ m. delivered Giving p limits.now m (Message.Cells len frame inlet)) state.old state.new result }
    ensures marks { Marks state.old state.new result }
    ensures kept { KeepsAll limits.now state.old state.new }
    ensures begun { state.new.begun ≡ state.old.begun }
    ensures events { state.new.events ≡ state.old.events }
    ensures goes { IsDelivery result }
{
    let used = state.cells.used();
    if used + u64::from(len) > u64::from(limits.cells) {
        return Err(Stop0::Stop(Stop::CellsFull {
            used: used as u32,
            len,
        }));
    }
    let word = state.cells.alloc_cells(len)?;
    send(&mut state.pending, Message::Word { frame, inlet, word })?;
    Ok(Step::Delivered)
}

// The word of a cell goes to who asked, or who asked waits for it.
fn fetch(
    state: &mut ThreadState,
    array: u32,
    index: u32,
    reader: Reader,
    site: u32,
) -> Result<Step, Stop0>
    requires spare { 0 < state.old.pending.spare }
    ensures value { Steps (λ m. accessed m site array index (reader_pair reader) 0 (fetched_from m.arrays array index (reader_pair reader)))
        state.old state.new result }
    ensures marks { Marks state.old state.new result }
    ensures sizes { sizes_of state.new ≡ sizes_of state.old }
    ensures goes { IsDelivery result }
    ensures quick { IsTrue (answers_now (fetched_from state.old.cells array index (reader_pair reader))) → WantsNothing result }
{
    match state.cells.fetch(array, index, reader) {
        Ok(Fetched::Now(word)) => {
            let Reader { frame, inlet } = reader;
            send(&mut state.pending, Message::Word { frame, inlet, word })?;
            Ok(Step::Delivered)
        }
        Ok(Fetched::Deferred) => Ok(Step::Delivered),
        Err(FetchError::OutOfRange { len }) => {
            Err(Stop0::Stop(Stop::OutOfRange { site, index, len }))
        }
        Err(FetchError::NoArray) => Err(Stop0::Wild {
            what: Wild::Array,
            number: array,
        }),
        Err(FetchError::NoMemory) => Err(Stop0::Stop(Stop::NoMemory)),
    }
}

// A word goes into a cell, and to those who waited for it.
fn store(
    state: &mut ThreadState,
    array: u32,
    index: u32,
    word: u32,
    site: u32,
) -> Result<Step, Stop0>
    ensures value { Steps (λ m. accessed m site array index (0, 0) word (stored_into m.arrays array index word site)) state.old state.new result }
    ensures marks { Marks state.old state.new result }
    ensures sizes { sizes_of state.new ≡ sizes_of state.old }
    ensures goes { IsDelivery result }
{
    match state.cells.store(array, index, word, site) {
        Ok(readers) => {
            send_answers(&mut state.pending, word, &readers)?;
            Ok(Step::Delivered)
        }
        Err(StoreError::Twice { first }) => Err(Stop0::Stop(Stop::DoubleWrite {
            first,
            second: site,
        })),
        Err(StoreError::OutOfRange { len }) => {
            Err(Stop0::Stop(Stop::OutOfRange { site, index, len }))
        }
        Err(StoreError::NoArray) => Err(Stop0::Wild {
            what: Wild::Array,
            number: array,
        }),
    }
}

// The word of a cell goes to those who waited for it.
fn send_answers(pending: &mut Pending, word: u32, readers: &[Reader]) -> Result<(), NoMemory>
    ensures ok { OnOk result (pending.new.messages ≡ pending.old.messages ++ answers word (map reader_pair readers.now)) }
{
    for reader in readers {
        let message = Message::Word {
            frame: reader.frame,
            inlet: reader.inlet,
            word,
        };
        send(pending, message)?;
    }
    Ok(())
}
