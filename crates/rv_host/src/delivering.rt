// The delivery of a message.
ghost use Rattle.std.specs.Prelude.{ℕ, List, ◌≡◌, ◌+◌, ◌<◌, ◌≤◌, ◌++◌, ◌%◌, ◌^◌, length, map, OnOk};
ghost use Rattle.tam_msgs.specs.declared.item.Item.{Item};
ghost use Rattle.tam_istr.specs.Cells.{fetched_from, stored_into, cells_used};
ghost use Rattle.tam_istr.specs.CellAnswers.{reader_pair};
ghost use Rattle.tam_msgs.specs.Messages.{AreLimits, answers};
ghost use Rattle.rv_inst.specs.Images.{Image};
ghost use Rattle.rv_inst.specs.Harts.{with_reg};
ghost use Rattle.rv_keep.specs.HostRuns.{delivered, printed_outside, accessed};
ghost use Rattle.rv_host.specs.HostStates.{IsKept, sizes_of};
ghost use Rattle.rv_host.specs.HostEvents.{Delivers, Makes, Marks, GoesOn};

use crate::host_state::{HostState, send};
use crate::{HostWild, StopRv};
use rv_machine::Rv;
use tam_edge::NoMemory;
use tam_istr::{FetchError, Fetched, Reader, StoreError};
use tam_msgs::{Limits, Message, Pending, Step, Stop};

// The number that names the outside.
const OUTSIDE: u32 = u32::MAX;

// What the machine is to do behind a poll.
const NOTHING: u32 = 0;

const TAKE_WORD: u32 = 2;

const BEGIN_FRAME: u32 = 3;

/// Delivers a message that is pending no more, once its event is counted.
///
/// docs/MACHINE.md, "The host".
pub(crate) fn deliver(
    state: &mut HostState,
    rv: &mut Rv,
    limits: &Limits,
    message: Message,
) -> Result<Step, StopRv>
    requires limits { AreLimits limits.now }
    requires kept { IsKept limits.now state.old }
    requires counted { length state.old.cells < state.old.events }
    requires spare { 0 < state.old.pending.spare }
    ensures value { Makes (λ image s. delivered image limits.now s message) state.old state.new rv.old rv.new result }
    ensures marks { Marks state.old state.new result }
    ensures kept { IsKept limits.now state.new }
    ensures results { length state.new.printed.items ≡ length state.old.printed.items }
    ensures events { state.new.events ≡ state.old.events }
    ensures steps { rv.new.steps ≡ rv.old.steps }
    ensures goes { GoesOn result }
{
    match message {
        Message::Word { frame, inlet, word } => deliver_word(state, rv, frame, inlet, word),
        Message::Frame { code, frame, inlet } => {
            begin_for(state, rv, limits, code, frame, inlet)
        }
        Message::Cells { len, frame, inlet } => make_cells(state, rv, limits, len, frame, inlet),
        Message::Fetch {
            array,
            index,
            frame,
            inlet,
            site,
        } => fetch(state, rv, array, index, Reader { frame, inlet }, site),
        Message::Store {
            array,
            index,
            word,
            site,
        } => store(state, rv, array, index, word, site),
    }
}

// A word goes outside, or to a frame.
fn deliver_word(
    state: &mut HostState,
    rv: &mut Rv,
    frame: u32,
    inlet: u32,
    word: u32,
) -> Result<Step, StopRv>
    ensures value { (image : Image) (limits : Limits) → image.results ≡ length state.old.printed.items
        → Delivers (λ s. delivered image limits s (Message.Word frame inlet word)) state.old state.new rv.old rv.new result }
    ensures marks { Marks state.old state.new result }
    ensures sizes { sizes_of state.new ≡ sizes_of state.old }
    ensures numbers { state.new.numbers ≡ state.old.numbers }
    ensures steps { rv.new.steps ≡ rv.old.steps }
    ensures goes { GoesOn result }
{
    if frame == OUTSIDE {
        return print(state, rv, inlet, word);
    }
    if !state.numbers.is_live(frame) {
        return Err(StopRv::Wild {
            what: HostWild::Frame,
            number: frame,
        });
    }
    rv.set_reg(10, TAKE_WORD);
    rv.set_reg(11, frame);
    rv.set_reg(12, inlet);
    rv.set_reg(13, word);
    Ok(Step::Delivered)
}

// The host has done it by itself.
fn done_here(rv: &mut Rv)
    ensures value { rv.new ≡ with_reg rv.old 10 0 }
{
    rv.set_reg(10, NOTHING);
}

// A word goes outside, as the result of a place.
fn print(state: &mut HostState, rv: &mut Rv, place: u32, word: u32) -> Result<Step, StopRv>
    ensures value { (image : Image) → image.results ≡ length state.old.printed.items
        → Delivers (λ s. printed_outside image s place word) state.old state.new rv.old rv.new result }
    ensures marks { Marks state.old state.new result }
    ensures sizes { sizes_of state.new ≡ sizes_of state.old }
    ensures numbers { state.new.numbers ≡ state.old.numbers }
    ensures steps { rv.new.steps ≡ rv.old.steps }
    ensures goes { GoesOn result }
{
    if place as usize >= state.printed.len() || state.printed[place as usize] {
        return Err(StopRv::Wild {
            what: HostWild::Place,
            number: place,
        });
    }
    state.printed[place as usize] = true;
    done_here(rv);
    Ok(Step::Printed { place, word })
}

// An activation gets a number, which goes to who asked, and the machine is to begin its frame.
fn begin_for(
    state: &mut HostState,
    rv: &mut Rv,
    limits: &Limits,
    code: u32,
    frame: u32,
    inlet: u32,
) -> Result<Step, StopRv>
    requires kept { IsKept limits.now state.old }
    requires spare { 0 < state.old.pending.spare }
    ensures value { Makes (λ image s. delivered image limits.now s (Message.Frame code frame inlet)) state.old state.new rv.old rv.new result }
    ensures marks { Marks state.old state.new result }
    ensures sizes { sizes_of state.new ≡ sizes_of state.old }
    ensures steps { rv.new.steps ≡ rv.old.steps }
    ensures goes { GoesOn result }
{
    if state.numbers.count() == limits.frames {
        return Err(StopRv::Stop(Stop::FramesFull {
            count: limits.frames,
        }));
    }
    // No room to count one more, which takes as many events as a budget allows, each of them a wish for a frame.
    if state.begun == u32::MAX {
        return Err(StopRv::Stop(Stop::NoMemory));
    }
    let number = state.numbers.take();
    state.begun += 1;
    send(
        &mut state.pending,
        Message::Word {
            frame,
            inlet,
            word: number,
        },
    )?;
    rv.set_reg(10, BEGIN_FRAME);
    rv.set_reg(11, number);
    rv.set_reg(12, code);
    rv.set_reg(13, frame);
    rv.set_reg(14, inlet.wrapping_add(1));
    Ok(Step::Delivered)
}

// An array is made, and its number goes to who asked.
fn make_cells(
    state: &mut HostState,
    rv: &mut Rv,
    limits: &Limits,
    len: u32,
    frame: u32,
    inlet: u32,
) -> Result<Step, StopRv>
    requires limits { AreLimits limits.now }
    requires kept { IsKept limits.now state.old }
    requires counted { length state.old.cells < state.old.events }
    ensures value { (image : Image) → Delivers (λ s. delivered image limits.now s (Message.Cells len frame inlet)) state.old state.new rv.old rv.new result }
    ensures marks { Marks state.old state.new result }
    ensures kept { IsKept limits.now state.new }
    ensures results { length state.new.printed.items ≡ length state.old.printed.items }
    ensures events { state.new.events ≡ state.old.events }
    ensures numbers { state.new.numbers ≡ state.old.numbers }
    ensures steps { rv.new.steps ≡ rv.old.steps }
    ensures goes { GoesOn result }
{
    let used = state.cells.used();
    if used + u64::from(len) > u64::from(limits.cells) {
        return Err(StopRv::Stop(Stop::CellsFull {
            used: used as u32,
            len,
        }));
    }
    let word = state.cells.alloc_cells(len)?;
    send(&mut state.pending, Message::Word { frame, inlet, word })?;
    done_here(rv);
    Ok(Step::Delivered)
}

// The word of a cell goes to who asked, or who asked waits for it.
fn fetch(
    state: &mut HostState,
    rv: &mut Rv,
    array: u32,
    index: u32,
    reader: Reader,
    site: u32,
) -> Result<Step, StopRv>
    ensures value { Delivers (λ s. accessed s site array index (reader_pair reader) 0 (fetched_from s.arrays array index (reader_pair reader)))
        state.old state.new rv.old rv.new result }
    ensures marks { Marks state.old state.new result }
    ensures sizes { sizes_of state.new ≡ sizes_of state.old }
    ensures numbers { state.new.numbers ≡ state.old.numbers }
    ensures steps { rv.new.steps ≡ rv.old.steps }
    ensures goes { GoesOn result }
{
    match state.cells.fetch(array, index, reader) {
        Ok(Fetched::Now(word)) => {
            let Reader { frame, inlet } = reader;
            send(&mut state.pending, Message::Word { frame, inlet, word })?;
            done_here(rv);
            Ok(Step::Delivered)
        }
        Ok(Fetched::Deferred) => {
            done_here(rv);
            Ok(Step::Delivered)
        }
        Err(FetchError::OutOfRange { len }) => {
            Err(StopRv::Stop(Stop::OutOfRange { site, index, len }))
        }
        Err(FetchError::NoArray) => Err(StopRv::Wild {
            what: HostWild::Array,
            number: array,
        }),
        Err(FetchError::NoMemory) => Err(StopRv::Stop(Stop::NoMemory)),
    }
}

// A word goes into a cell, and to those who waited for it.
fn store(
    state: &mut HostState,
    rv: &mut Rv,
    array: u32,
    index: u32,
    word: u32,
    site: u32,
) -> Result<Step, StopRv>
    ensures value { Delivers (λ s. accessed s site array index (0, 0) word (stored_into s.arrays array index word site))
        state.old state.new rv.old rv.new result }
    ensures marks { Marks state.old state.new result }
    ensures sizes { sizes_of state.new ≡ sizes_of state.old }
    ensures numbers { state.new.numbers ≡ state.old.numbers }
    ensures steps { rv.new.steps ≡ rv.old.steps }
    ensures goes { GoesOn result }
{
    match state.cells.store(array, index, word, site) {
        Ok(readers) => {
            send_answers(&mut state.pending, word, &readers)?;
            done_here(rv);
            Ok(Step::Delivered)
        }
        Err(StoreError::Twice { first }) => Err(StopRv::Stop(Stop::DoubleWrite {
            first,
            second: site,
        })),
        Err(StoreError::OutOfRange { len }) => {
            Err(StopRv::Stop(Stop::OutOfRange { site, index, len }))
        }
        Err(StoreError::NoArray) => Err(StopRv::Wild {
            what: HostWild::Array,
            number: array,
        }),
    }
}

// The word of a cell goes to those who waited for it.
fn send_answers(pending: &mut Pending, word: u32, readers: &[Reader]) -> Result<(), NoMemory>
    ensures ok { OnOk result (pending.new.messages ≡ pending.old.messages ++ answers word (map reader_pair readers.now)) }
{
    for reader in readers {
        let message = Message::Word {
            frame: reader.frame,
            inlet: reader.inlet,
            word,
        };
        send(pending, message)?;
    }
    Ok(())
}
