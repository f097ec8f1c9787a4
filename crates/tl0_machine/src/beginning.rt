// The begin of an activation.
ghost use Rattle.std.specs.Prelude.{ℕ, List, ◌≡◌, ◌≢◌, ◌+◌, ◌-◌, ◌<◌, ◌≤◌, ◌^◌, length, slice_index, vec_capacity, IsTrue};
ghost use Rattle.tam_word.specs.Lists.{put_at};
ghost use Rattle.tam_msgs.specs.declared.item.Item.{Item};
ghost use Rattle.tam_msgs.specs.declared.limits.Limits.{Limits};
ghost use Rattle.frame_tables.specs.FrameTables.{is_live, live_count, next_number, count_in};
ghost use Rattle.tl0_code.specs.Machines.{Fine};
ghost use Rattle.tl0_code.specs.ThreadRuns.{begin};
ghost use Rattle.tl0_machine.specs.ThreadStates.{HasRoom, IsKept, beside_frames, beside_begin, machine_of};
ghost use Rattle.tl0_machine.specs.ThreadEvents.{with_frame_in};

use crate::code_table::CodeTable;
use crate::thread_state::ThreadState;

// A frame is of this code from now on. A number that is passed over has code 0 then.
fn put_code(codes: &mut Vec<u32>, f: u32, code: u32)
    requires room { f < vec_capacity codes.old }
    ensures value { codes.new.items ≡ put_at 0 f code codes.old.items }
    ensures room { vec_capacity codes.new ≡ vec_capacity codes.old }
{
    let f = f as usize;
    while codes.len() <= f {
        codes.push_reserved(0);
    }
    codes[f] = code;
}

// A frame of a code with these entry counts is taken, by its number.
fn take_frame(state: &mut ThreadState, code: u32, counts: &[u32], first: u32, second: u32) -> u32
    requires first_slots { 2 ≤ state.old.frames.slots }
    requires fit { length counts.now ≤ state.old.frames.threads }
    requires some { 0 < slice_index counts.now 0 }
    requires free { live_count state.old.frames.table ≢ state.old.frames.count }
    requires room { state.old.frames.count ≤ vec_capacity state.old.codes }
    ensures number { result ≡ next_number state.old.frames.table }
    ensures table { state.new.frames.table ≡ with_frame_in state.old.frames counts.now first second }
    ensures codes { state.new.codes.items ≡ put_at 0 result code state.old.codes.items }
    ensures beside { beside_frames state.new ≡ beside_frames state.old }
    ensures live { IsTrue (is_live state.new.frames.table result) }
    ensures counted { 0 < count_in state.new.frames.table result 0 }
{
    let Ok(f) = state.frames.take(counts) else {
        unreachable!();
    };
    state.frames.set(f, 0, first);
    state.frames.set(f, 1, second);
    put_code(&mut state.codes, f, code);
    f
}

/// An activation of a code begins: its frame is taken, with its first two slots, and its thread 0 is spent once. Gives the frame's number.
///
/// docs/THREADS.md, "Runs of threads".
pub(crate) fn begin(
    state: &mut ThreadState,
    table: &CodeTable,
    code: u32,
    first: u32,
    second: u32,
) -> u32
    requires room { HasRoom table.now state.old.frames.count state.old.frames }
    requires code_room { state.old.frames.count ≤ vec_capacity state.old.codes }
    requires there { code < length table.now.codes }
    requires free { live_count state.old.frames.table ≢ state.old.frames.count }
    requires begun { state.old.begun < 2 ^ 32 - 1 }
    ensures value { (order : List Item) (printed : List (ℕ × ℕ))
        → begin table.now (machine_of state.old order printed) code first second ≡ Fine (machine_of state.new order printed) }
    ensures number { result ≡ next_number state.old.frames.table }
    ensures kept { (limits : Limits) → IsKept table.now limits state.old → IsKept table.now limits state.new }
    ensures begun { state.new.begun ≡ state.old.begun + 1 }
    ensures beside { beside_begin state.new ≡ beside_begin state.old }
{
    let Some(counts) = table.counts(code) else {
        unreachable!();
    };
    let f = take_frame(state, code, counts, first, second);
    // An entry count is never 0, so there is one to spend.
    state.frames.spend(f, 0);
    state.begun += 1;
    f
}
