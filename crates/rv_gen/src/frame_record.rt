// A frame's bytes: where each part of it stands, from the frame's address on.
ghost use Rattle.std.specs.Prelude.{◌≡◌, ◌≤◌};
ghost use Rattle.rv_keep.specs.FrameRecords.{slot_at, cell_at};

/// Where each part stands.
///
/// docs/MACHINE.md, "Machine code".
pub const LINK_AT: i32 = 0;

pub const HEAD_AT: i32 = 4;

pub const NUMBER_AT: i32 = 8;

pub const TABLE_AT: i32 = 12;

pub const OWED_AT: i32 = 16;

pub const SLOTS_AT: i32 = 20;
/// The link in the cell of a thread.
pub const NEXT_AT: i32 = 4;

/// A slot.
pub fn slot_at(slot: u32) -> u32
    requires few { slot ≤ 1026 }
    ensures value { result ≡ slot_at slot }
{
    SLOTS_AT as u32 + 4 * slot
}

/// The cell of a thread, where a frame has so many slots.
pub fn cell_at(slots: u32, thread: u32) -> u32
    requires few_slots { slots ≤ 1026 }
    requires few_threads { thread ≤ 3073 }
    ensures value { result ≡ cell_at slots thread }
{
    slot_at(slots) + 8 * thread
}
