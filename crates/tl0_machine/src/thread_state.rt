// What changes in a run of threads.
ghost use Rattle.std.specs.Prelude.{◌≡◌, ◌<◌, ◌+◌, ◌%◌, ◌^◌, ◌∷◌, [], ◌++◌, slice_index, IsOk, OnOk};

use tam_edge::NoMemory;
use tam_frames::Frames;
use tam_istr::Cells;
use tam_msgs::{Message, Pending};

/// The number that names the outside.
pub const OUTSIDE: u32 = u32::MAX;

/// What changes in a run of threads.
#[derive(Drop)]
pub struct ThreadState {
    pub frames: Frames,
    /// The code of the frame that has, or had last, this number.
    pub codes: Vec<u32>,
    /// How many activations have begun.
    pub begun: u32,
    pub pending: Pending,
    pub cells: Cells,
    /// For each result of `main` whether it went outside.
    pub printed: Vec<bool>,
    pub events: u32,
}

// The code of a frame.
pub fn code_at(codes: &[u32], f: u32) -> u32
    ensures value { result ≡ slice_index codes.now f }
{
    if f as usize >= codes.len() {
        return 0;
    }
    codes[f as usize]
}

// The inlet so many places behind another.
pub fn inlet_behind(inlet: u32, places: u32) -> u32
    ensures value { result ≡ (inlet + places) % 2 ^ 32 }
{
    inlet.wrapping_add(places)
}

// A message is sent.
pub fn send(pending: &mut Pending, message: Message) -> Result<(), NoMemory>
    ensures ok { OnOk result (pending.new.messages ≡ pending.old.messages ++ message ∷ []) }
    ensures room { 0 < pending.old.spare → IsOk result }
{
    match pending.send(message) {
        Ok(()) => Ok(()),
        Err((_, error)) => Err(error),
    }
}
