// What the host keeps.
ghost use Rattle.std.specs.Prelude.{◌≡◌, ◌<◌, ◌∷◌, [], ◌++◌, IsOk, OnOk, OnErr};

use crate::live_numbers::LiveNumbers;
use tam_edge::NoMemory;
use tam_istr::Cells;
use tam_msgs::{Message, Pending};

/// What the host keeps, but for the order list and the results printed.
#[derive(Drop)]
pub struct HostState {
    pub pending: Pending,
    pub cells: Cells,
    pub numbers: LiveNumbers,
    /// How many activations have begun.
    pub begun: u32,
    /// For each result of `main` whether it went outside.
    pub printed: Vec<bool>,
    pub events: u32,
}

// A message is sent.
pub(crate) fn send(pending: &mut Pending, message: Message) -> Result<(), NoMemory>
    ensures ok { OnOk result (pending.new.messages ≡ pending.old.messages ++ message ∷ []) }
    ensures err { OnErr result (pending.new ≡ pending.old) }
    ensures room { 0 < pending.old.spare → IsOk result }
{
    match pending.send(message) {
        Ok(()) => Ok(()),
        Err((_, error)) => Err(error),
    }
}
