// The messages on their way.
ghost use Rattle.std.specs.Prelude.{◌≡◌, ◌+◌, ◌<◌, [], ◌∷◌, ◌++◌, length, Some, slice_get, IsOk, OnOk, OnErr, IfErr};
ghost use Rattle.tam_word.specs.Lists.{without_place};

use crate::message::Message;
use std::alloc::Global;
use std::collections::VecDeque;
use std::marker::Model;
use tam_edge::NoMemory;

/// The messages on their way, the oldest first, with room for some more.
#[derive(Drop)]
pub struct Pending {
    queue: VecDeque<Message>,
}

impl Model for Pending {
    ghost use Rattle.std.specs.Prelude.{◌-◌, length};
    ghost use Rattle.std.specs.VecDeque.{deque_capacity};
    ghost use Rattle.tam_msgs.specs.PendingMessages.{PendingMessages};

    ghost Value = { PendingMessages };

    ghost view = { λ p. record { messages = p.queue.items; spare = deque_capacity p.queue - length p.queue.items } };
}

impl Pending {
    /// No messages. Takes no memory.
    pub fn new(alloc: Global) -> Pending
        ensures empty { result.messages ≡ [] }
    {
        Pending {
            queue: VecDeque::new(alloc),
        }
    }

    /// How many messages are on their way.
    pub fn len(&self) -> u64
        ensures value { result ≡ length self.now.messages }
    {
        self.queue.len() as u64
    }

    /// Takes the message at a place, and the rest keep their order.
    ///
    /// It moves the messages before the place or those behind it, whichever are fewer: none at either end, half of them in the middle.
    pub fn take(&mut self, place: u32) -> Message
        requires inside { place < length self.old.messages }
        ensures value { slice_get self.old.messages place ≡ Some result }
        ensures rest { self.new.messages ≡ without_place place self.old.messages }
        ensures spare { self.new.spare ≡ self.old.spare + 1 }
    {
        // The oldest is taken most often, and at the least cost.
        if place == 0 {
            return self.queue.pop_front().unwrap();
        }
        self.queue.remove(place as usize).unwrap()
    }

    /// Sends a message behind all others. Where no memory is left, it is handed back and nothing has changed.
    pub fn send(&mut self, m: Message) -> Result<(), (Message, NoMemory)>
        ensures ok { OnOk result (self.new.messages ≡ self.old.messages ++ m ∷ []) }
        ensures err { OnErr result (self.new ≡ self.old) }
        ensures handed_back { IfErr result (λ e. e.0 ≡ m) }

        // Where there is room it can't fail, and takes some of it.
        ensures room { 0 < self.old.spare → IsOk result }
        ensures spare { 0 < self.old.spare → self.new.spare + 1 ≡ self.old.spare }
    {
        let len = self.queue.len();
        if len == self.queue.capacity() {
            if let Err(error) = self.queue.reserve_exact(len.max(16)) {
                return Err((m, NoMemory::from(error)));
            }
        }
        self.queue.push_back_reserved(m);
        Ok(())
    }
}

#[cfg(test)]
mod tests {
    use super::*;
    use std::test::Fail;

    // A word for the outside, which is told from others by its inlet.
    fn message(inlet: u32) -> Message {
        Message::Word {
            frame: u32::MAX,
            inlet,
            word: 0,
        }
    }

    #[test]
    fn the_rest_keep_their_order(rt: HostRuntime) -> Result<(), Fail> {
        let mut pending = Pending::new(rt.alloc());
        for inlet in 0..5 {
            pending.send(message(inlet)).map_err(|(_, error)| error)?;
        }
        // Places in the lists 0 1 2 3 4, then 0 2 3 4, 0 2 3, 2 3 and 3.
        let cases = [(1, 1), (3, 4), (0, 0), (0, 2), (0, 3)];
        for (place, inlet) in cases {
            assert!(rt; u64::from(place) < pending.len());
            assert_eq!(rt; pending.take(place), message(inlet), "at place {place}");
        }
        assert_eq!(rt; pending.len(), 0);
        Ok(())
    }
}
