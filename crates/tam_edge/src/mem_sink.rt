// A sink in memory, of which chosen writes fail.
ghost use Rattle.std.specs.Prelude.{◌≡◌, ◌<◌, ◌≤◌, [], ◌++◌, length, take, None, Some, IfSome, IfOk, OnErr, vec_capacity};
ghost use Rattle.tam_edge.specs.Faults.{CountsPut};
ghost use Rattle.tam_edge.specs.MemSink.{SinkInMemory, PutsMemory};

use crate::calls::{at_most, is_to_fail, next_count};
use crate::{Failed, NoMemory, Sink};
use std::alloc::Global;
use std::marker::Model;

/// A sink in memory with room for so many bytes. The writes with the numbers `fail`, from 1, fail. The others take all that fits,
/// or the stated piece.
#[derive(Drop)]
pub struct MemSink {
    bytes: Vec<u8>,
    room: usize,
    fail: Vec<u32>,
    calls: u64,
    faults: u64,
    most: Option<u32>,
}

impl Model for MemSink {
    ghost Value = { SinkInMemory };

    ghost view = { λ sink. record {
      bytes = sink.bytes.items;
      room = sink.room;
      fail = sink.fail.items;
      calls = sink.calls;
      faults = sink.faults;
      most = sink.most;
    } };

    ghost invariant = { λ sink.
        (length sink.bytes.items ≤ sink.room) × (sink.room ≤ vec_capacity sink.bytes) × IfSome sink.most (λ most. 0 < most) };
}

impl MemSink {
    /// An empty sink. Takes the memory for all its room.
    pub fn new(alloc: Global, room: u32, fail: Vec<u32>) -> Result<MemSink, NoMemory>
        ensures value { IfOk result (λ sink. sink ≡ record { bytes = []; room = room; fail = fail.items; calls = 0; faults = 0; most = None }) }
    {
        Ok(MemSink {
            bytes: Vec::with_capacity(alloc, room as usize)?,
            room: room as usize,
            fail,
            calls: 0,
            faults: 0,
            most: None,
        })
    }

    /// The same sink, of which from now on one write takes at most so many bytes.
    pub fn in_pieces(mut self, most: u32) -> MemSink
        requires some { 0 < most }
        ensures value { result ≡ record self { most = Some most } }
    {
        self.most = Some(most);
        self
    }

    /// The bytes taken.
    pub fn bytes(&self) -> &[u8]
        ensures value { result.now ≡ self.now.bytes }
    {
        &self.bytes
    }
}

impl Sink for MemSink {
    ghost taken = { λ sink. Some sink.bytes };

    ghost faults = { λ sink. sink.faults };

    fn put(&mut self, piece: &[u8]) -> Result<usize, Failed>
        requires some { 0 < length piece.now }
        ensures some { IfOk result (λ n. 0 < n) }
        ensures room { IfOk result (λ n. n ≤ length piece.now) }
        ensures took { IfOk result (λ n. self.new.bytes ≡ self.old.bytes ++ take n piece.now) }
        ensures err { OnErr result (self.new.bytes ≡ self.old.bytes) }
        ensures counted { CountsPut self.old.faults self.new.faults result }

        // It fails exactly where the call is to fail or no room is left.
        ensures exact { PutsMemory self.old self.new piece.now result }
    {
        self.calls = next_count(self.calls);
        let count = at_most(self.most, piece.len().min(self.room - self.bytes.len()));
        if count == 0 || is_to_fail(&self.fail, self.calls) {
            self.faults = next_count(self.faults);
            return Err(Failed);
        }
        if self.bytes.extend_from_slice(&piece[..count]).is_err() {
            unreachable!();
        }
        Ok(count)
    }
}
