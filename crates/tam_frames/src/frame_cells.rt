// The frames on linked cells.
ghost use Rattle.std.specs.Prelude.{◌≡◌, ◌+◌, ◌-◌, ◌^◌, ◌<◌, ◌≤◌, ◌∷◌, ◌++◌, [], false, length, drop, get_or, slice_get, slice_set, slice_index, IfOk};
ghost use Rattle.frame_tables.specs.FrameTables.{new_frame, spend_answer};
ghost use Rattle.tam_frames.specs.HeldFrames.{held_at, held_with, none_begun, begun_with, freed, wakes, IsInNoLine};
ghost use Rattle.tam_frames.specs.FrameCells.{frame_width, start_of, second_header, thread_cell, slot_cell, ArePut};
ghost use Rattle.tam_frames.specs.StoredFrames.{has_any, frame_spent, frame_popped};

use crate::Spend;
use crate::frame_shape::FrameShape;
use linked_cells::{CellTable, Line};
use std::alloc::Global;
use std::marker::Model;
use tam_edge::NoMemory;

/// Frames by their numbers, the queue of those that wait, and those whose numbers are free. All the memory that they need is taken when they are made.
#[derive(Drop)]
pub(crate) struct FrameCells {
    /// The roots of the two lines, and behind them the cells of each frame: two headers, one for each thread, one for each slot.
    ///
    /// The first header has what the frame owes and how many threads are ready, and leads to those. The second has whether the frame is live and its number,
    /// and leads on in the line in which the frame stands. A thread has its entry count and its number.
    table: CellTable,
    /// The frames that wait for their turn.
    queue: Line,
    /// The frames that are not live.
    free: Line,
    begun: u32,
    room: u32,
    shape: FrameShape,
}

impl Model for FrameCells {
    ghost use Rattle.tam_frames.specs.HeldFrames.{HeldFrames};
    ghost use Rattle.tam_frames.specs.FrameCells.{AreHeld, held_frames};

    ghost Value = { HeldFrames };

    ghost view = { λ c. held_frames (record {
      table = c.table;
      queue = c.queue;
      free = c.free;
      begun = c.begun;
      room = c.room;
      slots = c.shape.slots;
      threads = c.shape.threads;
    }) };

    ghost invariant = { λ c. AreHeld (record {
      table = c.table;
      queue = c.queue;
      free = c.free;
      begun = c.begun;
      room = c.room;
      slots = c.shape.slots;
      threads = c.shape.threads;
    }) };
}

impl FrameCells {
    /// None has begun.
    pub(crate) fn new(
        alloc: Global,
        count: u32,
        slots: u32,
        threads: u32,
    ) -> Result<FrameCells, NoMemory>
        ensures value { IfOk result (λ frames. frames ≡ none_begun count slots threads) }
    {
        let shape = FrameShape::of(slots, threads);
        let Some(cells) = (count as usize).checked_mul(shape.width()) else {
            return Err(NoMemory);
        };
        let Some(room) = cells.checked_add(2) else {
            return Err(NoMemory);
        };
        let mut table = CellTable::new(alloc, room)?;
        table.add(0, 0);
        table.add(0, 1);
        Ok(FrameCells {
            table,
            queue: Line::new(0),
            free: Line::new(1),
            begun: 0,
            room: count,
            shape,
        })
    }

    /// How many have begun.
    #[inline]
    pub(crate) fn begun(&self) -> u32
        ensures value { result ≡ length self.now.frames }
    {
        self.begun
    }

    /// The frame is that of a new activation with these entry counts, whatever it was before, and is live.
    pub(crate) fn begin(&mut self, f: u32, counts: &[u32])
        requires there { f ≤ length self.old.frames }
        requires room { f < self.old.room }
        requires few { length counts.now ≤ self.old.threads }
        ensures value { self.new ≡ begun_with self.old f (new_frame self.old.slots self.old.threads counts.now) }
    {
        let start = self.start(f);
        let threads = self.shape.threads();
        self.table.put(start, counts.len() as u32, 0);
        self.table.put(start + 1, 1, f);
        put_numbered(&mut self.table, start + 2, counts, threads);
        put_numbered(
            &mut self.table,
            start + 2 + threads as usize,
            &[],
            self.shape.slots(),
        );
        if f == self.begun {
            self.begun += 1;
        }
    }

    #[inline]
    pub(crate) fn is_live(&self, f: u32) -> bool
        ensures value { result ≡ get_or self.now.lives f false }
    {
        f < self.begun && self.table.words(self.start(f) + 1).0 != 0
    }

    /// Whether any frame waits.
    #[inline]
    pub(crate) fn has_waiting(&self) -> bool
        ensures value { result ≡ has_any self.now.queue }
    {
        !self.queue.is_empty()
    }

    /// The frame waits behind all others.
    #[inline]
    pub(crate) fn wait(&mut self, f: u32)
        requires there { f < length self.old.frames }
        requires apart { IsInNoLine self.old f }
        ensures value { self.new ≡ record self.old { queue = self.old.queue ++ f ∷ [] } }
    {
        let header = self.start(f) + 1;
        self.queue.push_back(&mut self.table, header);
    }

    /// The frame that waits for the longest time. It waits no more.
    #[inline]
    pub(crate) fn next_waiting(&mut self) -> Option<u32>
        ensures value { result ≡ slice_get self.old.queue 0 }
        ensures rest { self.new ≡ record self.old { queue = drop 1 self.old.queue } }
    {
        self.queue.pop_front(&mut self.table)
    }

    /// The frame isn't live from now on, and its number is free.
    pub(crate) fn free(&mut self, f: u32)
        requires there { f < length self.old.frames }
        requires apart { IsInNoLine self.old f }
        ensures value { self.new ≡ freed self.old f }
    {
        let header = self.start(f) + 1;
        self.table.set_words(header, 0, f);
        self.free.push_front(&mut self.table, header);
    }

    /// The number that became free last. It is free no more, and its frame isn't live yet.
    pub(crate) fn next_free(&mut self) -> Option<u32>
        ensures value { result ≡ slice_get self.old.free 0 }
        ensures rest { self.new ≡ record self.old { free = drop 1 self.old.free } }
    {
        self.free.pop_front(&mut self.table)
    }

    #[inline]
    pub(crate) fn get(&self, f: u32, slot: u32) -> u32
        requires there { f < length self.now.frames }
        requires slot { slot < self.now.slots }
        ensures value { result ≡ slice_index (held_at self.now.frames f).slots slot }
    {
        self.table.words(self.slot_cell(f, slot)).0
    }

    #[inline]
    pub(crate) fn set(&mut self, f: u32, slot: u32, word: u32)
        requires there { f < length self.old.frames }
        requires slot { slot < self.old.slots }
        ensures value { self.new ≡ held_with self.old f (record (held_at self.old.frames f) { slots = slice_set (held_at self.old.frames f).slots slot word }) }
    {
        let cell = self.slot_cell(f, slot);
        self.table.set_words(cell, word, slot);
    }

    #[inline]
    pub(crate) fn owed(&self, f: u32) -> u32
        requires there { f < length self.now.frames }
        ensures value { result ≡ (held_at self.now.frames f).owed }
    {
        self.table.words(self.start(f)).0
    }

    #[inline]
    pub(crate) fn lower(&mut self, f: u32, n: u32)
        requires there { f < length self.old.frames }
        ensures value { self.new ≡ held_with self.old f (record (held_at self.old.frames f) { owed = (held_at self.old.frames f).owed - n }) }
    {
        let start = self.start(f);
        let (owed, ready) = self.table.words(start);
        self.table.set_words(start, owed.saturating_sub(n), ready);
    }

    #[inline]
    pub(crate) fn is_busy(&self, f: u32) -> bool
        requires there { f < length self.now.frames }
        ensures value { result ≡ has_any (held_at self.now.frames f).ready }
    {
        self.table.words(self.start(f)).1 != 0
    }

    /// What spending answers, and whether a thread is ready then where none was before.
    #[inline]
    pub(crate) fn spend(&mut self, f: u32, thread: u32) -> (Spend, bool)
        requires there { f < length self.old.frames }
        requires thread { thread < self.old.threads }
        ensures answer { result.0 ≡ spend_answer (slice_index (held_at self.old.frames f).counts thread) }
        ensures woken { result.1 ≡ wakes (held_at self.old.frames f) thread }
        ensures value { self.new ≡ held_with self.old f (frame_spent (held_at self.old.frames f) thread) }
    {
        let start = self.start(f);
        let cell = self.thread_cell(f, thread);
        match self.table.words(cell).0 {
            0 => (Spend::Spent, false),
            1 => {
                let (owed, ready) = self.table.words(start);
                self.table.set_words(cell, 0, thread);
                self.table.link(start, cell);
                self.table.set_words(start, owed, ready + 1);
                (Spend::Enabled, ready == 0)
            }
            count => {
                self.table.set_words(cell, count - 1, thread);
                (Spend::Left, false)
            }
        }
    }

    /// The thread that became ready last.
    #[inline]
    pub(crate) fn pop(&mut self, f: u32) -> Option<u32>
        requires there { f < length self.old.frames }
        ensures value { result ≡ slice_get (held_at self.old.frames f).ready 0 }
        ensures rest { self.new ≡ held_with self.old f (frame_popped (held_at self.old.frames f)) }
    {
        let start = self.start(f);
        let (owed, ready) = self.table.words(start);
        if ready == 0 {
            return None;
        }
        let thread = self.table.unlink(start);
        self.table.set_words(start, owed, ready - 1);
        Some(thread)
    }

    // The first cell of the frame.
    #[inline]
    fn start(&self, f: u32) -> usize
        requires room { f < self.now.room }
        ensures value { result ≡ start_of self.now.slots self.now.threads f }
        ensures fits { result + frame_width self.now.slots self.now.threads < 2 ^ 64 }
    {
        2 + f as usize * self.shape.width()
    }

    #[inline]
    fn thread_cell(&self, f: u32, thread: u32) -> usize
        requires room { f < self.now.room }
        requires thread { thread < self.now.threads }
        ensures value { result ≡ thread_cell (start_of self.now.slots self.now.threads f) thread }
    {
        self.start(f) + 2 + thread as usize
    }

    #[inline]
    fn slot_cell(&self, f: u32, slot: u32) -> usize
        requires room { f < self.now.room }
        requires slot { slot < self.now.slots }
        ensures value { result ≡ slot_cell self.now.threads (start_of self.now.slots self.now.threads f) slot }
    {
        self.start(f) + 2 + self.shape.threads() as usize + slot as usize
    }
}

// So many cells have these first words, and 0 behind them, and as second words their numbers from 0 on.
fn put_numbered(table: &mut CellTable, start: usize, words: &[u32], count: u32)
    requires there { start ≤ length table.old.cells }
    requires room { start + count ≤ table.old.room }
    requires small { table.old.room < 2 ^ 64 }
    ensures put { ArePut table.old.cells table.new.cells start words.now count }
    ensures kept { table.new.room ≡ table.old.room }
{
    if start + count as usize <= table.count() {
        set_numbered(table, start, words, count);
        return;
    }
    for i in 0..count {
        let index = i as usize;
        let word = if index < words.len() { words[index] } else { 0 };
        table.put(start + index, word, i);
    }
}

// The same where all those cells are there.
fn set_numbered(table: &mut CellTable, start: usize, words: &[u32], count: u32)
    requires there { start + count ≤ length table.old.cells }
    requires small { start + count < 2 ^ 64 }
    ensures put { ArePut table.old.cells table.new.cells start words.now count }
    ensures kept { table.new.room ≡ table.old.room }
{
    for i in 0..count {
        let index = i as usize;
        let word = if index < words.len() { words[index] } else { 0 };
        table.set_words(start + index, word, i);
    }
}
