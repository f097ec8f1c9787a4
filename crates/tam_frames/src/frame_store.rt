// The storage of frames, their numbers, and the queue of those that wait.
ghost use Rattle.std.specs.Prelude.{◌≡◌, ◌<◌, ◌≤◌, ◌↔◌, ◌∷◌, ◌++◌, [], false, length, drop, slice_get, Some, IfOk, IfSome, OnOk, OnErr, IsErr, IsTrue};
ghost use Rattle.frame_tables.specs.FrameTables.{frame_at, is_live, is_queued, live_count, slot_in, with_slot, count_in, spent, spend_answer, lowered};
ghost use Rattle.frame_tables.specs.FrameTables.{next_number, next_number_of, taken, given_back};
ghost use Rattle.tam_frames.specs.HeldFrames.{wakes};
ghost use Rattle.tam_frames.specs.StoredFrames.{with_table, with_frames, with_queue, none_taken, has_any, is_busy, popped};

use crate::frame_cells::FrameCells;
use crate::{Full, Spend};
use std::alloc::Global;
use std::marker::Model;
use tam_edge::NoMemory;

/// Frames by their numbers, with room for those that may come yet. All the memory that it needs is taken when it is made.
#[derive(Drop)]
pub(crate) struct FrameStore {
    /// One for each number that was used.
    frames: FrameCells,
    /// How many frames are live.
    used: u32,
    count: u32,
}

impl Model for FrameStore {
    ghost use Rattle.tam_frames.specs.StoredFrames.{StoredFrames};
    ghost use Rattle.tam_frames.specs.Kept.{IsStored, stored};

    ghost Value = { StoredFrames };

    ghost view = { λ s. stored (record { held = s.frames; used = s.used; count = s.count }) };

    ghost invariant = { λ s. IsStored (record { held = s.frames; used = s.used; count = s.count }) };
}

impl FrameStore {
    pub(crate) fn new(
        alloc: Global,
        count: u32,
        slots: u32,
        threads: u32,
    ) -> Result<FrameStore, NoMemory>
        ensures value { IfOk result (λ store. store ≡ none_taken count slots threads) }
    {
        Ok(FrameStore {
            frames: FrameCells::new(alloc, count, slots, threads)?,
            used: 0,
            count,
        })
    }

    /// How many frames are live.
    #[inline]
    pub(crate) fn used(&self) -> u32
        ensures value { result ≡ live_count self.now.table }
    {
        self.used
    }

    #[inline]
    pub(crate) fn is_live(&self, f: u32) -> bool
        ensures value { result ≡ is_live self.now.table f }
    {
        self.frames.is_live(f)
    }

    #[inline]
    pub(crate) fn get(&self, f: u32, slot: u32) -> u32
        requires live { IsTrue (is_live self.now.table f) }
        requires slot { slot < self.now.slots }
        ensures value { result ≡ slot_in self.now.table f slot }
    {
        self.frames.get(f, slot)
    }

    #[inline]
    pub(crate) fn owed(&self, f: u32) -> u32
        requires live { IsTrue (is_live self.now.table f) }
        ensures value { result ≡ (frame_at self.now.table f).owed }
    {
        self.frames.owed(f)
    }

    #[inline]
    pub(crate) fn is_busy(&self, f: u32) -> bool
        requires live { IsTrue (is_live self.now.table f) }
        ensures value { result ≡ is_busy self.now.table f }
    {
        self.frames.is_busy(f)
    }

    /// The frame of a new activation with these entry counts.
    pub(crate) fn take(&mut self, counts: &[u32]) -> Result<u32, Full>
        requires few { length counts.now ≤ self.old.threads }
        ensures number { IfOk result (λ number. number ≡ next_number self.old.table) }
        ensures numbered { IfOk result (λ number. number < self.old.count) }
        ensures live { IfOk result (λ number. IsTrue (is_live self.new.table number)) }
        ensures fresh { is_live self.old.table (next_number self.old.table) ≡ false }
        ensures ok { OnOk result (self.new ≡ with_table self.old (taken self.old.table self.old.slots self.old.threads counts.now)) }
        ensures refused { IsErr result ↔ (live_count self.old.table ≡ self.old.count) }
        ensures err { OnErr result (self.new ≡ self.old) }
    {
        if self.used == self.count {
            return Err(Full);
        }
        self.used += 1;
        let number = next_number(&mut self.frames);
        self.frames.begin(number, counts);
        Ok(number)
    }

    /// The frame's number is free again. It doesn't wait.
    pub(crate) fn give(&mut self, f: u32)
        requires live { IsTrue (is_live self.old.table f) }
        requires apart { is_queued self.old.table.queue f ≡ false }
        ensures value { self.new ≡ with_table self.old (given_back self.old.table f) }
    {
        self.used -= 1;
        self.frames.free(f);
    }

    #[inline]
    pub(crate) fn set(&mut self, f: u32, slot: u32, word: u32)
        requires live { IsTrue (is_live self.old.table f) }
        requires slot { slot < self.old.slots }
        ensures value { self.new ≡ with_table self.old (with_slot self.old.table f slot word) }
    {
        self.frames.set(f, slot, word);
    }

    #[inline]
    pub(crate) fn lower(&mut self, f: u32, n: u32)
        requires live { IsTrue (is_live self.old.table f) }
        ensures value { self.new ≡ with_table self.old (lowered self.old.table f n) }
    {
        self.frames.lower(f, n);
    }

    /// What spending does to the frame, and whether a thread of it is ready then where none was before. To the queue it does nothing.
    #[inline]
    pub(crate) fn spend(&mut self, f: u32, thread: u32) -> (Spend, bool)
        requires live { IsTrue (is_live self.old.table f) }
        requires thread { thread < self.old.threads }
        ensures answer { result.0 ≡ spend_answer (count_in self.old.table f thread) }
        ensures woken { result.1 ≡ wakes (frame_at self.old.table f) thread }
        ensures value { self.new ≡ with_frames self.old (spent self.old.table f thread) }
        ensures counted { slice_get (frame_at self.old.table f).counts thread ≡ Some (count_in self.old.table f thread) }
    {
        self.frames.spend(f, thread)
    }

    /// The thread of the frame that became ready last.
    #[inline]
    pub(crate) fn pop(&mut self, f: u32) -> Option<u32>
        requires live { IsTrue (is_live self.old.table f) }
        ensures value { result ≡ slice_get (frame_at self.old.table f).ready 0 }
        ensures rest { self.new ≡ with_table self.old (popped self.old.table f) }
        ensures known { IfSome result (λ thread. thread < self.old.threads) }
    {
        self.frames.pop(f)
    }

    /// Whether a frame waits.
    #[inline]
    pub(crate) fn has_waiting(&self) -> bool
        ensures value { result ≡ has_any self.now.table.queue }
    {
        self.frames.has_waiting()
    }

    /// The frame waits for its turn, behind all others.
    #[inline]
    pub(crate) fn wait(&mut self, f: u32)
        requires live { IsTrue (is_live self.old.table f) }
        requires apart { is_queued self.old.table.queue f ≡ false }
        ensures value { self.new ≡ with_queue self.old (self.old.table.queue ++ f ∷ []) }
    {
        self.frames.wait(f);
    }

    /// The frame that waits for the longest time. It waits no more.
    #[inline]
    pub(crate) fn next_waiting(&mut self) -> Option<u32>
        ensures value { result ≡ slice_get self.old.table.queue 0 }
        ensures rest { self.new ≡ with_queue self.old (drop 1 self.old.table.queue) }
    {
        self.frames.next_waiting()
    }
}

// The number that became free last, which is free no more, or else the least that was never used.
#[inline]
fn next_number(frames: &mut FrameCells) -> u32
    ensures value { result ≡ next_number_of frames.old.free (length frames.old.frames) }
    ensures rest { frames.new ≡ record frames.old { free = drop 1 frames.old.free } }
{
    match frames.next_free() {
        Some(number) => number,
        None => frames.begun(),
    }
}
