// The frames of all activations.
ghost use Rattle.std.specs.Prelude.{◌≡◌, ◌<◌, ◌≤◌, ◌↔◌, false, length, Some, None, slice_get, IfOk, IfSome, IfNone, OnOk, OnErr, IsErr, IsTrue};
ghost use Rattle.frame_tables.specs.FrameTables.{frame_at, is_live, live_count, slot_in, with_slot, count_in, spent, spend_answer, lowered};
ghost use Rattle.frame_tables.specs.FrameTables.{next_number, taken, given_back, current_of, is_ready, next_thread, rested};
ghost use Rattle.tam_frames.specs.StoredFrames.{with_table, none_taken, is_busy};

use crate::frame_store::FrameStore;
use crate::{Full, Spend};
use std::alloc::Global;
use std::marker::Model;
use tam_edge::NoMemory;

/// The frames of activations, and whose turn it is. `new` takes all the memory that they will need, and no other call takes any or searches.
///
/// docs/THREADS.md, "Frames".
#[derive(Drop)]
pub struct Frames {
    store: FrameStore,
    /// The frame whose turn it is. It doesn't wait, and each other frame waits where a thread of it is ready.
    current: Option<u32>,
}

impl Model for Frames {
    ghost use Rattle.tam_frames.specs.StoredFrames.{StoredFrames, with_current};
    ghost use Rattle.tam_frames.specs.Kept.{AreInTurn};

    ghost Value = { StoredFrames };

    ghost view = { λ s. with_current s.store s.current };

    ghost invariant = { λ s. AreInTurn (with_current s.store s.current).table };
}

impl Frames {
    /// Room for so many frames that are live at once, each with so many slots and threads.
    pub fn new(alloc: Global, count: u32, slots: u32, threads: u32) -> Result<Frames, NoMemory>
        ensures value { IfOk result (λ frames. frames ≡ none_taken count slots threads) }
    {
        Ok(Frames {
            store: FrameStore::new(alloc, count, slots, threads)?,
            current: None,
        })
    }

    /// How many frames are live.
    #[inline]
    pub fn used(&self) -> u32
        ensures value { result ≡ live_count self.now.table }
    {
        self.store.used()
    }

    #[inline]
    pub fn live(&self, f: u32) -> bool
        ensures value { result ≡ is_live self.now.table f }
    {
        self.store.is_live(f)
    }

    /// A frame for a new activation with these entry counts, by its number.
    pub fn take(&mut self, counts: &[u32]) -> Result<u32, Full>
        requires few { length counts.now ≤ self.old.threads }
        ensures number { IfOk result (λ number. number ≡ next_number self.old.table) }
        ensures numbered { IfOk result (λ number. number < self.old.count) }
        ensures live { IfOk result (λ number. IsTrue (is_live self.new.table number)) }
        ensures ok { OnOk result (self.new ≡ with_table self.old (taken self.old.table self.old.slots self.old.threads counts.now)) }
        ensures refused { IsErr result ↔ (live_count self.old.table ≡ self.old.count) }
        ensures err { OnErr result (self.new ≡ self.old) }
    {
        self.store.take(counts)
    }

    /// The frame's number is free again. It owes nothing more.
    pub fn give(&mut self, f: u32)
        requires live { IsTrue (is_live self.old.table f) }
        requires done { (frame_at self.old.table f).owed ≡ 0 }
        requires idle { is_busy self.old.table f ≡ false }
        ensures value { self.new ≡ with_table self.old (given_back self.old.table f) }
    {
        self.store.give(f);
        if self.current == Some(f) {
            self.current = None;
        }
    }

    #[inline]
    pub fn get(&self, f: u32, slot: u32) -> u32
        requires live { IsTrue (is_live self.now.table f) }
        requires slot { slot < self.now.slots }
        ensures value { result ≡ slot_in self.now.table f slot }
    {
        self.store.get(f, slot)
    }

    #[inline]
    pub fn set(&mut self, f: u32, slot: u32, word: u32)
        requires live { IsTrue (is_live self.old.table f) }
        requires slot { slot < self.old.slots }
        ensures value { self.new ≡ with_table self.old (with_slot self.old.table f slot word) }
    {
        self.store.set(f, slot, word);
    }

    /// Spends one of the thread's entry count.
    #[inline]
    pub fn spend(&mut self, f: u32, thread: u32) -> Spend
        requires live { IsTrue (is_live self.old.table f) }
        requires thread { thread < self.old.threads }
        ensures answer { result ≡ spend_answer (count_in self.old.table f thread) }
        ensures value { self.new ≡ with_table self.old (spent self.old.table f thread) }
        ensures counted { slice_get (frame_at self.old.table f).counts thread ≡ Some (count_in self.old.table f thread) }
    {
        let (answer, woken) = self.store.spend(f, thread);
        if woken && self.current != Some(f) {
            self.store.wait(f);
        }
        answer
    }

    /// How many threads of the frame have neither run nor been skipped.
    #[inline]
    pub fn owed(&self, f: u32) -> u32
        requires live { IsTrue (is_live self.now.table f) }
        ensures value { result ≡ (frame_at self.now.table f).owed }
    {
        self.store.owed(f)
    }

    /// The frame owes so many threads less, and never less than none.
    #[inline]
    pub fn lower(&mut self, f: u32, n: u32)
        requires live { IsTrue (is_live self.old.table f) }
        ensures value { self.new ≡ with_table self.old (lowered self.old.table f n) }
    {
        self.store.lower(f, n);
    }

    /// Whether a thread of the frame is ready.
    #[inline]
    pub fn busy(&self, f: u32) -> bool
        requires live { IsTrue (is_live self.now.table f) }
        ensures value { result ≡ is_busy self.now.table f }
    {
        self.store.is_busy(f)
    }

    /// Whether a thread of any frame is ready.
    #[inline]
    pub fn ready(&self) -> bool
        ensures value { result ≡ is_ready self.now.table }
    {
        match self.current {
            Some(f) if self.store.is_busy(f) => true,
            _ => self.store.has_waiting(),
        }
    }

    /// The frame whose turn it is, current from now on, with its thread that became ready last.
    #[inline]
    pub fn next_thread(&mut self) -> Option<(u32, u32)>
        ensures value { result ≡ (next_thread self.old.table).0 }
        ensures after { self.new ≡ with_table self.old (next_thread self.old.table).1 }
        ensures known { IfSome result (λ next. IsTrue (is_live self.new.table next.0) × (next.1 < self.old.threads)) }
        ensures none { IfNone result (is_ready self.old.table ≡ false) }
    {
        let Some(f) = self.current else {
            return self.begin();
        };
        match self.store.pop(f) {
            Some(thread) => Some((f, thread)),
            None => self.begin(),
        }
    }

    /// Ends the current frame's turn, where none of its threads is ready.
    #[inline]
    pub fn rest(&mut self)
        ensures value { self.new ≡ with_table self.old (rested self.old.table) }
    {
        if let Some(f) = self.current
            && !self.store.is_busy(f)
        {
            self.current = None;
        }
    }

    // The next thread where none of the current frame is ready: the turn of the frame that waits for the longest time begins.
    fn begin(&mut self) -> Option<(u32, u32)>
        requires idle { current_of self.old.table self.old.table.current ≡ None }
        ensures value { result ≡ (next_thread self.old.table).0 }
        ensures after { self.new ≡ with_table self.old (next_thread self.old.table).1 }
        ensures known { IfSome result (λ next. IsTrue (is_live self.new.table next.0) × (next.1 < self.old.threads)) }
        ensures none { IfNone result (is_ready self.old.table ≡ false) }
    {
        self.current = self.store.next_waiting();
        let f = self.current?;
        let thread = self.store.pop(f)?;
        Some((f, thread))
    }
}
