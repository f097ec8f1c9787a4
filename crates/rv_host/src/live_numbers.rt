// The numbers of frames that are live.
ghost use Rattle.std.specs.Prelude.{◌≡◌, ◌+◌, ◌<◌, ◌≤◌, ◌∷◌, [], ◌++◌, List, ℕ, ◌==◌, not, filter, length, IfOk, IsTrue};
ghost use Rattle.frame_tables.specs.FrameTables.{next_number_of};
ghost use Rattle.rv_keep.specs.HostRuns.{left_free};
ghost use Rattle.rv_host.specs.LiveFrames.{AreLive, is_marked, first_numbers};

use std::alloc::Global;
use std::marker::Model;
use tam_edge::NoMemory;

/// Which numbers of frames are live, and which are free again. All the memory that it needs is taken when it is made.
///
/// docs/MACHINE.md, "The host".
#[derive(Drop)]
pub struct LiveNumbers {
    /// For each number that a frame may have whether it is live.
    marks: Vec<bool>,
    count: u32,
    /// The free numbers, the one that was given back last behind all others.
    free: Vec<u32>,
}

impl Model for LiveNumbers {
    ghost use Rattle.std.specs.Prelude.{reverse, ◌≤◌, ◌<◌, ◌^◌, length};
    ghost use Rattle.rv_host.specs.LiveFrames.{Numbers, AreNumbers};

    ghost Value = { Numbers };

    ghost view = { λ n. record { marks = n.marks.items; count = n.count; free = reverse n.free.items } };

    ghost invariant = { λ n. AreNumbers (record { marks = n.marks.items; count = n.count; free = reverse n.free.items })
        × ((length n.marks.items ≤ n.free.cap) × (length n.marks.items < 2 ^ 32)) };
}

impl LiveNumbers {
    /// Number 0 is live, of so many numbers that may be.
    pub(crate) fn new(alloc: Global, frames: u32) -> Result<LiveNumbers, NoMemory>
        requires some { 0 < frames }
        ensures value { IfOk result (λ numbers. numbers ≡ first_numbers frames) }
    {
        let mut marks = vec![in alloc; false; frames as usize]?;
        marks[0] = true;
        Ok(LiveNumbers {
            marks,
            count: 1,
            free: Vec::with_capacity(alloc, frames as usize)?,
        })
    }

    /// How many numbers are live.
    pub(crate) fn count(&self) -> u32
        ensures value { result ≡ self.now.count }
        ensures within { result ≤ length self.now.marks }
    {
        self.count
    }

    pub(crate) fn is_live(&self, f: u32) -> bool
        ensures value { result ≡ is_marked self.now.marks f }
    {
        self.marks.get(f as usize).copied().unwrap_or(false)
    }

    /// The next number: the one that was given back last and not taken since, else the least that was never used. It is live from now on.
    pub(crate) fn take(&mut self) -> u32
        requires room { self.old.count < length self.old.marks }
        ensures number { result ≡ next_number_of self.old.free (self.old.count + length self.old.free) }
        ensures live { (live : List ℕ) → AreLive self.old live → AreLive self.new (live ++ result ∷ []) }
        ensures free { self.new.free ≡ left_free self.old.free }
        ensures kept { length self.new.marks ≡ length self.old.marks }
    {
        match self.free.pop() {
            Some(number) => {
                self.marks[number as usize] = true;
                self.count += 1;
                number
            }
            None => {
                let number = self.count;
                self.marks[number as usize] = true;
                self.count += 1;
                number
            }
        }
    }

    /// The number is free again.
    pub(crate) fn give(&mut self, f: u32)
        requires live { IsTrue (is_marked self.old.marks f) }
        ensures live { (live : List ℕ) → AreLive self.old live → AreLive self.new (filter (λ n. not (n == f)) live) }
        ensures free { self.new.free ≡ f ∷ self.old.free }
        ensures kept { length self.new.marks ≡ length self.old.marks }
    {
        self.marks[f as usize] = false;
        self.count -= 1;
        self.free.push_reserved(f);
    }
}
