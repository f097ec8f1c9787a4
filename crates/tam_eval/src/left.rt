// How many vertices each activation has left.
ghost use Rattle.std.specs.Prelude.{ℕ, List, ◌≡◌, ◌+◌, ◌-◌, ◌<◌, ◌^◌, ◌++◌, [], ◌∷◌, length, nat_lt, count_by, slice_set, slice_index_or, OnOk};

use std::alloc::{AllocError, Global};
use std::marker::Model;

/// For each activation how many vertices it has left, and how many activations have some.
#[derive(Drop)]
pub(crate) struct Left {
    counts: Vec<usize>,
    live: usize,
}

impl Model for Left {
    ghost use Rattle.std.specs.Prelude.{ℕ, List, ◌≡◌, count_by, nat_lt};

    ghost Value = { List ℕ };

    ghost view = { λ l. l.counts.items };

    ghost invariant = { λ l. l.live ≡ count_by (nat_lt 0) l.counts.items };
}

impl Left {
    /// Before the first activation.
    pub(crate) fn none(alloc: Global) -> Left
        ensures value { result ≡ [] }
    {
        Left {
            counts: Vec::new(alloc),
            live: 0,
        }
    }

    /// How many activations have vertices left.
    pub(crate) fn live(&self) -> usize
        ensures value { result ≡ count_by (nat_lt 0) self.now }
    {
        self.live
    }

    /// An activation begins.
    pub(crate) fn begin(&mut self, count: usize) -> Result<(), AllocError>
        ensures ok { OnOk result (self.new ≡ self.old ++ count ∷ []) }
    {
        self.counts.push(count)?;
        if 0 < count {
            self.live += 1;
        }
        Ok(())
    }

    /// An activation has more.
    pub(crate) fn more(&mut self, i: u32, count: usize)
        requires room { slice_index_or self.old i 0 + count < 2 ^ 64 }
        ensures value { self.new ≡ slice_set self.old i (slice_index_or self.old i 0 + count) }
    {
        if i as usize >= self.counts.len() {
            return;
        }
        let before = self.counts[i as usize];
        self.counts[i as usize] = before + count;
        if before == 0 && 0 < count {
            self.live += 1;
        }
    }

    /// An activation has one less.
    pub(crate) fn less(&mut self, i: u32)
        requires some { 0 < slice_index_or self.old i 0 }
        ensures value { self.new ≡ slice_set self.old i (slice_index_or self.old i 0 - 1) }
    {
        let count = self.counts[i as usize] - 1;
        self.counts[i as usize] = count;
        if count == 0 {
            self.live -= 1;
        }
    }
}
