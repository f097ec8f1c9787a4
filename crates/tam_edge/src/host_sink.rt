// The standard output of the system. What it takes is not told.
ghost use Rattle.std.specs.Prelude.{◌≡◌, ℕ, None};

use crate::calls::next_count;
use crate::{Failed, Sink};
use std::marker::Model;

/// Standard output, seen as its count of faults.
#[derive(Drop)]
pub struct HostSink<R: Print + Clone + Drop> {
    rt: R,
    faults: u64,
}

impl<R: Print + Clone + Drop> Model for HostSink<R> {
    ghost Value = { ℕ };

    ghost view = { λ sink. sink.faults };
}

impl<R: Print + Clone + Drop> HostSink<R> {
    /// Nothing is written yet. What is taken is never told.
    pub fn new(rt: R) -> HostSink<R>
        ensures untold { ⟦<HostSink<R> as Sink>⟧.taken result ≡ None }
        ensures faultless { ⟦<HostSink<R> as Sink>⟧.faults result ≡ 0 }
    {
        HostSink { rt, faults: 0 }
    }
}

impl<R: Print + Clone + Drop> Sink for HostSink<R> {
    ghost taken = { λ sink. None };

    ghost faults = { λ sink. sink };

    fn put(&mut self, piece: &[u8]) -> Result<usize, Failed> {
        match self.rt.write_some(piece) {
            Ok(count) if count > 0 => Ok(count),
            _ => {
                self.faults = next_count(self.faults);
                Err(Failed)
            }
        }
    }
}
