// Where a program writes to.
ghost use Rattle.std.specs.Prelude.{◌≡◌, ◌<◌, ◌≤◌, List, ℕ, length, take, Option, IfOk, OnErr};
ghost use Rattle.std.specs.Io.KnownBytes.{Appends};
ghost use Rattle.tam_edge.specs.Faults.{CountsPut};

/// A write failed.
#[derive(Clone, Copy, Debug, PartialEq, Eq)]
pub struct Failed;

/// A sink has the bytes that it took, where it tells them, and a count of faults.
pub trait Sink {
    /// The bytes taken, where the sink tells them.
    ghost taken: { Self → Option (List ℕ) };

    /// How often a write has failed.
    ghost faults: { Self → ℕ };

    /// Takes at least one byte of the piece and at most all, from its front.
    fn put(&mut self, piece: &[u8]) -> Result<usize, Failed>
        requires some { 0 < length piece.now }
        ensures some { IfOk result (λ n. 0 < n) }
        ensures room { IfOk result (λ n. n ≤ length piece.now) }
        ensures took { IfOk result (λ n. Appends (taken self.old) (taken self.new) (take n piece.now)) }
        ensures err { OnErr result (taken self.new ≡ taken self.old) }
        ensures counted { CountsPut (faults self.old) (faults self.new) result };
}
