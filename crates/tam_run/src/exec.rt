// How a run of code ended.
ghost use Rattle.std.specs.Prelude.{◌≡◌};

use crate::Outcome;

/// How a run of code ended: as a run of a graph may, at something that the code names and that isn't there, or by a trap.
#[derive(Clone, Copy, Debug, PartialEq, Eq)]
pub enum Exec {
    Run(Outcome),
    Wild,
    Trap,
}

impl Exec {
    ghost use Rattle.tam_run.specs.HandedOut.{is_whole_exec};

    /// Whether the run came to its end, and its text was written.
    pub(crate) fn is_whole(self) -> bool
        ensures value { result ≡ is_whole_exec self }
    {
        match self {
            Exec::Run(outcome) => outcome.is_whole(),
            Exec::Wild | Exec::Trap => true,
        }
    }
}
