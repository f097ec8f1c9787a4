// How a run ended.
ghost use Rattle.std.specs.Prelude.{◌≡◌};

use tam_msgs::Stop;

/// How a run ended. `missing` is the number of results of `main` that have no line.
#[derive(Clone, Copy, Debug, PartialEq, Eq)]
pub enum Outcome {
    Quiet { missing: u32 },
    Stopped(Stop),
    WriteFault,
}

impl Outcome {
    ghost use Rattle.tam_run.specs.HandedOut.{is_whole};

    /// Whether the run came to its end, and its text was written.
    pub(crate) fn is_whole(self) -> bool
        ensures value { result ≡ is_whole self }
    {
        !matches!(self, Outcome::Stopped(Stop::NoMemory) | Outcome::WriteFault)
    }
}
