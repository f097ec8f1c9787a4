// Why a run of threads stops before it is quiet.
ghost use Rattle.std.specs.Prelude.{◌≡◌};
ghost use Rattle.tam_msgs.specs.declared.stop.Stop.TheVariants.{NoMemory as Wants_memory};
ghost use Rattle.tl0_machine.specs.declared.stop0.Stop0.TheVariants.{Stop as Stops};

use std::alloc::{AllocError, AllocFailed};
use tam_edge::NoMemory;
use tam_msgs::Stop;

/// What thread code names that isn't there.
///
/// docs/THREADS.md, "Runs of threads".
#[derive(Clone, Copy, Debug, PartialEq, Eq)]
pub enum Wild {
    Frame,
    Inlet,
    Thread,
    Array,
    Place,
    Skip,
}

/// Why a run of threads stops before it is quiet: as at every level, or since it is wild.
#[derive(Clone, Copy, Debug, PartialEq, Eq)]
pub enum Stop0 {
    Stop(Stop),
    Wild { what: Wild, number: u32 },
}

impl From<NoMemory> for Stop0 {
    ghost from_gives = { λ _ error. error ≡ Stops Wants_memory };

    fn from(error: NoMemory) -> Stop0 {
        Stop0::Stop(Stop::from(error))
    }
}

impl From<AllocError> for Stop0 {
    ghost from_gives = { λ _ error. error ≡ Stops Wants_memory };

    fn from(error: AllocError) -> Stop0 {
        Stop0::from(NoMemory::from(error))
    }
}

impl<T: Drop> From<AllocFailed<T>> for Stop0 {
    ghost from_gives = { λ _ error. error ≡ Stops Wants_memory };

    fn from(failed: AllocFailed<T>) -> Stop0 {
        Stop0::from(NoMemory::from(failed))
    }
}
