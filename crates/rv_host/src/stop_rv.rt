// Why a run of machine code stops before it is quiet.
ghost use Rattle.std.specs.Prelude.{◌≡◌};
ghost use Rattle.tam_msgs.specs.declared.stop.Stop.TheVariants.{NoMemory as Wants_memory};
ghost use Rattle.rv_host.specs.declared.stop_rv.StopRv.TheVariants.{Stop as Stops};

use rv_inst::TrapCause;
use std::alloc::AllocError;
use tam_edge::NoMemory;
use tam_msgs::Stop;

/// What machine code names that isn't there.
///
/// docs/MACHINE.md, "The host".
#[derive(Clone, Copy, Debug, PartialEq, Eq)]
pub enum HostWild {
    Frame,
    Array,
    Place,
    Ecall,
}

/// Why a run of machine code stops before it is quiet: as at every level, since it is wild, or by a trap.
#[derive(Clone, Copy, Debug, PartialEq, Eq)]
pub enum StopRv {
    Stop(Stop),
    Wild { what: HostWild, number: u32 },
    Trap { pc: u32, cause: TrapCause },
}

impl From<NoMemory> for StopRv {
    ghost from_gives = { λ _ error. error ≡ Stops Wants_memory };

    fn from(error: NoMemory) -> StopRv {
        StopRv::Stop(Stop::from(error))
    }
}

impl From<AllocError> for StopRv {
    ghost from_gives = { λ _ error. error ≡ Stops Wants_memory };

    fn from(error: AllocError) -> StopRv {
        StopRv::from(NoMemory::from(error))
    }
}
