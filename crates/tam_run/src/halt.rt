// Why a run halts before it is quiet, whatever the level.
ghost use Rattle.std.specs.Prelude.{◌≡◌};
ghost use Rattle.tam_run.specs.Halts.{thread_cause, host_cause, thread_halt, host_halt};
ghost use Rattle.tam_run.specs.declared.halt.Halt.TheVariants as halts;

use rv_host::{HostWild, StopRv};
use rv_inst::TrapCause;
use tam_msgs::Stop;
use tl0_machine::{Stop0, Wild};

/// What code names that isn't there.
#[derive(Clone, Copy, Debug, PartialEq, Eq)]
pub enum Cause {
    Frame,
    Inlet,
    Thread,
    Array,
    Place,
    Ecall,
    Skip,
}

/// Why a run halts before it is quiet: as at every level, since its code is wild, or by a trap.
#[derive(Clone, Copy, Debug, PartialEq, Eq)]
pub enum Halt {
    Stop(Stop),
    Wild { what: Cause, number: u32 },
    Trap { pc: u32, cause: TrapCause },
}

impl From<Wild> for Cause {
    ghost from_gives = { λ what cause. cause ≡ thread_cause what };

    fn from(what: Wild) -> Cause {
        match what {
            Wild::Frame => Cause::Frame,
            Wild::Inlet => Cause::Inlet,
            Wild::Thread => Cause::Thread,
            Wild::Array => Cause::Array,
            Wild::Place => Cause::Place,
            Wild::Skip => Cause::Skip,
        }
    }
}

impl From<HostWild> for Cause {
    ghost from_gives = { λ what cause. cause ≡ host_cause what };

    fn from(what: HostWild) -> Cause {
        match what {
            HostWild::Frame => Cause::Frame,
            HostWild::Array => Cause::Array,
            HostWild::Place => Cause::Place,
            HostWild::Ecall => Cause::Ecall,
        }
    }
}

impl From<Stop> for Halt {
    ghost from_gives = { λ stop halt. halt ≡ halts.Stop stop };

    fn from(stop: Stop) -> Halt {
        Halt::Stop(stop)
    }
}

impl From<Stop0> for Halt {
    ghost from_gives = { λ stop halt. halt ≡ thread_halt stop };

    fn from(stop: Stop0) -> Halt {
        match stop {
            Stop0::Stop(stop) => Halt::Stop(stop),
            Stop0::Wild { what, number } => Halt::Wild {
                what: Cause::from(what),
                number,
            },
        }
    }
}

impl From<StopRv> for Halt {
    ghost from_gives = { λ stop halt. halt ≡ host_halt stop };

    fn from(stop: StopRv) -> Halt {
        match stop {
            StopRv::Stop(stop) => Halt::Stop(stop),
            StopRv::Wild { what, number } => Halt::Wild {
                what: Cause::from(what),
                number,
            },
            StopRv::Trap { pc, cause } => Halt::Trap { pc, cause },
        }
    }
}
