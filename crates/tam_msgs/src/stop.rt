// Why a run stops before it is quiet.
ghost use Rattle.std.specs.Prelude.{◌≡◌};
ghost use Rattle.tam_msgs.specs.declared.stop.Stop.TheVariants.{NoMemory as Wants_memory};

use std::alloc::AllocError;
use tam_edge::NoMemory;

/// Why a run stops before it is quiet. A site is 1024 times the number of a code plus that of a node.
#[derive(Clone, Copy, Debug, PartialEq, Eq)]
pub enum Stop {
    DoubleWrite { first: u32, second: u32 },
    OutOfRange { site: u32, index: u32, len: u32 },
    FramesFull { count: u32 },
    CellsFull { used: u32, len: u32 },
    BudgetSpent { events: u32 },
    NoMemory,
}

impl From<NoMemory> for Stop {
    ghost from_gives = { λ _ error. error ≡ Wants_memory };

    fn from(_error: NoMemory) -> Stop {
        Stop::NoMemory
    }
}

impl From<AllocError> for Stop {
    ghost from_gives = { λ _ error. error ≡ Wants_memory };

    fn from(error: AllocError) -> Stop {
        Stop::from(NoMemory::from(error))
    }
}
