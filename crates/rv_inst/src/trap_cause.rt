// Why a step traps.
ghost use Rattle.std.specs.Prelude.{◌≡◌};
ghost use Rattle.rv_inst.specs.Traps.{trap_text};

/// Why a step traps. The last is no step's: no call of the host for an event came in time.
///
/// docs/MACHINE.md, "RV32IM".
#[derive(Clone, Copy, Debug, PartialEq, Eq)]
pub enum TrapCause {
    FetchAddress,
    JumpAlign,
    Unknown,
    LoadAddress,
    StoreAddress,
    LoadAlign,
    StoreAlign,
    Break,
    NoPoll,
}

impl TrapCause {
    /// The name of the cause.
    pub fn text(self) -> &'static [u8]
        ensures value { result.now ≡ trap_text self }
    {
        match self {
            TrapCause::FetchAddress => b"FetchAddress",
            TrapCause::JumpAlign => b"JumpAlign",
            TrapCause::Unknown => b"Unknown",
            TrapCause::LoadAddress => b"LoadAddress",
            TrapCause::StoreAddress => b"StoreAddress",
            TrapCause::LoadAlign => b"LoadAlign",
            TrapCause::StoreAlign => b"StoreAlign",
            TrapCause::Break => b"Break",
            TrapCause::NoPoll => b"NoPoll",
        }
    }
}
