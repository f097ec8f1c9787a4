// What a step of the machine answers.
use rv_inst::TrapCause;

/// What a step came to. `Ecall` is behind the call already; `Trap` left the machine as it was.
///
/// docs/MACHINE.md, "RV32IM".
#[derive(Clone, Copy, Debug, PartialEq, Eq)]
pub enum RvStep {
    Done,
    Ecall,
    Trap { pc: u32, cause: TrapCause },
}
