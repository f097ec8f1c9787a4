// What is next behind an instruction.
ghost use Rattle.std.specs.Prelude.{ℕ, ◌≡◌, IfErr};
ghost use Rattle.rv_inst.specs.Harts.{Hart};
ghost use Rattle.rv_machine.specs.Runs.{step_to, goes_to, Stays};

use crate::word_address::WordAddress;
use rv_inst::TrapCause;

/// What is next behind an instruction: the one at an address, the host and then the one behind the call, or none, where the machine stays as it was.
#[derive(Clone, Copy, Debug)]
pub enum Next {
    On(WordAddress),
    Call,
    Trap(TrapCause),
}

impl Next {
    /// What is next behind an instruction that goes on to an address, or traps.
    pub fn behind(gone: Result<WordAddress, TrapCause>) -> Next
        ensures value { (h : Hart) (pc n : ℕ) → goes_to h pc gone n ≡ step_to h pc result n }
        ensures kept { (old new : Hart) → IfErr gone (λ cause. new ≡ old) → Stays old new result }
    {
        match gone {
            Ok(to) => Next::On(to),
            Err(cause) => Next::Trap(cause),
        }
    }
}
