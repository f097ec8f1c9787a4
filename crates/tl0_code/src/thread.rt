// A thread.
ghost use Rattle.std.specs.Prelude.{◌≡◌};

use crate::Instr;
use std::marker::Model;

/// A thread: how often it is to be spent before it runs, and its instructions, behind the last of which it stops.
///
/// docs/THREADS.md, "Thread code".
#[derive(Debug, Drop)]
pub struct Thread {
    count: u32,
    instrs: Vec<Instr>,
}

impl Model for Thread {
    ghost use Rattle.tl0_code.specs.ThreadCode.{Thread as ThreadRecord};

    ghost Value = { ThreadRecord };

    ghost view = { λ t. record { count = t.count; instrs = t.instrs.items } };
}

impl Thread {
    /// The thread of this entry count and these instructions.
    pub fn of(count: u32, instrs: Vec<Instr>) -> Thread
        ensures value { result ≡ record { count = count; instrs = instrs.items } }
    {
        Thread { count, instrs }
    }

    /// The entry count.
    pub fn count(&self) -> u32
        ensures value { result ≡ self.now.count }
    {
        self.count
    }

    pub fn instrs(&self) -> &[Instr]
        ensures value { result.now ≡ self.now.instrs }
    {
        &self.instrs
    }
}
