// The codes of threads of a program.
ghost use Rattle.std.specs.Prelude.{◌≡◌};
ghost use Rattle.tl0_code.specs.ThreadCode.{HasProgramLimits};

use crate::Code0;
use std::marker::Model;

/// The codes of a program, 1 to 256 with at most 67,108,864 instructions in all, and which of them is `main`.
///
/// docs/THREADS.md, "Thread code".
#[derive(Debug, Drop)]
pub struct Program0 {
    main: u32,
    codes: Vec<Code0>,
}

impl Model for Program0 {
    ghost use Rattle.tl0_code.specs.ThreadCode.{Program};

    ghost Value = { Program };

    ghost use Rattle.tl0_code.specs.ThreadCode.{HasProgramLimits};

    ghost view = { λ p. record { main = p.main; codes = p.codes.items } };

    ghost invariant = { λ p. HasProgramLimits (record { main = p.main; codes = p.codes.items }) };
}

impl Program0 {
    /// The program of these codes. They are numbered from 0, in this order, and `main` need not be one of them.
    pub fn of(main: u32, codes: Vec<Code0>) -> Program0
        requires limits { HasProgramLimits (record { main = main; codes = codes.items }) }
        ensures value { result ≡ record { main = main; codes = codes.items } }
    {
        Program0 { main, codes }
    }

    /// The number of the code that begins.
    pub fn main(&self) -> u32
        ensures value { result ≡ self.now.main }
    {
        self.main
    }

    pub fn codes(&self) -> &[Code0]
        ensures value { result.now ≡ self.now.codes }
        ensures limits { HasProgramLimits self.now }
    {
        &self.codes
    }
}
