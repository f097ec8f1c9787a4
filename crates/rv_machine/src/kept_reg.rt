// The number of a register in one byte.
ghost use Rattle.std.specs.Prelude.{◌≡◌, ◌<◌, ◌^◌};

use rv_inst::Reg;
use std::marker::Model;

/// The number of a register in one byte, so that an instruction that is kept takes little room.
#[derive(Clone, Copy, Debug)]
pub struct KeptReg {
    number: u8,
}

impl Model for KeptReg {
    ghost use Rattle.std.specs.Prelude.{ℕ, ◌^◌, ◌<◌};

    ghost Value = { ℕ };

    ghost view = { λ r. r.number };

    ghost invariant = { λ r. r.number < 2 ^ 5 };

    ghost inverse = { λ n. record { number = n } };
}

impl KeptReg {
    pub const ZERO: KeptReg = KeptReg { number: 0 };

    /// That register.
    pub fn of(reg: &Reg) -> KeptReg
        ensures value { result ≡ reg.now }
    {
        KeptReg {
            number: reg.number() as u8,
        }
    }

    /// The number.
    pub fn number(self) -> u32
        ensures value { result ≡ self }
        ensures in_range { self < 2 ^ 5 }
    {
        u32::from(self.number)
    }
}
