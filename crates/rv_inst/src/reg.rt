// The number of a register.
ghost use Rattle.std.specs.Prelude.{◌≡◌, ◌↔◌, ◌^◌, ◌<◌, ◌≤ℤ◌, ◌<ℤ◌, pos, IsSome, IfSome};

use std::marker::Model;

/// The number of a register, 0 to 31.
#[derive(Clone, Copy, Debug, PartialEq, Eq)]
pub struct Reg {
    number: u32,
}

impl Model for Reg {
    ghost use Rattle.std.specs.Prelude.{ℕ, ◌^◌, ◌<◌};

    ghost Value = { ℕ };

    ghost view = { λ r. r.number };

    ghost invariant = { λ r. r.number < 2 ^ 5 };

    ghost inverse = { λ n. record { number = n } };
}

impl Reg {
    /// That number, where it is in range.
    pub fn of(n: i32) -> Option<Reg>
        ensures found { IsSome result ↔ (pos 0 ≤ℤ n) × (n <ℤ pos 32) }
        ensures value { IfSome result (λ k. pos k ≡ n) }
        ensures in_range { IfSome result (λ k. k < 2 ^ 5) }
    {
        if n < 0 || n > 31 {
            return None;
        }
        Some(Reg { number: n as u32 })
    }

    pub fn get(&self) -> i32
        ensures value { result ≡ pos self.now }
        ensures in_range { self.now < 2 ^ 5 }
    {
        self.number as i32
    }

    /// The number, unsigned.
    pub fn number(&self) -> u32
        ensures value { result ≡ self.now }
        ensures in_range { self.now < 2 ^ 5 }
    {
        self.number
    }

    /// The number of a field of 5 bits.
    pub(crate) fn of_field(field: u32) -> Reg
        requires in_range { field < 2 ^ 5 }
        ensures value { result ≡ field }
    {
        Reg { number: field }
    }
}
