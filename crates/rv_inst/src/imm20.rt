// The upper 20 bits of a word.
ghost use Rattle.std.specs.Prelude.{◌≡◌, ◌↔◌, ◌^◌, ◌<◌, ◌≤ℤ◌, ◌<ℤ◌, pos, IsSome, IfSome};

use std::marker::Model;

/// The upper 20 bits of a word, 0 to 1048575.
#[derive(Clone, Copy, Debug, PartialEq, Eq)]
pub struct Imm20 {
    number: u32,
}

impl Model for Imm20 {
    ghost use Rattle.std.specs.Prelude.{ℕ, ◌^◌, ◌<◌};

    ghost Value = { ℕ };

    ghost view = { λ r. r.number };

    ghost invariant = { λ r. r.number < 2 ^ 20 };

    ghost inverse = { λ n. record { number = n } };
}

impl Imm20 {
    /// That number, where it is in range.
    pub fn of(n: i32) -> Option<Imm20>
        ensures found { IsSome result ↔ (pos 0 ≤ℤ n) × (n <ℤ pos 1048576) }
        ensures value { IfSome result (λ k. pos k ≡ n) }
        ensures in_range { IfSome result (λ k. k < 2 ^ 20) }
    {
        if n < 0 || n > 1_048_575 {
            return None;
        }
        Some(Imm20 { number: n as u32 })
    }

    pub fn get(&self) -> i32
        ensures value { result ≡ pos self.now }
        ensures in_range { self.now < 2 ^ 20 }
    {
        self.number as i32
    }

    /// The number, unsigned.
    pub fn number(&self) -> u32
        ensures value { result ≡ self.now }
        ensures in_range { self.now < 2 ^ 20 }
    {
        self.number
    }

    /// The number of a field of 20 bits.
    pub(crate) fn of_field(field: u32) -> Imm20
        requires in_range { field < 2 ^ 20 }
        ensures value { result ≡ field }
    {
        Imm20 { number: field }
    }
}
