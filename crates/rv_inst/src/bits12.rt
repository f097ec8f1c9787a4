// 12 bits that a fence keeps.
ghost use Rattle.std.specs.Prelude.{◌≡◌, ◌↔◌, ◌^◌, ◌<◌, ◌≤ℤ◌, ◌<ℤ◌, pos, IsSome, IfSome};

use std::marker::Model;

/// 12 bits that a fence keeps, 0 to 4095.
#[derive(Clone, Copy, Debug, PartialEq, Eq)]
pub struct Bits12 {
    number: u32,
}

impl Model for Bits12 {
    ghost use Rattle.std.specs.Prelude.{ℕ, ◌^◌, ◌<◌};

    ghost Value = { ℕ };

    ghost view = { λ r. r.number };

    ghost invariant = { λ r. r.number < 2 ^ 12 };

    ghost inverse = { λ n. record { number = n } };
}

impl Bits12 {
    /// That number, where it is in range.
    pub fn of(n: i32) -> Option<Bits12>
        ensures found { IsSome result ↔ (pos 0 ≤ℤ n) × (n <ℤ pos 4096) }
        ensures value { IfSome result (λ k. pos k ≡ n) }
        ensures in_range { IfSome result (λ k. k < 2 ^ 12) }
    {
        if n < 0 || n > 4_095 {
            return None;
        }
        Some(Bits12 { number: n as u32 })
    }

    pub fn get(&self) -> i32
        ensures value { result ≡ pos self.now }
        ensures in_range { self.now < 2 ^ 12 }
    {
        self.number as i32
    }

    /// The number, unsigned.
    pub fn number(&self) -> u32
        ensures value { result ≡ self.now }
        ensures in_range { self.now < 2 ^ 12 }
    {
        self.number
    }

    /// The number of a field of 12 bits.
    pub(crate) fn of_field(field: u32) -> Bits12
        requires in_range { field < 2 ^ 12 }
        ensures value { result ≡ field }
    {
        Bits12 { number: field }
    }
}
