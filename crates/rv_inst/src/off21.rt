// An even signed number of 21 bits: how far a jump goes.
ghost use Rattle.std.specs.Prelude.{◌≡◌, ◌↔◌, ◌^◌, ◌<◌, ◌≤ℤ◌, pos, negsuc, IsSome, IfSome, ◌%◌};
ghost use Rattle.std.specs.Int.{w32, cast_signed, cast_unsigned};
ghost use Rattle.rv_inst.specs.Fields.{IsSigned, extended};

use std::marker::Model;

/// An even signed number of 21 bits: how far a jump goes, -1048576 to 1048574. Contracts see it as a word.
#[derive(Clone, Copy, Debug, PartialEq, Eq)]
pub struct Off21 {
    word: u32,
}

impl Model for Off21 {
    ghost use Rattle.std.specs.Prelude.{ℕ, ◌≡◌, ◌%◌};
    ghost use Rattle.rv_inst.specs.Fields.{IsSigned};

    ghost Value = { ℕ };

    ghost view = { λ i. i.word };

    ghost invariant = { λ i. IsSigned 21 i.word × (i.word % 2 ≡ 0) };

    ghost inverse = { λ w. record { word = w } };
}

impl Off21 {
    /// That number, where it is in range and even.
    pub fn of(n: i32) -> Option<Off21>
        ensures found { IsSome result ↔ (negsuc 1048575 ≤ℤ n) × (n ≤ℤ pos 1048574) × (cast_unsigned w32 n % 2 ≡ 0) }
        ensures value { IfSome result (λ w. w ≡ cast_unsigned w32 n) }
        ensures in_range { IfSome result (λ w. IsSigned 21 w × (w % 2 ≡ 0)) }
    {
        if n < -1_048_576 || n > 1_048_574 {
            return None;
        }
        let word = n.cast_unsigned();
        if word % 2 != 0 {
            return None;
        }
        Some(Off21 { word })
    }

    pub fn get(&self) -> i32
        ensures value { result ≡ cast_signed w32 self.now }
        ensures low { negsuc 1048575 ≤ℤ result }
        ensures high { result ≤ℤ pos 1048574 }
    {
        self.word.cast_signed()
    }

    /// The number as a word, in which a negative one stands as its two's complement.
    pub fn word(&self) -> u32
        ensures value { result ≡ self.now }
        ensures in_range { IsSigned 21 self.now × (self.now % 2 ≡ 0) }
    {
        self.word
    }

    /// The number whose low bits a field of 21 bits has.
    pub(crate) fn of_field(field: u32) -> Off21
        requires in_range { field < 2 ^ 21 }
        requires even { field % 2 ≡ 0 }
        ensures value { result ≡ extended 21 field }
    {
        let word = if field < 0x10_0000 {
            field
        } else {
            field + 0xffe0_0000
        };
        Off21 { word }
    }
}
