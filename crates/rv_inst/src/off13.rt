// An even signed number of 13 bits: how far a branch goes.
ghost use Rattle.std.specs.Prelude.{◌≡◌, ◌↔◌, ◌^◌, ◌<◌, ◌≤ℤ◌, pos, negsuc, IsSome, IfSome, ◌%◌};
ghost use Rattle.std.specs.Int.{w32, cast_signed, cast_unsigned};
ghost use Rattle.rv_inst.specs.Fields.{IsSigned, extended};

use std::marker::Model;

/// An even signed number of 13 bits: how far a branch goes, -4096 to 4094. Contracts see it as a word.
#[derive(Clone, Copy, Debug, PartialEq, Eq)]
pub struct Off13 {
    word: u32,
}

impl Model for Off13 {
    ghost use Rattle.std.specs.Prelude.{ℕ, ◌≡◌, ◌%◌};
    ghost use Rattle.rv_inst.specs.Fields.{IsSigned};

    ghost Value = { ℕ };

    ghost view = { λ i. i.word };

    ghost invariant = { λ i. IsSigned 13 i.word × (i.word % 2 ≡ 0) };

    ghost inverse = { λ w. record { word = w } };
}

impl Off13 {
    /// That number, where it is in range and even.
    pub fn of(n: i32) -> Option<Off13>
        ensures found { IsSome result ↔ (negsuc 4095 ≤ℤ n) × (n ≤ℤ pos 4094) × (cast_unsigned w32 n % 2 ≡ 0) }
        ensures value { IfSome result (λ w. w ≡ cast_unsigned w32 n) }
        ensures in_range { IfSome result (λ w. IsSigned 13 w × (w % 2 ≡ 0)) }
    {
        if n < -4_096 || n > 4_094 {
            return None;
        }
        let word = n.cast_unsigned();
        if word % 2 != 0 {
            return None;
        }
        Some(Off13 { word })
    }

    pub fn get(&self) -> i32
        ensures value { result ≡ cast_signed w32 self.now }
        ensures low { negsuc 4095 ≤ℤ result }
        ensures high { result ≤ℤ pos 4094 }
    {
        self.word.cast_signed()
    }

    /// The number as a word, in which a negative one stands as its two's complement.
    pub fn word(&self) -> u32
        ensures value { result ≡ self.now }
        ensures in_range { IsSigned 13 self.now × (self.now % 2 ≡ 0) }
    {
        self.word
    }

    /// The number whose low bits a field of 13 bits has.
    pub(crate) fn of_field(field: u32) -> Off13
        requires in_range { field < 2 ^ 13 }
        requires even { field % 2 ≡ 0 }
        ensures value { result ≡ extended 13 field }
    {
        let word = if field < 0x1000 {
            field
        } else {
            field + 0xffff_e000
        };
        Off13 { word }
    }
}
