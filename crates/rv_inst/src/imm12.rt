// A signed number of 12 bits.
ghost use Rattle.std.specs.Prelude.{◌≡◌, ◌↔◌, ◌^◌, ◌<◌, ◌≤ℤ◌, pos, negsuc, IsSome, IfSome};
ghost use Rattle.std.specs.Int.{w32, cast_signed, cast_unsigned};
ghost use Rattle.rv_inst.specs.Fields.{IsSigned, extended};

use std::marker::Model;

/// A signed number of 12 bits, -2048 to 2047. Contracts see it as a word.
#[derive(Clone, Copy, Debug, PartialEq, Eq)]
pub struct Imm12 {
    word: u32,
}

impl Model for Imm12 {
    ghost use Rattle.std.specs.Prelude.{ℕ};
    ghost use Rattle.rv_inst.specs.Fields.{IsSigned};

    ghost Value = { ℕ };

    ghost view = { λ i. i.word };

    ghost invariant = { λ i. IsSigned 12 i.word };

    ghost inverse = { λ w. record { word = w } };
}

impl Imm12 {
    /// That number, where it is in range.
    pub fn of(n: i32) -> Option<Imm12>
        ensures found { IsSome result ↔ (negsuc 2047 ≤ℤ n) × (n ≤ℤ pos 2047) }
        ensures value { IfSome result (λ w. w ≡ cast_unsigned w32 n) }
        ensures in_range { IfSome result (λ w. IsSigned 12 w) }
    {
        if n < -2_048 || n > 2_047 {
            return None;
        }
        let word = n.cast_unsigned();
        Some(Imm12 { word })
    }

    pub fn get(&self) -> i32
        ensures value { result ≡ cast_signed w32 self.now }
        ensures low { negsuc 2047 ≤ℤ result }
        ensures high { result ≤ℤ pos 2047 }
    {
        self.word.cast_signed()
    }

    /// The number as a word, in which a negative one stands as its two's complement.
    pub fn word(&self) -> u32
        ensures value { result ≡ self.now }
        ensures in_range { IsSigned 12 self.now }
    {
        self.word
    }

    /// The number whose low bits a field of 12 bits has.
    pub(crate) fn of_field(field: u32) -> Imm12
        requires in_range { field < 2 ^ 12 }
        ensures value { result ≡ extended 12 field }
    {
        let word = if field < 0x800 {
            field
        } else {
            field + 0xffff_f000
        };
        Imm12 { word }
    }
}
