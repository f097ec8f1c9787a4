// Words as the numbers of operands, where they are in range.
ghost use Rattle.std.specs.Prelude.{◌≡◌, ◌^◌, ◌-◌, nat_lt, ◌&&◌, ◌==◌, ◌%◌};
ghost use Rattle.tam_word.specs.Numbers.{some_if};
ghost use Rattle.rv_asm.specs.Statements.{is_signed, is_offset};

use rv_inst::{Bits12, Imm12, Imm20, Off13, Off21, Reg};

/// The immediate with the word.
pub fn imm12(word: u32) -> Option<Imm12>
    ensures value { result ≡ some_if (is_signed 12 word) word }
{
    Imm12::of(word.cast_signed())
}

/// How far a branch goes.
pub fn off13(word: u32) -> Option<Off13>
    ensures value { result ≡ some_if (is_offset 13 word) word }
{
    Off13::of(word.cast_signed())
}

/// How far a jump goes.
pub fn off21(word: u32) -> Option<Off21>
    ensures value { result ≡ some_if (is_offset 21 word) word }
{
    Off21::of(word.cast_signed())
}

/// The number of a register, or of bits to shift by.
pub fn reg(word: u32) -> Option<Reg>
    ensures value { result ≡ some_if (nat_lt word (2 ^ 5)) word }
{
    Reg::of(word.cast_signed())
}

/// The upper 20 bits of a word.
pub fn imm20(word: u32) -> Option<Imm20>
    ensures value { result ≡ some_if (nat_lt word (2 ^ 20)) word }
{
    Imm20::of(word.cast_signed())
}

/// The bits of a fence.
pub fn bits12(word: u32) -> Option<Bits12>
    ensures value { result ≡ some_if (nat_lt word (2 ^ 12)) word }
{
    Bits12::of(word.cast_signed())
}
