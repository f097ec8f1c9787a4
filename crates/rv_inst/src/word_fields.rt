// The fields of a word.
ghost use Rattle.std.specs.Prelude.{◌≡◌, ◌+◌, ◌^◌, ◌<◌, ◌≤◌};
ghost use Rattle.rv_inst.specs.Fields.{part, rd_of, rs1_of, rs2_of, i_imm, s_imm, b_off, j_off};

use crate::{Imm12, Off13, Off21, Reg};

/// The number of `width` bits from bit `low` on.
pub fn part(word: u32, low: u32, width: u32) -> u32
    requires low { low < 32 }
    requires width { width < 32 }
    ensures value { result ≡ part word low width }
    ensures in_range { result < 2 ^ width }
{
    (word >> low) % (1 << width)
}

pub fn rd(word: u32) -> Reg
    ensures value { result ≡ rd_of word }
{
    Reg::of_field(part(word, 7, 5))
}

pub fn rs1(word: u32) -> Reg
    ensures value { result ≡ rs1_of word }
{
    Reg::of_field(part(word, 15, 5))
}

pub fn rs2(word: u32) -> Reg
    ensures value { result ≡ rs2_of word }
{
    Reg::of_field(part(word, 20, 5))
}

pub fn i_imm(word: u32) -> Imm12
    ensures value { result ≡ i_imm word }
{
    Imm12::of_field(part(word, 20, 12))
}

pub fn s_imm(word: u32) -> Imm12
    ensures value { result ≡ s_imm word }
{
    Imm12::of_field(part(word, 25, 7) * 0x20 + part(word, 7, 5))
}

pub fn b_off(word: u32) -> Off13
    ensures value { result ≡ b_off word }
{
    let high = part(word, 31, 1) * 0x1000 + part(word, 7, 1) * 0x800;
    Off13::of_field(high + part(word, 25, 6) * 0x20 + part(word, 8, 4) * 2)
}

pub fn j_off(word: u32) -> Off21
    ensures value { result ≡ j_off word }
{
    let high = part(word, 31, 1) * 0x10_0000 + part(word, 12, 8) * 0x1000;
    Off21::of_field(high + part(word, 20, 1) * 0x800 + part(word, 21, 10) * 2)
}
