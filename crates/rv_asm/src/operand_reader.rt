// The operands of a line.
ghost use Rattle.std.specs.Prelude.{◌≡◌, ◌^◌, Option, Result, IfOk, Some, None};
ghost use Rattle.std.specs.Option.{option_map, ok_or};
ghost use Rattle.tam_word.specs.Lists.{any_of};
ghost use Rattle.tam_word.specs.Numbers.{word_of};
ghost use Rattle.rv_asm.specs.declared.asm_error.AsmCause.TheVariants.{BadLine};
ghost use Rattle.rv_asm.specs.Statements.{register_of, signed_of, immediate_of, number_below, is_negative, is_sign, is_text, number_of, before_last};
ghost use Rattle.rv_asm.specs.Statements.{address_by, address_of};
ghost use Rattle.rv_asm.specs.StatementView.{text_of};

use crate::AsmCause;
use crate::ranges::{bits12, imm12, imm20, reg};
use crate::tokens::cut_at;
use rv_inst::{Bits12, Imm12, Imm20, Reg};
use tam_word::{read_number, read_word};

const MAX_REGISTER: u32 = 31;

// The number of a register.
fn register_number(text: &[u8]) -> Option<u32>
    ensures value { ok_or result BadLine ≡ register_of text.now }
{
    match text {
        [b'x', digits @ ..] => read_number(digits, MAX_REGISTER),
        _ => None,
    }
}

/// A register.
pub fn register_of(text: &[u8]) -> Result<Reg, AsmCause>
    ensures value { result ≡ register_of text.now }
{
    let Some(number) = register_number(text) else {
        return Err(AsmCause::BadLine);
    };
    reg(number).ok_or(AsmCause::BadLine)
}

fn is_sign(byte: u8) -> bool
    ensures value { result ≡ is_sign byte }
{
    matches!(byte, b',' | b'(' | b')')
}

fn has_sign(text: &[u8]) -> bool
    ensures value { result ≡ any_of is_sign text.now }
{
    let mut rest = text;
    while let [byte, after @ ..] = rest {
        if is_sign(*byte) {
            return true;
        }
        rest = after;
    }
    false
}

/// Whether the text stands for a number or a target.
pub fn is_text(text: &[u8]) -> bool
    ensures value { result ≡ is_text text.now }
{
    !text.is_empty() && !has_sign(text)
}

fn is_negative(text: &[u8]) -> bool
    ensures value { result ≡ is_negative text.now }
{
    match text {
        [] => false,
        [first, ..] => *first == b'-',
    }
}

/// The word of a number that, as it is written, is a signed one.
pub fn signed_of(text: &[u8]) -> Option<u32>
    ensures value { result ≡ signed_of text.now }
{
    let word = read_word(text)?;
    if is_negative(text) || word < 1 << 31 {
        Some(word)
    } else {
        None
    }
}

/// A signed immediate of 12 bits.
pub fn immediate_of(text: &[u8]) -> Result<Imm12, AsmCause>
    ensures value { result ≡ number_of immediate_of text.now }
{
    if !is_text(text) {
        return Err(AsmCause::BadLine);
    }
    let Some(word) = signed_of(text) else {
        return Err(AsmCause::BadNumber);
    };
    imm12(word).ok_or(AsmCause::BadNumber)
}

/// A word.
pub fn word_of(text: &[u8]) -> Result<u32, AsmCause>
    ensures value { result ≡ number_of word_of text.now }
{
    if !is_text(text) {
        return Err(AsmCause::BadLine);
    }
    read_word(text).ok_or(AsmCause::BadNumber)
}

/// A number of bits to shift by.
pub fn amount_of(text: &[u8]) -> Result<Reg, AsmCause>
    ensures value { result ≡ number_of (number_below (2 ^ 5)) text.now }
{
    let word = word_of(text)?;
    reg(word).ok_or(AsmCause::BadNumber)
}

/// The upper 20 bits of a word.
pub fn upper_of(text: &[u8]) -> Result<Imm20, AsmCause>
    ensures value { result ≡ number_of (number_below (2 ^ 20)) text.now }
{
    let word = word_of(text)?;
    imm20(word).ok_or(AsmCause::BadNumber)
}

/// The bits of a fence.
pub fn bits_of(text: &[u8]) -> Result<Bits12, AsmCause>
    ensures value { result ≡ number_of (number_below (2 ^ 12)) text.now }
{
    let word = word_of(text)?;
    bits12(word).ok_or(AsmCause::BadNumber)
}

/// What stands before the byte, where it is the last and the only one.
pub fn before_last(at: u8, text: &[u8]) -> Option<&[u8]>
    ensures value { option_map text_of result ≡ before_last at text.now }
{
    let (before, behind) = cut_at(at, text)?;
    if behind.is_empty() {
        Some(before)
    } else {
        None
    }
}

// The immediate and the register of an address, by its parts.
fn address_by(number: &[u8], register: Option<&[u8]>) -> Result<(Imm12, Reg), AsmCause>
    ensures value { result ≡ address_by number.now (option_map text_of register.entry) }
{
    let Some(register) = register else {
        return Err(AsmCause::BadLine);
    };
    let register = register_of(register)?;
    let number = immediate_of(number)?;
    Ok((number, register))
}

/// The immediate and the register of `imm(rs1)`.
pub fn address_of(text: &[u8]) -> Result<(Imm12, Reg), AsmCause>
    ensures value { result ≡ address_of text.now }
{
    let Some((number, behind)) = cut_at(b'(', text) else {
        return Err(AsmCause::BadLine);
    };
    address_by(number, before_last(b')', behind))
}
