// The assembly text of an image.
ghost use Rattle.std.specs.Prelude.{◌≡◌, ◌≤◌, ◌^◌, ◌++◌, OnOk, IfOk, decimal, flat_map, length, option_to_list};
ghost use Rattle.tam_word.specs.Words.{signed_text};
ghost use Rattle.rv_asm.specs.AsmText.{asm_text, head_line, word_line, word_text, inst_text, operands_text, further_operands, operands, operand_text, register};
ghost use Rattle.rv_image.specs.ImageLaws.{AreBelow};
ghost use Rattle.rv_asm.specs.Reading.{AsmReads};

use crate::Operand;
use crate::inst_name::name_text;
use itoa::Buffer;
use rv_image::Image;
use rv_inst::{Imm12, Inst, Reg, decode};
use std::alloc::Global;
use tam_edge::NoMemory;
use tam_word::print_word;

/// The assembly text of an image.
///
/// docs/MACHINE.md, "Assembly text".
pub fn print_asm(alloc: Global, image: &Image) -> Result<Vec<u8>, NoMemory>
    ensures value { IfOk result (λ text. text.items ≡ asm_text image.now) }
    ensures reads { IfOk result (λ text. AsmReads text.items image.now) }
    ensures short { IfOk result (λ text. length text.items ≤ 4294967294) }
{
    print_lines(alloc, image, image.words())
}

// The head of an image, and a line for each word.
fn print_lines(alloc: Global, image: &Image, words: &[u32]) -> Result<Vec<u8>, NoMemory>
    ensures value { IfOk result (λ text. text.items ≡ asm_text (record image.now { words = words.now })) }
    ensures below { AreBelow (2 ^ 32) words.now }
{
    let mut text = Vec::new(alloc);
    push_head(&mut text, b".image ", 1)?;
    push_head(&mut text, b".stride ", image.stride())?;
    push_head(&mut text, b".params ", image.params())?;
    push_head(&mut text, b".results ", image.results())?;
    push_words(&mut text, words)?;
    Ok(text)
}

fn push_head(text: &mut Vec<u8>, word: &[u8], n: u32) -> Result<(), NoMemory>
    ensures ok { OnOk result (text.new.items ≡ text.old.items ++ head_line word.now n) }
{
    push(text, word)?;
    push_number(text, n)?;
    push(text, b"\n")
}

fn push_words(text: &mut Vec<u8>, words: &[u32]) -> Result<(), NoMemory>
    ensures ok { OnOk result (text.new.items ≡ text.old.items ++ flat_map word_line words.now) }
{
    let mut rest = words;
    while let [word, after @ ..] = rest {
        push_word_line(text, *word)?;
        rest = after;
    }
    Ok(())
}

fn push_word_line(text: &mut Vec<u8>, word: u32) -> Result<(), NoMemory>
    ensures ok { OnOk result (text.new.items ≡ text.old.items ++ word_line word) }
{
    push_word(text, word, decode(word))?;
    push(text, b"\n")
}

fn push_word(text: &mut Vec<u8>, word: u32, inst: Option<Inst>) -> Result<(), NoMemory>
    ensures ok { OnOk result (text.new.items ≡ text.old.items ++ word_text word (option_to_list inst)) }
{
    match inst {
        None => {
            push(text, b".word ")?;
            push_number(text, word)
        }
        Some(inst) => push_inst(text, &inst),
    }
}

fn push_inst(text: &mut Vec<u8>, inst: &Inst) -> Result<(), NoMemory>
    ensures ok { OnOk result (text.new.items ≡ text.old.items ++ inst_text inst.now) }
{
    push(text, name_text(inst))?;
    push_operands_of(text, inst)
}

fn push_operands_of(text: &mut Vec<u8>, inst: &Inst) -> Result<(), NoMemory>
    ensures ok { OnOk result (text.new.items ≡ text.old.items ++ operands_text (operands inst.now)) }
{
    match inst {
        Inst::R { rd, rs1, rs2, .. } => {
            push_operands(text, &[register(rd), register(rs1), register(rs2)])
        }
        Inst::I { rd, rs1, imm, .. } => {
            let imm = Operand::Signed(imm.word());
            push_operands(text, &[register(rd), register(rs1), imm])
        }
        Inst::Shift { rd, rs1, by, .. } => {
            let by = Operand::Number(by.number());
            push_operands(text, &[register(rd), register(rs1), by])
        }
        Inst::Load { rd, rs1, imm, .. } | Inst::Jalr { rd, rs1, imm } => {
            push_operands(text, &[register(rd), address(imm, rs1)])
        }
        Inst::Store { rs1, rs2, imm, .. } => {
            push_operands(text, &[register(rs2), address(imm, rs1)])
        }
        Inst::Branch { rs1, rs2, off, .. } => {
            let off = Operand::Signed(off.word());
            push_operands(text, &[register(rs1), register(rs2), off])
        }
        Inst::Lui { rd, imm } | Inst::Auipc { rd, imm } => {
            push_operands(text, &[register(rd), Operand::Number(imm.number())])
        }
        Inst::Jal { rd, off } => push_operands(text, &[register(rd), Operand::Signed(off.word())]),
        Inst::Fence { rd, rs1, bits } => {
            let bits = Operand::Number(bits.number());
            push_operands(text, &[register(rd), register(rs1), bits])
        }
        Inst::Ecall | Inst::Ebreak => Ok(()),
    }
}

fn register(r: &Reg) -> Operand
    ensures value { result ≡ Operand.Register r.now }
{
    Operand::Register(r.number())
}

fn address(imm: &Imm12, r: &Reg) -> Operand
    ensures value { result ≡ Operand.Address imm.now r.now }
{
    Operand::Address(imm.word(), r.number())
}

fn push_operands(text: &mut Vec<u8>, operands: &[Operand]) -> Result<(), NoMemory>
    ensures ok { OnOk result (text.new.items ≡ text.old.items ++ operands_text operands.now) }
{
    match operands {
        [] => Ok(()),
        [first, rest @ ..] => {
            push(text, b" ")?;
            push_operand(text, *first)?;
            push_further(text, rest)
        }
    }
}

fn push_further(text: &mut Vec<u8>, operands: &[Operand]) -> Result<(), NoMemory>
    ensures ok { OnOk result (text.new.items ≡ text.old.items ++ further_operands operands.now) }
{
    let mut rest = operands;
    while let [operand, after @ ..] = rest {
        push(text, b", ")?;
        push_operand(text, *operand)?;
        rest = after;
    }
    Ok(())
}

fn push_operand(text: &mut Vec<u8>, operand: Operand) -> Result<(), NoMemory>
    ensures ok { OnOk result (text.new.items ≡ text.old.items ++ operand_text operand) }
{
    match operand {
        Operand::Register(r) => push_register(text, r),
        Operand::Number(n) => push_number(text, n),
        Operand::Signed(word) => push_signed(text, word),
        Operand::Address(word, r) => {
            push_signed(text, word)?;
            push(text, b"(")?;
            push_register(text, r)?;
            push(text, b")")
        }
    }
}

fn push_register(text: &mut Vec<u8>, r: u32) -> Result<(), NoMemory>
    ensures ok { OnOk result (text.new.items ≡ text.old.items ++ register r) }
{
    push(text, b"x")?;
    push_number(text, r)
}

fn push_number(text: &mut Vec<u8>, n: u32) -> Result<(), NoMemory>
    ensures ok { OnOk result (text.new.items ≡ text.old.items ++ decimal n) }
{
    let mut buffer = Buffer::new();
    push(text, buffer.format(n).as_bytes())
}

fn push_signed(text: &mut Vec<u8>, word: u32) -> Result<(), NoMemory>
    ensures ok { OnOk result (text.new.items ≡ text.old.items ++ signed_text word) }
{
    let mut digits = [0; 11];
    let len = print_word(word, &mut digits);
    push(text, &digits[..len])
}

fn push(text: &mut Vec<u8>, bytes: &[u8]) -> Result<(), NoMemory>
    ensures ok { OnOk result (text.new.items ≡ text.old.items ++ bytes.now) }
{
    text.extend_from_slice(bytes)?;
    Ok(())
}
