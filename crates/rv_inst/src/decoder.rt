// The instruction of a word.
ghost use Rattle.std.specs.Prelude.{◌≡◌, option_to_list};
ghost use Rattle.rv_inst.specs.Instructions.{decoded};
ghost use Rattle.rv_inst.specs.Decoding.{by_fields, said};
ghost use Rattle.rv_inst.specs.Ranges.{IsDecoded};

use crate::inst::{EBREAK, ECALL, FENCE_FUNCT3, JALR_FUNCT3};
use crate::opcode::Opcode;
use crate::word_fields::{b_off, i_imm, j_off, part, rd, rs1, rs2, s_imm};
use crate::{Bits12, BranchName, IName, Imm20, Inst, LoadName, RName, ShiftName, StoreName};

/// The instruction whose word this is, or `None` where there is none.
///
/// docs/MACHINE.md, "RV32IM".
pub fn decode(word: u32) -> Option<Inst>
    ensures exact { IsDecoded word result }
    ensures value { option_to_list result ≡ decoded word }
{
    read_fields(word)
}

// The instruction that the word's fields say.
fn read_fields(word: u32) -> Option<Inst>
    ensures value { result ≡ by_fields word }
{
    match Opcode::of_code(part(word, 0, 7)) {
        None => None,
        Some(opcode) => read_opcode(word, opcode),
    }
}

fn read_opcode(word: u32, opcode: Opcode) -> Option<Inst>
    ensures value { result ≡ said word opcode }
{
    let upper = Imm20::of_field(part(word, 12, 20));
    match opcode {
        Opcode::Load => read_load(word),
        Opcode::MiscMem => read_fence(word),
        Opcode::OpImm => read_immediate(word),
        Opcode::Auipc => Some(Inst::Auipc {
            rd: rd(word),
            imm: upper,
        }),
        Opcode::Store => read_store(word),
        Opcode::Op => read_registers(word),
        Opcode::Lui => Some(Inst::Lui {
            rd: rd(word),
            imm: upper,
        }),
        Opcode::Branch => read_branch(word),
        Opcode::Jalr => read_jalr(word),
        Opcode::Jal => Some(Inst::Jal {
            rd: rd(word),
            off: j_off(word),
        }),
        Opcode::System => read_system(word),
    }
}

fn read_load(word: u32) -> Option<Inst>
    ensures value { result ≡ said word Opcode.Load }
{
    let (rd, rs1, imm) = (rd(word), rs1(word), i_imm(word));
    LoadName::of_fields(part(word, 12, 3)).map(|name| Inst::Load { name, rd, rs1, imm })
}

fn read_fence(word: u32) -> Option<Inst>
    ensures value { result ≡ said word Opcode.MiscMem }
{
    if part(word, 12, 3) != FENCE_FUNCT3 {
        return None;
    }
    let bits = Bits12::of_field(part(word, 20, 12));
    Some(Inst::Fence {
        rd: rd(word),
        rs1: rs1(word),
        bits,
    })
}

// The shifts have no place for 12 bits, so their function field is another than that of each instruction that has.
fn read_immediate(word: u32) -> Option<Inst>
    ensures value { result ≡ said word Opcode.OpImm }
{
    let (rd, rs1, imm, by) = (rd(word), rs1(word), i_imm(word), rs2(word));
    let funct3 = part(word, 12, 3);
    match IName::of_fields(funct3) {
        Some(name) => Some(Inst::I { name, rd, rs1, imm }),
        None => {
            let funct7 = part(word, 25, 7);
            ShiftName::of_fields(funct7, funct3).map(|name| Inst::Shift { name, rd, rs1, by })
        }
    }
}

fn read_store(word: u32) -> Option<Inst>
    ensures value { result ≡ said word Opcode.Store }
{
    let (rs1, rs2, imm) = (rs1(word), rs2(word), s_imm(word));
    StoreName::of_fields(part(word, 12, 3)).map(|name| Inst::Store {
        name,
        rs1,
        rs2,
        imm,
    })
}

fn read_registers(word: u32) -> Option<Inst>
    ensures value { result ≡ said word Opcode.Op }
{
    let (rd, rs1, rs2) = (rd(word), rs1(word), rs2(word));
    let (funct7, funct3) = (part(word, 25, 7), part(word, 12, 3));
    RName::of_fields(funct7, funct3).map(|name| Inst::R { name, rd, rs1, rs2 })
}

fn read_branch(word: u32) -> Option<Inst>
    ensures value { result ≡ said word Opcode.Branch }
{
    let (rs1, rs2, off) = (rs1(word), rs2(word), b_off(word));
    BranchName::of_fields(part(word, 12, 3)).map(|name| Inst::Branch {
        name,
        rs1,
        rs2,
        off,
    })
}

fn read_jalr(word: u32) -> Option<Inst>
    ensures value { result ≡ said word Opcode.Jalr }
{
    if part(word, 12, 3) != JALR_FUNCT3 {
        return None;
    }
    Some(Inst::Jalr {
        rd: rd(word),
        rs1: rs1(word),
        imm: i_imm(word),
    })
}

fn read_system(word: u32) -> Option<Inst>
    ensures value { result ≡ said word Opcode.System }
{
    match word {
        ECALL => Some(Inst::Ecall),
        EBREAK => Some(Inst::Ebreak),
        _ => None,
    }
}
