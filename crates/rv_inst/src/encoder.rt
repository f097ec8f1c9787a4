// The word of an instruction.
ghost use Rattle.std.specs.Prelude.{◌≡◌, [], ◌∷◌, ◌*◌, ◌%◌, ◌^◌, ◌+◌, ◌<◌, ◌≤◌};
ghost use Rattle.rv_inst.specs.Rows.{code};
ghost use Rattle.rv_inst.specs.Instructions.{encoded, decoded, r_word, i_word, s_word, b_word, u_word, j_word};

use crate::inst::{EBREAK, ECALL, FENCE_FUNCT3, JALR_FUNCT3};
use crate::opcode::Opcode;
use crate::word_fields::part;
use crate::{Inst, Reg};

/// The word of an instruction.
///
/// docs/MACHINE.md, "RV32IM".
pub fn encode(inst: &Inst) -> u32
    ensures value { result ≡ encoded inst.now }
    ensures decodes { decoded result ≡ inst.now ∷ [] }
{
    inst.keep_ranges();
    word_of(inst)
}

fn word_of(inst: &Inst) -> u32
    ensures value { result ≡ encoded inst.now }
{
    match inst {
        Inst::R { name, rd, rs1, rs2 } => {
            let row = name.row();
            r_word(row.funct7, rs2, rs1, row.funct3, rd, Opcode::Op)
        }
        Inst::I { name, rd, rs1, imm } => {
            i_word(imm.word(), rs1, name.row().funct3, rd, Opcode::OpImm)
        }
        Inst::Shift { name, rd, rs1, by } => {
            let row = name.row();
            r_word(row.funct7, by, rs1, row.funct3, rd, Opcode::OpImm)
        }
        Inst::Load { name, rd, rs1, imm } => {
            i_word(imm.word(), rs1, name.row().funct3, rd, Opcode::Load)
        }
        Inst::Store {
            name,
            rs1,
            rs2,
            imm,
        } => { s_word(imm.word(), rs2, rs1, name.row().funct3, Opcode::Store) }
        Inst::Branch {
            name,
            rs1,
            rs2,
            off,
        } => { b_word(off.word(), rs2, rs1, name.row().funct3, Opcode::Branch) }
        Inst::Lui { rd, imm } => u_word(imm.number(), rd, Opcode::Lui),
        Inst::Auipc { rd, imm } => u_word(imm.number(), rd, Opcode::Auipc),
        Inst::Jal { rd, off } => j_word(off.word(), rd, Opcode::Jal),
        Inst::Jalr { rd, rs1, imm } => i_word(imm.word(), rs1, JALR_FUNCT3, rd, Opcode::Jalr),
        Inst::Fence { rd, rs1, bits } => {
            i_word(bits.number(), rs1, FENCE_FUNCT3, rd, Opcode::MiscMem)
        }
        Inst::Ecall => ECALL,
        Inst::Ebreak => EBREAK,
    }
}

// A field of `width` bits from bit `low` on.
fn field(value: u32, low: u32, width: u32) -> u32
    requires low { low < 32 }
    requires width { width < 32 }
    requires in_word { low + width ≤ 32 }
    ensures value { result ≡ value % 2 ^ width * 2 ^ low }
{
    part(value, 0, width) << low
}

fn r_word(funct7: u32, rs2: &Reg, rs1: &Reg, funct3: u32, rd: &Reg, opcode: Opcode) -> u32
    ensures value { result ≡ r_word funct7 rs2.now rs1.now funct3 rd.now (code opcode) }
{
    field(funct7, 25, 7)
        + field(rs2.number(), 20, 5)
        + field(rs1.number(), 15, 5)
        + field(funct3, 12, 3)
        + field(rd.number(), 7, 5)
        + field(opcode.row().code, 0, 7)
}

fn i_word(imm: u32, rs1: &Reg, funct3: u32, rd: &Reg, opcode: Opcode) -> u32
    ensures value { result ≡ i_word imm rs1.now funct3 rd.now (code opcode) }
{
    field(imm, 20, 12)
        + field(rs1.number(), 15, 5)
        + field(funct3, 12, 3)
        + field(rd.number(), 7, 5)
        + field(opcode.row().code, 0, 7)
}

fn s_word(imm: u32, rs2: &Reg, rs1: &Reg, funct3: u32, opcode: Opcode) -> u32
    ensures value { result ≡ s_word imm rs2.now rs1.now funct3 (code opcode) }
{
    field(part(imm, 5, 7), 25, 7)
        + field(rs2.number(), 20, 5)
        + field(rs1.number(), 15, 5)
        + field(funct3, 12, 3)
        + field(imm, 7, 5)
        + field(opcode.row().code, 0, 7)
}

fn b_word(off: u32, rs2: &Reg, rs1: &Reg, funct3: u32, opcode: Opcode) -> u32
    ensures value { result ≡ b_word off rs2.now rs1.now funct3 (code opcode) }
{
    let high = field(part(off, 12, 1), 31, 1) + field(part(off, 5, 6), 25, 6);
    let low = field(part(off, 1, 4), 8, 4) + field(part(off, 11, 1), 7, 1);
    high + field(rs2.number(), 20, 5)
        + field(rs1.number(), 15, 5)
        + field(funct3, 12, 3)
        + low
        + field(opcode.row().code, 0, 7)
}

fn u_word(imm: u32, rd: &Reg, opcode: Opcode) -> u32
    ensures value { result ≡ u_word imm rd.now (code opcode) }
{
    field(imm, 12, 20) + field(rd.number(), 7, 5) + field(opcode.row().code, 0, 7)
}

fn j_word(off: u32, rd: &Reg, opcode: Opcode) -> u32
    ensures value { result ≡ j_word off rd.now (code opcode) }
{
    let high = field(part(off, 20, 1), 31, 1) + field(part(off, 1, 10), 21, 10);
    high + field(part(off, 11, 1), 20, 1)
        + field(part(off, 12, 8), 12, 8)
        + field(rd.number(), 7, 5)
        + field(opcode.row().code, 0, 7)
}
