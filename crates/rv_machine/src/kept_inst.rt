// An instruction in eight bytes.
ghost use Rattle.std.specs.Prelude.{◌≡◌, Some, IsTrue};
ghost use Rattle.rv_inst.specs.declared.inst.Inst.TheVariants.{Ecall};
ghost use Rattle.rv_machine.specs.Keeping.{told, unknown};

use crate::kept_reg::KeptReg;
use crate::operation::Operation;
use rv_inst::{Inst, Reg};

/// An instruction in eight bytes, as a step wants it: what it is, its registers, and its immediate, offset or number as a word.
#[derive(Clone, Copy, Debug)]
pub struct KeptInst {
    pub operation: Operation,
    pub rd: KeptReg,
    pub rs1: KeptReg,
    pub rs2: KeptReg,
    pub word: u32,
}

impl KeptInst {
    /// An entry that tells none.
    pub fn unknown() -> KeptInst
        ensures value { result ≡ unknown }
    {
        KeptInst {
            operation: Operation::Unknown,
            rd: KeptReg::ZERO,
            rs1: KeptReg::ZERO,
            rs2: KeptReg::ZERO,
            word: 0,
        }
    }

    /// A copy of it, made field by field: a copy of eight bytes at once would have to be taken apart again.
    #[inline(always)]
    pub fn by_fields(&self) -> KeptInst
        ensures value { result ≡ self.now }
    {
        KeptInst {
            operation: self.operation,
            ..*self
        }
    }

    /// Whether it is a call of the host.
    pub fn is_call(&self) -> bool
        ensures value { IsTrue result → told self.now ≡ Some Ecall }
    {
        matches!(self.operation, Operation::Ecall)
    }

    /// That instruction.
    pub fn of(inst: &Inst) -> KeptInst
        ensures value { told result ≡ Some inst.now }
    {
        match inst {
            Inst::R { name, rd, rs1, rs2 } => KeptInst {
                rs2: KeptReg::of(rs2),
                ..giving(Operation::of_regs(*name), rd, rs1, 0)
            },
            Inst::I { name, rd, rs1, imm } => {
                giving(Operation::of_imm(*name), rd, rs1, imm.word())
            }
            Inst::Shift { name, rd, rs1, by } => {
                giving(Operation::of_shift(*name), rd, rs1, by.number())
            }
            Inst::Load { name, rd, rs1, imm } => {
                giving(Operation::of_load(*name), rd, rs1, imm.word())
            }
            Inst::Store {
                name,
                rs1,
                rs2,
                imm,
            } => taking(Operation::of_store(*name), rs1, rs2, imm.word()),
            Inst::Branch {
                name,
                rs1,
                rs2,
                off,
            } => taking(Operation::of_branch(*name), rs1, rs2, off.word()),
            Inst::Lui { rd, imm } => alone(Operation::Lui, KeptReg::of(rd), imm.number()),
            Inst::Auipc { rd, imm } => alone(Operation::Auipc, KeptReg::of(rd), imm.number()),
            Inst::Jal { rd, off } => alone(Operation::Jal, KeptReg::of(rd), off.word()),
            Inst::Jalr { rd, rs1, imm } => giving(Operation::Jalr, rd, rs1, imm.word()),
            Inst::Fence { rd, rs1, bits } => giving(Operation::Fence, rd, rs1, bits.number()),
            Inst::Ecall => alone(Operation::Ecall, KeptReg::ZERO, 0),
            Inst::Ebreak => alone(Operation::Ebreak, KeptReg::ZERO, 0),
        }
    }
}

// One that gives rd something, from rs1.
fn giving(operation: Operation, rd: &Reg, rs1: &Reg, word: u32) -> KeptInst
    ensures value { result ≡ record { operation = operation; rd = rd.now; rs1 = rs1.now; rs2 = 0; word = word } }
{
    KeptInst {
        rs1: KeptReg::of(rs1),
        ..alone(operation, KeptReg::of(rd), word)
    }
}

// One that takes two registers and gives none.
fn taking(operation: Operation, rs1: &Reg, rs2: &Reg, word: u32) -> KeptInst
    ensures value { result ≡ record { operation = operation; rd = 0; rs1 = rs1.now; rs2 = rs2.now; word = word } }
{
    KeptInst {
        rs1: KeptReg::of(rs1),
        rs2: KeptReg::of(rs2),
        ..alone(operation, KeptReg::ZERO, word)
    }
}

// One that takes none.
fn alone(operation: Operation, rd: KeptReg, word: u32) -> KeptInst
    ensures value { result ≡ record { operation = operation; rd = rd; rs1 = 0; rs2 = 0; word = word } }
{
    KeptInst {
        operation,
        rd,
        rs1: KeptReg::ZERO,
        rs2: KeptReg::ZERO,
        word,
    }
}
