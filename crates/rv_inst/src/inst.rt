// An instruction of RV32IM.
ghost use Rattle.rv_inst.specs.Ranges.{IsInRange};

use crate::{
    Bits12, BranchName, IName, Imm12, Imm20, LoadName, Off13, Off21, RName, Reg, ShiftName,
    StoreName,
};

/// The function field of `jalr`, the only instruction of its opcode.
pub const JALR_FUNCT3: u32 = 0b000;
/// That of `fence`, as far as RV32IM goes.
pub const FENCE_FUNCT3: u32 = 0b000;
/// The two words of the opcode `System` that are instructions here.
pub const ECALL: u32 = 0x0000_0073;

pub const EBREAK: u32 = 0x0010_0073;

/// An instruction of RV32IM. Each field keeps its range in its type, so that each instruction has a word.
///
/// docs/MACHINE.md, "RV32IM".
#[derive(Clone, Copy, Debug, PartialEq, Eq)]
pub enum Inst {
    R {
        name: RName,
        rd: Reg,
        rs1: Reg,
        rs2: Reg,
    },
    I {
        name: IName,
        rd: Reg,
        rs1: Reg,
        imm: Imm12,
    },
    Shift {
        name: ShiftName,
        rd: Reg,
        rs1: Reg,
        by: Reg,
    },
    Load {
        name: LoadName,
        rd: Reg,
        rs1: Reg,
        imm: Imm12,
    },
    Store {
        name: StoreName,
        rs1: Reg,
        rs2: Reg,
        imm: Imm12,
    },
    Branch {
        name: BranchName,
        rs1: Reg,
        rs2: Reg,
        off: Off13,
    },
    Lui {
        rd: Reg,
        imm: Imm20,
    },
    Auipc {
        rd: Reg,
        imm: Imm20,
    },
    Jal {
        rd: Reg,
        off: Off21,
    },
    Jalr {
        rd: Reg,
        rs1: Reg,
        imm: Imm12,
    },
    Fence {
        rd: Reg,
        rs1: Reg,
        bits: Bits12,
    },
    Ecall,
    Ebreak,
}

impl Inst {
    /// Tells that the fields are in their ranges, which their types keep.
    pub fn keep_ranges(&self)
        ensures in_range { IsInRange self.now }
    {
        match self {
            Inst::R { rd, rs1, rs2, .. } => {
                let _ = (rd.number(), rs1.number(), rs2.number());
            }
            Inst::I { rd, rs1, imm, .. } => {
                let _ = (rd.number(), rs1.number(), imm.word());
            }
            Inst::Shift { rd, rs1, by, .. } => {
                let _ = (rd.number(), rs1.number(), by.number());
            }
            Inst::Load { rd, rs1, imm, .. } | Inst::Jalr { rd, rs1, imm } => {
                let _ = (rd.number(), rs1.number(), imm.word());
            }
            Inst::Store { rs1, rs2, imm, .. } => {
                let _ = (rs1.number(), rs2.number(), imm.word());
            }
            Inst::Branch { rs1, rs2, off, .. } => {
                let _ = (rs1.number(), rs2.number(), off.word());
            }
            Inst::Lui { rd, imm } | Inst::Auipc { rd, imm } => {
                let _ = (rd.number(), imm.number());
            }
            Inst::Jal { rd, off } => {
                let _ = (rd.number(), off.word());
            }
            Inst::Fence { rd, rs1, bits } => {
                let _ = (rd.number(), rs1.number(), bits.number());
            }
            Inst::Ecall | Inst::Ebreak => {}
        }
    }
}
