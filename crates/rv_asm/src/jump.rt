// An instruction that goes somewhere, without how far it goes.
ghost use Rattle.std.specs.Prelude.{◌≡◌};
ghost use Rattle.rv_asm.specs.Statements.{inst_by};

use crate::ranges::{off13, off21};
use rv_inst::{BranchName, Inst, Reg};

/// A branch or a jump without how far it goes.
#[derive(Clone, Copy)]
pub enum Jump {
    Branch {
        name: BranchName,
        rs1: Reg,
        rs2: Reg,
    },
    Jal {
        rd: Reg,
    },
}

/// The instruction that goes so far, where the distance is even and in range. A negative one stands as its two's complement.
pub fn inst_by(jump: Jump, off: u32) -> Option<Inst>
    ensures value { result ≡ inst_by jump off }
{
    match jump {
        Jump::Branch { name, rs1, rs2 } => {
            let off = off13(off)?;
            Some(Inst::Branch {
                name,
                rs1,
                rs2,
                off,
            })
        }
        Jump::Jal { rd } => {
            let off = off21(off)?;
            Some(Inst::Jal { rd, off })
        }
    }
}
