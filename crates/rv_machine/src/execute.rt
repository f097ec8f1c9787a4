// One instruction is carried out.
ghost use Rattle.std.specs.Prelude.{ℕ, ◌≡◌, ◌+◌, IfSome, IfNone};
ghost use Rattle.rv_inst.specs.Harts.{Done};
ghost use Rattle.rv_inst.specs.Execution.{carried_out};
ghost use Rattle.rv_machine.specs.Keeping.{told, step_at};
ghost use Rattle.rv_machine.specs.Runs.{at, step_to, Stays};

use crate::Rv;
use crate::forms::{
    add_upper, branch, jump_on, jump_to, load, load_upper, on_imm, on_regs, on_shift, store,
};
use crate::kept_inst::KeptInst;
use crate::kept_reg::KeptReg;
use crate::next::Next;
use crate::operation::Operation;
use crate::word_address::WordAddress;
use rv_inst::{BranchName, IName, Inst, LoadName, RName, ShiftName, StoreName, TrapCause};

/// Carries out an instruction at pc: the address behind it; or none, and the machine stays as it was, where the entry tells none or no other is next.
///
/// docs/MACHINE.md, "RV32IM".
#[inline(always)]
pub fn carry_out(rv: &mut Rv, pc: WordAddress, inst: &KeptInst) -> Option<WordAddress>
    ensures value { IfSome result (λ to. (n : ℕ) → step_at (at rv.old pc n) (told inst.now) ≡ Done (at rv.new to (n + 1))) }
    ensures kept { IfNone result (rv.new ≡ rv.old) }
{
    match inst.operation {
        Operation::Add => Some(on_regs(rv, pc, RName::Add, inst.rd, inst.rs1, inst.rs2)),
        Operation::Sub => Some(on_regs(rv, pc, RName::Sub, inst.rd, inst.rs1, inst.rs2)),
        Operation::Sll => Some(on_regs(rv, pc, RName::Sll, inst.rd, inst.rs1, inst.rs2)),
        Operation::Slt => Some(on_regs(rv, pc, RName::Slt, inst.rd, inst.rs1, inst.rs2)),
        Operation::Sltu => Some(on_regs(rv, pc, RName::Sltu, inst.rd, inst.rs1, inst.rs2)),
        Operation::Xor => Some(on_regs(rv, pc, RName::Xor, inst.rd, inst.rs1, inst.rs2)),
        Operation::Srl => Some(on_regs(rv, pc, RName::Srl, inst.rd, inst.rs1, inst.rs2)),
        Operation::Sra => Some(on_regs(rv, pc, RName::Sra, inst.rd, inst.rs1, inst.rs2)),
        Operation::Or => Some(on_regs(rv, pc, RName::Or, inst.rd, inst.rs1, inst.rs2)),
        Operation::And => Some(on_regs(rv, pc, RName::And, inst.rd, inst.rs1, inst.rs2)),
        Operation::Mul => Some(on_regs(rv, pc, RName::Mul, inst.rd, inst.rs1, inst.rs2)),
        Operation::Mulh => Some(on_regs(rv, pc, RName::Mulh, inst.rd, inst.rs1, inst.rs2)),
        Operation::Mulhsu => Some(on_regs(rv, pc, RName::Mulhsu, inst.rd, inst.rs1, inst.rs2)),
        Operation::Mulhu => Some(on_regs(rv, pc, RName::Mulhu, inst.rd, inst.rs1, inst.rs2)),
        Operation::Div => Some(on_regs(rv, pc, RName::Div, inst.rd, inst.rs1, inst.rs2)),
        Operation::Divu => Some(on_regs(rv, pc, RName::Divu, inst.rd, inst.rs1, inst.rs2)),
        Operation::Rem => Some(on_regs(rv, pc, RName::Rem, inst.rd, inst.rs1, inst.rs2)),
        Operation::Remu => Some(on_regs(rv, pc, RName::Remu, inst.rd, inst.rs1, inst.rs2)),
        Operation::Addi => Some(on_imm(rv, pc, IName::Addi, inst.rd, inst.rs1, inst.word)),
        Operation::Slti => Some(on_imm(rv, pc, IName::Slti, inst.rd, inst.rs1, inst.word)),
        Operation::Sltiu => Some(on_imm(rv, pc, IName::Sltiu, inst.rd, inst.rs1, inst.word)),
        Operation::Xori => Some(on_imm(rv, pc, IName::Xori, inst.rd, inst.rs1, inst.word)),
        Operation::Ori => Some(on_imm(rv, pc, IName::Ori, inst.rd, inst.rs1, inst.word)),
        Operation::Andi => Some(on_imm(rv, pc, IName::Andi, inst.rd, inst.rs1, inst.word)),
        Operation::Slli => Some(on_shift(rv, pc, ShiftName::Slli, inst.rd, inst.rs1, inst.word)),
        Operation::Srli => Some(on_shift(rv, pc, ShiftName::Srli, inst.rd, inst.rs1, inst.word)),
        Operation::Srai => Some(on_shift(rv, pc, ShiftName::Srai, inst.rd, inst.rs1, inst.word)),
        Operation::Lb => load(rv, pc, LoadName::Lb, inst.rd, inst.rs1, inst.word).ok(),
        Operation::Lh => load(rv, pc, LoadName::Lh, inst.rd, inst.rs1, inst.word).ok(),
        Operation::Lw => load(rv, pc, LoadName::Lw, inst.rd, inst.rs1, inst.word).ok(),
        Operation::Lbu => load(rv, pc, LoadName::Lbu, inst.rd, inst.rs1, inst.word).ok(),
        Operation::Lhu => load(rv, pc, LoadName::Lhu, inst.rd, inst.rs1, inst.word).ok(),
        Operation::Sb => store(rv, pc, StoreName::Sb, inst.rs1, inst.rs2, inst.word).ok(),
        Operation::Sh => store(rv, pc, StoreName::Sh, inst.rs1, inst.rs2, inst.word).ok(),
        Operation::Sw => store(rv, pc, StoreName::Sw, inst.rs1, inst.rs2, inst.word).ok(),
        Operation::Beq => branch(rv, pc, BranchName::Beq, inst.rs1, inst.rs2, inst.word).ok(),
        Operation::Bne => branch(rv, pc, BranchName::Bne, inst.rs1, inst.rs2, inst.word).ok(),
        Operation::Blt => branch(rv, pc, BranchName::Blt, inst.rs1, inst.rs2, inst.word).ok(),
        Operation::Bge => branch(rv, pc, BranchName::Bge, inst.rs1, inst.rs2, inst.word).ok(),
        Operation::Bltu => branch(rv, pc, BranchName::Bltu, inst.rs1, inst.rs2, inst.word).ok(),
        Operation::Bgeu => branch(rv, pc, BranchName::Bgeu, inst.rs1, inst.rs2, inst.word).ok(),
        Operation::Lui => Some(load_upper(rv, pc, inst.rd, inst.word % 0x10_0000)),
        Operation::Auipc => Some(add_upper(rv, pc, inst.rd, inst.word % 0x10_0000)),
        Operation::Jal => jump_on(rv, pc, inst.rd, inst.word).ok(),
        Operation::Jalr => jump_to(rv, pc, inst.rd, inst.rs1, inst.word).ok(),
        Operation::Fence => Some(pc.next()),
        Operation::Ecall | Operation::Ebreak | Operation::Unknown => None,
    }
}

/// Carries out an instruction that was decoded anew.
pub fn carry_out_anew(rv: &mut Rv, pc: WordAddress, inst: &Inst) -> Next
    ensures value { (n : ℕ) → carried_out (at rv.old pc n) inst.now ≡ step_to rv.new pc result n }
    ensures kept { Stays rv.old rv.new result }
{
    match inst {
        Inst::R { name, rd, rs1, rs2 } => Next::On(on_regs(
            rv,
            pc,
            *name,
            KeptReg::of(rd),
            KeptReg::of(rs1),
            KeptReg::of(rs2),
        )),
        Inst::I { name, rd, rs1, imm } => Next::On(on_imm(
            rv,
            pc,
            *name,
            KeptReg::of(rd),
            KeptReg::of(rs1),
            imm.word(),
        )),
        Inst::Shift { name, rd, rs1, by } => Next::On(on_shift(
            rv,
            pc,
            *name,
            KeptReg::of(rd),
            KeptReg::of(rs1),
            by.number(),
        )),
        Inst::Load { name, rd, rs1, imm } => Next::behind(load(
            rv,
            pc,
            *name,
            KeptReg::of(rd),
            KeptReg::of(rs1),
            imm.word(),
        )),
        Inst::Store {
            name,
            rs1,
            rs2,
            imm,
        } => Next::behind(store(
            rv,
            pc,
            *name,
            KeptReg::of(rs1),
            KeptReg::of(rs2),
            imm.word(),
        )),
        Inst::Branch {
            name,
            rs1,
            rs2,
            off,
        } => Next::behind(branch(
            rv,
            pc,
            *name,
            KeptReg::of(rs1),
            KeptReg::of(rs2),
            off.word(),
        )),
        Inst::Lui { rd, imm } => Next::On(load_upper(rv, pc, KeptReg::of(rd), imm.number())),
        Inst::Auipc { rd, imm } => Next::On(add_upper(rv, pc, KeptReg::of(rd), imm.number())),
        Inst::Jal { rd, off } => Next::behind(jump_on(rv, pc, KeptReg::of(rd), off.word())),
        Inst::Jalr { rd, rs1, imm } => Next::behind(jump_to(
            rv,
            pc,
            KeptReg::of(rd),
            KeptReg::of(rs1),
            imm.word(),
        )),
        Inst::Fence { .. } => Next::On(pc.next()),
        Inst::Ecall => Next::Call,
        Inst::Ebreak => Next::Trap(TrapCause::Break),
    }
}
