// What an instruction is, its form and its name in one.
ghost use Rattle.std.specs.Prelude.{ℕ, ◌≡◌, Some};
ghost use Rattle.rv_inst.specs.declared.inst.Inst.TheVariants.{R, I, Shift, Load, Store, Branch};
ghost use Rattle.rv_machine.specs.Keeping.{instruction};

use rv_inst::{BranchName, IName, LoadName, RName, ShiftName, StoreName};

/// The form and the name of an instruction, so that one jump by a table leads to its code; `Unknown` where there is no instruction.
#[derive(Clone, Copy, Debug)]
pub enum Operation {
    Add,
    Sub,
    Sll,
    Slt,
    Sltu,
    Xor,
    Srl,
    Sra,
    Or,
    And,
    Mul,
    Mulh,
    Mulhsu,
    Mulhu,
    Div,
    Divu,
    Rem,
    Remu,
    Addi,
    Slti,
    Sltiu,
    Xori,
    Ori,
    Andi,
    Slli,
    Srli,
    Srai,
    Lb,
    Lh,
    Lw,
    Lbu,
    Lhu,
    Sb,
    Sh,
    Sw,
    Beq,
    Bne,
    Blt,
    Bge,
    Bltu,
    Bgeu,
    Lui,
    Auipc,
    Jal,
    Jalr,
    Fence,
    Ecall,
    Ebreak,
    Unknown,
}

impl Operation {
    /// That of an instruction on two registers.
    pub fn of_regs(name: RName) -> Operation
        ensures value { (rd rs1 rs2 word : ℕ) → instruction result rd rs1 rs2 word ≡ Some (R name rd rs1 rs2) }
    {
        match name {
            RName::Add => Operation::Add,
            RName::Sub => Operation::Sub,
            RName::Sll => Operation::Sll,
            RName::Slt => Operation::Slt,
            RName::Sltu => Operation::Sltu,
            RName::Xor => Operation::Xor,
            RName::Srl => Operation::Srl,
            RName::Sra => Operation::Sra,
            RName::Or => Operation::Or,
            RName::And => Operation::And,
            RName::Mul => Operation::Mul,
            RName::Mulh => Operation::Mulh,
            RName::Mulhsu => Operation::Mulhsu,
            RName::Mulhu => Operation::Mulhu,
            RName::Div => Operation::Div,
            RName::Divu => Operation::Divu,
            RName::Rem => Operation::Rem,
            RName::Remu => Operation::Remu,
        }
    }

    /// On a register and an immediate.
    pub fn of_imm(name: IName) -> Operation
        ensures value { (rd rs1 rs2 word : ℕ) → instruction result rd rs1 rs2 word ≡ Some (I name rd rs1 word) }
    {
        match name {
            IName::Addi => Operation::Addi,
            IName::Slti => Operation::Slti,
            IName::Sltiu => Operation::Sltiu,
            IName::Xori => Operation::Xori,
            IName::Ori => Operation::Ori,
            IName::Andi => Operation::Andi,
        }
    }

    /// Of a shift by a number.
    pub fn of_shift(name: ShiftName) -> Operation
        ensures value { (rd rs1 rs2 word : ℕ) → instruction result rd rs1 rs2 word ≡ Some (Shift name rd rs1 word) }
    {
        match name {
            ShiftName::Slli => Operation::Slli,
            ShiftName::Srli => Operation::Srli,
            ShiftName::Srai => Operation::Srai,
        }
    }

    /// Of a load.
    pub fn of_load(name: LoadName) -> Operation
        ensures value { (rd rs1 rs2 word : ℕ) → instruction result rd rs1 rs2 word ≡ Some (Load name rd rs1 word) }
    {
        match name {
            LoadName::Lb => Operation::Lb,
            LoadName::Lh => Operation::Lh,
            LoadName::Lw => Operation::Lw,
            LoadName::Lbu => Operation::Lbu,
            LoadName::Lhu => Operation::Lhu,
        }
    }

    /// Of a store.
    pub fn of_store(name: StoreName) -> Operation
        ensures value { (rd rs1 rs2 word : ℕ) → instruction result rd rs1 rs2 word ≡ Some (Store name rs1 rs2 word) }
    {
        match name {
            StoreName::Sb => Operation::Sb,
            StoreName::Sh => Operation::Sh,
            StoreName::Sw => Operation::Sw,
        }
    }

    /// Of a branch.
    pub fn of_branch(name: BranchName) -> Operation
        ensures value { (rd rs1 rs2 word : ℕ) → instruction result rd rs1 rs2 word ≡ Some (Branch name rs1 rs2 word) }
    {
        match name {
            BranchName::Beq => Operation::Beq,
            BranchName::Bne => Operation::Bne,
            BranchName::Blt => Operation::Blt,
            BranchName::Bge => Operation::Bge,
            BranchName::Bltu => Operation::Bltu,
            BranchName::Bgeu => Operation::Bgeu,
        }
    }
}
