// The names of instructions, as they stand in assembly text.
ghost use Rattle.std.specs.Prelude.{◌≡◌};
ghost use Rattle.rv_asm.specs.InstNames.{name_text, register_text, immediate_text, shift_text, load_text, store_text, branch_text};

use crate::verb::{verb_of, verb_text};
use rv_inst::{BranchName, IName, Inst, LoadName, RName, ShiftName, StoreName};

/// The name of an instruction.
///
/// docs/MACHINE.md, "Assembly text".
pub fn name_text(inst: &Inst) -> &'static [u8]
    ensures value { result.now ≡ name_text inst.now }
{
    verb_text(verb_of(inst))
}

/// Of an instruction on two registers.
pub fn register_text(name: RName) -> &'static [u8]
    ensures value { result.now ≡ register_text name }
{
    match name {
        RName::Add => b"add",
        RName::Sub => b"sub",
        RName::Sll => b"sll",
        RName::Slt => b"slt",
        RName::Sltu => b"sltu",
        RName::Xor => b"xor",
        RName::Srl => b"srl",
        RName::Sra => b"sra",
        RName::Or => b"or",
        RName::And => b"and",
        RName::Mul => b"mul",
        RName::Mulh => b"mulh",
        RName::Mulhsu => b"mulhsu",
        RName::Mulhu => b"mulhu",
        RName::Div => b"div",
        RName::Divu => b"divu",
        RName::Rem => b"rem",
        RName::Remu => b"remu",
    }
}

/// Of an instruction on a register and an immediate.
pub fn immediate_text(name: IName) -> &'static [u8]
    ensures value { result.now ≡ immediate_text name }
{
    match name {
        IName::Addi => b"addi",
        IName::Slti => b"slti",
        IName::Sltiu => b"sltiu",
        IName::Xori => b"xori",
        IName::Ori => b"ori",
        IName::Andi => b"andi",
    }
}

/// Of a shift by a number.
pub fn shift_text(name: ShiftName) -> &'static [u8]
    ensures value { result.now ≡ shift_text name }
{
    match name {
        ShiftName::Slli => b"slli",
        ShiftName::Srli => b"srli",
        ShiftName::Srai => b"srai",
    }
}

/// Of a load.
pub fn load_text(name: LoadName) -> &'static [u8]
    ensures value { result.now ≡ load_text name }
{
    match name {
        LoadName::Lb => b"lb",
        LoadName::Lh => b"lh",
        LoadName::Lw => b"lw",
        LoadName::Lbu => b"lbu",
        LoadName::Lhu => b"lhu",
    }
}

/// Of a store.
pub fn store_text(name: StoreName) -> &'static [u8]
    ensures value { result.now ≡ store_text name }
{
    match name {
        StoreName::Sb => b"sb",
        StoreName::Sh => b"sh",
        StoreName::Sw => b"sw",
    }
}

/// Of a branch.
pub fn branch_text(name: BranchName) -> &'static [u8]
    ensures value { result.now ≡ branch_text name }
{
    match name {
        BranchName::Beq => b"beq",
        BranchName::Bne => b"bne",
        BranchName::Blt => b"blt",
        BranchName::Bge => b"bge",
        BranchName::Bltu => b"bltu",
        BranchName::Bgeu => b"bgeu",
    }
}
