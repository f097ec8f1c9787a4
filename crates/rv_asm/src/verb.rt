// The word with which a line says what it is.
ghost use Rattle.std.specs.Prelude.{◌≡◌};
ghost use Rattle.rv_asm.specs.InstNames.{verb_of, verb_text, verb_called};

use crate::inst_name::{
    branch_text, immediate_text, load_text, register_text, shift_text, store_text,
};
use rv_inst::{BranchName, IName, Inst, LoadName, RName, ShiftName, StoreName};
use tam_text::is_same;

/// The name of an instruction, or `.word`.
#[derive(Clone, Copy)]
pub enum Verb {
    Register(RName),
    Immediate(IName),
    Shift(ShiftName),
    Load(LoadName),
    Store(StoreName),
    Branch(BranchName),
    Lui,
    Auipc,
    Jal,
    Jalr,
    Fence,
    Ecall,
    Ebreak,
    Word,
}

/// Every verb.
#[rattlefmt::skip]
pub const VERBS: [Verb; 49] = [
    Verb::Register(RName::Add), Verb::Register(RName::Sub), Verb::Register(RName::Sll), Verb::Register(RName::Slt), Verb::Register(RName::Sltu),
    Verb::Register(RName::Xor), Verb::Register(RName::Srl), Verb::Register(RName::Sra), Verb::Register(RName::Or), Verb::Register(RName::And),
    Verb::Register(RName::Mul), Verb::Register(RName::Mulh), Verb::Register(RName::Mulhsu), Verb::Register(RName::Mulhu), Verb::Register(RName::Div),
    Verb::Register(RName::Divu), Verb::Register(RName::Rem), Verb::Register(RName::Remu),
    Verb::Immediate(IName::Addi), Verb::Immediate(IName::Slti), Verb::Immediate(IName::Sltiu), Verb::Immediate(IName::Xori),
    Verb::Immediate(IName::Ori), Verb::Immediate(IName::Andi),
    Verb::Shift(ShiftName::Slli), Verb::Shift(ShiftName::Srli), Verb::Shift(ShiftName::Srai),
    Verb::Load(LoadName::Lb), Verb::Load(LoadName::Lh), Verb::Load(LoadName::Lw), Verb::Load(LoadName::Lbu), Verb::Load(LoadName::Lhu),
    Verb::Store(StoreName::Sb), Verb::Store(StoreName::Sh), Verb::Store(StoreName::Sw),
    Verb::Branch(BranchName::Beq), Verb::Branch(BranchName::Bne), Verb::Branch(BranchName::Blt), Verb::Branch(BranchName::Bge),
    Verb::Branch(BranchName::Bltu), Verb::Branch(BranchName::Bgeu),
    Verb::Lui, Verb::Auipc, Verb::Jal, Verb::Jalr, Verb::Fence, Verb::Ecall, Verb::Ebreak, Verb::Word,
];

/// The verb of an instruction.
pub fn verb_of(inst: &Inst) -> Verb
    ensures value { result ≡ verb_of inst.now }
{
    match inst {
        Inst::R { name, .. } => Verb::Register(*name),
        Inst::I { name, .. } => Verb::Immediate(*name),
        Inst::Shift { name, .. } => Verb::Shift(*name),
        Inst::Load { name, .. } => Verb::Load(*name),
        Inst::Store { name, .. } => Verb::Store(*name),
        Inst::Branch { name, .. } => Verb::Branch(*name),
        Inst::Lui { .. } => Verb::Lui,
        Inst::Auipc { .. } => Verb::Auipc,
        Inst::Jal { .. } => Verb::Jal,
        Inst::Jalr { .. } => Verb::Jalr,
        Inst::Fence { .. } => Verb::Fence,
        Inst::Ecall => Verb::Ecall,
        Inst::Ebreak => Verb::Ebreak,
    }
}

/// How a verb is written.
///
/// docs/MACHINE.md, "Assembly text".
pub fn verb_text(verb: Verb) -> &'static [u8]
    ensures value { result.now ≡ verb_text verb }
{
    match verb {
        Verb::Register(name) => register_text(name),
        Verb::Immediate(name) => immediate_text(name),
        Verb::Shift(name) => shift_text(name),
        Verb::Load(name) => load_text(name),
        Verb::Store(name) => store_text(name),
        Verb::Branch(name) => branch_text(name),
        Verb::Lui => b"lui",
        Verb::Auipc => b"auipc",
        Verb::Jal => b"jal",
        Verb::Jalr => b"jalr",
        Verb::Fence => b"fence",
        Verb::Ecall => b"ecall",
        Verb::Ebreak => b"ebreak",
        Verb::Word => b".word",
    }
}

/// The verb that a token writes.
pub fn verb_called(token: &[u8]) -> Option<Verb>
    ensures value { result ≡ verb_called token.now }
{
    for verb in &VERBS {
        if is_same(token, verb_text(*verb)) {
            return Some(*verb);
        }
    }
    None
}
