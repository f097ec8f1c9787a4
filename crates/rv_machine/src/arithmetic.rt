// What the instructions on registers give.
ghost use Rattle.std.specs.Prelude.{◌≡◌, ◌*◌, ◌/◌, ◌^◌};
ghost use Rattle.std.specs.Int.{w32, cast_signed};
ghost use Rattle.rv_inst.specs.Execution.{of_regs, of_imm, of_shift, is_taken, high_signed, high_mixed};

use rv_inst::{BranchName, IName, RName, ShiftName};
use tam_word::{Op, apply};

// The word as a signed number.
fn signed(word: u32) -> i32
    ensures value { result ≡ cast_signed w32 word }
{
    word.cast_signed()
}

/// What an instruction on two registers gives.
///
/// The RISC-V Instruction Set Manual, Volume I, version 20191213, sections "Integer Register-Register Operations",
/// "Multiplication Operations" and "Division Operations".
pub fn of_regs(name: RName, a: u32, b: u32) -> u32
    ensures value { result ≡ of_regs name a b }
{
    match name {
        RName::Add => apply(Op::Add, a, b),
        RName::Sub => apply(Op::Sub, a, b),
        RName::Sll => apply(Op::Sll, a, b),
        RName::Slt => apply(Op::Slt, a, b),
        RName::Sltu => apply(Op::Sltu, a, b),
        RName::Xor => apply(Op::Xor, a, b),
        RName::Srl => apply(Op::Srl, a, b),
        RName::Sra => apply(Op::Sra, a, b),
        RName::Or => apply(Op::Or, a, b),
        RName::And => apply(Op::And, a, b),
        RName::Mul => apply(Op::Mul, a, b),
        RName::Mulh => high_signed(a, b),
        RName::Mulhsu => high_mixed(a, b),
        RName::Mulhu => high_unsigned(a, b),
        RName::Div => apply(Op::Div, a, b),
        RName::Divu => apply(Op::Divu, a, b),
        RName::Rem => apply(Op::Rem, a, b),
        RName::Remu => apply(Op::Remu, a, b),
    }
}

// The high word of the product of two signed words.
fn high_signed(a: u32, b: u32) -> u32
    ensures value { result ≡ high_signed a b }
{
    let product = i64::from(signed(a)).wrapping_mul(i64::from(signed(b)));
    (product.cast_unsigned() / 0x1_0000_0000) as u32
}

// Of a signed and an unsigned one.
fn high_mixed(a: u32, b: u32) -> u32
    ensures value { result ≡ high_mixed a b }
{
    let product = i64::from(signed(a)).wrapping_mul(i64::from(b));
    (product.cast_unsigned() / 0x1_0000_0000) as u32
}

// Of two unsigned ones.
fn high_unsigned(a: u32, b: u32) -> u32
    ensures value { result ≡ a * b / 2 ^ 32 }
{
    let product = u64::from(a) * u64::from(b);
    (product / 0x1_0000_0000) as u32
}

/// What an instruction on a register and an immediate gives.
pub fn of_imm(name: IName, a: u32, imm: u32) -> u32
    ensures value { result ≡ of_imm name a imm }
{
    match name {
        IName::Addi => apply(Op::Add, a, imm),
        IName::Slti => apply(Op::Slt, a, imm),
        IName::Sltiu => apply(Op::Sltu, a, imm),
        IName::Xori => apply(Op::Xor, a, imm),
        IName::Ori => apply(Op::Or, a, imm),
        IName::Andi => apply(Op::And, a, imm),
    }
}

/// What a shift by a number gives.
pub fn of_shift(name: ShiftName, a: u32, by: u32) -> u32
    ensures value { result ≡ of_shift name a by }
{
    match name {
        ShiftName::Slli => apply(Op::Sll, a, by),
        ShiftName::Srli => apply(Op::Srl, a, by),
        ShiftName::Srai => apply(Op::Sra, a, by),
    }
}

/// Whether a branch is taken.
pub fn is_taken(name: BranchName, a: u32, b: u32) -> bool
    ensures value { result ≡ is_taken name a b }
{
    match name {
        BranchName::Beq => a == b,
        BranchName::Bne => a != b,
        BranchName::Blt => signed(a) < signed(b),
        BranchName::Bge => signed(a) >= signed(b),
        BranchName::Bltu => a < b,
        BranchName::Bgeu => a >= b,
    }
}
