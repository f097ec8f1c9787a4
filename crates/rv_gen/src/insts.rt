// Instructions by the numbers of their registers, and the short lists of them that kernel and expansions share.
ghost use Rattle.std.specs.Prelude.{◌≡◌, ◌+◌, ◌*◌, ◌%◌, ◌^◌, ◌<◌, ◌≤◌, ◌≤ℤ◌, ◌++◌, pos, negsuc, map, OnOk};
ghost use Rattle.std.specs.Int.{w32, cast_unsigned};
ghost use Rattle.rv_inst.specs.declared.inst.Inst.TheVariants.{R as R_inst, I as I_inst, Shift as Shift_inst, Load as Load_inst};
ghost use Rattle.rv_inst.specs.declared.inst.Inst.TheVariants.{Store as Store_inst, Branch as Branch_inst, Lui as Lui_inst, Jal as Jal_inst, Jalr as Jalr_inst};
ghost use Rattle.rv_inst.specs.declared.i_name.IName.TheVariants.{Addi as I_addi};
ghost use Rattle.rv_inst.specs.declared.load_name.LoadName.TheVariants.{Lw as L_lw};
ghost use Rattle.rv_inst.specs.declared.store_name.StoreName.TheVariants.{Sw as S_sw};
ghost use Rattle.rv_inst.specs.declared.shift_name.ShiftName.TheVariants.{Slli as S_slli};
ghost use Rattle.rv_keep.specs.Expansions.{high, low, addi, add, lw, sw, load_number, get, put, call_host};
ghost use Rattle.rv_gen.specs.Parts.{word_of, words_of};

use crate::frame_record::slot_at;
use rv_inst::{
    BranchName, IName, Imm12, Imm20, Inst, LoadName, Off13, Off21, RName, Reg, ShiftName,
    StoreName, encode,
};
use tam_edge::NoMemory;

/// Puts the words of instructions behind the others.
pub fn push_insts(words: &mut Vec<u32>, insts: &[Inst]) -> Result<(), NoMemory>
    ensures ok { OnOk result (words.new.items ≡ words.old.items ++ words_of insts.now) }
{
    let mut rest = insts;
    while let [inst, after @ ..] = rest {
        words.push(word(inst))?;
        rest = after;
    }
    Ok(())
}

// The word of an instruction.
#[tactic(auto, unfolding(crate::specs::Parts::word_of))]
fn word(inst: &Inst) -> u32
    ensures value { result ≡ word_of inst.now }
{
    encode(inst)
}

/// A register gets a number.
pub fn load_number(x: u32, number: u32) -> [Inst; 2]
    requires register { x < 32 }
    ensures value { result ≡ load_number x number }
{
    [lui(x, number), addi(x, x, low(number))]
}

/// A register gets a slot.
pub fn get(x: u32, slot: u32) -> [Inst; 3]
    requires register { x < 32 }
    requires slot { slot ≤ 1026 }
    ensures value { result ≡ get x slot }
{
    let at = slot_at(slot);
    [lui(31, at), add(31, 31, 8), lw(x, low(at), 31)]
}

/// A register goes into a slot.
pub fn put(x: u32, slot: u32) -> [Inst; 3]
    requires register { x < 32 }
    requires slot { slot ≤ 1026 }
    ensures value { result ≡ put x slot }
{
    let at = slot_at(slot);
    [lui(31, at), add(31, 31, 8), sw(x, low(at), 31)]
}

/// A call of the host.
pub fn call_host(number: i32) -> [Inst; 2]
    requires low { pos 0 ≤ℤ number }
    requires high { number ≤ℤ pos 2047 }
    ensures value { result ≡ call_host (cast_unsigned w32 number) }
{
    [addi(17, 0, number), Inst::Ecall]
}

/// The lower 12 bits of a word, as an immediate.
pub fn low(word: u32) -> i32
    ensures value { cast_unsigned w32 result ≡ low word }
    ensures from { negsuc 2047 ≤ℤ result }
    ensures to { result ≤ℤ pos 2047 }
{
    let field = word % 0x1000;
    let word = if field < 0x800 {
        field
    } else {
        field + 0xffff_f000
    };
    word.cast_signed()
}

/// The upper 20 bits of a word, for an addition of the lower 12.
pub fn lui(rd: u32, word: u32) -> Inst
    requires target { rd < 32 }
    ensures value { result ≡ Lui_inst rd (high word) }
{
    let upper = word.wrapping_add(0x800) / 0x1000;
    match Imm20::of(upper as i32) {
        Some(imm) => Inst::Lui {
            rd: register(rd),
            imm,
        },
        None => unreachable!(),
    }
}

/// An addition of a number.
pub fn addi(rd: u32, rs1: u32, number: i32) -> Inst
    requires target { rd < 32 }
    requires source { rs1 < 32 }
    requires from { negsuc 2047 ≤ℤ number }
    requires to { number ≤ℤ pos 2047 }
    ensures value { result ≡ addi rd rs1 (cast_unsigned w32 number) }
{
    immediate(IName::Addi, rd, rs1, number)
}

/// An instruction on a register and a number.
pub fn immediate(name: IName, rd: u32, rs1: u32, number: i32) -> Inst
    requires target { rd < 32 }
    requires source { rs1 < 32 }
    requires from { negsuc 2047 ≤ℤ number }
    requires to { number ≤ℤ pos 2047 }
    ensures value { result ≡ I_inst name rd rs1 (cast_unsigned w32 number) }
{
    Inst::I {
        name,
        rd: register(rd),
        rs1: register(rs1),
        imm: number_of_12(number),
    }
}

/// An addition of registers.
pub fn add(rd: u32, rs1: u32, rs2: u32) -> Inst
    requires target { rd < 32 }
    requires first { rs1 < 32 }
    requires second { rs2 < 32 }
    ensures value { result ≡ add rd rs1 rs2 }
{
    operate(RName::Add, rd, rs1, rs2)
}

/// An instruction on two registers.
pub fn operate(name: RName, rd: u32, rs1: u32, rs2: u32) -> Inst
    requires target { rd < 32 }
    requires first { rs1 < 32 }
    requires second { rs2 < 32 }
    ensures value { result ≡ R_inst name rd rs1 rs2 }
{
    Inst::R {
        name,
        rd: register(rd),
        rs1: register(rs1),
        rs2: register(rs2),
    }
}

/// A shift to the left.
pub fn slli(rd: u32, rs1: u32, by: u32) -> Inst
    requires target { rd < 32 }
    requires source { rs1 < 32 }
    requires by { by < 32 }
    ensures value { result ≡ Shift_inst S_slli rd rs1 by }
{
    Inst::Shift {
        name: ShiftName::Slli,
        rd: register(rd),
        rs1: register(rs1),
        by: register(by),
    }
}

/// A register gets the word at a register and a number.
pub fn lw(rd: u32, number: i32, rs1: u32) -> Inst
    requires target { rd < 32 }
    requires base { rs1 < 32 }
    requires from { negsuc 2047 ≤ℤ number }
    requires to { number ≤ℤ pos 2047 }
    ensures value { result ≡ lw rd (cast_unsigned w32 number) rs1 }
{
    Inst::Load {
        name: LoadName::Lw,
        rd: register(rd),
        rs1: register(rs1),
        imm: number_of_12(number),
    }
}

/// A register goes there.
pub fn sw(rs2: u32, number: i32, rs1: u32) -> Inst
    requires source { rs2 < 32 }
    requires base { rs1 < 32 }
    requires from { negsuc 2047 ≤ℤ number }
    requires to { number ≤ℤ pos 2047 }
    ensures value { result ≡ sw rs2 (cast_unsigned w32 number) rs1 }
{
    Inst::Store {
        name: StoreName::Sw,
        rs1: register(rs1),
        rs2: register(rs2),
        imm: number_of_12(number),
    }
}

/// A branch.
pub fn branch(name: BranchName, rs1: u32, rs2: u32, off: i32) -> Inst
    requires first { rs1 < 32 }
    requires second { rs2 < 32 }
    requires from { negsuc 4095 ≤ℤ off }
    requires to { off ≤ℤ pos 4094 }
    requires even { cast_unsigned w32 off % 2 ≡ 0 }
    ensures value { result ≡ Branch_inst name rs1 rs2 (cast_unsigned w32 off) }
{
    match Off13::of(off) {
        Some(off) => Inst::Branch {
            name,
            rs1: register(rs1),
            rs2: register(rs2),
            off,
        },
        None => unreachable!(),
    }
}

/// A jump.
pub fn jal(rd: u32, off: i32) -> Inst
    requires target { rd < 32 }
    requires from { negsuc 1048575 ≤ℤ off }
    requires to { off ≤ℤ pos 1048574 }
    requires even { cast_unsigned w32 off % 2 ≡ 0 }
    ensures value { result ≡ Jal_inst rd (cast_unsigned w32 off) }
{
    match Off21::of(off) {
        Some(off) => Inst::Jal {
            rd: register(rd),
            off,
        },
        None => unreachable!(),
    }
}

/// A jump to a register and a number.
pub fn jalr(rd: u32, rs1: u32, number: i32) -> Inst
    requires target { rd < 32 }
    requires base { rs1 < 32 }
    requires from { negsuc 2047 ≤ℤ number }
    requires to { number ≤ℤ pos 2047 }
    ensures value { result ≡ Jalr_inst rd rs1 (cast_unsigned w32 number) }
{
    Inst::Jalr {
        rd: register(rd),
        rs1: register(rs1),
        imm: number_of_12(number),
    }
}

fn register(number: u32) -> Reg
    requires in_range { number < 32 }
    ensures value { result ≡ number }
{
    match Reg::of(number as i32) {
        Some(register) => register,
        None => unreachable!(),
    }
}

fn number_of_12(number: i32) -> Imm12
    requires from { negsuc 2047 ≤ℤ number }
    requires to { number ≤ℤ pos 2047 }
    ensures value { result ≡ cast_unsigned w32 number }
{
    match Imm12::of(number) {
        Some(imm) => imm,
        None => unreachable!(),
    }
}
