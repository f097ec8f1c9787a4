// What the forms of instructions do.
ghost use Rattle.std.specs.Prelude.{ℕ, ◌≡◌, ◌+◌, ◌<◌, ◌^◌, IfErr};
ghost use Rattle.rv_inst.specs.declared.inst.Inst.TheVariants.{R, I, Shift, Load, Store, Branch, Lui, Auipc, Jal, Jalr};
ghost use Rattle.rv_inst.specs.Harts.{reg, Done};
ghost use Rattle.rv_inst.specs.Execution.{carried_out};
ghost use Rattle.rv_machine.specs.Runs.{at, goes_to};

use crate::Rv;
use crate::arithmetic::{is_taken, of_imm, of_regs, of_shift};
use crate::kept_reg::KeptReg;
use crate::word_address::WordAddress;
use rv_inst::{BranchName, IName, LoadName, RName, ShiftName, StoreName, TrapCause};

/// An instruction on two registers.
#[inline(always)]
pub fn on_regs(
    rv: &mut Rv,
    pc: WordAddress,
    name: RName,
    rd: KeptReg,
    rs1: KeptReg,
    rs2: KeptReg,
) -> WordAddress
    ensures value { (n : ℕ) → carried_out (at rv.old pc n) (R name rd rs1 rs2) ≡ Done (at rv.new result (n + 1)) }
{
    let word = of_regs(name, read(rv, rs1), read(rv, rs2));
    rv.set_reg(rd.number(), word);
    pc.next()
}

/// On a register and an immediate.
#[inline(always)]
pub fn on_imm(
    rv: &mut Rv,
    pc: WordAddress,
    name: IName,
    rd: KeptReg,
    rs1: KeptReg,
    word: u32,
) -> WordAddress
    ensures value { (n : ℕ) → carried_out (at rv.old pc n) (I name rd rs1 word) ≡ Done (at rv.new result (n + 1)) }
{
    let word = of_imm(name, read(rv, rs1), word);
    rv.set_reg(rd.number(), word);
    pc.next()
}

/// A shift by a number.
#[inline(always)]
pub fn on_shift(
    rv: &mut Rv,
    pc: WordAddress,
    name: ShiftName,
    rd: KeptReg,
    rs1: KeptReg,
    word: u32,
) -> WordAddress
    ensures value { (n : ℕ) → carried_out (at rv.old pc n) (Shift name rd rs1 word) ≡ Done (at rv.new result (n + 1)) }
{
    let word = of_shift(name, read(rv, rs1), word);
    rv.set_reg(rd.number(), word);
    pc.next()
}

/// A load.
#[inline(always)]
pub fn load(
    rv: &mut Rv,
    pc: WordAddress,
    name: LoadName,
    rd: KeptReg,
    rs1: KeptReg,
    word: u32,
) -> Result<WordAddress, TrapCause>
    ensures value { (n : ℕ) → carried_out (at rv.old pc n) (Load name rd rs1 word) ≡ goes_to rv.new pc result n }
    ensures kept { IfErr result (λ cause. rv.new ≡ rv.old) }
{
    let address = read(rv, rs1).wrapping_add(word);
    rv.load_from(pc, name, rd, address)
}

/// A store.
#[inline(always)]
pub fn store(
    rv: &mut Rv,
    pc: WordAddress,
    name: StoreName,
    rs1: KeptReg,
    rs2: KeptReg,
    word: u32,
) -> Result<WordAddress, TrapCause>
    ensures value { (n : ℕ) → carried_out (at rv.old pc n) (Store name rs1 rs2 word) ≡ goes_to rv.new pc result n }
    ensures kept { IfErr result (λ cause. rv.new ≡ rv.old) }
{
    let address = read(rv, rs1).wrapping_add(word);
    let word = read(rv, rs2);
    rv.store_to(pc, name, address, word)
}

/// A branch: a jump where it is taken.
#[inline(always)]
pub fn branch(
    rv: &mut Rv,
    pc: WordAddress,
    name: BranchName,
    rs1: KeptReg,
    rs2: KeptReg,
    word: u32,
) -> Result<WordAddress, TrapCause>
    ensures value { (n : ℕ) → carried_out (at rv.old pc n) (Branch name rs1 rs2 word) ≡ goes_to rv.new pc result n }
    ensures kept { IfErr result (λ cause. rv.new ≡ rv.old) }
{
    if !is_taken(name, read(rv, rs1), read(rv, rs2)) {
        return Ok(pc.next());
    }
    let to = pc.number().wrapping_add(word);
    rv.jump(pc, KeptReg::ZERO, to)
}

/// `lui`: the upper 20 bits.
#[inline(always)]
pub fn load_upper(rv: &mut Rv, pc: WordAddress, rd: KeptReg, upper: u32) -> WordAddress
    requires in_range { upper < 2 ^ 20 }
    ensures value { (n : ℕ) → carried_out (at rv.old pc n) (Lui rd upper) ≡ Done (at rv.new result (n + 1)) }
{
    rv.set_reg(rd.number(), upper * 0x1000);
    pc.next()
}

/// `auipc`: these beyond pc.
#[inline(always)]
pub fn add_upper(rv: &mut Rv, pc: WordAddress, rd: KeptReg, upper: u32) -> WordAddress
    requires in_range { upper < 2 ^ 20 }
    ensures value { (n : ℕ) → carried_out (at rv.old pc n) (Auipc rd upper) ≡ Done (at rv.new result (n + 1)) }
{
    let word = pc.number().wrapping_add(upper * 0x1000);
    rv.set_reg(rd.number(), word);
    pc.next()
}

/// `jal`: a jump from pc.
#[inline(always)]
pub fn jump_on(
    rv: &mut Rv,
    pc: WordAddress,
    rd: KeptReg,
    off: u32,
) -> Result<WordAddress, TrapCause>
    ensures value { (n : ℕ) → carried_out (at rv.old pc n) (Jal rd off) ≡ goes_to rv.new pc result n }
    ensures kept { IfErr result (λ cause. rv.new ≡ rv.old) }
{
    let to = pc.number().wrapping_add(off);
    rv.jump(pc, rd, to)
}

/// `jalr`: a jump from a register.
#[inline(always)]
pub fn jump_to(
    rv: &mut Rv,
    pc: WordAddress,
    rd: KeptReg,
    rs1: KeptReg,
    word: u32,
) -> Result<WordAddress, TrapCause>
    ensures value { (n : ℕ) → carried_out (at rv.old pc n) (Jalr rd rs1 word) ≡ goes_to rv.new pc result n }
    ensures kept { IfErr result (λ cause. rv.new ≡ rv.old) }
{
    let to = read(rv, rs1).wrapping_add(word) / 2 * 2;
    rv.jump(pc, rd, to)
}

// The word of a register.
#[inline(always)]
fn read(rv: &Rv, r: KeptReg) -> u32
    ensures value { result ≡ reg rv.now r }
{
    rv.reg(r.number())
}
