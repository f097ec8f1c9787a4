// The machine.
ghost use Rattle.std.specs.Prelude.{ℕ, ◌≡◌, ◌+◌, ◌%◌, ◌<◌, ◌≤◌, ◌*◌, ◌^◌, ◌++◌, replicate, IfOk, IfErr, IfSome, IfNone};
ghost use Rattle.tam_word.specs.Words.{wrapped};
ghost use Rattle.rv_inst.specs.Harts.{reg, with_reg, Done};
ghost use Rattle.rv_inst.specs.Execution.{hart_step, jump, load_from, store_to};
ghost use Rattle.rv_inst.specs.Images.{bytes_of_words, hart_opening};
ghost use Rattle.rv_machine.specs.Answers.{answer, state_after};
ghost use Rattle.rv_machine.specs.Runs.{IsRun, at, step_to, goes_to, Stays};

use crate::execute::{carry_out, carry_out_anew};
use crate::kept_instructions::KeptInstructions;
use crate::kept_reg::KeptReg;
use crate::memory_access::{load, load_size, store, store_size};
use crate::next::Next;
use crate::word_address::WordAddress;
use crate::{RvRun, RvStep};
use rv_image::Image;
use rv_inst::{LoadName, StoreName, TrapCause, decode, word_at};
use std::alloc::Global;
use std::marker::Model;
use tam_edge::NoMemory;

// Of so many words, from the first on, instructions are kept: as many as a large program has, and few enough to take little memory beside a large image.
const MOST_KEPT: usize = 1 << 20;

/// A machine of RV32IM: registers, pc, the bytes of the memory, and the number of steps that did not trap. Beside these it keeps the
/// instructions of the image's first words as they are decoded, so that each is decoded once as long as nothing is stored there.
///
/// docs/MACHINE.md, "RV32IM".
#[derive(Drop)]
pub struct Rv {
    regs: [u32; 32],
    pc: WordAddress,
    memory: Vec<u8>,
    steps: u64,
    kept: KeptInstructions,
}

impl Model for Rv {
    ghost use Rattle.rv_inst.specs.Harts.{Hart};

    ghost Value = { Hart };

    ghost view = { λ r. record { regs = r.regs; pc = r.pc; memory = r.memory.items; steps = r.steps } };

    ghost use Rattle.std.specs.Prelude.{◌≡◌, slice_index};
    ghost use Rattle.rv_machine.specs.Keeping.{AreDecoded};

    ghost invariant = { λ r. (slice_index r.regs 0 ≡ 0) × AreDecoded r.kept.insts.items r.memory.items };
}

impl Rv {
    /// The machine at the first word of an image, with room for so many frames behind the last.
    pub fn new(alloc: Global, image: &Image, frames: u32) -> Result<Rv, NoMemory>
        requires least { 1 ≤ frames }
        requires most { frames ≤ 16384 }
        ensures value { IfOk result (λ rv. rv ≡ hart_opening image.now frames) }
    {
        let memory = memory_of(alloc, image, frames)?;
        let kept = KeptInstructions::unknown(alloc, image.words().len().min(MOST_KEPT))?;
        Ok(Rv {
            regs: [0; 32],
            pc: WordAddress::ZERO,
            memory,
            steps: 0,
            kept,
        })
    }

    /// Makes one step.
    pub fn step(&mut self) -> RvStep
        ensures value { result ≡ answer (hart_step self.old) }
        ensures after { self.new ≡ state_after self.old (hart_step self.old) }
    {
        self.run(1).last
    }

    /// Makes so many steps, or fewer where one calls the host or traps: that one is the last, and it isn't among those that are counted as done.
    pub fn run(&mut self, most: u32) -> RvRun
        ensures value { IsRun most self.old self.new result.done result.last }
        ensures in_range { self.old.steps < 2 ^ 64 }
    {
        let steps = self.steps;
        let mut pc = self.pc;
        let mut done = 0;
        while done < most {
            if let Some(to) = self.next_kept(pc) {
                pc = to;
                done += 1;
                continue;
            }
            match self.next_anew(pc) {
                Next::On(to) => {
                    pc = to;
                    done += 1;
                }
                Next::Call => {
                    self.stand(pc.next(), steps.saturating_add(u64::from(done) + 1));
                    return RvRun {
                        done,
                        last: RvStep::Ecall,
                    };
                }
                Next::Trap(cause) => {
                    self.stand(pc, steps.saturating_add(u64::from(done)));
                    let pc = pc.number();
                    return RvRun {
                        done,
                        last: RvStep::Trap { pc, cause },
                    };
                }
            }
        }
        self.stand(pc, steps.saturating_add(u64::from(done)));
        RvRun {
            done,
            last: RvStep::Done,
        }
    }

    // Carries out the instruction at pc, which is kept beside the machine, as is the number of steps: the address behind it; or none, and the machine stays
    // as it was, where the instruction isn't known, or where no other is next behind it.
    #[inline(always)]
    fn next_kept(&mut self, pc: WordAddress) -> Option<WordAddress>
        ensures value { IfSome result (λ to. (n : ℕ) → hart_step (at self.old pc n) ≡ Done (at self.new to (n + 1))) }
        ensures kept { IfNone result (self.new ≡ self.old) }
    {
        let inst = self.kept.at(pc.number())?.by_fields();
        carry_out(self, pc, &inst)
    }

    // Carries out the instruction at pc, decoded from the word in the memory, and keeps it where it is one of the image's. A call that is kept needs no
    // decoding.
    #[cold]
    #[inline(never)]
    pub(crate) fn next_anew(&mut self, pc: WordAddress) -> Next
        ensures value { (n : ℕ) → hart_step (at self.old pc n) ≡ step_to self.new pc result n }
        ensures kept { Stays self.old self.new result }
    {
        if let Some(inst) = self.kept.at(pc.number())
            && inst.is_call()
        {
            return Next::Call;
        }
        let at = pc.number() as usize;
        if at + 4 > self.memory.len() {
            return Next::Trap(TrapCause::FetchAddress);
        }
        match decode(word_at(&self.memory, at)) {
            None => Next::Trap(TrapCause::Unknown),
            Some(inst) => {
                self.kept.keep(pc.number(), &inst);
                carry_out_anew(self, pc, &inst)
            }
        }
    }

    // The machine stands at pc, after so many steps.
    fn stand(&mut self, pc: WordAddress, steps: u64)
        ensures value { self.new ≡ at self.old pc steps }
    {
        self.pc = pc;
        self.steps = steps;
    }

    /// The word of a register.
    pub fn reg(&self, r: u32) -> u32
        requires in_range { r < 32 }
        ensures value { result ≡ reg self.now r }
        ensures zero { reg self.now 0 ≡ 0 }
    {
        self.regs[r as usize]
    }

    /// Gives a register a word; register 0 stays 0.
    pub fn set_reg(&mut self, r: u32, w: u32)
        requires in_range { r < 32 }
        ensures value { self.new ≡ with_reg self.old r w }
    {
        if r != 0 {
            self.regs[r as usize] = w;
        }
    }

    pub fn pc(&self) -> u32
        ensures value { result ≡ self.now.pc }
        ensures aligned { self.now.pc % 4 ≡ 0 }
    {
        self.pc.number()
    }

    /// The number of steps that did not trap.
    pub fn steps(&self) -> u64
        ensures value { result ≡ self.now.steps }
    {
        self.steps
    }

    // A jump from pc, with the return address in rd.
    #[inline(always)]
    pub(crate) fn jump(
        &mut self,
        pc: WordAddress,
        rd: KeptReg,
        to: u32,
    ) -> Result<WordAddress, TrapCause>
        ensures value { (n : ℕ) → jump (at self.old pc n) rd to ≡ goes_to self.new pc result n }
        ensures kept { IfErr result (λ cause. self.new ≡ self.old) }
    {
        if to % 4 != 0 {
            return Err(TrapCause::JumpAlign);
        }
        self.set_reg(rd.number(), pc.next().number());
        Ok(WordAddress::of(to))
    }

    // A load from an address.
    #[inline(always)]
    pub(crate) fn load_from(
        &mut self,
        pc: WordAddress,
        name: LoadName,
        rd: KeptReg,
        address: u32,
    ) -> Result<WordAddress, TrapCause>
        ensures value { (n : ℕ) → load_from (at self.old pc n) name rd address ≡ goes_to self.new pc result n }
        ensures kept { IfErr result (λ cause. self.new ≡ self.old) }
    {
        let size = load_size(name);
        if address % size != 0 {
            return Err(TrapCause::LoadAlign);
        }
        if address as usize + size as usize > self.memory.len() {
            return Err(TrapCause::LoadAddress);
        }
        let word = load(&self.memory, name, address as usize);
        self.set_reg(rd.number(), word);
        Ok(pc.next())
    }

    // A store to an address.
    #[inline(always)]
    pub(crate) fn store_to(
        &mut self,
        pc: WordAddress,
        name: StoreName,
        address: u32,
        word: u32,
    ) -> Result<WordAddress, TrapCause>
        ensures value { (n : ℕ) → store_to (at self.old pc n) name address word ≡ goes_to self.new pc result n }
        ensures kept { IfErr result (λ cause. self.new ≡ self.old) }
    {
        let size = store_size(name);
        if address % size != 0 {
            return Err(TrapCause::StoreAlign);
        }
        if address as usize + size as usize > self.memory.len() {
            return Err(TrapCause::StoreAddress);
        }
        store(&mut self.memory, name, address as usize, word);
        self.kept.forget(address);
        Ok(pc.next())
    }
}

// The bytes of the words, and so many frames of zero bytes.
fn memory_of(alloc: Global, image: &Image, frames: u32) -> Result<Vec<u8>, NoMemory>
    requires frames { frames ≤ 16384 }
    ensures value { IfOk result (λ memory. memory.items ≡ bytes_of_words image.now.words ++ replicate (frames * image.now.stride) 0) }
{
    let room = frames as usize * image.stride() as usize;
    let size = 4 * image.words().len() + room;
    let mut memory = Vec::with_capacity(alloc, size)?;
    image.append_words(&mut memory)?;
    let len = memory.len();
    memory.resize(len + room, 0)?;
    Ok(memory)
}
