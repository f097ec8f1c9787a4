// Instructions that are kept beside their words.
ghost use Rattle.std.specs.Prelude.{ℕ, ◌≡◌, ◌+◌, ◌*◌, ◌%◌, ◌≤◌, ◌∷◌, [], List, length, replicate, IfOk, IfSome, Some};
ghost use Rattle.rv_inst.specs.declared.inst.Inst.{Inst};
ghost use Rattle.rv_inst.specs.Instructions.{decoded};
ghost use Rattle.rv_inst.specs.Harts.{read_at, written_at};
ghost use Rattle.rv_machine.specs.Keeping.{AreDecoded, told, unknown};

use crate::kept_inst::KeptInst;
use rv_inst::Inst;
use std::alloc::Global;
use tam_edge::NoMemory;

/// The instructions of words from address 0 on, as far as they are known.
#[derive(Drop)]
pub struct KeptInstructions {
    insts: Vec<KeptInst>,
}

impl KeptInstructions {
    /// Room for the instructions of so many words, none of which is known.
    pub fn unknown(alloc: Global, count: usize) -> Result<KeptInstructions, NoMemory>
        ensures value { IfOk result (λ kept. kept.insts.items ≡ replicate count unknown) }
    {
        let mut insts = Vec::with_capacity(alloc, count)?;
        for _ in 0..count {
            insts.push(KeptInst::unknown())?;
        }
        Ok(KeptInstructions { insts })
    }

    /// The entry of the word at an address, if it has a place.
    #[inline(always)]
    pub fn at(&self, address: u32) -> Option<&KeptInst>
        requires aligned { address % 4 ≡ 0 }
        ensures value { (memory : List ℕ) → AreDecoded self.now.insts.items memory
            → IfSome result (λ entry. (address + 4 ≤ length memory) × ((i : Inst) → told entry.now ≡ Some i → decoded (read_at memory address 4) ≡ i ∷ [])) }
    {
        let index = (address / 4) as usize;
        if index >= self.insts.len() {
            return None;
        }
        Some(&self.insts[index])
    }

    /// Keeps the instruction at an address, where there is a place for it.
    pub fn keep(&mut self, address: u32, inst: &Inst)
        ensures kept { (memory : List ℕ) → AreDecoded self.old.insts.items memory → decoded (read_at memory address 4) ≡ inst.now ∷ []
            → AreDecoded self.new.insts.items memory }
    {
        let index = (address / 4) as usize;
        if address % 4 == 0 && index < self.insts.len() {
            self.insts[index] = KeptInst::of(inst);
        }
    }

    /// Forgets the instruction whose word is written to.
    pub fn forget(&mut self, address: u32)
        ensures kept { (memory : List ℕ) (n w : ℕ) → AreDecoded self.old.insts.items memory → address % 4 + n ≤ 4 → address + n ≤ length memory
            → AreDecoded self.new.insts.items (written_at memory address n w) }
    {
        let index = (address / 4) as usize;
        if index < self.insts.len() {
            self.insts[index] = KeptInst::unknown();
        }
    }
}
