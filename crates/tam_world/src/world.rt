// The activations and arrays of a graph at run time.
ghost use Rattle.std.specs.Prelude.{◌≡◌, ◌+◌, ◌≤◌, [], ◌∷◌, length, IfOk, OnOk};
ghost use Rattle.tam_word.specs.Lists.{changed_at};
ghost use Rattle.tam_istr.specs.Cells.{cells_used};
ghost use Rattle.tam_msgs.specs.Messages.{outside};
ghost use Rattle.tam_world.specs.Worlds.{begun, with_word, with_block, activation_at, word_at, has_word, has_entered, got, entered};
ghost use Rattle.tam_world.specs.Kept.{activations_of};
ghost use Rattle.tam_world.specs.Effects.{with_begun};

use crate::activation::Activation;
use crate::{Contents, NodeAt, OUTSIDE};
use std::alloc::{AllocError, Global};
use std::marker::Model;
use tam_istr::Cells;

/// The activations and arrays of a graph at run time.
#[derive(Drop)]
pub struct World {
    alloc: Global,
    activations: Vec<Activation>,
    pub(crate) cells: Cells,
    /// For each array who asked for it.
    pub(crate) makers: Vec<NodeAt>,
}

impl Model for World {
    ghost use Rattle.tam_world.specs.Worlds.{World as WorldRecord};
    ghost use Rattle.tam_world.specs.Kept.{activations_of, pairs_of};

    ghost Value = { WorldRecord };

    ghost view = { λ w. record { activations = activations_of w.activations.items; arrays = w.cells; makers = pairs_of w.makers.items } };
}

impl World {
    /// The world in which the root has begun, of this code.
    pub fn opening(alloc: Global, main: u32) -> Result<World, AllocError>
        ensures value { IfOk result (λ world. world ≡ record { activations = begun main outside 0 ∷ []; arrays = []; makers = [] }) }
    {
        let root = Activation::begun(alloc, main, OUTSIDE, 0, 0)?;
        let mut activations = Vec::new(alloc);
        activations.push(root)?;
        Ok(World {
            alloc,
            activations,
            cells: Cells::new(alloc),
            makers: Vec::new(alloc),
        })
    }

    /// How many activations have begun.
    pub fn activations(&self) -> usize
        ensures value { result ≡ length self.now.activations }
    {
        self.activations.len()
    }

    /// How many cells are in use.
    pub fn cells_used(&self) -> u64
        ensures value { result ≡ cells_used self.now.arrays }
    {
        self.cells.used()
    }

    /// The code of an activation.
    pub fn code_at(&self, i: u32) -> u32
        ensures value { result ≡ (activation_at self.now i).code }
    {
        match self.activations.get(i as usize) {
            Some(activation) => activation.code,
            None => 0,
        }
    }

    /// The caller of an activation.
    pub fn caller_at(&self, i: u32) -> u32
        ensures value { result ≡ (activation_at self.now i).caller }
    {
        match self.activations.get(i as usize) {
            Some(activation) => activation.caller,
            None => 0,
        }
    }

    /// The caller's node that began an activation.
    pub fn call_at(&self, i: u32) -> u32
        ensures value { result ≡ (activation_at self.now i).call }
    {
        match self.activations.get(i as usize) {
            Some(activation) => activation.call,
            None => 0,
        }
    }

    /// For each node of an activation the word that it has got; a shorter list says none of the rest.
    pub fn words(&self, i: u32) -> &[Option<u32>]
        ensures value { result.now ≡ (activation_at self.now i).words }
    {
        match self.activations.get(i as usize) {
            Some(activation) => &activation.words,
            None => &[],
        }
    }

    /// For each block of an activation whether it was entered; a shorter list says no of the rest.
    pub fn entered(&self, i: u32) -> &[bool]
        ensures value { result.now ≡ (activation_at self.now i).entered }
    {
        match self.activations.get(i as usize) {
            Some(activation) => &activation.entered,
            None => &[],
        }
    }

    /// What an activation has got.
    pub fn contents(&self, i: u32) -> Contents<'_>
        ensures code { result.code ≡ (activation_at self.now i).code }
        ensures words { result.words.now ≡ (activation_at self.now i).words }
        ensures entered { result.entered.now ≡ (activation_at self.now i).entered }
    {
        match self.activations.get(i as usize) {
            Some(activation) => Contents {
                code: activation.code,
                words: &activation.words,
                entered: &activation.entered,
            },
            None => Contents {
                code: 0,
                words: &[],
                entered: &[],
            },
        }
    }

    /// The word that a node of an activation has got.
    pub fn word_at(&self, i: u32, node: u32) -> Option<u32>
        ensures value { result ≡ word_at self.now i node }
    {
        match self.activations.get(i as usize) {
            Some(activation) => activation.word(node),
            None => None,
        }
    }

    pub fn has_word(&self, i: u32, node: u32) -> bool
        ensures value { result ≡ has_word self.now i node }
    {
        self.word_at(i, node).is_some()
    }

    /// Whether an activation has entered a block.
    pub fn has_entered(&self, i: u32, block: u32) -> bool
        ensures value { result ≡ has_entered self.now i block }
    {
        match self.activations.get(i as usize) {
            Some(activation) => activation.has_entered(block),
            None => false,
        }
    }

    /// A node gets a word.
    #[inline(always)]
    pub fn give(&mut self, at: NodeAt, word: u32) -> Result<(), AllocError>
        ensures ok { OnOk result (self.new ≡ got self.old at.activation at.node word) }
        ensures count { length self.new.activations ≡ length self.old.activations }
        ensures arrays { self.new.arrays ≡ self.old.arrays }
    {
        put_word(&mut self.activations, at, word)
    }

    /// An activation enters a block.
    pub fn enter(&mut self, activation: u32, block: u32) -> Result<(), AllocError>
        ensures ok { OnOk result (self.new ≡ entered self.old activation block) }
        ensures count { length self.new.activations ≡ length self.old.activations }
        ensures arrays { self.new.arrays ≡ self.old.arrays }
    {
        put_block(&mut self.activations, activation, block)
    }

    /// An activation of a code begins.
    pub fn begin(&mut self, code: u32, call: NodeAt) -> Result<(), AllocError>
        ensures ok { OnOk result (self.new ≡ with_begun self.old code call.activation call.node) }
        ensures count { length self.new.activations ≤ length self.old.activations + 1 }
        ensures arrays { self.new.arrays ≡ self.old.arrays }
    {
        self.begin_with_room(code, call, 0)
    }

    /// An activation of a code of so many nodes begins, whose words then take memory once.
    pub fn begin_with_room(
        &mut self,
        code: u32,
        call: NodeAt,
        nodes: usize,
    ) -> Result<(), AllocError>
        ensures ok { OnOk result (self.new ≡ with_begun self.old code call.activation call.node) }
        ensures count { length self.new.activations ≤ length self.old.activations + 1 }
        ensures arrays { self.new.arrays ≡ self.old.arrays }
    {
        let activation = Activation::begun(self.alloc, code, call.activation, call.node, nodes)?;
        self.activations.push(activation)?;
        Ok(())
    }
}

// A node of an activation gets a word.
#[inline(always)]
fn put_word(activations: &mut Vec<Activation>, at: NodeAt, word: u32) -> Result<(), AllocError>
    ensures value { OnOk result (activations_of activations.new.items ≡ changed_at at.activation (with_word at.node word) (activations_of
        activations.old.items)) }
    ensures count { length activations.new.items ≡ length activations.old.items }
{
    if at.activation as usize >= activations.len() {
        return Ok(());
    }
    let activation = &mut activations[at.activation as usize];
    activation.put_word(at.node, word)
}

// An activation enters a block.
fn put_block(activations: &mut Vec<Activation>, i: u32, block: u32) -> Result<(), AllocError>
    ensures value { OnOk result (activations_of activations.new.items ≡ changed_at i (with_block block) (activations_of activations.old.items)) }
    ensures count { length activations.new.items ≡ length activations.old.items }
{
    if i as usize >= activations.len() {
        return Ok(());
    }
    let activation = &mut activations[i as usize];
    activation.enter(block)
}
