// One activation of a code.
ghost use Rattle.std.specs.Prelude.{◌≡◌, ◌+◌, ◌-◌, ◌≤◌, ◌++◌, None, Some, true, false, length, replicate, slice_index_or, OnOk, IfOk};
ghost use Rattle.tam_word.specs.Lists.{put_at};
ghost use Rattle.tam_world.specs.Worlds.{begun, with_word, with_block};
ghost use Rattle.tam_world.specs.Kept.{activation_of};

use std::alloc::{AllocError, Global};

/// One activation of a code.
#[derive(Drop)]
pub struct Activation {
    pub(crate) code: u32,
    /// The activation that began it, or the outside's number.
    pub(crate) caller: u32,
    /// The caller's node that began it.
    pub(crate) call: u32,
    /// For each block whether it was entered; a shorter list says no of the rest.
    pub(crate) entered: Vec<bool>,
    /// For each node the word that it has got; a shorter list says none of the rest.
    pub(crate) words: Vec<Option<u32>>,
}

// For the words of how many nodes an activation has room at the most when it begins.
const MOST_AT_FIRST: usize = 64;

impl Activation {
    /// An activation that begins: its body is entered. It has room for the words of its code's nodes, where they are few.
    pub(crate) fn begun(
        alloc: Global,
        code: u32,
        caller: u32,
        call: u32,
        nodes: usize,
    ) -> Result<Activation, AllocError>
        ensures value { IfOk result (λ activation. activation_of activation ≡ begun code caller call) }
    {
        let mut entered = Vec::new(alloc);
        entered.push(true)?;
        let words = Vec::with_capacity(alloc, nodes.min(MOST_AT_FIRST))?;
        Ok(Activation {
            code,
            caller,
            call,
            entered,
            words,
        })
    }

    /// The word that a node has got.
    pub(crate) fn word(&self, node: u32) -> Option<u32>
        ensures value { result ≡ slice_index_or (activation_of self.now).words node None }
    {
        if (node as usize) < self.words.len() {
            self.words[node as usize]
        } else {
            None
        }
    }

    pub(crate) fn has_entered(&self, block: u32) -> bool
        ensures value { result ≡ slice_index_or (activation_of self.now).entered block false }
    {
        (block as usize) < self.entered.len() && self.entered[block as usize]
    }

    /// A node gets a word.
    #[inline(always)]
    pub(crate) fn put_word(&mut self, node: u32, word: u32) -> Result<(), AllocError>
        ensures ok { OnOk result (activation_of self.new ≡ with_word node word (activation_of self.old)) }
    {
        put_at(&mut self.words, None, node, Some(word))
    }

    /// A block is entered.
    pub(crate) fn enter(&mut self, block: u32) -> Result<(), AllocError>
        ensures ok { OnOk result (activation_of self.new ≡ with_block block (activation_of self.old)) }
    {
        put_at(&mut self.entered, false, block, true)
    }
}

// Puts an element at a place; where the list is shorter, the places before it get a blank.
#[inline(always)]
fn put_at<T: Copy>(list: &mut Vec<T>, blank: T, place: u32, element: T) -> Result<(), AllocError>
    ensures ok { OnOk result (list.new.items ≡ put_at blank place element list.old.items) }
{
    if (place as usize) < list.len() {
        list[place as usize] = element;
        return Ok(());
    }
    lengthen(list, blank, place)?;
    list.push(element)?;
    Ok(())
}

// Adds blanks until the place is the next one, with room for an element there.
fn lengthen<T: Copy>(list: &mut Vec<T>, blank: T, place: u32) -> Result<(), AllocError>
    requires short { length list.old.items ≤ place }
    ensures ok { OnOk result (list.new.items ≡ list.old.items ++ replicate (place - length list.old.items) blank) }
{
    let wanted = place as usize;
    list.reserve(wanted + 1 - list.len())?;
    while list.len() < wanted {
        list.push(blank)?;
    }
    Ok(())
}
