// How one activation stands.
ghost use Rattle.std.specs.Prelude.{ℕ, ◌≡◌, None, false, is_some, slice_index_or};
ghost use Rattle.tam_graph.specs.Graphs.{Graph as GraphRecord};
ghost use Rattle.tam_world.specs.Worlds.{World as WorldRecord};
ghost use Rattle.tam_world.specs.Needs.{is_met};
ghost use Rattle.tam_eval.specs.GraphRuns.{is_enabled};
ghost use Rattle.tam_eval.specs.Standing.{IsStanding};
ghost use Rattle.tam_eval.specs.Waiting.{is_awaited};

use tam_world::nodes::{is_inlet, nodes_of};
use tam_world::{Need, Program, World};

/// An activation's code, what its nodes wait for, the words that they have got, and for each block whether it was entered. A shorter list of words
/// or of blocks says no of the rest.
#[derive(Clone, Copy)]
pub(crate) struct Standing<'a> {
    pub(crate) code: u32,
    needs: &'a [Need],
    words: &'a [Option<u32>],
    entered: &'a [bool],
}

impl<'a> Standing<'a> {
    /// How an activation stands in a world.
    pub(crate) fn of(program: &'a Program<'_>, world: &'a World, i: u32) -> Standing<'a>
        ensures value { IsStanding program.now world.now i result }
    {
        let contents = world.contents(i);
        Standing {
            code: contents.code,
            needs: program.needs(contents.code),
            words: contents.words,
            entered: contents.entered,
        }
    }

    /// Whether a vertex may fire.
    pub(crate) fn is_enabled(&self, node: u32) -> bool
        ensures value { (g : GraphRecord) (w : WorldRecord) (i : ℕ) → IsStanding g w i self.now → result ≡ is_enabled g w i node }
    {
        match self.needs.get(node as usize) {
            Some(need) => self.meets(need),
            None => false,
        }
    }

    /// Whether a node's value comes from outside its block, and the block was entered.
    pub(crate) fn is_awaited(&self, program: &Program<'_>, node: u32) -> bool
        ensures value { (w : WorldRecord) (i : ℕ) → IsStanding program.now w i self.now → result ≡ is_awaited program.now w i node }
    {
        match nodes_of(program.graph(), self.code).get(node as usize) {
            Some(found) => is_inlet(found.kind) && self.has_entered(found.block),
            None => false,
        }
    }

    // Whether the blocks and words are there for which a node waits.
    fn meets(&self, need: &Need) -> bool
        ensures value { result ≡ is_met (λ b. slice_index_or self.now.entered.now b false) (λ x. is_some (slice_index_or self.now.words.now x None)) need.now }
    {
        match *need {
            Need::Never => false,
            Need::Block { block } => self.has_entered(block),
            Need::Words {
                block,
                first,
                second,
                third,
            } => {
                self.has_word(first)
                    && self.has_word(second)
                    && self.has_word(third)
                    && self.has_entered(block)
            }
        }
    }

    fn has_entered(&self, block: u32) -> bool
        ensures value { result ≡ slice_index_or self.now.entered.now block false }
    {
        match self.entered.get(block as usize) {
            Some(entered) => *entered,
            None => false,
        }
    }

    fn has_word(&self, node: u32) -> bool
        ensures value { result ≡ is_some (slice_index_or self.now.words.now node None) }
    {
        match self.words.get(node as usize) {
            Some(word) => word.is_some(),
            None => false,
        }
    }
}
