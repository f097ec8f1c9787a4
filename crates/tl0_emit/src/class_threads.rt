// The threads of the classes of a block.
ghost use Rattle.std.specs.Prelude.{ℕ, ◌≡◌, ◌<◌, ◌≤◌, ◌+◌, ◌^◌, ◌++◌, true, filter, flat_map, length, IfOk, OnOk};
ghost use Rattle.tam_word.specs.Lists.{below, has};
ghost use Rattle.tam_split.specs.Blocks.{block_graph, vertex_at};
ghost use Rattle.tl0_keep.specs.Compiled.{parts_at, vertex_instrs, entry_count, class_thread, block_threads, block_entry};
ghost use Rattle.tl0_emit.specs.CodeParts.{its_code};
ghost use Rattle.tl0_emit.specs.BlockFlows.{IsFlowOf, forks_from, waiting_for_none};

use crate::CodeTables;
use crate::block_flow::{BlockFlow, flow_of};
use std::alloc::Global;
use tam_edge::NoMemory;
use tam_order::firing_order;
use tam_sets::Set;
use tl0_code::{Instr, Thread};

impl CodeTables<'_> {
    // Puts the threads of the classes of a block behind the others, and gives the forks of its entry classes.
    pub(crate) fn push_classes(
        &self,
        alloc: Global,
        threads: &mut Vec<Thread>,
        block: u32,
    ) -> Result<Vec<Instr>, NoMemory>
        requires in_range { block < length (its_code self.now).owners }
        ensures ok { OnOk result (threads.new.items ≡ threads.old.items ++ block_threads self.now.graph (its_code self.now) self.now.parts block) }
        ensures entry { IfOk result (λ forks. forks.items ≡ block_entry (its_code self.now) self.now.parts block) }
    {
        let parts = self.parts(block);
        let flow = flow_of(alloc, self.block(block), parts, self.class_numbers(block))?;
        for k in 0..parts.classes() {
            threads.push(self.class_thread(alloc, block, &flow, k)?)?;
        }
        forks_of_entry(alloc, self.first_thread(block), &flow.waits)
    }

    // The thread of a class: its vertices in firing order, then the classes directly behind it.
    fn class_thread(
        &self,
        alloc: Global,
        block: u32,
        flow: &BlockFlow,
        k: u32,
    ) -> Result<Thread, NoMemory>
        requires in_range { block < length (its_code self.now).owners }
        requires class { k < length (parts_at self.now.parts block) }
        requires flow { IsFlowOf (block_graph (its_code self.now) block) (parts_at self.now.parts block) flow.now }
        ensures value { IfOk result (λ thread. thread ≡ class_thread self.now.graph (its_code self.now) self.now.parts block
            (block_graph (its_code self.now) block) (parts_at self.now.parts block) k) }
    {
        let parts = self.parts(block);
        let order = firing_order(alloc, &flow.preceding, parts.class(k))?;
        let mut instrs = Vec::new(alloc);
        self.push_vertices(&mut instrs, block, &order)?;
        let first = self.first_thread(block);
        push_forks(
            &mut instrs,
            first,
            &flow.behind[k as usize],
            parts.classes(),
        )?;
        Ok(Thread::of(entry_count(flow.waits[k as usize]), instrs))
    }

    // Puts the instructions of these vertices of a block behind the others.
    fn push_vertices(
        &self,
        instrs: &mut Vec<Instr>,
        block: u32,
        order: &[u32],
    ) -> Result<(), NoMemory>
        requires in_range { block < length (its_code self.now).owners }
        requires inside { (x : ℕ) → has order.now x ≡ true → x < length (block_graph (its_code self.now) block).vertices }
        ensures ok { OnOk result (instrs.new.items ≡ instrs.old.items ++ flat_map (λ x. vertex_instrs self.now.graph (its_code self.now) self.now.parts
            (vertex_at (block_graph (its_code self.now) block) x)) order.now) }
    {
        let vertices = self.block(block).vertices();
        for place in order {
            self.push_vertex(instrs, vertices[*place as usize])?;
        }
        Ok(())
    }
}

// The entry count of a class that waits for so many: one that waits for nothing is forked once.
fn entry_count(waits: u32) -> u32
    ensures value { result ≡ entry_count waits }
{
    if waits == 0 { 1 } else { waits }
}

// Puts the forks of the classes of a set behind the others, where the first class of the block has this thread.
fn push_forks(instrs: &mut Vec<Instr>, first: u32, set: &Set, classes: u32) -> Result<(), NoMemory>
    requires few { first + classes < 2 ^ 32 }
    ensures ok { OnOk result (instrs.new.items ≡ instrs.old.items ++ forks_from first (filter (has set.now) (below classes))) }
{
    for k in 0..classes {
        if set.has(k) {
            instrs.push(Instr::Fork { thread: first + k })?;
        }
    }
    Ok(())
}

// The forks of the classes that wait for nothing, where the first class of the block has this thread.
fn forks_of_entry(alloc: Global, first: u32, waits: &[u32]) -> Result<Vec<Instr>, NoMemory>
    requires few { first + length waits.now < 2 ^ 32 }
    ensures value { IfOk result (λ forks. forks.items ≡ forks_from first (waiting_for_none waits.now)) }
{
    let mut forks = Vec::new(alloc);
    for (k, wait) in waits.iter().enumerate() {
        if *wait == 0 {
            forks.push(Instr::Fork {
                thread: first + k as u32,
            })?;
        }
    }
    Ok(forks)
}
