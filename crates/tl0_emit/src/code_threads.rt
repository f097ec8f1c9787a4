// The threads of a code.
ghost use Rattle.std.specs.Prelude.{◌≡◌, ◌<◌, ◌≤◌, ◌++◌, map, flat_map, length, IfOk, OnOk};
ghost use Rattle.tam_graph.specs.Graphs.{blocks_of};
ghost use Rattle.tl0_keep.specs.Compiled.{threads_of, once, block_entry, block_threads};
ghost use Rattle.tl0_emit.specs.CodeParts.{its_code};
ghost use Rattle.tl0_emit.specs.Branches.{lists_of};

use crate::CodeTables;
use crate::connectors::Branches;
use std::alloc::Global;
use tam_edge::NoMemory;
use tl0_code::{Instr, Thread};

impl CodeTables<'_> {
    // The threads of the code: the one that an activation begins with, the classes block by block, and the connectors.
    pub(crate) fn threads(&self, alloc: Global) -> Result<Vec<Thread>, NoMemory>
        ensures value { IfOk result (λ threads. threads.items ≡ threads_of self.now.graph (its_code self.now) self.now.parts) }
    {
        let nodes = self.code().nodes();
        let mut classes = Vec::new(alloc);
        let entries = self.push_blocks(alloc, &mut classes)?;
        let mut threads = Vec::new(alloc);
        threads.push(Thread::of(1, Vec::from_slice(alloc, &entries[0])?))?;
        threads.append(&mut classes)?;
        let branches = Branches {
            entries,
            standing: self.standing(alloc)?,
            switches: self.switches(alloc)?,
        };
        for node in 0..nodes.len() {
            self.push_connectors(alloc, &mut threads, &branches, node as u32)?;
        }
        Ok(threads)
    }

    // Puts the threads of the classes of all blocks behind the others, and gives for each block the forks of its entry classes.
    fn push_blocks(
        &self,
        alloc: Global,
        threads: &mut Vec<Thread>,
    ) -> Result<Vec<Vec<Instr>>, NoMemory>
        ensures ok { OnOk result (threads.new.items ≡ threads.old.items ++ flat_map (block_threads self.now.graph (its_code self.now) self.now.parts)
            (blocks_of (its_code self.now))) }
        ensures entries { IfOk result (λ entries. lists_of entries.items ≡ map (block_entry (its_code self.now) self.now.parts) (blocks_of
            (its_code self.now))) }
    {
        let mut entries = Vec::new(alloc);
        for block in 0..self.blocks() {
            entries.push(self.push_classes(alloc, threads, block)?)?;
        }
        Ok(entries)
    }
}
