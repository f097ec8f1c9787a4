// The connectors of conds and switches.
ghost use Rattle.std.specs.Prelude.{◌≡◌, ◌<◌, ◌≤◌, ◌++◌, length, IfOk, OnOk};
ghost use Rattle.tam_graph.specs.Graphs.{kind_at};
ghost use Rattle.tl0_keep.specs.Compiled.{connectors_at, cond_connector, switch_into, once, yes_of, no_of};
ghost use Rattle.tl0_emit.specs.CodeParts.{its_code, IsCodeOf};
ghost use Rattle.tl0_emit.specs.Branches.{AreBranchesOf};

use crate::CodeTables;
use std::alloc::Global;
use tam_edge::NoMemory;
use tam_graph::Kind;
use tl0_code::{Instr, Thread};

/// What the connectors of a code are made of.
#[derive(Drop)]
pub(crate) struct Branches {
    /// For each block the forks of its entry classes.
    pub entries: Vec<Vec<Instr>>,
    /// How many threads stand for each block.
    pub standing: Vec<u32>,
    /// How many switches each node has.
    pub switches: Vec<u32>,
}

impl CodeTables<'_> {
    // Puts the connectors of a node behind the other threads.
    pub(crate) fn push_connectors(
        &self,
        alloc: Global,
        threads: &mut Vec<Thread>,
        branches: &Branches,
        node: u32,
    ) -> Result<(), NoMemory>
        requires in_range { node < length (its_code self.now).nodes }
        requires branches { AreBranchesOf self.now branches.now }
        ensures ok { OnOk result (threads.new.items ≡ threads.old.items ++ connectors_at (its_code self.now) self.now.parts node
            (kind_at (its_code self.now) node)) }
    {
        match self.kind(node) {
            Kind::Cond { yes, no, .. } => {
                threads.push(self.cond_connector(alloc, branches, node, yes, no)?)?;
                threads.push(self.cond_connector(alloc, branches, node, no, yes)?)?;
            }
            Kind::Switch { cond, place, a } => {
                let (yes, no) = branches_of(self.kind(cond));
                threads.push(self.switch_connector(alloc, a, place, yes)?)?;
                threads.push(self.switch_connector(alloc, a, place, no)?)?;
            }
            _ => {}
        }
        Ok(())
    }

    // The connector of a cond into one of its blocks.
    fn cond_connector(
        &self,
        alloc: Global,
        branches: &Branches,
        cond: u32,
        into: u32,
        other: u32,
    ) -> Result<Thread, NoMemory>
        requires code { IsCodeOf self.now }
        requires in_range { cond < length (its_code self.now).nodes }
        requires into { into < length (its_code self.now).owners }
        requires other { other < length (its_code self.now).owners }
        requires branches { AreBranchesOf self.now branches.now }
        ensures value { IfOk result (λ thread. thread ≡ cond_connector (its_code self.now) self.now.parts cond into other) }
    {
        let n = 1 + branches.switches[cond as usize] + branches.standing[other as usize];
        let mut instrs = Vec::new(alloc);
        instrs.push(Instr::Skip { n })?;
        instrs.extend_from_slice(&branches.entries[into as usize])?;
        Ok(Thread::of(1, instrs))
    }

    // The connector of a switch that gives the value of a node to the `in` of a place of a block.
    fn switch_connector(
        &self,
        alloc: Global,
        a: u32,
        place: u32,
        block: u32,
    ) -> Result<Thread, NoMemory>
        requires in_range { a < length (its_code self.now).nodes }
        ensures value { IfOk result (λ thread. thread ≡ once (switch_into (its_code self.now) self.now.parts a place block)) }
    {
        let mut instrs = Vec::new(alloc);
        self.push_entering(&mut instrs, a, place, block)?;
        Ok(Thread::of(1, instrs))
    }
}

// The then block and the else block of a cond.
fn branches_of(kind: Kind) -> (u32, u32)
    ensures yes { result.0 ≡ yes_of kind }
    ensures no { result.1 ≡ no_of kind }
{
    match kind {
        Kind::Cond { yes, no, .. } => (yes, no),
        _ => (0, 0),
    }
}
