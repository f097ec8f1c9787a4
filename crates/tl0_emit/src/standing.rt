// How many threads stand for the blocks of a code, and how many switches its conds have.
ghost use Rattle.std.specs.Prelude.{ℕ, ◌≡◌, ◌<◌, ◌^◌, map, length, sum_by, slice_index, IfOk};
ghost use Rattle.tam_split.specs.Blocks.{vertices_in};
ghost use Rattle.tam_graph.specs.declared.kind.Kind.TheVariants.{Cond};
ghost use Rattle.tam_graph.specs.Graphs.{node_numbers, blocks_of};
ghost use Rattle.tl0_keep.specs.Compiled.{parts_at, standing_for, switches_of};
ghost use Rattle.tl0_emit.specs.CodeParts.{its_code};
ghost use Rattle.tl0_emit.specs.Branches.{standing_at, at_vertex, HaveBranches};

use crate::CodeTables;
use std::alloc::Global;
use tam_edge::NoMemory;
use tam_graph::Kind;

impl CodeTables<'_> {
    // How many threads stand for each block: its classes, and what stands for its nodes. The blocks inside a block come behind it.
    pub(crate) fn standing(&self, alloc: Global) -> Result<Vec<u32>, NoMemory>
        ensures value { IfOk result (λ counts. counts.items ≡ map (standing_at (its_code self.now) self.now.parts) (blocks_of (its_code self.now))) }
    {
        let mut counts = self.class_counts(alloc)?;
        for block in (0..self.blocks()).rev() {
            let inside = self.standing_inside(block, &counts);
            counts[block as usize] += inside;
        }
        Ok(counts)
    }

    // How many classes each block has.
    fn class_counts(&self, alloc: Global) -> Result<Vec<u32>, NoMemory>
        ensures value { IfOk result (λ counts. counts.items ≡ map (λ b. length (parts_at self.now.parts b)) (blocks_of (its_code self.now))) }
    {
        let mut counts = Vec::new(alloc);
        for block in 0..self.blocks() {
            counts.push(self.parts(block).classes())?;
        }
        Ok(counts)
    }

    // How many threads stand for the nodes of a block, given how many stand for each block.
    fn standing_inside(&self, block: u32, counts: &[u32]) -> u32
        requires in_range { block < length (its_code self.now).owners }
        requires branches { HaveBranches (its_code self.now) counts.now }
        requires few { sum_by (at_vertex (its_code self.now) (slice_index counts.now)) (vertices_in (its_code self.now) block) < 2 ^ 32 }
        ensures value { result ≡ sum_by (at_vertex (its_code self.now) (slice_index counts.now)) (vertices_in (its_code self.now) block) }
    {
        let vertices = self.block(block).vertices();
        let mut count = 0;
        for vertex in vertices {
            count += standing_for(self.kind(vertex.node), counts);
        }
        count
    }

    // How many switches each node has: none, unless it is a cond.
    pub(crate) fn switches(&self, alloc: Global) -> Result<Vec<u32>, NoMemory>
        ensures value { IfOk result (λ counts. counts.items ≡ map (switches_of (its_code self.now)) (node_numbers (its_code self.now))) }
    {
        let nodes = self.code().nodes();
        let mut counts = zeros(alloc, nodes.len())?;
        for node in nodes {
            if let Kind::Switch { cond, .. } = node.kind {
                counts[cond as usize] += 1;
            }
        }
        Ok(counts)
    }
}

// So many times 0.
fn zeros(alloc: Global, count: usize) -> Result<Vec<u32>, NoMemory>
    ensures len { IfOk result (λ counts. length counts.items ≡ count) }
    ensures value { IfOk result (λ counts. (d : ℕ) → slice_index counts.items d ≡ 0) }
{
    let mut counts = Vec::new(alloc);
    for _ in 0..count {
        counts.push(0)?;
    }
    Ok(counts)
}

// How many threads stand for such a node.
fn standing_for(kind: Kind, counts: &[u32]) -> u32
    requires branches { (p y n : ℕ) → kind ≡ Cond p y n → (y < length counts.now) × (n < length counts.now) }
    requires few { standing_for (slice_index counts.now) kind < 2 ^ 32 }
    ensures value { result ≡ standing_for (slice_index counts.now) kind }
{
    match kind {
        Kind::Cond { yes, no, .. } => 2 + counts[yes as usize] + counts[no as usize],
        Kind::Switch { .. } => 2,
        _ => 0,
    }
}
