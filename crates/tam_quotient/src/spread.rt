// What the classes of a partition lead to, edge by edge.
ghost use Rattle.std.specs.Prelude.{ℕ, ◌≡◌, ◌<◌, ◌≤◌, length, map, IfOk, []};
ghost use Rattle.tam_word.specs.Lists.{below};
ghost use Rattle.tam_graph.specs.Edges.{reaches};
ghost use Rattle.tam_sets.specs.Sets.{places_where, with_place};
ghost use Rattle.tam_quotient.specs.Tables.{set_at};
ghost use Rattle.tam_quotient.specs.Spreads.{renamed, grown, AreBelow};

use std::alloc::Global;
use tam_edge::NoMemory;
use tam_sets::Set;

/// For each of n numbers those that it reaches by edges whose ends are renamed.
pub(crate) fn spread(
    alloc: Global,
    edges: &[(u32, u32)],
    names: &[u32],
    n: u32,
) -> Result<Vec<Set>, NoMemory>
    requires few { n ≤ 512 }
    requires named { AreBelow n edges.now names.now }
    ensures value { IfOk result (λ sets. sets.items ≡ map (λ k. places_where (reaches (renamed names.now edges.now) k)) (below n)) }
{
    let mut sets = alone(alloc, n)?;
    grow_by_all(&mut sets, edges, names);
    Ok(sets)
}

// Adds to what each number reaches by no edge what it reaches by all.
fn grow_by_all(sets: &mut [Set], edges: &[(u32, u32)], names: &[u32])
    requires few { length sets.old ≤ 512 }
    requires named { AreBelow (length sets.old) edges.now names.now }
    requires alone { (k : ℕ) → k < length sets.old → set_at sets.old k ≡ places_where (reaches [] k) }
    ensures value { (k : ℕ) → k < length sets.old → set_at sets.new k ≡ places_where (reaches (renamed names.now edges.now) k) }
{
    for &(from, to) in edges {
        grow(sets, names[from as usize], names[to as usize]);
    }
}

// For each of n numbers the set of it alone.
fn alone(alloc: Global, n: u32) -> Result<Vec<Set>, NoMemory>
    requires few { n ≤ 512 }
    ensures value { IfOk result (λ sets. sets.items ≡ map (λ k. with_place k []) (below n)) }
{
    let mut sets = Vec::new(alloc);
    for k in 0..n {
        let mut set = Set::empty();
        set.insert(k);
        sets.push(set)?;
    }
    Ok(sets)
}

// What reaches the start of an edge reaches what its end reaches.
fn grow(sets: &mut [Set], from: u32, to: u32)
    requires in_range { to < length sets.old }
    ensures value { (k : ℕ) → k < length sets.old → set_at sets.new k ≡ grown from (set_at sets.old to) (set_at sets.old k) }
{
    let further = sets[to as usize];
    for set in sets.iter_mut() {
        if set.has(from) {
            *set = set.join(&further);
        }
    }
}
