// How the classes of a partition follow one another.
ghost use Rattle.std.specs.Prelude.{ℕ, ◌≡◌, ◌<◌, ◌≤◌, true, false, filter, map, length, count_by, slice_index, [], IfOk};
ghost use Rattle.tam_word.specs.Lists.{below, has};
ghost use Rattle.tam_split.specs.Blocks.{places};
ghost use Rattle.tam_split.specs.Partitions.{class_of};
ghost use Rattle.tam_split.specs.PartitionLaws.{IsPartition};
ghost use Rattle.tam_order.specs.ClassOrders.{behind_of};

use std::alloc::Global;
use tam_edge::NoMemory;
use tam_sets::Set;
use tam_split::{BlockGraph, Parts};

/// The number of the class of each place.
pub fn class_numbers(alloc: Global, b: &BlockGraph, p: &Parts) -> Result<Vec<u32>, NoMemory>
    requires whole { IsPartition b.now p.now }
    ensures value { IfOk result (λ numbers. numbers.items ≡ map (class_of p.now) (places b.now)) }
{
    let mut numbers = Vec::new(alloc);
    for _ in 0..b.vertices().len() {
        numbers.push(0)?;
    }
    for k in 0..p.classes() {
        set_each(&mut numbers, p.class(k), k);
    }
    Ok(numbers)
}

// Sets the numbers at these places.
fn set_each(numbers: &mut [u32], places: &[u32], number: u32)
    requires in_range { (x : ℕ) → has places.now x ≡ true → x < length numbers.old }
    ensures len { length numbers.new ≡ length numbers.old }
    ensures set { (x : ℕ) → has places.now x ≡ true → slice_index numbers.new x ≡ number }
    ensures kept { (x : ℕ) → has places.now x ≡ false → slice_index numbers.new x ≡ slice_index numbers.old x }
{
    for place in places {
        numbers[*place as usize] = number;
    }
}

/// For each class the classes directly behind it, given the number of the class of each place.
pub fn classes_behind(
    alloc: Global,
    b: &BlockGraph,
    p: &Parts,
    numbers: &[u32],
) -> Result<Vec<Set>, NoMemory>
    requires whole { IsPartition b.now p.now }
    requires numbers { numbers.now ≡ map (class_of p.now) (places b.now) }
    ensures value { IfOk result (λ sets. sets.items ≡ map (behind_of b.now.edges p.now) (below (length p.now))) }
{
    let edges = b.edges();
    let mut sets = empty_sets(alloc, p.classes())?;
    for place in (0..edges.len()).rev() {
        let (giver, taker) = edges[place];
        let from = numbers[giver as usize];
        let to = numbers[taker as usize];
        if from != to {
            sets[from as usize].insert(to);
        }
    }
    Ok(sets)
}

// So many empty sets.
pub(crate) fn empty_sets(alloc: Global, count: u32) -> Result<Vec<Set>, NoMemory>
    ensures value { IfOk result (λ sets. sets.items ≡ map (λ _. []) (below count)) }
{
    let mut sets = Vec::new(alloc);
    for _ in 0..count {
        sets.push(Set::empty())?;
    }
    Ok(sets)
}

/// How many of the sets have a class: so many classes are directly before it.
pub fn number_before(sets: &[Set], k: u32) -> u32
    requires few { length sets.now ≤ 512 }
    ensures value { result ≡ count_by (λ set. has set k) sets.now }
{
    let mut count = 0;
    for set in sets {
        if set.has(k) {
            count += 1;
        }
    }
    count
}

/// The members of a set that are below a number, rising.
pub fn listed(alloc: Global, set: &Set, count: u32) -> Result<Vec<u32>, NoMemory>
    ensures value { IfOk result (λ members. members.items ≡ filter (has set.now) (below count)) }
{
    let mut members = Vec::new(alloc);
    for place in 0..count {
        if set.has(place) {
            members.push(place)?;
        }
    }
    Ok(members)
}
