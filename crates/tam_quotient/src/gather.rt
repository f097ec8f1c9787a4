// The ways among the classes of a partition.
ghost use Rattle.std.specs.Prelude.{◌≡◌, ◌<◌, ◌≤◌, All, length, map, IfOk};
ghost use Rattle.tam_word.specs.Lists.{below, has};
ghost use Rattle.tam_split.specs.Blocks.{places, inlets_of, outlets_of, dependences};
ghost use Rattle.tam_split.specs.Partitions.{single};
ghost use Rattle.tam_split.specs.PartitionLaws.{IsPartition};
ghost use Rattle.tam_sets.specs.Sets.{places_where};
ghost use Rattle.tam_quotient.specs.Tables.{column, entered, permitted};
ghost use Rattle.tam_quotient.specs.Joins.{ways_of, ways_to};

use crate::Ways;
use crate::block::{classes_of, is_inlet, is_outlet};
use crate::spread::spread;
use std::alloc::Global;
use tam_edge::NoMemory;
use tam_sets::Set;
use tam_split::{BlockGraph, Parts};

/// The ways to each class of a partition and from it, given for each place of the block the inlets on which it depends.
pub fn quotient(
    alloc: Global,
    b: &BlockGraph,
    depends: &[Set],
    p: &Parts,
) -> Result<Vec<Ways>, NoMemory>
    requires whole { IsPartition b.now p.now }
    requires depends { depends.now ≡ map (dependences b.now) (places b.now) }
    ensures value { IfOk result (λ ways. ways.items ≡ map (ways_of b.now p.now) (below (length p.now))) }
    ensures few { IfOk result (λ ways. length ways.items ≤ 512) }
{
    let classes = classes_of(alloc, b, p)?;
    let leads = spread(alloc, b.edges(), &classes, p.classes())?;
    let columns = columns(alloc, &leads)?;
    let inlets = inlets(alloc, b)?;
    let outlets = outlets(alloc, b)?;
    let ways = each_way(
        alloc, &inlets, &outlets, &classes, &leads, &columns, depends,
    )?;
    Ok(ways)
}

/// The ways to each place of a block and from it, where each class is one place.
///
/// The inlets on which a vertex depends are those of the places that lead to it, so they need not be given.
pub fn ways_alone(alloc: Global, b: &BlockGraph) -> Result<Vec<Ways>, NoMemory>
    ensures value { IfOk result (λ ways. ways.items ≡ map (ways_of b.now (single (length b.now.vertices))) (below (length b.now.vertices))) }
{
    let count = b.vertices().len() as u32;
    let names = numbers(alloc, count)?;
    let leads = spread(alloc, b.edges(), &names, count)?;
    let columns = columns(alloc, &leads)?;
    let inlets = inlets(alloc, b)?;
    let outlets = outlets(alloc, b)?;
    let ways = each_way(alloc, &inlets, &outlets, &names, &leads, &columns, &columns)?;
    Ok(ways)
}

// The numbers below n.
fn numbers(alloc: Global, n: u32) -> Result<Vec<u32>, NoMemory>
    ensures value { IfOk result (λ numbers. numbers.items ≡ below n) }
{
    let mut numbers = Vec::new(alloc);
    for k in 0..n {
        numbers.push(k)?;
    }
    Ok(numbers)
}

// For each class the classes that lead to it.
fn columns(alloc: Global, leads: &[Set]) -> Result<Vec<Set>, NoMemory>
    requires few { length leads.now ≤ 512 }
    ensures value { IfOk result (λ columns. columns.items ≡ map (column leads.now) (below (length leads.now))) }
{
    let mut columns = Vec::new(alloc);
    for k in 0..leads.len() as u32 {
        columns.push(behind(leads, k))?;
    }
    Ok(columns)
}

// The places of the inlets of a block.
fn inlets(alloc: Global, b: &BlockGraph) -> Result<Vec<u32>, NoMemory>
    ensures value { IfOk result (λ inlets. inlets.items ≡ inlets_of b.now) }
{
    let mut inlets = Vec::new(alloc);
    for place in 0..b.vertices().len() as u32 {
        if is_inlet(b, place) {
            inlets.push(place)?;
        }
    }
    Ok(inlets)
}

// The places of the outlets of a block.
fn outlets(alloc: Global, b: &BlockGraph) -> Result<Vec<u32>, NoMemory>
    ensures value { IfOk result (λ outlets. outlets.items ≡ outlets_of b.now) }
{
    let mut outlets = Vec::new(alloc);
    for place in 0..b.vertices().len() as u32 {
        if is_outlet(b, place) {
            outlets.push(place)?;
        }
    }
    Ok(outlets)
}

// The ways to each class and from it, by the class of each place, by what each class leads to and by what leads to it.
fn each_way(
    alloc: Global,
    inlets: &[u32],
    outlets: &[u32],
    classes: &[u32],
    leads: &[Set],
    columns: &[Set],
    depends: &[Set],
) -> Result<Vec<Ways>, NoMemory>
    requires few { (length leads.now ≤ 512) × (length classes.now ≤ 512) }
    requires inlets { All (λ place. place < length classes.now) inlets.now }
    requires outlets { All (λ place. place < length classes.now) outlets.now }
    requires columns { columns.now ≡ map (column leads.now) (below (length leads.now)) }
    requires depends { length depends.now ≡ length classes.now }
    ensures value { IfOk result (λ ways. ways.items ≡ map (ways_to inlets.now outlets.now classes.now leads.now depends.now) (below (length leads.now))) }
{
    let mut ways = Vec::new(alloc);
    for k in 0..leads.len() as u32 {
        ways.push(ways_to(inlets, outlets, classes, leads, columns, depends, k))?;
    }
    Ok(ways)
}

// The ways to class k and from it.
fn ways_to(
    inlets: &[u32],
    outlets: &[u32],
    classes: &[u32],
    leads: &[Set],
    columns: &[Set],
    depends: &[Set],
    k: u32,
) -> Ways
    requires few { (length leads.now ≤ 512) × (length classes.now ≤ 512) }
    requires there { k < length leads.now }
    requires inlets { All (λ place. place < length classes.now) inlets.now }
    requires outlets { All (λ place. place < length classes.now) outlets.now }
    requires columns { columns.now ≡ map (column leads.now) (below (length leads.now)) }
    requires depends { length depends.now ≡ length classes.now }
    ensures value { result ≡ ways_to inlets.now outlets.now classes.now leads.now depends.now k }
{
    let ahead = leads[k as usize];
    let behind = columns[k as usize];
    Ways {
        ahead,
        behind,
        entering: entering(inlets, classes, &behind),
        allowed: allowed(inlets, outlets, classes, &ahead, depends),
    }
}

// The classes that lead to class k.
fn behind(leads: &[Set], k: u32) -> Set
    requires few { length leads.now ≤ 512 }
    ensures value { result ≡ column leads.now k }
{
    let mut set = Set::empty();
    for c in 0..leads.len() as u32 {
        if leads[c as usize].has(k) {
            set.insert(c);
        }
    }
    set
}

// The inlets whose classes are among those that lead to a class.
fn entering(inlets: &[u32], classes: &[u32], behind: &Set) -> Set
    requires few { length classes.now ≤ 512 }
    requires inlets { All (λ place. place < length classes.now) inlets.now }
    ensures value { result ≡ entered inlets.now classes.now behind.now }
{
    let mut set = Set::empty();
    for &place in inlets {
        if behind.has(classes[place as usize]) {
            set.insert(place);
        }
    }
    set
}

// The inlets on which each outlet depends whose class is among those that a class leads to.
fn allowed(inlets: &[u32], outlets: &[u32], classes: &[u32], ahead: &Set, depends: &[Set]) -> Set
    requires few { length classes.now ≤ 512 }
    requires inlets { All (λ place. place < length classes.now) inlets.now }
    requires outlets { All (λ place. place < length classes.now) outlets.now }
    requires depends { length depends.now ≡ length classes.now }
    ensures value { result ≡ permitted inlets.now outlets.now classes.now ahead.now depends.now }
{
    let mut set = set_of(inlets);
    for &place in outlets {
        if ahead.has(classes[place as usize]) {
            set = set.meet(&depends[place as usize]);
        }
    }
    set
}

// The set of these places.
fn set_of(places: &[u32]) -> Set
    requires small { All (λ place. place < 512) places.now }
    ensures value { result ≡ places_where (has places.now) }
{
    let mut set = Set::empty();
    for &place in places {
        set.insert(place);
    }
    set
}
