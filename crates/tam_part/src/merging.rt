// One merge after the other.
ghost use Rattle.std.specs.Prelude.{ℕ, ◌≡◌, ◌<◌, ◌≤◌, ◌+◌, false, [], ◌∷◌, length, IfOk, IfSome, IsNone, IsTrue};
ghost use Rattle.tam_split.specs.PartitionLaws.{IsBlockGraph, IsPartition};
ghost use Rattle.tam_split.specs.Partitions.{is_valid, class_of, merged, may_merge, least_pair, partition_of};
ghost use Rattle.tam_split.specs.KeptParts.{AreClasses};
ghost use Rattle.tam_part.specs.Kept.{AreWays, AreSeparated, AreDone, IsLeast};

use crate::kept::{add_to_each, both_ways, join_apart, none_apart, note_apart, place_of};
use std::alloc::Global;
use tam_edge::NoMemory;
use tam_quotient::{Ways, ways_alone};
use tam_sets::Set;
use tam_split::{BlockGraph, Parts};

/// The partition of a block. It is valid, and no two of its classes may still be merged.
///
/// By its least place the ways to each class and from it are kept, and places whose classes are apart from it. While each class is
/// one place, these are the ways of the places.
pub fn partition(alloc: Global, b: &BlockGraph) -> Result<Parts, NoMemory>
    ensures value { IfOk result (λ ps. ps ≡ partition_of b.now) }
    ensures valid { IfOk result (λ ps. IsPartition b.now ps × IsTrue (is_valid b.now ps)) }
    ensures stuck { IfOk result (λ ps. (k l : ℕ) → k < l → l < length ps → may_merge b.now ps (k, l) ≡ false) }
{
    let count = b.vertices().len() as u32;
    let mut parts = Parts::single(alloc, count)?;
    let mut ways = ways_alone(alloc, b)?;
    let mut apart = none_apart(alloc, count)?;
    let mut k = 0;
    while k < parts.classes() {
        if let Some((first, second)) = partner(b, &parts, &ways, &mut apart, k) {
            merge(b, &mut parts, &mut ways, &mut apart, first, second);
            k = first;
        } else {
            k += 1;
        }
    }
    Ok(parts)
}

// The least pair of classes that may be merged, of those with class k, where no other pair with a class before k may be.
//
// A merge of two classes makes no pair of other classes one that may be merged, so the search goes on with the merged class.
fn partner(
    b: &BlockGraph,
    p: &Parts,
    ways: &[Ways],
    apart: &mut [Set],
    k: u32,
) -> Option<(u32, u32)>
    requires block { IsBlockGraph b.now }
    requires few { length b.now.vertices ≤ 512 }
    requires whole { IsPartition b.now p.now }
    requires valid { IsTrue (is_valid b.now p.now) }
    requires kept { AreClasses p.now }
    requires ways { AreWays b.now p.now ways.now }
    requires separated { AreSeparated b.now p.now apart.old }
    requires in_range { k < length p.now }
    requires done { AreDone b.now p.now k }
    ensures least { IfSome result (λ pair. pair ∷ [] ≡ least_pair b.now p.now) }
    ensures before { IfSome result (λ pair. (a c : ℕ) → a < pair.0 → a < c → c < length p.now → may_merge b.now p.now (a, c) ≡ false) }
    ensures done { IsNone result → AreDone b.now p.now (k + 1) }
    ensures separated { AreSeparated b.now p.now apart.new }
{
    let place = place_of(p, k);
    for j in 0..k {
        if joins(b, p, ways, apart, place_of(p, j), place) {
            return Some((j, k));
        }
    }
    for l in k + 1..p.classes() {
        if joins(b, p, ways, apart, place, place_of(p, l)) {
            return Some((k, l));
        }
    }
    None
}

// Whether two classes may be merged, given by their least places, of which the first is before the second. Classes that are noted as apart,
// for either of the two, are not tested again.
fn joins(b: &BlockGraph, p: &Parts, ways: &[Ways], apart: &mut [Set], one: u32, other: u32) -> bool
    requires block { IsBlockGraph b.now }
    requires few { length b.now.vertices ≤ 512 }
    requires whole { IsPartition b.now p.now }
    requires valid { IsTrue (is_valid b.now p.now) }
    requires ways { AreWays b.now p.now ways.now }
    requires separated { AreSeparated b.now p.now apart.old }
    requires in_order { class_of p.now one < class_of p.now other }
    requires in_range { (one < length b.now.vertices) × (other < length b.now.vertices) }
    requires least { IsLeast p.now one × IsLeast p.now other }
    ensures value { result ≡ may_merge b.now p.now (class_of p.now one, class_of p.now other) }
    ensures separated { AreSeparated b.now p.now apart.new }
{
    if apart[one as usize].has(other) {
        return false;
    }
    if apart[other as usize].has(one) {
        return false;
    }
    let (here, there) = (&ways[one as usize], &ways[other as usize]);
    if here.is_apart(there) {
        note_apart(apart, one, other);
        return false;
    }
    here.has_none_between(there)
}

// Merges two classes, and brings what is kept up to date.
fn merge(b: &BlockGraph, p: &mut Parts, ways: &mut [Ways], apart: &mut [Set], k: u32, l: u32)
    requires few { length b.now.vertices ≤ 512 }
    requires whole { IsPartition b.now p.old }
    requires kept { AreClasses p.old }
    requires ways { AreWays b.now p.old ways.old }
    requires separated { AreSeparated b.now p.old apart.old }
    requires in_order { k < l }
    requires in_range { l < length p.old }
    ensures value { p.new ≡ merged p.old k l }
    ensures ways { AreWays b.now p.new ways.new }
    ensures separated { AreSeparated b.now p.new apart.new }
{
    let one = place_of(p, k);
    let other = place_of(p, l);
    let both = both_ways(&ways[one as usize], &ways[other as usize]);
    add_to_each(ways, &both, p);
    join_apart(apart, one, other);
    p.merge(k, l);
}
