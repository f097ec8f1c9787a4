// The classes of a block.
ghost use Rattle.std.specs.Prelude.{◌≡◌, ◌≤◌, ◌<◌, ◌+◌, ◌^◌, ◌∷◌, length, map, slice_index, slice_range, IfOk};
ghost use Rattle.std.specs.List.{All};
ghost use Rattle.tam_split.specs.Partitions.{single, class_at, merged};
ghost use Rattle.tam_split.specs.KeptParts.{AreClasses, AreFlat, AreApart, cut_from, with_joined};

use std::alloc::Global;
use std::marker::Model;
use tam_edge::NoMemory;

/// The classes of a block of at most 512 places, ordered by their least places.
#[derive(Debug, Drop)]
pub struct Parts {
    /// The places of all classes, one class behind the other.
    places: Vec<u32>,
    /// Where in `places` each class ends.
    ends: Vec<u32>,
}

impl Model for Parts {
    ghost use Rattle.std.specs.Prelude.{List, ℕ};
    ghost use Rattle.tam_split.specs.KeptParts.{cut_from, AreFlat};

    ghost Value = { List (List ℕ) };

    ghost view = { λ p. cut_from 0 p.places.items p.ends.items };

    ghost invariant = { λ p. AreFlat (cut_from 0 p.places.items p.ends.items) p.places.items p.ends.items };
}

impl Parts {
    /// One class for each place.
    pub fn single(alloc: Global, n: u32) -> Result<Parts, NoMemory>
        requires few { n ≤ 512 }
        ensures value { IfOk result (λ parts. parts ≡ single n) }
    {
        let mut places = Vec::new(alloc);
        let mut ends = Vec::new(alloc);
        for place in 0..n {
            places.push(place)?;
            ends.push(place + 1)?;
        }
        Ok(Parts { places, ends })
    }

    /// How many classes there are.
    pub fn classes(&self) -> u32
        ensures value { result ≡ length self.now }
        ensures kept { AreClasses self.now }
    {
        self.ends.len() as u32
    }

    /// The places of a class, rising.
    pub fn class(&self, k: u32) -> &[u32]
        requires in_range { k < length self.now }
        ensures value { result.now ≡ class_at self.now k }
    {
        let (start, end) = bounds(&self.ends, k as usize);
        run(&self.places, start, end)
    }

    /// Puts the places of class b into class a. Takes no memory.
    pub fn merge(&mut self, a: u32, b: u32)
        requires in_order { a < b }
        requires in_range { b < length self.old }
        ensures value { self.new ≡ merged self.old a b }
    {
        unite(&mut self.places, &mut self.ends, a as usize, b as usize);
    }
}

// Puts the places of class b into class a, where the classes are stored.
fn unite(places: &mut [u32], ends: &mut Vec<u32>, a: usize, b: usize)
    requires flat { AreFlat (cut_from 0 places.old ends.old.items) places.old ends.old.items }
    requires in_order { a < b }
    requires in_range { b < length ends.old.items }
    ensures flat { AreFlat (merged (cut_from 0 places.old ends.old.items) a b) places.new ends.new.items }
{
    let (from, middle) = bounds(ends, a);
    let (start, end) = bounds(ends, b);
    join_runs(places, from, middle, start, end);
    move_on(&mut ends[a..b], (end - start) as u32);
    let _ = ends.remove(b);
}

// From where to where class k goes.
fn bounds(ends: &[u32], k: usize) -> (usize, usize)
    requires in_range { k < length ends.now }
    ensures start { result.0 ≡ slice_index (0 ∷ ends.now) k }
    ensures end { result.1 ≡ slice_index ends.now k }
{
    let start = if k == 0 { 0 } else { ends[k - 1] as usize };
    (start, ends[k] as usize)
}

// What stands from `start` to `end`.
fn run(places: &[u32], start: usize, end: usize) -> &[u32]
    requires in_range { (start ≤ end) × (end ≤ length places.now) }
    ensures value { result.now ≡ slice_range places.now start end }
{
    &places[start..end]
}

// Moves the run from `start` to `end` in front of what stands between the runs, and merges it into the run there.
fn join_runs(places: &mut [u32], from: usize, middle: usize, start: usize, end: usize)
    requires in_range { (from ≤ middle) × (middle ≤ start) × (start ≤ end) × (end ≤ length places.old) }
    requires rising { AreApart (slice_range places.old from middle) (slice_range places.old start end) }
    ensures value { places.new ≡ with_joined places.old from middle start end }
{
    let length = end - start;
    places[middle..end].rotate_left(start - middle);
    places[from..middle + length].sort_unstable();
}

// Makes each class end so much later.
fn move_on(ends: &mut [u32], by: u32)
    requires fits { All (λ end. end + by < 2 ^ 32) ends.old }
    ensures value { ends.new ≡ map (λ end. end + by) ends.old }
{
    for end in ends.iter_mut() {
        *end += by;
    }
}
