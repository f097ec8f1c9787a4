// What is kept of the classes while they are merged.
ghost use Rattle.std.specs.Prelude.{ℕ, ◌≡◌, ◌<◌, ◌≤◌, ◌⊎◌, length, IfOk, IsTrue, [], map};
ghost use Rattle.tam_word.specs.Lists.{has, below};
ghost use Rattle.tam_sets.specs.Sets.{joined};
ghost use Rattle.tam_quotient.specs.Tables.{set_at};
ghost use Rattle.tam_split.specs.Partitions.{class_at};
ghost use Rattle.tam_split.specs.KeptParts.{AreClasses};
ghost use Rattle.tam_part.specs.Kept.{first_in, both_ways, ways_after, AreAdded, apart_after};

use std::alloc::Global;
use tam_edge::NoMemory;
use tam_quotient::Ways;
use tam_sets::Set;
use tam_split::Parts;

/// For each of n places the empty set.
pub(crate) fn none_apart(alloc: Global, n: u32) -> Result<Vec<Set>, NoMemory>
    ensures value { IfOk result (λ apart. apart.items ≡ map (λ _. []) (below n)) }
{
    let mut apart = Vec::new(alloc);
    for _place in 0..n {
        apart.push(Set::empty())?;
    }
    Ok(apart)
}

/// The ways of two classes as those of one.
pub(crate) fn both_ways(one: &Ways, other: &Ways) -> Ways
    ensures value { result ≡ both_ways one.now other.now }
{
    Ways {
        ahead: one.ahead.join(&other.ahead),
        behind: one.behind.join(&other.behind),
        entering: one.entering.join(&other.entering),
        allowed: one.allowed.meet(&other.allowed),
    }
}

/// Brings the ways of the first place of each class up to date, where two of the classes become one, of these ways.
pub(crate) fn add_to_each(ways: &mut [Ways], both: &Ways, p: &Parts)
    requires kept { AreClasses p.now }
    requires in_range { (k : ℕ) → k < length p.now → first_in p.now k < length ways.old }
    ensures added { AreAdded p.now both.now ways.old ways.new }
{
    for k in 0..p.classes() {
        let place = place_of(p, k);
        add(&mut ways[place as usize], both, place);
    }
}

/// The first place of a class, which is its least.
pub(crate) fn place_of(p: &Parts, k: u32) -> u32
    requires kept { AreClasses p.now }
    requires in_range { k < length p.now }
    ensures value { result ≡ first_in p.now k }
    ensures member { IsTrue (has (class_at p.now k) result) }
{
    p.class(k)[0]
}

// The same for one place.
fn add(way: &mut Ways, both: &Ways, place: u32)
    ensures value { way.new ≡ ways_after both.now place way.old }
{
    if both.behind.has(place) {
        way.ahead = way.ahead.join(&both.ahead);
        way.allowed = way.allowed.meet(&both.allowed);
    }
    if both.ahead.has(place) {
        way.behind = way.behind.join(&both.behind);
        way.entering = way.entering.join(&both.entering);
    }
}

/// Notes that the classes of two places are apart.
pub(crate) fn note_apart(apart: &mut [Set], one: u32, other: u32)
    requires in_range { (one < length apart.old) × (other < length apart.old) }
    requires few { length apart.old ≤ 512 }
    ensures count { length apart.new ≡ length apart.old }
    ensures noted { (x y : ℕ) → IsTrue (has (set_at apart.new x) y)
        → IsTrue (has (set_at apart.old x) y) ⊎ (((x ≡ one) × (y ≡ other)) ⊎ ((x ≡ other) × (y ≡ one))) }
{
    apart[one as usize].insert(other);
    apart[other as usize].insert(one);
}

/// Notes for the first place what is noted for the second too, where the class of the first takes in that of the second.
pub(crate) fn join_apart(apart: &mut [Set], one: u32, other: u32)
    requires in_range { (one < length apart.old) × (other < length apart.old) }
    requires few { length apart.old ≤ 512 }
    ensures count { length apart.new ≡ length apart.old }
    ensures value { (x : ℕ) → x < length apart.old
        → set_at apart.new x ≡ apart_after one (joined (set_at apart.old one) (set_at apart.old other)) x (set_at apart.old x) }
{
    apart[one as usize] = apart[one as usize].join(&apart[other as usize]);
}
