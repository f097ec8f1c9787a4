// In which order the vertices of a class fire.
ghost use Rattle.std.specs.Prelude.{ℕ, ◌≡◌, ◌<◌, ◌≤◌, ◌++◌, true, not, length, filter, map, option_to_list, IfOk, OnOk};
ghost use Rattle.tam_word.specs.Lists.{below, first_of, has};
ghost use Rattle.tam_graph.specs.Edges.{Edges};
ghost use Rattle.tam_sets.specs.Sets.{places_where};
ghost use Rattle.tam_split.specs.Blocks.{places};
ghost use Rattle.tam_split.specs.GraphPartitions.{firing_order};
ghost use Rattle.tam_order.specs.ClassOrders.{preceding_of, is_free};

use crate::classes::empty_sets;
use std::alloc::Global;
use tam_edge::NoMemory;
use tam_sets::Set;
use tam_split::BlockGraph;

/// For each place of a block the places with an edge to it.
pub fn preceding(alloc: Global, b: &BlockGraph) -> Result<Vec<Set>, NoMemory>
    ensures value { IfOk result (λ sets. sets.items ≡ map (preceding_of b.now.edges) (places b.now)) }
{
    let edges = b.edges();
    let mut sets = empty_sets(alloc, b.vertices().len() as u32)?;
    for place in (0..edges.len()).rev() {
        let (giver, taker) = edges[place];
        sets[taker as usize].insert(giver);
    }
    Ok(sets)
}

/// The places of a class in the order in which they fire, given for each place of the block the places with an edge to it: again and again the
/// least place whose predecessors in the class were taken.
pub fn firing_order(alloc: Global, preceding: &[Set], class: &[u32]) -> Result<Vec<u32>, NoMemory>
    requires few { length preceding.now ≤ 512 }
    requires inside { (x : ℕ) → has class.now x ≡ true → x < length preceding.now }
    ensures value { (es : Edges) → preceding.now ≡ map (preceding_of es) (below (length preceding.now))
        → IfOk result (λ order. order.items ≡ firing_order es class.now) }
{
    let members = set_of(class);
    let mut taken = Set::empty();
    let mut order = Vec::new(alloc);
    for _ in 0..class.len() {
        if let Some(place) = first_free(preceding, class, &members, &taken) {
            order.push(place)?;
            taken.insert(place);
        }
    }
    push_rest(&mut order, class, &taken)?;
    Ok(order)
}

// The first place of a class that isn't taken, but each of the class with an edge to it is.
fn first_free(preceding: &[Set], class: &[u32], members: &Set, taken: &Set) -> Option<u32>
    requires inside { (x : ℕ) → has class.now x ≡ true → x < length preceding.now }
    ensures value { option_to_list result ≡ first_of (is_free preceding.now members.now taken.now) class.now }
{
    for place in class {
        if is_free(preceding, members, taken, *place) {
            return Some(*place);
        }
    }
    None
}

// Whether the place isn't taken, but each member with an edge to it is.
fn is_free(preceding: &[Set], members: &Set, taken: &Set, place: u32) -> bool
    requires inside { place < length preceding.now }
    ensures value { result ≡ is_free preceding.now members.now taken.now place }
{
    !taken.has(place) && preceding[place as usize].meet(members).within(taken)
}

// Puts the places of a class that aren't taken behind the others.
fn push_rest(order: &mut Vec<u32>, class: &[u32], taken: &Set) -> Result<(), NoMemory>
    ensures value { OnOk result (order.new.items ≡ order.old.items ++ filter (λ x. not (has taken.now x)) class.now) }
{
    for place in class {
        if !taken.has(*place) {
            order.push(*place)?;
        }
    }
    Ok(())
}

// The set of these places.
fn set_of(places: &[u32]) -> Set
    requires few { (x : ℕ) → has places.now x ≡ true → x < 512 }
    ensures value { result ≡ places_where (has places.now) }
{
    let mut set = Set::empty();
    for index in (0..places.len()).rev() {
        set.insert(places[index]);
    }
    set
}
