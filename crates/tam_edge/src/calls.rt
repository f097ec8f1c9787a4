// The numbers of calls, from 1, of which chosen ones fail, and of ends that were given. How many bytes a call gives or takes.
ghost use Rattle.std.specs.Prelude.{◌≡◌, ◌<◌, ◌≤◌, ◌↔◌, Contains, IsTrue, IfSome};
ghost use Rattle.tam_edge.specs.Faults.{next_count, CountsEnd};
ghost use Rattle.tam_edge.specs.Pieces.{at_most};

use crate::FileError;

/// One more, but no more than the last value: the number of the next call, and a count of faults that rose.
pub fn next_count(count: u64) -> u64
    ensures value { result ≡ next_count count }
    ensures later { count ≤ result }
{
    count.saturating_add(1)
}

/// Whether the call of that number is one of those that fail.
pub fn is_to_fail(fail: &[u32], call: u64) -> bool
    ensures value { IsTrue result ↔ Contains fail.now call }
{
    fail.iter().any(|number| u64::from(*number) == call)
}

/// The count of ends after a read: one more where it gave the end.
pub fn count_end(ends: u64, given: Result<usize, FileError>) -> u64
    ensures value { CountsEnd ends result given }
{
    match given {
        Ok(0) => next_count(ends),
        Ok(_) => ends,
        Err(_) => ends,
    }
}

/// So many bytes, but at most the bound where there is one.
pub fn at_most(most: Option<u32>, count: usize) -> usize
    requires some { IfSome most (λ most. 0 < most) }
    ensures value { result ≡ at_most most count }
    ensures within { result ≤ count }
    ensures none { (result ≡ 0) ↔ (count ≡ 0) }
{
    match most {
        Some(most) => count.min(most as usize),
        None => count,
    }
}
