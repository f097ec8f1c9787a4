// Lists of numbers.
ghost use Rattle.std.specs.Prelude.{◌≡◌, ◌==◌, not, filter, IfOk};
ghost use Rattle.tam_word.specs.Lists.{has};

use std::alloc::Global;
use tam_edge::NoMemory;

// Whether a number stands in the list.
pub(crate) fn has(list: &[u32], number: u32) -> bool
    ensures value { result ≡ has list.now number }
{
    for x in list {
        if *x == number {
            return true;
        }
    }
    false
}

// The list without a number, wherever it stands.
pub(crate) fn without(alloc: Global, list: &[u32], number: u32) -> Result<Vec<u32>, NoMemory>
    ensures value { IfOk result (λ rest. rest.items ≡ filter (λ x. not (x == number)) list.now) }
{
    let mut rest = Vec::new(alloc);
    for x in list {
        if *x != number {
            rest.push(*x)?;
        }
    }
    Ok(rest)
}
