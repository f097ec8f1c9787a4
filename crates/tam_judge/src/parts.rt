// Whether the partition of a block is valid.
ghost use Rattle.std.specs.Prelude.{◌≡◌, IfOk};
ghost use Rattle.tam_split.specs.PartitionLaws.{IsPartition};
ghost use Rattle.tam_split.specs.Partitions.{is_valid};

use std::alloc::Global;
use tam_edge::NoMemory;
use tam_quotient::{is_valid, quotient};
use tam_reach::depends;
use tam_split::{BlockGraph, Parts};

/// Whether a partition of a block, of which each place stands in one class, is valid: no class leads back to itself through another, and
/// the inlets whose classes lead to an outlet's class are exactly those on which the outlet depends.
pub fn check_parts(alloc: Global, b: &BlockGraph, p: &Parts) -> Result<bool, NoMemory>
    requires whole { IsPartition b.now p.now }
    ensures value { IfOk result (λ valid. valid ≡ is_valid b.now p.now) }
{
    let depends = depends(alloc, b)?;
    let ways = quotient(alloc, b, &depends, p)?;
    Ok(is_valid(b, &depends, p, &ways))
}
