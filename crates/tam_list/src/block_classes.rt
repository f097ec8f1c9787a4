// The classes of a block.
ghost use Rattle.std.specs.Prelude.{◌≡◌, ◌<◌, ◌++◌, OnOk, length};
ghost use Rattle.std.specs.List.{All};
ghost use Rattle.tam_split.specs.PartitionLaws.{IsBlockGraph};
ghost use Rattle.tam_list.specs.Listings.{class_line, classes_of};

use crate::text::push;
use crate::vertices::push_marked;
use std::alloc::Global;
use tam_edge::NoMemory;
use tam_part::partition;
use tam_split::BlockGraph;

/// Adds the lines of a block's classes.
pub fn push_classes(alloc: Global, text: &mut Vec<u8>, block: &BlockGraph) -> Result<(), NoMemory>
    requires block { IsBlockGraph block.now }
    ensures ok { OnOk result (text.new.items ≡ text.old.items ++ classes_of block.now) }
{
    let parts = partition(alloc, block)?;
    for class in 0..parts.classes() {
        push_class(text, block, parts.class(class))?;
    }
    Ok(())
}

// Adds the line of a class.
fn push_class(text: &mut Vec<u8>, block: &BlockGraph, class: &[u32]) -> Result<(), NoMemory>
    requires in_range { All (λ x. x < length block.now.vertices) class.now }
    ensures ok { OnOk result (text.new.items ≡ text.old.items ++ class_line block.now class.now) }
{
    push(text, b"thread")?;
    push_marked(text, b" ", block, class)?;
    push(text, b"\n")
}
