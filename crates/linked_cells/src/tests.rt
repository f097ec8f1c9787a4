// Lists through cells, against plain lists.

use crate::CellTable;
use std::alloc::Global;
use std::collections::VecDeque;
use std::test::Fail;

/// A table of so many cells, each with its own number as its second word.
fn cells(alloc: Global, count: u32) -> Result<CellTable, Fail> {
    let Ok(mut table) = CellTable::new(alloc, count as usize) else {
        return Err(Fail::from("no memory"));
    };
    for i in 0..count {
        if table.count() < table.room() {
            table.add(0, i);
        }
    }
    Ok(table)
}

fn link(table: &mut CellTable, at: usize, i: usize) {
    if at < table.count() && i < table.count() {
        table.link(at, i);
    }
}

fn unlink(table: &mut CellTable, at: usize) -> Option<u32> {
    if at < table.count() {
        Some(table.unlink(at))
    } else {
        None
    }
}

fn words(table: &CellTable, i: usize) -> Option<(u32, u32)> {
    if i < table.count() {
        Some(table.words(i))
    } else {
        None
    }
}

#[test]
fn words_stay_while_links_change(rt: HostRuntime) -> Result<(), Fail> {
    let mut table = cells(rt.alloc(), 4)?;
    assert_eq!(rt; table.count(), 4);
    assert_eq!(rt; table.room(), 4);
    assert_eq!(rt; words(&table, 3), Some((0, 3)));
    link(&mut table, 0, 3);
    link(&mut table, 0, 2);
    if 3 < table.count() {
        table.set_words(3, 77, 9);
    }
    if 1 < table.room() && 1 <= table.count() {
        table.put(1, 5, 6);
    }
    assert_eq!(rt; words(&table, 1), Some((5, 6)));
    assert_eq!(rt; words(&table, 3), Some((77, 9)));
    assert_eq!(rt; words(&table, 2), Some((0, 2)));
    assert_eq!(rt; unlink(&mut table, 0), Some(2));
    assert_eq!(rt; unlink(&mut table, 0), Some(9));
    assert_eq!(rt; words(&table, 4), None);
    Ok(())
}

// Cell 0 is the head of a stack, cell 1 that of a queue; the others go from one to the other and back.
#[test]
fn a_stack_and_a_queue_go_as_plain_lists(rt: HostRuntime) -> Result<(), Fail> {
    let mut table = cells(rt.alloc(), 12)?;
    let mut stack: Vec<u32> = Vec::new(rt.alloc());
    let mut queue: VecDeque<u32> = VecDeque::new(rt.alloc());
    for i in 2..12u32 {
        link(&mut table, 0, i as usize);
        stack.push(i)?;
    }
    let mut seed: u32 = 7;
    for step in 0..10_000u32 {
        seed = seed.wrapping_mul(1_664_525).wrapping_add(1_013_904_223);
        if seed & 0x8000_0000 == 0 {
            if let Some(i) = stack.pop() {
                assert_eq!(rt; unlink(&mut table, 0), Some(i), "step {step}");
                let last = match queue.back() {
                    Some(last) => *last as usize,
                    None => 1,
                };
                link(&mut table, last, i as usize);
                queue.push_back(i)?;
            }
        } else if let Some(i) = queue.pop_front() {
            assert_eq!(rt; unlink(&mut table, 1), Some(i), "step {step}");
            link(&mut table, 0, i as usize);
            stack.push(i)?;
        }
    }
    Ok(())
}
