// Frames taken, run, given back and taken again, step by step. The answers are worked by hand from docs/THREADS.md, "Frames".
ghost use Rattle.std.specs.Prelude.{◌≡◌};

use std::alloc::{AllocError, Global};
use std::test::Fail;
use tam_frames::{Frames, Full, Spend};

/// A call, where its conditions are met.
#[derive(Clone, Copy, Debug)]
enum Step {
    /// With so many words to come for each thread; a further thread waits for none.
    Take(&'static [u32]),
    Give(u32),
    Live(u32),
    Used,
    Set(u32, u32, u32),
    Get(u32, u32),
    Spend(u32, u32),
    Lower(u32, u32),
    Owed(u32),
    Busy(u32),
    Ready,
    Next,
    Rest,
}

/// What the call answers.
#[derive(Clone, Copy, Debug, PartialEq, Eq)]
enum Answer {
    Taken(u32),
    Refused,
    Number(u32),
    Holds(bool),
    Spent(Spend),
    Next(u32, u32),
    Nothing,
    /// A condition isn't met.
    Unfit,
}

/// Frames with so many slots and threads each.
#[derive(Drop)]
struct Table {
    frames: Frames,
    slots: u32,
    threads: u32,
    ghost slots_are: { frames.slots ≡ slots },
    ghost threads_are: { frames.threads ≡ threads },
}

impl Table {
    fn answer(&mut self, step: Step) -> Answer {
        match step {
            Step::Take(counts) if counts.len() <= self.threads as usize => {
                match self.frames.take(counts) {
                    Ok(number) => Answer::Taken(number),
                    Err(Full) => Answer::Refused,
                }
            }
            Step::Give(f)
                if self.frames.live(f) && self.frames.owed(f) == 0 && !self.frames.busy(f) => {
                self.frames.give(f);
                Answer::Nothing
            }
            Step::Live(f) => Answer::Holds(self.frames.live(f)),
            Step::Used => Answer::Number(self.frames.used()),
            Step::Set(f, slot, word) if self.frames.live(f) && slot < self.slots => {
                self.frames.set(f, slot, word);
                Answer::Nothing
            }
            Step::Get(f, slot) if self.frames.live(f) && slot < self.slots => {
                Answer::Number(self.frames.get(f, slot))
            }
            Step::Spend(f, thread) if self.frames.live(f) && thread < self.threads => {
                Answer::Spent(self.frames.spend(f, thread))
            }
            Step::Lower(f, n) if self.frames.live(f) => {
                self.frames.lower(f, n);
                Answer::Nothing
            }
            Step::Owed(f) if self.frames.live(f) => Answer::Number(self.frames.owed(f)),
            Step::Busy(f) if self.frames.live(f) => Answer::Holds(self.frames.busy(f)),
            Step::Ready => Answer::Holds(self.frames.ready()),
            Step::Next => match self.frames.next_thread() {
                Some((f, thread)) => Answer::Next(f, thread),
                None => Answer::Nothing,
            },
            Step::Rest => {
                self.frames.rest();
                Answer::Nothing
            }
            _ => Answer::Unfit,
        }
    }
}

// Room for so many frames with so many slots and threads each.
fn table_of(alloc: Global, count: u32, slots: u32, threads: u32) -> Result<Table, Fail> {
    match Frames::new(alloc, count, slots, threads) {
        Ok(frames) => Ok(Table {
            frames,
            slots,
            threads,
        }),
        Err(_) => Err(Fail::from("no memory")),
    }
}

// The example of that section: thread 0 waits for one word, thread 1 for two. The second frame is the last for which there is room.
#[test]
fn the_worked_example(rt: HostRuntime) -> Result<(), Fail> {
    let mut table = table_of(rt.alloc(), 2, 3, 2)?;
    let steps = [
        (Step::Take(&[1, 2]), Answer::Taken(0)),
        (Step::Owed(0), Answer::Number(2)),
        (Step::Spend(0, 1), Answer::Spent(Spend::Left)),
        (Step::Busy(0), Answer::Holds(false)),
        (Step::Spend(0, 0), Answer::Spent(Spend::Enabled)),
        (Step::Spend(0, 0), Answer::Spent(Spend::Spent)),
        (Step::Spend(0, 1), Answer::Spent(Spend::Enabled)),
        (Step::Next, Answer::Next(0, 1)),
        (Step::Next, Answer::Next(0, 0)),
        (Step::Rest, Answer::Nothing),
        (Step::Next, Answer::Nothing),
        (Step::Take(&[1]), Answer::Taken(1)),
        (Step::Take(&[1]), Answer::Refused),
    ];
    for (step, answer) in steps {
        assert_eq!(rt; table.answer(step), answer, "{step:?}");
    }
    Ok(())
}

// There is room for one frame: it is refused while the frame is live, and is new when it is taken again.
#[test]
fn one_frame_is_taken_again(rt: HostRuntime) -> Result<(), Fail> {
    let mut table = table_of(rt.alloc(), 1, 2, 1)?;
    let steps = [
        (Step::Take(&[1]), Answer::Taken(0)),
        (Step::Take(&[1]), Answer::Refused),
        (Step::Set(0, 0, 7), Answer::Nothing),
        (Step::Set(0, 1, 8), Answer::Nothing),
        (Step::Spend(0, 0), Answer::Spent(Spend::Enabled)),
        (Step::Next, Answer::Next(0, 0)),
        (Step::Lower(0, 1), Answer::Nothing),
        (Step::Rest, Answer::Nothing),
        (Step::Give(0), Answer::Nothing),
        (Step::Take(&[1]), Answer::Taken(0)),
        (Step::Get(0, 0), Answer::Number(0)),
        (Step::Get(0, 1), Answer::Number(0)),
    ];
    for (step, answer) in steps {
        assert_eq!(rt; table.answer(step), answer, "{step:?}");
    }
    Ok(())
}

// The most frames, of the widest code that can be: the last slot and the last thread of a frame are its own.
#[test]
fn the_widest_frames_have_room(rt: HostRuntime) -> Result<(), Fail> {
    let mut table = table_of(rt.alloc(), 16_384, 1_026, 3_073)?;
    let steps = [
        (Step::Take(&[1]), Answer::Taken(0)),
        (Step::Take(&[]), Answer::Taken(1)),
        (Step::Set(0, 1_025, 7), Answer::Nothing),
        (Step::Set(1, 0, 8), Answer::Nothing),
        (Step::Get(0, 1_025), Answer::Number(7)),
        (Step::Get(1, 1_025), Answer::Number(0)),
        (Step::Owed(0), Answer::Number(1)),
        (Step::Spend(0, 3_072), Answer::Spent(Spend::Spent)),
        (Step::Spend(0, 0), Answer::Spent(Spend::Enabled)),
        (Step::Next, Answer::Next(0, 0)),
    ];
    for (step, answer) in steps {
        assert_eq!(rt; table.answer(step), answer, "{step:?}");
    }
    Ok(())
}

// A frame keeps its turn while a thread of it is ready, also one that became ready in that turn; frames 2 and 1 wait in the order in which they joined.
#[test]
fn turns_go_round(rt: HostRuntime) -> Result<(), Fail> {
    let mut table = table_of(rt.alloc(), 3, 2, 2)?;
    let steps = [
        (Step::Take(&[1, 1]), Answer::Taken(0)),
        (Step::Take(&[1, 1]), Answer::Taken(1)),
        (Step::Take(&[1, 1]), Answer::Taken(2)),
        (Step::Ready, Answer::Holds(false)),
        (Step::Spend(0, 0), Answer::Spent(Spend::Enabled)),
        (Step::Spend(2, 0), Answer::Spent(Spend::Enabled)),
        (Step::Spend(1, 0), Answer::Spent(Spend::Enabled)),
        (Step::Next, Answer::Next(0, 0)),
        (Step::Spend(0, 1), Answer::Spent(Spend::Enabled)),
        (Step::Spend(2, 1), Answer::Spent(Spend::Enabled)),
        (Step::Next, Answer::Next(0, 1)),
        (Step::Next, Answer::Next(2, 1)),
        (Step::Next, Answer::Next(2, 0)),
        (Step::Ready, Answer::Holds(true)),
        (Step::Next, Answer::Next(1, 0)),
        (Step::Ready, Answer::Holds(false)),
        (Step::Next, Answer::Nothing),
    ];
    for (step, answer) in steps {
        assert_eq!(rt; table.answer(step), answer, "{step:?}");
    }
    Ok(())
}

// The number that was given back last is the first to be taken again, and its frame is new.
#[test]
fn numbers_come_back_last_first(rt: HostRuntime) -> Result<(), Fail> {
    let mut table = table_of(rt.alloc(), 3, 2, 2)?;
    let steps = [
        (Step::Take(&[5]), Answer::Taken(0)),
        (Step::Take(&[5]), Answer::Taken(1)),
        (Step::Take(&[5]), Answer::Taken(2)),
        (Step::Set(1, 1, 77), Answer::Nothing),
        (Step::Get(1, 0), Answer::Number(0)),
        (Step::Get(1, 1), Answer::Number(77)),
        (Step::Give(1), Answer::Unfit),
        (Step::Lower(0, 2), Answer::Nothing),
        (Step::Give(0), Answer::Nothing),
        (Step::Lower(1, 2), Answer::Nothing),
        (Step::Give(1), Answer::Nothing),
        (Step::Used, Answer::Number(1)),
        (Step::Live(0), Answer::Holds(false)),
        (Step::Live(2), Answer::Holds(true)),
        (Step::Live(3), Answer::Holds(false)),
        (Step::Take(&[1, 3]), Answer::Taken(1)),
        (Step::Get(1, 1), Answer::Number(0)),
        (Step::Spend(1, 1), Answer::Spent(Spend::Left)),
        (Step::Take(&[]), Answer::Taken(0)),
        (Step::Spend(0, 0), Answer::Spent(Spend::Spent)),
        (Step::Take(&[]), Answer::Refused),
    ];
    for (step, answer) in steps {
        assert_eq!(rt; table.answer(step), answer, "{step:?}");
    }
    Ok(())
}

// Four frames run and are given back 10,080 times, in each of their 24 orders as often. They run in the order in which a thread of each became ready, and
// their numbers are taken again as a plain list of free numbers says.
#[test]
fn four_frames_in_every_order(rt: HostRuntime) -> Result<(), Fail> {
    let mut table = table_of(rt.alloc(), 4, 2, 2)?;
    // The number that is taken next is the last.
    let mut free = Vec::from_slice(rt.alloc(), &[3, 2, 1, 0])?;
    let orders = orders_of_four(rt.alloc())?;
    for _ in 0..420 {
        for (a, b, c, d) in &orders {
            for _ in 0..4 {
                let number = free.pop().ok_or("a free number")?;
                assert_eq!(rt; table.answer(Step::Take(&[1])), Answer::Taken(number));
            }
            assert_eq!(rt; table.answer(Step::Take(&[1])), Answer::Refused);
            for f in [*a, *b, *c, *d] {
                assert_eq!(rt;
                    table.answer(Step::Spend(f, 0)),
                    Answer::Spent(Spend::Enabled)
                );
            }
            for f in [*a, *b, *c, *d] {
                assert_eq!(rt; table.answer(Step::Next), Answer::Next(f, 0));
                assert_eq!(rt; table.answer(Step::Lower(f, 2)), Answer::Nothing);
                assert_eq!(rt; table.answer(Step::Give(f)), Answer::Nothing);
                free.push(f)?;
            }
            assert_eq!(rt; table.answer(Step::Used), Answer::Number(0));
        }
    }
    Ok(())
}

// The numbers from 0 to 3 in each of their orders.
fn orders_of_four(alloc: Global) -> Result<Vec<(u32, u32, u32, u32)>, AllocError> {
    let mut orders = Vec::new(alloc);
    for a in 0..4 {
        for b in 0..4 {
            for c in 0..4 {
                if a != b && b != c && a != c {
                    orders.push((a, b, c, 6u32.wrapping_sub(a + b + c)))?;
                }
            }
        }
    }
    Ok(orders)
}
