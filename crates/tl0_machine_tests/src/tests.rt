// Runs of programs made by hand. What each answers follows from the tables of docs/THREADS.md, "Runs of threads".
ghost use Rattle.std.specs.Prelude.{◌≤◌, length};

use std::alloc::Global;
use std::test::Fail;
use tam_msgs::{Counts, Limits, Order, Step, Stop};
use tam_word::Op;
use tl0_check::check0;
use tl0_code::{Code0, Inlet, Instr, Program0, Thread};
use tl0_machine::{Machine0, Stop0, Wild};

// What a run is of: the instructions of its first thread, its order list and its budget. The arguments are 2 and 3, or there are none. The order list is
// none, or says that behind the first thread the message at place 2 is delivered, the first behind the arguments, and so three times.
#[derive(Clone, Copy)]
struct Draft {
    instrs: [Instr; 4],
    has_args: bool,
    in_order: bool,
    budget: u32,
}

// How a run went on: its last answer, the last result that went outside, and its counts.
#[derive(Clone, Copy, Debug, PartialEq, Eq)]
struct Told {
    last: Result<Step, Stop0>,
    printed: Option<(u32, u32)>,
    counts: Counts,
}

// An instruction that leaves all as it was.
const REST: Instr = Instr::Mov { d: 7, a: 7 };

// Code 0 is `main`, with one result. Its thread 0 has the instructions; its thread 1 waits for two words, which its two inlets put into slots 2 and 3,
// and gives their sum as result 0. Code 1 has one thread, without an instruction. There may be 2 frames and 4 cells.
fn machine(alloc: Global, instrs: [Instr; 4], args: &[u32], budget: u32) -> Result<Machine0, Fail>
    requires few { length args.now ≤ 2 }
{
    let add = Instr::Op {
        op: Op::Add,
        d: 4,
        a: 2,
        b: 3,
    };
    let ret = Instr::Ret { place: 0, a: 4 };
    let entry = Thread::of(1, Vec::from_array(alloc, instrs)?);
    let sum = Thread::of(2, vec![in alloc; add, ret]?);
    let first = Inlet { slot: 2, thread: 1 };
    let second = Inlet { slot: 3, thread: 1 };
    let inlets = vec![in alloc; first, second]?;
    let threads = vec![in alloc; entry, sum]?;
    let main = Code0::of(args.len() as u32, 1, 8, inlets, threads);
    let stops = Thread::of(1, Vec::new(alloc));
    let called = Code0::of(0, 0, 2, Vec::new(alloc), vec![in alloc; stops]?);
    let code = check0(Program0::of(0, vec![in alloc; main, called]?))?;
    let limits = Limits {
        budget,
        frames: 2,
        cells: 4,
    };
    Ok(Machine0::new(alloc, code, args, limits)?)
}

fn run_to_end(alloc: Global, draft: Draft) -> Result<Told, Fail> {
    let args: &[u32] = if draft.has_args { &[2, 3] } else { &[] };
    let mut run = machine(alloc, draft.instrs, args, draft.budget)?;
    let mut order = if draft.in_order {
        Order::none(alloc)
    } else {
        Order::read(alloc, b"r,2,2,2")?
    };
    let mut last = Ok(Step::Ran);
    let mut printed = None;
    for _ in 0..20 {
        last = run.event(&mut order);
        match last {
            Ok(Step::Printed { place, word }) => printed = Some((place, word)),
            Ok(Step::Quiet) | Err(_) => break,
            _ => {}
        }
    }
    Ok(Told {
        last,
        printed,
        counts: run.counts(),
    })
}

// The frame of `main` owes 2 at the start, for its two threads.
#[test]
fn wild_runs_end(rt: HostRuntime) -> Result<(), Fail> {
    let skip = Instr::Skip { n: 1 };
    let fork = Instr::Fork { thread: 1 };
    let ret = Instr::Ret { place: 0, a: 4 };
    let cases = [
        (
            [Instr::Fork { thread: 0 }, REST, REST, REST],
            1,
            Wild::Thread,
            0,
        ),
        ([Instr::Skip { n: 2 }, REST, REST, REST], 1, Wild::Skip, 2),
        ([skip, fork, fork, REST], 1, Wild::Skip, 0),
        // The frame is given back before the words come.
        ([skip, REST, REST, REST], 2, Wild::Frame, 0),
        (
            [
                Instr::Send {
                    f: 5,
                    inlet: 2,
                    a: 4,
                },
                REST,
                REST,
                REST,
            ],
            2,
            Wild::Inlet,
            2,
        ),
        // Slot 0 is the outside.
        (
            [
                Instr::Send {
                    f: 0,
                    inlet: 1,
                    a: 4,
                },
                REST,
                REST,
                REST,
            ],
            2,
            Wild::Place,
            1,
        ),
        ([ret, ret, REST, REST], 3, Wild::Place, 0),
        (
            [
                Instr::Ifetch {
                    array: 4,
                    index: 4,
                    inlet: 0,
                    node: 7,
                },
                REST,
                REST,
                REST,
            ],
            2,
            Wild::Array,
            0,
        ),
    ];
    for (instrs, events, what, number) in cases {
        let draft = Draft {
            instrs,
            has_args: true,
            in_order: false,
            budget: 100,
        };
        let told = run_to_end(rt.alloc(), draft)?;
        assert_eq!(rt; told.last, Err(Stop0::Wild { what, number }));
        assert_eq!(rt; told.counts.events, events, "{what:?} {number}");
    }
    Ok(())
}

#[test]
fn runs_end(rt: HostRuntime) -> Result<(), Fail> {
    let rests = Draft {
        instrs: [REST; 4],
        has_args: true,
        in_order: true,
        budget: 9,
    };
    let fork = Instr::Fork { thread: 1 };
    let one = Instr::Imm { d: 4, word: 1 };
    let array = Instr::Ialloc { n: 4, inlet: 0 };
    let fetch = Instr::Ifetch {
        array: 5,
        index: 4,
        inlet: 1,
        node: 7,
    };
    let store = Instr::Istore {
        array: 5,
        index: 5,
        a: 4,
        node: 8,
    };
    let second = Instr::Istore {
        array: 5,
        index: 5,
        a: 4,
        node: 9,
    };
    let first = Instr::Ifetch {
        array: 5,
        index: 5,
        inlet: 1,
        node: 7,
    };
    let call = Instr::Falloc { code: 1, inlet: 0 };
    let call_again = Instr::Falloc { code: 1, inlet: 1 };
    let cases = [
        // The worked example.
        (rests, Ok(Step::Quiet), Some((0, 5)), (5, 1, 0)),
        (
            Draft { budget: 3, ..rests },
            Err(Stop0::Stop(Stop::BudgetSpent { events: 3 })),
            None,
            (3, 1, 0),
        ),
        // Two forks are the last of the count of thread 1.
        (
            Draft {
                instrs: [fork, fork, REST, REST],
                has_args: false,
                ..rests
            },
            Ok(Step::Quiet),
            Some((0, 0)),
            (3, 1, 0),
        ),
        // The number of the first call is free again, and the second has it too.
        (
            Draft {
                instrs: [call, call_again, REST, REST],
                has_args: false,
                ..rests
            },
            Ok(Step::Quiet),
            Some((0, 2)),
            (9, 3, 0),
        ),
        (
            Draft {
                instrs: [call, call_again, REST, REST],
                in_order: false,
                ..rests
            },
            Err(Stop0::Stop(Stop::FramesFull { count: 2 })),
            None,
            (3, 2, 0),
        ),
        // The word goes to the reader that waits: array 0, and 1.
        (
            Draft {
                instrs: [one, array, first, store],
                has_args: false,
                ..rests
            },
            Ok(Step::Quiet),
            Some((0, 1)),
            (8, 1, 1),
        ),
        (
            Draft {
                instrs: [one, array, store, second],
                in_order: false,
                ..rests
            },
            Err(Stop0::Stop(Stop::DoubleWrite {
                first: 8,
                second: 9,
            })),
            None,
            (4, 1, 1),
        ),
        (
            Draft {
                instrs: [one, array, fetch, REST],
                in_order: false,
                ..rests
            },
            Err(Stop0::Stop(Stop::OutOfRange {
                site: 7,
                index: 1,
                len: 1,
            })),
            None,
            (3, 1, 1),
        ),
        (
            Draft {
                instrs: [Instr::Imm { d: 4, word: 5 }, array, REST, REST],
                in_order: false,
                ..rests
            },
            Err(Stop0::Stop(Stop::CellsFull { used: 0, len: 5 })),
            None,
            (2, 1, 0),
        ),
    ];
    for (draft, last, printed, counts) in cases {
        let told = run_to_end(rt.alloc(), draft)?;
        assert_eq!(rt; told.last, last);
        assert_eq!(rt; told.printed, printed, "{last:?}");
        let counted = (
            told.counts.events,
            told.counts.activations,
            told.counts.cells,
        );
        assert_eq!(rt; counted, counts, "{last:?}");
    }
    Ok(())
}
