// Runs of images made by hand. The words are those of GNU binutils' assembler; what each run answers follows from docs/MACHINE.md, "The host".
ghost use Rattle.std.specs.Prelude.{◌<◌, ◌≤◌, length};

use crate::advancing::advance;
use crate::opening::opening;
use crate::{Host, HostWild, StopRv};
use rv_image::Image;
use rv_inst::TrapCause;
use rv_machine::Rv;
use std::alloc::Global;
use std::test::Fail;
use tam_msgs::{Limits, Order, Step, Stop};

const ECALL: u32 = 0x0000_0073;
// addi x17, x0, N
const POLL: u32 = 0x0000_0893;

const WORD: u32 = 0x0010_0893;

const FRAME: u32 = 0x0020_0893;

const CELLS: u32 = 0x0030_0893;

const FETCH: u32 = 0x0040_0893;

const STORE: u32 = 0x0050_0893;

const GIVE: u32 = 0x0060_0893;

const UNKNOWN_CALL: u32 = 0x0070_0893;
// addi x10, x0, N
const X10_IS_0: u32 = 0x0000_0513;

const X10_IS_1: u32 = 0x0010_0513;

const X10_IS_OUTSIDE: u32 = 0xfff0_0513;

// How a run went on: its last answer, the last result that went outside, its events, activations and cells, and its instructions.
#[derive(Clone, Copy, Debug, PartialEq, Eq)]
struct Told {
    last: Result<Step, StopRv>,
    printed: Option<(u32, u32)>,
    counts: (u32, u32, u32),
    instructions: u64,
}

// The run of words, of an image with one param and one result. The argument is 7. There may be so many frames, 4 cells and 9 events.
fn run_of(alloc: Global, words: &[u32], frames: u32) -> Result<Told, Fail>
    requires some { 0 < length words.now }
    requires few { length words.now ≤ 64 }
    requires some_frame { 0 < frames }
    requires few_frames { frames ≤ 16 }
{
    let mut owned = Vec::new(alloc);
    owned.extend_from_slice(words)?;
    let image = Image::of(16, 1, 1, owned);
    let mut rv = Rv::new(alloc, &image, frames)?;
    let limits = Limits {
        budget: 9,
        frames,
        cells: 4,
    };
    let mut host = Host::new(alloc, 1, 1, &[7], limits)?;
    let mut order = Order::none(alloc);
    let mut last = Ok(Step::Ran);
    let mut printed = None;
    'polls: for _ in 0..20 {
        last = host.poll(&mut rv, &mut order);
        match last {
            Ok(Step::Printed { place, word }) => printed = Some((place, word)),
            Ok(Step::Quiet) | Err(_) => break,
            _ => {}
        }
    }
    let counts = host.counts();
    Ok(Told {
        last,
        printed,
        counts: (counts.events, counts.activations, counts.cells),
        instructions: host.instructions(),
    })
}

#[test]
fn what_is_not_there_is_wild(rt: HostRuntime) -> Result<(), Fail> {
    let cases: [(&[u32], HostWild, u32, u32, u64); 6] = [
        (&[UNKNOWN_CALL, ECALL], HostWild::Ecall, 7, 0, 2),
        (&[X10_IS_1, GIVE, ECALL], HostWild::Frame, 1, 0, 3),
        // The argument's word, for frame 0, which was given back.
        (&[GIVE, ECALL, POLL, ECALL], HostWild::Frame, 0, 1, 4),
        // A word for outside, as result 0 and once more.
        (
            &[
                X10_IS_OUTSIDE,
                WORD,
                ECALL,
                ECALL,
                X10_IS_0,
                POLL,
                ECALL,
                X10_IS_0,
                ECALL,
                ECALL,
            ],
            HostWild::Place,
            0,
            3,
            10,
        ),
        (
            &[FETCH, ECALL, POLL, ECALL, X10_IS_0, ECALL],
            HostWild::Array,
            0,
            2,
            6,
        ),
        (
            &[
                X10_IS_1, STORE, ECALL, X10_IS_0, POLL, ECALL, X10_IS_0, ECALL,
            ],
            HostWild::Array,
            1,
            2,
            8,
        ),
    ];
    for (words, what, number, events, instructions) in cases {
        let run = run_of(rt.alloc(), words, 2)?;
        assert_eq!(rt; run.last, Err(StopRv::Wild { what, number }));
        assert_eq!(rt; run.counts.0, events, "{what:?} {number}");
        assert_eq!(rt; run.instructions, instructions, "{what:?} {number}");
    }
    Ok(())
}

// Each alone at address 0, in a memory of 36 bytes.
#[test]
fn traps_end_a_run(rt: HostRuntime) -> Result<(), Fail> {
    let cases = [
        (0x0020_00ef, TrapCause::JumpAlign),
        (0x0020_2083, TrapCause::LoadAlign),
        (0x0000_2123, TrapCause::StoreAlign),
        (0xffc0_2083, TrapCause::LoadAddress),
        (0xfe00_0fa3, TrapCause::StoreAddress),
        (0x0000_0000, TrapCause::Unknown),
        (0x0010_0073, TrapCause::Break),
    ];
    for (word, cause) in cases {
        let run = run_of(rt.alloc(), &[word], 2)?;
        assert_eq!(rt; run.last, Err(StopRv::Trap { pc: 0, cause }));
        assert_eq!(rt; (run.counts.0, run.instructions), (0, 0), "{cause:?}");
    }
    // jalr x0, -4(x0), behind which there is no memory
    let run = run_of(rt.alloc(), &[0xffc0_0067], 2)?;
    let far = StopRv::Trap {
        pc: 0xffff_fffc,
        cause: TrapCause::FetchAddress,
    };
    assert_eq!(rt; (run.last, run.instructions), (Err(far), 1));
    Ok(())
}

// A poll that is the second instruction comes in time within two, and not within one.
#[test]
fn a_poll_has_to_come_in_time(rt: HostRuntime) -> Result<(), Fail> {
    let alloc = rt.alloc();
    let image = Image::of(16, 0, 0, vec![in alloc; POLL, ECALL]?);
    let limits = Limits {
        budget: 9,
        frames: 1,
        cells: 4,
    };
    let late = StopRv::Trap {
        pc: 4,
        cause: TrapCause::NoPoll,
    };
    for (most, answer) in [(1, Err(late)), (2, Ok(Step::Quiet))] {
        let mut rv = Rv::new(alloc, &image, 1)?;
        let mut state = opening(alloc, 0, &[], &limits)?;
        let mut order = Order::none(alloc);
        let last = advance(&mut state, &mut rv, &limits, &mut order, most);
        assert_eq!(rt; last, answer, "within {most}");
        assert_eq!(rt; rv.steps(), u64::from(most));
    }
    Ok(())
}

#[test]
fn runs_end(rt: HostRuntime) -> Result<(), Fail> {
    // addi x11, x0, 0; addi x12, x13, 0
    let passes_on: &[u32] = &[
        POLL,
        ECALL,
        X10_IS_OUTSIDE,
        0x0000_0593,
        0x0006_8613,
        WORD,
        ECALL,
        X10_IS_0,
        POLL,
        ECALL,
        ECALL,
    ];
    // The number of the frame is given back, and goes to who asked for the next.
    let asks_twice: &[u32] = &[
        POLL,
        ECALL,
        FRAME,
        ECALL,
        X10_IS_0,
        POLL,
        ECALL,
        // addi x10, x11, 0
        0x0005_8513,
        GIVE,
        ECALL,
        // addi x11, x0, -1; addi x12, x0, 0
        0xfff0_0593,
        0x0000_0613,
        FRAME,
        ECALL,
        X10_IS_0,
        POLL,
        ECALL,
        X10_IS_0,
        ECALL,
        X10_IS_0,
        ECALL,
        ECALL,
    ];
    let asks_for_cells: &[u32] = &[
        POLL,
        ECALL,
        0x0050_0513,
        CELLS,
        ECALL,
        X10_IS_0,
        POLL,
        ECALL,
    ];
    let polls_on: &[u32] = &[X10_IS_1, ECALL, 0xffdf_f06f];
    let cases = [
        (passes_on, 2, Ok(Step::Quiet), Some((0, 7)), (2, 1, 0), 11),
        (asks_twice, 2, Ok(Step::Quiet), Some((0, 1)), (5, 3, 0), 22),
        (
            asks_twice,
            1,
            Err(StopRv::Stop(Stop::FramesFull { count: 1 })),
            None,
            (2, 1, 0),
            7,
        ),
        (
            asks_for_cells,
            1,
            Err(StopRv::Stop(Stop::CellsFull { used: 0, len: 5 })),
            None,
            (2, 1, 0),
            8,
        ),
        (
            polls_on,
            1,
            Err(StopRv::Stop(Stop::BudgetSpent { events: 9 })),
            None,
            (9, 1, 0),
            20,
        ),
    ];
    for (words, frames, last, printed, counts, instructions) in cases {
        let run = run_of(rt.alloc(), words, frames)?;
        assert_eq!(rt; run.last, last);
        assert_eq!(rt; run.printed, printed, "{last:?}");
        assert_eq!(rt; run.counts, counts, "{last:?}");
        assert_eq!(rt; run.instructions, instructions, "{last:?}");
    }
    Ok(())
}
