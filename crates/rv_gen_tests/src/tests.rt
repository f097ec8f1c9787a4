// Images of programs made by hand. Their words were written by a program of its own, apart from the definitions (`rv_keep` specs/ImageExamples).
ghost use Rattle.std.specs.Prelude.{◌≤◌};
ghost use Rattle.tl0_code.specs.ThreadCode.{instr_count};

use rv_gen::{generate, image_words};
use rv_image::{Image, MAX_WORDS};
use std::alloc::Global;
use std::test::Fail;
use tam_edge::NoMemory;
use tam_word::Op;
use tl0_check::check0;
use tl0_code::{Code0, Inlet, Instr, Program0, Thread};

// A code with one thread that stops at once: the kernel in lines of eleven words, and the seven words behind it.
#[rattlefmt::skip]
const EMPTY: [u32; 112] = [
    2487, 470387091, 2615, 38406675, 2743, 445287059, 1043, 1171, 2323, 1427, 1555,
    4293920403, 1811, 50331759, 4465283, 169059, 1043, 9725235, 2195, 115, 4261743331, 1049235,
    240452195, 2097811, 106234467, 54887731, 20251955, 2495123, 22184627, 172675, 336419, 11871267, 172803,
    6628899, 13969955, 15019043, 4367107, 10683187, 198035, 243269743, 12756483, 16941715, 175619, 29564963,
    4358803, 8586003, 4294149011, 4261648099, 50331759, 54887731, 20251955, 12919427, 4592403, 6455987, 172803,
    10683187, 13836323, 4367747, 10847667, 8562179, 8388847, 4112511087, 369283, 4294083219, 5611555, 33725027,
    12951587, 4530947, 6660643, 11870755, 33755235, 8719971, 335907, 595555, 328851, 8388719, 11083811,
    330003, 32871, 268899, 295955, 271491, 300131, 2323, 4466051, 4563715, 6562339, 369283,
    163943, 17048195, 4294083219, 5515299, 3959592163, 8660227, 6293651, 115, 3953127535, 8561539, 7677987,
    29691411, 7211107, 925731, 5115411, 4284477551, 4028625007,
    373293159, 428, 448, 28, 1, 420, 1,
];

// The sum of two params: the words behind the kernel.
#[rattlefmt::skip]
const SUM: [u32; 35] = [
    373293159, 4023, 9408435, 30384771, 4023, 9408435, 34579203, 6455987, 4023, 9408435, 39821859,
    21243139, 25437571, 361875, 4023, 9408435, 38774275, 1050771, 115, 373293159, 504, 528,
    40, 2, 420, 1, 2, 28, 48, 424, 0, 32, 48,
    424, 0,
];

fn image(alloc: Global, main: Code0) -> Result<Image, Fail>
    requires few { instr_count main ≤ 67108864 }
{
    let code = check0(Program0::of(0, vec![in alloc; main]?))?;
    if image_words(&code) > u64::from(MAX_WORDS) {
        return Err(Fail::from(NoMemory));
    }
    Ok(generate(alloc, &code)?)
}

#[test]
fn the_words_are_those_of_another_program(rt: HostRuntime) -> Result<(), Fail> {
    let stops = Thread::of(1, Vec::new(rt.alloc()));
    let threads = vec![in rt.alloc(); stops]?;
    let empty = image(
        rt.alloc(),
        Code0::of(0, 0, 2, Vec::new(rt.alloc()), threads),
    )?;
    assert_eq!(rt; empty.words(), EMPTY.as_slice());
    assert_eq!(rt;
        (empty.stride(), empty.params(), empty.results()),
        (36, 0, 0)
    );
    Ok(())
}

#[test]
fn so_are_those_of_a_sum(rt: HostRuntime) -> Result<(), Fail> {
    let add = Instr::Op {
        op: Op::Add,
        d: 4,
        a: 2,
        b: 3,
    };
    let ret = Instr::Ret { place: 0, a: 4 };
    let entry = Thread::of(1, Vec::new(rt.alloc()));
    let sum = Thread::of(2, vec![in rt.alloc(); add, ret]?);
    let first = Inlet { slot: 2, thread: 1 };
    let second = Inlet { slot: 3, thread: 1 };
    let inlets = vec![in rt.alloc(); first, second]?;
    let threads = vec![in rt.alloc(); entry, sum]?;
    let sum = image(rt.alloc(), Code0::of(2, 1, 5, inlets, threads))?;
    assert_eq!(rt; sum.words().len(), 140);
    assert_eq!(rt; sum.words().get(105..), Some(SUM.as_slice()));
    assert_eq!(rt; (sum.stride(), sum.params(), sum.results()), (56, 2, 1));
    Ok(())
}
