// A program and what it shows.
use std::alloc::AllocError;
use tam_word::Op;
use tl0_code::{Code0, Inlet, Instr, Program0, Thread};

// The sum of two params: thread 1 runs once both have come.
#[test]
fn a_program_is_made_of_its_parts(rt: HostRuntime) -> Result<(), AllocError> {
    let add = Instr::Op {
        op: Op::Add,
        d: 4,
        a: 2,
        b: 3,
    };
    let ret = Instr::Ret { place: 0, a: 4 };
    let entry = Thread::of(1, Vec::new(rt.alloc()));
    let sum = Thread::of(2, vec![in rt.alloc(); add, ret]?);
    let first = Inlet { slot: 2, thread: 1 };
    let second = Inlet { slot: 3, thread: 1 };
    let inlets = vec![in rt.alloc(); first, second]?;
    let threads = vec![in rt.alloc(); entry, sum]?;
    let main = Code0::of(2, 1, 5, inlets, threads);
    let program = Program0::of(7, vec![in rt.alloc(); main]?);
    assert_eq!(rt; program.main(), 7);
    assert_eq!(rt; program.codes().len(), 1);
    let code = &program.codes()[0];
    assert_eq!(rt; code.params(), 2);
    assert_eq!(rt; code.results(), 1);
    assert_eq!(rt; code.slots(), 5);
    assert_eq!(rt; code.inlets(), [first, second].as_slice());
    assert_eq!(rt; code.threads().len(), 2);
    assert_eq!(rt; code.threads()[0].count(), 1);
    assert_eq!(rt; code.threads()[0].instrs().len(), 0);
    assert_eq!(rt; code.threads()[1].count(), 2);
    assert_eq!(rt; code.threads()[1].instrs(), [add, ret].as_slice());
    Ok(())
}
