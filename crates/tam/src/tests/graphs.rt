// Runs of graphs vertex by vertex, with each end of a run, and the listings of graphs.
use crate::tests::{ADD, Case, EMPTY, check_all};
use std::test::Fail;

const CALL: &[u8] = b"dg 1\ncode main\nf = call main\nend\n";

const DOUBLE: &[u8] =
    b"dg 1\ncode main\nx = param 0\nn = const 1\nA:1 = alloc n\nz = const 0\nstore A z x\nstore A z n\nv = fetch A z\nresult 0 v\nend\n";

const OUTSIDE: &[u8] =
    b"dg 1\ncode main\ni = param 0\nn = const 4\nA:1 = alloc n\nstore A i n\nv = fetch A i\nresult 0 v\nend\n";

const LARGE: &[u8] = b"dg 1\ncode main\nn = param 0\nA:1 = alloc n\nr = seq n A\nresult 0 r\nend\n";

const MISSING: &[u8] =
    b"dg 1\ncode main\nn = const 1\nA:1 = alloc n\nz = const 0\nv = fetch A z\nx = param 0\ny = add x n\nresult 0 v\nresult 1 y\nend\n";

const NO_CELLS: &[u8] = b"dg 1\ncode main\nn = const 0\nA:1 = alloc n\nresult 0 n\nend\n";

#[test]
fn each_end_of_a_run_has_its_status(rt: HostRuntime) -> Result<(), Fail> {
    let cases = [
        // Three vertices fire, and three messages come: the cells that are asked for, the array, the result.
        Case {
            words: &["graph", "f"],
            file: NO_CELLS,
            taken: b"result 0 = 0\nquiet\nevents 6\nactivations 1\ncells 0\n",
            status: 0,
            steps: None,
        },
        Case {
            words: &["graph", "f", "--args=6"],
            file: MISSING,
            taken: b"result 1 = 7\nquiet\nmissing 0\nevents 11\nactivations 1\ncells 1\n",
            status: 4,
            steps: None,
        },
        Case {
            words: &["graph", "f", "--args=9"],
            file: DOUBLE,
            taken: b"double write 0.4 0.5\nevents 11\nactivations 1\ncells 1\n",
            status: 5,
            steps: None,
        },
        Case {
            words: &["graph", "f", "--args=4"],
            file: OUTSIDE,
            taken: b"out of range 0.3 4 4\nevents 8\nactivations 1\ncells 4\n",
            status: 6,
            steps: None,
        },
        Case {
            words: &["graph", "f", "--frames=1"],
            file: CALL,
            taken: b"frames full 1\nevents 2\nactivations 1\ncells 0\n",
            status: 7,
            steps: None,
        },
        Case {
            words: &["graph", "f", "--args=0xffffffff"],
            file: LARGE,
            taken: b"cells full 0 4294967295\nevents 3\nactivations 1\ncells 0\n",
            status: 8,
            steps: None,
        },
        // The run needs 5 events.
        Case {
            words: &["graph", "f", "--budget=4", "--args=2,3"],
            file: ADD,
            taken: b"budget spent 4\nevents 4\nactivations 1\ncells 0\n",
            status: 9,
            steps: None,
        },
        Case {
            words: &["graph", "f", "--budget=5", "--args=2,3"],
            file: ADD,
            taken: b"result 0 = 5\nquiet\nevents 5\nactivations 1\ncells 0\n",
            status: 0,
            steps: None,
        },
    ];
    check_all(&rt, &cases)
}

#[test]
fn graphs_are_listed(rt: HostRuntime) -> Result<(), Fail> {
    let cases = [
        Case {
            words: &["check", "f"],
            file: ADD,
            taken: b"accepted\ncodes 1\nblocks 1\nvertices 4\n",
            status: 0,
            steps: None,
        },
        Case {
            words: &["emit-dg", "f"],
            file: b"dg 1\n# note\ncode  main\n k = const 0xffffffff\nresult 0 k\nend\n",
            taken: b"dg 1\ncode main\nk = const -1\nresult 0 k\nend\n",
            status: 0,
            steps: None,
        },
        Case {
            words: &["sets", "f"],
            file: EMPTY,
            taken: b"code 0 main\nblock 0\n",
            status: 0,
            steps: None,
        },
        Case {
            words: &["parts", "f"],
            file: EMPTY,
            taken: b"code 0 main\nblock 0\n",
            status: 0,
            steps: None,
        },
    ];
    check_all(&rt, &cases)
}

// Events are vertices that fire, inlets apart, and messages that come: of the ladder's `main` 3 fire and 6 messages come, of its only code 102 fire. At the
// level of threads they are threads that run, and messages: of `main` 4 and 6, of the only code 2. So they are at the level of the machine.
#[test]
fn a_large_input_is_made_and_run(rt: HostRuntime) -> Result<(), Fail> {
    let cases = [Case {
        words: &["make", "ladder", "1"],
        file: b"",
        taken: b"shape ladder 1\nbytes 1707\nlevel graph\nresult 0 = 100\nquiet\nevents 111\nactivations 2\ncells 0\n\
            level tl0\nresult 0 = 100\nquiet\nevents 12\nactivations 2\ncells 0\n\
            level rv32\nresult 0 = 100\nquiet\nevents 12\nactivations 2\ncells 0\ninstructions 1906\n",
        status: 0,
        steps: Some(1906),
    }];
    check_all(&rt, &cases)
}
