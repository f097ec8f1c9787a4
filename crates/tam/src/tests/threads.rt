// Runs of graphs thread by thread, and of thread code.
use crate::tests::{ADD, Case, check_all};
use std::test::Fail;

// The thread code of `ADD`.
const ADD_CODE: &[u8] =
    b"tl0 2\ncodes 1 main 0\ncode 2 1 5\ninlet 2 1\ninlet 3 1\nthread 1\nstop\nthread 2\nadd 4 2 3\nret 0 4\nstop\nend\n";

// A thread that spends itself again.
const TWICE_CODE: &[u8] = b"tl0 2\ncodes 1 main 0\ncode 0 0 2\nthread 1\nfork 0\nstop\nend\n";

// A thread that spends one that isn't there, in the second code.
const NO_THREAD_CODE: &[u8] =
    b"tl0 2\ncodes 2 main 1\ncode 0 0 2\nthread 1\nstop\nend\ncode 0 0 2\nthread 1\nfork 1\nstop\nend\n";

#[test]
fn threads_run(rt: HostRuntime) -> Result<(), Fail> {
    let cases = [
        Case {
            words: &["tl0", "f", "--args=2,3"],
            file: ADD,
            taken: b"result 0 = 5\nquiet\nevents 5\nactivations 1\ncells 0\n",
            status: 0,
            steps: None,
        },
        Case {
            words: &["emit-tl0", "f"],
            file: ADD,
            taken: ADD_CODE,
            status: 0,
            steps: None,
        },
        Case {
            words: &["exec-tl0", "f", "--args=2,3"],
            file: ADD_CODE,
            taken: b"result 0 = 5\nquiet\nevents 5\nactivations 1\ncells 0\n",
            status: 0,
            steps: None,
        },
        Case {
            words: &["exec-tl0", "f"],
            file: TWICE_CODE,
            taken: b"wild thread 0\nevents 1\nactivations 1\ncells 0\n",
            status: 12,
            steps: None,
        },
    ];
    check_all(&rt, &cases)
}

#[test]
fn thread_code_is_refused(rt: HostRuntime) -> Result<(), Fail> {
    let cases = [
        Case {
            words: &["exec-tl0", "f", "--args=2,3,4"],
            file: ADD_CODE,
            taken: b"usage ArgsCount\n",
            status: 2,
            steps: None,
        },
        // The head of the second code stands on line 7, and the fault two lines behind it.
        Case {
            words: &["exec-tl0", "f"],
            file: NO_THREAD_CODE,
            taken: b"refused line 9 Thread\n",
            status: 1,
            steps: None,
        },
        Case {
            words: &["exec-tl0", "f"],
            file: b"tl0 2\ncodes 1 main 0\ncode 0 0\n",
            taken: b"refused line 3 BadLine\n",
            status: 1,
            steps: None,
        },
    ];
    check_all(&rt, &cases)
}
