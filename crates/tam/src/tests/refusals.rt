// What is told in place of an answer, and writes that fail.
use crate::tests::{ADD, Case, call, check_all};
use std::test::Fail;

const CYCLE: &[u8] = b"dg 1\ncode main\na = add b b\nb = add a a\nresult 0 a\nend\n";

// Words, the file, the number of the write that fails, and what was taken before it.
#[derive(Drop)]
struct Failing {
    words: &'static [&'static str],
    file: &'static [u8],
    write: u32,
    taken: &'static [u8],
}

#[test]
fn refusals_have_their_line(rt: HostRuntime) -> Result<(), Fail> {
    let cases = [
        Case {
            words: &["graph", "f"],
            file: CYCLE,
            taken: b"refused line 3 Cycle\n",
            status: 1,
            steps: None,
        },
        Case {
            words: &["emit-image", "f"],
            file: b"dg 1\ncode main\n",
            taken: b"refused line 3 Ended\n",
            status: 1,
            steps: None,
        },
        Case {
            words: &["exec-rv32", "f"],
            file: ADD,
            taken: b"refused byte 0 Magic\n",
            status: 1,
            steps: None,
        },
        Case {
            words: &["make", "ring", "201"],
            file: b"",
            taken: b"usage Shape\n",
            status: 2,
            steps: None,
        },
        // The file is an order file that is no order list.
        Case {
            words: &["graph", "f", "--order-file=f"],
            file: ADD,
            taken: b"usage Order\n",
            status: 2,
            steps: None,
        },
        Case {
            words: &["rv32", "f", "--order-file=gone"],
            file: ADD,
            taken: b"read fault\n",
            status: 3,
            steps: None,
        },
    ];
    check_all(&rt, &cases)
}

// What was written before a failing write stays, and no machine is handed out.
#[test]
fn a_failing_write_leaves_a_prefix(rt: HostRuntime) -> Result<(), Fail> {
    let cases = [
        Failing {
            words: &["graph", "gone"],
            file: ADD,
            write: 1,
            taken: b"",
        },
        Failing {
            words: &["graph", "f", "--args=2,3"],
            file: ADD,
            write: 5,
            taken: b"result 0 = 5\nquiet\nevents 5\nactivations 1\n",
        },
        Failing {
            words: &["tl0", "f", "--args=2,3"],
            file: ADD,
            write: 2,
            taken: b"result 0 = 5\n",
        },
        Failing {
            words: &["exec-tl0", "f"],
            file: b"tl0 2\ncodes 1 main 0\ncode 0 0 2\nthread 1\nfork 0\nstop\nend\n",
            write: 2,
            taken: b"wild thread 0\n",
        },
        Failing {
            words: &["rv32", "f", "--args=2,3"],
            file: ADD,
            write: 6,
            taken: b"result 0 = 5\nquiet\nevents 5\nactivations 1\ncells 0\n",
        },
        Failing {
            words: &["make", "ladder", "1"],
            file: b"",
            write: 1,
            taken: b"",
        },
        Failing {
            words: &["make", "ladder", "1"],
            file: b"",
            write: 3,
            taken: b"shape ladder 1\nbytes 1707\nlevel graph\n",
        },
    ];
    for case in &cases {
        let came = call(&rt, case.words, case.file, &[case.write])?;
        assert_eq!(rt; came.taken.as_slice(), case.taken);
        assert_eq!(rt; came.status, 10);
        assert_eq!(rt; came.steps, None);
    }
    Ok(())
}
