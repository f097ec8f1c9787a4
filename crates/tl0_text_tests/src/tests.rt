// Texts of thread code, read and printed, by the rules of docs/THREADS.md, "Thread code as text".
use std::alloc::{AllocError, Global};
use std::test::Fail;
use tl0_text::{Cause0, Refused0, print0, read0};

// The sum of two params.
const SUM: &[u8] =
    b"tl0 2\ncodes 1 main 0\ncode 2 1 5\ninlet 2 1\ninlet 3 1\nthread 1\nstop\nthread 2\nadd 4 2 3\nret 0 4\nstop\nend\n";

// Two values go through a branch one by one, the first before the second is there.
const LOOP: &[u8] =
    b"tl0 2\ncodes 1 main 0\ncode 2 1 13\ninlet 2 1\ninlet 3 2\nthread 1\nstop\nthread 1\nswitch 2 9 10\nfork 2\nfork 3\nstop\n\
      thread 2\nswitch 2 11 12\nstop\nthread 2\nswitch 2 13 14\nstop\nthread 1\nret 0 12\nstop\nthread 1\nimm 6 1\nadd 7 4 6\n\
      mov 11 7\nfork 3\nfork 6\nstop\nthread 2\nadd 8 5 7\nmov 12 8\nfork 4\nstop\nthread 1\nmov 11 9\nfork 3\nstop\nthread 1\n\
      mov 12 10\nfork 4\nstop\nthread 1\nskip 5\nstop\nthread 1\nskip 5\nstop\nthread 1\nmov 4 3\nfork 5\nstop\nthread 1\n\
      mov 9 3\nfork 7\nstop\nthread 1\nmov 5 11\nfork 6\nstop\nthread 1\nmov 10 11\nfork 8\nstop\nend\n";

// Each instruction once, in a code that calls, keeps cells and answers.
const ALL: &[u8] =
    b"tl0 2\ncodes 2 main 1\ncode 0 0 2\nthread 65535\nstop\nend\ncode 3 2 1026\ninlet 2 1\ninlet 4294967295 3072\nthread 0\n\
      imm 2 -2147483648\nimm 3 2147483647\nmov 4 3\nsub 4 2 3\nmul 4 2 3\ndiv 4 2 3\ndivu 4 2 3\nrem 4 2 3\nremu 4 2 3\n\
      and 4 2 3\nor 4 2 3\nxor 4 2 3\nsll 4 2 3\nsrl 4 2 3\nsra 4 2 3\nslt 4 2 3\nsltu 4 2 3\neq 4 2 3\nfork 1\nswitch 4 1 2\n\
      falloc 0 1\nsend 5 63 4\nret 1 4\nialloc 4 0\nifetch 6 4 1 1023\nistore 6 4 3 1022\nskip 4294967295\nstop\nend\n";

// What comes of reading the text and printing what was read: the text again, or why it was refused.
fn again(alloc: Global, text: &[u8]) -> Result<Vec<u8>, Refused0> {
    if text.len() > 67_108_864 {
        return Err(Refused0::NoMemory);
    }
    let program = read0(alloc, text)?;
    print0(alloc, &program).map_err(|_| Refused0::NoMemory)
}

#[test]
fn texts_are_printed_as_they_were_read(rt: HostRuntime) -> Result<(), Fail> {
    for text in [SUM, LOOP, ALL] {
        let printed = again(rt.alloc(), text).map_err(|_| "refused")?;
        assert!(rt; printed.as_slice() == text);
    }
    Ok(())
}

#[test]
fn a_text_cut_at_any_byte_is_refused(rt: HostRuntime) {
    for (len, _) in ALL.iter().enumerate() {
        assert!(rt; again(rt.alloc(), &ALL[..len]).is_err(), "at {len}");
    }
}

// A row on each line: the line and the cause of the first fault, a bar, and the text, where a slash stands for the end of a line.
const REFUSED: &str = "1 Ended|
2 Ended|tl0 2/
1 BadLine|tl0 2
1 BadHead|tl0 1/
1 BadHead|tl0  2/
1 BadHead|tl0 2\r/
2 BadHead|tl0 2/codes 0 main 0/
2 BadHead|tl0 2/codes 257 main 0/
2 BadHead|tl0 2/codes 1 main 01/
2 BadHead|tl0 2/codes 1 main 4294967296/
2 BadLine|tl0 2/codes 1 main 0
3 Ended|tl0 2/codes 1 main 0/
3 BadLine|tl0 2/codes 1 main 0//
3 TooMany|tl0 2/codes 1 main 0/code 0 0 1027/
4 BadLine|tl0 2/codes 1 main 0/code 0 0 2/end/
5 BadLine|tl0 2/codes 1 main 0/code 0 0 2/thread 1/fork 1 /
5 BadLine|tl0 2/codes 1 main 0/code 0 0 2/thread 1/ fork 1/
5 BadLine|tl0 2/codes 1 main 0/code 0 0 2/thread 1/ifetch 1 1 1 1 1 1/
5 BadLine|tl0 2/codes 1 main 0/code 0 0 2/thread 1/jump 1/
5 BadNumber|tl0 2/codes 1 main 0/code 0 0 2/thread 1/imm 1 -0/
5 BadNumber|tl0 2/codes 1 main 0/code 0 0 2/thread 1/imm 1 0x1/
5 BadNumber|tl0 2/codes 1 main 0/code 0 0 2/thread 1/imm 1 2147483648/
5 BadNumber|tl0 2/codes 1 main 0/code 0 0 2/thread 1/fork -1/
7 BadLine|tl0 2/codes 1 main 0/code 0 0 2/thread 1/stop/end/end/";

fn text_of(alloc: Global, lines: &str) -> Result<Vec<u8>, AllocError> {
    let mut text = Vec::new(alloc);
    for byte in lines.bytes() {
        text.push(if byte == b'/' { b'\n' } else { byte })?;
    }
    Ok(text)
}

#[test]
fn texts_are_refused_at_their_first_fault(rt: HostRuntime) -> Result<(), Fail> {
    for row in REFUSED.lines() {
        let (wanted, lines) = row.split_once('|').ok_or("a row")?;
        let text = text_of(rt.alloc(), lines)?;
        let told = match again(rt.alloc(), &text) {
            Ok(_) => format!(in rt.alloc(); "none")?,
            Err(Refused0::At { line, cause }) => format!(in rt.alloc(); "{line} {cause:?}")?,
            Err(Refused0::NoMemory) => format!(in rt.alloc(); "no memory")?,
        };
        assert_eq!(rt; told.as_str(), wanted, "of {lines}");
    }
    Ok(())
}

// A code with so many inlets and threads, and as many slots as there may be.
fn wide(alloc: Global, inlets: usize, threads: usize) -> Result<Vec<u8>, Fail> {
    let mut text = b"tl0 2\ncodes 1 main 0\ncode 64 64 1026\n".to_vec(alloc)?;
    for _ in 0..inlets {
        text.extend_from_slice(b"inlet 1025 3072\n")?;
    }
    for _ in 0..threads {
        text.extend_from_slice(b"thread 1\nskip 1\nstop\n")?;
    }
    text.extend_from_slice(b"end\n")?;
    Ok(text)
}

#[test]
fn the_widest_code_is_read_and_no_wider_one(rt: HostRuntime) -> Result<(), Fail> {
    let widest = wide(rt.alloc(), 1_024, 3_073)?;
    let printed = again(rt.alloc(), &widest).map_err(|_| "refused")?;
    assert!(rt; printed.as_slice() == widest.as_slice());
    for (inlets, threads, line) in [(1_025, 3_073, 1_028), (1_024, 3_074, 10_247)] {
        let refused = again(rt.alloc(), &wide(rt.alloc(), inlets, threads)?).err();
        let cause = Cause0::TooMany;
        assert!(rt;
            refused == Some(Refused0::At { line, cause }),
            "{refused:?}"
        );
    }
    Ok(())
}
