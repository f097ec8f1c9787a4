// Programs made by hand, and their first faults by the table of docs/THREADS.md, "Which thread code is accepted".
//
// A table is one text with a row on each line: what is told, a bar, and lines of thread code, where a slash stands for the end of a line.
use std::alloc::Global;
use std::test::Fail;
use tl0_check::{Check0Error, check0};
use tl0_code::Program0;
use tl0_text::read0;

// A program of two codes. Code 0 has 2 results, 2 slots and a thread. The lines are those of code 1: the inlet is on line 1, the entry thread on 2 and 3, and
// the thread of one instruction on 4 to 6, with its head on 4.
fn program_of(alloc: Global, main: u32, lines: &str) -> Result<Program0, Fail> {
    let mut text = format!(in alloc;
        "tl0 2\ncodes 2 main {main}\ncode 0 2 2\nthread 1\nstop\nend\n"
    )?;
    for letter in lines.chars() {
        text.push(if letter == '/' { '\n' } else { letter })?;
    }
    if text.len() > 67_108_864 {
        return Err(Fail::from("too long"));
    }
    Ok(read0(alloc, text.as_bytes())?)
}

// What is told of a program.
fn told(alloc: Global, main: u32, lines: &str) -> Result<String, Fail> {
    Ok(match check0(program_of(alloc, main, lines)?) {
        Ok(_) => format!(in alloc; "none")?,
        Err((_, Check0Error::Bad { code, place, cause })) => {
            format!(in alloc; "{code} {place} {cause:?}")?
        }
    })
}

const HEADS: &str = "none|code 1 1 3/inlet 2 1/thread 1/stop/thread 1/ret 0 2/stop/end/
1 0 Frame|code 1 1 1/inlet 2 1/thread 1/stop/thread 1/ret 0 2/stop/end/
1 0 Frame|code 2 1 3/inlet 2 1/thread 1/stop/thread 1/ret 0 2/stop/end/
none|code 1 64 3/inlet 2 1/thread 1/stop/thread 1/ret 0 2/stop/end/
1 0 Frame|code 1 65 3/inlet 2 1/thread 1/stop/thread 1/ret 0 2/stop/end/
1 1 Slot|code 1 1 3/inlet 3 1/thread 1/stop/thread 1/ret 0 2/stop/end/
1 1 Thread|code 1 1 3/inlet 2 2/thread 1/stop/thread 1/ret 0 2/stop/end/
1 1 Slot|code 1 1 3/inlet 3 2/thread 1/stop/thread 1/ret 0 2/stop/end/
1 4 Frame|code 1 1 3/inlet 2 1/thread 1/stop/thread 0/ret 0 2/stop/end/
none|code 1 1 3/inlet 2 1/thread 1/stop/thread 65535/ret 0 2/stop/end/
1 4 Frame|code 1 1 3/inlet 2 1/thread 1/stop/thread 65536/ret 0 2/stop/end/";

#[test]
fn heads_and_inlets_are_checked(rt: HostRuntime) -> Result<(), Fail> {
    for row in HEADS.lines() {
        let (wanted, lines) = row.split_once('|').ok_or("a row")?;
        assert_eq!(rt; told(rt.alloc(), 1, lines)?.as_str(), wanted, "of {lines}");
    }
    // That `main` isn't there is told at code 0.
    let lines = "code 1 1 1/inlet 2 1/thread 1/stop/thread 1/ret 0 2/stop/end/";
    assert_eq!(rt; told(rt.alloc(), 2, lines)?.as_str(), "0 0 Main");
    Ok(())
}

// Code 0 has two results, code 1 has one, and behind inlet 0 of code 1 there is none.
const INSTRUCTIONS: &str = "none|imm 2 -1
1 5 Slot|imm 3 0
1 5 Slot|mov 2 3
none|add 2 2 2
1 5 Slot|add 2 2 3
none|fork 1
1 5 Thread|fork 2
none|switch 2 1 0
1 5 Slot|switch 3 2 0
1 5 Thread|switch 2 1 2
1 5 Inlet|falloc 0 0
1 5 Inlet|falloc 1 0
1 5 Callee|falloc 2 0
1 5 Inlet|falloc 2 1
none|send 2 63 2
1 5 Inlet|send 2 64 2
1 5 Slot|send 3 64 2
1 5 Place|ret 1 2
1 5 Slot|ret 1 3
none|ialloc 2 0
1 5 Inlet|ialloc 2 1
none|ifetch 2 2 0 1023
1 5 Slot|ifetch 2 3 1 0
1 5 Inlet|ifetch 2 2 1 1024
1 5 Place|ifetch 2 2 0 1024
1 5 Slot|istore 2 2 3 0
1 5 Place|istore 2 2 2 1024
none|skip 4294967295";

#[test]
fn instructions_are_checked(rt: HostRuntime) -> Result<(), Fail> {
    for row in INSTRUCTIONS.lines() {
        let (wanted, instr) = row.split_once('|').ok_or("a row")?;
        let lines = format!(in rt.alloc();
            "code 1 1 3/inlet 2 1/thread 1/stop/thread 1/{instr}/stop/end/"
        )?;
        assert_eq!(rt;
            told(rt.alloc(), 1, lines.as_str())?.as_str(),
            wanted,
            "of {instr}"
        );
    }
    Ok(())
}

// With room for its one result behind the inlet of the answer, a code may call itself.
#[test]
fn a_program_is_handed_on_or_back(rt: HostRuntime) -> Result<(), Fail> {
    let text =
        b"tl0 2\ncodes 1 main 0\ncode 0 1 3\ninlet 2 0\ninlet 2 0\nthread 1\nfalloc 0 0\nstop\nend\n";
    let program = read0(rt.alloc(), text)?;
    assert!(rt; check0(program).is_ok_and(|checked| checked.program().codes().len() == 1));

    let lines = "code 1 1 0/inlet 2 1/thread 1/stop/thread 1/ret 0 2/stop/end/";
    let refused = check0(program_of(rt.alloc(), 1, lines)?).err();
    let (program, _) = refused.ok_or("accepted")?;
    assert_eq!(rt; program.codes().len(), 2);
    assert_eq!(rt; program.codes()[1].slots(), 0);
    Ok(())
}
