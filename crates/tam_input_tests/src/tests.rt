// What is read, over files in memory, by the rules of docs/FORMATS.md, "Command line".
use std::process::Abort;
use std::test::Fail;
use tam_edge::MemFiles;
use tam_input::{Refusal, read_input};
use tam_words::UsageCause;

// Words, the texts of the files `f` and `o`, the numbers of the reads that fail; the bytes that are read of the file, or what is told.
#[derive(Drop)]
struct Case {
    words: &'static [&'static str],
    text: &'static [u8],
    order: &'static [u8],
    fail: &'static [u32],
    read: Result<&'static [u8], Refusal>,
}

fn check<R: Abort + AllocGlobal>(rt: &R, case: &Case) -> Result<(), Fail> {
    let alloc = rt.alloc();
    let mut held = Vec::new(alloc);
    held.push((
        String::from_str(alloc, "f")?,
        Vec::from_slice(alloc, case.text)?,
    ))?;
    held.push((
        String::from_str(alloc, "o")?,
        Vec::from_slice(alloc, case.order)?,
    ))?;
    let mut words = Vec::new(alloc);
    for word in case.words {
        words.push(String::from_str(alloc, word)?)?;
    }
    let mut files = MemFiles::new(alloc, held, Vec::from_slice(alloc, case.fail)?);
    match (read_input(alloc, &words, &mut files), case.read) {
        (Ok(input), Ok(bytes)) => assert!(rt; &*input.text == bytes, "at {:?}", case.words),
        (Err(told), Err(expected)) => {
            assert!(rt; told == expected, "at {:?}", case.words);
        }
        _ => assert!(rt; false, "at {:?}", case.words),
    }
    Ok(())
}

#[test]
fn files_are_read_in_order(rt: HostRuntime) -> Result<(), Fail> {
    let cases = [
        Case {
            words: &["check", "f"],
            text: b"dg 1\n",
            order: b"",
            fail: &[],
            read: Ok(b"dg 1\n"),
        },
        Case {
            words: &["graph", "f", "--order-file=o"],
            text: b"dg 1\n",
            order: b"r\n0\n",
            fail: &[],
            read: Ok(b"dg 1\n"),
        },
        // The file is its own order file: nothing is left of it.
        Case {
            words: &["graph", "o", "--order-file=o"],
            text: b"",
            order: b"r,0",
            fail: &[],
            read: Ok(b""),
        },
        Case {
            words: &["graph", "f", "--order-file=o"],
            text: b"dg 1\n",
            order: b"r\nx",
            fail: &[],
            read: Err(Refusal::Usage(UsageCause::Order)),
        },
        Case {
            words: &["graph", "gone", "--order-file=o"],
            text: b"dg 1\n",
            order: b"x",
            fail: &[],
            read: Err(Refusal::Usage(UsageCause::Order)),
        },
        Case {
            words: &["graph", "gone"],
            text: b"dg 1\n",
            order: b"",
            fail: &[],
            read: Err(Refusal::NotRead),
        },
        Case {
            words: &["graph", "f", "--order-file=o"],
            text: b"dg 1\n",
            order: b"r",
            fail: &[1],
            read: Err(Refusal::NotRead),
        },
        // What is made is read of no file, also where there is one of the name.
        Case {
            words: &["make", "ladder", "1"],
            text: b"dg 1\n",
            order: b"",
            fail: &[1],
            read: Ok(b""),
        },
        Case {
            words: &["make", "f", "1"],
            text: b"dg 1\n",
            order: b"",
            fail: &[],
            read: Err(Refusal::Usage(UsageCause::Shape)),
        },
        Case {
            words: &["make", "wave", "61"],
            text: b"dg 1\n",
            order: b"",
            fail: &[],
            read: Err(Refusal::Usage(UsageCause::Count)),
        },
        Case {
            words: &["graph", "gone", "--frames=0"],
            text: b"dg 1\n",
            order: b"",
            fail: &[],
            read: Err(Refusal::Usage(UsageCause::Frames)),
        },
    ];
    for case in &cases {
        check(&rt, case)?;
    }
    Ok(())
}
