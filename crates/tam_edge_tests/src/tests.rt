// Files and sinks in memory and of the system, each at work and at a failing call.
use std::alloc::{AllocError, Global};
use std::fs;
use std::test::Fail;
use tam_edge::*;

// The files `graph` and `order`, and a second `graph` that is never read.
fn three_files(alloc: Global, fail: &[u32]) -> Result<MemFiles, AllocError> {
    let mut files = Vec::new(alloc);
    for (name, text) in [("graph", "hello"), ("order", "r,0"), ("graph", "other")] {
        let name = String::from_str(alloc, name)?;
        files.push((name, Vec::from_slice(alloc, text.as_bytes())?))?;
    }
    Ok(MemFiles::new(alloc, files, Vec::from_slice(alloc, fail)?))
}

#[test]
fn chosen_reads_fail(rt: HostRuntime) -> Result<(), Fail> {
    let mut files = three_files(rt.alloc(), &[3])?;
    let cases: [(&str, Result<usize, FileError>, &[u8]); 8] = [
        ("graph", Ok(4), b"hell"),
        ("order", Ok(3), b"r,0l"),
        ("graph", Err(FileError::Failed), b"r,0l"),
        ("graph", Ok(1), b"o,0l"),
        ("graph", Ok(0), b"o,0l"),
        ("gone", Err(FileError::Failed), b"o,0l"),
        ("gone", Err(FileError::Failed), b"o,0l"),
        ("order", Ok(0), b"o,0l"),
    ];
    let mut piece = [0; 4];
    for (name, given, bytes) in cases {
        assert_eq!(rt; files.read(name, &mut piece), given, "of {name}");
        assert_eq!(rt; piece.as_slice(), bytes, "of {name}");
    }
    Ok(())
}

#[test]
fn chosen_writes_fail(rt: HostRuntime) -> Result<(), Fail> {
    let alloc = rt.alloc();
    let mut sink = MemSink::new(alloc, 8, Vec::from_slice(alloc, &[2])?)?;
    let cases: [(&[u8], Result<usize, Failed>, &[u8]); 4] = [
        (b"hello", Ok(5), b"hello"),
        (b"world", Err(Failed), b"hello"),
        (b"world", Ok(3), b"hellowor"),
        (b"l", Err(Failed), b"hellowor"),
    ];
    for (piece, taken, bytes) in cases {
        if !piece.is_empty() {
            assert_eq!(rt; sink.put(piece), taken);
        }
        assert_eq!(rt; sink.bytes(), bytes);
    }
    Ok(())
}

// At most one byte, at most three, and what fits. The second call of each fails, and the end is told once.
#[test]
fn files_are_read_in_pieces(rt: HostRuntime) -> Result<(), Fail> {
    let failed = Err(FileError::Failed);
    let cases: [(u32, &[Result<usize, FileError>], &[u8]); 3] = [
        (
            1,
            &[Ok(1), failed, Ok(1), Ok(1), Ok(1), Ok(1), Ok(0)],
            b"o---",
        ),
        (3, &[Ok(3), failed, Ok(2), Ok(0)], b"lol-"),
        (9, &[Ok(4), failed, Ok(1), Ok(0)], b"oell"),
    ];
    for (most, given, last) in cases {
        let mut files = three_files(rt.alloc(), &[2])?.in_pieces(most);
        let mut piece = *b"----";
        for count in given {
            assert_eq!(rt; files.read("graph", &mut piece), *count, "at most {most}");
        }
        assert_eq!(rt; piece.as_slice(), last, "at most {most}");
    }
    Ok(())
}

#[test]
fn a_sink_takes_pieces(rt: HostRuntime) -> Result<(), Fail> {
    let alloc = rt.alloc();
    let mut sink = MemSink::new(alloc, 8, Vec::from_slice(alloc, &[2])?)?.in_pieces(2);
    let cases: [(&[u8], Result<usize, Failed>, &[u8]); 7] = [
        (b"hello", Ok(2), b"he"),
        (b"llo", Err(Failed), b"he"),
        (b"llo", Ok(2), b"hell"),
        (b"o", Ok(1), b"hello"),
        (b"world", Ok(2), b"hellowo"),
        (b"rld", Ok(1), b"hellowor"),
        (b"ld", Err(Failed), b"hellowor"),
    ];
    for (piece, taken, bytes) in cases {
        if !piece.is_empty() {
            assert_eq!(rt; sink.put(piece), taken);
        }
        assert_eq!(rt; sink.bytes(), bytes);
    }
    Ok(())
}

// Five bytes are five writes, and six reads with the end. Before a failing call there are as many bytes as calls.
#[test]
fn whole_texts_go_byte_by_byte(rt: HostRuntime) -> Result<(), Fail> {
    let alloc = rt.alloc();
    let text = b"hello".as_slice();
    for before in 0..=5usize {
        let fail = [before as u32 + 1];
        let mut sink = MemSink::new(alloc, 5, Vec::from_slice(alloc, &fail)?)?.in_pieces(1);
        let written = if before < 5 { Err(Failed) } else { Ok(()) };
        assert_eq!(rt; write_whole(&mut sink, text), written, "after {before}");
        assert_eq!(rt; sink.bytes(), &text[..before]);

        let mut files = three_files(alloc, &fail)?.in_pieces(1);
        assert_eq!(rt;
            read_whole(alloc, &mut files, "graph", 5),
            Err(ReadError::Fault),
            "after {before}"
        );
        assert_eq!(rt;
            read_whole(alloc, &mut files, "graph", 5)?.as_slice(),
            &text[before..]
        );
    }
    let mut files = three_files(alloc, &[7])?.in_pieces(1);
    assert_eq!(rt; read_whole(alloc, &mut files, "graph", 5)?.as_slice(), text);
    Ok(())
}

#[test]
fn a_file_is_read_whole(rt: HostRuntime) -> Result<(), Fail> {
    let alloc = rt.alloc();
    let mut files = three_files(alloc, &[])?;
    assert_eq!(rt;
        read_whole(alloc, &mut files, "graph", 5)?.as_slice(),
        b"hello".as_slice()
    );
    assert_eq!(rt;
        read_whole(alloc, &mut files, "graph", 5)?.as_slice(),
        b"".as_slice()
    );
    assert_eq!(rt;
        read_whole(alloc, &mut files, "gone", 5),
        Err(ReadError::Fault)
    );
    assert_eq!(rt;
        read_whole(alloc, &mut files, "order", 2),
        Err(ReadError::TooLong)
    );
    Ok(())
}

// Ten thousand bytes are given in pieces, of which the second read fails.
#[test]
fn a_read_fails_in_mid_stream(rt: HostRuntime) -> Result<(), Fail> {
    let alloc = rt.alloc();
    let mut bytes = Vec::new(alloc);
    for i in 0..10_000u32 {
        bytes.push((i % 251) as u8)?;
    }
    let mut held = Vec::new(alloc);
    held.push((String::from_str(alloc, "graph")?, bytes.clone()?))?;
    let mut files = MemFiles::new(alloc, held, Vec::from_slice(alloc, &[2])?);
    assert_eq!(rt;
        read_whole(alloc, &mut files, "graph", 10_000),
        Err(ReadError::Fault)
    );
    let rest = read_whole(alloc, &mut files, "graph", 10_000)?;
    assert!(rt; rest.len() < 10_000, "the first piece is gone");
    assert!(rt; bytes.as_slice().ends_with(rest.as_slice()));
    Ok(())
}

#[test]
fn a_text_is_written_whole(rt: HostRuntime) -> Result<(), Fail> {
    let alloc = rt.alloc();
    let mut sink = MemSink::new(alloc, 12, Vec::from_slice(alloc, &[2])?)?;
    assert_eq!(rt; write_whole(&mut sink, b"result 0\n"), Ok(()));
    assert_eq!(rt; write_whole(&mut sink, b"quiet\n"), Err(Failed));
    assert_eq!(rt; sink.bytes(), b"result 0\n".as_slice());
    assert_eq!(rt; write_whole(&mut sink, b"quiet\n"), Err(Failed));
    assert_eq!(rt; sink.bytes(), b"result 0\nqui".as_slice());
    Ok(())
}

#[test]
fn files_of_the_system_are_read(rt: HostRuntime) -> Result<(), Fail> {
    let alloc = rt.alloc();
    fs::write(&rt, "tam_edge_graph.txt", "dg 1\n")?;
    let mut files = HostFiles::new(rt.clone()?, alloc);
    let text = read_whole(alloc, &mut files, "tam_edge_graph.txt", 100)?;
    assert_eq!(rt; text.as_slice(), b"dg 1\n".as_slice());
    let more = read_whole(alloc, &mut files, "tam_edge_graph.txt", 100)?;
    assert_eq!(rt; more.as_slice(), b"".as_slice(), "it is read on from there");
    assert_eq!(rt;
        read_whole(alloc, &mut files, "tam_edge_gone.txt", 100),
        Err(ReadError::Fault)
    );
    fs::remove_file(&rt, "tam_edge_graph.txt")?;
    Ok(())
}

#[test]
fn standard_output_is_written(rt: HostRuntime) -> Result<(), Fail> {
    let mut sink = HostSink::new(rt.clone()?);
    assert_eq!(rt; write_whole(&mut sink, b"result 0 = 5\nquiet\n"), Ok(()));
    Ok(())
}

#[test]
fn errors_print_their_names(rt: HostRuntime) -> Result<(), Fail> {
    let alloc = rt.alloc();
    assert_eq!(rt;
        format!(in alloc; "{}", FileError::Failed)?.as_str(),
        "Failed"
    );
    assert_eq!(rt;
        format!(in alloc; "{}", FileError::NoMemory)?.as_str(),
        "NoMemory"
    );
    assert_eq!(rt;
        format!(in alloc; "{}", ReadError::Fault)?.as_str(),
        "Fault"
    );
    assert_eq!(rt;
        format!(in alloc; "{}", ReadError::TooLong)?.as_str(),
        "TooLong"
    );
    assert_eq!(rt;
        format!(in alloc; "{}", ReadError::NoMemory)?.as_str(),
        "NoMemory"
    );
    Ok(())
}
