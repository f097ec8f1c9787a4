// Rows over files and a sink in memory: each mode once, each status once, each kind of end. More rows stand in tests/cases, for the built program.
mod graphs;
mod images;
mod refusals;
mod threads;

use crate::top::tam;
use std::process::Abort;
use std::test::Fail;
use tam_edge::{MemFiles, MemSink};

/// The sum of two words.
pub const ADD: &[u8] = b"dg 1\ncode main\na = param 0\nb = param 1\ns = add a b\nresult 0 s\nend\n";

/// A graph without vertices.
pub const EMPTY: &[u8] = b"dg 1\ncode main\nend\n";

/// What the sink took of a call, the status, and the steps of the machine that was handed out.
#[derive(Drop)]
pub struct Run {
    pub taken: Vec<u8>,
    pub status: u8,
    pub steps: Option<u64>,
}

/// Words, the bytes of the file `f`, and what has to come of them.
#[derive(Drop)]
pub struct Case {
    pub words: &'static [&'static str],
    pub file: &'static [u8],
    pub taken: &'static [u8],
    pub status: u8,
    pub steps: Option<u64>,
}

/// Calls the program with the words over the file `f`, with a sink whose writes of these numbers fail.
pub fn call<R: AllocGlobal>(
    rt: &R,
    words: &[&str],
    file: &[u8],
    fail: &[u32],
) -> Result<Run, Fail> {
    let alloc = rt.alloc();
    let mut held = Vec::new(alloc);
    held.push((String::from_str(alloc, "f")?, Vec::from_slice(alloc, file)?))?;
    let mut own = Vec::new(alloc);
    for word in words {
        own.push(String::from_str(alloc, word)?)?;
    }
    let mut files = MemFiles::new(alloc, held, Vec::new(alloc));
    let mut out = MemSink::new(alloc, 4096, Vec::from_slice(alloc, fail)?)?;
    let mut machine = None;
    let status = tam(alloc, &own, &mut files, &mut machine, &mut out);
    Ok(Run {
        taken: Vec::from_slice(alloc, out.bytes())?,
        status: status.code,
        steps: machine.map(|rv| rv.steps()),
    })
}

/// Runs each case, and compares what came of it.
pub fn check_all<R: Abort + AllocGlobal>(rt: &R, cases: &[Case]) -> Result<(), Fail> {
    for case in cases {
        let came = call(rt, case.words, case.file, &[])?;
        assert_eq!(rt; came.taken.as_slice(), case.taken);
        assert_eq!(rt; came.status, case.status);
        assert_eq!(rt; came.steps, case.steps);
    }
    Ok(())
}
