//! Runs a dataflow graph: the program around the top call.
//!
//! Over the crates of runs, of thread code and of machine code, the readers of words and files, the large inputs, and the assembler.
//! Read `specs/Headline.antt` first: what the top call makes sure of. Then `src/top.rt`.
#![tactic(auto)]

mod answer;
mod assembly;
mod code_line;
mod code_run;
mod graph_run;
mod graph_text;
mod image_run;
mod image_text;
mod made;
mod outcome;
mod refusal;
mod say;
mod status;
#[cfg(test)]
mod tests;
mod thread_text;
mod top;

use std::env;
use std::io::ErrorKind;
use std::process::ExitCode;
use tam_edge::{HostFiles, HostSink};
use tam_input::Ending;
use top::tam;

fn main(rt: HostRuntime) -> ExitCode {
    let alloc = rt.alloc();
    let args = match env::args(&rt) {
        Ok(args) => args,
        Err(error) if error.kind() == ErrorKind::OutOfMemory => return exit(Ending::NoMemory),
        Err(_) => return exit(Ending::NoWords),
    };
    let mut words = Vec::new(alloc);
    for word in args.skip(1) {
        if words.push(word).is_err() {
            return exit(Ending::NoMemory);
        }
    }
    let Ok(for_files) = rt.clone() else {
        return exit(Ending::NoMemory);
    };
    let Ok(for_sink) = rt.clone() else {
        return exit(Ending::NoMemory);
    };
    let mut files = HostFiles::new(for_files, alloc);
    let mut out = HostSink::new(for_sink);
    let mut machine = None;
    ExitCode::from(tam(alloc, &words, &mut files, &mut machine, &mut out).code)
}

fn exit(ending: Ending) -> ExitCode {
    ExitCode::from(ending.code())
}
