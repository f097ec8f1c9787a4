// The lines of thread code as text.

use crate::{Inlet, Instr};

/// A line of the text of a program.
///
/// docs/THREADS.md, "Thread code as text".
#[derive(Clone, Copy, Debug, PartialEq, Eq)]
pub enum CodeLine {
    Version,
    /// How many codes there are, and the number of `main`.
    Counts {
        number: u32,
        main: u32,
    },
    /// A code begins.
    Head {
        params: u32,
        results: u32,
        slots: u32,
    },
    /// The next inlet of the code.
    Into {
        inlet: Inlet,
    },
    /// A thread begins.
    Begins {
        count: u32,
    },
    /// The next instruction of the thread.
    Does {
        instr: Instr,
    },
    /// The thread ends.
    Stops,
    /// The code ends.
    Ends,
}
