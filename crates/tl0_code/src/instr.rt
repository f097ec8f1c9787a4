// The instructions of threads.

use tam_word::Op;

/// An instruction of a thread. Slots, threads and inlets are those of its own code, but for the inlet of a `Send`, which is the receiver's.
///
/// docs/THREADS.md, "Instructions of threads".
#[derive(Clone, Copy, Debug, PartialEq, Eq)]
pub enum Instr {
    Imm {
        d: u32,
        word: u32,
    },
    Mov {
        d: u32,
        a: u32,
    },
    Op {
        op: Op,
        d: u32,
        a: u32,
        b: u32,
    },
    Fork {
        thread: u32,
    },
    /// Forks `yes` where slot `s` isn't 0, else `no`.
    Switch {
        s: u32,
        yes: u32,
        no: u32,
    },
    /// Asks for a frame of a code; its number comes to the inlet.
    Falloc {
        code: u32,
        inlet: u32,
    },
    /// Sends slot `a` to the inlet of the frame that slot `f` names.
    Send {
        f: u32,
        inlet: u32,
        a: u32,
    },
    /// Sends slot `a` to the caller as result `place`.
    Ret {
        place: u32,
        a: u32,
    },
    Ialloc {
        n: u32,
        inlet: u32,
    },
    Ifetch {
        array: u32,
        index: u32,
        inlet: u32,
        node: u32,
    },
    Istore {
        array: u32,
        index: u32,
        a: u32,
        node: u32,
    },
    /// So many further threads of the frame won't run.
    Skip {
        n: u32,
    },
}
