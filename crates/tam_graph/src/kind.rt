// What the nodes of a code do.
use tam_word::Op;

/// What a node does. Operands are numbers of nodes of the same code, `yes` and `no` are numbers of blocks.
///
/// docs/FORMATS.md, "Node lines".
#[derive(Clone, Copy, Debug, PartialEq, Eq)]
pub enum Kind {
    Param { place: u32 },
    Const { word: u32 },
    Op { op: Op, a: u32, b: u32 },
    Seq { a: u32, b: u32 },
    Call { callee: u32 },
    Arg { call: u32, place: u32, a: u32 },
    Ret { call: u32, place: u32 },
    /// The line `result`.
    Give { place: u32, a: u32 },
    Alloc { len: u32 },
    Fetch { array: u32, index: u32 },
    Store { array: u32, index: u32, a: u32 },
    Cond { test: u32, yes: u32, no: u32 },
    Switch { cond: u32, place: u32, a: u32 },
    Merge { cond: u32, place: u32 },
    /// The line `in`.
    Enter { place: u32 },
    /// The line `out`.
    Leave { place: u32, a: u32 },
}
