// What a line behind the head says.
use crate::jump::Jump;

/// A word, or a jump to a label, which has its word once the label is known.
#[derive(Clone, Copy)]
pub enum Code<'t> {
    Word(u32),
    Goto(Jump, &'t [u8]),
}

/// A label, or what has a word.
#[derive(Clone, Copy)]
pub enum Statement<'t> {
    Label(&'t [u8]),
    Code(Code<'t>),
}
