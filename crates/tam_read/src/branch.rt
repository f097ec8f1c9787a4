//! A block that is open while a code is built.

/// An open block, and the cond whose branch it is.
#[derive(Clone, Copy)]
pub struct Branch {
    pub block: u32,
    pub cond: u32,
}
