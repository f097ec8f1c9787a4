// An operand of an instruction, as it is written.

/// An operand. Signed numbers are words, in which a negative one stands as its two's complement.
///
/// docs/MACHINE.md, "Assembly text".
#[derive(Clone, Copy, Debug, PartialEq, Eq)]
pub enum Operand {
    Register(u32),
    Number(u32),
    Signed(u32),
    /// A signed number, and the register to whose word it is added.
    Address(u32, u32),
}
