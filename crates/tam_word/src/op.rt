// The operators on two words.
ghost use Rattle.std.specs.Prelude.{◌≡◌, ◌↔◌, Some};
ghost use Rattle.std.specs.Int.{w32, cast_signed};
ghost use Rattle.tam_word.specs.Words.{meaning};
ghost use Rattle.tam_word.specs.OpNames.{op_name};

/// An operator on two words, in the order of its public table.
#[derive(Clone, Copy, Debug, PartialEq, Eq)]
pub enum Op {
    Add,
    Sub,
    Mul,
    Div,
    Divu,
    Rem,
    Remu,
    And,
    Or,
    Xor,
    Sll,
    Srl,
    Sra,
    Slt,
    Sltu,
    Eq,
}

/// Every operator, in the order of `Op`.
#[rattlefmt::skip]
pub const OPS: [Op; 16] = [
    Op::Add, Op::Sub, Op::Mul, Op::Div, Op::Divu, Op::Rem, Op::Remu, Op::And,
    Op::Or, Op::Xor, Op::Sll, Op::Srl, Op::Sra, Op::Slt, Op::Sltu, Op::Eq,
];

// The word as a signed number.
fn signed(word: u32) -> i32
    ensures value { result ≡ cast_signed w32 word }
{
    word.cast_signed()
}

/// The word that an operator gives for two words.
///
/// The RISC-V Instruction Set Manual, Volume I, version 20191213, sections "Integer Register-Register Operations",
/// "Multiplication Operations" and "Division Operations"; `Eq` is our own (docs/FORMATS.md, "Operators").
pub fn apply(op: Op, a: u32, b: u32) -> u32
    ensures value { result ≡ meaning op a b }
{
    match op {
        Op::Add => a.wrapping_add(b),
        Op::Sub => a.wrapping_sub(b),
        Op::Mul => a.wrapping_mul(b),
        Op::Div => {
            if b == 0 {
                u32::MAX
            } else {
                signed(a).wrapping_div(signed(b)).cast_unsigned()
            }
        }
        Op::Divu => { if b == 0 { u32::MAX } else { a / b } }
        Op::Rem => {
            if b == 0 {
                a
            } else {
                signed(a).wrapping_rem(signed(b)).cast_unsigned()
            }
        }
        Op::Remu => { if b == 0 { a } else { a % b } }
        Op::And => a & b,
        Op::Or => a | b,
        Op::Xor => a ^ b,
        Op::Sll => a.wrapping_shl(b),
        Op::Srl => a.wrapping_shr(b),
        Op::Sra => signed(a).wrapping_shr(b).cast_unsigned(),
        Op::Slt => u32::from(signed(a) < signed(b)),
        Op::Sltu => u32::from(a < b),
        Op::Eq => u32::from(a == b),
    }
}

/// The name of an operator.
///
/// docs/FORMATS.md, "Operators".
pub fn op_name(op: Op) -> &'static [u8]
    ensures value { result.now ≡ op_name op }
{
    match op {
        Op::Add => b"add",
        Op::Sub => b"sub",
        Op::Mul => b"mul",
        Op::Div => b"div",
        Op::Divu => b"divu",
        Op::Rem => b"rem",
        Op::Remu => b"remu",
        Op::And => b"and",
        Op::Or => b"or",
        Op::Xor => b"xor",
        Op::Sll => b"sll",
        Op::Srl => b"srl",
        Op::Sra => b"sra",
        Op::Slt => b"slt",
        Op::Sltu => b"sltu",
        Op::Eq => b"eq",
    }
}

/// The operator of such a name.
pub fn op_of(name: &[u8]) -> Option<Op>
    ensures value { (op : Op) → (result ≡ Some op) ↔ (name.now ≡ op_name op) }
{
    for op in &OPS {
        if name == op_name(*op) {
            return Some(*op);
        }
    }
    None
}

#[cfg(test)]
mod tests {
    use super::*;

    // Worked by hand; the divisions at the edges are those of the manual's table "Semantics for division by zero and division overflow".
    #[test]
    fn operators_at_their_edges(rt: HostRuntime) {
        let least = 0x8000_0000;
        let minus_one = 0xffff_ffff;
        let cases = [
            (Op::Div, least, minus_one, least),
            (Op::Rem, least, minus_one, 0),
            (Op::Div, 7, 0, minus_one),
            (Op::Divu, 7, 0, minus_one),
            (Op::Rem, 7, 0, 7),
            (Op::Remu, 7, 0, 7),
            (Op::Div, 0xffff_fff9, 2, 0xffff_fffd),
            (Op::Rem, 0xffff_fff9, 2, minus_one),
            (Op::Sll, 1, 33, 2),
            (Op::Srl, least, 33, 0x4000_0000),
            (Op::Sra, least, 33, 0xc000_0000),
            (Op::Slt, least, 1, 1),
            (Op::Sltu, least, 1, 0),
            (Op::Sub, 0, 1, minus_one),
            (Op::Mul, 0x1_0001, 0x1_0001, 0x2_0001),
            (Op::Eq, 5, 5, 1),
        ];
        for (op, a, b, word) in cases {
            assert_eq!(rt; apply(op, a, b), word, "{op:?} of {a:#x} and {b:#x}");
        }
    }

    #[test]
    fn names_and_operators(rt: HostRuntime) {
        for op in OPS {
            assert_eq!(rt; op_of(op_name(op)), Some(op));
        }
        assert_eq!(rt; op_of(b"sltu"), Some(Op::Sltu));
        assert_eq!(rt; op_of(b"sltiu"), None);
        assert_eq!(rt; op_of(b""), None);
    }
}
