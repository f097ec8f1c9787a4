// The opcode of a word: its low 7 bits.
ghost use Rattle.std.specs.Prelude.{◌≡◌};
ghost use Rattle.rv_inst.specs.Rows.{code};
ghost use Rattle.rv_inst.specs.Lookup.{opcode_of};

/// What the low 7 bits of a word say, under the names of the standard's map of opcodes.
#[derive(Clone, Copy, Debug, PartialEq, Eq)]
pub enum Opcode {
    Load,
    MiscMem,
    OpImm,
    Auipc,
    Store,
    Op,
    Lui,
    Branch,
    Jalr,
    Jal,
    System,
}

/// The bits of an opcode.
#[derive(Clone, Copy)]
pub struct OpcodeRow {
    pub opcode: Opcode,
    pub code: u32,
}

/// A row for each `Opcode`, in its order.
///
/// The RISC-V Instruction Set Manual, Volume I, version 20191213, "RV32/64G Instruction Set Listings".
#[rattlefmt::skip]
pub const OPCODE_ROWS: [OpcodeRow; 11] = [
    OpcodeRow { opcode: Opcode::Load,    code: 0b000_0011 },
    OpcodeRow { opcode: Opcode::MiscMem, code: 0b000_1111 },
    OpcodeRow { opcode: Opcode::OpImm,   code: 0b001_0011 },
    OpcodeRow { opcode: Opcode::Auipc,   code: 0b001_0111 },
    OpcodeRow { opcode: Opcode::Store,   code: 0b010_0011 },
    OpcodeRow { opcode: Opcode::Op,      code: 0b011_0011 },
    OpcodeRow { opcode: Opcode::Lui,     code: 0b011_0111 },
    OpcodeRow { opcode: Opcode::Branch,  code: 0b110_0011 },
    OpcodeRow { opcode: Opcode::Jalr,    code: 0b110_0111 },
    OpcodeRow { opcode: Opcode::Jal,     code: 0b110_1111 },
    OpcodeRow { opcode: Opcode::System,  code: 0b111_0011 },
];

impl Opcode {
    /// The row with the opcode's bits.
    pub(crate) fn row(self) -> OpcodeRow
        ensures own { result.opcode ≡ self }
        ensures value { result.code ≡ code self }
    {
        match self {
            Opcode::Load => OPCODE_ROWS[0],
            Opcode::MiscMem => OPCODE_ROWS[1],
            Opcode::OpImm => OPCODE_ROWS[2],
            Opcode::Auipc => OPCODE_ROWS[3],
            Opcode::Store => OPCODE_ROWS[4],
            Opcode::Op => OPCODE_ROWS[5],
            Opcode::Lui => OPCODE_ROWS[6],
            Opcode::Branch => OPCODE_ROWS[7],
            Opcode::Jalr => OPCODE_ROWS[8],
            Opcode::Jal => OPCODE_ROWS[9],
            Opcode::System => OPCODE_ROWS[10],
        }
    }

    /// The opcode with these bits.
    pub(crate) fn of_code(code: u32) -> Option<Opcode>
        ensures value { result ≡ opcode_of code }
    {
        OPCODE_ROWS
            .iter()
            .find(|row| row.code == code)
            .map(|row| row.opcode)
    }
}
