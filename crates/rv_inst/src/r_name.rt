// An instruction on two registers.
ghost use Rattle.std.specs.Prelude.{◌≡◌};
ghost use Rattle.rv_inst.specs.Rows.{funct};
ghost use Rattle.rv_inst.specs.Lookup.{r_name_of};

/// An instruction on two registers.
#[derive(Clone, Copy, Debug, PartialEq, Eq)]
pub enum RName {
    Add,
    Sub,
    Sll,
    Slt,
    Sltu,
    Xor,
    Srl,
    Sra,
    Or,
    And,
    Mul,
    Mulh,
    Mulhsu,
    Mulhu,
    Div,
    Divu,
    Rem,
    Remu,
}

/// How an instruction on two registers is encoded.
#[derive(Clone, Copy)]
pub struct RRow {
    pub name: RName,
    pub funct7: u32,
    pub funct3: u32,
}

/// A row for each `RName`, in its order.
///
/// The RISC-V Instruction Set Manual, Volume I, version 20191213, "RV32/64G Instruction Set Listings".
#[rattlefmt::skip]
pub const R_ROWS: [RRow; 18] = [
    RRow { name: RName::Add,    funct7: 0b000_0000, funct3: 0b000 },
    RRow { name: RName::Sub,    funct7: 0b010_0000, funct3: 0b000 },
    RRow { name: RName::Sll,    funct7: 0b000_0000, funct3: 0b001 },
    RRow { name: RName::Slt,    funct7: 0b000_0000, funct3: 0b010 },
    RRow { name: RName::Sltu,   funct7: 0b000_0000, funct3: 0b011 },
    RRow { name: RName::Xor,    funct7: 0b000_0000, funct3: 0b100 },
    RRow { name: RName::Srl,    funct7: 0b000_0000, funct3: 0b101 },
    RRow { name: RName::Sra,    funct7: 0b010_0000, funct3: 0b101 },
    RRow { name: RName::Or,     funct7: 0b000_0000, funct3: 0b110 },
    RRow { name: RName::And,    funct7: 0b000_0000, funct3: 0b111 },
    RRow { name: RName::Mul,    funct7: 0b000_0001, funct3: 0b000 },
    RRow { name: RName::Mulh,   funct7: 0b000_0001, funct3: 0b001 },
    RRow { name: RName::Mulhsu, funct7: 0b000_0001, funct3: 0b010 },
    RRow { name: RName::Mulhu,  funct7: 0b000_0001, funct3: 0b011 },
    RRow { name: RName::Div,    funct7: 0b000_0001, funct3: 0b100 },
    RRow { name: RName::Divu,   funct7: 0b000_0001, funct3: 0b101 },
    RRow { name: RName::Rem,    funct7: 0b000_0001, funct3: 0b110 },
    RRow { name: RName::Remu,   funct7: 0b000_0001, funct3: 0b111 },
];

impl RName {
    /// The row that encodes the instruction.
    pub(crate) fn row(self) -> RRow
        ensures own { result.name ≡ self }
        ensures value { (result.funct7, result.funct3) ≡ funct self }
    {
        R_ROWS[self as usize]
    }

    /// The instruction with these function fields.
    pub(crate) fn of_fields(funct7: u32, funct3: u32) -> Option<RName>
        ensures value { result ≡ r_name_of funct7 funct3 }
    {
        R_ROWS
            .iter()
            .find(|row| row.funct7 == funct7 && row.funct3 == funct3)
            .map(|row| row.name)
    }
}
