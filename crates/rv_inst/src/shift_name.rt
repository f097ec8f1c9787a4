// A shift by a number.
ghost use Rattle.std.specs.Prelude.{◌≡◌};
ghost use Rattle.rv_inst.specs.Rows.{shift_funct};
ghost use Rattle.rv_inst.specs.Lookup.{shift_name_of};

/// A shift by a number.
#[derive(Clone, Copy, Debug, PartialEq, Eq)]
pub enum ShiftName {
    Slli,
    Srli,
    Srai,
}

/// How a shift by a number is encoded.
#[derive(Clone, Copy)]
pub struct ShiftRow {
    pub name: ShiftName,
    pub funct7: u32,
    pub funct3: u32,
}

/// A row for each `ShiftName`, in its order.
///
/// The RISC-V Instruction Set Manual, Volume I, version 20191213, "RV32/64G Instruction Set Listings".
#[rattlefmt::skip]
pub const SHIFT_ROWS: [ShiftRow; 3] = [
    ShiftRow { name: ShiftName::Slli, funct7: 0b000_0000, funct3: 0b001 },
    ShiftRow { name: ShiftName::Srli, funct7: 0b000_0000, funct3: 0b101 },
    ShiftRow { name: ShiftName::Srai, funct7: 0b010_0000, funct3: 0b101 },
];

impl ShiftName {
    /// The row that encodes the instruction.
    pub(crate) fn row(self) -> ShiftRow
        ensures own { result.name ≡ self }
        ensures value { (result.funct7, result.funct3) ≡ shift_funct self }
    {
        SHIFT_ROWS[self as usize]
    }

    /// The instruction with these function fields.
    pub(crate) fn of_fields(funct7: u32, funct3: u32) -> Option<ShiftName>
        ensures value { result ≡ shift_name_of funct7 funct3 }
    {
        SHIFT_ROWS
            .iter()
            .find(|row| row.funct7 == funct7 && row.funct3 == funct3)
            .map(|row| row.name)
    }
}
