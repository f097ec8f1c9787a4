// A load.
ghost use Rattle.std.specs.Prelude.{◌≡◌};
ghost use Rattle.rv_inst.specs.Rows.{load_funct};
ghost use Rattle.rv_inst.specs.Lookup.{load_name_of};

/// A load.
#[derive(Clone, Copy, Debug, PartialEq, Eq)]
pub enum LoadName {
    Lb,
    Lh,
    Lw,
    Lbu,
    Lhu,
}

/// How a load is encoded.
#[derive(Clone, Copy)]
pub struct LoadRow {
    pub name: LoadName,
    pub funct3: u32,
}

/// A row for each `LoadName`, in its order.
///
/// The RISC-V Instruction Set Manual, Volume I, version 20191213, "RV32/64G Instruction Set Listings".
#[rattlefmt::skip]
pub const LOAD_ROWS: [LoadRow; 5] = [
    LoadRow { name: LoadName::Lb,  funct3: 0b000 },
    LoadRow { name: LoadName::Lh,  funct3: 0b001 },
    LoadRow { name: LoadName::Lw,  funct3: 0b010 },
    LoadRow { name: LoadName::Lbu, funct3: 0b100 },
    LoadRow { name: LoadName::Lhu, funct3: 0b101 },
];

impl LoadName {
    /// The row that encodes the instruction.
    pub(crate) fn row(self) -> LoadRow
        ensures own { result.name ≡ self }
        ensures value { result.funct3 ≡ load_funct self }
    {
        LOAD_ROWS[self as usize]
    }

    /// The instruction with this function field.
    pub(crate) fn of_fields(funct3: u32) -> Option<LoadName>
        ensures value { result ≡ load_name_of funct3 }
    {
        LOAD_ROWS
            .iter()
            .find(|row| row.funct3 == funct3)
            .map(|row| row.name)
    }
}
