// A branch.
ghost use Rattle.std.specs.Prelude.{◌≡◌};
ghost use Rattle.rv_inst.specs.Rows.{branch_funct};
ghost use Rattle.rv_inst.specs.Lookup.{branch_name_of};

/// A branch.
#[derive(Clone, Copy, Debug, PartialEq, Eq)]
pub enum BranchName {
    Beq,
    Bne,
    Blt,
    Bge,
    Bltu,
    Bgeu,
}

/// How a branch is encoded.
#[derive(Clone, Copy)]
pub struct BranchRow {
    pub name: BranchName,
    pub funct3: u32,
}

/// A row for each `BranchName`, in its order.
///
/// The RISC-V Instruction Set Manual, Volume I, version 20191213, "RV32/64G Instruction Set Listings".
#[rattlefmt::skip]
pub const BRANCH_ROWS: [BranchRow; 6] = [
    BranchRow { name: BranchName::Beq,  funct3: 0b000 },
    BranchRow { name: BranchName::Bne,  funct3: 0b001 },
    BranchRow { name: BranchName::Blt,  funct3: 0b100 },
    BranchRow { name: BranchName::Bge,  funct3: 0b101 },
    BranchRow { name: BranchName::Bltu, funct3: 0b110 },
    BranchRow { name: BranchName::Bgeu, funct3: 0b111 },
];

impl BranchName {
    /// The row that encodes the instruction.
    pub(crate) fn row(self) -> BranchRow
        ensures own { result.name ≡ self }
        ensures value { result.funct3 ≡ branch_funct self }
    {
        BRANCH_ROWS[self as usize]
    }

    /// The instruction with this function field.
    pub(crate) fn of_fields(funct3: u32) -> Option<BranchName>
        ensures value { result ≡ branch_name_of funct3 }
    {
        BRANCH_ROWS
            .iter()
            .find(|row| row.funct3 == funct3)
            .map(|row| row.name)
    }
}
