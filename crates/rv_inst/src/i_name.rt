// An instruction on a register and an immediate.
ghost use Rattle.std.specs.Prelude.{◌≡◌};
ghost use Rattle.rv_inst.specs.Rows.{imm_funct};
ghost use Rattle.rv_inst.specs.Lookup.{i_name_of};

/// An instruction on a register and an immediate.
#[derive(Clone, Copy, Debug, PartialEq, Eq)]
pub enum IName {
    Addi,
    Slti,
    Sltiu,
    Xori,
    Ori,
    Andi,
}

/// How an instruction on a register and an immediate is encoded.
#[derive(Clone, Copy)]
pub struct IRow {
    pub name: IName,
    pub funct3: u32,
}

/// A row for each `IName`, in its order.
///
/// The RISC-V Instruction Set Manual, Volume I, version 20191213, "RV32/64G Instruction Set Listings".
#[rattlefmt::skip]
pub const I_ROWS: [IRow; 6] = [
    IRow { name: IName::Addi,  funct3: 0b000 },
    IRow { name: IName::Slti,  funct3: 0b010 },
    IRow { name: IName::Sltiu, funct3: 0b011 },
    IRow { name: IName::Xori,  funct3: 0b100 },
    IRow { name: IName::Ori,   funct3: 0b110 },
    IRow { name: IName::Andi,  funct3: 0b111 },
];

impl IName {
    /// The row that encodes the instruction.
    pub(crate) fn row(self) -> IRow
        ensures own { result.name ≡ self }
        ensures value { result.funct3 ≡ imm_funct self }
    {
        I_ROWS[self as usize]
    }

    /// The instruction with this function field.
    pub(crate) fn of_fields(funct3: u32) -> Option<IName>
        ensures value { result ≡ i_name_of funct3 }
    {
        I_ROWS
            .iter()
            .find(|row| row.funct3 == funct3)
            .map(|row| row.name)
    }
}
