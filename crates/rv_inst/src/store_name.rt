// A store.
ghost use Rattle.std.specs.Prelude.{◌≡◌};
ghost use Rattle.rv_inst.specs.Rows.{store_funct};
ghost use Rattle.rv_inst.specs.Lookup.{store_name_of};

/// A store.
#[derive(Clone, Copy, Debug, PartialEq, Eq)]
pub enum StoreName {
    Sb,
    Sh,
    Sw,
}

/// How a store is encoded.
#[derive(Clone, Copy)]
pub struct StoreRow {
    pub name: StoreName,
    pub funct3: u32,
}

/// A row for each `StoreName`, in its order.
///
/// The RISC-V Instruction Set Manual, Volume I, version 20191213, "RV32/64G Instruction Set Listings".
#[rattlefmt::skip]
pub const STORE_ROWS: [StoreRow; 3] = [
    StoreRow { name: StoreName::Sb, funct3: 0b000 },
    StoreRow { name: StoreName::Sh, funct3: 0b001 },
    StoreRow { name: StoreName::Sw, funct3: 0b010 },
];

impl StoreName {
    /// The row that encodes the instruction.
    pub(crate) fn row(self) -> StoreRow
        ensures own { result.name ≡ self }
        ensures value { result.funct3 ≡ store_funct self }
    {
        STORE_ROWS[self as usize]
    }

    /// The instruction with this function field.
    pub(crate) fn of_fields(funct3: u32) -> Option<StoreName>
        ensures value { result ≡ store_name_of funct3 }
    {
        STORE_ROWS
            .iter()
            .find(|row| row.funct3 == funct3)
            .map(|row| row.name)
    }
}
