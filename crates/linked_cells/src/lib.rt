//! Cells of two words and a raw link in one block of memory, and the lists through them.
//!
//! Over no other crate of ours but the one that has `NoMemory`. The frames of activations stand on this crate.
//! Read `specs/Cells.antt`, `specs/Lists.antt` and `specs/Lines.antt`: what the calls do to the
//! cells, and to lists. Then `src/cell_table.rt` and `src/line.rt`.
//!
//! A cell takes 16 bytes, and cell i begins 16 * i bytes into the block:
//!
//! ```text
//!     0        4        8                16
//!     | first  | second | link           |     -> the address of another cell of the block, or of this one
//! ```
//!
//! The block is taken by `CellTable::new` and is not cleared: a cell is written when it is added, and only then can be read. No link is ever tested: a
//! line counts its cells, and of other lists the caller knows how many cells there are. Pointers are made and followed in the five functions of `src/memory.rt`
//! alone; all else copies an address as it stands.
#![tactic(auto)]

mod cell_table;
mod line;
mod memory;
#[cfg(test)]
mod tests;

pub use cell_table::CellTable;
pub use line::Line;
// A crate can name a table in a contract only if the types of its fields are exported.
#[doc(hidden)]
pub use cell_table::Cell;
#[doc(hidden)]
pub use memory::{Address, Deed, Memory};
