//! Assembly text of RV32IM, both ways: an image as its text, and the image of a text.
//!
//! Over the crates of words, of lines and names, of the edge, of instructions and of images.
//! Read `specs/AsmText.antt` first: it is the text of an image; and `specs/Statements.antt`: what a line says. Then `src/printer.rt` and
//! `src/assembler.rt`.
#![tactic(auto)]

mod asm_error;
mod assembler;
mod first_pass;
mod form;
mod head;
mod inst_name;
mod jump;
mod operand;
mod operand_reader;
mod pass;
mod printer;
mod ranges;
mod second_pass;
mod statement;
mod tokens;
mod verb;

pub use asm_error::{AsmCause, AsmError};
pub use assembler::assemble;
pub use operand::Operand;
pub use printer::print_asm;
