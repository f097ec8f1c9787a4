//! The machine code of checked thread code: each thread by the expansions of its instructions, the kernel before them, and the tables behind.
//!
//! Over the crates of thread code and its check, of RV32IM instructions, of image files, and of the definitions of machine code (`rv_keep`).
//! Read `specs/Image.antt` of `rv_keep` first: it says word by word what is made. Then `src/generator.rt`.
#![tactic(auto)]

mod expansions;
mod frame_record;
mod generator;
mod insts;
mod kernel;
mod lengths;
mod records;
mod threads;

pub use generator::generate;
pub use lengths::image_words;
