//! Image files: RV32IM machine code as bytes, both ways.
//!
//! Over the crates of words, of the edge and of instructions. The assembler, the machine and the code generator stand on this crate.
//! Read `specs/ImageFiles.antt` first: which bytes are an image's, and what is the first fault of others. Then `src/image.rt`.
//! Of use by itself: what is written reads as itself, and every other file is refused for its first fault.
#![tactic(auto)]

mod image;
mod image_error;
pub mod laws;
mod reader;
mod writer;

pub use image::{Image, MAX_PLACES, MAX_WORDS, MIN_STRIDE, is_stride};
pub use image_error::{ImageCause, ImageError};
pub use reader::read_image;
pub use writer::write_image;
