// Why bytes are no image file.
ghost use Rattle.std.specs.Prelude.{◌≡◌};
ghost use Rattle.rv_image.specs.declared.image_error.ImageError.TheVariants.{NoMemory as Wants_memory};

use std::alloc::{AllocError, AllocFailed};
use thiserror::Error;

/// What is wrong in an image file.
///
/// docs/MACHINE.md, "Image file".
#[derive(Clone, Copy, Debug, PartialEq, Eq)]
pub enum ImageCause {
    Magic,
    Version,
    Size,
    Stride,
    Params,
    Results,
}

/// Why an image file was not read. A byte counts from 0.
#[derive(Clone, Copy, Debug, PartialEq, Eq, Error)]
pub enum ImageError {
    #[error("byte {at} {cause:?}")]
    Bad { at: u32, cause: ImageCause },
    #[error("NoMemory")]
    NoMemory,
}

impl From<AllocError> for ImageError {
    ghost from_gives = { λ _ error. error ≡ Wants_memory };

    fn from(_error: AllocError) -> ImageError {
        ImageError::NoMemory
    }
}

impl<T: Drop> From<AllocFailed<T>> for ImageError {
    ghost from_gives = { λ _ error. error ≡ Wants_memory };

    fn from(_failed: AllocFailed<T>) -> ImageError {
        ImageError::NoMemory
    }
}
