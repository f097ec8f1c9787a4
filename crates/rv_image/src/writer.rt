// The file of an image.
ghost use Rattle.std.specs.Prelude.{◌≡◌, IfOk};
ghost use Rattle.rv_image.specs.ImageFiles.{image_bytes};

use crate::Image;
use crate::image::append_words;
use crate::reader::{HEADER_BYTES, MAGIC, VERSION};
use std::alloc::Global;
use tam_edge::NoMemory;

/// The bytes of the image's file.
///
/// docs/MACHINE.md, "Image file".
#[tactic(auto, unfolding(crate::specs::ImageFiles::image_bytes))]
pub fn write_image(alloc: Global, image: &Image) -> Result<Vec<u8>, NoMemory>
    ensures value { IfOk result (λ bytes. bytes.items ≡ image_bytes image.now) }
{
    let count = image.words().len() as u32;
    let header = [
        MAGIC,
        VERSION,
        count,
        image.stride(),
        image.params(),
        image.results(),
    ];
    let size = HEADER_BYTES + 4 * image.words().len();
    let mut bytes = Vec::with_capacity(alloc, size)?;
    append_words(&header, &mut bytes)?;
    image.append_words(&mut bytes)?;
    Ok(bytes)
}
