// An image from its file.
ghost use Rattle.std.specs.Prelude.{◌≡◌, ◌%◌, IfOk, IfErr, None, length};
ghost use Rattle.rv_inst.specs.Images.{bytes_of_words};
ghost use Rattle.rv_image.specs.ImageFiles.{ReadsImage, fault_of};

use crate::image::{MAX_PLACES, MAX_WORDS, is_stride};
use crate::{Image, ImageCause, ImageError};
use rv_inst::word_at;
use std::alloc::Global;

/// The bytes `TAMI`.
pub const MAGIC: u32 = 0x494d_4154;
/// The version of the format.
pub const VERSION: u32 = 1;
/// The bytes before the words.
pub const HEADER_BYTES: usize = 24;

/// The image of these bytes, or the first fault of a file that is none.
///
/// docs/MACHINE.md, "Image file".
pub fn read_image(alloc: Global, bytes: &[u8]) -> Result<Image, ImageError>
    ensures value { ReadsImage bytes.now result }
{
    match fault_of(bytes) {
        Some((at, cause)) => Err(ImageError::Bad { at, cause }),
        None => read_faultless(alloc, bytes),
    }
}

// The image of a file without a fault.
fn read_faultless(alloc: Global, bytes: &[u8]) -> Result<Image, ImageError>
    requires faultless { fault_of bytes.now ≡ None }
    ensures value { ReadsImage bytes.now result }
{
    let (stride, params, results) = (word_at(bytes, 12), word_at(bytes, 16), word_at(bytes, 20));
    let (_, behind) = bytes.split_at(HEADER_BYTES);
    let words = read_words(alloc, behind)?;
    Ok(Image::of(stride, params, results, words))
}

// The first fault, and the byte at which it stands.
fn fault_of(bytes: &[u8]) -> Option<(u32, ImageCause)>
    ensures value { result ≡ fault_of bytes.now }
{
    if bytes.len() < HEADER_BYTES {
        return Some((8, ImageCause::Size));
    }
    if word_at(bytes, 0) != MAGIC {
        return Some((0, ImageCause::Magic));
    }
    if word_at(bytes, 4) != VERSION {
        return Some((4, ImageCause::Version));
    }
    let count = word_at(bytes, 8);
    if count == 0 || count > MAX_WORDS || bytes.len() != HEADER_BYTES + 4 * count as usize {
        return Some((8, ImageCause::Size));
    }
    if !is_stride(word_at(bytes, 12)) {
        return Some((12, ImageCause::Stride));
    }
    if word_at(bytes, 16) > MAX_PLACES {
        return Some((16, ImageCause::Params));
    }
    if word_at(bytes, 20) > MAX_PLACES {
        return Some((20, ImageCause::Results));
    }
    None
}

// The words whose bytes these are, which are whole words.
fn read_words(alloc: Global, bytes: &[u8]) -> Result<Vec<u32>, ImageError>
    requires whole { length bytes.now % 4 ≡ 0 }
    ensures value { IfOk result (λ words. bytes_of_words words.items ≡ bytes.now) }
    ensures err { IfErr result (λ error. error ≡ ImageError.NoMemory) }
{
    let mut words = Vec::with_capacity(alloc, bytes.len() / 4)?;
    let mut rest = bytes;
    while rest.len() >= 4 {
        let (piece, after) = rest.split_at(4);
        words.push(word_at(piece, 0))?;
        rest = after;
    }
    Ok(words)
}

#[cfg(test)]
mod tests {
    use super::*;
    use crate::write_image;
    use std::test::Fail;

    // Worked by hand: `ebreak` alone, with stride 32.
    #[rattlefmt::skip]
    const EBREAK: [u8; 28] = [
        0x54, 0x41, 0x4d, 0x49, 1, 0, 0, 0, 1, 0, 0, 0, 0x20, 0, 0, 0, 0, 0, 0, 0, 0, 0, 0, 0, 0x73, 0, 0x10, 0,
    ];

    #[test]
    fn an_image_both_ways(rt: HostRuntime) -> Result<(), Fail> {
        let image = read_image(rt.alloc(), &EBREAK)?;
        assert_eq!(rt; image.words(), [0x0010_0073].as_slice());
        assert_eq!(rt;
            (image.stride(), image.params(), image.results()),
            (32, 0, 0)
        );
        let bytes = write_image(rt.alloc(), &image).map_err(|_| "no memory")?;
        assert_eq!(rt; bytes.as_slice(), EBREAK.as_slice());
        Ok(())
    }

    #[test]
    fn every_cut_is_a_fault_of_size(rt: HostRuntime) -> Result<(), Fail> {
        for len in 0..28 {
            let fault = read_image(rt.alloc(), &EBREAK[..len]).err();
            let size = ImageError::Bad {
                at: 8,
                cause: ImageCause::Size,
            };
            assert_eq!(rt; fault, Some(size), "at length {len}");
        }
        Ok(())
    }

    // A byte more than the count of words asks for, and a short file with another first byte.
    #[test]
    fn the_size_comes_first(rt: HostRuntime) -> Result<(), Fail> {
        let size = ImageError::Bad {
            at: 8,
            cause: ImageCause::Size,
        };
        let mut longer = EBREAK.to_vec(rt.alloc())?;
        longer.push(0)?;
        let fault = read_image(rt.alloc(), &longer).err();
        assert_eq!(rt; fault, Some(size), "with a byte more");
        let short = [0x55; 23];
        let fault = read_image(rt.alloc(), &short).err();
        assert_eq!(rt; fault, Some(size), "of 23 bytes");
        Ok(())
    }

    // A byte of the file is changed; the first fault is told.
    #[test]
    fn the_first_fault_is_told(rt: HostRuntime) -> Result<(), Fail> {
        let cases = [
            (0, 0x55, 0, ImageCause::Magic),
            (4, 2, 4, ImageCause::Version),
            (8, 0, 8, ImageCause::Size),
            (8, 2, 8, ImageCause::Size),
            (12, 6, 12, ImageCause::Stride),
            (12, 12, 12, ImageCause::Stride),
            (14, 2, 12, ImageCause::Stride),
            (16, 65, 16, ImageCause::Params),
            (20, 65, 20, ImageCause::Results),
        ];
        for (place, byte, at, cause) in cases {
            let mut bytes = EBREAK;
            let file = bytes.as_mut_slice();
            assert!(rt; place < file.len());
            file[place] = byte;
            let fault = read_image(rt.alloc(), file).err();
            assert_eq!(rt;
                fault,
                Some(ImageError::Bad { at, cause }),
                "with {byte} at {place}"
            );
        }
        Ok(())
    }
}
