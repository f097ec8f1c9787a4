// Machine code.
ghost use Rattle.std.specs.Prelude.{◌≡◌, ◌++◌, OnOk, length};
ghost use Rattle.rv_inst.specs.Images.{bytes_of_words};
ghost use Rattle.rv_image.specs.ImageFiles.{IsImage, is_stride};

use rv_inst::word_bytes;
use std::marker::Model;
use tam_edge::NoMemory;

/// The greatest number of words of an image.
pub const MAX_WORDS: u32 = 16_777_210;
/// The fewest bytes of a frame.
pub const MIN_STRIDE: u32 = 16;
/// The greatest number of params, and of results.
pub const MAX_PLACES: u32 = 64;
// The most bytes of a frame.
const MAX_STRIDE: u32 = 65_536;

/// Machine code: its words, the bytes of a frame, and how many params and results its `main` has.
///
/// docs/MACHINE.md, "Image file".
#[derive(Debug, Drop)]
pub struct Image {
    stride: u32,
    params: u32,
    results: u32,
    words: Vec<u32>,
}

impl Model for Image {
    ghost use Rattle.rv_inst.specs.Images.{Image as MachineCode};

    ghost Value = { MachineCode };

    ghost use Rattle.rv_image.specs.ImageFiles.{IsImage};

    ghost view = { λ i. record { stride = i.stride; params = i.params; results = i.results; words = i.words.items } };

    ghost invariant = { λ i. IsImage (record { stride = i.stride; params = i.params; results = i.results; words = i.words.items }) };
}

impl Image {
    pub fn of(stride: u32, params: u32, results: u32, words: Vec<u32>) -> Image
        requires in_range { IsImage (record { stride = stride; params = params; results = results; words = words.items }) }
        ensures value { result ≡ record { stride = stride; params = params; results = results; words = words.items } }
    {
        Image {
            stride,
            params,
            results,
            words,
        }
    }

    /// The bytes of a frame.
    pub fn stride(&self) -> u32
        ensures value { result ≡ self.now.stride }
        ensures in_range { IsImage self.now }
    {
        self.stride
    }

    pub fn params(&self) -> u32
        ensures value { result ≡ self.now.params }
        ensures in_range { IsImage self.now }
    {
        self.params
    }

    pub fn results(&self) -> u32
        ensures value { result ≡ self.now.results }
        ensures in_range { IsImage self.now }
    {
        self.results
    }

    pub fn words(&self) -> &[u32]
        ensures value { result.now ≡ self.now.words }
        ensures in_range { IsImage self.now }
    {
        self.words.as_slice()
    }

    /// Appends the bytes of the words.
    pub fn append_words(&self, to: &mut Vec<u8>) -> Result<(), NoMemory>
        ensures ok { OnOk result (to.new.items ≡ to.old.items ++ bytes_of_words self.now.words) }
    {
        append_words(self.words.as_slice(), to)
    }
}

/// Whether a frame may have so many bytes.
pub fn is_stride(stride: u32) -> bool
    ensures value { result ≡ is_stride stride }
{
    stride % 4 == 0 && (MIN_STRIDE..=MAX_STRIDE).contains(&stride)
}

/// Appends the bytes of words.
pub fn append_words(words: &[u32], to: &mut Vec<u8>) -> Result<(), NoMemory>
    ensures ok { OnOk result (to.new.items ≡ to.old.items ++ bytes_of_words words.now) }
{
    let mut rest = words;
    while let [word, after @ ..] = rest {
        to.extend_from_slice(&word_bytes(*word))?;
        rest = after;
    }
    Ok(())
}
