// The names of shapes, and the counts that they may have.
ghost use Rattle.std.specs.Prelude.{◌≡◌, ℕ, List, option_map};
ghost use Rattle.std.specs.Borrow.{Bor};
ghost use Rattle.tam_make.specs.MadeTexts.{largest};
ghost use Rattle.tam_words.specs.Names.{shape_name, shape_of};
ghost use Rattle.tam_words.specs.Options.{count_of};

use tam_make::Shape;
use tam_word::read_number;

/// The word that names a shape.
pub fn shape_name(shape: Shape) -> &'static [u8]
    ensures value { result.now ≡ shape_name shape }
{
    match shape {
        Shape::Ladder => b"ladder",
        Shape::Wave => b"wave",
    }
}

/// The shape that a word names.
pub fn shape_of(word: &[u8]) -> Option<Shape>
    ensures value { result ≡ shape_of word.now }
{
    if word == shape_name(Shape::Ladder) {
        Some(Shape::Ladder)
    } else if word == shape_name(Shape::Wave) {
        Some(Shape::Wave)
    } else {
        None
    }
}

/// The count that a text gives a shape, where it is a number that the shape may have.
pub fn read_count(shape: Shape, text: Option<&str>) -> Option<u32>
    ensures value { result ≡ count_of shape (option_map (λ (text : Bor (List ℕ)). text.now) text.entry) }
{
    match read_number(text?.as_bytes(), largest(shape)) {
        Some(count) if count >= 1 => Some(count),
        _ => None,
    }
}

// The largest number that a shape may have.
fn largest(shape: Shape) -> u32
    ensures value { result ≡ largest shape }
{
    match shape {
        Shape::Ladder => 200,
        Shape::Wave => 60,
    }
}
