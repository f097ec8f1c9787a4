// The head lines.
ghost use Rattle.std.specs.Prelude.{◌≡◌, nat_le};
ghost use Rattle.tam_word.specs.Numbers.{word_of};
ghost use Rattle.rv_image.specs.ImageFiles.{is_stride, max_places};
ghost use Rattle.rv_asm.specs.Head.{head_name, head_value, head_number, behind, is_body};
ghost use Rattle.rv_asm.specs.Statements.{where_word};
ghost use Rattle.rv_asm.specs.StatementView.{texts};

use rv_image::{MAX_PLACES, is_stride};
use tam_text::is_same;
use tam_word::read_word;

/// Which line with tokens comes next.
#[derive(Clone, Copy, Debug, PartialEq, Eq)]
pub enum Next {
    Image,
    Stride,
    Params,
    Results,
    Body,
}

// The word with which a head line begins.
fn head_name(next: Next) -> &'static [u8]
    ensures value { result.now ≡ head_name next }
{
    match next {
        Next::Image => b".image",
        Next::Stride => b".stride",
        Next::Params => b".params",
        Next::Results => b".results",
        Next::Body => b"",
    }
}

fn stride_of(text: &[u8]) -> Option<u32>
    ensures value { result ≡ where_word is_stride (word_of text.now) }
{
    let stride = read_word(text)?;
    if is_stride(stride) {
        Some(stride)
    } else {
        None
    }
}

fn places_of(text: &[u8]) -> Option<u32>
    ensures value { result ≡ where_word (λ n. nat_le n max_places) (word_of text.now) }
{
    let places = read_word(text)?;
    if places <= MAX_PLACES {
        Some(places)
    } else {
        None
    }
}

// The number of a head line, in the range that it has in an image.
fn head_value(next: Next, text: &[u8]) -> Option<u32>
    ensures value { result ≡ head_value next text.now }
{
    match next {
        Next::Image => { if is_same(text, b"1") { Some(1) } else { None } }
        Next::Stride => stride_of(text),
        Next::Params | Next::Results => places_of(text),
        Next::Body => None,
    }
}

/// The number of the head line that comes next, where the tokens are that.
pub fn head_number(next: Next, tokens: &[&[u8]]) -> Option<u32>
    ensures value { result ≡ head_number next (texts tokens.now) }
{
    match tokens {
        [name, number] => {
            if is_same(name, head_name(next)) {
                head_value(next, number)
            } else {
                None
            }
        }
        _ => None,
    }
}

/// What comes behind it.
pub fn behind(next: Next) -> Next
    ensures value { result ≡ behind next }
{
    match next {
        Next::Image => Next::Stride,
        Next::Stride => Next::Params,
        Next::Params => Next::Results,
        Next::Results | Next::Body => Next::Body,
    }
}

/// Whether the head is read.
pub fn is_body(next: Next) -> bool
    ensures value { result ≡ is_body next }
{
    matches!(next, Next::Body)
}
