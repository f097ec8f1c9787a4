// The lines of the canonical text, by their forms.
ghost use Rattle.std.specs.Prelude.{◌≡◌, ◌++◌, ◌∷◌, [], codes, decimal, OnOk};
ghost use Rattle.tam_word.specs.Words.{signed_text};
ghost use Rattle.tam_graph.specs.Texts.{line_text, suffix, Bytes, Number};

use std::alloc::AllocError;
use tam_word::{print_number, print_word};

// Adds a blank and bytes.
fn push_token(text: &mut Vec<u8>, token: &[u8]) -> Result<(), AllocError>
    ensures ok { OnOk result (text.new.items ≡ text.old.items ++ 32 ∷ token.now) }
{
    text.push(b' ')?;
    text.extend_from_slice(token)
}

// Adds a blank and a number in decimal.
fn push_number(text: &mut Vec<u8>, number: u32) -> Result<(), AllocError>
    ensures ok { OnOk result (text.new.items ≡ text.old.items ++ 32 ∷ decimal number) }
{
    let mut digits = [0; 10];
    let len = print_number(number, &mut digits);
    push_token(text, &digits[..len])
}

// Adds a blank and a word in signed decimal.
fn push_word(text: &mut Vec<u8>, word: u32) -> Result<(), AllocError>
    ensures ok { OnOk result (text.new.items ≡ text.old.items ++ 32 ∷ signed_text word) }
{
    let mut digits = [0; 11];
    let len = print_word(word, &mut digits);
    push_token(text, &digits[..len])
}

/// Adds a line of one token.
pub fn push_alone(text: &mut Vec<u8>, verb: &[u8]) -> Result<(), AllocError>
    ensures ok { OnOk result (text.new.items ≡ text.old.items ++ line_text (Bytes verb.now ∷ [])) }
{
    text.extend_from_slice(verb)?;
    text.extend_from_slice(b"\n")
}

/// Adds a line that has a place.
pub fn push_place(text: &mut Vec<u8>, verb: &[u8], place: u32) -> Result<(), AllocError>
    ensures ok { OnOk result (text.new.items ≡ text.old.items ++ line_text (Bytes verb.now ∷ Bytes (decimal place) ∷ [])) }
{
    text.extend_from_slice(verb)?;
    push_number(text, place)?;
    text.extend_from_slice(b"\n")
}

/// Adds a line that has a word.
pub fn push_const(text: &mut Vec<u8>, verb: &[u8], word: u32) -> Result<(), AllocError>
    ensures ok { OnOk result (text.new.items ≡ text.old.items ++ line_text (Bytes verb.now ∷ Number word ∷ [])) }
{
    text.extend_from_slice(verb)?;
    push_word(text, word)?;
    text.extend_from_slice(b"\n")
}

/// Adds a line that names one.
pub fn push_one(text: &mut Vec<u8>, verb: &[u8], a: &[u8]) -> Result<(), AllocError>
    ensures ok { OnOk result (text.new.items ≡ text.old.items ++ line_text (Bytes verb.now ∷ Bytes a.now ∷ [])) }
{
    text.extend_from_slice(verb)?;
    push_token(text, a)?;
    text.extend_from_slice(b"\n")
}

/// Adds a line that names two.
pub fn push_two(text: &mut Vec<u8>, verb: &[u8], a: &[u8], b: &[u8]) -> Result<(), AllocError>
    ensures ok { OnOk result (text.new.items ≡ text.old.items ++ line_text (Bytes verb.now ∷ Bytes a.now ∷ Bytes b.now ∷ [])) }
{
    text.extend_from_slice(verb)?;
    push_token(text, a)?;
    push_token(text, b)?;
    text.extend_from_slice(b"\n")
}

/// Adds a line that names three.
pub fn push_three(
    text: &mut Vec<u8>,
    verb: &[u8],
    a: &[u8],
    b: &[u8],
    c: &[u8],
) -> Result<(), AllocError>
    ensures ok { OnOk result (text.new.items ≡ text.old.items ++ line_text (Bytes verb.now ∷ Bytes a.now ∷ Bytes b.now ∷ Bytes c.now ∷ [])) }
{
    text.extend_from_slice(verb)?;
    push_token(text, a)?;
    push_token(text, b)?;
    push_token(text, c)?;
    text.extend_from_slice(b"\n")
}

/// Adds a line that names the node at whose interface a place is.
pub fn push_place_of(
    text: &mut Vec<u8>,
    verb: &[u8],
    of: &[u8],
    place: u32,
) -> Result<(), AllocError>
    ensures ok { OnOk result (text.new.items ≡ text.old.items ++ line_text (Bytes verb.now ∷ Bytes of.now ∷ Bytes (decimal place) ∷ [])) }
{
    text.extend_from_slice(verb)?;
    push_token(text, of)?;
    push_number(text, place)?;
    text.extend_from_slice(b"\n")
}

/// Adds a line that gives a value to a place.
pub fn push_value(text: &mut Vec<u8>, verb: &[u8], place: u32, a: &[u8]) -> Result<(), AllocError>
    ensures ok { OnOk result (text.new.items ≡ text.old.items ++ line_text (Bytes verb.now ∷ Bytes (decimal place) ∷ Bytes a.now ∷ [])) }
{
    text.extend_from_slice(verb)?;
    push_number(text, place)?;
    push_token(text, a)?;
    text.extend_from_slice(b"\n")
}

/// Adds a line that gives a value to a place at a node's interface.
pub fn push_value_of(
    text: &mut Vec<u8>,
    verb: &[u8],
    of: &[u8],
    place: u32,
    a: &[u8],
) -> Result<(), AllocError>
    ensures ok { OnOk result (text.new.items ≡ text.old.items ++ line_text (Bytes verb.now ∷ Bytes of.now ∷ Bytes (decimal place) ∷ Bytes a.now ∷ [])) }
{
    text.extend_from_slice(verb)?;
    push_token(text, of)?;
    push_number(text, place)?;
    push_token(text, a)?;
    text.extend_from_slice(b"\n")
}

/// Adds a name, a depth above 0, and `=`.
pub fn push_named(text: &mut Vec<u8>, name: &[u8], depth: u8) -> Result<(), AllocError>
    ensures ok { OnOk result (text.new.items ≡ text.old.items ++ (name.now ++ (suffix depth ++ codes " = "))) }
{
    text.extend_from_slice(name)?;
    push_suffix(text, depth)?;
    text.extend_from_slice(b" = ")
}

// Adds a depth above 0.
fn push_suffix(text: &mut Vec<u8>, depth: u8) -> Result<(), AllocError>
    ensures ok { OnOk result (text.new.items ≡ text.old.items ++ suffix depth) }
{
    if depth == 0 {
        return Ok(());
    }
    let mut digits = [0; 10];
    let len = print_number(u32::from(depth), &mut digits);
    text.push(b':')?;
    text.extend_from_slice(&digits[..len])
}
