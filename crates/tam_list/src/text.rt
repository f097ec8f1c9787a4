// Bytes behind a text.
ghost use Rattle.std.specs.Prelude.{◌≡◌, ◌++◌, OnOk, decimal, codes};
ghost use Rattle.tam_list.specs.Listings.{count_line};

use tam_edge::NoMemory;
use tam_word::print_number;

/// Adds bytes.
pub fn push(text: &mut Vec<u8>, bytes: &[u8]) -> Result<(), NoMemory>
    ensures ok { OnOk result (text.new.items ≡ text.old.items ++ bytes.now) }
{
    text.extend_from_slice(bytes)?;
    Ok(())
}

/// Adds a number in decimal.
pub fn push_number(text: &mut Vec<u8>, number: u32) -> Result<(), NoMemory>
    ensures ok { OnOk result (text.new.items ≡ text.old.items ++ decimal number) }
{
    let mut digits = [0; 10];
    let len = print_number(number, &mut digits);
    push(text, &digits[..len])
}

/// Adds a line of a word and a number.
pub fn push_count(text: &mut Vec<u8>, word: &[u8], number: u32) -> Result<(), NoMemory>
    ensures ok { OnOk result (text.new.items ≡ text.old.items ++ count_line word.now number) }
{
    push(text, word)?;
    push(text, b" ")?;
    push_number(text, number)?;
    push(text, b"\n")
}
