// Names, and whether bytes are the same.
ghost use Rattle.std.specs.Prelude.{◌≡◌};
ghost use Rattle.tam_word.specs.Lists.{all_of, same_bytes};
ghost use Rattle.tam_text.specs.Names.{is_name, is_letter, continues_name};

// The most bytes of a name.
const LONGEST: usize = 32;

/// Whether the bytes are the same.
pub fn is_same(first: &[u8], second: &[u8]) -> bool
    ensures value { result ≡ same_bytes first.now second.now }
{
    first == second
}

/// Whether the bytes are a name: a letter or `_`, then letters, digits or `_`, 1 to 32 bytes.
pub fn is_name(bytes: &[u8]) -> bool
    ensures value { result ≡ is_name bytes.now }
{
    match bytes {
        [] => false,
        [first, rest @ ..] => is_letter(*first) && rest.len() < LONGEST && continue_name(rest),
    }
}

// Whether the byte is a letter or `_`.
fn is_letter(byte: u8) -> bool
    ensures value { result ≡ is_letter byte }
{
    matches!(byte, b'A'..=b'Z' | b'a'..=b'z' | b'_')
}

// Whether the byte may stand behind the first of a name.
fn continues_name(byte: u8) -> bool
    ensures value { result ≡ continues_name byte }
{
    is_letter(byte) || matches!(byte, b'0'..=b'9')
}

fn continue_name(bytes: &[u8]) -> bool
    ensures value { result ≡ all_of continues_name bytes.now }
{
    let mut rest = bytes;
    while let [byte, after @ ..] = rest {
        if !continues_name(*byte) {
            return false;
        }
        rest = after;
    }
    true
}
