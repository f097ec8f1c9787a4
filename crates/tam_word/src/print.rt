// A word in signed decimal.
ghost use Rattle.std.specs.Prelude.{◌≡◌, ◌≤◌, length, take, decimal};
ghost use Rattle.tam_word.specs.Words.{signed_text};

use itoa::Buffer;

/// Writes a word in signed decimal at the front, and answers how many bytes that took. What stands behind them is of no meaning.
///
/// docs/FORMATS.md, "Words".
pub fn print_word(w: u32, to: &mut [u8; 11]) -> usize
    ensures text { take result to.new ≡ signed_text w }
    ensures len { result ≡ length (signed_text w) }
    ensures in_range { result ≤ 11 }
{
    let mut buffer = Buffer::new();
    let text = buffer.format(w.cast_signed()).as_bytes();
    let len = text.len();
    to[..len].copy_from_slice(text);
    len
}

/// Writes a number in plain decimal at the front, and answers how many bytes that took. What stands behind them is of no meaning.
///
/// docs/FORMATS.md, "Words".
pub fn print_number(n: u32, to: &mut [u8; 10]) -> usize
    ensures text { take result to.new ≡ decimal n }
    ensures len { result ≡ length (decimal n) }
    ensures in_range { result ≤ 10 }
{
    let mut buffer = Buffer::new();
    let text = buffer.format(n).as_bytes();
    let len = text.len();
    to[..len].copy_from_slice(text);
    len
}

#[cfg(test)]
mod tests {
    use super::*;

    #[test]
    fn words_in_signed_decimal(rt: HostRuntime) {
        let cases: [(u32, &[u8]); 4] = [
            (0, b"0"),
            (2_147_483_647, b"2147483647"),
            (2_147_483_648, b"-2147483648"),
            (4_294_967_295, b"-1"),
        ];
        for (w, text) in cases {
            let mut to = [0; 11];
            let len = print_word(w, &mut to);
            assert_eq!(rt; &to[..len], text, "of {w}");
        }
    }
}
