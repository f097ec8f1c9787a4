// Numbers and words from their text.
ghost use Rattle.std.specs.Prelude.{◌≡◌, ◌<◌, ◌≤◌, IfSome, IfNone};
ghost use Rattle.tam_word.specs.Numbers.{digit_of, are_digits, number_behind, is_decimal, decimal_up_to, negative_of, hexadecimal_of, word_of};

/// The word that the text spells: `-?(0|[1-9][0-9]*)` from -2147483648 to 4294967295, or `0x` and 1 to 8 hexadecimal digits of either
/// case. `-0` is the word 0.
///
/// docs/FORMATS.md, "Words".
pub fn read_word(text: &[u8]) -> Option<u32>
    ensures value { result ≡ word_of text.now }
{
    match text {
        [b'-', digits @ ..] if !digits.is_empty() => negative(read_number(digits, 1 << 31)),
        [b'0', b'x', digits @ ..] => read_hexadecimal(digits),
        _ => read_number(text, u32::MAX),
    }
}

/// The number that the text spells in plain decimal, `0|[1-9][0-9]*`, where it is at most `most`.
pub fn read_number(text: &[u8], most: u32) -> Option<u32>
    ensures value { result ≡ decimal_up_to most text.now }
{
    if !is_decimal(text) {
        return None;
    }
    number_up_to(10, most, text)
}

// The word of 1 to 8 hexadecimal digits.
fn read_hexadecimal(digits: &[u8]) -> Option<u32>
    ensures value { result ≡ hexadecimal_of digits.now }
{
    if digits.is_empty() || digits.len() > 8 || !are_digits(16, digits) {
        return None;
    }
    number_up_to(16, u32::MAX, digits)
}

// The word of a negative number, by its digits' number.
fn negative(number: Option<u32>) -> Option<u32>
    ensures value { result ≡ negative_of number }
{
    match number {
        None => None,
        Some(number) => Some(number.wrapping_neg()),
    }
}

// Whether the bytes are decimal digits without a leading zero.
fn is_decimal(bytes: &[u8]) -> bool
    ensures value { result ≡ is_decimal bytes.now }
{
    match bytes {
        [] => false,
        [_] => are_digits(10, bytes),
        [first, _, ..] => *first != b'0' && are_digits(10, bytes),
    }
}

// The number that the digits stand for, where it is at most `most`.
fn number_up_to(base: u64, most: u32, digits: &[u8]) -> Option<u32>
    requires base { base ≤ 16 }
    requires one_digit { 0 < base }
    ensures found { IfSome result (λ n. n ≡ number_behind base 0 digits.now) }
    ensures within { IfSome result (λ n. n ≤ most) }
    ensures beyond { IfNone result (most < number_behind base 0 digits.now) }
{
    let mut number: u64 = 0;
    let mut rest = digits;
    while let [digit, after @ ..] = rest {
        number = number * base + digit_of(*digit);
        if number > u64::from(most) {
            return None;
        }
        rest = after;
    }
    Some(number as u32)
}

// Whether each byte is a digit of the base.
fn are_digits(base: u64, bytes: &[u8]) -> bool
    ensures value { result ≡ are_digits base bytes.now }
{
    let mut rest = bytes;
    while let [byte, after @ ..] = rest {
        if digit_of(*byte) >= base {
            return false;
        }
        rest = after;
    }
    true
}

// What a digit stands for, of either case, or 16.
fn digit_of(byte: u8) -> u64
    ensures value { result ≡ digit_of byte }
{
    match byte {
        b'0'..=b'9' => u64::from(byte) - 48,
        b'A'..=b'F' => u64::from(byte) - 55,
        b'a'..=b'f' => u64::from(byte) - 87,
        _ => 16,
    }
}

#[cfg(test)]
mod tests {
    use super::*;

    #[test]
    fn texts_of_words(rt: HostRuntime) {
        let cases: [(&[u8], Option<u32>); 18] = [
            (b"0", Some(0)),
            (b"-0", Some(0)),
            (b"-1", Some(0xffff_ffff)),
            (b"4294967295", Some(0xffff_ffff)),
            (b"4294967296", None),
            (b"-2147483648", Some(0x8000_0000)),
            (b"-2147483649", None),
            (b"0xFFFFFFFF", Some(0xffff_ffff)),
            (b"0x0000000a", Some(10)),
            (b"0x123456789", None),
            (b"0x", None),
            (b"0X1", None),
            (b"-0x1", None),
            (b"00", None),
            (b"-01", None),
            (b"+1", None),
            (b"-", None),
            (b"", None),
        ];
        for (text, word) in cases {
            assert_eq!(rt; read_word(text), word, "at {text:?}");
        }
    }

    #[test]
    fn numbers_have_a_greatest(rt: HostRuntime) {
        let cases: [(&[u8], Option<u32>); 6] = [
            (b"0", Some(0)),
            (b"63", Some(63)),
            (b"64", None),
            (b"063", None),
            (b"-1", None),
            (b"99999999999999999999", None),
        ];
        for (text, number) in cases {
            assert_eq!(rt; read_number(text, 63), number, "at {text:?}");
        }
    }
}
