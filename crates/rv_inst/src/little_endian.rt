// Numbers in bytes, little-endian.
ghost use Rattle.std.specs.Prelude.{◌≡◌, ◌+◌, ◌^◌, ◌<◌, ◌≤◌, length};
ghost use Rattle.rv_inst.specs.Harts.{little_endian, read_at, bytes_of};

/// The byte at an address.
pub fn byte_at(bytes: &[u8], at: usize) -> u32
    requires in_range { at + 1 ≤ length bytes.now }
    ensures value { result ≡ read_at bytes.now at 1 }
    ensures in_range { result < 2 ^ 8 }
{
    match &bytes[at..at + 1] {
        [a] => u32::from(*a),
        _ => unreachable!(),
    }
}

/// The number of the two bytes at an address.
pub fn half_at(bytes: &[u8], at: usize) -> u32
    requires in_range { at + 2 ≤ length bytes.now }
    ensures value { result ≡ read_at bytes.now at 2 }
    ensures in_range { result < 2 ^ 16 }
{
    match &bytes[at..at + 2] {
        [a, b] => u32::from(*a) + 0x100 * u32::from(*b),
        _ => unreachable!(),
    }
}

/// The word of the four bytes at an address.
pub fn word_at(bytes: &[u8], at: usize) -> u32
    requires in_range { at + 4 ≤ length bytes.now }
    ensures value { result ≡ read_at bytes.now at 4 }
{
    match &bytes[at..at + 4] {
        [a, b, c, d] => word_of([*a, *b, *c, *d]),
        _ => unreachable!(),
    }
}

fn word_of(bytes: [u8; 4]) -> u32
    ensures value { result ≡ little_endian bytes }
{
    let [a, b, c, d] = bytes;
    u32::from(a) + 0x100 * (u32::from(b) + 0x100 * (u32::from(c) + 0x100 * u32::from(d)))
}

/// The bytes of a word, the lowest first.
pub fn word_bytes(word: u32) -> [u8; 4]
    ensures value { result ≡ bytes_of 4 word }
{
    [
        (word % 0x100) as u8,
        (word / 0x100 % 0x100) as u8,
        (word / 0x100 / 0x100 % 0x100) as u8,
        (word / 0x100 / 0x100 / 0x100 % 0x100) as u8,
    ]
}
