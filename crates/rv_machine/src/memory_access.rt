// Loads and stores in the bytes of the memory.
ghost use Rattle.std.specs.Prelude.{◌≡◌, ◌+◌, ◌≤◌, ◌<◌, ◌^◌, length};
ghost use Rattle.rv_inst.specs.Fields.{extended};
ghost use Rattle.rv_inst.specs.Harts.{read_at, written_at};
ghost use Rattle.rv_inst.specs.Execution.{load_size, loaded, store_size};

use rv_inst::{LoadName, StoreName, byte_at, half_at, word_at, word_bytes};

/// How many bytes a load reads.
pub fn load_size(name: LoadName) -> u32
    ensures value { result ≡ load_size name }
    ensures least { 1 ≤ result }
    ensures most { result ≤ 4 }
{
    match name {
        LoadName::Lb | LoadName::Lbu => 1,
        LoadName::Lh | LoadName::Lhu => 2,
        LoadName::Lw => 4,
    }
}

/// How many bytes a store writes.
pub fn store_size(name: StoreName) -> u32
    ensures value { result ≡ store_size name }
    ensures least { 1 ≤ result }
    ensures most { result ≤ 4 }
{
    match name {
        StoreName::Sb => 1,
        StoreName::Sh => 2,
        StoreName::Sw => 4,
    }
}

/// What a load gives.
pub fn load(memory: &[u8], name: LoadName, at: usize) -> u32
    requires in_range { at + load_size name ≤ length memory.now }
    ensures value { result ≡ loaded name (read_at memory.now at (load_size name)) }
{
    match name {
        LoadName::Lb => extended_byte(byte_at(memory, at)),
        LoadName::Lh => extended_half(half_at(memory, at)),
        LoadName::Lw => word_at(memory, at),
        LoadName::Lbu => byte_at(memory, at),
        LoadName::Lhu => half_at(memory, at),
    }
}

// The byte with its sign.
fn extended_byte(byte: u32) -> u32
    requires in_range { byte < 2 ^ 8 }
    ensures value { result ≡ extended 8 byte }
{
    if byte < 0x80 {
        byte
    } else {
        byte + 0xffff_ff00
    }
}

// Two bytes with their sign.
fn extended_half(half: u32) -> u32
    requires in_range { half < 2 ^ 16 }
    ensures value { result ≡ extended 16 half }
{
    if half < 0x8000 {
        half
    } else {
        half + 0xffff_0000
    }
}

/// Writes the low bytes of a word.
pub fn store(memory: &mut [u8], name: StoreName, at: usize, word: u32)
    requires in_range { at + store_size name ≤ length memory.old }
    ensures value { memory.new ≡ written_at memory.old at (store_size name) word }
{
    let [a, b, c, d] = word_bytes(word);
    match name {
        StoreName::Sb => memory[at..at + 1].copy_from_slice(&[a]),
        StoreName::Sh => memory[at..at + 2].copy_from_slice(&[a, b]),
        StoreName::Sw => memory[at..at + 4].copy_from_slice(&[a, b, c, d]),
    }
}
