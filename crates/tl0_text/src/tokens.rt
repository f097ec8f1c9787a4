// The tokens of a line: what stands between its spaces.
ghost use Rattle.std.specs.Prelude.{◌≡◌, ◌≤◌, nat_le, IfOk, count_by, length};
ghost use Rattle.std.specs.List.{slice_split};
ghost use Rattle.tl0_text.specs.CodeSayings.{is_space, without_line_feed, is_whole, tokens_of, has_empty};
ghost use Rattle.tl0_text.specs.TokensView.{texts};

use std::alloc::{AllocError, Global};

fn is_space(byte: u8) -> bool
    ensures value { result ≡ is_space byte }
{
    byte == b' '
}

// A line without the LF that ends it.
fn without_line_feed(line: &[u8]) -> &[u8]
    ensures value { result.now ≡ without_line_feed line.now }
{
    for (i, byte) in line.iter().enumerate() {
        if *byte == b'\n' {
            return &line[..i];
        }
    }
    line
}

/// Whether an LF ends the line.
pub fn is_whole(line: &[u8]) -> bool
    ensures value { result ≡ is_whole line.now }
{
    let mut rest = line;
    while let [byte, after @ ..] = rest {
        if *byte == b'\n' {
            return true;
        }
        rest = after;
    }
    false
}

fn space_count(line: &[u8]) -> usize
    ensures value { result ≡ count_by is_space line.now }
    ensures within { result ≤ length line.now }
{
    let mut count = 0;
    for byte in line {
        if is_space(*byte) {
            count += 1;
        }
    }
    count
}

/// Whether the line has more tokens than `most`.
pub fn has_more_tokens(line: &[u8], most: usize) -> bool
    ensures value { result ≡ nat_le most (count_by is_space (without_line_feed line.now)) }
{
    space_count(without_line_feed(line)) >= most
}

// What stands between spaces.
fn pieces_of(alloc: Global, line: &[u8]) -> Result<Vec<&[u8]>, AllocError>
    ensures value { IfOk result (λ pieces. texts pieces.items ≡ slice_split is_space line.now) }
{
    line.split(|byte| is_space(*byte)).collect(alloc)
}

/// The tokens of a line.
pub fn tokens_of(alloc: Global, line: &[u8]) -> Result<Vec<&[u8]>, AllocError>
    ensures value { IfOk result (λ tokens. texts tokens.items ≡ tokens_of line.now) }
{
    pieces_of(alloc, without_line_feed(line))
}

/// Whether a token is empty.
pub fn has_empty(tokens: &[&[u8]]) -> bool
    ensures value { result ≡ has_empty (texts tokens.now) }
{
    let mut rest = tokens;
    while let [token, after @ ..] = rest {
        if token.is_empty() {
            return true;
        }
        rest = after;
    }
    false
}
