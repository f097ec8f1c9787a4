// The tokens of a line.
ghost use Rattle.std.specs.Prelude.{◌≡◌, ◌+◌, ◌≤◌, length, take, IfOk};
ghost use Rattle.std.specs.Option.{option_map};
ghost use Rattle.rv_asm.specs.Tokens.{is_comma, max_tokens, tokens_of, cut_at};
ghost use Rattle.rv_asm.specs.Splitting.{is_inside, word_len, first_token};
ghost use Rattle.rv_asm.specs.StatementView.{texts, parts};

use std::alloc::{AllocError, Global};
use tam_text::is_blank;

// The most tokens of a line that says something.
const MAX_TOKENS: usize = 6;

/// What stands before the first such byte, and what stands behind it.
pub fn cut_at(at: u8, bytes: &[u8]) -> Option<(&[u8], &[u8])>
    ensures value { option_map parts result ≡ cut_at at bytes.now }
{
    for (i, byte) in bytes.iter().enumerate() {
        if *byte == at {
            return Some((&bytes[..i], &bytes[i + 1..]));
        }
    }
    None
}

fn is_comma(byte: u8) -> bool
    ensures value { result ≡ is_comma byte }
{
    byte == b','
}

// Whether a byte stands inside a word.
fn is_inside(byte: u8) -> bool
    ensures value { result ≡ is_inside byte }
{
    !(is_blank(byte) || is_comma(byte) || byte == b'#')
}

// How many bytes inside a word come first.
fn word_len(bytes: &[u8]) -> usize
    ensures value { result ≡ word_len bytes.now }
    ensures in_range { result ≤ length bytes.now }
{
    let mut len = 0;
    let mut rest = bytes;
    while let [byte, after @ ..] = rest {
        if !is_inside(*byte) {
            return len;
        }
        len += 1;
        rest = after;
    }
    len
}

// The first token of a line and what stands behind it; none before a comment or the end.
fn split_token(line: &[u8]) -> Option<(&[u8], &[u8])>
    ensures value { option_map parts result ≡ first_token line.now }
{
    let mut rest = line;
    while let [byte, after @ ..] = rest {
        if !is_blank(*byte) {
            if is_comma(*byte) {
                return Some((&rest[..1], after));
            }
            if *byte == b'#' {
                return None;
            }
            return Some(rest.split_at(word_len(rest)));
        }
        rest = after;
    }
    None
}

/// The first tokens of a line: all of them, or one more than any line that says something has.
pub fn first_tokens(alloc: Global, line: &[u8]) -> Result<Vec<&[u8]>, AllocError>
    ensures value { IfOk result (λ tokens. texts tokens.items ≡ take (max_tokens + 1) (tokens_of line.now)) }
{
    let mut tokens = Vec::new(alloc);
    let mut rest = line;
    let mut left = MAX_TOKENS + 1;
    while left > 0 {
        let Some((token, after)) = split_token(rest) else {
            return Ok(tokens);
        };
        tokens.push(token)?;
        rest = after;
        left -= 1;
    }
    Ok(tokens)
}
