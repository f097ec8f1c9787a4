// The program of a text.
ghost use Rattle.std.specs.Prelude.{◌≡◌, ◌≤◌, ◌<◌, ◌∷◌, ◌+◌, ◌||◌, not, [], IfOk, IfErr, IfNone, OnOk, MatchResult, Some, take, length, option_to_list};
ghost use Rattle.tl0_code.specs.ThreadCode.{Program};
ghost use Rattle.tl0_text.specs.declared.cause.Refused0.TheVariants.{NoMemory};
ghost use Rattle.tl0_text.specs.CodeSayings.{tokens_of, has_empty, is_whole, form_of, line_said};
ghost use Rattle.tl0_text.specs.Reading.{Reads0, IsFirst, faults, faults_of_head, faults_of_body, faults_of_line, faults_at_end, head_of, body_of, line_at};
ghost use Rattle.tl0_text.specs.Reading.{is_head, is_version, counts_of, counts_line, has_wrong_size, line_with, faults_by, long_line_cause, said_by};
ghost use Rattle.tl0_text.specs.Sound.{IsSound};
ghost use Rattle.tl0_text.specs.TextView.{said};
ghost use Rattle.tl0_text.specs.TokensView.{texts};

use crate::line::{line_said, number_of};
use crate::pass::{Pass, nothing_said, passes, put_line};
use crate::tokens::{has_empty, has_more_tokens, is_whole, tokens_of};
use crate::verb::{Form, form_of, size_of};
use crate::{Cause0, Next, Refused0};
use std::alloc::{AllocError, Global};
use tam_text::{is_same, split_line};
use tl0_code::{CodeLine, Program0};

// The most tokens of a line.
const MAX_TOKENS: usize = 5;

const MAX_CODES: u32 = 256;

// Whether one of the first two lines comes next.
fn is_head(next: Next) -> bool
    ensures value { result ≡ is_head next }
{
    match next {
        Next::Version | Next::Counts => true,
        Next::Head | Next::Inlets | Next::Threads | Next::Instrs | Next::Done => false,
    }
}

fn is_version(tokens: &[&[u8]]) -> bool
    ensures value { result ≡ is_version (texts tokens.now) }
{
    match tokens {
        [word, version] => is_same(word, b"tl0") && is_same(version, b"2"),
        [] | [_] | [_, _, _, ..] => false,
    }
}

fn counts_line(number: u32, main: u32) -> Option<CodeLine>
    ensures value { result ≡ counts_line (Some number) (Some main) }
{
    if (1..=MAX_CODES).contains(&number) {
        Some(CodeLine::Counts { number, main })
    } else {
        None
    }
}

// The second line.
fn counts_of(tokens: &[&[u8]]) -> Option<CodeLine>
    ensures value { result ≡ counts_of (texts tokens.now) }
{
    match tokens {
        [codes, number, main, main_number] => {
            if !is_same(codes, b"codes") {
                return None;
            }
            if !is_same(main, b"main") {
                return None;
            }
            counts_line(number_of(number)?, number_of(main_number)?)
        }
        [] | [_] | [_, _] | [_, _, _] | [_, _, _, _, _, ..] => None,
    }
}

// The line of the head that comes next.
fn head_of(next: Next, tokens: &[&[u8]]) -> Option<CodeLine>
    ensures value { result ≡ head_of next (texts tokens.now) }
{
    match next {
        Next::Version => if is_version(tokens) {
            Some(CodeLine::Version)
        } else {
            None
        },
        _ => counts_of(tokens),
    }
}

// What a line of the head says, or what is wrong with it.
fn head_line(next: Next, line: &[u8], tokens: &[&[u8]]) -> Result<CodeLine, Cause0>
    requires tokens { texts tokens.now ≡ tokens_of line.now }
    ensures ok { IfOk result (λ l. head_of next (tokens_of line.now) ≡ Some l) }
    ensures faultless { OnOk result (faults_of_head next line.now ≡ []) }
    ensures refused { IfErr result (λ cause. take 1 (faults_of_head next line.now) ≡ cause ∷ []) }
{
    let Some(said) = head_of(next, tokens) else {
        return Err(Cause0::BadHead);
    };
    if !is_whole(line) {
        return Err(Cause0::BadLine);
    }
    Ok(said)
}

// Whether the number of tokens behind the word is another, a token is empty, or no LF ends the line.
fn is_bad_line(line: &[u8], tokens: &[&[u8]], form: Form, others: &[&[u8]]) -> bool
    ensures value { result ≡ has_wrong_size (Some form) (texts others.now) || (has_empty (texts tokens.now) || not (is_whole line.now)) }
{
    others.len() != size_of(form) || has_empty(tokens) || !is_whole(line)
}

// What a line says by its form and the tokens behind its word, or what is wrong with it.
fn formed_line(
    pass: &Pass,
    line: &[u8],
    tokens: &[&[u8]],
    form: Option<Form>,
    others: &[&[u8]],
) -> Result<CodeLine, Cause0>
    ensures ok { IfOk result (λ l. line_with form (texts others.now) ≡ Some l) }
    ensures faultless { OnOk result (faults_by (said pass.now) line.now (texts tokens.now) form (texts others.now) ≡ []) }
    ensures refused { IfErr result (λ cause. take 1 (faults_by (said pass.now) line.now (texts tokens.now) form (texts others.now)) ≡ cause ∷ []) }
{
    let Some(form) = form else {
        return Err(Cause0::BadLine);
    };
    if is_bad_line(line, tokens, form, others) {
        return Err(Cause0::BadLine);
    }
    let Some(said) = line_said(form, others) else {
        return Err(Cause0::BadNumber);
    };
    if passes(pass, &said) {
        return Err(Cause0::TooMany);
    }
    Ok(said)
}

// What a line behind the head says, or what is wrong with it.
fn body_line(pass: &Pass, line: &[u8], tokens: &[&[u8]]) -> Result<CodeLine, Cause0>
    requires tokens { texts tokens.now ≡ tokens_of line.now }
    ensures ok { IfOk result (λ l. body_of (said pass.now).next (tokens_of line.now) ≡ Some l) }
    ensures faultless { OnOk result (faults_of_body (said pass.now) line.now ≡ []) }
    ensures refused { IfErr result (λ cause. take 1 (faults_of_body (said pass.now) line.now) ≡ cause ∷ []) }
{
    match tokens {
        [] => Err(Cause0::BadLine),
        [word, others @ ..] => formed_line(pass, line, tokens, form_of(pass.next, word), others),
    }
}

// What a line says, or what is wrong with it.
fn said_line(pass: &Pass, line: &[u8], tokens: &[&[u8]]) -> Result<CodeLine, Cause0>
    requires tokens { texts tokens.now ≡ tokens_of line.now }
    ensures ok { IfOk result (λ l. line_at (said pass.now).next (tokens_of line.now) ≡ Some l) }
    ensures faultless { OnOk result (faults_of_line (said pass.now) line.now ≡ []) }
    ensures refused { IfErr result (λ cause. take 1 (faults_of_line (said pass.now) line.now) ≡ cause ∷ []) }
{
    if is_head(pass.next) {
        head_line(pass.next, line, tokens)
    } else {
        body_line(pass, line, tokens)
    }
}

// A line with more tokens than any has.
fn long_line_cause(next: Next) -> Cause0
    ensures value { result ≡ long_line_cause next }
{
    if is_head(next) {
        Cause0::BadHead
    } else {
        Cause0::BadLine
    }
}

// What is wrong with a line; where nothing is, what it says is added. Behind it stands `after`.
fn line_cause(
    alloc: Global,
    pass: &mut Pass,
    line: &[u8],
    after: &[u8],
) -> Result<Option<Cause0>, AllocError>
    requires sound { IsSound (said pass.old) }
    ensures cause { IfOk result (λ r. option_to_list r ≡ take 1 (faults_of_line (said pass.old) line.now)) }
    ensures said { IfOk result (λ r. IfNone r (said pass.new ≡ said_by (said pass.old) (line_at (said pass.old).next (tokens_of line.now)))) }
{
    if has_more_tokens(line, MAX_TOKENS) {
        return Ok(Some(long_line_cause(pass.next)));
    }
    let tokens = tokens_of(alloc, line)?;
    match said_line(pass, line, &tokens) {
        Err(cause) => Ok(Some(cause)),
        Ok(said) => {
            put_line(alloc, pass, &said, after)?;
            Ok(None)
        }
    }
}

// What is wrong at the end.
fn end_cause(next: Next) -> Option<Cause0>
    ensures value { option_to_list result ≡ faults_at_end next }
{
    match next {
        Next::Done => None,
        _ => Some(Cause0::Ended),
    }
}

/// The program of a text, or why it has none.
///
/// docs/THREADS.md, "Thread code as text".
pub fn read0(alloc: Global, text: &[u8]) -> Result<Program0, Refused0>
    requires short { length text.now ≤ 67108864 }
    ensures reads { IfOk result (Reads0 text.now) }
    ensures faultless { OnOk result (faults text.now ≡ []) }
    ensures refused { IfErr result (IsFirst (faults text.now)) }

    // A text that reads as a program gives that program alone, and only want of memory refuses it.
    ensures complete { (p : Program) → Reads0 text.now p → MatchResult result (λ made. made ≡ p) (λ e. e ≡ NoMemory) }
{
    let mut pass = nothing_said(alloc);
    let mut number: u32 = 1;
    let mut rest = text;
    while !rest.is_empty() {
        let (line, after) = split_line(rest);
        if let Some(cause) = line_cause(alloc, &mut pass, line, after)? {
            return Err(Refused0::At {
                line: number,
                cause,
            });
        }
        number += 1;
        rest = after;
    }
    match end_cause(pass.next) {
        Some(cause) => Err(Refused0::At {
            line: number,
            cause,
        }),
        None => Ok(Program0::of(pass.main, pass.done)),
    }
}
