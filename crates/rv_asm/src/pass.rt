// What the first pass keeps of the lines, and what a line adds.
ghost use Rattle.std.specs.Prelude.{◌≡◌, ◌≤◌, [], ◌∷◌, ◌++◌, length, take, map, option_to_list, IfOk, IfNone, OnOk, Ok, None};
ghost use Rattle.rv_image.specs.ImageFiles.{max_words};
ghost use Rattle.rv_asm.specs.Tokens.{tokens_of};
ghost use Rattle.rv_asm.specs.Head.{head_number};
ghost use Rattle.rv_asm.specs.Statements.{statement_of, Label, Coded};
ghost use Rattle.rv_asm.specs.Faults.{found, with_number, with_head, with_statement, with_body, with_tokens, is_head, faults_of_statement};
ghost use Rattle.rv_asm.specs.Faults.{faults_of_tokens, head_faults, body_faults, faults_by, faults_of_line, faults_at_end, nothing_said};
ghost use Rattle.rv_asm.specs.StatementView.{texts, seen, code_seen};
ghost use Rattle.rv_asm.specs.PassView.{said, labels_seen, placed_seen};

use crate::AsmCause;
use crate::form::statement_of;
use crate::head::{Next, behind, head_number, is_body};
use crate::jump::Jump;
use crate::statement::{Code, Statement};
use crate::tokens::first_tokens;
use indexmap::IndexMap;
use rv_image::{MAX_WORDS, MIN_STRIDE};
use std::alloc::{AllocError, Global};
use tam_text::{are_good_bytes, without_comment};

/// A word, or what goes to a label.
#[derive(Clone, Copy)]
pub enum Draft {
    Word(u32),
    Goto(Jump),
}

/// What has a word, its line, and the label that it goes to, which is empty where it goes to none.
#[derive(Clone, Copy)]
pub struct Placed<'t> {
    pub line: u32,
    pub draft: Draft,
    pub label: &'t [u8],
}

/// Which line comes next, the numbers of the head, the labels with the number of words before each, and the words.
#[derive(Drop)]
pub struct Pass<'t> {
    pub next: Next,
    pub stride: u32,
    pub params: u32,
    pub results: u32,
    pub labels: IndexMap<&'t [u8], u32>,
    pub words: Vec<Placed<'t>>,
}

/// Before the first line.
pub fn nothing_said<'t>(alloc: Global) -> Pass<'t>
    ensures value { said result ≡ nothing_said }
{
    Pass {
        next: Next::Image,
        stride: MIN_STRIDE,
        params: 0,
        results: 0,
        labels: IndexMap::new(alloc),
        words: Vec::new(alloc),
    }
}

/// How many words stand before a label.
pub fn find(labels: &IndexMap<&[u8], u32>, name: &[u8]) -> Option<u32>
    ensures value { result ≡ found name.now (labels_seen labels.now.entries) }
{
    labels.get(&name).copied()
}

// The number of a head line.
fn put_number(pass: &mut Pass<'_>, number: u32)
    ensures value { said pass.new ≡ with_number pass.old.next number (said pass.old) }
{
    match pass.next {
        Next::Stride => pass.stride = number,
        Next::Params => pass.params = number,
        Next::Results => pass.results = number,
        Next::Image | Next::Body => {}
    }
}

// A head line.
fn put_head(pass: &mut Pass<'_>, tokens: &[&[u8]])
    ensures value { said pass.new ≡ with_head (head_number pass.old.next (texts tokens.now)) (said pass.old) }
{
    if let Some(number) = head_number(pass.next, tokens) {
        put_number(pass, number);
        pass.next = behind(pass.next);
    }
}

// What is wrong with a statement.
fn statement_cause(pass: &Pass<'_>, statement: &Statement<'_>) -> Option<AsmCause>
    ensures value { option_to_list result ≡ take 1 (faults_of_statement (said pass.now) (Ok (seen statement.now))) }
{
    match statement {
        Statement::Label(name) => {
            if find(&pass.labels, name).is_some() {
                Some(AsmCause::TwiceNamed)
            } else {
                None
            }
        }
        Statement::Code(_) => {
            if pass.words.len() >= MAX_WORDS as usize {
                Some(AsmCause::TooMany)
            } else {
                None
            }
        }
    }
}

// Puts in a label.
fn put_label<'t>(pass: &mut Pass<'t>, line: u32, name: &'t [u8]) -> Result<(), AllocError>
    requires few { length pass.old.words.items ≤ max_words }
    requires absent { found name.now (labels_seen pass.old.labels.entries) ≡ None }
    ensures said { OnOk result (said pass.new ≡ with_statement line (Ok (Label name.now)) (said pass.old)) }
{
    let words = pass.words.len() as u32;
    pass.labels.insert(name, words)?;
    Ok(())
}

fn placed_at<'t>(line: u32, code: &Code<'t>) -> Placed<'t>
    ensures value { placed_seen result ≡ (line, code_seen code.now) }
{
    match code {
        Code::Word(word) => Placed {
            line,
            draft: Draft::Word(*word),
            label: b"",
        },
        Code::Goto(jump, label) => Placed {
            line,
            draft: Draft::Goto(*jump),
            label,
        },
    }
}

// Appends a word.
fn push_word<'t>(words: &mut Vec<Placed<'t>>, line: u32, code: &Code<'t>) -> Result<(), AllocError>
    ensures ok { OnOk result (map placed_seen words.new.items ≡ map placed_seen words.old.items ++ (line, code_seen code.now) ∷ []) }
{
    words.extend_from_slice(&[placed_at(line, code)])
}

// Puts in a word.
fn put_word<'t>(pass: &mut Pass<'t>, line: u32, code: &Code<'t>) -> Result<(), AllocError>
    ensures said { OnOk result (said pass.new ≡ with_statement line (Ok (Coded (code_seen code.now))) (said pass.old)) }
{
    push_word(&mut pass.words, line, code)
}

// A statement in a line.
fn put_statement<'t>(
    pass: &mut Pass<'t>,
    line: u32,
    statement: &Statement<'t>,
) -> Result<(), AllocError>
    requires few { length pass.old.words.items ≤ max_words }
    requires faultless { faults_of_statement (said pass.old) (Ok (seen statement.now)) ≡ [] }
    ensures said { OnOk result (said pass.new ≡ with_statement line (Ok (seen statement.now)) (said pass.old)) }
{
    match statement {
        Statement::Label(name) => put_label(pass, line, name),
        Statement::Code(code) => put_word(pass, line, code),
    }
}

// A statement of a line, where nothing is wrong with it.
fn statement_said<'t>(
    pass: &mut Pass<'t>,
    line: u32,
    statement: &Statement<'t>,
) -> Result<Option<AsmCause>, AllocError>
    requires few { length pass.old.words.items ≤ max_words }
    ensures cause { IfOk result (λ r. option_to_list r ≡ take 1 (faults_of_statement (said pass.old) (Ok (seen statement.now)))) }
    ensures said { IfOk result (λ r. IfNone r (said pass.new ≡ with_statement line (Ok (seen statement.now)) (said pass.old))) }
{
    if let Some(cause) = statement_cause(pass, statement) {
        return Ok(Some(cause));
    }
    put_statement(pass, line, statement)?;
    Ok(None)
}

// A line with tokens behind the head.
fn statement_line<'t>(
    pass: &mut Pass<'t>,
    line: u32,
    tokens: &[&'t [u8]],
) -> Result<Option<AsmCause>, AllocError>
    requires few { length pass.old.words.items ≤ max_words }
    ensures cause { IfOk result (λ r. option_to_list r ≡ take 1 (faults_of_statement (said pass.old) (statement_of (texts tokens.now)))) }
    ensures said { IfOk result (λ r. IfNone r (said pass.new ≡ with_statement line (statement_of (texts tokens.now)) (said pass.old))) }
{
    match statement_of(tokens) {
        Err(cause) => Ok(Some(cause)),
        Ok(statement) => statement_said(pass, line, &statement),
    }
}

// A line behind the head.
fn body_line<'t>(
    pass: &mut Pass<'t>,
    number: u32,
    line: &[u8],
    tokens: &[&'t [u8]],
) -> Result<Option<AsmCause>, AllocError>
    requires few { length pass.old.words.items ≤ max_words }
    ensures cause { IfOk result (λ r. option_to_list r ≡ take 1 (body_faults (said pass.old) line.now (texts tokens.now))) }
    ensures said { IfOk result (λ r. IfNone r (said pass.new ≡ with_body number (texts tokens.now) (said pass.old))) }
{
    if !are_good_bytes(line) {
        return Ok(Some(AsmCause::BadLine));
    }
    if tokens.is_empty() {
        return Ok(None);
    }
    statement_line(pass, number, tokens)
}

// Whether these are the tokens of the head line that comes next, or none.
fn is_head(next: Next, tokens: &[&[u8]]) -> bool
    ensures value { result ≡ is_head next (texts tokens.now) }
{
    tokens.is_empty() || head_number(next, tokens).is_some()
}

// What is wrong with a line in the head.
fn head_cause(next: Next, line: &[u8], tokens: &[&[u8]]) -> Option<AsmCause>
    ensures value { option_to_list result ≡ take 1 (head_faults next line.now (texts tokens.now)) }
{
    if !(are_good_bytes(without_comment(line)) && is_head(next, tokens)) {
        return Some(AsmCause::BadHead);
    }
    if !are_good_bytes(line) {
        return Some(AsmCause::BadLine);
    }
    None
}

// What is wrong with a line of these tokens; where nothing is, what they say is added.
fn tokens_cause<'t>(
    pass: &mut Pass<'t>,
    number: u32,
    line: &[u8],
    tokens: &[&'t [u8]],
) -> Result<Option<AsmCause>, AllocError>
    requires few { length pass.old.words.items ≤ max_words }
    ensures cause { IfOk result (λ r. option_to_list r ≡ take 1 (faults_by (said pass.old) line.now (texts tokens.now))) }
    ensures said { IfOk result (λ r. IfNone r (said pass.new ≡ with_tokens number (texts tokens.now) (said pass.old))) }
{
    if is_body(pass.next) {
        return body_line(pass, number, line, tokens);
    }
    if let Some(cause) = head_cause(pass.next, line, tokens) {
        return Ok(Some(cause));
    }
    put_head(pass, tokens);
    Ok(None)
}

/// What is wrong with a line; where nothing is, what it says is added.
pub fn line_cause<'t>(
    alloc: Global,
    pass: &mut Pass<'t>,
    number: u32,
    line: &'t [u8],
) -> Result<Option<AsmCause>, AllocError>
    requires few { length pass.old.words.items ≤ max_words }
    ensures cause { IfOk result (λ r. option_to_list r ≡ take 1 (faults_of_line (said pass.old) line.now)) }
    ensures said { IfOk result (λ r. IfNone r (said pass.new ≡ with_tokens number (tokens_of line.now) (said pass.old))) }
{
    let tokens = first_tokens(alloc, line)?;
    tokens_cause(pass, number, line, &tokens)
}

/// What is wrong at the end.
pub fn end_cause(pass: &Pass<'_>) -> Option<AsmCause>
    ensures value { option_to_list result ≡ take 1 (faults_at_end (said pass.now)) }
{
    if is_body(pass.next) && !pass.words.is_empty() {
        return None;
    }
    Some(AsmCause::Ended)
}
