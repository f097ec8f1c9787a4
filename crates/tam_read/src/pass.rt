//! What is kept of the lines before a line, and the faults of the line by that.
ghost use Rattle.std.specs.Prelude.{◌≡◌, ◌||◌, ◌&&◌, nat_lt, ◌≤◌, ◌∷◌, [], ◌+◌, ◌<◌, ◌^◌, map, take, reverse, option_to_list, OnOk, length};
ghost use Rattle.tam_word.specs.Lists.{any_of, same_bytes};
ghost use Rattle.tam_read.specs.Sentences.{is_code, is_cond, vertices_of, code_begun, names_made};
ghost use Rattle.tam_read.specs.Faults.{is_out_of_place, some_shared};
ghost use Rattle.tam_read.specs.Kept.{limits_kept, faults_kept, kept_behind, innermost, with_vertices, without_innermost, blocks_behind};
ghost use Rattle.tam_read.specs.KeptView.{kept};
ghost use Rattle.tam_read.specs.SaidView.{seen, texts};

use crate::block::{Block, Opening};
use crate::cause::{Limit, ReadCause};
use crate::faults::{has_bad_name, has_bad_number};
use crate::form::{Verb, vertices_of};
use crate::names::name_made;
use crate::said::Said;
use indexmap::IndexSet;

/// What is kept of the lines before a line.
#[derive(Drop)]
pub struct Kept<'t> {
    pub codes: IndexSet<&'t [u8]>,
    pub names: IndexSet<&'t [u8]>,
    pub vertices: u32,
    pub blocks: Vec<Block>,
}

/// Whether a code begins.
pub fn is_code(verb: Verb) -> bool
    ensures value { result ≡ is_code verb }
{
    matches!(verb, Verb::Code)
}

fn is_cond(verb: Verb) -> bool
    ensures value { result ≡ is_cond verb }
{
    matches!(verb, Verb::Cond)
}

fn innermost(blocks: &[Block]) -> Option<Block>
    ensures value { option_to_list result ≡ take 1 (reverse blocks.now) }
{
    blocks.last().copied()
}

fn is_out_of_place(verb: Verb, blocks: &[Block]) -> bool
    ensures value { result ≡ is_out_of_place verb (map (λ b. b.opening) (reverse blocks.now)) }
{
    let within = innermost(blocks).map(|block| block.opening);
    match verb {
        Verb::Code => within.is_some(),
        Verb::Else => within != Some(Opening::ByCond),
        Verb::End => within.is_none() || within == Some(Opening::ByCond),
        _ => within.is_none(),
    }
}

// Whether the name stands among others.
fn is_kept(name: &[u8], others: &IndexSet<&[u8]>) -> bool
    ensures value { result ≡ any_of (same_bytes name.now) (texts (reverse others.now.keys)) }
{
    others.contains(&name)
}

// Whether a code before has the name of the code that begins.
fn is_code_again(said: &Said<'_, '_>, codes: &IndexSet<&[u8]>) -> bool
    ensures value { result ≡ some_shared (code_begun (seen said.now)) (texts (reverse codes.now.keys)) }
{
    if !is_code(said.verb) {
        return false;
    }
    match said.rest {
        [name, ..] => is_kept(name, codes),
        [] => false,
    }
}

// Whether a node before has the name of the node that is made.
fn is_node_again(said: &Said<'_, '_>, names: &IndexSet<&[u8]>) -> bool
    ensures value { result ≡ some_shared (names_made (seen said.now)) (texts (reverse names.now.keys)) }
{
    match said.name {
        Some(token) => is_kept(name_made(said.verb, token), names),
        None => false,
    }
}

// Whether the node would have its block or code pass a limit.
fn passes(limit: u32, count: u32, more: u32) -> bool
    requires within { more ≤ limit }
    ensures value { result ≡ (nat_lt 0 more && nat_lt limit (more + count)) }
{
    more > 0 && count > limit - more
}

fn vertices_within(blocks: &[Block]) -> u32
    ensures value { result ≡ innermost (reverse blocks.now) }
{
    match innermost(blocks) {
        Some(block) => block.vertices,
        None => 0,
    }
}

// The first limit that is passed.
fn limit_passed(before: &Kept<'_>, said: &Said<'_, '_>) -> Option<Limit>
    ensures value { option_to_list result ≡ take 1 (limits_kept (kept before.now) (seen said.now)) }
{
    let more = vertices_of(said.verb);
    if is_code(said.verb) && before.codes.len() > 255 {
        return Some(Limit::Codes);
    }
    if passes(1024, before.vertices, more) {
        return Some(Limit::CodeVertices);
    }
    if passes(128, vertices_within(&before.blocks), more) {
        return Some(Limit::BlockVertices);
    }
    if is_cond(said.verb) && before.blocks.len() > 16 {
        return Some(Limit::Nesting);
    }
    None
}

/// The first fault of a sentence, by what is kept of those before.
pub fn first_cause(before: &Kept<'_>, said: &Said<'_, '_>) -> Option<ReadCause>
    ensures value { option_to_list result ≡ take 1 (faults_kept (kept before.now) (seen said.now)) }
{
    if has_bad_name(said) {
        return Some(ReadCause::BadName);
    }
    if has_bad_number(said) {
        return Some(ReadCause::BadNumber);
    }
    if is_out_of_place(said.verb, &before.blocks) {
        return Some(ReadCause::BadNesting);
    }
    if is_code_again(said, &before.codes) || is_node_again(said, &before.names) {
        return Some(ReadCause::TwiceNamed);
    }
    match limit_passed(before, said) {
        Some(limit) => Some(ReadCause::TooMany(limit)),
        None => None,
    }
}
