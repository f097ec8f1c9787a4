//! What a line says.
ghost use Rattle.std.specs.Prelude.{◌≡◌, ◌∷◌, [], codes, map, option_to_list};
ghost use Rattle.tam_word.specs.Lists.{same_bytes};
ghost use Rattle.tam_read.specs.Sentences.{sentence_of, said_by, said_named, has_form};
ghost use Rattle.tam_read.specs.SaidView.{seen, texts, texts_of};

use crate::form::{Verb, makes, roles_of, verb_called};

/// A line under the form of its verb.
#[derive(Clone, Copy)]
pub struct Said<'w, 't> {
    pub name: Option<&'t [u8]>,
    pub verb: Verb,
    pub rest: &'w [&'t [u8]],
}

fn is_sign(token: &[u8]) -> bool
    ensures value { result ≡ same_bytes token.now (codes "=") }
{
    match token {
        [byte] => *byte == b'=',
        _ => false,
    }
}

// Whether the verb has such a name before it and as many tokens behind it.
fn has_form(name: Option<&[u8]>, rest: &[&[u8]], verb: Verb) -> bool
    ensures value { result ≡ has_form (texts_of name.entry) (texts rest.now) verb }
{
    makes(verb).is_some() == name.is_some() && rest.len() == roles_of(verb).len()
}

fn said_by<'w, 't>(
    name: Option<&'t [u8]>,
    token: &[u8],
    rest: &'w [&'t [u8]],
) -> Option<Said<'w, 't>>
    ensures value { said_by (texts_of name.entry) token.now (texts rest.now) ≡ map seen (option_to_list result) }
{
    let verb = verb_called(token)?;
    if !has_form(name, rest, verb) {
        return None;
    }
    Some(Said { name, verb, rest })
}

// What a line says behind its name and `=`.
fn named<'w, 't>(name: &'t [u8], tokens: &'w [&'t [u8]]) -> Option<Said<'w, 't>>
    ensures value { said_named name.now (texts tokens.now) ≡ map seen (option_to_list result) }
{
    match tokens {
        [] => None,
        [verb, rest @ ..] => said_by(Some(name), verb, rest),
    }
}

/// What a line of these tokens says.
pub fn sentence_of<'w, 't>(tokens: &'w [&'t [u8]]) -> Option<Said<'w, 't>>
    ensures value { sentence_of (texts tokens.now) ≡ map seen (option_to_list result) }
{
    match tokens {
        [] => None,
        [name, sign, rest @ ..] if is_sign(sign) => named(name, rest),
        [verb, rest @ ..] => said_by(None, verb, rest),
    }
}
