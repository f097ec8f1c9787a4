// The faults that a sentence has by itself.
ghost use Rattle.std.specs.Prelude.{◌≡◌, ◌∷◌, []};
ghost use Rattle.tam_read.specs.Sentences.{is_name_for, is_number_for, each_token, names_made};
ghost use Rattle.tam_word.specs.Lists.{all_of};
ghost use Rattle.tam_text.specs.Names.{is_name};
ghost use Rattle.tam_read.specs.Faults.{has_bad_name, has_bad_number};
ghost use Rattle.tam_read.specs.SaidView.{seen, texts};

use crate::form::{Role, roles_of};
use crate::names::name_made;
use crate::said::Said;
use tam_text::is_name;
use tam_word::{read_number, read_word};

pub const MAX_PLACE: u32 = 63;

fn is_name_for(role: Role, token: &[u8]) -> bool
    ensures value { result ≡ is_name_for role token.now }
{
    matches!(role, Role::Place | Role::Word) || is_name(token)
}

fn is_number_for(role: Role, token: &[u8]) -> bool
    ensures value { result ≡ is_number_for role token.now }
{
    match role {
        Role::Place => read_number(token, MAX_PLACE).is_some(),
        Role::Word => read_word(token).is_some(),
        _ => true,
    }
}

// Whether each name is one, where the roles ask for names.
fn are_names(roles: &[Role], tokens: &[&[u8]]) -> bool
    ensures value { result ≡ each_token is_name_for roles.now (texts tokens.now) }
{
    let mut roles = roles;
    let mut tokens = tokens;
    while let [role, other_roles @ ..] = roles {
        let [token, other_tokens @ ..] = tokens else {
            return true;
        };
        if !is_name_for(*role, token) {
            return false;
        }
        roles = other_roles;
        tokens = other_tokens;
    }
    true
}

// Whether each place and each word is one, where the roles ask for them.
fn are_numbers(roles: &[Role], tokens: &[&[u8]]) -> bool
    ensures value { result ≡ each_token is_number_for roles.now (texts tokens.now) }
{
    let mut roles = roles;
    let mut tokens = tokens;
    while let [role, other_roles @ ..] = roles {
        let [token, other_tokens @ ..] = tokens else {
            return true;
        };
        if !is_number_for(*role, token) {
            return false;
        }
        roles = other_roles;
        tokens = other_tokens;
    }
    true
}

// Whether the name before `=` is one, where it stands there.
fn makes_name(said: &Said<'_, '_>) -> bool
    ensures value { result ≡ all_of is_name (names_made (seen said.now)) }
{
    match said.name {
        None => true,
        Some(token) => is_name(name_made(said.verb, token)),
    }
}

/// Whether one of the names isn't a name.
pub fn has_bad_name(said: &Said<'_, '_>) -> bool
    ensures value { result ≡ has_bad_name (seen said.now) }
{
    !(makes_name(said) && are_names(roles_of(said.verb), said.rest))
}

/// Whether a place or a word isn't one.
pub fn has_bad_number(said: &Said<'_, '_>) -> bool
    ensures value { result ≡ has_bad_number (seen said.now) }
{
    !are_numbers(roles_of(said.verb), said.rest)
}
