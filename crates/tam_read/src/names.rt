// Names in a text.
ghost use Rattle.std.specs.Prelude.{◌≡◌, ◌∷◌, [], codes, map, option_to_list};
ghost use Rattle.tam_word.specs.Lists.{all_of, same_bytes};
ghost use Rattle.tam_text.specs.Names.{is_name};
ghost use Rattle.tam_read.specs.Sentences.{has_depth, without_depth, name_made};

use crate::form::{Role, Verb, makes};

// Whether a depth stands at the end.
pub fn has_depth(token: &[u8]) -> bool
    ensures value { result ≡ has_depth token.now }
{
    let len = token.len();
    len >= 2 && token[len - 2] == b':' && matches!(token[len - 1], b'1'..=b'3')
}

/// A name without its depth.
pub fn without_depth(token: &[u8]) -> &[u8]
    ensures value { result.now ≡ without_depth token.now }
{
    if has_depth(token) {
        &token[..token.len() - 2]
    } else {
        token
    }
}

/// The name in the token before `=`.
pub fn name_made(verb: Verb, token: &[u8]) -> &[u8]
    ensures value { result.now ≡ name_made verb token.now }
{
    match makes(verb) {
        Some(Role::Value) => without_depth(token),
        _ => token,
    }
}
