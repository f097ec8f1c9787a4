// The name of a code or of a node.
ghost use Rattle.std.specs.Prelude.{◌≡◌, ◌↔◌, IsSome, IfSome};
ghost use Rattle.tam_word.specs.Lists.{same_bytes};
ghost use Rattle.tam_text.specs.Names.{IsName};

use std::marker::Model;
use tam_text::is_name;

const LONGEST: usize = 32;

/// A letter or `_`, then letters, digits or `_`: 1 to 32 bytes.
#[derive(Clone, Copy, Debug, PartialEq, Eq)]
pub struct Name {
    bytes: [u8; LONGEST],
    len: usize,
}

impl Model for Name {
    ghost use Rattle.std.specs.Prelude.{List, ℕ, take};

    ghost Value = { List ℕ };

    ghost use Rattle.tam_graph.specs.Padding.{IsPadded, unpadded, padded_again};

    ghost view = { λ n. take n.len n.bytes };

    // Behind the name all is 0.
    ghost invariant = { IsPadded };

    ghost inverse = { unpadded };

    ghost inverse_ok = { padded_again };
}

impl Name {
    /// The name of these bytes, if they are one.
    ///
    /// docs/FORMATS.md, "Graph text".
    pub fn of(bytes: &[u8]) -> Option<Name>
        ensures named { IsSome result ↔ IsName bytes.now }
        ensures value { IfSome result (λ name. name ≡ bytes.now) }
    {
        if !is_name(bytes) {
            return None;
        }
        let mut padded = [0; LONGEST];
        padded[..bytes.len()].copy_from_slice(bytes);
        Some(Name {
            bytes: padded,
            len: bytes.len(),
        })
    }

    pub fn bytes(&self) -> &[u8]
        ensures value { result.now ≡ self.now }
        ensures named { IsName self.now }
    {
        &self.bytes[..self.len]
    }

    /// Whether the name is these bytes.
    pub fn is(&self, bytes: &[u8]) -> bool
        ensures value { result ≡ same_bytes bytes.now self.now }
    {
        bytes == self.bytes()
    }
}
