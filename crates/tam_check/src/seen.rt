// What is handed over at one place of an interface.
ghost use Rattle.std.specs.Prelude.{◌≡◌};
ghost use Rattle.tam_check.specs.Tables.{with_depth, is_something, is_only};

/// Whether a node has the place, and which depths are handed over there.
#[derive(Clone, Copy, Debug, PartialEq, Eq)]
pub enum Seen {
    Nothing,
    Depth { depth: u8 },
    /// More than one.
    Depths,
}

impl Seen {
    /// With one more node, which hands over this depth.
    pub fn with_depth(self, depth: u8) -> Seen
        ensures value { result ≡ with_depth self depth }
    {
        match self {
            Seen::Nothing => Seen::Depth { depth },
            Seen::Depth { depth: own } if own == depth => self,
            _ => Seen::Depths,
        }
    }

    pub fn is_something(self) -> bool
        ensures value { result ≡ is_something self }
    {
        match self {
            Seen::Nothing => false,
            _ => true,
        }
    }

    /// Whether no other depth is handed over.
    pub fn is_only(self, depth: u8) -> bool
        ensures value { result ≡ is_only self depth }
    {
        match self {
            Seen::Nothing => true,
            Seen::Depth { depth: own } => own == depth,
            Seen::Depths => false,
        }
    }
}
