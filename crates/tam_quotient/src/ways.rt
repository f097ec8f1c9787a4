// The ways to a class and from it.
use tam_sets::Set;

/// What a class leads to and what leads to it.
#[derive(Clone, Copy, Debug)]
pub struct Ways {
    /// The classes that it leads to, itself among them.
    pub ahead: Set,
    /// The classes that lead to it, itself among them.
    pub behind: Set,
    /// The inlets whose classes lead to it.
    pub entering: Set,
    /// The inlets on which each outlet that it leads to depends.
    pub allowed: Set,
}

impl Ways {
    ghost use Rattle.std.specs.Prelude.{◌≡◌};
    ghost use Rattle.tam_quotient.specs.Joins.{tells_apart, tells_none_between};

    /// Whether an outlet that one of the two classes leads to doesn't depend on an inlet that leads to the other.
    pub fn is_apart(&self, other: &Ways) -> bool
        ensures value { result ≡ tells_apart self.now other.now }
    {
        !(self.entering.within(&other.allowed) && other.entering.within(&self.allowed))
    }

    /// Whether no third class stands on a way from one of the two to the other. What a class of a valid partition leads to and is led
    /// to by is the class itself.
    pub fn has_none_between(&self, other: &Ways) -> bool
        ensures value { result ≡ tells_none_between self.now other.now }
    {
        let there = self.ahead.meet(&other.behind);
        let back = other.ahead.meet(&self.behind);
        let one = self.ahead.meet(&self.behind);
        let two = other.ahead.meet(&other.behind);
        there.join(&back).within(&one.join(&two))
    }
}
