// What feeds a node within its block.
ghost use Rattle.std.specs.Prelude.{◌≡◌};
ghost use Rattle.tam_graph.specs.Graphs.{test_of};
ghost use Rattle.tam_check.specs.Sources.{sources_of, listed, source_at};

use crate::nodes::kind_at;
use tam_graph::{Code, Kind};

/// The nodes whose values go into a node's own: up to three, in order.
#[derive(Clone, Copy, Debug, PartialEq, Eq)]
pub struct Sources {
    pub first: Option<u32>,
    pub second: Option<u32>,
    pub third: Option<u32>,
}

impl Sources {
    /// The sources of a node; none where what it gives comes from outside its block.
    pub fn of(code: &Code, x: u32) -> Sources
        ensures value { listed result ≡ sources_of code.now x }
    {
        let (first, second, third) = match kind_at(code, x) {
            Kind::Op { a, b, .. } | Kind::Seq { a, b } => (Some(a), Some(b), None),
            Kind::Arg { call, a, .. } => (Some(a), Some(call), None),
            Kind::Give { a, .. } | Kind::Leave { a, .. } => (Some(a), None, None),
            Kind::Store { array, index, a } => (Some(array), Some(index), Some(a)),
            Kind::Cond { test, .. } => (Some(test), None, None),
            Kind::Switch { cond, a, .. } => (Some(test_of(code, cond)), Some(a), None),
            _ => (None, None, None),
        };
        Sources {
            first,
            second,
            third,
        }
    }

    /// The source at a place from 0 to 2.
    pub fn get(self, place: u32) -> Option<u32>
        ensures value { result ≡ source_at self place }
    {
        match place {
            0 => self.first,
            1 => self.second,
            2 => self.third,
            _ => None,
        }
    }
}

// The node whose value decides a cond.
fn test_of(code: &Code, cond: u32) -> u32
    ensures value { result ≡ test_of code.now cond }
{
    match kind_at(code, cond) {
        Kind::Cond { test, .. } => test,
        _ => 0,
    }
}
