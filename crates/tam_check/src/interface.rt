// Interfaces: the nodes that hand values over at the border of a code, a call, a cond or a branch, each at a place.
ghost use Rattle.std.specs.Prelude.{◌≡◌, ◌<◌, ◌*◌, ◌^◌};
ghost use Rattle.tam_check.specs.Interfaces.{interface_of};
ghost use Rattle.tam_check.specs.Tables.{number};

use tam_graph::Kind;

/// One side of a border. A call and a cond are nodes, by their numbers; a branch is a block.
///
/// docs/FORMATS.md, "Which graphs are accepted".
#[derive(Clone, Copy, Debug, PartialEq, Eq)]
pub enum Interface {
    Params,
    Results,
    Args { call: u32 },
    Rets { call: u32 },
    Switches { cond: u32 },
    Merges { cond: u32 },
    Ins { block: u32 },
    Outs { block: u32 },
}

impl Interface {
    /// The interface of a node that stands in this block, and its place there.
    pub fn of(block: u32, kind: Kind) -> Option<(Interface, u32)>
        ensures value { result ≡ interface_of block kind }
    {
        match kind {
            Kind::Param { place } => Some((Interface::Params, place)),
            Kind::Give { place, .. } => Some((Interface::Results, place)),
            Kind::Arg { call, place, .. } => Some((Interface::Args { call }, place)),
            Kind::Ret { call, place } => Some((Interface::Rets { call }, place)),
            Kind::Switch { cond, place, .. } => Some((Interface::Switches { cond }, place)),
            Kind::Merge { cond, place } => Some((Interface::Merges { cond }, place)),
            Kind::Enter { place } => Some((Interface::Ins { block }, place)),
            Kind::Leave { place, .. } => Some((Interface::Outs { block }, place)),
            _ => None,
        }
    }

    /// Its number: eight interfaces stand beside each other for each node and each block.
    pub fn number(self) -> usize
        ensures value { result ≡ number self }
        ensures in_range { result < 8 * 2 ^ 32 }
    {
        let (owner, sort) = match self {
            Interface::Params => (0, 0),
            Interface::Results => (0, 1),
            Interface::Args { call } => (call, 2),
            Interface::Rets { call } => (call, 3),
            Interface::Switches { cond } => (cond, 4),
            Interface::Merges { cond } => (cond, 5),
            Interface::Ins { block } => (block, 6),
            Interface::Outs { block } => (block, 7),
        };
        8 * owner as usize + sort
    }
}
