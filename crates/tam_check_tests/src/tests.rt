// Graphs of one code, checked.
ghost use Rattle.std.specs.Prelude.{◌≡◌};
ghost use Rattle.tam_graph.specs.Graphs.{main_name};
ghost use Rattle.tam_graph.specs.Reading.{IsCodeOfText};

use std::alloc::Global;
use std::test::Fail;
use tam_check::{CheckCause, CheckError, check};
use tam_graph::{Code, Graph, Kind, Name, Node, Place};
use tam_word::Op;

// What is told of a graph whose only code, `main`, has these nodes.
fn told(alloc: Global, nodes: &[Node], owners: &[Option<u32>]) -> Result<Option<CheckError>, Fail>
    requires of_text { IsCodeOfText 1 (record { name = main_name; nodes = nodes.now; owners = owners.now }) }
{
    let main = Name::of(b"main").ok_or("a name")?;
    let code = Code::of(main, nodes.to_vec(alloc)?, owners.to_vec(alloc)?);
    let graph = Graph::of(vec![in alloc; code]?);
    match check(alloc, graph) {
        Ok(_) => Ok(None),
        Err((_, error)) => Ok(Some(error)),
    }
}

fn at(node: u32, cause: CheckCause) -> Option<CheckError> {
    let place = Place::Node { code: 0, node };
    Some(CheckError::At { place, cause })
}

fn plain(name: Option<Name>, block: u32, kind: Kind) -> Node
    ensures value { result ≡ record { name = name; depth = 0; block = block; kind = kind } }
{
    Node {
        name,
        depth: 0,
        block,
        kind,
    }
}

// A cycle of two nodes stands at the lower.
#[test]
fn cycles_are_told(rt: HostRuntime) -> Result<(), Fail> {
    let a = Name::of(b"a").ok_or("a name")?;
    let b = Name::of(b"b").ok_or("a name")?;
    let add = Op::Add;
    let nodes = [
        plain(
            Some(a),
            0,
            Kind::Op {
                op: add,
                a: 1,
                b: 1,
            },
        ),
        plain(
            Some(b),
            0,
            Kind::Op {
                op: add,
                a: 0,
                b: 0,
            },
        ),
        plain(None, 0, Kind::Give { place: 0, a: 0 }),
    ];
    assert_eq!(rt;
        told(rt.alloc(), &nodes, &[None])?,
        at(0, CheckCause::Cycle)
    );
    Ok(())
}

// A param in a branch.
#[test]
fn wrong_blocks_are_told(rt: HostRuntime) -> Result<(), Fail> {
    let a = Name::of(b"a").ok_or("a name")?;
    let b = Name::of(b"b").ok_or("a name")?;
    let c = Name::of(b"c").ok_or("a name")?;
    let nodes = [
        plain(Some(a), 0, Kind::Const { word: 1 }),
        plain(
            Some(b),
            0,
            Kind::Cond {
                test: 0,
                yes: 1,
                no: 2,
            },
        ),
        plain(Some(c), 2, Kind::Param { place: 0 }),
    ];
    assert_eq!(rt;
        told(rt.alloc(), &nodes, &[None, Some(1), Some(1)])?,
        at(2, CheckCause::WrongBlock)
    );
    Ok(())
}

// An array's fetch may feed its own index.
#[test]
fn a_graph_is_accepted(rt: HostRuntime) -> Result<(), Fail> {
    let n = Name::of(b"n").ok_or("a name")?;
    let array = Name::of(b"A").ok_or("a name")?;
    let a = Name::of(b"a").ok_or("a name")?;
    let b = Name::of(b"b").ok_or("a name")?;
    let alloc = Node {
        name: Some(array),
        depth: 1,
        block: 0,
        kind: Kind::Alloc { len: 0 },
    };
    let nodes = [
        plain(Some(n), 0, Kind::Const { word: 1 }),
        alloc,
        plain(Some(a), 0, Kind::Fetch { array: 1, index: 3 }),
        plain(
            Some(b),
            0,
            Kind::Op {
                op: Op::Add,
                a: 2,
                b: 2,
            },
        ),
        plain(None, 0, Kind::Give { place: 0, a: 0 }),
    ];
    assert_eq!(rt; told(rt.alloc(), &nodes, &[None])?, None);
    Ok(())
}

// The last node breaks two rules, and the first of them is told; a later node of one place is told.
#[test]
fn the_first_fault_is_told(rt: HostRuntime) -> Result<(), Fail> {
    let a = Name::of(b"a").ok_or("a name")?;
    let b = Name::of(b"b").ok_or("a name")?;
    let array = Node {
        name: Some(b),
        depth: 1,
        block: 0,
        kind: Kind::Param { place: 0 },
    };
    let nodes = [plain(Some(a), 0, Kind::Param { place: 0 }), array];
    assert_eq!(rt;
        told(rt.alloc(), &nodes, &[None])?,
        at(1, CheckCause::PlaceTwice)
    );
    Ok(())
}

#[test]
fn a_graph_without_main_is_refused(rt: HostRuntime) -> Result<(), Fail> {
    let error = match check(rt.alloc(), Graph::of(Vec::new(rt.alloc()))) {
        Ok(_) => None,
        Err((_, error)) => Some(error),
    };
    let cause = CheckCause::NoMain;
    assert_eq!(rt;
        error,
        Some(CheckError::At {
            place: Place::File,
            cause
        })
    );
    Ok(())
}
