// Sets of small blocks, worked by hand.
ghost use Rattle.std.specs.Prelude.{◌≡◌};

use crate::{demands, depends};
use std::test::Fail;
use tam_graph::{Accepted, Code, Graph, Kind, Name, Node};
use tam_sets::{PLACES, Set};
use tam_split::split;
use tam_word::Op;

fn node(name: Option<Name>, kind: Kind) -> Node
    ensures value { result ≡ record { name = name; depth = 0; block = 0; kind = kind } }
{
    Node {
        name,
        depth: 0,
        block: 0,
        kind,
    }
}

fn set(places: &[u32]) -> Set {
    let mut set = Set::empty();
    for place in places {
        if *place < PLACES {
            set.insert(*place);
        }
    }
    set
}

// dg 1 / code main / a = param 0 / b = param 1 / one = const 1 / c = add a one / d = add b c / result 0 c / result 1 d / end
#[test]
fn inlets_and_outlets_of_each_vertex(rt: HostRuntime) -> Result<(), Fail> {
    let main = Name::of(b"main").expect(&rt, "main is a name");
    let a = Name::of(b"a").expect(&rt, "a is a name");
    let b = Name::of(b"b").expect(&rt, "b is a name");
    let one = Name::of(b"one").expect(&rt, "one is a name");
    let c = Name::of(b"c").expect(&rt, "c is a name");
    let d = Name::of(b"d").expect(&rt, "d is a name");
    let nodes = vec![in rt.alloc();
        node(Some(a), Kind::Param { place: 0 }),
        node(Some(b), Kind::Param { place: 1 }),
        node(Some(one), Kind::Const { word: 1 }),
        node(
            Some(c),
            Kind::Op {
                op: Op::Add,
                a: 0,
                b: 2
            }
        ),
        node(
            Some(d),
            Kind::Op {
                op: Op::Add,
                a: 1,
                b: 3
            }
        ),
        node(None, Kind::Give { place: 0, a: 3 }),
        node(None, Kind::Give { place: 1, a: 4 }),
    ]?;
    let owners = vec![in rt.alloc(); None]?;
    let codes = vec![in rt.alloc(); Code::of(main, nodes, owners)]?;
    let accepted = Accepted::of(Graph::of(codes));
    let Ok(block) = split(rt.alloc(), &accepted, 0, 0) else {
        return Err(Fail::from("no memory"));
    };
    let Ok(dep) = depends(rt.alloc(), &block) else {
        return Err(Fail::from("no memory"));
    };
    let Ok(dem) = demands(rt.alloc(), &block) else {
        return Err(Fail::from("no memory"));
    };
    let inlets: [&[u32]; 7] = [&[0], &[1], &[], &[0], &[0, 1], &[0], &[0, 1]];
    let outlets: [&[u32]; 7] = [&[5, 6], &[6], &[5, 6], &[5, 6], &[6], &[5], &[6]];
    for (vertex, (from, to)) in inlets.iter().zip(outlets).enumerate() {
        assert_eq!(rt; dep.get(vertex).copied(), Some(set(from)), "to {vertex}");
        assert_eq!(rt; dem.get(vertex).copied(), Some(set(to)), "from {vertex}");
    }
    Ok(())
}
