// Blocks and classes, worked by hand.
ghost use Rattle.std.specs.Prelude.{◌≡◌};

use std::test::Fail;
use tam_graph::{Accepted, Code, Graph, Kind, Name, Node};
use tam_split::{Half, Parts, Vertex, split};

fn node(name: Option<Name>, depth: u8, kind: Kind) -> Node
    ensures value { result ≡ record { name = name; depth = depth; block = 0; kind = kind } }
{
    Node {
        name,
        depth,
        block: 0,
        kind,
    }
}

fn vertex(node: u32, half: Half, inlet: bool, outlet: bool) -> Vertex {
    Vertex {
        node,
        half,
        inlet,
        outlet,
    }
}

// dg 1 / code main / n = const 1 / a:1 = alloc n / v = fetch a n / result 0 v / end
#[test]
fn what_asks_outside_is_cut_in_two(rt: HostRuntime) -> Result<(), Fail> {
    let main = Name::of(b"main").expect(&rt, "main is a name");
    let n = Name::of(b"n").expect(&rt, "n is a name");
    let a = Name::of(b"a").expect(&rt, "a is a name");
    let v = Name::of(b"v").expect(&rt, "v is a name");
    let nodes = vec![in rt.alloc();
        node(Some(n), 0, Kind::Const { word: 1 }),
        node(Some(a), 1, Kind::Alloc { len: 0 }),
        node(Some(v), 0, Kind::Fetch { array: 1, index: 0 }),
        node(None, 0, Kind::Give { place: 0, a: 2 }),
    ]?;
    let owners = vec![in rt.alloc(); None]?;
    let codes = vec![in rt.alloc(); Code::of(main, nodes, owners)]?;
    let accepted = Accepted::of(Graph::of(codes));
    let Ok(block) = split(rt.alloc(), &accepted, 0, 0) else {
        return Err(Fail::from("no memory"));
    };
    let vertices = [
        vertex(0, Half::Whole, false, false),
        vertex(1, Half::Ask, false, true),
        vertex(1, Half::Answer, true, false),
        vertex(2, Half::Ask, false, true),
        vertex(2, Half::Answer, true, false),
        vertex(3, Half::Whole, false, true),
    ];
    assert_eq!(rt; block.vertices(), vertices.as_slice());
    assert_eq!(rt; block.edges(), [(0, 1), (0, 3), (2, 3), (4, 5)].as_slice());
    Ok(())
}

fn are(parts: &Parts, classes: &[&[u32]]) -> bool {
    if parts.classes() as usize != classes.len() {
        return false;
    }
    for k in 0..parts.classes() {
        if parts.class(k) != classes[k as usize] {
            return false;
        }
    }
    true
}

#[test]
fn classes_are_merged(rt: HostRuntime) -> Result<(), Fail> {
    let Ok(mut parts) = Parts::single(rt.alloc(), 5) else {
        return Err(Fail::from("no memory"));
    };
    assert!(rt; are(&parts, &[&[0], &[1], &[2], &[3], &[4]]), "one each");
    assert_eq!(rt; parts.classes(), 5);
    parts.merge(1, 3);
    assert!(rt; are(&parts, &[&[0], &[1, 3], &[2], &[4]]), "1 and 3");
    assert_eq!(rt; parts.classes(), 4);
    parts.merge(0, 3);
    assert!(rt; are(&parts, &[&[0, 4], &[1, 3], &[2]]), "0 and 4");
    assert_eq!(rt; parts.classes(), 3);
    parts.merge(1, 2);
    assert!(rt; are(&parts, &[&[0, 4], &[1, 2, 3]]), "2 between 1 and 3");
    assert_eq!(rt; parts.classes(), 2);
    parts.merge(0, 1);
    assert!(rt; are(&parts, &[&[0, 1, 2, 3, 4]]), "one of all");
    Ok(())
}
