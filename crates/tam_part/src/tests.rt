// A partition worked by hand.
ghost use Rattle.std.specs.Prelude.{◌≡◌};

use crate::partition;
use std::test::Fail;
use tam_graph::{Accepted, Code, Graph, Kind, Name, Node};
use tam_split::{Parts, split};
use tam_word::Op;

fn node(name: Option<Name>, kind: Kind) -> Node
    ensures value { result ≡ record { name = name; depth = 0; block = 0; kind = kind } }
{
    Node {
        name,
        depth: 0,
        block: 0,
        kind,
    }
}

fn are(parts: &Parts, classes: &[&[u32]]) -> bool {
    if parts.classes() as usize != classes.len() {
        return false;
    }
    for k in 0..parts.classes() {
        if parts.class(k) != classes[k as usize] {
            return false;
        }
    }
    true
}

// dg 1 / code main / a = param 0 / b = param 1 / one = const 1 / c = add a one / d = add b c / result 0 c / result 1 d / end
// A caller may give the second param what it got as the first result, so the params stand apart.
#[test]
fn params_with_feedback_stand_apart(rt: HostRuntime) -> Result<(), Fail> {
    let main = Name::of(b"main").expect(&rt, "main is a name");
    let a = Name::of(b"a").expect(&rt, "a is a name");
    let b = Name::of(b"b").expect(&rt, "b is a name");
    let one = Name::of(b"one").expect(&rt, "one is a name");
    let c = Name::of(b"c").expect(&rt, "c is a name");
    let d = Name::of(b"d").expect(&rt, "d is a name");
    let nodes = vec![in rt.alloc();
        node(Some(a), Kind::Param { place: 0 }),
        node(Some(b), Kind::Param { place: 1 }),
        node(Some(one), Kind::Const { word: 1 }),
        node(
            Some(c),
            Kind::Op {
                op: Op::Add,
                a: 0,
                b: 2
            }
        ),
        node(
            Some(d),
            Kind::Op {
                op: Op::Add,
                a: 1,
                b: 3
            }
        ),
        node(None, Kind::Give { place: 0, a: 3 }),
        node(None, Kind::Give { place: 1, a: 4 }),
    ]?;
    let owners = vec![in rt.alloc(); None]?;
    let codes = vec![in rt.alloc(); Code::of(main, nodes, owners)]?;
    let accepted = Accepted::of(Graph::of(codes));
    let Ok(block) = split(rt.alloc(), &accepted, 0, 0) else {
        return Err(Fail::from("no memory"));
    };
    let Ok(parts) = partition(rt.alloc(), &block) else {
        return Err(Fail::from("no memory"));
    };
    assert_eq!(rt; parts.classes(), 2);
    assert!(rt;
        are(&parts, &[&[0, 2, 3, 5], &[1, 4, 6]]),
        "a and what it alone gives, and the rest"
    );
    Ok(())
}
