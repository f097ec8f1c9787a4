// An accepted graph and what it shows.
ghost use Rattle.std.specs.Prelude.{◌≡◌};

use std::alloc::AllocError;
use tam_graph::{Accepted, Code, Graph, Kind, Name, Node};
use tam_word::Op;

fn node(name: Option<Name>, kind: Kind) -> Node
    ensures value { result ≡ record { name = name; depth = 0; block = 0; kind = kind } }
{
    Node {
        name,
        depth: 0,
        block: 0,
        kind,
    }
}

// dg 1 / code main / a = param 0 / b = param 1 / s = add a b / result 0 s / end
#[test]
fn a_graph_is_made_of_its_parts(rt: HostRuntime) -> Result<(), AllocError> {
    let main = Name::of(b"main").expect(&rt, "main is a name");
    let a = Name::of(b"a").expect(&rt, "a is a name");
    let b = Name::of(b"b").expect(&rt, "b is a name");
    let s = Name::of(b"s").expect(&rt, "s is a name");
    let nodes = vec![in rt.alloc();
        node(Some(a), Kind::Param { place: 0 }),
        node(Some(b), Kind::Param { place: 1 }),
        node(
            Some(s),
            Kind::Op {
                op: Op::Add,
                a: 0,
                b: 1
            }
        ),
        node(None, Kind::Give { place: 0, a: 2 }),
    ]?;
    let owners = vec![in rt.alloc(); None]?;
    let codes = vec![in rt.alloc(); Code::of(main, nodes, owners)]?;
    let accepted = Accepted::of(Graph::of(codes));
    assert_eq!(rt; accepted.main(), 0);
    assert_eq!(rt; accepted.params(0), 2);
    assert_eq!(rt; accepted.results(0), 1);
    let code = accepted.graph().code(0);
    assert!(rt; code.name().is(b"main"));
    assert_eq!(rt; code.nodes().len(), 4);
    assert_eq!(rt; code.owners().len(), 1);
    assert_eq!(rt; code.find(b"s"), Some(2));
    assert_eq!(rt; code.find(b"c"), None);
    assert_eq!(rt; accepted.graph().codes(), 1);
    assert_eq!(rt; accepted.graph().find(b"main"), Some(0));
    assert_eq!(rt; accepted.graph().find(b"a"), None);
    Ok(())
}
