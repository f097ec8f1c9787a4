// Canonical texts, written by hand after docs/FORMATS.md, "Graph text".
ghost use Rattle.std.specs.Prelude.{◌≡◌};
ghost use Rattle.tam_graph.specs.Graphs.{main_name};
ghost use Rattle.tam_graph.specs.Reading.{IsCodeOfText};

use std::alloc::Global;
use std::test::Fail;
use tam_graph::{Code, Graph, Kind, Name, Node};
use tam_print::print;
use tam_word::Op;

// The canonical text of the graph whose only code, `main`, has these nodes.
fn printed(alloc: Global, nodes: &[Node], owners: &[Option<u32>]) -> Result<Vec<u8>, Fail>
    requires of_text { IsCodeOfText 1 (record { name = main_name; nodes = nodes.now; owners = owners.now }) }
{
    let main = Name::of(b"main").ok_or("a name")?;
    let code = Code::of(main, nodes.to_vec(alloc)?, owners.to_vec(alloc)?);
    let graph = Graph::of(vec![in alloc; code]?);
    let text = print(alloc, &graph).ok().ok_or("memory")?;
    Ok(text)
}

fn node(name: Option<Name>, depth: u8, block: u32, kind: Kind) -> Node
    ensures value { result ≡ record { name = name; depth = depth; block = block; kind = kind } }
{
    Node {
        name,
        depth,
        block,
        kind,
    }
}

// Without nodes.
#[test]
fn a_code_of_no_nodes(rt: HostRuntime) -> Result<(), Fail> {
    let text = printed(rt.alloc(), &[], &[None])?;
    let expected: &[u8] = b"dg 1\ncode main\nend\n";
    assert_eq!(rt; &text[..], expected);
    Ok(())
}

// A word with a sign, and a result.
#[test]
fn words_are_signed(rt: HostRuntime) -> Result<(), Fail> {
    let k = Name::of(b"k").ok_or("a name")?;
    let nodes = [
        node(Some(k), 0, 0, Kind::Const { word: u32::MAX }),
        node(None, 0, 0, Kind::Give { place: 0, a: 0 }),
    ];
    let text = printed(rt.alloc(), &nodes, &[None])?;
    let expected: &[u8] = b"dg 1\ncode main\nk = const -1\nresult 0 k\nend\n";
    assert_eq!(rt; &text[..], expected);
    Ok(())
}

// A code that calls itself.
#[test]
fn calls(rt: HostRuntime) -> Result<(), Fail> {
    let p = Name::of(b"p").ok_or("a name")?;
    let f = Name::of(b"f").ok_or("a name")?;
    let r = Name::of(b"r").ok_or("a name")?;
    let nodes = [
        node(Some(p), 0, 0, Kind::Param { place: 2 }),
        node(Some(f), 0, 0, Kind::Call { callee: 0 }),
        node(
            None,
            0,
            0,
            Kind::Arg {
                call: 1,
                place: 2,
                a: 0,
            },
        ),
        node(Some(r), 0, 0, Kind::Ret { call: 1, place: 63 }),
        node(None, 0, 0, Kind::Give { place: 63, a: 3 }),
    ];
    let text = printed(rt.alloc(), &nodes, &[None])?;
    let expected: &[u8] =
        b"dg 1\ncode main\np = param 2\nf = call main\narg f 2 p\nr = ret f 63\nresult 63 r\nend\n";
    assert_eq!(rt; &text[..], expected);
    Ok(())
}

// Arrays have a depth, and operands stand in their order.
#[test]
fn arrays(rt: HostRuntime) -> Result<(), Fail> {
    let n = Name::of(b"n").ok_or("a name")?;
    let array = Name::of(b"A").ok_or("a name")?;
    let v = Name::of(b"v").ok_or("a name")?;
    let s = Name::of(b"s").ok_or("a name")?;
    let q = Name::of(b"q").ok_or("a name")?;
    let sub = Op::Sub;
    let nodes = [
        node(Some(n), 0, 0, Kind::Const { word: 3 }),
        node(Some(array), 1, 0, Kind::Alloc { len: 0 }),
        node(Some(v), 0, 0, Kind::Fetch { array: 1, index: 0 }),
        node(
            None,
            0,
            0,
            Kind::Store {
                array: 1,
                index: 0,
                a: 2,
            },
        ),
        node(
            Some(s),
            0,
            0,
            Kind::Op {
                op: sub,
                a: 2,
                b: 0,
            },
        ),
        node(Some(q), 3, 0, Kind::Seq { a: 1, b: 4 }),
    ];
    let text = printed(rt.alloc(), &nodes, &[None])?;
    let expected: &[u8] =
        b"dg 1\ncode main\nn = const 3\nA:1 = alloc n\nv = fetch A n\nstore A n v\ns = sub v n\nq:3 = seq A s\nend\n";
    assert_eq!(rt; &text[..], expected);
    Ok(())
}

// A cond in the then block of a cond: its blocks are numbered before the outer else.
#[test]
fn conds_are_nested(rt: HostRuntime) -> Result<(), Fail> {
    let p = Name::of(b"p").ok_or("a name")?;
    let c = Name::of(b"c").ok_or("a name")?;
    let a = Name::of(b"a").ok_or("a name")?;
    let d = Name::of(b"d").ok_or("a name")?;
    let x = Name::of(b"x").ok_or("a name")?;
    let m = Name::of(b"m").ok_or("a name")?;
    let nodes = [
        node(Some(p), 0, 0, Kind::Param { place: 0 }),
        node(
            Some(c),
            0,
            0,
            Kind::Cond {
                test: 0,
                yes: 1,
                no: 4,
            },
        ),
        node(Some(a), 0, 1, Kind::Enter { place: 0 }),
        node(
            Some(d),
            0,
            1,
            Kind::Cond {
                test: 2,
                yes: 2,
                no: 3,
            },
        ),
        node(Some(x), 0, 3, Kind::Const { word: 1 << 31 }),
        node(None, 0, 1, Kind::Leave { place: 0, a: 2 }),
        node(None, 0, 4, Kind::Leave { place: 0, a: 0 }),
        node(
            None,
            0,
            0,
            Kind::Switch {
                cond: 1,
                place: 0,
                a: 0,
            },
        ),
        node(Some(m), 0, 0, Kind::Merge { cond: 1, place: 0 }),
    ];
    let owners = [None, Some(1), Some(3), Some(3), Some(1)];
    let text = printed(rt.alloc(), &nodes, &owners)?;
    let expected: &[u8] =
        b"dg 1\ncode main\np = param 0\nc = cond p\na = in 0\nd = cond a\nelse\nx = const -2147483648\nend\nout 0 a\nelse\nout 0 p\nend\n\
          switch c 0 p\nm = merge c 0\nend\n";
    assert_eq!(rt; &text[..], expected);
    Ok(())
}
