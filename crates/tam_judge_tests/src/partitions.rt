// Partitions of a small block. Which of them are valid is worked by hand.
ghost use Rattle.std.specs.Prelude.{◌≡◌, length, IfOk};
ghost use Rattle.tam_split.specs.KeptParts.{HaveEach};

use std::alloc::Global;
use std::test::Fail;
use tam_graph::{Accepted, Code, Graph, Kind, Name, Node};
use tam_judge::check_parts;
use tam_split::{BlockGraph, Parts, split};
use tam_word::Op;

fn name(bytes: &[u8]) -> Result<Name, Fail>
    ensures value { IfOk result (λ name. name ≡ bytes.now) }
{
    match Name::of(bytes) {
        Some(name) => Ok(name),
        None => Err(Fail::from("this is no name")),
    }
}

fn node(name: Option<Name>, kind: Kind) -> Node
    ensures value { result ≡ record { name = name; depth = 0; block = 0; kind = kind } }
{
    Node {
        name,
        depth: 0,
        block: 0,
        kind,
    }
}

fn sum(a: u32, b: u32) -> Kind
    ensures value { result ≡ Kind.Op Op.Add a b }
{
    Kind::Op { op: Op::Add, a, b }
}

// The code main: x = param 0 / f = call g / arg f 0 x / y = ret f 0 / arg f 1 y / z = ret f 1 / result 0 z
// The code g: a = param 0 / b = param 1 / one = const 1 / c = add a one / d = add b c / result 0 c / result 1 d
// The block of g, whose first result feeds its second param in main. Its seven vertices are its nodes.
fn block_of_g(alloc: Global) -> Result<BlockGraph, Fail>
    ensures value { IfOk result (λ block. length block.vertices ≡ 7) }
{
    let x = name(b"x")?;
    let f = name(b"f")?;
    let y = name(b"y")?;
    let z = name(b"z")?;
    let caller = vec![in alloc;
        node(Some(x), Kind::Param { place: 0 }),
        node(Some(f), Kind::Call { callee: 1 }),
        node(
            None,
            Kind::Arg {
                call: 1,
                place: 0,
                a: 0
            }
        ),
        node(Some(y), Kind::Ret { call: 1, place: 0 }),
        node(
            None,
            Kind::Arg {
                call: 1,
                place: 1,
                a: 3
            }
        ),
        node(Some(z), Kind::Ret { call: 1, place: 1 }),
        node(None, Kind::Give { place: 0, a: 5 }),
    ]?;
    let a = name(b"a")?;
    let b = name(b"b")?;
    let one = name(b"one")?;
    let c = name(b"c")?;
    let d = name(b"d")?;
    let called = vec![in alloc;
        node(Some(a), Kind::Param { place: 0 }),
        node(Some(b), Kind::Param { place: 1 }),
        node(Some(one), Kind::Const { word: 1 }),
        node(Some(c), sum(0, 2)),
        node(Some(d), sum(1, 3)),
        node(None, Kind::Give { place: 0, a: 3 }),
        node(None, Kind::Give { place: 1, a: 4 }),
    ]?;
    let main = name(b"main")?;
    let owners = vec![in alloc; None]?;
    let g = name(b"g")?;
    let its_owners = vec![in alloc; None]?;
    let codes = vec![in alloc;
        Code::of(main, caller, owners),
        Code::of(g, called, its_owners),
    ]?;
    let accepted = Accepted::of(Graph::of(codes));
    let block = split(alloc, &accepted, 1, 0)?;
    Ok(block)
}

// The letter of the class's least place.
fn letter_of(letters: &[u8], class: &[u32]) -> Option<u8> {
    let least = class.first()?;
    letters.get(*least as usize).copied()
}

// The classes of seven places, where places with one letter stand in one class.
fn classes(alloc: Global, letters: &[u8]) -> Result<Parts, Fail>
    ensures value { IfOk result (λ parts. HaveEach 7 parts) }
{
    let mut parts = Parts::single(alloc, 7)?;
    for a in 0..7 {
        for b in (a + 1..7).rev() {
            if b < parts.classes()
                && letter_of(letters, parts.class(a)) == letter_of(letters, parts.class(b))
            {
                parts.merge(a, b);
            }
        }
    }
    Ok(parts)
}

// Whether these classes of the vertices of g are a valid partition.
fn is_valid(alloc: Global, letters: &[u8]) -> Result<bool, Fail> {
    let block = block_of_g(alloc)?;
    let parts = classes(alloc, letters)?;
    let valid = check_parts(alloc, &block, &parts)?;
    Ok(valid)
}

// The classes into which g is cut, others that are as good, and some that aren't.
#[test]
fn partitions_of_g(rt: HostRuntime) -> Result<(), Fail> {
    // One letter for each vertex: a, b, one, c, d, the first and the second result.
    let cases: [(&[u8], bool); 12] = [
        (b"abaabab", true),
        (b"abcdefg", true),
        (b"abcdbfb", true),
        (b"abcaefg", true),
        (b"abccefg", true),
        // The first result depends on a alone.
        (b"aaaaaaa", false),
        (b"aacdefg", false),
        (b"abcaafg", false),
        (b"abcdeef", false),
        (b"abcdebg", false),
        // The class of a and the first result leads to that of c, and that one back.
        (b"abcdeag", false),
        // The class of one and the second result leads to that of c, that one to that of d, and that one back.
        (b"abcdefc", false),
    ];
    for (letters, valid) in cases {
        assert_eq!(rt; is_valid(rt.alloc(), letters)?, valid, "for {letters:?}");
    }
    Ok(())
}
