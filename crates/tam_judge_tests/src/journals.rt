// Journals of small graphs. Which of them are legal is worked by hand, or by tests/random_journals.py.
ghost use Rattle.std.specs.Prelude.{◌≡◌, ◌<◌, ◌≤◌, [], ◌∷◌, true, length, IfOk, IsTrue};
ghost use Rattle.tam_graph.specs.Graphs.{AreArguments};
ghost use Rattle.tam_split.specs.Partitions.{single};
ghost use Rattle.tam_split.specs.GraphPartitions.{are_valid};
ghost use Rattle.tam_judge.specs.CheckedEvents.{partitions_of};

use crate::random_journals::{
    SUM_IN_ONE, SUM_IN_SINGLES, WAITING_IN_FOUR, WAITING_IN_SINGLES, WRITING_IN_FOUR,
    WRITING_IN_SINGLES,
};
use std::alloc::Global;
use std::process::Abort;
use std::test::Fail;
use tam_graph::{Accepted, Code, Graph, Kind, Name, Node};
use tam_judge::JournalEvent::{Deliver, Run};
use tam_judge::{JournalEvent, check_journal};
use tam_split::Parts;
use tam_word::Op;

fn name(bytes: &[u8]) -> Result<Name, Fail>
    ensures value { IfOk result (λ name. name ≡ bytes.now) }
{
    match Name::of(bytes) {
        Some(name) => Ok(name),
        None => Err(Fail::from("this is no name")),
    }
}

fn node(name: Option<Name>, depth: u8, kind: Kind) -> Node
    ensures value { result ≡ record { name = name; depth = depth; block = 0; kind = kind } }
{
    Node {
        name,
        depth,
        block: 0,
        kind,
    }
}

// dg 1 / code main / a = param 0 / b = param 1 / s = add a b / result 0 s / end
fn sum(alloc: Global) -> Result<Accepted, Fail>
    ensures valid { IfOk result (λ g. are_valid g ((((0 ∷ 1 ∷ 2 ∷ 3 ∷ []) ∷ []) ∷ []) ∷ []) ≡ true) }
    ensures valid_singly { IfOk result (λ g. are_valid g ((single 4 ∷ []) ∷ []) ≡ true) }
    ensures arguments { IfOk result (λ g. AreArguments g (2 ∷ 3 ∷ [])) }
{
    let main = name(b"main")?;
    let a = name(b"a")?;
    let b = name(b"b")?;
    let s = name(b"s")?;
    let nodes = vec![in alloc;
        node(Some(a), 0, Kind::Param { place: 0 }),
        node(Some(b), 0, Kind::Param { place: 1 }),
        node(
            Some(s),
            0,
            Kind::Op {
                op: Op::Add,
                a: 0,
                b: 1
            }
        ),
        node(None, 0, Kind::Give { place: 0, a: 2 }),
    ]?;
    let owners = vec![in alloc; None]?;
    let codes = vec![in alloc; Code::of(main, nodes, owners)]?;
    Ok(Accepted::of(Graph::of(codes)))
}

// One class for the four vertices of its block.
fn one_class(alloc: Global) -> Result<Vec<Vec<Parts>>, Fail>
    ensures value { IfOk result (λ parts. partitions_of parts.items ≡ (((0 ∷ 1 ∷ 2 ∷ 3 ∷ []) ∷ []) ∷ []) ∷ []) }
{
    let mut class = Parts::single(alloc, 4)?;
    class.merge(0, 1);
    class.merge(0, 1);
    class.merge(0, 1);
    let parts = vec![in alloc; vec![in alloc; class]?]?;
    Ok(parts)
}

// Whether the list is a journal of the sum of 2 and 3.
fn is_journal(alloc: Global, events: &[JournalEvent]) -> Result<bool, Fail>
    requires few { length events.now < 9 }
{
    let graph = sum(alloc)?;
    let parts = one_class(alloc)?;
    let legal = check_journal(alloc, &graph, &parts, &[2, 3], events)?;
    Ok(legal)
}

#[test]
fn journals_of_a_sum(rt: HostRuntime) -> Result<(), Fail> {
    let run = Run {
        act: 0,
        block: 0,
        class: 0,
    };
    let deliver = [0, 1, 2].map(|message| Deliver { message });
    let cases: [(&[JournalEvent], bool); 8] = [
        (&[], true),
        (&[deliver[0], deliver[1], run, deliver[2]], true),
        (&[run], false),
        (&[deliver[0], deliver[0]], false),
        (&[deliver[0], run], false),
        (&[deliver[2]], false),
        (&[deliver[0], deliver[1], run, run], false),
        (&[deliver[1], deliver[0], run, deliver[2]], true),
    ];
    for (events, legal) in cases {
        assert!(rt; events.len() <= 4);
        assert_eq!(rt; is_journal(rt.alloc(), events)?, legal, "for {events:?}");
    }
    Ok(())
}

// dg 1 / code main / n = const 1 / A:1 = alloc n / z = const 0 / v = fetch A z / x = param 0 / y = add x n / result 0 v / result 1 y / end
fn waiting(alloc: Global) -> Result<Accepted, Fail>
    ensures valid { IfOk result (λ g. are_valid g ((((0 ∷ 1 ∷ 3 ∷ []) ∷ (2 ∷ 4 ∷ []) ∷ (5 ∷ 8 ∷ []) ∷ (6 ∷ 7 ∷ 9 ∷ []) ∷ []) ∷ []) ∷ []) ≡ true) }
    ensures valid_singly { IfOk result (λ g. are_valid g ((single 10 ∷ []) ∷ []) ≡ true) }
    ensures arguments { IfOk result (λ g. AreArguments g (6 ∷ [])) }
{
    let main = name(b"main")?;
    let n = name(b"n")?;
    let cells = name(b"A")?;
    let z = name(b"z")?;
    let v = name(b"v")?;
    let x = name(b"x")?;
    let y = name(b"y")?;
    let sum = Kind::Op {
        op: Op::Add,
        a: 4,
        b: 0,
    };
    let nodes = vec![in alloc;
        node(Some(n), 0, Kind::Const { word: 1 }),
        node(Some(cells), 1, Kind::Alloc { len: 0 }),
        node(Some(z), 0, Kind::Const { word: 0 }),
        node(Some(v), 0, Kind::Fetch { array: 1, index: 2 }),
        node(Some(x), 0, Kind::Param { place: 0 }),
        node(Some(y), 0, sum),
        node(None, 0, Kind::Give { place: 0, a: 3 }),
        node(None, 0, Kind::Give { place: 1, a: 5 }),
    ]?;
    let owners = vec![in alloc; None]?;
    let codes = vec![in alloc; Code::of(main, nodes, owners)]?;
    Ok(Accepted::of(Graph::of(codes)))
}

// The classes 0 1 3, 2 4, 5 8 and 6 7 9 of the ten vertices of its block: what is cut has two.
fn four_classes(alloc: Global) -> Result<Vec<Vec<Parts>>, Fail>
    ensures value { IfOk result (λ parts. partitions_of parts.items ≡ (((0 ∷ 1 ∷ 3 ∷ []) ∷ (2 ∷ 4 ∷ []) ∷ (5 ∷ 8 ∷ []) ∷ (6 ∷ 7 ∷ 9 ∷ []) ∷ []) ∷ []) ∷ []) }
{
    let mut classes = Parts::single(alloc, 10)?;
    classes.merge(0, 1);
    classes.merge(0, 2);
    classes.merge(1, 2);
    classes.merge(2, 5);
    classes.merge(3, 4);
    classes.merge(3, 4);
    let parts = vec![in alloc; vec![in alloc; classes]?]?;
    Ok(parts)
}

#[test]
fn an_empty_list_is_a_journal(rt: HostRuntime) -> Result<(), Fail> {
    let graph = waiting(rt.alloc())?;
    let parts = four_classes(rt.alloc())?;
    assert!(rt; check_journal(rt.alloc(), &graph, &parts, &[6], &[])?);
    Ok(())
}

// A class for each of so many vertices.
fn singles(alloc: Global, n: u32) -> Result<Vec<Vec<Parts>>, Fail>
    requires few { n ≤ 128 }
    ensures value { IfOk result (λ parts. partitions_of parts.items ≡ (single n ∷ []) ∷ []) }
{
    let parts = vec![in alloc; vec![in alloc; Parts::single(alloc, n)?]?]?;
    Ok(parts)
}

// The event that a letter of a table stands for.
fn event(letter: u8) -> Option<JournalEvent> {
    let (act, block, first) = match letter {
        b'0'..=b'9' => {
            let message = u32::from(letter - b'0');
            return Some(Deliver { message });
        }
        b'A'..=b'Z' => (0, 0, b'A'),
        b'a'..=b'm' => (0, 1, b'a'),
        b'n'..=b'z' => (1, 0, b'n'),
        _ => return None,
    };
    let class = u32::from(letter - first);
    Some(Run { act, block, class })
}

// The events of a row of a table.
fn events(alloc: Global, letters: &[u8]) -> Result<Vec<JournalEvent>, Fail> {
    let mut events = Vec::new(alloc);
    for letter in letters {
        events.push(event(*letter).ok_or("an event")?)?;
    }
    Ok(events)
}

// Each list of a table is told a journal or not, as the table says.
fn are_told(
    rt: &impl Abort,
    alloc: Global,
    graph: &Accepted,
    parts: &[Vec<Parts>],
    args: &[u32],
    table: &[(&[u8], bool)],
) -> Result<(), Fail>
    requires valid { IsTrue (are_valid graph.now (partitions_of parts.now)) }
    requires arguments { AreArguments graph.now args.now }
{
    for (letters, legal) in table {
        let events = events(alloc, letters)?;
        assert!(rt; events.len() <= 18);
        assert_eq!(rt;
            check_journal(alloc, graph, parts, args, &events)?,
            *legal,
            "for {events:?}"
        );
    }
    Ok(())
}

#[test]
fn random_journals_of_a_sum(rt: HostRuntime) -> Result<(), Fail> {
    let alloc = rt.alloc();
    let graph = sum(alloc)?;
    let whole = one_class(alloc)?;
    are_told(&rt, alloc, &graph, &whole, &[2, 3], &SUM_IN_ONE)?;
    let cut = singles(alloc, 4)?;
    are_told(&rt, alloc, &graph, &cut, &[2, 3], &SUM_IN_SINGLES)
}

#[test]
fn random_journals_of_what_waits(rt: HostRuntime) -> Result<(), Fail> {
    let alloc = rt.alloc();
    let graph = waiting(alloc)?;
    let joined = four_classes(alloc)?;
    are_told(&rt, alloc, &graph, &joined, &[6], &WAITING_IN_FOUR)?;
    let cut = singles(alloc, 10)?;
    are_told(&rt, alloc, &graph, &cut, &[6], &WAITING_IN_SINGLES)
}

// dg 1 / code main / n = const 1 / A:1 = alloc n / z = const 0 / x = param 0 / store A z n / store A x z / v = fetch A z / result 0 v / end
fn writing(alloc: Global) -> Result<Accepted, Fail>
    ensures valid { IfOk result (λ g. are_valid g ((((0 ∷ 1 ∷ []) ∷ (2 ∷ 3 ∷ 5 ∷ 7 ∷ []) ∷ (4 ∷ 6 ∷ []) ∷ (8 ∷ 9 ∷ []) ∷ []) ∷ []) ∷ []) ≡ true) }
    ensures valid_singly { IfOk result (λ g. are_valid g ((single 10 ∷ []) ∷ []) ≡ true) }
    ensures inside { IfOk result (λ g. AreArguments g (0 ∷ [])) }
    ensures outside { IfOk result (λ g. AreArguments g (1 ∷ [])) }
{
    let main = name(b"main")?;
    let n = name(b"n")?;
    let cells = name(b"A")?;
    let z = name(b"z")?;
    let x = name(b"x")?;
    let v = name(b"v")?;
    let nodes = vec![in alloc;
        node(Some(n), 0, Kind::Const { word: 1 }),
        node(Some(cells), 1, Kind::Alloc { len: 0 }),
        node(Some(z), 0, Kind::Const { word: 0 }),
        node(Some(x), 0, Kind::Param { place: 0 }),
        node(
            None,
            0,
            Kind::Store {
                array: 1,
                index: 2,
                a: 0
            }
        ),
        node(
            None,
            0,
            Kind::Store {
                array: 1,
                index: 3,
                a: 2
            }
        ),
        node(Some(v), 0, Kind::Fetch { array: 1, index: 2 }),
        node(None, 0, Kind::Give { place: 0, a: 6 }),
    ]?;
    let owners = vec![in alloc; None]?;
    let codes = vec![in alloc; Code::of(main, nodes, owners)]?;
    Ok(Accepted::of(Graph::of(codes)))
}

// The classes 0 1, 2 3 5 7, 4 6 and 8 9 of the ten vertices of its block.
fn classes_of_writing(alloc: Global) -> Result<Vec<Vec<Parts>>, Fail>
    ensures value { IfOk result (λ parts. partitions_of parts.items ≡ (((0 ∷ 1 ∷ []) ∷ (2 ∷ 3 ∷ 5 ∷ 7 ∷ []) ∷ (4 ∷ 6 ∷ []) ∷ (8 ∷ 9 ∷ []) ∷ []) ∷ []) ∷ []) }
{
    let mut classes = Parts::single(alloc, 10)?;
    classes.merge(0, 1);
    classes.merge(1, 2);
    classes.merge(1, 3);
    classes.merge(1, 4);
    classes.merge(2, 3);
    classes.merge(3, 4);
    let parts = vec![in alloc; vec![in alloc; classes]?]?;
    Ok(parts)
}

#[test]
fn random_journals_of_what_is_written_twice(rt: HostRuntime) -> Result<(), Fail> {
    let alloc = rt.alloc();
    let graph = writing(alloc)?;
    let joined = classes_of_writing(alloc)?;
    are_told(&rt, alloc, &graph, &joined, &[0], &WRITING_IN_FOUR)?;
    let cut = singles(alloc, 10)?;
    are_told(&rt, alloc, &graph, &cut, &[1], &WRITING_IN_SINGLES)
}
