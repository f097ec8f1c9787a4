// Runs of small graphs to their ends. The words and counts are worked by hand.
use std::alloc::Global;
use std::test::Fail;
use tam_check::check;
use tam_eval::Eval;
use tam_graph::Accepted;
use tam_msgs::{Counts, Limits, Order, Step};
use tam_read::read;

const LIMITS: Limits = Limits {
    budget: 100,
    frames: 4,
    cells: 4,
};

const SUM: &str = "dg 1
code main
a = param 0
b = param 1
s = add a b
result 0 s
end
";

const EMPTY: &str = "dg 1
code main
end
";

// The accepted graph that the text spells.
fn accepted(alloc: Global, text: &str) -> Result<Accepted, Fail> {
    if text.len() > 1_048_576 {
        return Err(Fail::from("too long"));
    }
    let found = read(alloc, text.as_bytes())?;
    Ok(check(alloc, found.graph).map_err(|(_, error)| error)?)
}

#[test]
fn a_sum_runs(rt: HostRuntime) -> Result<(), Fail> {
    let graph = accepted(rt.alloc(), SUM)?;
    if graph.params(graph.main()) != 2 {
        return Err(Fail::from("two params"));
    }
    let mut run = Eval::new(rt.alloc(), &graph, &[2, 3], LIMITS)?;
    let mut order = Order::none(rt.alloc());
    let steps = [
        Step::Delivered,
        Step::Delivered,
        Step::Ran,
        Step::Ran,
        Step::Printed { place: 0, word: 5 },
        Step::Quiet,
    ];
    for step in steps {
        assert_eq!(rt; run.event(&mut order), Ok(step));
    }
    let counts = Counts {
        events: 5,
        activations: 1,
        cells: 0,
    };
    assert_eq!(rt; run.counts(), counts);
    Ok(())
}

#[test]
fn an_empty_graph_is_quiet(rt: HostRuntime) -> Result<(), Fail> {
    let graph = accepted(rt.alloc(), EMPTY)?;
    if graph.params(graph.main()) != 0 {
        return Err(Fail::from("no params"));
    }
    let mut run = Eval::new(rt.alloc(), &graph, &[], LIMITS)?;
    let mut order = Order::none(rt.alloc());
    assert_eq!(rt; run.event(&mut order), Ok(Step::Quiet));
    let counts = Counts {
        events: 0,
        activations: 1,
        cells: 0,
    };
    assert_eq!(rt; run.counts(), counts);
    Ok(())
}
