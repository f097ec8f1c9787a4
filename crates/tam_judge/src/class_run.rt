// The run of a class.
ghost use Rattle.std.specs.Prelude.{◌≡◌, ◌==◌, ◌&&◌, slice_get};
ghost use Rattle.tam_word.specs.Lists.{any_of};
ghost use Rattle.tam_split.specs.Blocks.{or_vertex};
ghost use Rattle.tam_flow.specs.Journals.{has_run, inlets_have_words, those_before_ran};
ghost use Rattle.tam_judge.specs.Machines.{state_of, runs_of, HasEffect};
ghost use Rattle.tam_judge.specs.ClassSteps.{is_fed, fired_at, all_fired};

use crate::before::is_directly_before;
use crate::machine::{ClassRun, Machine};
use crate::steps::apply;
use tam_edge::NoMemory;
use tam_split::{BlockGraph, Half, Parts, Vertex};
use tam_world::{NodeAt, Program, firing};

// The vertex at a place; at a place that isn't there one that is no inlet.
fn vertex_at(vertices: &[Vertex], place: u32) -> Vertex
    ensures value { result ≡ or_vertex (slice_get vertices.now place) }
{
    if (place as usize) < vertices.len() {
        vertices[place as usize]
    } else {
        Vertex {
            node: 0,
            half: Half::Whole,
            inlet: false,
            outlet: false,
        }
    }
}

// Whether the two are the same run.
fn is_same(one: &ClassRun, other: &ClassRun) -> bool
    ensures value { result ≡ ((one.now.act == other.now.act) && ((one.now.block == other.now.block) && (one.now.class == other.now.class))) }
{
    one.act == other.act && (one.block == other.block && one.class == other.class)
}

// Whether the run is among these.
fn is_among(runs: &[ClassRun], run: &ClassRun) -> bool
    ensures value { result ≡ any_of (λ r. (r.0 == run.now.act) && ((r.1 == run.now.block) && (r.2 == run.now.class))) (runs_of runs.now) }
{
    for other in runs {
        if is_same(other, run) {
            return true;
        }
    }
    false
}

// Whether a class of a block of an activation has run.
pub(crate) fn has_run(machine: &Machine, run: ClassRun) -> bool
    ensures value { result ≡ has_run (state_of machine.now) run.act run.block run.class }
{
    is_among(&machine.ran, &run)
}

// Whether the place is no inlet, or its node has a word.
fn is_fed(graph: &BlockGraph, machine: &Machine, act: u32, place: u32) -> bool
    ensures value { result ≡ is_fed graph.now (state_of machine.now).world act place }
{
    let vertex = vertex_at(graph.vertices(), place);
    !vertex.inlet || machine.world.has_word(act, vertex.node)
}

// Whether each inlet of a class has a word.
pub(crate) fn inlets_have_words(
    graph: &BlockGraph,
    machine: &Machine,
    act: u32,
    class: &[u32],
) -> bool
    ensures value { result ≡ inlets_have_words graph.now (state_of machine.now) act class.now }
{
    for place in class {
        if !is_fed(graph, machine, act, *place) {
            return false;
        }
    }
    true
}

// Whether each class directly before has run.
pub(crate) fn those_before_ran(
    graph: &BlockGraph,
    parts: &Parts,
    machine: &Machine,
    run: ClassRun,
) -> bool
    ensures value { result ≡ those_before_ran graph.now parts.now (state_of machine.now) run.act run.block run.class }
{
    for class in 0..parts.classes() {
        if is_directly_before(graph.edges(), parts, class, run.class)
            && !has_run(machine, ClassRun { class, ..run })
        {
            return false;
        }
    }
    true
}

// A place of a class does what it does.
fn fire_place(
    program: &Program<'_>,
    block: &BlockGraph,
    machine: &mut Machine,
    act: u32,
    place: u32,
) -> Result<(), NoMemory>
    ensures ok { HasEffect machine.old machine.new (fired_at program.now block.now act place) result }
{
    let vertex = vertex_at(block.vertices(), place);
    if vertex.inlet {
        return Ok(());
    }
    let at = NodeAt {
        activation: act,
        node: vertex.node,
    };
    let effect = firing(program, &machine.world, at);
    apply(machine, effect)
}

// The places of a class do what they do, in this order.
pub(crate) fn fire_places(
    program: &Program<'_>,
    block: &BlockGraph,
    machine: &mut Machine,
    act: u32,
    places: &[u32],
) -> Result<(), NoMemory>
    ensures ok { HasEffect machine.old machine.new (all_fired program.now block.now act places.now) result }
{
    for place in places {
        fire_place(program, block, machine, act, *place)?;
    }
    Ok(())
}
