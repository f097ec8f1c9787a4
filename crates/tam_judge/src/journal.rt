// Whether a list of events is a legal journal.
ghost use Rattle.std.specs.Prelude.{◌≡◌, ◌<◌, None, length, IsTrue, IfOk};
ghost use Rattle.tam_graph.specs.Graphs.{Graph as GraphRecord, AreArguments};
ghost use Rattle.tam_split.specs.GraphPartitions.{Partitions, are_valid};
ghost use Rattle.tam_world.specs.Worlds.{activation_at};
ghost use Rattle.tam_flow.specs.Journals.{Run, Deliver, is_legal, block_of_act, parts_of_act};
ghost use Rattle.tam_judge.specs.Machines.{state_of};
ghost use Rattle.tam_judge.specs.CheckedEvents.{event_of, events_of, partitions_of, BlocksStand, IsAsked, Makes};

use crate::class_run::{fire_places, has_run, inlets_have_words, those_before_ran};
use crate::firing_order::firing_order;
use crate::lists::has;
use crate::machine::{ClassRun, Machine};
use crate::opening::opening;
use crate::steps::deliver;
use std::alloc::Global;
use tam_edge::NoMemory;
use tam_graph::Accepted;
use tam_split::{BlockGraph, Parts, split};
use tam_world::Program;

/// An event of a run: a class of a block of an activation runs, or a message is delivered. Activations are numbered in the order in which
/// they began, the root first, and messages in the order in which they were sent, the arguments first.
#[derive(Clone, Copy, Debug, PartialEq, Eq)]
pub enum JournalEvent {
    Run { act: u32, block: u32, class: u32 },
    Deliver { message: u32 },
}

/// Whether the list is a legal journal of the graph over these partitions, one for each block of each code: each event may come in the state
/// that the events before it leave.
pub fn check_journal(
    alloc: Global,
    g: &Accepted,
    parts: &[Vec<Parts>],
    args: &[u32],
    events: &[JournalEvent],
) -> Result<bool, NoMemory>
    requires valid { IsTrue (are_valid g.now (partitions_of parts.now)) }
    requires arguments { AreArguments g.now args.now }
    requires few { length events.now < 4294967295 }
    ensures value { IfOk result (λ legal. legal ≡ is_legal g.now (partitions_of parts.now) args.now (events_of events.now)) }
{
    let main = g.main();
    let _params = g.params(main);
    let program = Program::new(alloc, g.graph())?;
    let mut machine = opening(alloc, &program, main, args)?;
    for event in events {
        if !make_event(alloc, g, &program, parts, &mut machine, *event)? {
            return Ok(false);
        }
    }
    Ok(true)
}

// Makes the event, if it may come.
fn make_event(
    alloc: Global,
    g: &Accepted,
    program: &Program<'_>,
    parts: &[Vec<Parts>],
    machine: &mut Machine,
    event: JournalEvent,
) -> Result<bool, NoMemory>
    requires program { program.now ≡ g.now }
    requires blocks { BlocksStand g.now (state_of machine.old).world }
    requires activations { length machine.old.world.activations < 4294967295 }
    requires arrays { length machine.old.world.arrays < 4294967295 }
    ensures value { IfOk result (Makes g.now (partitions_of parts.now) (state_of machine.old) (state_of machine.new) (event_of event)) }
{
    match event {
        JournalEvent::Run { act, block, class } => run_class(
            alloc,
            g,
            program,
            parts,
            machine,
            ClassRun { act, block, class },
        ),
        JournalEvent::Deliver { message } => deliver_message(machine, message),
    }
}

// Runs the class, if it may run.
fn run_class(
    alloc: Global,
    g: &Accepted,
    program: &Program<'_>,
    parts: &[Vec<Parts>],
    machine: &mut Machine,
    run: ClassRun,
) -> Result<bool, NoMemory>
    requires program { program.now ≡ g.now }
    requires blocks { BlocksStand g.now (state_of machine.old).world }
    ensures value { IfOk result (Makes g.now (partitions_of parts.now) (state_of machine.old) (state_of machine.new) (Run run.act run.block run.class)) }
{
    if machine.fault.is_some() || run.act as usize >= machine.world.activations() {
        return Ok(false);
    }
    let code = machine.world.code_at(run.act);
    if code as usize >= parts.len() {
        return Ok(false);
    }
    let of_code = &parts[code as usize];
    if run.block as usize >= of_code.len() {
        return Ok(false);
    }
    run_in_block(
        alloc,
        g,
        program,
        &of_code[run.block as usize],
        machine,
        code,
        run,
    )
}

// Runs the class of a block with these classes, if it may run.
fn run_in_block(
    alloc: Global,
    g: &Accepted,
    program: &Program<'_>,
    parts: &Parts,
    machine: &mut Machine,
    code: u32,
    run: ClassRun,
) -> Result<bool, NoMemory>
    requires program { program.now ≡ g.now }
    requires blocks { BlocksStand g.now (state_of machine.old).world }
    requires whole { (state_of machine.old).fault ≡ None }
    requires there { run.act < length machine.old.world.activations }
    requires code { code ≡ (activation_at (state_of machine.old).world run.act).code }
    ensures value { IfOk result (λ may. (all : Partitions) → parts_of_act g.now all (state_of machine.old) run.act run.block ≡ parts.now → Makes g.now all
        (state_of machine.old) (state_of machine.new) (Run run.act run.block run.class) may) }
{
    if run.class >= parts.classes()
        || has_run(machine, run)
        || !machine.world.has_entered(run.act, run.block)
    {
        return Ok(false);
    }
    let graph = split(alloc, g, code, run.block)?;
    run_if_ready(alloc, program, &graph, parts, machine, run)
}

// Runs a class that has not run, in a block that was entered, if its inlets have words and the classes before it have run.
fn run_if_ready(
    alloc: Global,
    program: &Program<'_>,
    block: &BlockGraph,
    parts: &Parts,
    machine: &mut Machine,
    run: ClassRun,
) -> Result<bool, NoMemory>
    requires block { block.now ≡ block_of_act program.now (state_of machine.old) run.act run.block }
    requires may { IsAsked (state_of machine.old) parts.now run }
    ensures value { IfOk result (λ may. (all : Partitions) → parts_of_act program.now all (state_of machine.old) run.act run.block ≡ parts.now
        → Makes program.now all (state_of machine.old) (state_of machine.new) (Run run.act run.block run.class) may) }
{
    let class = parts.class(run.class);
    if !inlets_have_words(block, machine, run.act, class)
        || !those_before_ran(block, parts, machine, run)
    {
        return Ok(false);
    }
    let order = firing_order(alloc, block.edges(), class)?;
    fire_places(program, block, machine, run.act, &order)?;
    machine.ran.push(run)?;
    Ok(true)
}

// Delivers the message of a number, if it may arrive.
fn deliver_message(machine: &mut Machine, number: u32) -> Result<bool, NoMemory>
    requires activations { length machine.old.world.activations < 4294967295 }
    requires arrays { length machine.old.world.arrays < 4294967295 }
    ensures value { IfOk result (λ may. (g : GraphRecord) (all : Partitions) → Makes g all (state_of machine.old) (state_of machine.new) (Deliver number) may) }
{
    if machine.fault.is_some()
        || number as usize >= machine.sent.len()
        || has(&machine.arrived, number)
    {
        return Ok(false);
    }
    machine.arrived.push(number)?;
    let message = machine.sent[number as usize];
    deliver(machine, message)?;
    Ok(true)
}
