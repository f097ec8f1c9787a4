// A run of a graph, event by event.
ghost use Rattle.std.specs.Prelude.{◌≡◌, ◌≤◌, None, length, IfOk};
ghost use Rattle.tam_istr.specs.Cells.{cells_used};
ghost use Rattle.tam_msgs.specs.Messages.{AreLimits};
ghost use Rattle.tam_graph.specs.Graphs.{AreArguments};
ghost use Rattle.tam_eval.specs.Machines.{state_of, HasJustBegun};
ghost use Rattle.tam_eval.specs.Waiting.{IsCounted};
ghost use Rattle.tam_eval.specs.Events.{opening_state, IsEvent};

use crate::advancing::advance;
use crate::left::Left;
use crate::machine::Machine;
use crate::steps::{ready_all, send_all};
use std::alloc::Global;
use std::collections::VecDeque;
use std::marker::Model;
use tam_edge::NoMemory;
use tam_graph::Accepted;
use tam_msgs::{Counts, Limits, Order, Pending, Step, Stop};
use tam_world::{Program, World, argument_messages};

/// A run of an accepted graph. The caller keeps the order list and the results printed.
#[derive(Drop)]
pub struct Eval<'g> {
    program: Program<'g>,
    machine: Machine,
    limits: Limits,
    stopped: Option<Stop>,
}

impl<'g> Model for Eval<'g> {
    ghost use Rattle.tam_eval.specs.Events.{EvalRun};
    ghost use Rattle.tam_eval.specs.Machines.{state_of};

    ghost Value = { EvalRun };

    ghost use Rattle.tam_msgs.specs.Messages.{AreLimits};
    ghost use Rattle.tam_eval.specs.Machines.{IsWithinLimits};
    ghost use Rattle.tam_eval.specs.Waiting.{IsCounted};
    ghost use Rattle.std.specs.Prelude.{None, ◌≡◌};

    ghost view = { λ e. record { graph = e.program; limits = e.limits; state = state_of e.machine; stopped = e.stopped } };

    ghost invariant = { λ e. AreLimits e.limits × IsWithinLimits e.machine e.limits × (e.stopped ≡ None → IsCounted e.program e.machine) };
}

impl<'g> Eval<'g> {
    /// Begins a run: the root has begun, and the arguments are pending.
    pub fn new(
        alloc: Global,
        g: &'g Accepted,
        args: &[u32],
        limits: Limits,
    ) -> Result<Eval<'g>, NoMemory>
        requires args { AreArguments g.now args.now }
        requires limits { AreLimits limits }
        ensures value { IfOk result (λ run. run ≡ record { graph = g.now; limits = limits; state = opening_state g.now args.now; stopped = None }) }
    {
        let main = g.main();
        let _params = g.params(main);
        let program = Program::new(alloc, g.graph())?;
        let machine = opening(alloc, &program, main, args)?;
        Ok(Eval {
            program,
            machine,
            limits,
            stopped: None,
        })
    }

    /// Makes one event: the firing of one vertex, or the delivery of one message. A run that was stopped stays so.
    pub fn event(&mut self, order: &mut Order) -> Result<Step, Stop>
        ensures event { IsEvent self.old self.new order.old order.new result self.old.stopped }
        ensures graph { self.new.graph ≡ self.old.graph }
        ensures limits { self.new.limits ≡ self.old.limits }
    {
        if let Some(stop) = self.stopped {
            return Err(stop);
        }
        match advance(&self.program, &mut self.machine, &self.limits, order) {
            Ok(step) => Ok(step),
            Err(stop) => {
                self.stopped = Some(stop);
                Err(stop)
            }
        }
    }

    /// What the run has counted. Takes no memory.
    pub fn counts(&self) -> Counts
        ensures value { result ≡ record {
          events = self.now.state.events;
          activations = length self.now.state.world.activations;
          cells =
              cells_used self.now.state.world.arrays;
        } }
    {
        Counts {
            events: self.machine.events,
            activations: self.machine.world.activations() as u32,
            cells: self.machine.world.cells_used() as u32,
        }
    }
}

// The root has begun, and the arguments are pending.
fn opening(
    alloc: Global,
    program: &Program<'_>,
    main: u32,
    args: &[u32],
) -> Result<Machine, NoMemory>
    requires main { main ≡ program.now.main }
    requires args { length args.now ≤ 64 }
    ensures value { IfOk result (λ machine. state_of machine ≡ opening_state program.now args.now) }
    ensures counted { IfOk result (IsCounted program.now) }
    ensures begun { IfOk result (HasJustBegun) }
{
    let world = World::opening(alloc, main)?;
    let mut ready = VecDeque::new(alloc);
    ready_all(&mut ready, 0, program.starters(main))?;
    let mut pending = Pending::new(alloc);
    send_all(
        &mut pending,
        &argument_messages(alloc, program, main, args)?,
    )?;
    let mut left = Left::none(alloc);
    left.begin(program.firers(main, 0).len() + program.block_inlets(main, 0).len())?;
    Ok(Machine {
        world,
        ready,
        pending,
        events: 0,
        left,
    })
}
