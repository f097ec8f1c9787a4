// A run of threads, event by event.
ghost use Rattle.std.specs.Prelude.{◌≡◌, ◌≤◌, None, length, IfOk};
ghost use Rattle.tam_istr.specs.Cells.{cells_used};
ghost use Rattle.tam_msgs.specs.Messages.{AreLimits};
ghost use Rattle.tl0_code.specs.ThreadCode.{code_text};
ghost use Rattle.tl0_machine.specs.ThreadStates.{state_of, IsKept, HasFewBegun};
ghost use Rattle.tl0_machine.specs.ThreadEvents.{opening_state, IsEvent};
ghost use Rattle.tl0_machine.specs.QuickEvents.{WantsNothing, IsQuick};

use crate::Stop0;
use crate::advancing::advance;
use crate::code_table::CodeTable;
use crate::opening::opening;
use crate::thread_state::ThreadState;
use std::alloc::Global;
use std::marker::Model;
use tam_edge::NoMemory;
use tam_msgs::{Counts, Limits, Order, Step};
use tl0_check::Checked0;

/// A run of checked thread code. The caller keeps the order list and the results printed.
///
/// docs/THREADS.md, "Runs of threads".
#[derive(Drop)]
pub struct Machine0 {
    table: CodeTable,
    limits: Limits,
    state: ThreadState,
    stopped: Option<Stop0>,
}

impl Model for Machine0 {
    ghost use Rattle.tl0_machine.specs.ThreadStates.{state_of, IsKept, HasFewBegun};
    ghost use Rattle.tl0_machine.specs.ThreadEvents.{ThreadRun};
    ghost use Rattle.tam_msgs.specs.Messages.{AreLimits};

    ghost Value = { ThreadRun };

    ghost view = { λ m. record { program = m.table; limits = m.limits; state = state_of m.state; stopped = m.stopped } };

    ghost invariant = { λ m. AreLimits m.limits × (IsKept m.table m.limits m.state × HasFewBegun m.state) };
}

impl Machine0 {
    /// Begins a run, with one argument for each param of `main`: frame 0 of `main` is taken, and the arguments are pending.
    pub fn new(
        alloc: Global,
        code: Checked0,
        args: &[u32],
        limits: Limits,
    ) -> Result<Machine0, NoMemory>
        requires args { length args.now ≡ (code_text code code.main).params }
        requires limits { AreLimits limits }
        ensures value { IfOk result (λ run. run ≡ record { program = code; limits = limits; state = opening_state code args.now; stopped = None }) }
    {
        let table = CodeTable::new(alloc, code)?;
        let state = opening(alloc, &table, args, &limits)?;
        Ok(Machine0 {
            table,
            limits,
            state,
            stopped: None,
        })
    }

    /// Makes one event: the run of one thread to its stop, or the delivery of one message. A run that was stopped stays so.
    pub fn event(&mut self, order: &mut Order) -> Result<Step, Stop0>
        ensures event { IsEvent self.old self.new order.old order.new result self.old.stopped }
        ensures quick { IsQuick self.old order.old → WantsNothing result }
        ensures program { self.new.program ≡ self.old.program }
        ensures limits { self.new.limits ≡ self.old.limits }
    {
        if let Some(stop) = self.stopped {
            return Err(stop);
        }
        match advance(&mut self.state, &self.table, &self.limits, order) {
            Ok(step) => Ok(step),
            Err(stop) => {
                self.stopped = Some(stop);
                Err(stop)
            }
        }
    }

    /// What the run has counted. Takes no memory.
    pub fn counts(&self) -> Counts
        ensures value { result ≡ record {
          events = self.now.state.events;
          activations = self.now.state.begun;
          cells = cells_used self.now.state.arrays;
        } }
    {
        Counts {
            events: self.state.events,
            activations: self.state.begun,
            cells: self.state.cells.used() as u32,
        }
    }
}
