// A host of the machine, poll by poll.
ghost use Rattle.std.specs.Prelude.{◌≡◌, ◌≤◌, length, IfOk};
ghost use Rattle.tam_istr.specs.Cells.{cells_used};
ghost use Rattle.tam_msgs.specs.Messages.{AreLimits};
ghost use Rattle.rv_host.specs.HostEvents.{ended_by, IsOpening, IsPoll};

use crate::StopRv;
use crate::advancing::advance;
use crate::host_state::HostState;
use crate::opening::opening;
use rv_machine::Rv;
use std::alloc::Global;
use std::marker::Model;
use tam_edge::NoMemory;
use tam_msgs::{Counts, Limits, Order, Step};

// So many instructions may be carried out from one poll to the next.
const MOST_INSTRUCTIONS: u32 = 16_777_216;

/// The host of a machine. The caller keeps the machine, the order list and the results printed.
///
/// docs/MACHINE.md, "The host".
#[derive(Drop)]
pub struct Host {
    limits: Limits,
    state: HostState,
    instructions: u64,
    ended: Option<Result<Step, StopRv>>,
}

impl Model for Host {
    ghost use Rattle.std.specs.Prelude.{◌≡◌, ◌≤◌, ◌*◌, None};
    ghost use Rattle.rv_host.specs.HostStates.{seen_of, IsKept};
    ghost use Rattle.rv_host.specs.HostEvents.{HostRun};
    ghost use Rattle.tam_msgs.specs.Messages.{AreLimits};

    ghost Value = { HostRun };

    ghost view = { λ h. record { limits = h.limits; state = seen_of h.state; instructions = h.instructions; ended = h.ended } };

    ghost invariant = { λ h. AreLimits h.limits × (IsKept h.limits h.state × (h.ended ≡ None → h.instructions ≤ 16777216 * h.state.events)) };
}

impl Host {
    /// The host before the first event, with one argument for each param of `main`: frame 0 is live, and the arguments are pending.
    pub fn new(
        alloc: Global,
        params: u32,
        results: u32,
        args: &[u32],
        limits: Limits,
    ) -> Result<Host, NoMemory>
        requires args { length args.now ≡ params }
        requires params { params ≤ 64 }
        requires results { results ≤ 64 }
        requires limits { AreLimits limits }
        ensures value { IfOk result (λ host. IsOpening args.now limits results host) }
    {
        let state = opening(alloc, results, args, &limits)?;
        Ok(Host {
            limits,
            state,
            instructions: 0,
            ended: None,
        })
    }

    /// Steps the machine to its next poll, and makes one event there. The machine is a new one before the first call, and then the one that the last call
    /// left. A run that has ended stays so. Want of memory is also told where the activations that have begun are more than a word counts.
    pub fn poll(&mut self, rv: &mut Rv, order: &mut Order) -> Result<Step, StopRv>
        requires same { rv.old.steps ≡ self.old.instructions }
        ensures poll { IsPoll self.old self.new rv.old rv.new order.old order.new result self.old.ended }
        ensures limits { self.new.limits ≡ self.old.limits }
        ensures results { length self.new.state.marks ≡ length self.old.state.marks }
        ensures counted { rv.new.steps ≡ self.new.instructions }
    {
        if let Some(answer) = self.ended {
            return answer;
        }
        let answer = advance(&mut self.state, rv, &self.limits, order, MOST_INSTRUCTIONS);
        self.instructions = rv.steps();
        self.ended = ended_by(answer);
        answer
    }

    /// What the run has counted. Takes no memory.
    pub fn counts(&self) -> Counts
        ensures value { result ≡ record {
          events = self.now.state.events;
          activations = self.now.state.activations;
          cells = cells_used self.now.state.arrays;
        } }
    {
        Counts {
            events: self.state.events,
            activations: self.state.begun,
            cells: self.state.cells.used() as u32,
        }
    }

    /// How many instructions were carried out.
    pub fn instructions(&self) -> u64
        ensures value { result ≡ self.now.instructions }
    {
        self.instructions
    }
}

// The answer, where the run ends by it.
fn ended_by(answer: Result<Step, StopRv>) -> Option<Result<Step, StopRv>>
    ensures value { result ≡ ended_by answer }
{
    match answer {
        Ok(Step::Quiet) | Err(_) => Some(answer),
        Ok(_) => None,
    }
}
