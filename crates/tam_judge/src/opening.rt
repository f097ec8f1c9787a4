// The beginning of a journal.
ghost use Rattle.std.specs.Prelude.{◌≡◌, ◌≤◌, length, IfOk};
ghost use Rattle.tam_flow.specs.Journals.{initial};
ghost use Rattle.tam_judge.specs.Machines.{state_of};

use crate::machine::Machine;
use std::alloc::Global;
use tam_edge::NoMemory;
use tam_world::{Program, World, argument_messages};

// The root has begun, and the arguments are sent.
pub(crate) fn opening(
    alloc: Global,
    program: &Program<'_>,
    main: u32,
    args: &[u32],
) -> Result<Machine, NoMemory>
    requires main { main ≡ program.now.main }
    requires args { length args.now ≤ 64 }
    ensures value { IfOk result (λ machine. state_of machine ≡ initial program.now args.now) }
{
    let world = World::opening(alloc, main)?;
    let sent = argument_messages(alloc, program, main, args)?;
    Ok(Machine {
        world,
        sent,
        arrived: Vec::new(alloc),
        ran: Vec::new(alloc),
        printed: Vec::new(alloc),
        fault: None,
    })
}
