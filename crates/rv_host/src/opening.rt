// What the host keeps before the first event.
ghost use Rattle.std.specs.Prelude.{◌≡◌, ◌<◌, ◌^◌, [], false, length, map, replicate, zip, IfOk};
ghost use Rattle.tam_word.specs.Lists.{below};
ghost use Rattle.tam_msgs.specs.Messages.{AreLimits};
ghost use Rattle.tam_msgs.specs.declared.message.Message.TheVariants.{Word as Carry};
ghost use Rattle.rv_host.specs.LiveFrames.{first_numbers};
ghost use Rattle.rv_host.specs.HostStates.{seen_of, IsKept};

use crate::host_state::{HostState, send};
use crate::live_numbers::LiveNumbers;
use std::alloc::Global;
use tam_edge::NoMemory;
use tam_istr::Cells;
use tam_msgs::{Limits, Message, Pending};

/// The root's frame is there, and the arguments are on their way.
///
/// docs/MACHINE.md, "The host".
pub(crate) fn opening(
    alloc: Global,
    results: u32,
    args: &[u32],
    limits: &Limits,
) -> Result<HostState, NoMemory>
    requires few { length args.now < 2 ^ 32 }
    requires limits { AreLimits limits.now }
    ensures value { IfOk result (λ state. seen_of state ≡ record {
      pending = map (λ kw. Carry 0 kw.0 kw.1) (zip (below (length args.now)) args.now);
      arrays = [];
      numbers = first_numbers limits.now.frames;
      activations = 1;
      marks = replicate results false;
      events = 0;
    }) }
    ensures kept { IfOk result (λ state. IsKept limits.now state) }
{
    Ok(HostState {
        pending: argument_messages(alloc, args)?,
        cells: Cells::new(alloc),
        numbers: LiveNumbers::new(alloc, limits.frames)?,
        begun: 1,
        printed: vec![in alloc; false; results as usize]?,
        events: 0,
    })
}

// The messages of the arguments, each to the inlet of its param.
fn argument_messages(alloc: Global, args: &[u32]) -> Result<Pending, NoMemory>
    requires few { length args.now < 2 ^ 32 }
    ensures value { IfOk result (λ pending. pending.messages ≡ map (λ kw. Carry 0 kw.0 kw.1) (zip (below (length args.now)) args.now)) }
{
    let mut pending = Pending::new(alloc);
    for (place, word) in args.iter().enumerate() {
        let inlet = place as u32;
        send(
            &mut pending,
            Message::Word {
                frame: 0,
                inlet,
                word: *word,
            },
        )?;
    }
    Ok(pending)
}
