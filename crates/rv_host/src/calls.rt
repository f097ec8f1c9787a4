// The way to the next poll, with the calls that are served on it.
ghost use Rattle.std.specs.Prelude.{ℕ, ◌≡◌, ◌+◌, ◌<◌, ◌≤◌, ◌^◌, length, option_to_list};
ghost use Rattle.rv_keep.specs.Hosts.{sent_by};
ghost use Rattle.rv_host.specs.HostStates.{beside_of};
ghost use Rattle.rv_host.specs.HostEvents.{Serves, Reaches};

use crate::host_state::{HostState, send};
use crate::{HostWild, StopRv};
use rv_inst::TrapCause;
use rv_machine::{Rv, RvStep};
use tam_msgs::Message;

// The register that has the number of a call.
const CALL: u32 = 17;

const POLL: u32 = 0;

const GIVE: u32 = 6;

/// The machine runs to its next poll, within so many instructions.
///
/// docs/MACHINE.md, "The host".
pub(crate) fn run_to_poll(state: &mut HostState, rv: &mut Rv, most: u32) -> Result<(), StopRv>
    requires few { rv.old.steps + most < 2 ^ 64 }
    ensures value { Reaches most state.old state.new rv.old rv.new result }
    ensures beside { beside_of state.new ≡ beside_of state.old }
    ensures steps { rv.new.steps ≤ rv.old.steps + most }
{
    let mut left = most;
    while left > 0 {
        let run = rv.run(left);
        match run.last {
            RvStep::Done => left = 0,
            RvStep::Ecall => {
                left -= run.done + 1;
                if serve(state, rv)? {
                    return Ok(());
                }
            }
            RvStep::Trap { pc, cause } => return Err(StopRv::Trap { pc, cause }),
        }
    }
    Err(StopRv::Trap {
        pc: rv.pc(),
        cause: TrapCause::NoPoll,
    })
}

// Serves the call that was made, and tells whether it is a poll.
fn serve(state: &mut HostState, rv: &Rv) -> Result<bool, StopRv>
    ensures value { Serves state.old state.new rv.now result }
    ensures beside { beside_of state.new ≡ beside_of state.old }
    ensures pending { length state.old.pending.messages ≤ length state.new.pending.messages }
{
    let call = rv.reg(CALL);
    if call == POLL {
        return Ok(true);
    }
    if let Some(message) = sent_by(rv, call) {
        send(&mut state.pending, message)?;
        return Ok(false);
    }
    if call != GIVE {
        return Err(StopRv::Wild {
            what: HostWild::Ecall,
            number: call,
        });
    }
    let frame = rv.reg(10);
    if !state.numbers.is_live(frame) {
        return Err(StopRv::Wild {
            what: HostWild::Frame,
            number: frame,
        });
    }
    state.numbers.give(frame);
    Ok(false)
}

// The message that a call sends.
fn sent_by(rv: &Rv, call: u32) -> Option<Message>
    ensures value { option_to_list result ≡ sent_by call rv.now }
{
    match call {
        1 => Some(Message::Word {
            frame: rv.reg(10),
            inlet: rv.reg(11),
            word: rv.reg(12),
        }),
        2 => Some(Message::Frame {
            code: rv.reg(10),
            frame: rv.reg(11),
            inlet: rv.reg(12),
        }),
        3 => Some(Message::Cells {
            len: rv.reg(10),
            frame: rv.reg(11),
            inlet: rv.reg(12),
        }),
        4 => Some(Message::Fetch {
            array: rv.reg(10),
            index: rv.reg(11),
            frame: rv.reg(12),
            inlet: rv.reg(13),
            site: rv.reg(14),
        }),
        5 => Some(Message::Store {
            array: rv.reg(10),
            index: rv.reg(11),
            word: rv.reg(12),
            site: rv.reg(13),
        }),
        _ => None,
    }
}
