// A run of thread code, thread by thread.
ghost use Rattle.tam_run.specs.ThreadTelling.{thread_stand, ThreadTells};

use crate::level_run::LevelRun;
use crate::{Halt, Tally};
use tam_msgs::{Order, Step};
use tl0_machine::Machine0;

impl LevelRun for Machine0 {
    ghost tells = { ThreadTells };

    ghost stand = { thread_stand };

    fn advance(&mut self, order: &mut Order) -> Result<Step, Halt> {
        Ok(self.event(order)?)
    }

    fn tally(&self) -> Tally {
        Tally {
            counts: self.counts(),
            instructions: None,
        }
    }
}
