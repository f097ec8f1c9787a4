// A run of a graph, vertex by vertex.
ghost use Rattle.tam_run.specs.GraphTelling.{graph_stand, GraphTells};

use crate::level_run::LevelRun;
use crate::{Halt, Tally};
use tam_eval::Eval;
use tam_msgs::{Order, Step};

impl<'g> LevelRun for Eval<'g> {
    ghost tells = { GraphTells };

    ghost stand = { graph_stand };

    fn advance(&mut self, order: &mut Order) -> Result<Step, Halt> {
        Ok(self.event(order)?)
    }

    fn tally(&self) -> Tally {
        Tally {
            counts: self.counts(),
            instructions: None,
        }
    }
}
