// A run at a level, event by event.
ghost use Rattle.std.specs.Prelude.{◌≡◌, ℕ, List};
ghost use Rattle.tam_msgs.specs.declared.item.Item.{Item};
ghost use Rattle.tam_run.specs.Accounts.{Account};
ghost use Rattle.tam_run.specs.Telling.{Stand, Comes, TellsMore, printed_behind};
ghost use Rattle.tam_run.specs.Tallies.{tally_of};

use crate::{Halt, Tally};
use tam_msgs::{Order, Step};

/// A run at a level, event by event. Its caller keeps the order list and the results printed.
pub trait LevelRun {
    /// The run goes on, and under this order list and behind these results it tells this account.
    ghost tells: { Self → List Item → List (ℕ × ℕ) → Account → Type 0 };

    /// Where the run stands.
    ghost stand: { Self → Stand };

    /// Makes one event.
    fn advance(&mut self, order: &mut Order) -> Result<Step, Halt>
        ensures event { (printed : List (ℕ × ℕ)) (a : Account) → tells self.old order.old printed a
            → Comes (λ behind. tells self.new order.new behind a) (stand self.old) (stand self.new) printed a result }

        // What was printed is a prefix of what is told.
        ensures prefix { (printed : List (ℕ × ℕ)) (a : Account) → tells self.old order.old printed a → TellsMore a (printed_behind printed result) };

    /// What the run has counted.
    fn tally(&self) -> Tally
        ensures value { result ≡ tally_of (stand self.now) };
}
