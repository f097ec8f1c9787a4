// A run of an image, poll by poll.
ghost use Rattle.std.specs.Prelude.{◌≡◌, List, [], length, IfOk};
ghost use Rattle.tam_msgs.specs.declared.item.Item.{Item};
ghost use Rattle.tam_msgs.specs.Messages.{AreLimits};
ghost use Rattle.tam_run.specs.Accounts.{image_account};
ghost use Rattle.tam_run.specs.ImageTelling.{image_stand, ImageTells};

use crate::level_run::LevelRun;
use crate::{Halt, Tally};
use rv_host::Host;
use rv_image::Image;
use rv_machine::Rv;
use std::alloc::Global;
use std::marker::Model;
use tam_edge::NoMemory;
use tam_msgs::{Limits, Order, Step};

/// A run of an image: its host, and the machine that the host steps.
#[derive(Drop)]
pub struct ImageRun<'i> {
    image: &'i Image,
    host: Host,
    rv: Rv,
}

impl<'i> Model for ImageRun<'i> {
    ghost use Rattle.std.specs.Prelude.{◌≡◌};
    ghost use Rattle.tam_run.specs.ImageTelling.{MachineRun};

    ghost Value = { MachineRun };

    ghost view = { λ r. record { image = r.image.now; host = r.host; hart = r.rv } };

    ghost invariant = { λ r. r.rv.steps ≡ r.host.instructions };
}

impl<'i> ImageRun<'i> {
    /// Begins a run, with one argument for each param of `main`: the machine is at the first word, and the arguments are pending.
    pub fn new(
        alloc: Global,
        image: &'i Image,
        args: &[u32],
        limits: Limits,
    ) -> Result<ImageRun<'i>, NoMemory>
        requires one_each { length args.now ≡ image.now.params }
        requires limits { AreLimits limits }
        ensures begins { (order : List Item) → IfOk result (λ run. ImageTells run order [] (image_account image.now args.now order limits)) }
    {
        let rv = Rv::new(alloc, image, limits.frames)?;
        let host = Host::new(alloc, image.params(), image.results(), args, limits)?;
        Ok(ImageRun { image, host, rv })
    }

    /// How many results `main` has.
    pub fn results(&self) -> u32
        ensures value { result ≡ self.now.image.results }
    {
        self.image.results()
    }

    /// The machine as the run leaves it.
    pub fn into_machine(self) -> Rv
        ensures value { result ≡ self.entry.hart }
    {
        self.rv
    }
}

impl<'i> LevelRun for ImageRun<'i> {
    ghost tells = { ImageTells };

    ghost stand = { image_stand };

    fn advance(&mut self, order: &mut Order) -> Result<Step, Halt> {
        Ok(self.host.poll(&mut self.rv, order)?)
    }

    fn tally(&self) -> Tally {
        Tally {
            counts: self.host.counts(),
            instructions: Some(self.rv.steps()),
        }
    }
}
