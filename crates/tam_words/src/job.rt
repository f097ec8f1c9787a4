// A job, as its words ask for it.
ghost use Rattle.std.specs.Prelude.{◌≡◌, ◌<◌, ◌^◌, ℕ, true, [], IfSome, IfNone, Some, None, slice_get};
ghost use Rattle.std.specs.Prelude.{string_bytes};
ghost use Rattle.std.specs.Option.{option_map};
ghost use Rattle.tam_msgs.specs.Messages.{AreLimits};
ghost use Rattle.tam_words.specs.Names.{makes, shape_of};
ghost use Rattle.tam_words.specs.Jobs.{job_parts, IsMakeable};

use crate::mode::Mode;
use crate::shapes::shape_of;
use std::alloc::Global;
use std::marker::Model;
use std::mem;
use tam_make::Shape;
use tam_msgs::{Limits, Order};

/// What is to be done, as words ask for it.
///
/// docs/FORMATS.md, "Command line".
#[derive(Drop)]
pub struct Job {
    mode: Mode,
    name: String,
    count: u32,
    args: Vec<u32>,
    order: Order,
    order_file: Option<String>,
    limits: Limits,
}

impl Model for Job {
    ghost use Rattle.std.specs.Prelude.{◌≡◌, true, string_bytes};
    ghost use Rattle.std.specs.Option.{option_map};
    ghost use Rattle.tam_msgs.specs.Messages.{AreLimits};
    ghost use Rattle.tam_words.specs.Names.{makes, shape_of};
    ghost use Rattle.tam_words.specs.Jobs.{JobParts, IsMakeable};

    ghost Value = { JobParts };

    ghost view = { λ job. record {
      mode = job.mode;
      name = string_bytes job.name;
      count = job.count;
      args = job.args.items;
      order = job.order;
      order_file = option_map string_bytes job.order_file;
      limits = job.limits;
    } };

    ghost invariant = { λ job. AreLimits job.limits × (makes job.mode ≡ true → IsMakeable (shape_of (string_bytes job.name)) job.count) };
}

impl Job {
    pub(crate) fn new(
        mode: Mode,
        name: String,
        count: u32,
        args: Vec<u32>,
        order: Order,
        order_file: Option<String>,
        limits: Limits,
    ) -> Job
        requires limits { AreLimits limits }
        requires makeable { makes mode ≡ true → IsMakeable (shape_of (string_bytes name)) count }
        ensures value { result ≡ job_parts mode (string_bytes name) count args.items order (option_map string_bytes order_file) limits }
    {
        Job {
            mode,
            name,
            count,
            args,
            order,
            order_file,
            limits,
        }
    }

    pub fn mode(&self) -> Mode
        ensures value { result ≡ self.now.mode }
    {
        self.mode
    }

    /// The name of the file, or of a shape.
    pub fn name(&self) -> &str
        ensures value { result.now ≡ self.now.name }
    {
        self.name.as_str()
    }

    /// The shape that the name is that of. A mode that makes its input has one, which may have the count.
    pub fn shape(&self) -> Option<Shape>
        ensures value { result ≡ shape_of self.now.name }
        ensures makeable { makes self.now.mode ≡ true → IsMakeable result self.now.count }
    {
        shape_of(self.name.as_bytes())
    }

    /// The count, or 0 where none is given.
    pub fn count(&self) -> u32
        ensures value { result ≡ self.now.count }
    {
        self.count
    }

    pub fn args(&self) -> &[u32]
        ensures value { result.now ≡ self.now.args }
        ensures words { (k w : ℕ) → slice_get self.now.args k ≡ Some w → w < 2 ^ 32 }
    {
        let args = self.args.as_slice();
        args
    }

    /// The name of the order file.
    pub fn order_file(&self) -> Option<&str>
        ensures found { IfSome result (λ file. self.now.order_file ≡ Some file.now) }
        ensures absent { IfNone result (self.now.order_file ≡ None) }
    {
        match &self.order_file {
            Some(file) => Some(file.as_str()),
            None => None,
        }
    }

    pub fn limits(&self) -> Limits
        ensures value { result ≡ self.now.limits }
        ensures in_range { AreLimits result }
    {
        self.limits
    }

    /// The order. The empty one is left.
    pub fn take_order(&mut self) -> Order
        ensures value { result ≡ self.old.order }
        ensures kept { self.new ≡ record self.old { order = [] } }
    {
        let alloc = *self.args.allocator();
        mem::replace(&mut self.order, Order::none(alloc))
    }
}
