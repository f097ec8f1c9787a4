// What the events of a journal change.
use tam_msgs::Message;
use tam_world::{Fault, World};

/// A run of a class: the activation, the block and the class.
#[derive(Clone, Copy)]
pub(crate) struct ClassRun {
    pub(crate) act: u32,
    pub(crate) block: u32,
    pub(crate) class: u32,
}

/// What the events of a journal have changed.
#[derive(Drop)]
pub(crate) struct Machine {
    pub(crate) world: World,
    /// Every message that was sent, in order.
    pub(crate) sent: Vec<Message>,
    /// The numbers of those that were delivered, in order.
    pub(crate) arrived: Vec<u32>,
    /// The classes that have run, in order.
    pub(crate) ran: Vec<ClassRun>,
    /// The words that went outside, with their places, in order.
    pub(crate) printed: Vec<(u32, u32)>,
    /// What an access found, if it found a fault.
    pub(crate) fault: Option<Fault>,
}
