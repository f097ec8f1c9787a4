// What an event changes or sends.
use crate::NodeAt;
use tam_msgs::Message;

/// What a firing, or a delivery that begins nothing and answers no reader who waited, changes or sends.
#[derive(Clone, Copy, Debug, PartialEq, Eq)]
pub enum Effect {
    Nothing,
    /// A node gets a word.
    Gives { at: NodeAt, word: u32 },
    /// An activation enters a block.
    Enters { activation: u32, block: u32 },
    Sends { message: Message },
}
