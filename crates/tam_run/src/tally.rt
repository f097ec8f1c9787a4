// What a run counts.
use tam_msgs::Counts;

/// What a run has counted, and at the level of the machine how many instructions were carried out.
#[derive(Clone, Copy, Debug, PartialEq, Eq)]
pub struct Tally {
    pub counts: Counts,
    pub instructions: Option<u64>,
}
