//! Why a choice is no recording witness.
use arrayvec::ArrayVec;
use cn_choice::MOST_PROCESSES;
use cn_table::State;

/// Two runs that leave the object in one state. A process that comes back reads the state alone,
/// and cannot tell which run it was.
#[derive(Drop)]
pub struct Reason {
    /// The state that both runs leave.
    pub state: State,
    /// The order of the run that begins in team A. It is empty if this run has no step.
    pub alpha: ArrayVec<u8, MOST_PROCESSES>,
    /// The order of the run that begins in team B. It is empty if this run has no step.
    pub beta: ArrayVec<u8, MOST_PROCESSES>,
}
