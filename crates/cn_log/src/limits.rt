//! The limits of a log.
use cn_choice::MOST_PROCESSES;

/// The most slots of a log.
pub const MOST_SLOTS: u16 = 1_024;

/// The most entries of a log: one for each process in each slot.
pub(crate) const MOST_ENTRIES: usize = MOST_PROCESSES * MOST_SLOTS as usize;
