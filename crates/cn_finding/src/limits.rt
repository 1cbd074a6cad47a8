//! How far a search goes.
use cn_choice::MOST_PROCESSES;

/// The least limit of a search.
pub const LEAST_LIMIT: u8 = 2;

/// The greatest limit of a search.
pub const GREATEST_LIMIT: u8 = MOST_PROCESSES as u8;
