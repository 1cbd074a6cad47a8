//! The width of a set, and the number of subsets.
use cn_choice::MOST_PROCESSES;

/// The number of subsets of the most processes. A subset is a number below it, and rows for subsets
/// have this many places.
pub(crate) const SUBSETS: usize = 1 << MOST_PROCESSES;

/// The members of a set are below it.
pub const WIDTH: u8 = 16;
