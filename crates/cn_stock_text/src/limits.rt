//! How much of an explanation is told unasked.

/// The most joins that are told if not all are asked for.
pub(crate) const MOST_TOLD: usize = 12;
