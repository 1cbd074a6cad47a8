//! The limit of what an explanation tells.

/// The greatest number of collisions that `explain` tells, and of choices that `why --recoverable`
/// tells, unless they are asked for all.
pub const MOST_TOLD: usize = 12;
