//! How far a search goes.

/// The most operations of a stock: one more than a type may have states. A finite number is at most
/// the number of states, and stocks of one operation more show that it is not greater.
pub const MOST_SIZE: usize = 17;
