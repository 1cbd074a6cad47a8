//! The definitions, run as they stand: all orders, what a process sees of a run, and by every pair
//! of orders whether a raw choice is a witness.
//!
//! They are slow and plain. A caller can compare them with another method, here or outside, and
//! show people by [`seen_pair`] what a process sees of one order.
mod orders;
mod witness;

pub use orders::plain_orders;
pub use witness::{raw_splits, seen_pair};
