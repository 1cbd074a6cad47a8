//! Merging: the table of a type whose states are all told apart by their responses.
//!
//! Without reads a protocol gets to know of an object by responses alone. So it does not see the
//! difference between two states from which every list of operations gets the same responses.
//! [`merge`] makes one state of all of them:
//!
//! ```text
//! let merged = merge(alloc, &table)?;
//! if merged.table.states() < table.states() {
//!     let class = merged.class_of[state.0 as usize];
//!     println!(rt; "{}", merged.table.state_name(State(class)))?;
//! }
//! ```
#![tactic(auto)]

mod firsts;
mod merged;
mod numbering;
#[cfg(test)]
mod tests;

pub use merged::{Merged, merge};
