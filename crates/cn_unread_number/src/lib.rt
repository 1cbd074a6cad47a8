//! The consensus number of a type whose objects are not read: the operations of its table are all
//! that processes have.
//!
//! ```text
//! let number = unread_number(rt, alloc, &table)?;
//! println!(rt; "{}", number.evidence.bounds)?;
//! ```
#![tactic(auto)]

mod bounds;
mod evidence;
pub mod laws;
mod number;
mod search;
mod telling;
#[cfg(test)]
mod tests;

pub use bounds::NumberBounds;
pub use evidence::{Evidence, LeastEvidence, MostEvidence};
pub use number::{UnreadNumber, unread_number};
pub use search::MOST_CHOICES;
pub use telling::{Telling, telling_of};
