//! Operations that do the same as others tell nothing more.
//!
//! A *copy* of an operation gives the same response and leads to the same state, in each state. By
//! [`laws::copies_tell_nothing`] a type is n-discerning exactly if it is so without copies. So a
//! search for the number of a type needs one of equal operations alone: [`without_copies`].
//!
//! ```text
//! let table = without_copies(alloc, &table)?;
//! println!(rt; "{} different operations", table.operations())?;
//! ```
#![tactic(auto)]

mod copies;
pub mod laws;

pub use copies::{first_operations, without_copies};
