//! Types with no greatest number of processes.
//!
//! Two operations of a type *last* from a start state if the state tells for good which came first,
//! where one process does the single one and any number of processes do the other. [`find_lasting`]
//! looks for two such operations. By [`laws::lasting_operations_decide`] a type has such operations
//! exactly if it is n-discerning for every n. By [`laws::finite_numbers_are_few`] the number of any
//! other type is at most the number of its states.
//!
//! ```text
//! match find_lasting(&table) {
//!     Some(_) => println!(rt; "infinite")?,
//!     None => println!(rt; "at most {}", table.states())?,
//! }
//! ```
pub mod laws;
mod onward;
mod search;

pub use search::{First, Lasting, find_lasting, left_states};
