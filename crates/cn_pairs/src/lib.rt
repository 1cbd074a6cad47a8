//! The numbers of a type with some of its operations alone.
//!
//! [`pairs_of`] answers the number of each operation alone and of each pair of operations, and the
//! smallest sets of operations with the number of the type. [`number_with`] answers the number of a
//! type with a set of operations, and [`set_numbers`] those of all sets of one size.
//!
//! ```text
//! for pair in pairs_of(rt, alloc, &table)?.pairs.as_slice() {
//!     let first = table.operation_name(pair.operations[0]);
//!     let second = table.operation_name(pair.operations[1]);
//!     println!(rt; "{first} and {second}: {}", pair.number)?;
//! }
//! ```
#![tactic(auto)]

pub mod laws;
mod pairs;
mod restricted;
mod searched;
mod sets;
mod smallest;

pub use pairs::{Pairs, pairs_of};
pub use restricted::{SetNumber, number_with, set_numbers};
pub use smallest::MOST_SETS;
