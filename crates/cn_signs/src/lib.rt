//! Evidence that a type whose objects are not read solves consensus for each number of processes:
//! *signs*.
//!
//! One process does a single operation and all others another one. Then all go over a list of
//! further operations until an answer shows which was first. A [`SignChoice`] is a start state with
//! such operations, and [`SignChoice::has_signs`] says whether it has signs. [`SignStates`] are the
//! states in which the object can be once somebody has moved. [`find_signs`] looks for a choice that
//! has signs:
//!
//! ```text
//! if let Some(choice) = find_signs(&table, 100_000) {
//!     println!(rt; "infinite, by {}", table.operation_name(choice.single))?;
//! }
//! ```
#![tactic(auto)]

mod check;
mod ends;
mod responses;
mod search;
mod sign_choice;
mod states;
#[cfg(test)]
mod tests;

pub use search::find_signs;
pub use sign_choice::SignChoice;
pub use states::SignStates;
