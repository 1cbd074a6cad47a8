//! The finest divisions of processes that meet at one object, by their sizes.
//!
//! Where processes do one operation each, two are *joined* if some process cannot tell which of
//! them came first. Joined processes are in one team, so the components are the finest division, and
//! each division in which every process can tell the first team has whole teams of it
//! ([`laws::finest_divisions_are_witnesses`]). [`find_divisions`] answers for each number of
//! processes all sizes that such divisions of a type have, with an example of each, by what the
//! processes see of the state behind their operations ([`Sight`]).
//!
//! It goes over stocks, lists of operations (`cn_stocks`): from three processes on those with one
//! operation are in one team ([`laws::divisions_are_of_operations`]).
//!
//! ```text
//! for divisions in &find_divisions(alloc, &table, &[Sight::Nothing, Sight::State], 8)? {
//!     for of_sight in &divisions.by_sight {
//!         for division in &of_sight.list {
//!             println!(rt; "{:?} {:?}", of_sight.sight, division.sizes.as_slice())?;
//!         }
//!     }
//! }
//! ```
#![tactic(auto)]

mod components;
mod divisions;
mod joins;
pub mod laws;
mod levels;
mod looks;
mod search;
mod sizes;
mod teams;
#[cfg(test)]
mod tests;
mod word_sets;

pub use divisions::Division;
pub use search::{Divisions, SightDivisions, find_divisions};
pub use sizes::Numbers;
