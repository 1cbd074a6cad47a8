//! The tests of the crates below the texts: what no contract says.
//!
//! Most modules are named after the crate that they test. The others:
//!
//! - `types`, `certificates` and `gates` have what tests begin with, also those of `cn_app_tests`;
//! - `faults` has the texts of all faults;
//! - `wide` compares outcome sets with the definitions;
//! - `refused` has calls whose allocations are refused, once `tests/system/memory/libraries` runs them.
//!
//! A test calls public functions on worked values. The expected answers come from outside the
//! program: numbers and texts of worked types, fakes that fail, and threads that overlap.
//! `tests/texts/rows` has what the program shows.
#![tactic(auto)]

#[cfg(test)]
mod agree;
pub mod certificates;
#[cfg(test)]
mod check;
#[cfg(test)]
mod choice;
#[cfg(test)]
mod faults;
#[cfg(test)]
mod fixtures;
pub mod gates;
#[cfg(test)]
mod hall;
#[cfg(test)]
mod log;
#[cfg(test)]
mod proto;
#[cfg(test)]
mod refused;
#[cfg(test)]
mod table;
#[cfg(test)]
mod telling;
pub mod types;
#[cfg(test)]
mod wide;
