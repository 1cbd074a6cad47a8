//! The view of each process of a choice, computed fast.
//!
//! [`outcomes`] answers the outcome set of a process as a set of bits, and [`is_witness`] whether a
//! choice is a witness. [`left_states`] answers the states that the orders of a team leave.
//!
//! ```text
//! let seen = outcomes(&table, &choice, Team::A, 0);
//! if seen.has(Response(1), State(2)) {
//!     println!(rt; "response 1, then state 2")?;
//! }
//! ```
#![tactic(auto)]

pub mod bits;
mod early_pairs;
mod limits;
mod outcome_sets;
mod row_setting;
mod state_sets;
mod subset_pairs;
mod subset_rows;
mod twins;

pub use bits::{Bits, Members};
pub use limits::WIDTH;
pub use outcome_sets::{OutcomeSet, is_witness, outcomes};
pub use state_sets::left_states;
pub use subset_rows::image;
