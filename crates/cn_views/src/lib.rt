//! Evidence from below for the number of a type whose objects are not read: choices whose teams
//! *silent* operations, which change nothing, tell apart.
//!
//! After its own operation a process applies silent ones. What these answer tells it something of
//! the state, but not always all. [`Looks`] has the silent operations of a table and the states that
//! they do not tell apart, and [`is_visible`] says whether the response with these answers tells
//! each process of a choice which team began. [`find_visible`] looks for such a choice:
//!
//! ```text
//! if let Some(choice) = find_visible(&table, 3, 10_000) {
//!     println!(rt; "three processes can agree without reads")?;
//! }
//! ```
#![tactic(auto)]

mod looks;
mod search;
mod silent;
#[cfg(test)]
mod tests;
mod visible;

pub use looks::Looks;
pub use search::find_visible;
pub use silent::{is_silent, silent_operations};
pub use visible::is_visible;
