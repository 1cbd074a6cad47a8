//! Evidence that objects which are not read solve consensus, for types that need one further
//! operation.
//!
//! Each process of a choice does its operation, gets a response, and then does one further
//! operation, which the response chooses, or none. [`Further`] has the choice and the further
//! operations, [`Further::tells`] says whether each process then knows which team was first, and
//! [`find_further`] looks for them:
//!
//! ```text
//! if let Some(further) = find_further(alloc, &table, 3, 1_000)? {
//!     assert!(rt; further.tells(alloc, &table, 3)? == Some(true));
//! }
//! ```
#![tactic(auto)]

mod follow_up;
mod further;
mod levels;
mod listing;
mod meeting;
mod scene;
mod search;
mod sight;
mod sights;
mod stage;
#[cfg(test)]
mod tests;
mod walk;

pub use follow_up::FollowUp;
pub use further::Further;
pub use search::find_further;
pub use sight::{FurtherAnswer, FurtherSight};
