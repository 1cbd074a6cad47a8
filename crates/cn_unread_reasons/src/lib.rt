//! Why the number of a type without reads is what it is, as a value.
//!
//! An [`UnreadExplanation`] has what there is to tell of a number without reads: for the lower bound
//! an [`UnreadWitness`] with what each process gets, or a [`SignWitness`]; for the upper bound the
//! [`MostReason`], which is a [`PlayedTrap`] where the adversary wins the game on two runs. A
//! [`Play`] of it is two runs, step by step, that some process cannot tell apart.
//!
//! Each part is resolved: a text of it, in any form, looks up names in the table and computes
//! nothing.
#![tactic(auto)]

mod explanation;
mod further_views;
mod low;
mod merged;
mod moves;
mod play;
mod runs;
mod search;
mod sight;
mod signs;
#[cfg(test)]
mod tests;
mod trap;
mod witness;

pub use explanation::{MostReason, UnreadExplanation};
pub use merged::MergedState;
pub use play::{Play, PlayEnd};
pub use sight::{Answer, UnreadSight};
pub use signs::SignWitness;
pub use trap::PlayedTrap;
pub use witness::{UnreadView, UnreadWitness};
