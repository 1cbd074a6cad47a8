//! Meetings: processes of any number of teams at one object, and the divisions into teams in which
//! each process can tell the team that came first.
//!
//! A witness of `cn_choice` is such a division into two teams whose processes read the state.
#![tactic(auto)]

pub mod laws;
mod sight;

pub use sight::Sight;
