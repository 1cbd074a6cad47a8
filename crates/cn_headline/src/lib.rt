//! The headline, what the printed numbers say of all protocols, and the laws that the output of a
//! command is a function of the texts that it reads.
//!
//! No program stands on this crate: its laws speak of what the contracts of the search, the
//! protocol, the log and the commands say.
#![tactic(auto)]

pub mod laws;
