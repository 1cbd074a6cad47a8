//! Plan trees: protocols for consensus in which the processes meet at nodes in any number of teams,
//! with an object for each node and a register for each of its teams.
#![tactic(auto)]

pub mod laws;
