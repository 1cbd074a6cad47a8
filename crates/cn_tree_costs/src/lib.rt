//! What plan trees cost, and the laws on which a search for the least one rests.
#![tactic(auto)]

pub mod laws;
