//! Consensus numbers in sharp forms: which types have no greatest number, and how great a number
//! can be that is finite.
#![tactic(auto)]

pub mod laws;
