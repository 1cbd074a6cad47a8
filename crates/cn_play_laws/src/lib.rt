//! Laws of two runs that the program tells of a choice: they look the same to each protocol that
//! takes their steps, and some protocol does.
#![tactic(auto)]

pub mod laws;
