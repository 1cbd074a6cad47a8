//! Plan trees in the model of all protocols: consensus in few steps, and without reads where the
//! responses tell enough.
#![tactic(auto)]

pub mod laws;
