//! Lives in the model of all protocols: the protocol of a recording plan solves recoverable
//! consensus there, and what `cn_lives` steps and crashes goes as this protocol does. So every run
//! of lives is consensus.
//!
//! No program stands on this crate: its laws speak of the worlds that the calls of `cn_lives` pin.
#![tactic(auto)]

pub mod laws;
