//! Facts that show what the definitions of the model mean. The checker computes them.
//!
//! - [`runs`]: under 1,500 schedules the model decides what the program decides.
//! - [`plays`]: two runs that the program tells of a choice are runs of one protocol.
//! - [`failures`]: protocols that are known to fail do fail, with the schedule that shows it.
//! - [`steps`]: what a step and a crash change, and what they leave.
#![tactic(auto)]

pub mod failures;
pub mod plays;
pub mod runs;
pub mod steps;
