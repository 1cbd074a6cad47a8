//! Consensus along a plan tree: the decisions after whole schedules, and each step of them.
//!
//! Each process begins with its input and then takes steps. At each place of its path it
//!
//! 1. writes its value to the register of its team,
//! 2. applies its operation to the object of the node,
//! 3. looks at the object, where the processes of the node look: it reads the state, or it does a
//!    further operation, which changes nothing, and gets the response,
//! 4. reads the register of the team that it judges to have come first, by its response and by what
//!    it saw.
//!
//! It takes the value that it finds to its next place, and decides it at the root. [`run_schedule`]
//! runs a list of the processes that take the steps. [`run_steps`] also gives each step.
//!
//! ```text
//! let ends = run_schedule(alloc, &plan, &[10, 20], &[1, 1, 1, 0, 0, 0])?;
//! for decision in &ends.decisions {
//!     // Some(v): the process has decided v; None: it has not.
//! }
//! ```
#![tactic(auto)]

mod action;
pub mod laws;
mod local;
mod node;
mod schedule;
mod turn;
mod world;

pub use action::{Action, StepRecord};
pub use schedule::{Course, run_schedule, run_steps};
