//! Consensus among the processes of a plan: rounds, step by step in any order, and the decisions of
//! whole schedules.
//!
//! A [`Round`] is one instance of consensus. Each process begins with its value and then takes
//! steps. At each place of its path it
//!
//! 1. writes its value to the register of its team,
//! 2. applies its operation to the object of the node,
//! 3. reads the object, and judges by response and state which team came first,
//! 4. reads the register of that team.
//!
//! It takes the value that it finds to its next place, and decides it at the root. [`run_schedule`]
//! runs a round in which all processes have begun, by a list of the processes that take the steps.
//! [`run_steps`] also gives each step.
//!
//! ```text
//! let ends = run_schedule(alloc, &plan, &[10, 20], &[1, 1, 0, 0, 0, 0])?;
//! for decision in &ends.decisions {
//!     // Some(v): the process has decided v; None: it has not.
//! }
//! ```
#![tactic(auto)]

mod action;
mod fault;
pub mod laws;
mod local;
mod next_action;
mod node;
mod round;
mod schedule;

pub use fault::ScheduleFault;
pub use local::{Local, Stage};
pub use next_action::{Action, StepRecord};
pub use node::Node;
pub use round::Round;
pub use schedule::{Course, Decided, run_schedule, run_steps, schedule_fault};
