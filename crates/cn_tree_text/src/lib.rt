//! Texts of plan trees: for people, as a picture, and as a model; and lines of steps.
//!
//! [`plan_lines`] answers a plan tree as lines for people, [`head_line`] the first of these,
//! [`plan_dot`] a picture for Graphviz, and [`plan_promela`] a model for the model checker SPIN.
//! [`step_lines`] answers a line for each step of a schedule. Each text is a function of the values
//! that it shows.
//!
//! ```text
//! let plan = TreePlan::new(alloc, &table, teams, meetings)?;
//! print!(rt; "{}", plan_lines(alloc, &plan)?)?;
//! let course = run_steps(alloc, &plan, &inputs, &schedule)?;
//! print!(rt; "{}", step_lines(alloc, plan.table(), &course.records)?)?;
//! ```
#![tactic(auto)]

mod dot;
mod lines;
mod places;
mod promela;
mod steps;

pub use dot::plan_dot;
pub use lines::{head_line, plan_lines};
pub use promela::plan_promela;
pub use steps::step_lines;
