//! Consensus among processes that may crash and come back: the plan of a recording witness, its
//! steps and crashes, and the decisions of whole schedules.
//!
//! [`first_plan`] makes the [`RecordingPlan`] of the first recording witness of a type. [`Lives`]
//! is one instance of consensus. A crash takes from a process its local state, also a response that
//! it just got; objects and registers keep their contents. So a process judges by the state of an
//! object alone which team came first there. At each place of its path it
//!
//! 1. writes its value to the register of its team,
//! 2. reads the object, and goes to 6 if it is not in the start state,
//! 3. if it is alone in team A, reads the register of team B, and goes on with a value found there,
//! 4. applies its operation to the object,
//! 5. reads the object once more,
//! 6. reads the register of the team that came first, and goes on with its value.
//!
//! It decides the value with which it leaves the root. After a crash it begins again with its
//! input, at its first place. [`run_lives`] runs a schedule of steps and crashes, and
//! [`run_life_steps`] also tells what each of them does. That every run is consensus are laws of
//! `cn_life_laws`, above this crate.
//!
//! ```text
//! let Some(plan) = first_plan(rt, alloc, &table, 2)? else {
//!     return Ok(());
//! };
//! let schedule = [Event::Step(0), Event::Crash(0), Event::Step(1)];
//! let ends = run_lives(alloc, &plan, &[10, 20], &schedule)?;
//! ```
#![tactic(auto)]

mod course;
mod fault;
mod first;
pub mod laws;
mod life_action;
mod lives;
mod local;
mod plan;
mod schedule;
mod turn;

pub use course::{LifeCourse, run_life_steps};
pub use fault::RecordingFault;
pub use first::first_plan;
pub use life_action::{LifeAction, LifeRecord, Memory};
pub use lives::Lives;
pub use local::{Local, Stage};
pub use plan::RecordingPlan;
pub use schedule::{Event, run_lives};
