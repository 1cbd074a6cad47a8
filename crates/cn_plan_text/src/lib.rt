//! Texts of plans, and of what runs: pictures and models of a plan, and lines of decisions, of steps,
//! of logs and of lives.
//!
//! [`plan_dot`] answers a plan as a picture for Graphviz, and [`plan_promela`] as a model for the
//! model checker SPIN; [`recording_plan_lines`] tells the plan of a recording witness.
//! [`decision_lines`] answers a line for each process of a round, [`step_lines`]
//! one for each step of a schedule, and [`life_step_lines`] one for each step and crash.
//! [`answer_lines`] answers a line for each call of a log that ended, [`reply_lines`] one for each
//! reply to a process, [`entry_lines`] one for each entry, and [`events_line`] the events in the form
//! in which lists of them are read. Each text is a function of the values that it shows.
//!
//! ```text
//! let core = replay(alloc, &plan, &counter, start, 8, &events)?;
//! let opening = core.opening();
//! print!(rt; "{}", entry_lines(alloc, opening.object(), opening.start(), &core)?)?;
//! ```
#![tactic(auto)]

mod decisions;
mod dot;
mod events;
mod lives;
mod log;
mod places;
mod promela;
mod recording_plan;
mod steps;

pub use decisions::decision_lines;
pub use dot::plan_dot;
pub use events::events_line;
pub use lives::life_step_lines;
pub use log::{answer_lines, entry_lines, push_answer_line, reply_lines};
pub use promela::plan_promela;
pub use recording_plan::{life_steps, most_life_steps, recording_plan_lines};
pub use steps::step_lines;
