//! The answers of the program as JSON: one compact value each, its keys in the order of their
//! bytes, with no line feed at its end.
//!
//! [`classification_json`] writes the numbers of a type, [`verdict_json`] the verdict on a
//! certificate, [`flaws_json`] the flaws of the text of a table, [`notes_json`] a table without
//! flaws, [`course_json`] the decisions and the steps of processes, [`log_json`] and
//! [`service_json`] what happened in a log,
//! [`explanation_json`], [`recoverable_explanation_json`] and [`unread_explanation_json`] why a
//! number is what it is, [`pairs_json`] the numbers of operations and of their pairs, [`changes_json`]
//! those of a type with other entries, [`plan_json`] a plan, [`recording_plan_json`] that of a
//! recording witness, [`tree_plan_json`] a plan tree, and [`tree_course_json`] a run along one.
//! Each text is that of a JSON value, which is a function of the answer.
//!
//! ```text
//! println!(rt; "{}", verdict_json(alloc, check(&table, &certificate))?)?;
//! println!(rt; "{}", flaws_json(alloc, &flaws(alloc, bytes)?)?)?;
//! ```
#![tactic(auto)]

mod changes;
mod choice;
mod collisions;
mod course;
mod explanation;
mod flaws;
mod json_text;
mod lasting;
mod lives;
mod log;
mod names;
mod numbers;
mod pairs;
mod plan;
mod recording_plan;
mod recoverable;
mod stock_verdict;
mod tree_course;
mod tree_plan;
mod tree_verdict;
mod unread;
mod unread_witness;
mod value;
mod verdict;
mod witness;

pub use changes::changes_json;
pub use cn_reasons::TypeNumber;
pub use course::{course_json, decisions_json};
pub use explanation::explanation_json;
pub use flaws::{flaws_json, notes_json};
pub use lives::life_course_json;
pub use log::{AnswerOf, log_json, service_json};
pub use numbers::{Classification, classification_json};
pub use pairs::pairs_json;
pub use plan::plan_json;
pub use recording_plan::recording_plan_json;
pub use recoverable::recoverable_explanation_json;
pub use stock_verdict::stock_refusal_json;
pub use tree_course::tree_course_json;
pub use tree_plan::tree_plan_json;
pub use tree_verdict::{accepted_plan_json, refusal_at_node_json};
pub use unread::unread_explanation_json;
pub use verdict::{refusal_json, unread_json, verdict_json};
