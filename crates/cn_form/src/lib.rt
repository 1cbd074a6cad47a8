//! The forms in which the program answers, and how much an explanation tells.
//!
//! [`PlanForm`] is a form of a plan's text, [`AnswerForm`] a form of an answer, and [`DocumentForm`]
//! one of an answer that documents can take as it is. The words of the command line name them, and
//! the printers write them.
//!
//! ```text
//! let form = AnswerForm::Json.of_document();
//! let told = entries.len().min(MOST_TOLD);
//! ```
#![tactic(auto)]

mod answer_form;
mod limits;
mod plan_form;

pub use answer_form::{AnswerForm, DocumentForm};
pub use limits::MOST_TOLD;
pub use plan_form::PlanForm;
