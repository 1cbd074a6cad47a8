//! How a plan is written.
ghost use Rattle.std.specs.Prelude.{◌≡◌};
ghost use Rattle.cn_app.specs.PlanStyles.{GivesPrefix, plain_style};

use cn_code::Prefix;
use cn_form::PlanForm;
use cn_io::{AppFault, Argument};
use std::alloc::Global;

/// How a plan is written: its form, and the names of a program in C.
#[derive(Drop)]
pub enum PlanStyle {
    /// Lines of text for people.
    Text,
    /// One JSON object.
    Json,
    /// The tournament as a picture for Graphviz.
    Dot,
    /// A model in Promela, for the model checker SPIN.
    Promela,
    /// A program in Rust.
    Rust,
    /// A program in C, whose names begin with `consensus` and are static.
    C,
    /// A program in C, whose names begin with this prefix and are external.
    ExternalC(Prefix),
    /// The header of that program.
    Header(Prefix),
}

impl PlanStyle {
    /// A plan in this form, and a program in C with the names that it has without a prefix.
    pub fn of_form(form: PlanForm) -> PlanStyle
        ensures { result ≡ plain_style form }
    {
        match form {
            PlanForm::Text => PlanStyle::Text,
            PlanForm::Json => PlanStyle::Json,
            PlanForm::Dot => PlanStyle::Dot,
            PlanForm::Promela => PlanStyle::Promela,
            PlanForm::Rust => PlanStyle::Rust,
            PlanForm::C => PlanStyle::C,
        }
    }
}

/// The prefix that a word spells.
///
/// # Errors
///
/// `Argument(Prefix)` if it is none ([`Prefix::parse`]); `OutOfMemory`.
pub fn read_prefix(alloc: Global, word: &str) -> Result<Prefix, AppFault>
    // promise: prefix-of-an-argument (GivesPrefix: is_prefix)
    ensures { GivesPrefix word.now result }
{
    let text = String::from_str(alloc, word)?;
    match Prefix::parse(text) {
        Some(prefix) => Ok(prefix),
        None => Err(AppFault::Argument(Argument::Prefix)),
    }
}
