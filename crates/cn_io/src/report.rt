//! Reports: what a command writes, and how it ends.
ghost use Rattle.std.specs.Prelude.{◌≡◌, ◌++◌, IfOk, codes, string_bytes};

use crate::fault::AppFault;
use std::alloc::AllocError;

/// How a command that wrote its output ended.
#[derive(Clone, Copy, Debug, PartialEq, Eq)]
pub enum Outcome {
    /// All was done.
    Whole,
    /// All was done, but some call found the log full or was stopped, and has no reply. The output
    /// says which.
    Cut,
    /// A text is refused for this fault, and the output tells what is wrong with it.
    Refused(AppFault),
}

impl Outcome {
    ghost use Rattle.cn_io.specs.Outcomes.{cut_if};

    /// `Cut` if some call has no reply, and else `Whole`.
    pub fn cut_if(is_cut: bool) -> Outcome
        ensures { result ≡ cut_if is_cut }
    {
        if is_cut { Outcome::Cut } else { Outcome::Whole }
    }
}

/// What a command writes, and how it ends.
#[derive(Drop)]
pub struct Report {
    /// The text of the output.
    pub text: String,
    /// How the command ends once the text is written.
    pub outcome: Outcome,
}

impl Report {
    /// A report that ends with `Whole`.
    pub fn whole(text: String) -> Report
        ensures text { result.text ≡ text }
        ensures outcome { result.outcome ≡ Outcome.Whole }
    {
        Report {
            text,
            outcome: Outcome::Whole,
        }
    }
}

/// A text with a line feed behind it.
pub fn with_line_feed(mut text: String) -> Result<String, AllocError>
    ensures { IfOk result (λ line. string_bytes line ≡ string_bytes text ++ codes "\n") }
{
    text.push_str("\n")?;
    Ok(text)
}
