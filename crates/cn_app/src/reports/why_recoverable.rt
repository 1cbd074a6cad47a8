//! The report of `why --recoverable`.
ghost use Rattle.std.specs.Prelude.{◌≡◌, IfOk, string_bytes};
ghost use Rattle.cn_reasons.specs.Recoverable.{IsRecoverableExplanation};
ghost use Rattle.cn_app.specs.Commands.WhyRecoverable.{IsWhyRecoverableReport, recoverable_in};

use cn_form::DocumentForm;
use cn_io::{AppFault, Report, with_line_feed};
use cn_json::recoverable_explanation_json;
use cn_markdown::recoverable_explanation_markdown;
use cn_reasons::RecoverableExplanation;
use cn_table::Table;
use cn_text::recoverable_explanation_of;
use std::alloc::{AllocError, Global};
use std::thread::Threads;

/// The text of an explanation of a recoverable number in a form.
fn recoverable_text(
    alloc: Global,
    explanation: &RecoverableExplanation,
    form: DocumentForm,
) -> Result<String, AllocError>
    requires { IsRecoverableExplanation explanation.now }
    ensures { IfOk result (λ text. string_bytes text ≡ recoverable_in form explanation.now) }
{
    match form {
        DocumentForm::Text => recoverable_explanation_of(alloc, explanation),
        DocumentForm::Json => with_line_feed(recoverable_explanation_json(alloc, explanation)?),
        DocumentForm::Markdown => recoverable_explanation_markdown(alloc, explanation),
    }
}

/// Why the recoverable number of the table is what it is, in a form: that of
/// [`recoverable_explanation_of`], of [`recoverable_explanation_json`] or of
/// [`recoverable_explanation_markdown`]. Without `all`, it tells the first 12 of the choices for one
/// process more.
///
/// # Errors
///
/// `OutOfMemory`.
pub fn why_recoverable_report<T: Threads + Sync>(
    rt: &T,
    alloc: Global,
    table: Table,
    all: bool,
    form: DocumentForm,
) -> Result<Report, AppFault>
    // promise: why-recoverable (IsWhyRecoverableReport)
    ensures { IsWhyRecoverableReport table all form result }
{
    let explanation = RecoverableExplanation::new(rt, alloc, table, all)?;
    Ok(Report::whole(recoverable_text(alloc, &explanation, form)?))
}
