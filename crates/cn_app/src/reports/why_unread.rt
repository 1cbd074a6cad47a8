//! The report of `why --without-read`.
ghost use Rattle.std.specs.Prelude.{◌≡◌, IfOk, string_bytes};
ghost use Rattle.cn_unread_reasons.specs.Known.{IsUnreadExplanation};
ghost use Rattle.cn_app.specs.Commands.WhyUnread.{IsWhyUnreadReport, unread_in};

use cn_form::DocumentForm;
use cn_io::{AppFault, Report, with_line_feed};
use cn_json::unread_explanation_json;
use cn_markdown::unread_explanation_markdown;
use cn_table::Table;
use cn_text::unread_explanation_of;
use cn_unread_reasons::UnreadExplanation;
use std::alloc::{AllocError, Global};
use std::thread::Threads;

/// The text of an explanation of a number without reads in a form.
fn unread_text(
    alloc: Global,
    explanation: &UnreadExplanation,
    form: DocumentForm,
) -> Result<String, AllocError>
    requires { IsUnreadExplanation explanation.now }
    ensures { IfOk result (λ text. string_bytes text ≡ unread_in form explanation.now) }
{
    match form {
        DocumentForm::Text => unread_explanation_of(alloc, explanation),
        DocumentForm::Json => with_line_feed(unread_explanation_json(alloc, explanation)?),
        DocumentForm::Markdown => unread_explanation_markdown(alloc, explanation),
    }
}

/// Why the number of the table without reads is what it is, in a form: that of
/// [`unread_explanation_of`], of [`unread_explanation_json`] or of [`unread_explanation_markdown`].
/// Without `all`, it tells the first of the choices for one process more.
///
/// # Errors
///
/// `OutOfMemory`.
pub fn why_unread_report<T: Threads + Sync>(
    rt: &T,
    alloc: Global,
    table: Table,
    all: bool,
    form: DocumentForm,
) -> Result<Report, AppFault>
    // promise: why-without-read (IsWhyUnreadReport)
    ensures { IsWhyUnreadReport table all form result }
{
    let explanation = UnreadExplanation::new(rt, alloc, table, all)?;
    Ok(Report::whole(unread_text(alloc, &explanation, form)?))
}
