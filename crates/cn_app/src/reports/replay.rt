//! The report of `replay`.
ghost use Rattle.std.specs.Prelude.{◌≡◌, IfOk, map, string_bytes};
ghost use Rattle.cn_plan_text.specs.Log.{HaveResponses};
ghost use Rattle.cn_log.specs.Linearized.{IsLinearized};
ghost use Rattle.cn_log.specs.Log.{IsEventList};
ghost use Rattle.cn_log.specs.Opening.{setting_of};
ghost use Rattle.cn_app.specs.Answers.{answer_of, answers_told, has_full, is_full};
ghost use Rattle.cn_app.specs.Commands.Replay.{IsReplayReport, log_lines, log_object, log_text};

use crate::answers::{ReplayHistory, answers_of};
use cn_form::AnswerForm;
use cn_io::{AppFault, Outcome, Report, with_line_feed};
use cn_json::{AnswerOf, log_json};
use cn_log::{CallEnd, Event, Opening};
use cn_plan_text::{answer_lines, entry_lines};
use std::alloc::{AllocError, Global};

/// Whether the call found no slot.
fn is_full(end: CallEnd) -> bool
    ensures { result ≡ is_full end }
{
    matches!(end, CallEnd::Full)
}

/// Whether some call found no slot.
fn has_full(ends: &[(u8, CallEnd)]) -> bool
    ensures { result ≡ has_full ends.now }
{
    ends.iter().any(|end| is_full(end.1))
}

/// A call that ended, as JSON tells it.
fn answer_of(process: u8, end: CallEnd) -> AnswerOf
    ensures { result ≡ answer_of (process, end) }
{
    let end = Some(end);
    AnswerOf { process, end }
}

/// The calls that ended, as JSON tells them.
fn answers_told(alloc: Global, ends: &[(u8, CallEnd)]) -> Result<Vec<AnswerOf>, AllocError>
    ensures { IfOk result (λ answers. answers.items ≡ answers_told ends.now) }
{
    let mut answers = Vec::with_capacity(alloc, ends.len())?;
    for end in ends {
        answers.push(answer_of(end.0, end.1))?;
    }
    Ok(answers)
}

/// The lines of what the events left: the answers, and then the entries.
fn log_lines(alloc: Global, replayed: &ReplayHistory) -> Result<String, AllocError>
    requires events { IsEventList (setting_of replayed.now.core.opening)
        replayed.now.core.schedule }
    requires linearized { IsLinearized (setting_of replayed.now.core.opening)
        replayed.now.core.schedule }
    requires responses { HaveResponses replayed.now.core.opening.object replayed.now.ends.items }
    ensures { IfOk result (λ lines. string_bytes lines ≡ log_lines replayed.now.core.opening
        replayed.now.core.schedule replayed.now.ends.items) }
{
    let opening = replayed.core.opening();
    let mut lines = answer_lines(alloc, opening.object(), &replayed.ends)?;
    let entries = entry_lines(alloc, opening.object(), opening.start(), &replayed.core)?;
    lines.push_str(&entries)?;
    Ok(lines)
}

/// The same as one JSON object.
fn log_object(alloc: Global, replayed: &ReplayHistory) -> Result<String, AllocError>
    requires events { IsEventList (setting_of replayed.now.core.opening)
        replayed.now.core.schedule }
    requires linearized { IsLinearized (setting_of replayed.now.core.opening)
        replayed.now.core.schedule }
    requires responses { HaveResponses replayed.now.core.opening.object replayed.now.ends.items }
    ensures { IfOk result (λ text. string_bytes text ≡ log_object replayed.now.core.opening
        replayed.now.core.schedule replayed.now.ends.items) }
{
    let opening = replayed.core.opening();
    let answers = answers_told(alloc, &replayed.ends)?;
    let json = log_json(
        alloc,
        opening.object(),
        opening.start(),
        &replayed.core,
        &answers,
    )?;
    with_line_feed(json)
}

/// The text of what the events left, in a form.
fn log_text(alloc: Global, replayed: &ReplayHistory, form: AnswerForm) -> Result<String, AllocError>
    requires events { IsEventList (setting_of replayed.now.core.opening)
        replayed.now.core.schedule }
    requires linearized { IsLinearized (setting_of replayed.now.core.opening)
        replayed.now.core.schedule }
    requires responses { HaveResponses replayed.now.core.opening.object replayed.now.ends.items }
    ensures { IfOk result (λ text. string_bytes text ≡ log_text form replayed.now.core.opening
        replayed.now.core.schedule replayed.now.ends.items) }
{
    match form {
        AnswerForm::Text => log_lines(alloc, replayed),
        AnswerForm::Json => log_object(alloc, replayed),
    }
}

/// Runs the events on a log of this opening. The report has a line for each call that is answered
/// or finds no slot, in the order of the events, and then a line for each entry of the log. As JSON
/// it has both as one object ([`log_json`]).
///
/// For all events, the answers are those of one sequential run of the calls, in log order. `Cut`
/// tells that some call found no slot.
///
/// # Errors
///
/// An event cannot come. Want of memory can stand in place of any answer.
pub fn replay_report(
    alloc: Global,
    opening: Opening,
    events: &[Event],
    form: AnswerForm,
) -> Result<Report, AppFault>
    ensures { IsReplayReport form opening events.now result }
{
    let replayed = answers_of(alloc, opening, events)?;
    let text = log_text(alloc, &replayed, form)?;
    let outcome = Outcome::cut_if(has_full(&replayed.ends));
    Ok(Report { text, outcome })
}
