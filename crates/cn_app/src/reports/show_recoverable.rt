//! The report of `show --recoverable`.
ghost use Rattle.std.specs.Prelude.{◌≡◌, IfOk, string_bytes};
ghost use Rattle.cn_app.specs.Commands.ShowRecoverable.{IsRecordingReport, IsShowRecoverableReport, recording_text};

use crate::reports::lives::lives_plan;
use cn_form::AnswerForm;
use cn_io::{AppFault, Report, with_line_feed};
use cn_json::recording_plan_json;
use cn_lives::RecordingPlan;
use cn_plan_text::recording_plan_lines;
use cn_table::Table;
use std::alloc::{AllocError, Global};
use std::thread::Threads;

/// The text of the plan of a recording witness in a form; its last byte is a line feed. Both forms
/// write the same plan: [`recording_plan_lines`] or [`recording_plan_json`].
///
/// # Errors
///
/// `AllocError` if memory runs out.
pub fn recording_plan_as(
    alloc: Global,
    plan: &RecordingPlan,
    form: AnswerForm,
) -> Result<String, AllocError>
    // promise: forms-of-a-recording-plan (recording_text: recording_plan_text, recording_plan_data)
    ensures { IfOk result (λ text. string_bytes text ≡ recording_text form plan.now) }
{
    match form {
        AnswerForm::Text => recording_plan_lines(alloc, plan),
        AnswerForm::Json => with_line_feed(recording_plan_json(alloc, plan)?),
    }
}

/// Writes the plan of a recording witness in a form.
fn recording_report(
    alloc: Global,
    plan: &RecordingPlan,
    form: AnswerForm,
) -> Result<Report, AppFault>
    ensures { IsRecordingReport plan.now form result }
{
    Ok(Report::whole(recording_plan_as(alloc, plan, form)?))
}

/// The plan of the table's first recording witness in a form: the plan that
/// [`lives_report`](crate::reports::lives_report) runs. It is for as many processes as asked for, or
/// for as many as the recoverable number up to [`GREATEST_LIMIT`](cn_search::GREATEST_LIMIT) says.
///
/// # Errors
///
/// The first of these: `Argument(Processes)` for a number of processes outside 2 to
/// [`MOST_PROCESSES`](cn_choice::MOST_PROCESSES); `NoRecordingWitness` if the type is not
/// n-recording for this number, or for no n. Want of memory can stand in place of any answer but the
/// first.
pub fn show_recoverable_report<T: Threads + Sync>(
    rt: &T,
    alloc: Global,
    table: &Table,
    processes: Option<u8>,
    form: AnswerForm,
) -> Result<Report, AppFault>
    ensures { IsShowRecoverableReport table.now processes form result }
{
    let plan = lives_plan(rt, alloc, table, processes)?;
    recording_report(alloc, &plan, form)
}
