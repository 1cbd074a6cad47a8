//! The report of `agree`.
ghost use Rattle.std.specs.Prelude.{◌≡◌, ◌++◌, IfOk, codes, false, string_bytes, true};
ghost use Rattle.serde_json.specs.Written.{compact_text};
ghost use Rattle.cn_agree.specs.Actions.{AreOfTable};
ghost use Rattle.cn_plan_text.specs.Decisions.{decision_lines};
ghost use Rattle.cn_plan_text.specs.Steps.{step_lines};
ghost use Rattle.cn_json.specs.Course.{course_data, decisions_data};
ghost use Rattle.cn_app.specs.Commands.Agree.{IsAgreeReport, IsRunReport};
ghost use Rattle.cn_app.specs.Forms.{if_json};
ghost use Rattle.cn_io.specs.Texts.Checked.{IsChecked};

use cn_agree::{Course, run_schedule, run_steps};
use cn_form::AnswerForm;
use cn_io::readers::Checked;
use cn_io::{AppFault, Report, with_line_feed};
use cn_json::{course_json, decisions_json};
use cn_plan_text::{decision_lines, step_lines};
use cn_proto::Plan;
use cn_table::Table;
use std::alloc::{AllocError, Global};

/// What is told of a run.
#[derive(Clone, Copy)]
pub struct AskedRun {
    /// Whether each step is told.
    pub steps: bool,
    /// The form of the answer.
    pub form: AnswerForm,
}

/// The text of decisions.
pub(crate) fn decision_text(
    alloc: Global,
    decisions: &[Option<u64>],
    form: AnswerForm,
) -> Result<String, AllocError>
    ensures { IfOk result (λ text. string_bytes text ≡ if_json form
        (compact_text (decisions_data decisions.now) ++ codes "\n")
        (decision_lines 0 decisions.now)) }
{
    match form {
        AnswerForm::Text => decision_lines(alloc, decisions),
        AnswerForm::Json => with_line_feed(decisions_json(alloc, decisions)?),
    }
}

/// The text of steps and of the decisions behind them.
fn course_text(
    alloc: Global,
    table: &Table,
    course: &Course,
    form: AnswerForm,
) -> Result<String, AllocError>
    requires { AreOfTable table.now course.now.records }
    ensures { IfOk result (λ text. string_bytes text ≡ if_json form
        (compact_text (course_data table.now course.now) ++ codes "\n")
        (step_lines table.now course.now.records ++ decision_lines 0 course.now.decisions)) }
{
    match form {
        AnswerForm::Text => {
            let mut lines = step_lines(alloc, table, &course.records)?;
            lines.push_str(&decision_lines(alloc, &course.decisions)?)?;
            Ok(lines)
        }
        AnswerForm::Json => with_line_feed(course_json(alloc, table, course)?),
    }
}

/// Runs a plan under a schedule: the decision of each process.
fn run_report(
    alloc: Global,
    plan: &Plan,
    inputs: &[u64],
    schedule: &[u8],
    form: AnswerForm,
) -> Result<Report, AppFault>
    ensures { IsRunReport plan.now inputs.now schedule.now
        (record { steps = false; form = form }) result }
{
    let run = run_schedule(alloc, plan, inputs, schedule)?;
    Ok(Report::whole(decision_text(alloc, &run.decisions, form)?))
}

/// Each step of the schedule, and then the decisions.
fn steps_report(
    alloc: Global,
    plan: &Plan,
    inputs: &[u64],
    schedule: &[u8],
    form: AnswerForm,
) -> Result<Report, AppFault>
    ensures { IsRunReport plan.now inputs.now schedule.now
        (record { steps = true; form = form }) result }
{
    let run = run_steps(alloc, plan, inputs, schedule)?;
    Ok(Report::whole(course_text(alloc, plan.table(), &run, form)?))
}

/// Runs the plan of the certificate's witness under a schedule. The report has a line for each
/// process: its decision, or that it has none. With the steps, a line for each step comes first.
/// As JSON it is one value with the decisions ([`decisions_json`]), or with these and the steps
/// ([`course_json`]).
///
/// Under every schedule, all processes that decide choose the same value: the input of a process in
/// the schedule. A process decides exactly if the schedule names it at least four times for each
/// place of its path.
///
/// # Errors
///
/// The first of these: those of [`Checked::plan`]; the inputs are not as many as the processes, or
/// the schedule names an unknown process. Want of memory can stand in place of any answer.
pub fn agree_report(
    alloc: Global,
    checked: &Checked,
    inputs: &[u64],
    schedule: &[u8],
    asked: AskedRun,
) -> Result<Report, AppFault>
    requires { IsChecked checked.now }
    ensures { IsAgreeReport checked.now inputs.now schedule.now asked result }
{
    let plan = checked.plan(alloc)?;
    if asked.steps {
        steps_report(alloc, &plan, inputs, schedule, asked.form)
    } else {
        run_report(alloc, &plan, inputs, schedule, asked.form)
    }
}
