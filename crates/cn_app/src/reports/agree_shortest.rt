//! The report of `agree` on a shortest plan.
ghost use Rattle.std.specs.Prelude.{◌≡◌, ◌++◌, IfOk, codes, false, string_bytes, true};
ghost use Rattle.serde_json.specs.Written.{compact_text};
ghost use Rattle.cn_plan_text.specs.Decisions.{decision_lines};
ghost use Rattle.cn_tree_rounds.specs.Actions.{AreOfTable};
ghost use Rattle.cn_tree_text.specs.Steps.{step_lines};
ghost use Rattle.cn_json.specs.TreeCourses.{tree_course_data};
ghost use Rattle.cn_app.specs.Commands.AgreeShortest.{IsAgreeShortestReport, IsTreeRunReport};
ghost use Rattle.cn_app.specs.Forms.{if_json};

use crate::reports::agree::{AskedRun, decision_text};
use crate::reports::shortest::{AskedPlan, plan_for};
use cn_form::AnswerForm;
use cn_io::{AppFault, Report, with_line_feed};
use cn_json::tree_course_json;
use cn_plan_text::decision_lines;
use cn_table::Table;
use cn_tree_plans::TreePlan;
use cn_tree_rounds::{Course, run_schedule, run_steps};
use cn_tree_text::step_lines;
use std::alloc::{AllocError, Global};

/// The text of steps along a plan tree, and of the decisions behind them.
fn tree_course_text(
    alloc: Global,
    table: &Table,
    course: &Course,
    form: AnswerForm,
) -> Result<String, AllocError>
    requires { AreOfTable table.now course.now.records }
    ensures { IfOk result (λ text. string_bytes text ≡ if_json form
        (compact_text (tree_course_data table.now course.now) ++ codes "\n")
        (step_lines table.now course.now.records ++ decision_lines 0 course.now.decisions)) }
{
    match form {
        AnswerForm::Text => {
            let mut lines = step_lines(alloc, table, &course.records)?;
            lines.push_str(&decision_lines(alloc, &course.decisions)?)?;
            Ok(lines)
        }
        AnswerForm::Json => with_line_feed(tree_course_json(alloc, table, course)?),
    }
}

/// Runs a plan tree under a schedule: the decision of each process.
fn tree_run_report(
    alloc: Global,
    plan: &TreePlan,
    inputs: &[u64],
    schedule: &[u8],
    form: AnswerForm,
) -> Result<Report, AppFault>
    ensures { IsTreeRunReport plan.now inputs.now schedule.now
        (record { steps = false; form = form }) result }
{
    let run = run_schedule(alloc, plan, inputs, schedule)?;
    Ok(Report::whole(decision_text(alloc, &run.decisions, form)?))
}

/// Each step of the schedule, and then the decisions.
fn tree_steps_report(
    alloc: Global,
    plan: &TreePlan,
    inputs: &[u64],
    schedule: &[u8],
    form: AnswerForm,
) -> Result<Report, AppFault>
    ensures { IsTreeRunReport plan.now inputs.now schedule.now
        (record { steps = true; form = form }) result }
{
    let run = run_steps(alloc, plan, inputs, schedule)?;
    let text = tree_course_text(alloc, plan.table(), &run, form)?;
    Ok(Report::whole(text))
}

/// Runs the shortest plan of the table under a schedule, for as many processes as asked for, or for
/// the most for which there is a plan tree; of all such plans, or of those whose processes do not
/// read. The report has a line for each process: its decision, or that it has none. With the steps, a
/// line for each step comes first. As JSON it is one value with the decisions ([`decisions_json`](cn_json::decisions_json)), or with these and the steps
/// ([`tree_course_json`]).
///
/// Under every schedule, all processes that decide choose the same value: the input of a process in
/// the schedule. A process decides exactly if the schedule names it as often as it has steps: three
/// at each node of its path, or four where it reads.
///
/// # Errors
///
/// The first of these: `Argument(Processes)` for a number of processes outside 2 to
/// [`MOST_PROCESSES`](cn_choice::MOST_PROCESSES); `NoPlanTree` if there is no plan tree for this
/// number, or for none; the inputs are not as many as the processes, or the schedule names an unknown
/// process. Want of memory can stand in place of any answer but the first.
pub fn agree_shortest_report(
    alloc: Global,
    table: &Table,
    plan: AskedPlan,
    inputs: &[u64],
    schedule: &[u8],
    asked: AskedRun,
) -> Result<Report, AppFault>
    ensures { IsAgreeShortestReport table.now plan inputs.now schedule.now asked result }
{
    let plan = plan_for(alloc, table, plan)?;
    if asked.steps {
        tree_steps_report(alloc, &plan, inputs, schedule, asked.form)
    } else {
        tree_run_report(alloc, &plan, inputs, schedule, asked.form)
    }
}
