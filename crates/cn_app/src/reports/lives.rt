//! The report of `agree --recoverable`.
ghost use Rattle.std.specs.Prelude.{◌≡◌, ◌++◌, IfOk, codes, false, string_bytes, true};
ghost use Rattle.serde_json.specs.Written.{compact_text};
ghost use Rattle.cn_lives.specs.Courses.{AreOfTable};
ghost use Rattle.cn_plan_text.specs.Lives.{life_step_lines};
ghost use Rattle.cn_plan_text.specs.Decisions.{decision_lines};
ghost use Rattle.cn_json.specs.Lives.{life_course_data};
ghost use Rattle.cn_io.specs.Arguments.Lives.{CanBe};
ghost use Rattle.cn_app.specs.Commands.Lives.{GivesCount, GivesLivesPlan, IsLivesReport};
ghost use Rattle.cn_app.specs.Commands.Lives.{IsLivesRunReport};
ghost use Rattle.cn_app.specs.Forms.{if_json};

use crate::reports::agree::decision_text;
use cn_form::AnswerForm;
use cn_io::{AppFault, Report, check_processes, with_line_feed};
use cn_json::life_course_json;
use cn_lives::{Event, LifeCourse, RecordingPlan, first_plan, run_life_steps, run_lives};
use cn_plan_text::{decision_lines, life_step_lines};
use cn_recover::recoverable_number;
use cn_search::GREATEST_LIMIT;
use cn_table::Table;
use std::alloc::{AllocError, Global};
use std::thread::Threads;

/// Which plan is run, and what is told of the run.
#[derive(Clone, Copy)]
pub struct AskedLives {
    /// How many processes there are, if a number was given.
    pub processes: Option<u8>,
    /// Whether each step and each crash is told.
    pub steps: bool,
    /// The form of the answer.
    pub form: AnswerForm,
}

/// For how many processes the plan is: as many as given, or else the recoverable number.
fn process_count<T: Threads + Sync>(
    rt: &T,
    alloc: Global,
    table: &Table,
    given: Option<u8>,
) -> Result<u8, AppFault>
    ensures { GivesCount table.now given result }
{
    check_processes(given)?;
    if let Some(n) = given {
        return Ok(n);
    }
    match recoverable_number(rt, alloc, table, GREATEST_LIMIT) {
        Ok(Some(n)) => Ok(n),
        Ok(None) => Err(AppFault::NoRecordingWitness),
        Err(_) => Err(AppFault::OutOfMemory),
    }
}

/// The plan of the first recording witness for so many processes.
pub(crate) fn lives_plan<T: Threads + Sync>(
    rt: &T,
    alloc: Global,
    table: &Table,
    given: Option<u8>,
) -> Result<RecordingPlan, AppFault>
    ensures { GivesLivesPlan table.now given result }
{
    let processes = process_count(rt, alloc, table, given)?;
    match first_plan(rt, alloc, table, processes)? {
        Some(plan) => Ok(plan),
        None => Err(AppFault::NoRecordingWitness),
    }
}

/// The text of steps and crashes, and of the decisions behind them.
fn life_course_text(
    alloc: Global,
    table: &Table,
    course: &LifeCourse,
    form: AnswerForm,
) -> Result<String, AllocError>
    requires { AreOfTable table.now course.now.records }
    ensures { IfOk result (λ text. string_bytes text ≡ if_json form
        (compact_text (life_course_data table.now course.now) ++ codes "\n")
        (life_step_lines table.now course.now.records
        ++ decision_lines 0 course.now.decisions)) }
{
    match form {
        AnswerForm::Text => {
            let mut lines = life_step_lines(alloc, table, &course.records)?;
            lines.push_str(&decision_lines(alloc, &course.decisions)?)?;
            Ok(lines)
        }
        AnswerForm::Json => with_line_feed(life_course_json(alloc, table, course)?),
    }
}

/// Runs a plan under a schedule of steps and crashes: the decision of each process.
fn lives_run_report(
    alloc: Global,
    plan: &RecordingPlan,
    inputs: &[u64],
    schedule: &[Event],
    form: AnswerForm,
) -> Result<Report, AppFault>
    ensures { IsLivesRunReport plan.now inputs.now schedule.now false form result }
{
    let run = run_lives(alloc, plan, inputs, schedule)?;
    Ok(Report::whole(decision_text(alloc, &run.decisions, form)?))
}

/// Each step and crash of the schedule, and then the decisions.
fn life_steps_report(
    alloc: Global,
    plan: &RecordingPlan,
    inputs: &[u64],
    schedule: &[Event],
    form: AnswerForm,
) -> Result<Report, AppFault>
    ensures { IsLivesRunReport plan.now inputs.now schedule.now true form result }
{
    let run = run_life_steps(alloc, plan, inputs, schedule)?;
    let text = life_course_text(alloc, plan.plan().table(), &run, form)?;
    Ok(Report::whole(text))
}

/// Runs the plan of the table's first recording witness under a schedule of steps and crashes. The
/// plan is for as many processes as asked for, or for as many as the recoverable number up to
/// [`GREATEST_LIMIT`](cn_search::GREATEST_LIMIT) says.
///
/// The report has a line for each process: its decision, or that it has none. With the steps, a
/// line for each step and each crash comes first. As JSON it is one value with the decisions
/// ([`decisions_json`](cn_json::decisions_json)), or with these and the steps
/// ([`life_course_json`]).
///
/// Under every schedule, all decisions that are ever made are equal, and each is the input of a
/// process that has taken a step, or of the one that has decided. A process that takes 6(n-1) steps
/// without a crash of its own has decided, for n processes.
///
/// # Errors
///
/// The first of these: `Argument(Processes)` for a number of processes outside 2 to
/// [`MOST_PROCESSES`](cn_choice::MOST_PROCESSES); `NoRecordingWitness` if the type is not
/// n-recording for this number, or for no n; the inputs are not as many as the processes, or the
/// schedule names an unknown process. Want of memory can stand in place of any answer but the
/// first.
pub fn lives_report<T: Threads + Sync>(
    rt: &T,
    alloc: Global,
    table: &Table,
    inputs: &[u64],
    schedule: &[Event],
    asked: AskedLives,
) -> Result<Report, AppFault>
    ensures { IsLivesReport table.now inputs.now schedule.now asked result }
{
    let plan = lives_plan(rt, alloc, table, asked.processes)?;
    if asked.steps {
        life_steps_report(alloc, &plan, inputs, schedule, asked.form)
    } else {
        lives_run_report(alloc, &plan, inputs, schedule, asked.form)
    }
}
