//! The commands of processes that crash and come back.
ghost use Rattle.std.specs.Prelude.{◌≡◌, ◌⊎◌};
ghost use Rattle.cn_io.specs.Arguments.Lives.{SpellLifeLists};
ghost use Rattle.cn_app.specs.Commands.Lives.{HasLivesReport};
ghost use Rattle.cn_app.specs.Commands.ShowRecoverable.{HasShowRecoverableReport};
ghost use Rattle.cn_io.specs.Streams.Reading.{HasRead, IsUnread};
ghost use Rattle.cn_io.specs.Streams.Writing.{IsWritable, Reports};

use crate::reports::{AskedLives, lives_report, show_recoverable_report};
use cn_form::AnswerForm;
use cn_io::readers::read_table;
use cn_io::{AppFault, ListText, Outcome, Output, Source, Text, read_life_lists};
use std::alloc::Global;
use std::io::{Read, Write};
use std::thread::Threads;

/// Reads a type table, and runs the plan of its first recording witness under a schedule of steps
/// and crashes ([`lives_report`]). Writes a line for each process: its decision, or that it has
/// none. With the steps, a line for each step and each crash comes first.
///
/// `inputs` are the numbers that the processes begin with, written as for
/// [`read_inputs`](crate::read_inputs). `schedule` has the processes in the order of their steps and
/// crashes, written as for [`read_life_schedule`](crate::read_life_schedule).
///
/// # Errors
///
/// The first of these: `inputs`, then `schedule`, is misspelled or has too many items, and the text
/// is not touched; those of [`read_table`]; those of [`lives_report`]; the writer fails. Want of
/// memory can stand in place of any answer.
pub fn agree_recoverably<T: Threads + Sync, R: Read, W: Write>(
    rt: &T,
    alloc: Global,
    table: &mut Text<R>,
    output: &mut Output<W>,
    inputs: &ListText<'_>,
    schedule: &ListText<'_>,
    asked: AskedLives,
) -> Result<Outcome, AppFault>
    requires table { IsUnread table.old }
    requires output { IsWritable output.old }

    ensures read { HasRead Source.Table R.remaining table.old table.new }
    // promise: order-of-checks
    ensures order { (table.new ≡ table.old) ⊎ SpellLifeLists inputs.now schedule.now }
    // promise: lives-by-agree (HasLivesReport: GivesLivesPlan, IsLived: run, written, lives_text,
    //     life_step_lines, life_course_data)
    ensures agreed { Reports W.contents
        (HasLivesReport table.new inputs.now schedule.now asked)
        output.old output.new result }
{
    let lists = read_life_lists(alloc, inputs, schedule)?;
    let table = read_table(alloc, table)?;
    output.report(lives_report(rt, alloc, &table, &lists.inputs, &lists.schedule, asked))
}

/// Reads a type table, and writes the plan of its first recording witness in a form
/// ([`show_recoverable_report`]).
///
/// # Errors
///
/// The first of these: those of [`read_table`]; those of [`show_recoverable_report`]; the writer
/// fails.
pub fn show_recoverable<T: Threads + Sync, R: Read, W: Write>(
    rt: &T,
    alloc: Global,
    table: &mut Text<R>,
    output: &mut Output<W>,
    processes: Option<u8>,
    form: AnswerForm,
) -> Result<Outcome, AppFault>
    requires table { IsUnread table.old }
    requires output { IsWritable output.old }

    ensures read { HasRead Source.Table R.remaining table.old table.new }
    // promise: recording-plan-by-show (HasShowRecoverableReport: GivesLivesPlan, recording_text)
    ensures shown { Reports W.contents
        (HasShowRecoverableReport table.new processes form) output.old output.new result }
{
    let table = read_table(alloc, table)?;
    output.report(show_recoverable_report(rt, alloc, &table, processes, form))
}
