//! The commands that read a type table, and take its shortest plan.
ghost use Rattle.std.specs.Prelude.{◌≡◌, ◌⊎◌};
ghost use Rattle.cn_app.specs.Commands.Agree.{SpellLists};
ghost use Rattle.cn_app.specs.Commands.AgreeShortest.{HasAgreeShortestReport};
ghost use Rattle.cn_app.specs.Commands.ShowShortest.{HasShowShortestReport};
ghost use Rattle.cn_io.specs.Streams.Reading.{HasRead, IsUnread};
ghost use Rattle.cn_io.specs.Streams.Writing.{IsWritable, Reports};

use crate::plan_style::PlanStyle;
use crate::reports::{AskedPlan, AskedRun, agree_shortest_report, show_shortest_report};
use cn_io::readers::read_table;
use cn_io::{AppFault, ListText, Outcome, Output, Source, Text, read_run_lists};
use std::alloc::Global;
use std::io::{Read, Write};

/// Reads a type table, and writes its shortest plan in a style ([`show_shortest_report`]).
///
/// # Errors
///
/// The first of these: those of [`read_table`]; those of [`show_shortest_report`]; the writer fails.
pub fn show_shortest<R: Read, W: Write>(
    alloc: Global,
    table: &mut Text<R>,
    output: &mut Output<W>,
    asked: AskedPlan,
    style: &PlanStyle,
) -> Result<Outcome, AppFault>
    requires table { IsUnread table.old }
    requires output { IsWritable output.old }

    ensures read { HasRead Source.Table R.remaining table.old table.new }
    // promise: shortest-plan-by-show (HasShowShortestReport: GivesShortestPlan: HasNoPlan,
    //     IsShortestPlan: count, least; tree_text)
    ensures shown { Reports W.contents
        (HasShowShortestReport table.new asked style.now)
        output.old output.new result }
{
    let table = read_table(alloc, table)?;
    output.report(show_shortest_report(alloc, &table, asked, style))
}

/// Reads a type table, and runs its shortest plan under a schedule ([`agree_shortest_report`]).
/// Writes a line for each process: its decision, or that it has none. With the steps, a line for each
/// step comes first.
///
/// `inputs` are the numbers that the processes begin with. `schedule` has the processes in the
/// order of their steps. Both are written as for [`read_inputs`](crate::read_inputs) and
/// [`read_schedule`](crate::read_schedule).
///
/// # Errors
///
/// The first of these: `inputs`, then `schedule`, is misspelled or has too many items, and the text
/// is not touched; those of [`read_table`]; those of [`agree_shortest_report`]; the writer fails.
/// Want of memory can stand in place of any answer.
pub fn agree_shortest<R: Read, W: Write>(
    alloc: Global,
    table: &mut Text<R>,
    output: &mut Output<W>,
    inputs: &ListText<'_>,
    schedule: &ListText<'_>,
    plan: AskedPlan,
    asked: AskedRun,
) -> Result<Outcome, AppFault>
    requires table { IsUnread table.old }
    requires output { IsWritable output.old }

    ensures read { HasRead Source.Table R.remaining table.old table.new }
    // promise: order-of-checks
    ensures order { (table.new ≡ table.old) ⊎ SpellLists inputs.now schedule.now }
    // promise: shortest-plan-by-agree (HasAgreeShortestReport: GivesShortestPlan, IsTreeAgreed: run,
    //     consensus, written, lines_of_tree_steps, tree_run_text, tree_run_data)
    ensures agreed { Reports W.contents
        (HasAgreeShortestReport table.new inputs.now schedule.now plan asked)
        output.old output.new result }
{
    let lists = read_run_lists(alloc, inputs, schedule)?;
    let table = read_table(alloc, table)?;
    output.report(agree_shortest_report(alloc, &table, plan, &lists.inputs, &lists.schedule, asked))
}
