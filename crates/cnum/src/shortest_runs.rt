//! The commands of the shortest plan: they open the files, and call the library.
ghost use Rattle.cn_io.specs.Streams.Reading.{IsUnread};
ghost use Rattle.cn_io.specs.Streams.Writing.{IsWritable};
ghost use Rattle.cnum.specs.ShortestRuns.{RunsShortest, ShowsShortest, WritesShortestPlan};
ghost use Rattle.cnum.specs.Texts.{left_in};

use crate::disk::Disk;
use crate::given_list::given_list;
use crate::lazy_file::file_text;
use crate::runs::{noting_table, text_of};
use crate::style::style_of;
use cn_app::reports::{AskedPlan, AskedRun};
use cn_app::{AppFault, Argument, Known, Outcome, Output, PlanStyle, Text, commands};
use cn_words::{ObjectWords, PlanWords, RunWords, TextSource};
use std::alloc::Global;
use std::io::{Read, Write};

// Writes the shortest plan of a table, with the object that the words name, if there are any.
fn write_shortest_plan<D: Disk, I: Read, O: Write>(
    disk: &D,
    alloc: Global,
    table: &mut Text<I>,
    output: &mut Output<O>,
    asked: AskedPlan,
    object: Option<ObjectWords<'_>>,
    style: &PlanStyle,
) -> Result<Outcome, AppFault>
    requires table { IsUnread table.old }
    requires output { IsWritable output.old }
    ensures { WritesShortestPlan I.remaining (left_in D.contents D.Reader.remaining) O.contents
        (D.contents disk.now) table.old asked object.entry style.now output.old output.new result }
{
    match object {
        None => commands::show_shortest(alloc, table, output, asked, style),
        Some(words) => {
            let mut object = file_text(disk, alloc, words.object);
            let (text, start) = (&mut object, words.start);
            commands::show_shortest_object(alloc, table, text, start, output, asked, style)
        }
    }
}

/// Reads the words for the style, and writes the shortest plan of the table. What the text of
/// the table says of its fault is noted.
pub fn show_shortest<D: Disk, S: Read + Copy + Drop, O: Write>(
    disk: &D,
    alloc: Global,
    stdin: S,
    output: &mut Output<O>,
    table: TextSource<'_>,
    asked: AskedPlan,
    words: PlanWords<'_>,
    known: &mut Known<'_>,
) -> Result<Outcome, AppFault>
    requires { IsWritable output.old }
    // promise: shortest-plan-of-the-program (ShowsShortest: ReadsStyle, WritesShortestPlan)
    ensures { ShowsShortest S.remaining (left_in D.contents D.Reader.remaining) O.contents
        (D.contents disk.now) stdin table.entry asked words.entry output.old output.new result }
{
    let style = style_of(alloc, words.style)?;
    let mut table = text_of(disk, alloc, stdin, table);
    let (text, object) = (&mut table, words.object);
    let end = write_shortest_plan(disk, alloc, text, output, asked, object, &style);
    noting_table(alloc, known, &table, end)
}

/// Reads the lists, and runs the shortest plan of the table by them. What the text of the table says
/// of its fault is noted.
pub fn run_shortest<D: Disk, S: Read + Copy + Drop, O: Write>(
    disk: &D,
    alloc: Global,
    stdin: S,
    output: &mut Output<O>,
    table: TextSource<'_>,
    without_read: bool,
    words: RunWords<'_>,
    known: &mut Known<'_>,
) -> Result<Outcome, AppFault>
    requires { IsWritable output.old }
    // promise: shortest-plan-of-the-program (RunsShortest: ReadsList, RunsShortestPlan)
    ensures { RunsShortest S.remaining (left_in D.contents D.Reader.remaining) O.contents
        (D.contents disk.now) stdin table.entry without_read words.entry output.old output.new result }
{
    let inputs = given_list(disk, alloc, words.inputs, Argument::Inputs)?;
    let schedule = given_list(disk, alloc, words.schedule, Argument::Schedule)?;
    let mut table = text_of(disk, alloc, stdin, table);
    let plan = AskedPlan {
        processes: words.processes,
        without_read,
    };
    let asked = AskedRun {
        steps: words.steps,
        form: words.form,
    };
    let text = &mut table;
    let end = commands::agree_shortest(alloc, text, output, &inputs, &schedule, plan, asked);
    noting_table(alloc, known, text, end)
}
