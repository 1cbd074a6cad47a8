//! The commands of processes that crash and come back: they open the files, and call the library.
ghost use Rattle.cn_io.specs.Streams.Writing.{IsWritable};
ghost use Rattle.cnum.specs.LivesRuns.{RunsLives, ShowsRecoverable};
ghost use Rattle.cnum.specs.Texts.{left_in};

use crate::disk::Disk;
use crate::given_list::given_list;
use crate::runs::{noting_table, text_of};
use cn_app::reports::AskedLives;
use cn_app::{AppFault, Argument, Known, Outcome, Output, commands};
use cn_form::AnswerForm;
use cn_words::{RunWords, TextSource};
use std::alloc::Global;
use std::io::{Read, Write};
use std::thread::Threads;

/// Writes the plan of the table's first recording witness. What the text of the table says of its
/// fault is noted.
pub fn show_recoverable<T: Threads + Sync + Disk, S: Read + Copy + Drop, O: Write>(
    rt: &T,
    alloc: Global,
    stdin: S,
    output: &mut Output<O>,
    table: TextSource<'_>,
    processes: Option<u8>,
    form: AnswerForm,
    known: &mut Known<'_>,
) -> Result<Outcome, AppFault>
    requires { IsWritable output.old }
    // promise: recording-plan-of-the-program (ShowsRecoverable)
    ensures { ShowsRecoverable S.remaining (left_in T.contents T.Reader.remaining) O.contents
        (T.contents rt.now) stdin table.entry processes form output.old output.new result }
{
    let mut table = text_of(rt, alloc, stdin, table);
    let end = commands::show_recoverable(rt, alloc, &mut table, output, processes, form);
    noting_table(alloc, known, &table, end)
}

/// Reads the lists, and runs the plan of the table's first recording witness by them. What the text
/// of the table says of its fault is noted.
pub fn run_lives<T: Threads + Sync + Disk, S: Read + Copy + Drop, O: Write>(
    rt: &T,
    alloc: Global,
    stdin: S,
    output: &mut Output<O>,
    table: TextSource<'_>,
    words: RunWords<'_>,
    known: &mut Known<'_>,
) -> Result<Outcome, AppFault>
    requires { IsWritable output.old }
    // promise: lives-of-the-program (RunsLives: ReadsList, RunsPlan, asked_by)
    ensures { RunsLives S.remaining (left_in T.contents T.Reader.remaining) O.contents
        (T.contents rt.now) stdin table.entry words.entry output.old output.new result }
{
    let inputs = given_list(rt, alloc, words.inputs, Argument::Inputs)?;
    let schedule = given_list(rt, alloc, words.schedule, Argument::Schedule)?;
    let mut table = text_of(rt, alloc, stdin, table);
    let asked = AskedLives {
        processes: words.processes,
        steps: words.steps,
        form: words.form,
    };
    let text = &mut table;
    let end = commands::agree_recoverably(rt, alloc, text, output, &inputs, &schedule, asked);
    noting_table(alloc, known, text, end)
}
