//! What the program does with a command: it opens the files, and calls the library.
ghost use Rattle.std.specs.Prelude.{◌≡◌, IfOk, None, Some};
ghost use Rattle.cnum.specs.NamedTables.{AreNamed, ClassifiesSources, bytes_of, name_of};
ghost use Rattle.cnum.specs.Runs.{HasArguments, Runs, RunsAgree, RunsOn, RunsReplay};
ghost use Rattle.cnum.specs.Runs.{RunsServe, RunsShow, WritesPlan, asked_changes, asked_kind, certificate_of};
ghost use Rattle.cnum.specs.Texts.{IsTextFrom, IsTextOf, left_in, left_of};
ghost use Rattle.cn_io.specs.Streams.Reading.{IsUnread};
ghost use Rattle.cn_io.specs.Streams.Writing.{IsWritable};

use crate::disk::Disk;
use crate::given_list::given_list;
use crate::lazy_file::{LazyFile, file_text};
use crate::style::style_of;
use crate::text_reader::TextReader;
use cn_app::commands::{self, NamedTable, Tell};
use cn_app::readers::OpeningArguments;
use cn_app::reports::{AskedChanges, AskedNumbers, AskedRun, NumberKind, Progress};
use cn_app::{AppFault, Argument, Known, Outcome, Output, PlanStyle, Text};
use cn_form::{AnswerForm, DocumentForm};
use cn_hall::AlwaysOn;
use cn_words::{Command, ObjectWords, OpeningWords, PlanWords, TextSource};
use std::alloc::{AllocError, Global};
use std::io::{Read, Write};
use std::sync::Wait;
use std::thread::Threads;

// The text of this source, of which nothing was read.
pub(crate) fn text_of<'a, D: Disk, S: Read + Copy>(
    disk: &'a D,
    alloc: Global,
    stdin: S,
    source: TextSource<'a>,
) -> Text<TextReader<'a, S, D>>
    ensures { IsTextFrom (left_in D.contents D.Reader.remaining) (D.contents disk.now)
        stdin source.entry result }
{
    match source {
        TextSource::StandardInput => Text::new(alloc, TextReader::Standard(stdin)),
        TextSource::File(path) => Text::new(alloc, TextReader::File(LazyFile::new(disk, path))),
    }
}

// The table of this source, of which nothing was read; a minus sign is the name of standard input.
fn named_table<'a, D: Disk, S: Read + Copy>(
    disk: &'a D,
    alloc: Global,
    stdin: S,
    source: TextSource<'a>,
) -> NamedTable<'a, TextReader<'a, S, D>>
    ensures name { result.name.now ≡ name_of source.entry }
    ensures text { IsTextOf (left_of S.remaining (left_in D.contents D.Reader.remaining))
        (bytes_of (S.remaining stdin) (D.contents disk.now) source.entry) result.text }
{
    let name = match source {
        TextSource::StandardInput => "-",
        TextSource::File(path) => path,
    };
    NamedTable {
        name,
        text: text_of(disk, alloc, stdin, source),
        line: None,
    }
}

// The tables of these sources, in order.
fn named_tables<'a, D: Disk, S: Read + Copy>(
    disk: &'a D,
    alloc: Global,
    stdin: S,
    sources: &[TextSource<'a>],
) -> Result<Vec<NamedTable<'a, TextReader<'a, S, D>>>, AllocError>
    ensures { IfOk result (λ tables. AreNamed
        (left_of S.remaining (left_in D.contents D.Reader.remaining))
        (bytes_of (S.remaining stdin) (D.contents disk.now)) sources.now tables.items) }
{
    let mut tables = Vec::with_capacity(alloc, sources.len())?;
    for source in sources {
        tables.push(named_table(disk, alloc, stdin, *source))?;
    }
    Ok(tables)
}

/// Classifies the tables that are named, and answers the first fault, which is told as each is.
pub fn classify<T: Threads + Sync + Disk, S: Read + Copy, O: Write, F: Tell>(
    rt: &T,
    alloc: Global,
    stdin: S,
    output: &mut Output<O>,
    faults: &mut F,
    asked: AskedNumbers,
    sources: &[TextSource<'_>],
) -> Result<Option<AppFault>, AppFault>
    requires { IsWritable output.old }
    // promise: command-of-the-program (ClassifiesSources: AreNamed)
    ensures { ClassifiesSources (left_of S.remaining (left_in T.contents T.Reader.remaining))
        O.contents F.tells F.notes (bytes_of (S.remaining stdin) (T.contents rt.now)) sources.now asked
        output.old faults.old output.new faults.new result }
{
    let mut tables = named_tables(rt, alloc, stdin, sources)?;
    let tables = tables.as_mut_slice();
    Ok(commands::classify_each(rt, alloc, tables, output, faults, asked))
}

// The arguments of a command that opens a log, of which nothing was read.
fn opening<'a, D: Disk, I: Read, C: Read>(
    disk: &'a D,
    alloc: Global,
    table: Text<I>,
    certificate: Text<C>,
    words: OpeningWords<'a>,
) -> OpeningArguments<'a, I, C, LazyFile<'a, D>>
    ensures { HasArguments (left_in D.contents D.Reader.remaining) (D.contents disk.now)
        table certificate words.entry result }
{
    OpeningArguments {
        table,
        certificate,
        object: file_text(disk, alloc, words.object),
        start: words.start,
        capacity: words.capacity,
    }
}

// The end of a command. What the text of the table says of its fault is noted.
pub(crate) fn noting_table<I>(
    alloc: Global,
    known: &mut Known<'_>,
    table: &Text<I>,
    end: Result<Outcome, AppFault>,
) -> Result<Outcome, AppFault>
    ensures { result ≡ end }
{
    match end {
        Ok(Outcome::Refused(fault)) | Err(fault) => {
            known.note_table(alloc, fault, &table.bytes);
        }
        Ok(Outcome::Whole | Outcome::Cut) => {}
    }
    end
}

// The same of a command by a certificate, with what the text of the certificate says.
fn noting_both<I, C>(
    alloc: Global,
    known: &mut Known<'_>,
    table: &Text<I>,
    certificate: &Text<C>,
    end: Result<Outcome, AppFault>,
) -> Result<Outcome, AppFault>
    ensures { result ≡ end }
{
    if let Err(fault) = end {
        known.note_certificate(alloc, fault, &certificate.bytes);
    }
    noting_table(alloc, known, table, end)
}

// Writes the plan of a certificate's witness, with the object that the words name, if there are any.
fn write_plan<D: Disk, I: Read, C: Read, O: Write>(
    disk: &D,
    alloc: Global,
    table: &mut Text<I>,
    certificate: &mut Text<C>,
    output: &mut Output<O>,
    object: Option<ObjectWords<'_>>,
    style: &PlanStyle,
) -> Result<Outcome, AppFault>
    requires texts { IsUnread table.old × IsUnread certificate.old }
    requires output { IsWritable output.old }
    ensures { WritesPlan I.remaining C.remaining (left_in D.contents D.Reader.remaining) O.contents
        (D.contents disk.now) table.old certificate.old object.entry style.now output.old output.new
        result }
{
    match object {
        None => commands::show(alloc, table, certificate, output, style),
        Some(words) => {
            let mut object = file_text(disk, alloc, words.object);
            let (text, start) = (&mut object, words.start);
            commands::show_object(alloc, table, certificate, text, start, output, style)
        }
    }
}

// Reads the words for the style, and writes the plan of a certificate's witness.
fn show<D: Disk, I: Read, C: Read, O: Write>(
    disk: &D,
    alloc: Global,
    table: &mut Text<I>,
    certificate: &mut Text<C>,
    output: &mut Output<O>,
    words: PlanWords<'_>,
    known: &mut Known<'_>,
) -> Result<Outcome, AppFault>
    requires texts { IsUnread table.old × IsUnread certificate.old }
    requires output { IsWritable output.old }
    ensures { RunsShow I.remaining C.remaining (left_in D.contents D.Reader.remaining) O.contents
        (D.contents disk.now) table.old certificate.old words.entry output.old output.new result }
{
    let style = style_of(alloc, words.style)?;
    let object = words.object;
    let written = write_plan(disk, alloc, table, certificate, output, object, &style);
    noting_table(alloc, known, table, written)
}

// Reads the lists, and runs the plan of a certificate's witness by them.
fn agree<D: Disk, I: Read, C: Read, O: Write>(
    disk: &D,
    alloc: Global,
    table: &mut Text<I>,
    certificate: &mut Text<C>,
    output: &mut Output<O>,
    lists: (&str, &str),
    asked: AskedRun,
    known: &mut Known<'_>,
) -> Result<Outcome, AppFault>
    requires texts { IsUnread table.old × IsUnread certificate.old }
    requires output { IsWritable output.old }
    ensures { RunsAgree I.remaining C.remaining (left_in D.contents D.Reader.remaining) O.contents
        (D.contents disk.now) table.old certificate.old lists.entry.0.now lists.entry.1.now asked
        output.old output.new result }
{
    let inputs = given_list(disk, alloc, lists.0, Argument::Inputs)?;
    let schedule = given_list(disk, alloc, lists.1, Argument::Schedule)?;
    let end = commands::agree(alloc, table, certificate, output, &inputs, &schedule, asked);
    noting_both(alloc, known, table, certificate, end)
}

// Reads the events, and serves an object by them.
fn replay<D: Disk, I: Read + Drop, C: Read + Drop, O: Write>(
    disk: &D,
    alloc: Global,
    table: Text<I>,
    certificate: Text<C>,
    output: &mut Output<O>,
    words: OpeningWords<'_>,
    events: &str,
    form: AnswerForm,
) -> Result<Outcome, AppFault>
    requires texts { IsUnread table × IsUnread certificate }
    requires output { IsWritable output.old }
    ensures { RunsReplay I.remaining C.remaining (left_in D.contents D.Reader.remaining) O.contents
        (D.contents disk.now) table certificate words.entry events.now form output.old output.new
        result }
{
    let events = given_list(disk, alloc, events, Argument::Events)?;
    let mut given = opening(disk, alloc, table, certificate, words);
    commands::replay(alloc, &mut given, output, &events, form)
}

// Reads the calls, and serves an object by threads that make them.
fn serve<T: Threads + Wait + Sync + Disk, I: Read + Drop, C: Read + Drop, O: Write>(
    rt: &T,
    alloc: Global,
    table: Text<I>,
    certificate: Text<C>,
    output: &mut Output<O>,
    words: OpeningWords<'_>,
    calls: &str,
    form: AnswerForm,
) -> Result<Outcome, AppFault>
    requires texts { IsUnread table × IsUnread certificate }
    requires output { IsWritable output.old }
    ensures { RunsServe I.remaining C.remaining (left_in T.contents T.Reader.remaining) O.contents
        (T.contents rt.now) table certificate words.entry calls.now form output.old output.new
        result }
{
    let calls = given_list(rt, alloc, calls, Argument::Calls)?;
    let mut given = opening(rt, alloc, table, certificate, words);
    commands::serve(rt, alloc, &mut given, output, &calls, form, |_| AlwaysOn)
}

// The source of the certificate, if a command reads one.
fn certificate_of<'a>(command: &Command<'a>) -> Option<TextSource<'a>>
    ensures { result ≡ certificate_of command.now }
{
    match *command {
        Command::Check { certificate, .. }
        | Command::CheckUnread { certificate, .. }
        | Command::CheckShortest { certificate, .. }
        | Command::CheckStocks { certificate, .. }
        | Command::Explain { certificate, .. }
        | Command::ExplainStocks { certificate, .. }
        | Command::Show { certificate, .. }
        | Command::Agree { certificate, .. } => Some(certificate),
        Command::Replay { opening, .. } | Command::Serve { opening, .. } => {
            Some(opening.certificate)
        }
        _ => None,
    }
}

// Which number the flags ask for.
fn asked_kind(recoverable: bool, without_read: bool) -> NumberKind
    ensures { result ≡ asked_kind recoverable without_read }
{
    match (recoverable, without_read) {
        (true, _) => NumberKind::Recoverable,
        (false, true) => NumberKind::WithoutReads,
        (false, false) => NumberKind::Consensus,
    }
}

// What `changes` is asked.
fn asked_changes(
    recoverable: bool,
    without_read: bool,
    pairs: bool,
    form: DocumentForm,
) -> AskedChanges
    ensures { result ≡ asked_changes recoverable without_read pairs form }
{
    AskedChanges {
        kind: asked_kind(recoverable, without_read),
        pairs,
        form,
    }
}

// Runs a command of a table alone.
fn run_on_table<T: Threads + Sync + Disk, S: Read + Copy, O: Write, P: Progress + Sync>(
    rt: &T,
    alloc: Global,
    table: &mut Text<TextReader<'_, S, T>>,
    output: &mut Output<O>,
    command: &Command<'_>,
    progress: &P,
) -> Result<Outcome, AppFault>
    requires command { certificate_of command.now ≡ None }
    requires text { IsUnread table.old }
    requires output { IsWritable output.old }
    ensures { (stdin : _) → RunsOn S.remaining (left_in T.contents T.Reader.remaining) O.contents
        (T.contents rt.now) stdin table.old command.now output.old output.new result }
{
    match *command {
        Command::Find { limit } => commands::find(rt, alloc, table, output, limit),
        Command::FindUnread => commands::find_unread(rt, alloc, table, output),
        Command::FindShortest { processes } => {
            commands::find_shortest(alloc, table, output, processes)
        }
        Command::FindStocks { limit } => commands::find_stocks(rt, alloc, table, output, limit),
        Command::Lint { form } => commands::lint(alloc, table, output, form),
        Command::Draw => commands::draw(alloc, table, output),
        Command::Why { limit, all, form } => {
            commands::why(rt, alloc, table, output, limit, all, form)
        }
        Command::WhyRecoverable { all, form } => {
            commands::why_recoverable(rt, alloc, table, output, all, form)
        }
        Command::WhyUnread { all, form } => {
            commands::why_unread(rt, alloc, table, output, all, form)
        }
        Command::WhyStocks { limit, all } => {
            commands::why_stocks(rt, alloc, table, output, limit, all)
        }
        Command::Pairs { form } => commands::pairs(rt, alloc, table, output, form),
        Command::Changes {
            recoverable,
            without_read,
            pairs,
            form,
        } => {
            let asked = asked_changes(recoverable, without_read, pairs, form);
            commands::changes(rt, alloc, table, output, asked, progress)
        }
        // The command reads no certificate.
        _ => unreachable!(),
    }
}

// Runs a command of a table and a certificate, which is read from its source.
fn run_on_both<T: Threads + Wait + Sync + Disk, S: Read + Copy + Drop, O: Write>(
    rt: &T,
    alloc: Global,
    stdin: S,
    table: Text<TextReader<'_, S, T>>,
    source: TextSource<'_>,
    output: &mut Output<O>,
    command: &Command<'_>,
    known: &mut Known<'_>,
) -> Result<Outcome, AppFault>
    requires command { certificate_of command.now ≡ Some source }
    requires text { IsUnread table }
    requires output { IsWritable output.old }
    ensures { RunsOn S.remaining (left_in T.contents T.Reader.remaining) O.contents
        (T.contents rt.now) stdin table.entry command.now output.old output.new result }
{
    let (mut table, mut certificate) = (table, text_of(rt, alloc, stdin, source));
    match *command {
        Command::Check { form, .. } => {
            let end = commands::check(alloc, &mut table, &mut certificate, output, form);
            noting_table(alloc, known, &table, end)
        }
        Command::CheckUnread { form, .. } => {
            let end = commands::check_unread(alloc, &mut table, &mut certificate, output, form);
            noting_table(alloc, known, &table, end)
        }
        Command::CheckShortest { form, .. } => {
            let end = commands::check_shortest(alloc, &mut table, &mut certificate, output, form);
            noting_table(alloc, known, &table, end)
        }
        Command::CheckStocks { form, .. } => {
            let end = commands::check_stocks(alloc, &mut table, &mut certificate, output, form);
            noting_table(alloc, known, &table, end)
        }
        Command::Explain { all, form, .. } => {
            let end = commands::explain(alloc, &mut table, &mut certificate, output, all, form);
            noting_table(alloc, known, &table, end)
        }
        Command::ExplainStocks { all, .. } => {
            let end = commands::explain_stocks(alloc, &mut table, &mut certificate, output, all);
            noting_table(alloc, known, &table, end)
        }
        Command::Show { words, .. } => {
            let (table, certificate) = (&mut table, &mut certificate);
            show(rt, alloc, table, certificate, output, words, known)
        }
        Command::Agree {
            inputs,
            schedule,
            steps,
            form,
            ..
        } => {
            let (table, certificate) = (&mut table, &mut certificate);
            let (lists, asked) = ((inputs, schedule), AskedRun { steps, form });
            agree(rt, alloc, table, certificate, output, lists, asked, known)
        }
        Command::Replay {
            opening,
            events,
            form,
        } => replay(rt, alloc, table, certificate, output, opening, events, form),
        Command::Serve {
            opening,
            calls,
            form,
        } => serve(rt, alloc, table, certificate, output, opening, calls, form),
        // The command reads a certificate.
        _ => unreachable!(),
    }
}

/// Runs a command of one table, which is read from its source. What the texts say of its fault is
/// noted, and the progress is told how far a long search has come.
pub fn run<T: Threads + Wait + Sync + Disk, S: Read + Copy + Drop, O: Write, P: Progress + Sync>(
    rt: &T,
    alloc: Global,
    stdin: S,
    output: &mut Output<O>,
    table: TextSource<'_>,
    command: &Command<'_>,
    progress: &P,
    known: &mut Known<'_>,
) -> Result<Outcome, AppFault>
    requires { IsWritable output.old }
    // promise: command-of-the-program (Runs: RunsOn, IsTextFrom)
    ensures { Runs S.remaining (left_in T.contents T.Reader.remaining) O.contents
        (T.contents rt.now) stdin table.entry command.now output.old output.new result }
{
    let mut table = text_of(rt, alloc, stdin, table);
    match certificate_of(command) {
        None => {
            let end = run_on_table(rt, alloc, &mut table, output, command, progress);
            noting_table(alloc, known, &table, end)
        }
        Some(source) => run_on_both(rt, alloc, stdin, table, source, output, command, known),
    }
}
