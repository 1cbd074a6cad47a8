//! The commands that read a type table.
ghost use Rattle.std.specs.Prelude.{◌≡◌, ◌⊎◌, None};
ghost use Rattle.cn_app.specs.Commands.Changes.{HasChangesReport};
ghost use Rattle.cn_app.specs.Commands.Classify.{HasClassReport, given_limit_fault};
ghost use Rattle.cn_app.specs.Commands.Draw.{HasDrawReport};
ghost use Rattle.cn_app.specs.Commands.Find.{HasFindReport};
ghost use Rattle.cn_app.specs.Commands.FindUnread.{HasFindUnreadReport};
ghost use Rattle.cn_app.specs.Commands.Lint.{HasLintReport};
ghost use Rattle.cn_app.specs.Commands.Pairs.{HasPairsReport};
ghost use Rattle.cn_app.specs.Commands.Why.{HasWhyReport};
ghost use Rattle.cn_app.specs.Commands.WhyRecoverable.{HasWhyRecoverableReport};
ghost use Rattle.cn_app.specs.Commands.WhyUnread.{HasWhyUnreadReport};
ghost use Rattle.cn_io.specs.Streams.Reading.{HasRead, IsUnread};
ghost use Rattle.cn_io.specs.Streams.Writing.{IsWritable, Reports};

use crate::reports::{
    AskedChanges, AskedNumbers, changes_report, check_limit, draw_report, find_report,
    find_unread_report, limit_for, lint_report, numbers_report, pairs_report,
    why_recoverable_report, why_report, why_unread_report,
};
use cn_changes::Progress;
use cn_form::{AnswerForm, DocumentForm};
use cn_io::readers::read_table;
use cn_io::{AppFault, Outcome, Output, Report, Source, Text};
use std::alloc::Global;
use std::io::{Read, Write};
use std::thread::Threads;

/// Reads a type table and writes the certificate of its consensus number up to the limit
/// ([`find_report`]). Without a `limit` it takes [`limit_for`] the table.
///
/// # Errors
///
/// The first of these: those of [`read_table`]; those of [`find_report`]; the writer fails.
pub fn find<T: Threads + Sync, R: Read, W: Write>(
    rt: &T,
    alloc: Global,
    table: &mut Text<R>,
    output: &mut Output<W>,
    limit: Option<u8>,
) -> Result<Outcome, AppFault>
    requires table { IsUnread table.old }
    requires output { IsWritable output.old }

    ensures read { HasRead Source.Table R.remaining table.old table.new }
    // promise: certificate-by-find (HasFindReport: IsFound)
    ensures found { Reports W.contents (HasFindReport table.new limit)
        output.old output.new result }
{
    let table = read_table(alloc, table)?;
    let limit = limit_for(&table, limit);
    output.report(find_report(rt, alloc, &table, limit))
}

/// Reads a type table and writes a certificate of its number without reads
/// ([`find_unread_report`]).
///
/// # Errors
///
/// The first of these: those of [`read_table`]; want of memory; the writer fails.
pub fn find_unread<T: Threads + Sync, R: Read, W: Write>(
    rt: &T,
    alloc: Global,
    table: &mut Text<R>,
    output: &mut Output<W>,
) -> Result<Outcome, AppFault>
    requires table { IsUnread table.old }
    requires output { IsWritable output.old }

    ensures read { HasRead Source.Table R.remaining table.old table.new }
    // promise: certificate-by-find-without-reads (Reports, HasFindUnreadReport)
    ensures found { Reports W.contents (HasFindUnreadReport table.new)
        output.old output.new result }
{
    let table = read_table(alloc, table)?;
    output.report(find_unread_report(rt, alloc, &table))
}

/// Reads a type table and writes why its consensus number is what it is, up to the limit if one was
/// given, in a form ([`why_report`]).
///
/// # Errors
///
/// Those of [`find`].
pub fn why<T: Threads + Sync, R: Read, W: Write>(
    rt: &T,
    alloc: Global,
    table: &mut Text<R>,
    output: &mut Output<W>,
    limit: Option<u8>,
    all: bool,
    form: DocumentForm,
) -> Result<Outcome, AppFault>
    requires table { IsUnread table.old }
    requires output { IsWritable output.old }

    ensures read { HasRead Source.Table R.remaining table.old table.new }
    // promise: why-with-a-limit (HasWhyReport: IsLimitedReport, GivesFound, IsExplainReport)
    // promise: why-without-a-limit (HasWhyReport: IsReasonsReport, HasReasonsFor)
    ensures told { Reports W.contents (HasWhyReport table.new limit all form)
        output.old output.new result }
{
    let table = read_table(alloc, table)?;
    output.report(why_report(rt, alloc, table, limit, all, form))
}

/// Reads a type table and writes why its recoverable number is what it is, in a form
/// ([`why_recoverable_report`]).
///
/// # Errors
///
/// The first of these: those of [`read_table`]; want of memory; the writer fails.
pub fn why_recoverable<T: Threads + Sync, R: Read, W: Write>(
    rt: &T,
    alloc: Global,
    table: &mut Text<R>,
    output: &mut Output<W>,
    all: bool,
    form: DocumentForm,
) -> Result<Outcome, AppFault>
    requires table { IsUnread table.old }
    requires output { IsWritable output.old }

    ensures read { HasRead Source.Table R.remaining table.old table.new }
    // promise: why-recoverable (Reports, HasWhyRecoverableReport)
    ensures told { Reports W.contents (HasWhyRecoverableReport table.new all form)
        output.old output.new result }
{
    let table = read_table(alloc, table)?;
    output.report(why_recoverable_report(rt, alloc, table, all, form))
}

/// Reads a type table and writes why its number without reads is what it is, in a form
/// ([`why_unread_report`]).
///
/// # Errors
///
/// The first of these: those of [`read_table`]; want of memory; the writer fails.
pub fn why_unread<T: Threads + Sync, R: Read, W: Write>(
    rt: &T,
    alloc: Global,
    table: &mut Text<R>,
    output: &mut Output<W>,
    all: bool,
    form: DocumentForm,
) -> Result<Outcome, AppFault>
    requires table { IsUnread table.old }
    requires output { IsWritable output.old }

    ensures read { HasRead Source.Table R.remaining table.old table.new }
    // promise: why-without-read (Reports, HasWhyUnreadReport)
    ensures told { Reports W.contents (HasWhyUnreadReport table.new all form)
        output.old output.new result }
{
    let table = read_table(alloc, table)?;
    output.report(why_unread_report(rt, alloc, table, all, form))
}

/// Reads a type table and writes the numbers of its operations and of their pairs in a form
/// ([`pairs_report`]).
///
/// # Errors
///
/// The first of these: those of [`read_table`]; want of memory; the writer fails.
pub fn pairs<T: Threads + Sync, R: Read, W: Write>(
    rt: &T,
    alloc: Global,
    table: &mut Text<R>,
    output: &mut Output<W>,
    form: DocumentForm,
) -> Result<Outcome, AppFault>
    requires table { IsUnread table.old }
    requires output { IsWritable output.old }

    ensures read { HasRead Source.Table R.remaining table.old table.new }
    // promise: numbers-by-pairs (HasPairsReport: IsPairsReport, ArePairs, pairs_in)
    ensures told { Reports W.contents (HasPairsReport table.new form)
        output.old output.new result }
{
    let table = read_table(alloc, table)?;
    output.report(pairs_report(rt, alloc, &table, form))
}

/// Reads a type table and writes its numbers with each other entry in it, in a form
/// ([`changes_report`]). The progress is told how far the search has come.
///
/// # Errors
///
/// The first of these: those of [`read_table`]; want of memory; the writer fails.
pub fn changes<T: Threads + Sync, R: Read, W: Write, P: Progress + Sync>(
    rt: &T,
    alloc: Global,
    table: &mut Text<R>,
    output: &mut Output<W>,
    asked: AskedChanges,
    progress: &P,
) -> Result<Outcome, AppFault>
    requires table { IsUnread table.old }
    requires output { IsWritable output.old }

    ensures read { HasRead Source.Table R.remaining table.old table.new }
    // promise: numbers-by-changes (HasChangesReport: IsChangesReport, AreChanges, changes_in)
    ensures told { Reports W.contents (HasChangesReport table.new asked)
        output.old output.new result }
{
    let table = read_table(alloc, table)?;
    output.report(changes_report(rt, alloc, &table, asked, progress))
}

/// Reads a type table. Answers the numbers asked for in their form ([`numbers_report`]).
///
/// # Errors
///
/// The first of these: that of [`check_limit`], and then the text is not touched; those of
/// [`read_table`].
pub(crate) fn class_report_of<T: Threads + Sync, R: Read>(
    rt: &T,
    alloc: Global,
    table: &mut Text<R>,
    asked: AskedNumbers,
) -> Result<Report, AppFault>
    requires { IsUnread table.old }

    ensures read { HasRead Source.Table R.remaining table.old table.new }
    ensures order { (table.new ≡ table.old) ⊎ (given_limit_fault asked.limit ≡ None) }
    ensures reported { HasClassReport table.new asked result }
{
    check_limit(asked.limit)?;
    let table = read_table(alloc, table)?;
    numbers_report(rt, alloc, &table, asked)
}

/// Reads a type table and writes the numbers asked for in their form ([`numbers_report`]): a line, or
/// a row of a Markdown table, whose head [`classify_each`](crate::commands::classify_each) writes.
///
/// # Errors
///
/// The first of these: that of [`check_limit`], and the text is not touched; those of
/// [`read_table`]; the writer fails.
pub fn classify<T: Threads + Sync, R: Read, W: Write>(
    rt: &T,
    alloc: Global,
    table: &mut Text<R>,
    output: &mut Output<W>,
    asked: AskedNumbers,
) -> Result<Outcome, AppFault>
    requires table { IsUnread table.old }
    requires output { IsWritable output.old }

    ensures read { HasRead Source.Table R.remaining table.old table.new }
    // promise: order-of-checks
    // promise: line-by-classify
    ensures order { (table.new ≡ table.old) ⊎ (given_limit_fault asked.limit ≡ None) }
    // promise: line-by-classify (HasClassReport: GivesLimit, IsNumbersReport: IsClassificationOf,
    //     classification_in)
    // promise: recoverable-line-by-classify (IsNumbersReport: IsClassificationOf: recoverable)
    // promise: without-read-by-classify (IsNumbersReport: IsClassificationOf: AreAskedBounds:
    //     HasUnreadNumber)
    // promise: forms-by-classify (IsNumbersReport: classification_in)
    ensures classified { Reports W.contents (HasClassReport table.new asked)
        output.old output.new result }
{
    output.report(class_report_of(rt, alloc, table, asked))
}

/// Reads a type table and writes its grid, or its flaws if it is refused ([`lint_report`]). A
/// refused table is no error: the outcome has its fault.
///
/// # Errors
///
/// The first of these: the reader fails, or gives more than
/// [`MOST_TABLE_BYTES`](crate::MOST_TABLE_BYTES); the writer fails. Want of memory can stand in
/// place of any answer.
pub fn lint<R: Read, W: Write>(
    alloc: Global,
    table: &mut Text<R>,
    output: &mut Output<W>,
    form: AnswerForm,
) -> Result<Outcome, AppFault>
    requires table { IsUnread table.old }
    requires output { IsWritable output.old }

    ensures read { HasRead Source.Table R.remaining table.old table.new }
    // promise: grid-by-lint (HasLintReport: EndsText, Tells, IsLinted: IsTableText, HasFlawText,
    //     flaw_json, HasNoteText: AreNotes, note_json)
    ensures linted { Reports W.contents (HasLintReport table.new form)
        output.old output.new result }
{
    table.fill(Source::Table)?;
    output.report(lint_report(alloc, &table.bytes, form))
}

/// Reads a type table and writes a picture of it for Graphviz ([`draw_report`]).
///
/// # Errors
///
/// The first of these: those of [`read_table`]; the writer fails.
pub fn draw<R: Read, W: Write>(
    alloc: Global,
    table: &mut Text<R>,
    output: &mut Output<W>,
) -> Result<Outcome, AppFault>
    requires table { IsUnread table.old }
    requires output { IsWritable output.old }

    ensures read { HasRead Source.Table R.remaining table.old table.new }
    // promise: picture-by-draw (HasDrawReport: diagram)
    ensures drawn { Reports W.contents (HasDrawReport table.new) output.old output.new result }
{
    let table = read_table(alloc, table)?;
    output.report(draw_report(alloc, &table))
}
