//! The command `classify` over several tables.
ghost use Rattle.std.specs.Prelude.{◌≡◌, ◌⊎◌, [], IfSome, None, option_map, string_bytes};
ghost use Rattle.cn_app.specs.Commands.Classify.{HasClassReport, given_limit_fault};
ghost use Rattle.cn_app.specs.Commands.ClassifyEach.{AreClassified, AreClassifiedIn, AreRows};
ghost use Rattle.cn_app.specs.Commands.ClassifyEach.{AreUnread, HasClassified, IsFirst, Notes};
ghost use Rattle.cn_app.specs.Commands.ClassifyEach.{Writes, has_line, names_with};
ghost use Rattle.cn_io.specs.Streams.Reading.{HasRead, IsUnread};
ghost use Rattle.cn_io.specs.Streams.Writing.{IsWritable};

use crate::commands::of_tables::class_report_of;
use crate::reports::{AskedNumbers, head_report};
use cn_form::DocumentForm;
use cn_io::{AppFault, Outcome, Output, Report, Source, Text};
use std::alloc::Global;
use std::io::{Read, Write};
use std::thread::Threads;

/// The name of a table, its text, and its line once that is written.
#[derive(Drop)]
pub struct NamedTable<'a, R> {
    /// The name, as that of its file.
    pub name: &'a str,
    /// The text of the table.
    pub text: Text<R>,
    /// The line that was written of it, if one was.
    pub line: Option<String>,
}

/// Where faults and notes are told.
pub trait Tell {
    ghost use Rattle.std.specs.Prelude.{ℕ, List, Option, option_map};
    ghost use Rattle.cn_io.specs.declared.fault.AppFault.{AppFault as Fault};

    /// What telling makes of it: before, the name of the table, the fault, and after. Each has a
    /// relation of its own.
    ghost tells: { Self → Option (List ℕ) → Fault → Self → Type 0 };

    /// What a note makes of it: before, the names of a table and of an earlier one with the same
    /// line, and after.
    ghost notes: { Self → List ℕ → List ℕ → Self → Type 0 };

    /// Tells a fault, of the table of this name or of no one table.
    fn tell(&mut self, name: Option<&str>, fault: AppFault)
        ensures { tells self.old (option_map (λ s. s.now) name.entry) fault self.new };

    /// Notes that the table of this name has the same line as an earlier one.
    fn note_same_line(&mut self, name: &str, earlier: &str)
        ensures { notes self.old name.now earlier.now self.new };
}

// Reads a table and writes its line, which stands in the report.
fn written_report<T: Threads + Sync, R: Read, W: Write>(
    rt: &T,
    alloc: Global,
    text: &mut Text<R>,
    output: &mut Output<W>,
    asked: AskedNumbers,
) -> Result<Report, AppFault>
    requires text { IsUnread text.old }
    requires output { IsWritable output.old }

    ensures read { HasRead Source.Table R.remaining text.old text.new }
    ensures order { (text.new ≡ text.old) ⊎ (given_limit_fault asked.limit ≡ None) }
    ensures written { Writes W.contents (HasClassReport text.new asked) output.old output.new
        result }
{
    let report = class_report_of(rt, alloc, text, asked)?;
    output.write(&report)?;
    Ok(report)
}

impl<'a, R: Read> NamedTable<'a, R> {
    // Reads the table, and writes its line.
    fn classify<T: Threads + Sync, W: Write>(
        &mut self,
        rt: &T,
        alloc: Global,
        output: &mut Output<W>,
        asked: AskedNumbers,
    ) -> Result<Outcome, AppFault>
        requires table { IsUnread self.old.text }
        requires output { IsWritable output.old }
        ensures { HasClassified R.remaining W.contents asked self.old self.new result output.old
            output.new }
    {
        match written_report(rt, alloc, &mut self.text, output, asked) {
            Ok(report) => {
                let outcome = report.outcome;
                self.line = Some(report.text);
                Ok(outcome)
            }
            Err(fault) => {
                self.line = None;
                Err(fault)
            }
        }
    }

    // Whether this is its line.
    fn has_line(&self, line: &str) -> bool
        ensures { result ≡ has_line line.now self.now }
    {
        match &self.line {
            Some(own) => own.as_str() == line,
            None => false,
        }
    }
}

// The name of the first of these tables that has this line.
fn first_with<'a, R: Read>(tables: &[NamedTable<'a, R>], line: &str) -> Option<&'a str>
    ensures { IsFirst (names_with line.now tables.now) (option_map (λ s. s.now) result) }
{
    for table in tables {
        if table.has_line(line) {
            return Some(table.name);
        }
    }
    None
}

// Notes that an earlier table has the line of this one, where one has.
fn note_line<R: Read, F: Tell>(
    earlier: &[NamedTable<'_, R>],
    table: &NamedTable<'_, R>,
    faults: &mut F,
)
    ensures { IfSome table.now.line (λ line. Notes F.notes
        (names_with (string_bytes line) earlier.now) table.now.name.now faults.old faults.new) }
{
    let Some(line) = &table.line else {
        return;
    };
    if let Some(first) = first_with(earlier, line.as_str()) {
        faults.note_same_line(table.name, first);
    }
}

// Classifies the tables in order, with no head above their lines.
fn classify_tables<T: Threads + Sync, R: Read, W: Write, F: Tell>(
    rt: &T,
    alloc: Global,
    tables: &mut [NamedTable<'_, R>],
    output: &mut Output<W>,
    faults: &mut F,
    asked: AskedNumbers,
) -> Option<AppFault>
    requires tables { AreUnread tables.old }
    requires output { IsWritable output.old }
    ensures { AreClassified R.remaining W.contents F.tells F.notes asked [] tables.old tables.new
        output.old faults.old result output.new faults.new }
{
    let mut first = None;
    for i in 0..tables.len() {
        let Err(fault) = tables[i].classify(rt, alloc, output, asked) else {
            let seen = &tables[..=i];
            note_line(&seen[..i], &seen[i], faults);
            continue;
        };
        first = first.or(Some(fault));
        if fault.is_of_every_table() {
            faults.tell(None, fault);
            return first;
        }
        faults.tell(Some(tables[i].name), fault);
    }
    first
}

// Writes the head of a Markdown table, and classifies the tables in order, with a row for each.
fn classify_rows<T: Threads + Sync, R: Read, W: Write, F: Tell>(
    rt: &T,
    alloc: Global,
    tables: &mut [NamedTable<'_, R>],
    output: &mut Output<W>,
    faults: &mut F,
    asked: AskedNumbers,
) -> Option<AppFault>
    requires tables { AreUnread tables.old }
    requires output { IsWritable output.old }
    ensures { AreRows R.remaining W.contents F.tells F.notes asked tables.old tables.new
        output.old faults.old result output.new faults.new }
{
    match output.report(head_report(alloc, asked)) {
        Ok(_) => classify_tables(rt, alloc, tables, output, faults, asked),
        Err(fault) => {
            faults.tell(None, fault);
            Some(fault)
        }
    }
}

/// Classifies tables, one after the other, as [`classify`](crate::commands::classify) does each. A
/// line is written before the next table is read. Where an earlier table has the same line, that is
/// noted then, with the name of the first such. In Markdown the lines are the rows of one table,
/// whose head is written before the first table is read.
///
/// A fault of a table is told with its name, and the others go on. A fault of the limit or of the
/// writer would be that of every table: it is told with no name, and nothing more is read. The
/// answer is the first fault.
pub fn classify_each<T: Threads + Sync, R: Read, W: Write, F: Tell>(
    rt: &T,
    alloc: Global,
    tables: &mut [NamedTable<'_, R>],
    output: &mut Output<W>,
    faults: &mut F,
    asked: AskedNumbers,
) -> Option<AppFault>
    requires tables { AreUnread tables.old }
    requires output { IsWritable output.old }
    // promise: head-by-classify (AreClassifiedIn: AreRows, IsHeadReport)
    // promise: lines-by-classify (AreClassifiedIn: AreClassified: IsNoted)
    ensures { AreClassifiedIn asked.form R.remaining W.contents F.tells F.notes asked tables.old
        tables.new output.old faults.old result output.new faults.new }
{
    match asked.form {
        DocumentForm::Text | DocumentForm::Json => {
            classify_tables(rt, alloc, tables, output, faults, asked)
        }
        DocumentForm::Markdown => classify_rows(rt, alloc, tables, output, faults, asked),
    }
}
