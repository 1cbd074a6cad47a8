//! The report of `lint`.
ghost use Rattle.std.specs.Prelude.{◌≡◌, ◌≤◌, ◌<◌, ◌^◌, IfOk, length, map, string_bytes};
ghost use Rattle.cn_flaws.specs.Flaws.{flaw_view};
ghost use Rattle.cn_app.specs.Commands.Lint.{HasFlawText, HasNoteText, IsLintReport, IsTableText, flaw_json, flaw_lines};
ghost use Rattle.cn_app.specs.Forms.{if_json};
ghost use Rattle.cn_io.specs.declared.limits.TheConstants.{MOST_TABLE_BYTES};

use cn_flaws::{Flaw, flaws, notes_of};
use cn_form::AnswerForm;
use cn_io::{AppFault, Outcome, Report, with_line_feed};
use cn_json::{flaws_json, notes_json};
use cn_table::{Table, TableFault, read_table};
use cn_text::grid_of;
use std::alloc::{AllocError, Global};

fn lines_of(alloc: Global, flaws: &[Flaw]) -> Result<String, AllocError>
    ensures { IfOk result (λ lines. string_bytes lines ≡ flaw_lines (map flaw_view flaws.now)) }
{
    let mut lines = String::new(alloc);
    for flaw in flaws {
        lines.push_str(flaw.text.as_str())?;
        lines.push_str("\n")?;
    }
    Ok(lines)
}

/// The text of flaws.
fn flaw_text(alloc: Global, flaws: &[Flaw], form: AnswerForm) -> Result<String, AllocError>
    ensures { IfOk result (λ text. string_bytes text ≡ if_json form
        (flaw_json (map flaw_view flaws.now)) (flaw_lines (map flaw_view flaws.now))) }
{
    match form {
        AnswerForm::Text => lines_of(alloc, flaws),
        AnswerForm::Json => with_line_feed(flaws_json(alloc, flaws)?),
    }
}

/// The text of the flaws of the bytes.
fn text_of_flaws(alloc: Global, bytes: &[u8], form: AnswerForm) -> Result<String, AllocError>
    requires { length bytes.now < 2 ^ 63 }
    ensures { IfOk result (λ text. HasFlawText form bytes.now (string_bytes text)) }
{
    let flaws = flaws(alloc, bytes)?;
    flaw_text(alloc, &flaws, form)
}

/// The JSON text of a table, which has no flaws, with its notes.
fn note_text(alloc: Global, table: &Table) -> Result<String, AllocError>
    ensures { IfOk result (λ text. HasNoteText table.now (string_bytes text)) }
{
    let notes = notes_of(alloc, table)?;
    with_line_feed(notes_json(alloc, table, &notes)?)
}

/// The text of a table, which has no flaws.
fn table_text(alloc: Global, table: &Table, form: AnswerForm) -> Result<String, AllocError>
    ensures { IfOk result (λ text. IsTableText form table.now (string_bytes text)) }
{
    match form {
        AnswerForm::Text => grid_of(alloc, table),
        AnswerForm::Json => note_text(alloc, table),
    }
}

/// The output of `lint`: the grid of a table ([`grid_of`](cn_text::grid_of)), or a line for each
/// flaw of bytes that spell none ([`flaws`](cn_flaws::flaws)). If the bytes are refused, the
/// outcome has their fault. As JSON, the output has the flaws ([`flaws_json`]), or of a table that it
/// has none, with its notes ([`notes_json`]).
///
/// Without JSON, the output is empty for bytes that are not UTF-8.
///
/// # Errors
///
/// `OutOfMemory`.
pub fn lint_report(alloc: Global, bytes: &[u8], form: AnswerForm) -> Result<Report, AppFault>
    requires { length bytes.now ≤ MOST_TABLE_BYTES }
    ensures { IsLintReport form bytes.now result }
{
    match read_table(alloc, bytes) {
        Ok(table) => Ok(Report::whole(table_text(alloc, &table, form)?)),
        Err(TableFault::OutOfMemory) => Err(AppFault::OutOfMemory),
        Err(fault) => Ok(Report {
            text: text_of_flaws(alloc, bytes, form)?,
            outcome: Outcome::Refused(AppFault::from(fault)),
        }),
    }
}
