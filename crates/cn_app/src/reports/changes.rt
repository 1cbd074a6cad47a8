//! The report of `changes`.
ghost use Rattle.std.specs.Prelude.{◌≡◌, All, IfOk, IfSome, string_bytes};
ghost use Rattle.cn_json.specs.Changes.{AreKnownPairs, IsKnownNext};
ghost use Rattle.cn_app.specs.Commands.Changes.{AreChanges, ArePairsFor, IsChangesReport, changes_in};

use cn_changes::laws::told_changes_are_known;
use cn_changes::{Changes, NumberKind, PairNumbers, Progress, changes_of, pair_numbers, raises_of};
use cn_form::DocumentForm;
use cn_io::{AppFault, Report, with_line_feed};
use cn_json::changes_json;
use cn_markdown::changes_table;
use cn_table::Table;
use cn_text::changes_lines;
use std::alloc::{AllocError, Global};
use std::thread::Threads;

/// What is asked of the changes of a table.
#[derive(Clone, Copy)]
pub struct AskedChanges {
    /// Which number is told.
    pub kind: NumberKind,
    /// Whether changes of two entries are tried where none of one raises the number.
    pub pairs: bool,
    /// The form of the answer.
    pub form: DocumentForm,
}

/// The changes of two entries that raise the number, if they are asked for and no change of one does.
fn pairs_for<T: Threads + Sync, P: Progress + Sync>(
    rt: &T,
    alloc: Global,
    table: &Table,
    changes: &Changes,
    asked: bool,
    progress: &P,
) -> Result<Option<PairNumbers>, AllocError>
    ensures { IfOk result (ArePairsFor asked table.now changes.now) }
{
    if !asked {
        return Ok(None);
    }
    let raises = raises_of(alloc, changes.number, changes.nexts.as_slice())?;
    if !raises.is_empty() {
        return Ok(None);
    }
    let pairs = pair_numbers(rt, alloc, table, changes.kind, changes.number, progress)?;
    Ok(Some(pairs))
}

/// The text of the numbers in a form.
fn text_of(
    alloc: Global,
    table: &Table,
    changes: &Changes,
    pairs: &Option<PairNumbers>,
    form: DocumentForm,
) -> Result<String, AllocError>
    requires nexts { All (IsKnownNext table.now) changes.now.nexts.items }
    requires pairs { IfSome pairs.now (AreKnownPairs table.now) }
    ensures { IfOk result (λ text. string_bytes text
        ≡ changes_in form table.now changes.now pairs.now) }
{
    match form {
        DocumentForm::Text => changes_lines(alloc, table, changes, pairs),
        DocumentForm::Json => with_line_feed(changes_json(alloc, table, changes, pairs)?),
        DocumentForm::Markdown => changes_table(alloc, table, changes, pairs),
    }
}

/// The numbers of the table with each other entry in it, in a form: that of [`changes_lines`], of
/// [`changes_json`] or of [`changes_table`]. The progress is told how far the search has come.
///
/// # Errors
///
/// `OutOfMemory`.
pub fn changes_report<T: Threads + Sync, P: Progress + Sync>(
    rt: &T,
    alloc: Global,
    table: &Table,
    asked: AskedChanges,
    progress: &P,
) -> Result<Report, AppFault>
    ensures { IsChangesReport table.now asked result }
{
    told_changes_are_known();
    let changes = changes_of(rt, alloc, table, asked.kind, progress)?;
    let pairs = pairs_for(rt, alloc, table, &changes, asked.pairs, progress)?;
    Ok(Report::whole(text_of(alloc, table, &changes, &pairs, asked.form)?))
}
