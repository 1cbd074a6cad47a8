//! The report of `pairs`.
ghost use Rattle.std.specs.Prelude.{◌≡◌, IfOk, string_bytes};
ghost use Rattle.cn_app.specs.Commands.Pairs.{ArePairs, IsPairsReport, pairs_in};

use cn_form::DocumentForm;
use cn_io::{AppFault, Report, with_line_feed};
use cn_json::pairs_json;
use cn_markdown::pairs_table;
use cn_pairs::{Pairs, pairs_of};
use cn_table::Table;
use cn_text::pairs_lines;
use std::alloc::{AllocError, Global};
use std::thread::Threads;

/// The text of the numbers of the operations and of their pairs.
fn text_of(
    alloc: Global,
    table: &Table,
    pairs: &Pairs,
    form: DocumentForm,
) -> Result<String, AllocError>
    requires { ArePairs table.now pairs.now }
    ensures { IfOk result (λ text. string_bytes text ≡ pairs_in form table.now pairs.now) }
{
    match form {
        DocumentForm::Text => pairs_lines(alloc, table, pairs),
        DocumentForm::Json => with_line_feed(pairs_json(alloc, table, pairs)?),
        DocumentForm::Markdown => pairs_table(alloc, table, pairs),
    }
}

/// The numbers of each operation of the table alone and of each pair of operations, and the
/// smallest sets of operations with the number of the type, in a form: that of [`pairs_lines`], of
/// [`pairs_json`] or of [`pairs_table`].
///
/// # Errors
///
/// `OutOfMemory`.
pub fn pairs_report<T: Threads + Sync>(
    rt: &T,
    alloc: Global,
    table: &Table,
    form: DocumentForm,
) -> Result<Report, AppFault>
    ensures { IsPairsReport table.now form result }
{
    let pairs = pairs_of(rt, alloc, table)?;
    Ok(Report::whole(text_of(alloc, table, &pairs, form)?))
}
