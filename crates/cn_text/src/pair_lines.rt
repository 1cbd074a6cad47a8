//! The numbers of pairs of operations for people.
ghost use Rattle.std.specs.Prelude.{◌≡◌, ◌++◌, IfOk, OnOk, flat_map, length, string_bytes};
ghost use Rattle.std.specs.List.{range_with_len};
ghost use Rattle.cn_sentences.specs.Triangle.{rows_of, texts_of};
ghost use Rattle.cn_text.specs.Columns.{text_at};
ghost use Rattle.cn_text.specs.PairLines.{aligned, aligned_line, aligned_lines, pairs_text, width};

use crate::columns::text_at;
use cn_pairs::Pairs;
use cn_pieces::push_padding;
use cn_sentences::{push_smallest, triangle_of};
use cn_table::Table;
use std::alloc::{AllocError, Global};

/// The width of a column: the length of its longest text.
fn width(rows: &[Vec<String>], column: usize) -> usize
    ensures { result ≡ width (rows_of rows.now) column }
{
    let mut width = 0;
    for row in rows {
        width = width.max(text_at(row.as_slice(), column).len());
    }
    width
}

/// The text in its column: on the left of the first column, and on the right of each other one.
fn push_aligned(
    text: &mut String,
    column: usize,
    width: usize,
    shown: &str,
) -> Result<(), AllocError>
    ensures { OnOk result (string_bytes text.new
        ≡ string_bytes text.old ++ aligned column width shown.now) }
{
    if column == 0 {
        text.push_str(shown)?;
        return push_padding(text, width, shown);
    }
    text.push_str("  ")?;
    push_padding(text, width, shown)?;
    text.push_str(shown)
}

#[tactic(auto, using(cn_pieces::proofs::Ranges::pieces_behind))]
fn push_columns(text: &mut String, rows: &[Vec<String>], row: &[String]) -> Result<(), AllocError>
    ensures { OnOk result (string_bytes text.new ≡ string_bytes text.old
        ++ flat_map (λ c. aligned c (width (rows_of rows.now) c) (text_at (texts_of row.now) c))
        (range_with_len 0 (length row.now))) }
{
    for column in 0..row.len() {
        push_aligned(text, column, width(rows, column), text_at(row, column))?;
    }
    Ok(())
}

/// The line of a row; each column is as wide as it is in these rows.
fn push_line(text: &mut String, rows: &[Vec<String>], row: &[String]) -> Result<(), AllocError>
    ensures { OnOk result (string_bytes text.new
        ≡ string_bytes text.old ++ aligned_line (rows_of rows.now) (texts_of row.now)) }
{
    push_columns(text, rows, row)?;
    text.push_str("\n")
}

fn push_lines(text: &mut String, rows: &[Vec<String>]) -> Result<(), AllocError>
    ensures { OnOk result (string_bytes text.new
        ≡ string_bytes text.old ++ aligned_lines (rows_of rows.now)) }
{
    for row in rows {
        push_line(text, rows, row.as_slice())?;
    }
    Ok(())
}

/// The numbers of the pairs of operations of a type as a text for people, from the answer of
/// [`pairs_of`](cn_pairs::pairs_of) for this type.
///
/// The first lines are a triangle of aligned columns: a line with the names of the operations, and
/// for each operation a line with its name and its cells. The cell of two operations has the number
/// of the type with both alone, that of an operation with itself the number with this one alone.
/// The cells left of that are empty. Behind them a line for each of the smallest sets says that the
/// number needs only its operations, or all of the type. Each line ends with a line feed.
///
/// # Errors
///
/// `AllocError` if memory runs out.
pub fn pairs_lines(alloc: Global, table: &Table, pairs: &Pairs) -> Result<String, AllocError>
    // promise: texts-of-numbers (pairs_text)
    ensures { IfOk result (λ text. string_bytes text ≡ pairs_text table.now pairs.now) }
{
    let rows = triangle_of(alloc, table, pairs, "")?;
    let mut text = String::new(alloc);
    push_lines(&mut text, rows.as_slice())?;
    push_smallest(alloc, &mut text, "", table, pairs)?;
    Ok(text)
}
