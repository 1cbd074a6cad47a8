//! Rows of Markdown tables.
ghost use Rattle.std.specs.Prelude.{◌≡◌, ◌++◌, OnOk, codes, flat_map, length, string_bytes};
ghost use Rattle.std.specs.List.{range_with_len};
ghost use Rattle.cn_sentences.specs.Triangle.{rows_of, texts_of};
ghost use Rattle.cn_markdown.specs.Rows.{cell, name_rule, row, rule, rule_cell, table_of};

use cn_pieces::push_pieces;
use std::alloc::AllocError;

/// A cell, with the bar behind it.
pub(crate) fn push_cell(text: &mut String, shown: &str) -> Result<(), AllocError>
    ensures { OnOk result (string_bytes text.new ≡ string_bytes text.old ++ cell shown.now) }
{
    push_pieces(text, &[" ", shown, " |"])
}

fn push_cells(text: &mut String, shown: &[String]) -> Result<(), AllocError>
    ensures { OnOk result (string_bytes text.new ≡ string_bytes text.old
        ++ flat_map cell (texts_of shown.now)) }
{
    for text_of_cell in shown {
        push_cell(text, text_of_cell.as_str())?;
    }
    Ok(())
}

fn push_row(text: &mut String, shown: &[String]) -> Result<(), AllocError>
    ensures { OnOk result (string_bytes text.new ≡ string_bytes text.old
        ++ row (texts_of shown.now)) }
{
    text.push_str("|")?;
    push_cells(text, shown)?;
    text.push_str("\n")
}

fn rule_cell(others: &str, column: usize) -> &str
    ensures { result.now ≡ rule_cell others.now column }
{
    if column == 0 { " --- |" } else { others }
}

#[tactic(auto, using(cn_pieces::proofs::Ranges::pieces_behind))]
fn push_rule_cells(text: &mut String, others: &str, columns: usize) -> Result<(), AllocError>
    ensures { OnOk result (string_bytes text.new ≡ string_bytes text.old
        ++ flat_map (rule_cell others.now) (range_with_len 0 columns)) }
{
    for column in 0..columns {
        text.push_str(rule_cell(others, column))?;
    }
    Ok(())
}

/// The line below the head, for so many columns; with the cell of all but the first.
fn push_rule(text: &mut String, others: &str, columns: usize) -> Result<(), AllocError>
    ensures { OnOk result (string_bytes text.new
        ≡ string_bytes text.old ++ rule others.now columns) }
{
    text.push_str("|")?;
    push_rule_cells(text, others, columns)?;
    text.push_str("\n")
}

/// The line below the head of a table of names, for so many columns.
pub(crate) fn push_name_rule(text: &mut String, columns: usize) -> Result<(), AllocError>
    // promise: parts-of-documents (name_rule)
    ensures { OnOk result (string_bytes text.new ≡ string_bytes text.old ++ name_rule columns) }
{
    push_rule(text, " --- |", columns)
}

fn push_rows(text: &mut String, rows: &[Vec<String>]) -> Result<(), AllocError>
    ensures { OnOk result (string_bytes text.new ≡ string_bytes text.old
        ++ flat_map row (rows_of rows.now)) }
{
    for shown in rows {
        push_row(text, shown.as_slice())?;
    }
    Ok(())
}

/// The Markdown table of these rows, of which the first is the head.
pub(crate) fn push_table(text: &mut String, rows: &[Vec<String>]) -> Result<(), AllocError>
    ensures { OnOk result (string_bytes text.new ≡ string_bytes text.old
        ++ table_of (rows_of rows.now)) }
{
    let [head, others @ ..] = rows else {
        return Ok(());
    };
    push_row(text, head.as_slice())?;
    push_rule(text, " ---: |", head.len())?;
    push_rows(text, others)
}
