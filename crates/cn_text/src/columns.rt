//! Texts in columns.
ghost use Rattle.std.specs.Prelude.{◌≡◌, ◌≤◌, ◌<◌, ◌++◌, OnOk, Some, flat_map, length, slice_get, string_bytes};
ghost use Rattle.cn_table.specs.declared.limits.TheConstants.{LONGEST_NAME};
ghost use Rattle.cn_sentences.specs.Triangle.{texts_of};
ghost use Rattle.cn_text.specs.Columns.{names_of, padded, text_at, widest};

use cn_pieces::{push_pieces, push_spaces};
use cn_table::{Operation, Response, State, Table};
use std::alloc::AllocError;

/// What has names in a table.
#[derive(Clone, Copy)]
pub(crate) enum Named {
    States,
    Responses,
    Operations,
}

/// How many names there are.
fn count(table: &Table, named: Named) -> u8
    ensures { result ≡ length (names_of table.now named) }
{
    match named {
        Named::States => table.states(),
        Named::Responses => table.responses(),
        Named::Operations => table.operations(),
    }
}

fn name(table: &Table, named: Named, number: u8) -> &str
    requires { number < length (names_of table.now named) }
    ensures { slice_get (names_of table.now named) number ≡ Some result.now }
{
    match named {
        Named::States => table.state_name(State(number)),
        Named::Responses => table.response_name(Response(number)),
        Named::Operations => table.operation_name(Operation(number)),
    }
}

/// The width of the widest of these names.
pub(crate) fn widest_name(table: &Table, named: Named) -> usize
    ensures widest { result ≡ widest (names_of table.now named) }
    ensures few { result ≤ LONGEST_NAME }
{
    let _states = table.states();
    let mut width = 0;
    for number in 0..count(table, named) {
        width = width.max(name(table, named, number).len());
    }
    width
}

/// Writes the pieces, and the spaces that fill them up to a width.
pub(crate) fn push_padded(
    text: &mut String,
    width: usize,
    pieces: &[&str],
) -> Result<(), AllocError>
    ensures { OnOk result (string_bytes text.new
        ≡ string_bytes text.old ++ padded width (flat_map (λ p. p.now) pieces.now)) }
{
    let before = text.len();
    push_pieces(text, pieces)?;
    push_spaces(text, width.saturating_sub(text.len() - before))
}

/// The text in a column. It is empty where the row ends before.
pub(crate) fn text_at(row: &[String], column: usize) -> &str
    ensures { result.now ≡ text_at (texts_of row.now) column }
{
    match row.get(column) {
        Some(text) => text.as_str(),
        None => "",
    }
}
