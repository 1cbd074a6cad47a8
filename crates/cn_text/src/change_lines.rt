//! The numbers of a type with other entries, for people.
ghost use Rattle.std.specs.Prelude.{◌≡◌, ◌<◌, ◌++◌, IfOk, OnOk, flat_map, length, string_bytes};
ghost use Rattle.std.specs.List.{range_with_len};
ghost use Rattle.cn_changes.specs.Rests.{rests_on};
ghost use Rattle.cn_text.specs.ChangeLines.{changes_text, mark, marked_cell, marked_end, marked_grid, marked_line};

use crate::columns::push_padded;
use crate::grid::{cell_width, push_head_cells, push_name_cell};
use cn_changes::{Changes, PairNumbers, rests_on};
use cn_pieces::push_pieces;
use cn_sentences::{push_change_lines, push_changes_head};
use cn_table::{Operation, State, Table};
use std::alloc::{AllocError, Global};

/// The mark of an entry on which the number rests.
fn mark<'a>(rests: bool) -> &'a str
    ensures { result.now ≡ mark rests }
{
    if rests { "*" } else { "" }
}

/// The cell of an operation in the column of a state.
#[tactic(auto, unfolding(crate::specs::ChangeLines::marked_cell))]
fn push_marked_cell(
    text: &mut String,
    table: &Table,
    changes: &Changes,
    operation: Operation,
    state: State,
) -> Result<(), AllocError>
    requires operation { operation.0 < length table.now.operations }
    requires state { state.0 < length table.now.states }
    ensures { OnOk result (string_bytes text.new
        ≡ string_bytes text.old ++ marked_cell table.now changes.now operation.0 state.0) }
{
    let (response, next) = table.apply(operation, state);
    let (response, next) = (table.response_name(response), table.state_name(next));
    let rests = rests_on(changes.number, changes.nexts.as_slice(), operation, state);
    push_padded(
        text,
        cell_width(table, state),
        &[response, ">", next, mark(rests)],
    )
}

#[tactic(auto, using(cn_pieces::proofs::Ranges::pieces_behind))]
fn push_marked_cells(
    text: &mut String,
    table: &Table,
    changes: &Changes,
    operation: Operation,
) -> Result<(), AllocError>
    requires { operation.0 < length table.now.operations }
    ensures { OnOk result (string_bytes text.new ≡ string_bytes text.old
        ++ flat_map (marked_cell table.now changes.now operation.0)
        (range_with_len 0 (length table.now.states))) }
{
    for state in 0..table.states() {
        push_marked_cell(text, table, changes, operation, State(state))?;
    }
    Ok(())
}

/// The end of a row; behind the first one stands the meaning of a cell.
fn marked_end(operation: Operation) -> &'static str
    ensures { result.now ≡ marked_end operation.0 }
{
    if operation.0 == 0 {
        "            (response > next state; * the number rests on it)\n"
    } else {
        "\n"
    }
}

#[tactic(auto, unfolding(crate::specs::ChangeLines::marked_line))]
fn push_marked_line(
    text: &mut String,
    table: &Table,
    changes: &Changes,
    operation: Operation,
) -> Result<(), AllocError>
    requires { operation.0 < length table.now.operations }
    ensures { OnOk result (string_bytes text.new
        ≡ string_bytes text.old ++ marked_line table.now changes.now operation.0) }
{
    push_name_cell(text, table, &["  ", table.operation_name(operation)])?;
    push_marked_cells(text, table, changes, operation)?;
    push_pieces(text, &[marked_end(operation)])
}

#[tactic(auto, using(cn_pieces::proofs::Ranges::pieces_behind))]
fn push_marked_lines(text: &mut String, table: &Table, changes: &Changes) -> Result<(), AllocError>
    ensures { OnOk result (string_bytes text.new ≡ string_bytes text.old
        ++ flat_map (marked_line table.now changes.now)
        (range_with_len 0 (length table.now.operations))) }
{
    for operation in 0..table.operations() {
        push_marked_line(text, table, changes, Operation(operation))?;
    }
    Ok(())
}

/// The cells of the grid: a line with the states, and a line for each operation with its response and
/// the next state in each state, and a mark if the number rests on them.
#[tactic(auto, unfolding(crate::specs::ChangeLines::marked_grid))]
fn push_marked_grid(text: &mut String, table: &Table, changes: &Changes) -> Result<(), AllocError>
    ensures { OnOk result (string_bytes text.new
        ≡ string_bytes text.old ++ marked_grid table.now changes.now) }
{
    push_name_cell(text, table, &[])?;
    push_head_cells(text, table)?;
    text.push_str("\n")?;
    push_marked_lines(text, table, changes)
}

/// The numbers of a type with each other entry in its table as a text for people, from the answers of
/// [`changes_of`](cn_changes::changes_of) and, if two changes were tried at once, of
/// [`pair_numbers`](cn_changes::pair_numbers) for this type.
///
/// The first line has the name of the type and its number. Then comes the table as a grid, in which
/// each entry is marked on which the number rests; and a line for each change that raises the number,
/// the greatest number first, or that there is none. Each line ends with a line feed.
///
/// # Errors
///
/// `AllocError` if memory runs out.
pub fn changes_lines(
    alloc: Global,
    table: &Table,
    changes: &Changes,
    pairs: &Option<PairNumbers>,
) -> Result<String, AllocError>
    // promise: texts-of-numbers (changes_text)
    ensures { IfOk result (λ text. string_bytes text
        ≡ changes_text table.now changes.now pairs.now) }
{
    let mut text = String::new(alloc);
    push_changes_head(alloc, &mut text, table, changes)?;
    push_marked_grid(&mut text, table, changes)?;
    push_change_lines(alloc, &mut text, "", table, changes, pairs)?;
    Ok(text)
}
