//! A table as a grid, for people.
ghost use Rattle.std.specs.Prelude.{◌≡◌, ◌<◌, ◌++◌, IfOk, OnOk, flat_map, get_or, false, length, string_bytes};
ghost use Rattle.std.specs.List.{range_with_len};
ghost use Rattle.cn_text.specs.Grid.{answers_alike, cell, cell_width, cells_text, grid_text, head_cell, name_cell, operation_line, operation_mark, row_end, state_mark, use_words, IsGrid};

use crate::columns::{Named, push_padded, widest_name};
use cn_pieces::push_pieces;
use cn_table::laws::tables_are_valid;
use cn_table::{MOST_STATES, Operation, State, Table};
use std::alloc::{AllocError, Global};

/// The table as a text for people: a line with the name, and the cells; then a line for each state
/// to which no operations lead from the first, and for each operation that changes nothing. Each
/// line ends with a line feed.
///
/// The cells are a line with the states, and a line for each operation with its response and the
/// next state in each state.
///
/// # Errors
///
/// `AllocError` if memory runs out.
#[tactic(auto, unfolding(crate::specs::Grid::grid_text))]
pub fn grid_of(alloc: Global, table: &Table) -> Result<String, AllocError>
    // promise: grid-and-picture (IsGrid: grid_text, cells_text)
    ensures { IfOk result (λ text. IsGrid table.now (string_bytes text)) }
{
    let reached_states = table.reached_states();
    let mut text = String::new(alloc);
    push_pieces(&mut text, &[table.name(), "\n"])?;
    push_cells(&mut text, table)?;
    push_state_marks(&mut text, table, &reached_states)?;
    push_operation_marks(&mut text, table)?;
    Ok(text)
}

/// The cells of the grid: a line with the states, and a line for each operation with its response
/// and the next state in each state.
#[tactic(auto, unfolding(crate::specs::Grid::cells_text))]
pub(crate) fn push_cells(text: &mut String, table: &Table) -> Result<(), AllocError>
    // promise: parts-of-explanations (cells_text)
    ensures { OnOk result (string_bytes text.new ≡ string_bytes text.old ++ cells_text table.now) }
{
    push_name_cell(text, table, &[])?;
    push_head_cells(text, table)?;
    text.push_str("\n")?;
    push_operations(text, table)
}

/// Writes the pieces in the column of the operations.
pub(crate) fn push_name_cell(
    text: &mut String,
    table: &Table,
    pieces: &[&str],
) -> Result<(), AllocError>
    ensures { OnOk result (string_bytes text.new
        ≡ string_bytes text.old ++ name_cell table.now (flat_map (λ p. p.now) pieces.now)) }
{
    push_padded(text, widest_name(table, Named::Operations) + 6, pieces)
}

/// How wide a cell in the column of a state is.
pub(crate) fn cell_width(table: &Table, state: State) -> usize
    requires { state.0 < length table.now.states }
    ensures { result ≡ cell_width table.now state.0 }
{
    let states = table.states();
    if state.0 + 1 < states {
        widest_name(table, Named::Responses) + widest_name(table, Named::States) + 4
    } else {
        0
    }
}

#[tactic(auto, unfolding(crate::specs::Grid::head_cell))]
fn push_head_cell(text: &mut String, table: &Table, state: State) -> Result<(), AllocError>
    requires { state.0 < length table.now.states }
    ensures { OnOk result (string_bytes text.new
        ≡ string_bytes text.old ++ head_cell table.now state.0) }
{
    push_padded(text, cell_width(table, state), &[table.state_name(state)])
}

#[tactic(auto, using(cn_pieces::proofs::Ranges::pieces_behind))]
pub(crate) fn push_head_cells(text: &mut String, table: &Table) -> Result<(), AllocError>
    ensures { OnOk result (string_bytes text.new ≡ string_bytes text.old
        ++ flat_map (head_cell table.now) (range_with_len 0 (length table.now.states))) }
{
    for state in 0..table.states() {
        push_head_cell(text, table, State(state))?;
    }
    Ok(())
}

/// The cell of an operation in the column of a state.
#[tactic(auto, unfolding(crate::specs::Grid::cell))]
fn push_cell(
    text: &mut String,
    table: &Table,
    operation: Operation,
    state: State,
) -> Result<(), AllocError>
    requires operation { operation.0 < length table.now.operations }
    requires state { state.0 < length table.now.states }
    ensures { OnOk result (string_bytes text.new
        ≡ string_bytes text.old ++ cell table.now operation.0 state.0) }
{
    let (response, next) = table.apply(operation, state);
    let (response, next) = (table.response_name(response), table.state_name(next));
    push_padded(text, cell_width(table, state), &[response, ">", next])
}

#[tactic(auto, using(cn_pieces::proofs::Ranges::pieces_behind))]
fn push_row(text: &mut String, table: &Table, operation: Operation) -> Result<(), AllocError>
    requires { operation.0 < length table.now.operations }
    ensures { OnOk result (string_bytes text.new ≡ string_bytes text.old
        ++ flat_map (cell table.now operation.0) (range_with_len 0 (length table.now.states))) }
{
    for state in 0..table.states() {
        push_cell(text, table, operation, State(state))?;
    }
    Ok(())
}

/// The end of a row; behind the first one stands the meaning of a cell.
fn row_end(operation: Operation) -> &'static str
    ensures { result.now ≡ row_end operation.0 }
{
    if operation.0 == 0 {
        "            (response > next state)\n"
    } else {
        "\n"
    }
}

#[tactic(auto, unfolding(crate::specs::Grid::operation_line))]
fn push_operation(text: &mut String, table: &Table, operation: Operation) -> Result<(), AllocError>
    requires { operation.0 < length table.now.operations }
    ensures { OnOk result (string_bytes text.new
        ≡ string_bytes text.old ++ operation_line table.now operation.0) }
{
    push_name_cell(text, table, &["  ", table.operation_name(operation)])?;
    push_row(text, table, operation)?;
    push_pieces(text, &[row_end(operation)])
}

#[tactic(auto, using(cn_pieces::proofs::Ranges::pieces_behind))]
fn push_operations(text: &mut String, table: &Table) -> Result<(), AllocError>
    ensures { OnOk result (string_bytes text.new ≡ string_bytes text.old
        ++ flat_map (operation_line table.now) (range_with_len 0 (length table.now.operations))) }
{
    for operation in 0..table.operations() {
        push_operation(text, table, Operation(operation))?;
    }
    Ok(())
}

#[tactic(auto, unfolding(crate::specs::Grid::state_mark))]
fn push_state_mark(
    text: &mut String,
    table: &Table,
    state: State,
    is_reached: bool,
) -> Result<(), AllocError>
    requires { state.0 < length table.now.states }
    ensures { OnOk result (string_bytes text.new
        ≡ string_bytes text.old ++ state_mark table.now state.0 is_reached) }
{
    if is_reached {
        return Ok(());
    }
    let (name, first) = (table.state_name(state), table.state_name(State(0)));
    push_pieces(
        text,
        &["state ", name, ": cannot be reached from ", first, "\n"],
    )
}

#[tactic(auto, using(cn_pieces::proofs::Ranges::pieces_behind))]
fn push_state_marks(
    text: &mut String,
    table: &Table,
    reached_states: &[bool; MOST_STATES],
) -> Result<(), AllocError>
    ensures { OnOk result (string_bytes text.new ≡ string_bytes text.old
        ++ flat_map (λ q. state_mark table.now q (get_or reached_states.now q false))
        (range_with_len 0 (length table.now.states))) }
{
    for state in 0..table.states() {
        push_state_mark(text, table, State(state), reached_states[state as usize])?;
    }
    Ok(())
}

/// Whether the operation gets one response in all states.
fn answers_alike(table: &Table, operation: Operation) -> bool
    requires { operation.0 < length table.now.operations }
    ensures { result ≡ answers_alike table.now operation.0 (length table.now.states) }
{
    tables_are_valid(table);
    let (first, _) = table.apply(operation, State(0));
    let mut is_alike = true;
    for state in 0..table.states() {
        let (response, _) = table.apply(operation, State(state));
        is_alike = is_alike && response.0 == first.0;
    }
    is_alike
}

/// What an operation is good for that changes nothing.
fn use_words<'a>(table: &'a Table, operation: Operation) -> &'a str
    requires { operation.0 < length table.now.operations }
    ensures { result.now ≡ use_words table.now operation.0 }
{
    if answers_alike(table, operation) {
        "\n"
    } else {
        "; it counts where the state cannot be read (classify --without-read)\n"
    }
}

#[tactic(auto, unfolding(crate::specs::Grid::operation_mark))]
fn push_operation_mark(
    text: &mut String,
    table: &Table,
    operation: Operation,
) -> Result<(), AllocError>
    requires { operation.0 < length table.now.operations }
    ensures { OnOk result (string_bytes text.new
        ≡ string_bytes text.old ++ operation_mark table.now operation.0) }
{
    if !table.changes_nothing(operation) {
        return Ok(());
    }
    push_pieces(
        text,
        &[
            "operation ",
            table.operation_name(operation),
            ": changes nothing",
            use_words(table, operation),
        ],
    )
}

#[tactic(auto, using(cn_pieces::proofs::Ranges::pieces_behind))]
fn push_operation_marks(text: &mut String, table: &Table) -> Result<(), AllocError>
    ensures { OnOk result (string_bytes text.new ≡ string_bytes text.old
        ++ flat_map (operation_mark table.now) (range_with_len 0 (length table.now.operations))) }
{
    for operation in 0..table.operations() {
        push_operation_mark(text, table, Operation(operation))?;
    }
    Ok(())
}
