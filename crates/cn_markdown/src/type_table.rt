//! A type as a Markdown table.
ghost use Rattle.std.specs.Prelude.{◌≡◌, ◌<◌, ◌++◌, OnOk, flat_map, length, string_bytes};
ghost use Rattle.std.specs.List.{range_with_len};
ghost use Rattle.cn_markdown.specs.TypeTable.{operation_row, state_cell, states_head, step_cell, type_markdown};

use crate::rows::{push_cell, push_name_rule};
use cn_pieces::push_pieces;
use cn_table::{Operation, State, Table};
use std::alloc::AllocError;

#[tactic(auto, using(cn_pieces::proofs::Ranges::pieces_behind))]
fn push_state_cells(text: &mut String, table: &Table) -> Result<(), AllocError>
    ensures { OnOk result (string_bytes text.new ≡ string_bytes text.old
        ++ flat_map (state_cell table.now) (range_with_len 0 (length table.now.states))) }
{
    for state in 0..table.states() {
        push_cell(text, table.state_name(State(state)))?;
    }
    Ok(())
}

/// The head: what a cell tells, and the states.
#[tactic(auto, unfolding(crate::specs::TypeTable::states_head))]
pub(crate) fn push_states_head(text: &mut String, table: &Table) -> Result<(), AllocError>
    ensures { OnOk result (string_bytes text.new ≡ string_bytes text.old ++ states_head table.now) }
{
    text.push_str("| response > next state |")?;
    push_state_cells(text, table)?;
    text.push_str("\n")
}

/// The cell of an operation in a state: the response and the next state.
fn push_step_cell(
    text: &mut String,
    table: &Table,
    operation: Operation,
    state: State,
) -> Result<(), AllocError>
    requires operation { operation.0 < length table.now.operations }
    requires state { state.0 < length table.now.states }
    ensures { OnOk result (string_bytes text.new
        ≡ string_bytes text.old ++ step_cell table.now operation.0 state.0) }
{
    let (response, next) = table.apply(operation, state);
    let (response, next) = (table.response_name(response), table.state_name(next));
    push_pieces(text, &[" ", response, ">", next, " |"])
}

#[tactic(auto, using(cn_pieces::proofs::Ranges::pieces_behind))]
fn push_step_cells(text: &mut String, table: &Table, operation: Operation) -> Result<(), AllocError>
    requires { operation.0 < length table.now.operations }
    ensures { OnOk result (string_bytes text.new ≡ string_bytes text.old
        ++ flat_map (step_cell table.now operation.0)
        (range_with_len 0 (length table.now.states))) }
{
    for state in 0..table.states() {
        push_step_cell(text, table, operation, State(state))?;
    }
    Ok(())
}

/// The row of an operation: its name, and its cell in each state.
#[tactic(auto, unfolding(crate::specs::TypeTable::operation_row))]
fn push_operation_row(
    text: &mut String,
    table: &Table,
    operation: Operation,
) -> Result<(), AllocError>
    requires { operation.0 < length table.now.operations }
    ensures { OnOk result (string_bytes text.new
        ≡ string_bytes text.old ++ operation_row table.now operation.0) }
{
    push_pieces(text, &["| ", table.operation_name(operation), " |"])?;
    push_step_cells(text, table, operation)?;
    text.push_str("\n")
}

#[tactic(auto, using(cn_pieces::proofs::Ranges::pieces_behind))]
fn push_operation_rows(text: &mut String, table: &Table) -> Result<(), AllocError>
    ensures { OnOk result (string_bytes text.new ≡ string_bytes text.old
        ++ flat_map (operation_row table.now) (range_with_len 0 (length table.now.operations))) }
{
    for operation in 0..table.operations() {
        push_operation_row(text, table, Operation(operation))?;
    }
    Ok(())
}

/// The type as a Markdown table: a row for each operation, a column for each state.
#[tactic(auto, unfolding(crate::specs::TypeTable::type_markdown))]
pub(crate) fn push_type_table(text: &mut String, table: &Table) -> Result<(), AllocError>
    // promise: parts-of-documents (type_markdown)
    ensures { OnOk result (string_bytes text.new
        ≡ string_bytes text.old ++ type_markdown table.now) }
{
    push_states_head(text, table)?;
    push_name_rule(text, table.states() as usize + 1)?;
    push_operation_rows(text, table)
}
