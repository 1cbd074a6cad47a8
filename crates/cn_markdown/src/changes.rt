//! The numbers of a type with other entries in Markdown.
ghost use Rattle.std.specs.Prelude.{◌≡◌, ◌<◌, ◌++◌, IfOk, OnOk, flat_map, length, string_bytes};
ghost use Rattle.std.specs.List.{range_with_len};
ghost use Rattle.cn_markdown.specs.Changes.{bold, changes_markdown, marked_cell, marked_markdown, marked_row};

use crate::rows::push_name_rule;
use crate::type_table::push_states_head;
use cn_changes::{Changes, PairNumbers, rests_on};
use cn_pieces::push_pieces;
use cn_sentences::{push_change_lines, push_changes_head};
use cn_table::{Operation, State, Table};
use std::alloc::{AllocError, Global};

/// What stands on both sides of an entry on which the number rests.
fn bold<'a>(rests: bool) -> &'a str
    ensures { result.now ≡ bold rests }
{
    if rests { "**" } else { "" }
}

/// The cell of an operation in a state: the response and the next state.
#[tactic(auto, unfolding(crate::specs::Changes::marked_cell))]
fn push_marked_cell(
    text: &mut String,
    table: &Table,
    changes: &Changes,
    operation: Operation,
    state: State,
) -> Result<(), AllocError>
    requires operation { operation.0 < length table.now.operations }
    requires state { state.0 < length table.now.states }
    ensures { OnOk result (string_bytes text.new
        ≡ string_bytes text.old ++ marked_cell table.now changes.now operation.0 state.0) }
{
    let (response, next) = table.apply(operation, state);
    let (response, next) = (table.response_name(response), table.state_name(next));
    let around = bold(rests_on(changes.number, changes.nexts.as_slice(), operation, state));
    push_pieces(text, &[" ", around, response, ">", next, around, " |"])
}

#[tactic(auto, using(cn_pieces::proofs::Ranges::pieces_behind))]
fn push_marked_cells(
    text: &mut String,
    table: &Table,
    changes: &Changes,
    operation: Operation,
) -> Result<(), AllocError>
    requires { operation.0 < length table.now.operations }
    ensures { OnOk result (string_bytes text.new ≡ string_bytes text.old
        ++ flat_map (marked_cell table.now changes.now operation.0)
        (range_with_len 0 (length table.now.states))) }
{
    for state in 0..table.states() {
        push_marked_cell(text, table, changes, operation, State(state))?;
    }
    Ok(())
}

/// The row of an operation: its name, and its cell in each state.
#[tactic(auto, unfolding(crate::specs::Changes::marked_row))]
fn push_marked_row(
    text: &mut String,
    table: &Table,
    changes: &Changes,
    operation: Operation,
) -> Result<(), AllocError>
    requires { operation.0 < length table.now.operations }
    ensures { OnOk result (string_bytes text.new
        ≡ string_bytes text.old ++ marked_row table.now changes.now operation.0) }
{
    push_pieces(text, &["| ", table.operation_name(operation), " |"])?;
    push_marked_cells(text, table, changes, operation)?;
    text.push_str("\n")
}

#[tactic(auto, using(cn_pieces::proofs::Ranges::pieces_behind))]
fn push_marked_rows(text: &mut String, table: &Table, changes: &Changes) -> Result<(), AllocError>
    ensures { OnOk result (string_bytes text.new ≡ string_bytes text.old
        ++ flat_map (marked_row table.now changes.now)
        (range_with_len 0 (length table.now.operations))) }
{
    for operation in 0..table.operations() {
        push_marked_row(text, table, changes, Operation(operation))?;
    }
    Ok(())
}

/// The type as a table, in which entries are bold on which the number rests.
#[tactic(auto, unfolding(crate::specs::Changes::marked_markdown))]
fn push_marked_table(text: &mut String, table: &Table, changes: &Changes) -> Result<(), AllocError>
    ensures { OnOk result (string_bytes text.new
        ≡ string_bytes text.old ++ marked_markdown table.now changes.now) }
{
    push_states_head(text, table)?;
    push_name_rule(text, table.states() as usize + 1)?;
    push_marked_rows(text, table, changes)
}

/// The numbers of a type with each other entry in its table in Markdown, from the answers of
/// [`changes_of`](cn_changes::changes_of) and, if two changes were tried at once, of
/// [`pair_numbers`](cn_changes::pair_numbers) for this type: a line with the name of the type and its
/// number; the table, in which each entry is bold on which the number rests; and a list of the changes
/// that raise the number, the greatest number first.
///
/// # Errors
///
/// `AllocError` if memory runs out.
pub fn changes_table(
    alloc: Global,
    table: &Table,
    changes: &Changes,
    pairs: &Option<PairNumbers>,
) -> Result<String, AllocError>
    // promise: texts-of-numbers (changes_markdown)
    ensures { IfOk result (λ text. string_bytes text
        ≡ changes_markdown table.now changes.now pairs.now) }
{
    let mut text = String::new(alloc);
    push_changes_head(alloc, &mut text, table, changes)?;
    text.push_str("\n")?;
    push_marked_table(&mut text, table, changes)?;
    text.push_str("\n")?;
    push_change_lines(alloc, &mut text, "- ", table, changes, pairs)?;
    Ok(text)
}
