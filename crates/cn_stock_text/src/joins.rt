//! Joins in words, a line each.
ghost use Rattle.std.specs.Prelude.{◌≡◌, ◌<◌, ◌++◌, All, IfOk, OnOk, flat_map, length, string_bytes};
ghost use Rattle.cn_table.specs.Run.{state_after};
ghost use Rattle.cn_joins.specs.Joins.{IsJoin, IsPlacedWord, beginning};
ghost use Rattle.cn_stock_text.specs.Joins.{answer_text, join_line, joined_text, run_text, step_text, steps_text};

use crate::names::push_operation;
use cn_joins::{Join, PlacedWord};
use cn_pieces::push_pieces;
use cn_table::{Operation, Response, State, Table};
use std::alloc::AllocError;

/// Appends the response of the operation that is asked.
fn push_answer(
    text: &mut String,
    table: &Table,
    asked: bool,
    response: Response,
) -> Result<(), AllocError>
    requires { response.0 < length table.now.responses }
    ensures { OnOk result (string_bytes text.new
        ≡ string_bytes text.old ++ answer_text table.now asked response.0) }
{
    if !asked {
        return Ok(());
    }
    write!(text, "/{}", table.response_name(response))
}

/// Appends an operation, and its response if it is the one that is asked.
fn push_step(
    text: &mut String,
    table: &Table,
    asked: bool,
    operation: Operation,
    response: Response,
) -> Result<(), AllocError>
    requires operation { operation.0 < length table.now.operations }
    requires response { response.0 < length table.now.responses }
    ensures { OnOk result (string_bytes text.new
        ≡ string_bytes text.old ++ step_text table.now asked operation.0 response.0) }
{
    push_operation(text, table, operation)?;
    push_answer(text, table, asked, response)
}

/// Appends operations that are applied from a state, of which the one at the place is asked, and
/// answers the state that they leave.
fn push_steps(
    text: &mut String,
    table: &Table,
    start: State,
    word: &[u8],
    place: u8,
) -> Result<State, AllocError>
    requires word { All (λ o. o < length table.now.operations) word.now }
    requires start { start.0 < length table.now.states }
    ensures text { OnOk result (string_bytes text.new
        ≡ string_bytes text.old ++ steps_text table.now place 0 start.0 word.now) }
    ensures left { IfOk result (λ q. q.0 ≡ state_after table.now start.0 word.now) }
    ensures known { IfOk result (λ q. q.0 < length table.now.states) }
{
    let mut state = start;
    for k in 0..word.len() {
        let operation = Operation(word[k]);
        let (response, next) = table.apply(operation, state);
        push_step(text, table, k == place as usize, operation, response)?;
        state = next;
    }
    Ok(state)
}

/// The operations of a word.
fn operations_of(placed: &PlacedWord) -> &[u8]
    ensures { result.now ≡ placed.now.word }
{
    placed.word.as_slice()
}

/// The place in a word.
fn place_of(placed: &PlacedWord) -> u8
    ensures { result ≡ placed.now.place }
{
    placed.place
}

/// Appends the run of a word, and answers the state that it leaves.
fn push_run(
    text: &mut String,
    table: &Table,
    start: State,
    placed: &PlacedWord,
) -> Result<State, AllocError>
    requires word { IsPlacedWord table.now placed.now }
    requires start { start.0 < length table.now.states }
    ensures text { OnOk result (string_bytes text.new
        ≡ string_bytes text.old ++ run_text table.now start.0 placed.now) }
    ensures left { IfOk result (λ q. q.0 ≡ state_after table.now start.0 placed.now.word) }
    ensures known { IfOk result (λ q. q.0 < length table.now.states) }
{
    push_steps(text, table, start, operations_of(placed), place_of(placed))
}

/// The operation with which a word begins.
fn beginning(table: &Table, placed: &PlacedWord) -> Operation
    requires { IsPlacedWord table.now placed.now }
    ensures first { result.0 ≡ beginning placed.now }
    ensures known { result.0 < length table.now.operations }
{
    let _table = table;
    Operation(operations_of(placed)[0])
}

/// Appends the state that both runs leave, and the operations with which they begin.
fn push_joined(
    text: &mut String,
    table: &Table,
    left: State,
    first: Operation,
    second: Operation,
) -> Result<(), AllocError>
    requires left { left.0 < length table.now.states }
    requires first { first.0 < length table.now.operations }
    requires second { second.0 < length table.now.operations }
    ensures { OnOk result (string_bytes text.new
        ≡ string_bytes text.old ++ joined_text table.now left.0 first.0 second.0) }
{
    let (first, second) = (table.operation_name(first), table.operation_name(second));
    push_pieces(
        text,
        &[
            " both leave ",
            table.state_name(left),
            ": ",
            first,
            " and ",
            second,
            " are in one team\n",
        ],
    )
}

/// Appends the line of a join.
fn push_join(text: &mut String, table: &Table, join: &Join) -> Result<(), AllocError>
    requires { IsJoin table.now join.now }
    ensures { OnOk result (string_bytes text.new
        ≡ string_bytes text.old ++ join_line table.now join.now) }
{
    let start = join.start;
    push_pieces(text, &["  from ", table.state_name(start), ":"])?;
    let left = push_run(text, table, start, &join.first)?;
    text.push_str(" and")?;
    let _same = push_run(text, table, start, &join.second)?;
    let (first, second) = (
        beginning(table, &join.first),
        beginning(table, &join.second),
    );
    push_joined(text, table, left, first, second)
}

/// Appends the lines of joins.
pub(crate) fn push_joins(text: &mut String, table: &Table, joins: &[Join]) -> Result<(), AllocError>
    requires { All (IsJoin table.now) joins.now }
    ensures { OnOk result (string_bytes text.new
        ≡ string_bytes text.old ++ flat_map (join_line table.now) joins.now) }
{
    for join in joins {
        push_join(text, table, join)?;
    }
    Ok(())
}
