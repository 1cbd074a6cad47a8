//! A table as a picture for Graphviz.
ghost use Rattle.std.specs.Prelude.{◌≡◌, ◌<◌, ◌++◌, IfOk, OnOk, flat_map, length, string_bytes};
ghost use Rattle.std.specs.List.{range_with_len};
ghost use Rattle.cn_text.specs.Diagram.{arrow_dot, arrows_dot, diagram, label_dot, line_dot, state_dot};

use cn_pieces::push_pieces;
use cn_table::{Operation, State, Table};
use std::alloc::{AllocError, Global};

/// The picture of a table for Graphviz: a `digraph` with its states. An arrow goes from a state to
/// each state to which some operation leads, and has a line `OPERATION/RESPONSE` for each such
/// operation. All is in the order of the table. Each line of the text ends with a line feed.
///
/// # Errors
///
/// `AllocError` if memory runs out.
#[tactic(auto, unfolding(crate::specs::Diagram::diagram))]
pub fn diagram_of(alloc: Global, table: &Table) -> Result<String, AllocError>
    // promise: grid-and-picture (diagram)
    ensures { IfOk result (λ text. string_bytes text ≡ diagram table.now) }
{
    let mut text = String::new(alloc);
    push_pieces(&mut text, &["digraph \"", table.name(), "\" {\n"])?;
    push_states(&mut text, table)?;
    push_all_arrows(alloc, &mut text, table)?;
    text.push_str("}\n")?;
    Ok(text)
}

#[tactic(auto, unfolding(crate::specs::Diagram::state_dot))]
fn push_state(text: &mut String, table: &Table, state: State) -> Result<(), AllocError>
    requires { state.0 < length table.now.states }
    ensures { OnOk result (string_bytes text.new
        ≡ string_bytes text.old ++ state_dot table.now state.0) }
{
    push_pieces(text, &["  \"", table.state_name(state), "\";\n"])
}

#[tactic(auto, using(cn_pieces::proofs::Ranges::pieces_behind))]
fn push_states(text: &mut String, table: &Table) -> Result<(), AllocError>
    ensures { OnOk result (string_bytes text.new
        ≡ string_bytes text.old
        ++ flat_map (state_dot table.now) (range_with_len 0 (length table.now.states))) }
{
    for state in 0..table.states() {
        push_state(text, table, State(state))?;
    }
    Ok(())
}

#[tactic(auto, using(cn_pieces::proofs::Ranges::pieces_behind))]
fn push_all_arrows(alloc: Global, text: &mut String, table: &Table) -> Result<(), AllocError>
    ensures { OnOk result (string_bytes text.new
        ≡ string_bytes text.old
        ++ flat_map (arrows_dot table.now) (range_with_len 0 (length table.now.states))) }
{
    for from in 0..table.states() {
        push_arrows(alloc, text, table, State(from))?;
    }
    Ok(())
}

#[tactic(auto, using(cn_pieces::proofs::Ranges::pieces_behind))]
fn push_arrows(
    alloc: Global,
    text: &mut String,
    table: &Table,
    from: State,
) -> Result<(), AllocError>
    requires { from.0 < length table.now.states }
    ensures { OnOk result (string_bytes text.new
        ≡ string_bytes text.old ++ arrows_dot table.now from.0) }
{
    for next in 0..table.states() {
        push_arrow(alloc, text, table, from, State(next))?;
    }
    Ok(())
}

/// An arrow between two states, if some operation leads from the first to the second.
#[tactic(auto, unfolding(crate::specs::Diagram::arrow_dot))]
fn push_arrow(
    alloc: Global,
    text: &mut String,
    table: &Table,
    from: State,
    next: State,
) -> Result<(), AllocError>
    requires from { from.0 < length table.now.states }
    requires next { next.0 < length table.now.states }
    ensures { OnOk result (string_bytes text.new
        ≡ string_bytes text.old ++ arrow_dot table.now from.0 next.0) }
{
    let label = label_of(alloc, table, from, next)?;
    if label.is_empty() {
        return Ok(());
    }
    let (from, next) = (table.state_name(from), table.state_name(next));
    push_pieces(
        text,
        &[
            "  \"",
            from,
            "\" -> \"",
            next,
            "\" [label=\"",
            &label,
            "\"];\n",
        ],
    )
}

/// A line for each operation that leads from the first state to the second.
#[tactic(auto, using(cn_pieces::proofs::Ranges::pieces_more))]
fn label_of(alloc: Global, table: &Table, from: State, next: State) -> Result<String, AllocError>
    requires { from.0 < length table.now.states }
    ensures { IfOk result (λ label. string_bytes label ≡ label_dot table.now from.0 next.0) }
{
    let mut label = String::new(alloc);
    for operation in 0..table.operations() {
        push_line(&mut label, table, Operation(operation), from, next)?;
    }
    Ok(label)
}

#[tactic(auto, unfolding(crate::specs::Diagram::line_dot))]
fn push_line(
    label: &mut String,
    table: &Table,
    operation: Operation,
    from: State,
    next: State,
) -> Result<(), AllocError>
    requires operation { operation.0 < length table.now.operations }
    requires from { from.0 < length table.now.states }
    ensures { OnOk result (string_bytes label.new
        ≡ string_bytes label.old ++ line_dot table.now from.0 next.0 operation.0) }
{
    let (response, target) = table.apply(operation, from);
    if target.0 != next.0 {
        return Ok(());
    }
    let (operation, response) = (
        table.operation_name(operation),
        table.response_name(response),
    );
    push_pieces(label, &[operation, "/", response, "\\l"])
}
