//! Entries of a table, each with a next state for it.
ghost use Rattle.std.specs.Prelude.{◌≡◌, ◌<◌, ◌++◌, IfOk, OnOk, length};
ghost use Rattle.cn_changes.specs.Changes.{targets_in, targets_of, targets_of_operation};

use cn_table::{Operation, State, Table};
use std::alloc::{AllocError, Global};

/// An entry of a table, and a next state for it.
#[derive(Clone, Copy, Debug, PartialEq, Eq)]
pub struct Target {
    /// The operation of the entry.
    pub operation: Operation,
    /// The state of the entry.
    pub state: State,
    /// The next state to which the entry could lead.
    pub next: State,
}

/// Pushes each next state for the entry.
#[tactic(auto, using(crate::proofs::Ranges::items_behind))]
fn push_targets_in(
    targets: &mut Vec<Target>,
    table: &Table,
    operation: Operation,
    state: State,
) -> Result<(), AllocError>
    ensures { OnOk result (targets.new.items
        ≡ targets.old.items ++ targets_in table.now operation.0 state.0) }
{
    for next in 0..table.states() {
        targets.push(Target {
            operation,
            state,
            next: State(next),
        })?;
    }
    Ok(())
}

/// Pushes each next state for each entry of the operation.
#[tactic(auto, using(crate::proofs::Ranges::items_behind))]
fn push_targets_of(
    targets: &mut Vec<Target>,
    table: &Table,
    operation: Operation,
) -> Result<(), AllocError>
    ensures { OnOk result (targets.new.items
        ≡ targets.old.items ++ targets_of_operation table.now operation.0) }
{
    for state in 0..table.states() {
        push_targets_in(targets, table, operation, State(state))?;
    }
    Ok(())
}

/// Each next state for each entry of the table: by operation, by state, by next state.
#[tactic(auto, using(crate::proofs::Ranges::items_more))]
pub(crate) fn targets_of(alloc: Global, table: &Table) -> Result<Vec<Target>, AllocError>
    ensures { IfOk result (λ targets. targets.items ≡ targets_of table.now) }
{
    let mut targets = Vec::new(alloc);
    for operation in 0..table.operations() {
        push_targets_of(&mut targets, table, Operation(operation))?;
    }
    Ok(targets)
}
