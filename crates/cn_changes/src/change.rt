//! Changes of a table.
ghost use Rattle.std.specs.Prelude.{◌≡◌, ◌++◌, All, IfOk, OnOk, flat_map};
ghost use Rattle.cn_changes.specs.Changes.{IsChange, IsTarget, change_if_other, changes_of, changes_to, is_other, with_change};

use crate::targets::{Target, targets_of};
use cn_table::{Response, Table};
use std::alloc::{AllocError, Global};

/// A change of a table: one of its entries leads to this next state, and gives this response.
#[derive(Clone, Copy, Debug, PartialEq, Eq)]
pub struct Change {
    /// The entry, and the next state to which it leads.
    pub target: Target,
    /// The response that it gives.
    pub response: Response,
}

impl Change {
    /// The table with the change.
    pub(crate) fn table(self, alloc: Global, table: &Table) -> Result<Table, AllocError>
        requires { IsChange table.now self }
        ensures { IfOk result (λ changed. changed ≡ with_change table.now self) }
    {
        let Target {
            operation,
            state,
            next,
        } = self.target;
        table.with_entry(alloc, operation, state, self.response, next)
    }
}

/// Whether the entry of the table is another one than with this next state and this response.
pub(crate) fn is_other(table: &Table, target: Target, response: Response) -> bool
    requires { IsTarget table.now target }
    ensures { result ≡ is_other table.now target response.0 }
{
    let (own, next) = table.apply(target.operation, target.state);
    !(own.0 == response.0 && next.0 == target.next.0)
}

/// Pushes the change to this response, if the entry of the table is another one.
fn push_change(
    changes: &mut Vec<Change>,
    table: &Table,
    target: Target,
    response: Response,
) -> Result<(), AllocError>
    requires { IsTarget table.now target }
    ensures { OnOk result (changes.new.items
        ≡ changes.old.items ++ change_if_other table.now target response.0) }
{
    if is_other(table, target, response) {
        changes.push(Change { target, response })?;
    }
    Ok(())
}

/// Pushes the changes of an entry to one next state.
#[tactic(auto, using(crate::proofs::Ranges::items_behind))]
fn push_changes_to(
    changes: &mut Vec<Change>,
    table: &Table,
    target: Target,
) -> Result<(), AllocError>
    requires { IsTarget table.now target }
    ensures { OnOk result (changes.new.items ≡ changes.old.items ++ changes_to table.now target) }
{
    for response in 0..table.responses() {
        push_change(changes, table, target, Response(response))?;
    }
    Ok(())
}

/// The changes of an entry to one next state, by response.
pub(crate) fn changes_to(
    alloc: Global,
    table: &Table,
    target: Target,
) -> Result<Vec<Change>, AllocError>
    requires { IsTarget table.now target }
    ensures { IfOk result (λ changes. changes.items ≡ changes_to table.now target) }
{
    let mut changes = Vec::new(alloc);
    push_changes_to(&mut changes, table, target)?;
    Ok(changes)
}

/// Pushes the changes of these entries to these next states.
fn push_all_changes(
    changes: &mut Vec<Change>,
    table: &Table,
    targets: &[Target],
) -> Result<(), AllocError>
    requires { All (IsTarget table.now) targets.now }
    ensures { OnOk result (changes.new.items
        ≡ changes.old.items ++ flat_map (changes_to table.now) targets.now) }
{
    for target in targets {
        push_changes_to(changes, table, *target)?;
    }
    Ok(())
}

/// The changes of a table: by operation, by state, by next state, by response.
pub(crate) fn all_changes(alloc: Global, table: &Table) -> Result<Vec<Change>, AllocError>
    ensures { IfOk result (λ changes. changes.items ≡ changes_of table.now) }
{
    let targets = targets_of(alloc, table)?;
    let mut changes = Vec::new(alloc);
    push_all_changes(&mut changes, table, targets.as_slice())?;
    Ok(changes)
}
