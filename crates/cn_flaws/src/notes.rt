//! What a table has that its reader may not expect.
ghost use Rattle.std.specs.Prelude.{◌<◌, ◌↔◌, IfOk, IsTrue, length};
ghost use Rattle.cn_flaws.specs.Notes.{AnswersDiffer, AreIdle, AreNotes, AreUnreached, notes_view};

use cn_table::laws::tables_are_valid;
use cn_table::{Operation, State, Table};
use std::alloc::{AllocError, Global};

/// An operation that leads from each state to that state.
#[derive(Clone, Copy, Debug, PartialEq, Eq)]
pub struct IdleOperation {
    /// The operation.
    pub operation: Operation,
    /// Whether its responses differ in some two states. If they do, it counts where objects are not
    /// read.
    pub answers: bool,
}

/// What a table has that its reader may not expect: a table without flaws can have it.
#[derive(Drop)]
pub struct TableNotes {
    /// The operations that change nothing, in their order.
    pub idle: Vec<IdleOperation>,
    /// The states to which no operations lead from the first state, in their order.
    pub unreached: Vec<State>,
}

/// Whether the responses of an operation differ in some two states.
fn answers_differ(table: &Table, operation: Operation) -> bool
    requires { operation.0 < length table.now.operations }
    ensures { IsTrue result ↔ AnswersDiffer table.now operation.0 }
{
    let states = table.states();
    let (first, _) = table.apply(operation, State(0));
    for state in 0..states {
        let (response, _) = table.apply(operation, State(state));
        if response.0 != first.0 {
            return true;
        }
    }
    false
}

fn idle_operations(alloc: Global, table: &Table) -> Result<Vec<IdleOperation>, AllocError>
    ensures { IfOk result (λ list. AreIdle table.now list.items) }
{
    tables_are_valid(table);
    let mut idle = Vec::new(alloc);
    for number in 0..table.operations() {
        let operation = Operation(number);
        if !table.changes_nothing(operation) {
            continue;
        }
        let answers = answers_differ(table, operation);
        idle.push(IdleOperation { operation, answers })?;
    }
    Ok(idle)
}

fn unreached_states(alloc: Global, table: &Table) -> Result<Vec<State>, AllocError>
    ensures { IfOk result (λ list. AreUnreached table.now list.items) }
{
    let reached = table.reached_states();
    let mut unreached = Vec::new(alloc);
    for number in 0..table.states() {
        if reached[number as usize] {
            continue;
        }
        unreached.push(State(number))?;
    }
    Ok(unreached)
}

/// What a table has that its reader may not expect: the operations that change nothing, and the
/// states to which no operations lead from the first one.
///
/// # Errors
///
/// `AllocError` if memory runs out.
pub fn notes_of(alloc: Global, table: &Table) -> Result<TableNotes, AllocError>
    // promise: notes-of-a-table (AreNotes: AreIdle, AreUnreached)
    ensures { IfOk result (λ notes. AreNotes table.now (notes_view notes)) }
{
    Ok(TableNotes {
        idle: idle_operations(alloc, table)?,
        unreached: unreached_states(alloc, table)?,
    })
}
