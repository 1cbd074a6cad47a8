//! Which operations are copies of earlier ones, and the table without them.
ghost use Rattle.std.specs.Prelude.{◌≡◌, ◌<◌, ◌↔◌, IfOk, IsTrue, length, map};
ghost use Rattle.cn_table.specs.Restriction.{with_operations};
ghost use Rattle.cn_copies.specs.Copies.{AreCopies, AreFirst, IsCopy, IsWithoutCopies};

use cn_table::{Operation, State, Table};
use std::alloc::{AllocError, Global};

/// Whether the two operations do the same in each state.
fn are_copies(table: &Table, one: Operation, other: Operation) -> bool
    requires one { one.0 < length table.now.operations }
    requires other { other.0 < length table.now.operations }
    ensures { IsTrue result ↔ AreCopies table.now one.0 other.0 }
{
    for state in 0..table.states() {
        let (response, next) = table.apply(one, State(state));
        let (other_response, other_next) = table.apply(other, State(state));
        if response.0 != other_response.0 || next.0 != other_next.0 {
            return false;
        }
    }
    true
}

/// Whether an earlier operation does the same in each state.
fn is_copy(table: &Table, operation: Operation) -> bool
    requires { operation.0 < length table.now.operations }
    ensures { IsTrue result ↔ IsCopy table.now operation.0 }
{
    for earlier in 0..operation.0 {
        if are_copies(table, Operation(earlier), operation) {
            return true;
        }
    }
    false
}

/// The operations that are no copies of earlier ones, in their order.
///
/// # Errors
///
/// `AllocError` if memory runs out.
pub fn first_operations(alloc: Global, table: &Table) -> Result<Vec<Operation>, AllocError>
    // promise: copies (AreFirst)
    ensures { IfOk result (λ list. AreFirst table.now (map (λ o. o.0) list.items)) }
{
    let mut list = Vec::new(alloc);
    for number in 0..table.operations() {
        let operation = Operation(number);
        if is_copy(table, operation) {
            continue;
        }
        list.push(operation)?;
    }
    Ok(list)
}

/// The table with its first operations of each kind alone, in their order: all else is the same.
///
/// # Errors
///
/// `AllocError` if memory runs out.
pub fn without_copies(alloc: Global, table: &Table) -> Result<Table, AllocError>
    // promise: copies (IsWithoutCopies: AreFirst, with_operations)
    ensures { IfOk result (IsWithoutCopies table.now) }
{
    let list = first_operations(alloc, table)?;
    table.with_operations(alloc, list.as_slice())
}
