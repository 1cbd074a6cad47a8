//! Operations that change nothing.
ghost use Rattle.std.specs.Prelude.{◌<◌, ◌↔◌, IsTrue, length};
ghost use Rattle.cn_unread.specs.Views.{IsSilent};
ghost use Rattle.cn_views.specs.SilentOperations.{AreSilentOperations};

use arrayvec::ArrayVec;
use cn_table::{MOST_OPERATIONS, Operation, State, Table};

/// Whether the operation is silent: it leaves each state as it is.
pub fn is_silent(table: &Table, operation: Operation) -> bool
    requires { operation.0 < length table.now.operations }
    // promise: looks
    ensures { IsTrue result ↔ IsSilent table.now operation.0 }
{
    for state in 0..table.states() {
        let (_, next) = table.apply(operation, State(state));
        if next.0 != state {
            return false;
        }
    }
    true
}

/// The silent operations of the table, ascending.
pub fn silent_operations(table: &Table) -> ArrayVec<u8, MOST_OPERATIONS>
    // promise: looks (AreSilentOperations)
    ensures { AreSilentOperations table.now result.items }
{
    let mut silent = ArrayVec::new();
    for operation in 0..table.operations() {
        if is_silent(table, Operation(operation)) {
            silent.push(operation);
        }
    }
    silent
}
