//! Whether some operation notices itself.
ghost use Rattle.std.specs.Prelude.{◌≡◌, ◌<◌, ◌↔◌, ℕ, IsTrue, length};
ghost use Rattle.cn_joins.specs.Evidence.{NoticesItself, SomeNotices};

use cn_table::{Operation, State, Table};

/// Whether the operation, done twice in a row from the state, gives another response the second
/// time.
fn notices_itself(table: &Table, start: State, operation: Operation) -> bool
    requires start { start.0 < length table.now.states }
    requires operation { operation.0 < length table.now.operations }
    ensures { IsTrue result ↔ NoticesItself table.now start.0 operation.0 }
{
    let (response, next) = table.apply(operation, start);
    let (again, _) = table.apply(operation, next);
    response.0 != again.0
}

/// Whether some operation notices itself from the state.
fn some_notices_from(table: &Table, start: State) -> bool
    requires { start.0 < length table.now.states }
    ensures { IsTrue result ↔ ((o : ℕ) × (o < length table.now.operations)
        × NoticesItself table.now start.0 o) }
{
    for operation in 0..table.operations() {
        if notices_itself(table, start, Operation(operation)) {
            return true;
        }
    }
    false
}

/// Whether some operation notices itself from some state.
pub(crate) fn some_notices(table: &Table) -> bool
    ensures { IsTrue result ↔ SomeNotices table.now }
{
    for start in 0..table.states() {
        if some_notices_from(table, State(start)) {
            return true;
        }
    }
    false
}
