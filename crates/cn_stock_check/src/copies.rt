//! Copies: operations that do in each state what an earlier one does.
ghost use Rattle.std.specs.Prelude.{◌≡◌, ◌<◌, ◌↔◌, IsTrue, length};
ghost use Rattle.cn_table.specs.TypeTable.{transition};
ghost use Rattle.cn_joins.specs.Evidence.{HasRowOfEarlier, HaveSameRows};

use cn_table::{Operation, State, Table};

/// Whether the two operations give the same response and lead to the same state.
fn do_same(table: &Table, one: Operation, other: Operation, state: State) -> bool
    requires one { one.0 < length table.now.operations }
    requires other { other.0 < length table.now.operations }
    requires state { state.0 < length table.now.states }
    ensures { IsTrue result
        ↔ (transition table.now one.0 state.0 ≡ transition table.now other.0 state.0) }
{
    let (response, next) = table.apply(one, state);
    let (other_response, other_next) = table.apply(other, state);
    response.0 == other_response.0 && next.0 == other_next.0
}

/// Whether the two operations do the same in each state.
fn have_same_rows(table: &Table, one: Operation, other: Operation) -> bool
    requires one { one.0 < length table.now.operations }
    requires other { other.0 < length table.now.operations }
    ensures { IsTrue result ↔ HaveSameRows table.now one.0 other.0 }
{
    for state in 0..table.states() {
        if !do_same(table, one, other, State(state)) {
            return false;
        }
    }
    true
}

/// Whether the operation is a copy of an earlier one.
pub(crate) fn is_copy(table: &Table, operation: Operation) -> bool
    requires { operation.0 < length table.now.operations }
    ensures { IsTrue result ↔ HasRowOfEarlier table.now operation.0 }
{
    for earlier in 0..operation.0 {
        if have_same_rows(table, Operation(earlier), operation) {
            return true;
        }
    }
    false
}
