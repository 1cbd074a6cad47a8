//! Operations that lead from each state to the same one.
ghost use Rattle.std.specs.Prelude.{◌<◌, ◌↔◌, ℕ, List, IsTrue, length};
ghost use Rattle.cn_stock_check.specs.Needs.{HasCounts};
ghost use Rattle.cn_telling.specs.Rows.{HasEarlier, HaveOneRow};

use crate::needs::Counts;
use cn_table::{Operation, State, Table};

/// Whether the two operations lead from each state to the same one.
fn have_one_row(table: &Table, one: Operation, other: Operation) -> bool
    requires one { one.0 < length table.now.operations }
    requires other { other.0 < length table.now.operations }
    ensures { IsTrue result ↔ HaveOneRow table.now one.0 other.0 }
{
    for state in 0..table.states() {
        let (_, next) = table.apply(one, State(state));
        let (_, other_next) = table.apply(other, State(state));
        if next.0 != other_next.0 {
            return false;
        }
    }
    true
}

/// Whether an earlier operation that is counted leads from each state to the same one.
pub(crate) fn has_earlier(table: &Table, counts: &Counts, operation: Operation) -> bool
    requires { operation.0 < length table.now.operations }
    ensures { (stock : List ℕ) → HasCounts counts.now stock
        → IsTrue result ↔ HasEarlier table.now stock operation.0 }
{
    let _operations = table.operations();
    for earlier in 0..operation.0 {
        if counts[earlier as usize] > 0 && have_one_row(table, Operation(earlier), operation) {
            return true;
        }
    }
    false
}
