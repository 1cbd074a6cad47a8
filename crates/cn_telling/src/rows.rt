//! Operations that lead from each state to the same one, and stocks without two of these.
ghost use Rattle.std.specs.Prelude.{◌<◌, ◌↔◌, length, IsTrue};
ghost use Rattle.cn_telling.specs.Rows.{HasEarlier, HaveOneRow, IsOfType, RowsDiffer};

use cn_stocks::stocks::Stock;
use cn_table::{Operation, State, Table};

/// Whether the two operations lead from each state to the same one.
pub fn have_one_row(table: &Table, one: Operation, other: Operation) -> bool
    requires one { one.0 < length table.now.operations }
    requires other { other.0 < length table.now.operations }
    // promise: one-operation-of-a-row (HaveOneRow)
    ensures { IsTrue result ↔ HaveOneRow table.now one.0 other.0 }
{
    for state in 0..table.states() {
        let (_, next) = table.apply(one, State(state));
        let (_, other_next) = table.apply(other, State(state));
        if next.0 != other_next.0 {
            return false;
        }
    }
    true
}

/// Whether an operation of the stock that is below this one has the same row.
fn has_earlier(table: &Table, stock: &Stock, operation: u8) -> bool
    requires stock { IsOfType table.now stock.now }
    requires operation { operation < length table.now.operations }
    ensures { IsTrue result ↔ HasEarlier table.now stock.now.operations.items operation }
{
    let _operations = table.operations();
    for earlier in 0..operation {
        if stock.has(earlier) && have_one_row(table, Operation(earlier), Operation(operation)) {
            return true;
        }
    }
    false
}

/// Whether no two different operations of the stock have one row.
pub fn rows_differ(table: &Table, stock: &Stock) -> bool
    requires { IsOfType table.now stock.now }
    // promise: one-operation-of-a-row (RowsDiffer)
    ensures { IsTrue result ↔ RowsDiffer table.now stock.now.operations.items }
{
    for operation in 0..table.operations() {
        if stock.has(operation) && has_earlier(table, stock, operation) {
            return false;
        }
    }
    true
}
