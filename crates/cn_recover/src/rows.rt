//! The table with one operation of those that lead from each state to the same one.
ghost use Rattle.std.specs.Prelude.{◌<◌, ◌↔◌, All, IfOk, IsTrue, length, map};
ghost use Rattle.cn_recover.specs.Rows.{AreOfEachRow, HasRowOf, IsByRows};

use cn_table::{Operation, Table};
use cn_telling::rows::have_one_row;
use std::alloc::{AllocError, Global};

/// Whether the operation has the row of one of these.
fn has_row_of(table: &Table, operations: &[Operation], operation: Operation) -> bool
    requires operations { All (λ o. o.0 < length table.now.operations) operations.now }
    requires operation { operation.0 < length table.now.operations }
    ensures { IsTrue result ↔ HasRowOf table.now (map (λ o. o.0) operations.now) operation.0 }
{
    for earlier in operations {
        if have_one_row(table, operation, *earlier) {
            return true;
        }
    }
    false
}

/// The first operation of each row, in their order.
fn one_of_each_row(alloc: Global, table: &Table) -> Result<Vec<Operation>, AllocError>
    ensures { IfOk result (λ list. AreOfEachRow table.now (map (λ o. o.0) list.items)) }
{
    let mut list = Vec::new(alloc);
    for number in 0..table.operations() {
        let operation = Operation(number);
        if has_row_of(table, &list, operation) {
            continue;
        }
        list.push(operation)?;
    }
    Ok(list)
}

/// The table with one operation of each row alone: all else is the same.
pub(crate) fn by_rows(alloc: Global, table: &Table) -> Result<Table, AllocError>
    // promise: recording-by-rows (IsByRows: AreOfEachRow, with_operations)
    ensures { IfOk result (IsByRows table.now) }
{
    let list = one_of_each_row(alloc, table)?;
    table.with_operations(alloc, list.as_slice())
}
