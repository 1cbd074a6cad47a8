//! Tables with some of their operations.
ghost use Rattle.std.specs.Prelude.{◌≡◌, ◌<◌, ℕ, All, IfOk, List, length, map, slice_index_or};
ghost use Rattle.cn_table.specs.Restriction.{AreOperations, with_operations};
ghost use Rattle.cn_table.specs.TableView.{transitions_view, transitions_views};
ghost use Rattle.cn_table.specs.TypeTable.{IsTypeTable, TypeTable, no_row};

use crate::elements::Operation;
use crate::table::{Table, Transitions};
use std::alloc::{AllocError, Global};

fn row_of(alloc: Global, row: &Transitions) -> Result<Transitions, AllocError>
    ensures { IfOk result (λ copy. transitions_view copy ≡ transitions_view row.now) }
{
    Ok(Transitions {
        name: String::from_str(alloc, row.name.as_str())?,
        response: row.response.to_vec(alloc)?,
        next: row.next.to_vec(alloc)?,
    })
}

/// Copies of the rows of these operations, in this order.
fn rows_of(
    alloc: Global,
    rows: &[Transitions],
    operations: &[Operation],
) -> Result<Vec<Transitions>, AllocError>
    requires { All (λ o. o.0 < length rows.now) operations.now }
    ensures { IfOk result (λ copy. transitions_views copy
        ≡ map (λ o. slice_index_or (map transitions_view rows.now) o.0 no_row) operations.now) }
{
    let mut copy = Vec::new(alloc);
    for operation in operations {
        let row = row_of(alloc, &rows[operation.0 as usize])?;
        copy.push(row)?;
    }
    Ok(copy)
}

impl Table {
    /// The table with these operations alone: the name, the states, the responses and what each of
    /// the operations does are the same.
    ///
    /// # Errors
    ///
    /// `AllocError` if memory runs out.
    pub fn with_operations(
        &self,
        alloc: Global,
        operations: &[Operation],
    ) -> Result<Table, AllocError>
        requires { AreOperations self.now (map (λ o. o.0) operations.now) }
        // promise: parts-of-a-table (with_operations)
        ensures { IfOk result (λ table. table
            ≡ with_operations self.now (map (λ o. o.0) operations.now)) }
    {
        restriction_is_a_table();
        let mut table = self.copy(alloc)?;
        table.operations = rows_of(alloc, &self.operations, operations)?;
        Ok(table)
    }
}

/// The restriction of a type table to some of its operations is a type table.
pub fn restriction_is_a_table()
    // promise: parts-of-a-table
    ensures { (t : TypeTable) (operations : List ℕ) → IsTypeTable t → AreOperations t operations
        → IsTypeTable (with_operations t operations) }
{}
