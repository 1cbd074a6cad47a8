//! The pairs of operations that do not interfere in some state.
ghost use Rattle.std.specs.Prelude.{◌<◌, ◌+◌, IfOk, OnOk, length};
ghost use Rattle.cn_interference.specs.Pairs.{ArePairsApart, ArePairsBelow};

use crate::interference::are_apart;
use cn_table::{Operation, Table};
use std::alloc::{AllocError, Global};

/// Two operations of a table, the one with the lesser number first.
#[derive(Clone, Copy, Debug, PartialEq, Eq)]
pub struct OperationPair {
    /// The one with the lesser number.
    pub first: Operation,
    /// The one with the greater number.
    pub second: Operation,
}

/// Pushes the pairs of this operation with those of greater numbers.
fn push_pairs(
    pairs: &mut Vec<OperationPair>,
    table: &Table,
    first: Operation,
) -> Result<(), AllocError>
    requires first { first.0 < length table.now.operations }
    requires before { ArePairsBelow table.now first.0 0 pairs.old.items }
    ensures { OnOk result (ArePairsBelow table.now (first.0 + 1) 0 pairs.new.items) }
{
    let operations = table.operations();
    for second in first.0 + 1..operations {
        let second = Operation(second);
        if are_apart(table, first, second) {
            pairs.push(OperationPair { first, second })?;
        }
    }
    Ok(())
}

/// The pairs of operations that do not interfere in some state: none twice, by the number of the
/// first operation and then by that of the second. There are at most 28.
///
/// # Errors
///
/// `AllocError` if memory runs out.
pub fn pairs_apart(alloc: Global, table: &Table) -> Result<Vec<OperationPair>, AllocError>
    // promise: interference (ArePairsApart: listed, ascending)
    ensures { IfOk result (λ pairs. ArePairsApart table.now pairs.items) }
{
    let mut pairs = Vec::new(alloc);
    for first in 0..table.operations() {
        push_pairs(&mut pairs, table, Operation(first))?;
    }
    Ok(pairs)
}
