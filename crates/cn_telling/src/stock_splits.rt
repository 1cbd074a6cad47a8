//! Whether one stock splits from one state.
ghost use Rattle.std.specs.Prelude.{◌<◌, ◌≤◌, ◌↔◌, length, IfOk, IsTrue};
ghost use Rattle.cn_stocks.specs.declared.limits.TheConstants.{MOST_SIZE};
ghost use Rattle.cn_stocks.specs.Splits.{StockSplits};
ghost use Rattle.cn_stocks.specs.Words.{IsKnown};

use crate::cells::stocks_within;
use crate::joins::joined_sets;
use crate::meetings::fall_apart;
use cn_table::Table;
use std::alloc::{AllocError, Global};

/// Whether the stock splits from the start state. It has one operation of the type or more, and at
/// most [`MOST_SIZE`](cn_stocks::limits::MOST_SIZE).
///
/// It looks at each stock within this one, of which there are at most 8,748 for 17 operations: the
/// product of the counts of its operations, each plus 1. For each of these it keeps less than a
/// kilobyte, and it goes over them once for each operation of the type.
///
/// # Errors
///
/// Where memory is short.
pub fn splits(alloc: Global, table: &Table, stock: &[u8], start: u8) -> Result<bool, AllocError>
    requires known { IsKnown (length table.now.operations) stock.now }
    requires some { 1 ≤ length stock.now }
    requires short { length stock.now ≤ MOST_SIZE }
    requires start { start < length table.now.states }
    // promise: stock-splits (StockSplits)
    ensures { IfOk result (λ yes. IsTrue yes ↔ StockSplits table.now start stock.now) }
{
    let cells = stocks_within(alloc, table.operations(), stock)?;
    let joined = joined_sets(alloc, table, cells.as_slice(), start)?;
    Ok(fall_apart(&joined, stock[0]))
}
