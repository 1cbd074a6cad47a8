//! Joins that connect the operations of a stock.
ghost use Rattle.std.specs.Prelude.{◌≡◌, ◌≤◌, ◌<◌, All, IfOk, MatchOption, OnOk, length};
ghost use Rattle.cn_joins.specs.Joins.{Connect};
ghost use Rattle.cn_stocks.specs.declared.limits.TheConstants.{MOST_SIZE};
ghost use Rattle.cn_stocks.specs.Words.{IsKnown};
ghost use Rattle.cn_join_find.specs.Crossing.{HasInside, HasOutside, IsPart};
ghost use Rattle.cn_join_find.specs.Reached.{AreMore, IsJoinFrom};
ghost use Rattle.cn_join_find.specs.Steps.{AreCells};
ghost use Rattle.cn_telling.specs.Cells.{AreCellsOf};

use crate::crossing::crossing;
use crate::reach::{covers, first_operation, reached};
use crate::steps::Cells;
use cn_joins::Join;
use cn_outcomes::bits::with;
use cn_table::Table;
use cn_telling::cells::stocks_within;
use cn_telling::shown::cell_ends;
use std::alloc::{AllocError, Global};

/// Adds joins until they connect the operations of the stock with the first one, or with those of a
/// set that no words join with the others: this set.
fn connect_within(
    alloc: Global,
    cells: &Cells<'_>,
    start: u8,
    stock: &[u8],
    joins: &mut Vec<Join>,
) -> Result<Option<u16>, AllocError>
    requires cells { AreCells cells.now }
    requires stock { AreCellsOf stock.now cells.now.stocks.now }
    requires start { start < length cells.now.table.now.states }
    requires known { IsKnown (length cells.now.table.now.operations) stock.now }
    requires some { 1 ≤ length stock.now }
    requires short { length stock.now ≤ MOST_SIZE }
    requires joins { All (IsJoinFrom cells.now.table.now start) joins.old.items }
    ensures more { OnOk result (AreMore cells.now.table.now start joins.old.items joins.new.items) }
    ensures part { IfOk result (λ found. MatchOption found
        (Connect joins.new.items start stock.now)
        (IsPart cells.now.table.now start stock.now)) }
{
    let table = cells.table;
    let _operations = table.operations();
    let first = with(0, stock[0]);
    let mut set = reached(table, start, joins.as_slice(), stock, first);
    let mut is_whole = covers(table, stock, set);
    while !is_whole {
        let found = crossing(alloc, cells, start, set)?;
        let Some(join) = found else {
            return Ok(Some(set));
        };
        let with_second = with(set, first_operation(&join.second));
        joins.push(join)?;
        set = reached(table, start, joins.as_slice(), stock, with_second);
        is_whole = covers(table, stock, set);
    }
    Ok(None)
}

/// Adds joins until they connect the operations of the stock, if they do; else a set of these that
/// no words join with the others.
pub(crate) fn connect(
    alloc: Global,
    table: &Table,
    start: u8,
    stock: &[u8],
    joins: &mut Vec<Join>,
) -> Result<Option<u16>, AllocError>
    requires start { start < length table.now.states }
    requires known { IsKnown (length table.now.operations) stock.now }
    requires some { 1 ≤ length stock.now }
    requires short { length stock.now ≤ MOST_SIZE }
    requires joins { All (IsJoinFrom table.now start) joins.old.items }
    ensures more { OnOk result (AreMore table.now start joins.old.items joins.new.items) }
    ensures part { IfOk result (λ found. MatchOption found
        (Connect joins.new.items start stock.now) (IsPart table.now start stock.now)) }
{
    let stocks = stocks_within(alloc, table.operations(), stock)?;
    let ends = cell_ends(alloc, table, stocks.as_slice())?;
    let cells = Cells {
        table,
        stocks: stocks.as_slice(),
        ends: ends.as_slice(),
    };
    connect_within(alloc, &cells, start, stock, joins)
}
