//! Witnesses from stocks that are likely to split.
ghost use Rattle.std.specs.Prelude.{◌≤◌, IfOk, IfSome, length};
ghost use Rattle.cn_stocks.specs.Words.{IsKnown};
ghost use Rattle.cn_stocks.specs.declared.limits.TheConstants.{MOST_SIZE};
ghost use Rattle.cn_telling.specs.Levels.{IsNext, IsSearch};
ghost use Rattle.cn_join_find.specs.Marks.{IsWitnessFor};

use crate::connect::connect;
use crate::split::{Split, split_by};
use cn_outcomes::bits::contains;
use cn_stocks::Threading;
use cn_stocks::stocks::Stock;
use cn_table::{MOST_OPERATIONS, Table};
use cn_telling::levels::Level;
use cn_telling::search::Search;
use std::alloc::{AllocError, Global};
use std::thread::Threads;

/// The states from which the stock tells with one operation less, whichever this is, except for at
/// most one. From the other states a stock of three operations or more does not split.
fn likely_starts(table: &Table, below: &Level, stock: &Stock) -> u16
    requires { IsNext table.now below.now stock.now }
{
    let _states = table.states();
    let starts = below.starts.as_slice();
    let (mut once, mut twice) = (0u16, 0u16);
    for operation in 0..MOST_OPERATIONS {
        if let Some(place) = stock.less[operation] {
            let others = !starts[place as usize];
            twice |= once & others;
            once |= others;
        }
    }
    !twice
}

/// A witness from the stock, if it splits from one of these states.
fn split_from(
    alloc: Global,
    table: &Table,
    stock: &Stock,
    starts: u16,
) -> Result<Option<Split>, AllocError>
    requires known { IsKnown (length table.now.operations) stock.now.operations.items }
    requires some { 1 ≤ length stock.now.operations.items }
    ensures { IfOk result (λ found. IfSome found
        (IsWitnessFor table.now (length stock.now.operations.items))) }
{
    let operations = stock.operations.as_slice();
    for start in 0..table.states() {
        if !contains(starts, start) {
            continue;
        }
        let mut joins = Vec::new(alloc);
        let found = connect(alloc, table, start, operations, &mut joins)?;
        if let Some(set) = found {
            let split = split_by(alloc, table, start, operations, set)?;
            return Ok(Some(split));
        }
    }
    Ok(None)
}

/// A witness from a stock of the search, if one splits that is likely to.
fn some_split(
    alloc: Global,
    table: &Table,
    search: &Search,
    n: u8,
) -> Result<Option<Split>, AllocError>
    requires search { IsSearch table.now n search.now }
    requires some { 1 ≤ n }
    ensures { IfOk result (λ found. IfSome found (IsWitnessFor table.now n)) }
{
    let _n = n;
    for stock in &search.stocks.list {
        let starts = likely_starts(table, &search.below, stock);
        let found = split_from(alloc, table, stock, starts)?;
        if let Some(split) = found {
            return Ok(Some(split));
        }
    }
    Ok(None)
}

/// A witness from a stock of n operations, if one splits that is likely to.
pub(crate) fn likely_split<T: Threads + Sync>(
    rt: &T,
    alloc: Global,
    table: &Table,
    n: u8,
    threading: Threading,
) -> Result<Option<Split>, AllocError>
    requires some { 1 ≤ n }
    requires few { n ≤ MOST_SIZE }
    ensures { IfOk result (λ found. IfSome found (IsWitnessFor table.now n)) }
{
    let mut search = Search::new(rt, alloc, table, threading)?;
    for size in 0..n {
        search = search.next(rt, alloc, table, size, threading)?;
    }
    some_split(alloc, table, &search, n)
}
