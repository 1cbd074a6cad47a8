//! Up to which number of operations stocks split.
ghost use Rattle.std.specs.Prelude.{◌≡◌, ◌<◌, ◌≤◌, ◌+◌, ◌↔◌, ℕ, length, IfOk, IfSome, IsTrue};
ghost use Rattle.cn_table.specs.TypeTable.{TypeTable};
ghost use Rattle.cn_stocks.specs.declared.limits.TheConstants.{MOST_SIZE};
ghost use Rattle.cn_stocks.specs.Greatest.{NoneFrom};
ghost use Rattle.cn_stocks.specs.Splits.{SomeSplits, StockSplits};
ghost use Rattle.cn_telling.specs.Candidates.{LacksStart, SplitsFromSome};
ghost use Rattle.cn_telling.specs.Greatest.{IsExactSplit};
ghost use Rattle.cn_telling.specs.LastSearches.{IsLastSearch};
ghost use Rattle.cn_telling.specs.Levels.{IsNext, IsSearch};
ghost use Rattle.cn_telling.specs.Telling.{SomeTells};

use crate::levels::Level;
use crate::rows::rows_differ;
use crate::search::Search;
use crate::stock_splits::splits;
use cn_outcomes::bits::contains;
use cn_stocks::Threading;
use cn_stocks::stocks::Stock;
use cn_table::{MOST_OPERATIONS, Table};
use std::alloc::{AllocError, Global};
use std::thread::Threads;

/// The first operation from this one on without one of which the stock does not tell from the state.
fn missing(table: &Table, level: &Level, stock: &Stock, start: u8, from: usize) -> Option<usize>
    requires next { IsNext table.now level.now stock.now }
    requires start { start < length table.now.states }
    ensures { IfSome result (λ x. (from ≤ x) × (x < MOST_OPERATIONS)
        × LacksStart level.now stock.now start x) }
{
    let _states = table.states();
    for operation in from..MOST_OPERATIONS {
        if let Some(place) = stock.less[operation] {
            if !contains(level.starts[place as usize], start) {
                return Some(operation);
            }
        }
    }
    None
}

/// Whether the stock tells from the state with one operation less, whichever this is, except for at
/// most one, which is then a part of its own. Else the stock does not split from the state.
fn may_split(table: &Table, level: &Level, stock: &Stock, start: u8) -> bool
    requires next { IsNext table.now level.now stock.now }
    requires start { start < length table.now.states }
    ensures { 3 ≤ length stock.now.operations.items
        → StockSplits table.now start stock.now.operations.items → IsTrue result }
{
    match missing(table, level, stock, start, 0) {
        None => true,
        Some(first) => missing(table, level, stock, start, first + 1).is_none(),
    }
}

/// Whether the stock splits from the state.
fn splits_at(
    alloc: Global,
    table: &Table,
    level: &Level,
    stock: &Stock,
    start: u8,
) -> Result<bool, AllocError>
    requires next { IsNext table.now level.now stock.now }
    requires some { 3 ≤ length stock.now.operations.items }
    requires start { start < length table.now.states }
    ensures { IfOk result (λ yes. IsTrue yes
        ↔ StockSplits table.now start stock.now.operations.items) }
{
    if !may_split(table, level, stock, start) {
        return Ok(false);
    }
    splits(alloc, table, stock.operations.as_slice(), start)
}

/// Whether the stock splits from some state.
fn splits_from_some(
    alloc: Global,
    table: &Table,
    level: &Level,
    stock: &Stock,
) -> Result<bool, AllocError>
    requires next { IsNext table.now level.now stock.now }
    requires some { 3 ≤ length stock.now.operations.items }
    ensures { IfOk result (λ yes. IsTrue yes
        ↔ SplitsFromSome table.now stock.now.operations.items) }
{
    for start in 0..table.states() {
        if splits_at(alloc, table, level, stock, start)? {
            return Ok(true);
        }
    }
    Ok(false)
}

/// Whether some stock of the search splits from some state. It looks at the stocks alone whose
/// operations lead from some state to different ones: where a stock splits, one of these does.
fn some_splits(alloc: Global, table: &Table, search: &Search, n: u8) -> Result<bool, AllocError>
    requires search { IsSearch table.now n search.now }
    requires some { 3 ≤ n }
    ensures { IfOk result (λ yes. IsTrue yes ↔ SomeSplits table.now n) }
{
    let _n = n;
    for stock in &search.stocks.list {
        if !rows_differ(table, stock) {
            continue;
        }
        if splits_from_some(alloc, table, &search.below, stock)? {
            return Ok(true);
        }
    }
    Ok(false)
}

/// What is found where no stock of one operation more than so many splits.
fn split_up_to(n: u8) -> Option<u8>
    ensures { (t : TypeTable) (most : ℕ) → 2 ≤ n → n < most → (3 ≤ n → SomeSplits t n)
        → NoneFrom t (n + 1) most → IsExactSplit t most result }
{
    if n < 3 {
        return None;
    }
    Some(n)
}

/// What is found where some stock of n operations tells, and none of one operation more.
fn last_split(
    alloc: Global,
    table: &Table,
    search: &Search,
    n: u8,
) -> Result<Option<u8>, AllocError>
    requires some { 2 ≤ n }
    requires few { n < MOST_SIZE }
    requires search { IsSearch table.now (n + 1) search.now }
    requires tells { 3 ≤ n → SomeTells table.now n }
    requires none { ¬ SomeTells table.now (n + 1) }
    ensures { IfOk result (λ found. (most : ℕ) → n < most → IsExactSplit table.now most found) }
{
    if some_splits(alloc, table, search, n + 1)? {
        return Ok(Some(n + 1));
    }
    Ok(split_up_to(n))
}

/// A search that has come to where no stock tells. Only next states count in it, and no response: it
/// serves for every table with the same next states
/// ([`searches_serve_other_responses`](crate::laws::searches_serve_other_responses)).
#[derive(Drop)]
pub struct LastSearch {
    /// One operation less than the stocks have. It is 2, or some stock of so many operations tells.
    n: u8,
    search: Search,
}

/// The search of a table up to where no stock tells, if that is before the most operations. The
/// threads share the stocks.
///
/// # Errors
///
/// Where memory is short.
pub fn last_search<T: Threads + Sync>(
    rt: &T,
    alloc: Global,
    table: &Table,
    most: u8,
    threading: Threading,
) -> Result<Option<LastSearch>, AllocError>
    requires some { 3 ≤ most }
    requires few { most ≤ MOST_SIZE }
    // promise: exact-split (IsLastSearch)
    ensures { IfOk result (IsLastSearch table.now most) }
{
    let mut search = Search::new(rt, alloc, table, threading)?;
    for n in 0..most {
        search = search.next(rt, alloc, table, n, threading)?;
        if n >= 2 && !search.some_tells() {
            return Ok(Some(LastSearch { n, search }));
        }
    }
    Ok(None)
}

/// What [`exact_split`] answers of a table, by a search that serves for it.
///
/// # Errors
///
/// Where memory is short.
pub fn exact_split_by(
    alloc: Global,
    table: &Table,
    most: u8,
    last: &Option<LastSearch>,
) -> Result<Option<u8>, AllocError>
    requires some { 3 ≤ most }
    requires few { most ≤ MOST_SIZE }
    requires last { IsLastSearch table.now most last.now }
    // promise: exact-split (IsExactSplit: NoneFrom)
    ensures { IfOk result (IsExactSplit table.now most) }
{
    match last {
        Some(last) => last_split(alloc, table, &last.search, last.n),
        None => Ok(Some(most)),
    }
}

/// The greatest number of operations, from 3 to the most, of which some stock splits from some
/// state, if there is one. It is the greatest such n for which the type is n-discerning
/// ([`cn_stocks::laws::splits_decide`]). The most is from 3 to
/// [`MOST_SIZE`](cn_stocks::limits::MOST_SIZE), which is the number of the type if that is finite
/// ([`cn_stocks::lasting::laws::finite_numbers_are_few`]).
///
/// The search goes up by one operation until no stock tells. Then only stocks of the last number of
/// operations can split ([`laws::states_tell_all_but_one`](crate::laws::states_tell_all_but_one)),
/// and of these only those that tell with each operation less but one. Of the operations that lead
/// from each state to the same one a stock needs one alone
/// ([`laws::one_operation_of_a_row_is_enough`](crate::laws::one_operation_of_a_row_is_enough)).
/// [`splits`] looks at each stock that is left. The threads share the stocks of the search.
///
/// # Errors
///
/// Where memory is short.
pub fn exact_split<T: Threads + Sync>(
    rt: &T,
    alloc: Global,
    table: &Table,
    most: u8,
    threading: Threading,
) -> Result<Option<u8>, AllocError>
    requires some { 3 ≤ most }
    requires few { most ≤ MOST_SIZE }
    // promise: exact-split (IsExactSplit: NoneFrom)
    ensures { IfOk result (IsExactSplit table.now most) }
{
    let last = last_search(rt, alloc, table, most, threading)?;
    exact_split_by(alloc, table, most, &last)
}
