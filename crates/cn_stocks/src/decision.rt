//! Whether a type is n-discerning, and up to which number of operations stocks record.
ghost use Rattle.std.specs.Prelude.{◌≤◌, ◌↔◌, IfOk, IsTrue};
ghost use Rattle.cn_choice.specs.Discerning.{IsDiscerning};
ghost use Rattle.cn_choice.specs.declared.limits.TheConstants.{MOST_PROCESSES};
ghost use Rattle.cn_stocks.specs.declared.limits.TheConstants.{MOST_SIZE};
ghost use Rattle.cn_stocks.specs.Greatest.{IsGreatestRecord};
ghost use Rattle.cn_stocks.specs.Splits.{AreSplittingStarts};

use crate::laws;
use crate::question::Question;
use crate::search::Search;
use crate::threading::Threading;
use cn_table::Table;
use std::alloc::{AllocError, Global};
use std::thread::Threads;

/// Whether the type is n-discerning, for n of at least 3: whether some list of n operations splits
/// from some state ([`laws::splits_decide`]). The search goes up by one operation until no stock
/// splits. The threads share the stocks.
///
/// # Errors
///
/// Where memory is short.
pub fn is_discerning<T: Threads + Sync>(
    rt: &T,
    alloc: Global,
    table: &Table,
    n: u8,
    threading: Threading,
) -> Result<bool, AllocError>
    requires some { 3 ≤ n }
    requires few { n ≤ MOST_PROCESSES }
    // promise: stocks (IsDiscerning)
    ensures { IfOk result (λ yes. IsTrue yes ↔ IsDiscerning table.now n) }
{
    laws::splits_decide();
    let mut search = Search::new(rt, alloc, Question::Splitting, table, threading)?;
    for size in 0..n {
        search = search.next(rt, alloc, table, size, threading)?;
        if size >= 2 && !search.some_holds() {
            return Ok(false);
        }
    }
    Ok(true)
}

/// The states from which some stock of n operations splits, as a set of their numbers. n is at most
/// [`MOST_SIZE`](crate::limits::MOST_SIZE). For n of at least 3 the start state of each witness for
/// n processes is one of them ([`laws::starts_of_witnesses`]). The threads share the stocks.
///
/// # Errors
///
/// Where memory is short.
pub fn splitting_starts<T: Threads + Sync>(
    rt: &T,
    alloc: Global,
    table: &Table,
    n: u8,
    threading: Threading,
) -> Result<u16, AllocError>
    requires few { n ≤ MOST_SIZE }
    // promise: stocks (AreSplittingStarts)
    ensures { IfOk result (AreSplittingStarts table.now n) }
{
    let mut search = Search::new(rt, alloc, Question::Splitting, table, threading)?;
    for size in 0..n {
        search = search.next(rt, alloc, table, size, threading)?;
    }
    Ok(search.starts_of_some())
}

/// The greatest number of operations, from 2 to the most, of which some stock records from some
/// state, if there is one. The most is from 2 to [`MOST_SIZE`](crate::limits::MOST_SIZE).
///
/// The search goes up by one operation until no stock records. The threads share the stocks.
///
/// # Errors
///
/// Where memory is short.
pub fn greatest_record<T: Threads + Sync>(
    rt: &T,
    alloc: Global,
    table: &Table,
    most: u8,
    threading: Threading,
) -> Result<Option<u8>, AllocError>
    requires some { 2 ≤ most }
    requires few { most ≤ MOST_SIZE }
    // promise: stocks (IsGreatestRecord)
    ensures { IfOk result (IsGreatestRecord table.now most) }
{
    let none = Search::new(rt, alloc, Question::Recording, table, threading)?;
    let mut search = none.next(rt, alloc, table, 0, threading)?;
    let mut greatest = None;
    for n in 1..most {
        search = search.next(rt, alloc, table, n, threading)?;
        if !search.some_holds() {
            return Ok(greatest);
        }
        greatest = Some(n + 1);
    }
    Ok(greatest)
}
