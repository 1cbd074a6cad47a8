//! Up to which number of operations stocks tell.
ghost use Rattle.std.specs.Prelude.{◌≤◌, ◌+◌, IfOk};
ghost use Rattle.cn_stocks.specs.declared.limits.TheConstants.{MOST_SIZE};
ghost use Rattle.cn_telling.specs.Greatest.{IsGreatestTold};

use crate::search::Search;
use cn_stocks::Threading;
use cn_table::Table;
use std::alloc::{AllocError, Global};
use std::thread::Threads;

/// The greatest number of operations, from 2 to the most, of which some stock tells from some
/// state, if there is one. The most is from 2 to [`MOST_SIZE`](cn_stocks::limits::MOST_SIZE): a
/// type that is not n-discerning for every n has no stock that tells of more operations than it has
/// states, and no more than 2.
///
/// The search goes up by one operation until no stock tells. The threads share the stocks.
///
/// # Errors
///
/// Where memory is short.
pub fn greatest_told<T: Threads + Sync>(
    rt: &T,
    alloc: Global,
    table: &Table,
    most: u8,
    threading: Threading,
) -> Result<Option<u8>, AllocError>
    requires some { 2 ≤ most }
    requires few { most ≤ MOST_SIZE }
    // promise: greatest-told (IsGreatestTold: SomeTells)
    ensures { IfOk result (IsGreatestTold table.now most) }
{
    let none = Search::new(rt, alloc, table, threading)?;
    let mut search = none.next(rt, alloc, table, 0, threading)?;
    let mut greatest = None;
    for n in 1..most {
        search = search.next(rt, alloc, table, n, threading)?;
        if !search.some_tells() {
            return Ok(greatest);
        }
        greatest = Some(n + 1);
    }
    Ok(greatest)
}
