//! Whether joins connect all stocks of one number of operations that must be connected.
ghost use Rattle.std.specs.Prelude.{◌<◌, ◌≤◌, ◌+◌, ◌↔◌, ℕ, List, All, IfNone, IfOk, IfSome, IsTrue, length};
ghost use Rattle.cn_table.specs.declared.limits.TheConstants.{MOST_OPERATIONS, MOST_STATES};
ghost use Rattle.cn_joins.specs.Evidence.{ConnectAll};
ghost use Rattle.cn_joins.specs.Joins.{IsJoin, Join};
ghost use Rattle.cn_stock_check.specs.Faults.{IsLeftOpen};
ghost use Rattle.cn_stock_check.specs.Needs.{AreKnown, AreNeedsOf, ConnectFrom, ConnectWith, HasCounts, IsBegun, IsLeftOut};

use crate::copies::is_copy;
use crate::needs::{Counts, Need, met_by, needs_of};
use crate::parts::are_connected;
use crate::rows::has_earlier;
use cn_joins::Join;
use cn_table::laws::tables_are_valid;
use cn_table::{MOST_OPERATIONS, Operation, Table};
use std::alloc::{AllocError, Global};

/// Whether stocks with the operation beside the counted ones need not be connected: it is a copy, or
/// leads from each state to the same one as an earlier one of these.
fn is_left_out(table: &Table, counts: &Counts, operation: Operation) -> bool
    requires { operation.0 < length table.now.operations }
    ensures { (stock : List ℕ) → HasCounts counts.now stock
        → IsTrue result ↔ IsLeftOut table.now stock operation.0 }
{
    if is_copy(table, operation) {
        return true;
    }
    has_earlier(table, counts, operation)
}

/// Whether each stock is connected that must be, and has so many more operations than the counts, from
/// the next one on. No need wants more of an earlier operation than is counted.
fn all_connected(
    alloc: Global,
    table: &Table,
    needs: &[Need],
    counts: Counts,
    next: u8,
    more: u8,
) -> Result<bool, AllocError>
    requires needs { AreKnown needs.now }
    requires next { next < length table.now.operations }
    requires room { All (λ count. count + more ≤ MOST_STATES + 1) counts }
    ensures { IfOk result (λ yes. (joins : List Join) (start : ℕ) (stock : List ℕ)
        → AreNeedsOf joins start next stock needs.now → IsBegun table.now next counts stock
        → IsTrue yes
        ↔ ConnectWith table.now joins start stock next (length table.now.operations) more) }
{
    if more == 0 {
        return Ok(are_connected(needs, &counts));
    }
    tables_are_valid(table);
    if !is_left_out(table, &counts, Operation(next)) {
        let mut with_next = counts;
        with_next[next as usize] += 1;
        let with_it = all_connected(alloc, table, needs, with_next, next, more - 1)?;
        if !with_it {
            return Ok(false);
        }
    }
    if next + 1 == table.operations() {
        return Ok(true);
    }
    let met = met_by(alloc, needs, next, counts[next as usize])?;
    all_connected(alloc, table, met.as_slice(), counts, next + 1, more)
}

/// Whether the joins connect each stock of n operations that must be connected, from the state.
fn connect_from(
    alloc: Global,
    table: &Table,
    n: u8,
    joins: &[Join],
    start: u8,
) -> Result<bool, AllocError>
    requires few { n ≤ MOST_STATES + 1 }
    requires joins { All (IsJoin table.now) joins.now }
    ensures { IfOk result (λ yes. IsTrue yes ↔ ConnectFrom table.now n joins.now start) }
{
    tables_are_valid(table);
    let needs = needs_of(alloc, joins, start)?;
    all_connected(alloc, table, needs.as_slice(), [0; MOST_OPERATIONS], 0, n)
}

/// The first state from which the joins do not connect each stock of n operations that must be
/// connected, if there is one.
pub(crate) fn first_open(
    alloc: Global,
    table: &Table,
    n: u8,
    joins: &[Join],
) -> Result<Option<u8>, AllocError>
    requires few { n ≤ MOST_STATES + 1 }
    requires joins { All (IsJoin table.now) joins.now }
    ensures none { IfOk result (λ found. IfNone found (ConnectAll table.now n joins.now)) }
    ensures left { IfOk result (λ found. IfSome found (IsLeftOpen table.now n joins.now)) }
    ensures first { IfOk result (λ found. IfSome found (λ q. (start : ℕ) → start < q
        → ConnectFrom table.now n joins.now start)) }
{
    for start in 0..table.states() {
        let all = connect_from(alloc, table, n, joins, start)?;
        if !all {
            return Ok(Some(start));
        }
    }
    Ok(None)
}
