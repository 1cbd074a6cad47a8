//! Which stocks are not known to be connected.
ghost use Rattle.std.specs.Prelude.{◌≡◌, ◌≤◌, ◌<◌, ℕ, List, All, IfOk, IfSome, IsTrue, MatchOption, OnOk, false, length};
ghost use Rattle.cn_joins.specs.Joins.{Connect, Join};
ghost use Rattle.cn_table.specs.TypeTable.{TypeTable};
ghost use Rattle.cn_join_find.specs.Crossing.{IsPart};
ghost use Rattle.cn_join_find.specs.Marks.{IsAbove, IsConnectedWithout};
ghost use Rattle.cn_join_find.specs.Reached.{AreMore, IsJoinFrom};
ghost use Rattle.cn_table.specs.declared.limits.TheConstants.{MOST_OPERATIONS};

use crate::connect::connect;
use crate::reach::count;
use cn_joins::Join;
use cn_stocks::stocks::Stock;
use cn_table::{MOST_OPERATIONS, Table};
use std::alloc::{AllocError, Global};

/// The stocks of one operation less, and a mark for each of them: false where joins are known to
/// connect its operations, or its rows do not differ.
#[derive(Clone, Copy)]
pub(crate) struct Below<'s> {
    pub stocks: &'s [Stock],
    pub marks: &'s [bool],
}

/// The first operation from this one on without one of which joins connect the stock.
fn connected_without(below: &Below<'_>, stock: &Stock, from: usize) -> Option<usize>
    requires { (t : TypeTable) × ((start : ℕ) × ((joins : List Join)
        × IsAbove t start joins below.now stock.now)) }
    ensures range { IfSome result (λ x. (from ≤ x) × (x < MOST_OPERATIONS)) }
    ensures connected { (t : TypeTable) (start : ℕ) (joins : List Join)
        → IsAbove t start joins below.now stock.now
        → IfSome result (IsConnectedWithout joins start stock.now.operations.items) }
{
    let marks = below.marks;
    for operation in from..MOST_OPERATIONS {
        if let Some(place) = stock.less[operation] {
            let is_marked = marks[place as usize];
            if !is_marked {
                return Some(operation);
            }
        }
    }
    None
}

/// Whether smaller stocks connect the operations of this one: two of them, or one that has all its
/// operations.
fn is_connected(below: &Below<'_>, stock: &Stock) -> bool
    requires { (t : TypeTable) × ((start : ℕ) × ((joins : List Join)
        × IsAbove t start joins below.now stock.now)) }
    ensures { (t : TypeTable) (start : ℕ) (joins : List Join)
        → IsAbove t start joins below.now stock.now → IsTrue result
        → Connect joins start stock.now.operations.items }
{
    let operations = stock.operations.as_slice();
    if operations.len() < 3 {
        return false;
    }
    let Some(first) = connected_without(below, stock, 0) else {
        return false;
    };
    if count(operations, first as u8) >= 2 {
        return true;
    }
    let Some(_second) = connected_without(below, stock, first + 1) else {
        return false;
    };
    true
}

/// Adds joins that connect the operations of the stock, and answers whether they may not. Of a
/// stock that tells there are none that do.
pub(crate) fn is_left(
    alloc: Global,
    table: &Table,
    start: u8,
    below: &Below<'_>,
    stock: &Stock,
    tells: bool,
    joins: &mut Vec<Join>,
) -> Result<bool, AllocError>
    requires above { IsAbove table.now start joins.old.items below.now stock.now }
    requires some { 1 ≤ length stock.now.operations.items }
    requires start { start < length table.now.states }
    requires joins { All (IsJoinFrom table.now start) joins.old.items }
    ensures more { OnOk result (AreMore table.now start joins.old.items joins.new.items) }
    ensures connected { IfOk result (λ mark. mark ≡ false
        → Connect joins.new.items start stock.now.operations.items) }
{
    if is_connected(below, stock) {
        return Ok(false);
    }
    if tells {
        return Ok(true);
    }
    let found = connect(alloc, table, start, stock.operations.as_slice(), joins)?;
    match found {
        Some(_set) => Ok(true),
        None => Ok(false),
    }
}

/// Adds joins that connect the operations of the stock, if there are such; else answers a set of
/// these that no words join with the others.
pub(crate) fn part_of(
    alloc: Global,
    table: &Table,
    start: u8,
    below: &Below<'_>,
    stock: &Stock,
    joins: &mut Vec<Join>,
) -> Result<Option<u16>, AllocError>
    requires above { IsAbove table.now start joins.old.items below.now stock.now }
    requires some { 1 ≤ length stock.now.operations.items }
    requires start { start < length table.now.states }
    requires joins { All (IsJoinFrom table.now start) joins.old.items }
    ensures more { OnOk result (AreMore table.now start joins.old.items joins.new.items) }
    ensures part { IfOk result (λ found. MatchOption found
        (Connect joins.new.items start stock.now.operations.items)
        (IsPart table.now start stock.now.operations.items)) }
{
    if is_connected(below, stock) {
        return Ok(None);
    }
    connect(alloc, table, start, stock.operations.as_slice(), joins)
}
