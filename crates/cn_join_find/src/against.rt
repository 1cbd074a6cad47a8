//! Joins that are evidence that a type is not n-discerning, or a witness that it is.
ghost use Rattle.std.specs.Prelude.{◌≡◌, ◌≢◌, ◌≤◌, ◌<◌, ◌↔◌, ℕ, All, IfOk, IsTrue, MatchOption, OnOk, Some, false, length, map, slice_get, true};
ghost use Rattle.cn_choice.specs.Discerning.{IsDiscerning};
ghost use Rattle.cn_copies.specs.Copies.{AreFirst};
ghost use Rattle.cn_joins.specs.Evidence.{ConnectAll, IsEvidenceAgainst, SomeNotices};
ghost use Rattle.cn_joins.specs.Joins.{IsJoin};
ghost use Rattle.cn_stocks.specs.declared.limits.TheConstants.{MOST_SIZE};
ghost use Rattle.cn_telling.specs.Levels.{IsSearch};
ghost use Rattle.cn_join_find.specs.Marks.{AreMarked, ConnectEach, IsWitnessFor};
ghost use Rattle.cn_join_find.specs.Reached.{AreMore, ConnectFrom, IsJoinFrom};

use crate::likely::likely_split;
use crate::marks::{Below, is_left, part_of};
use crate::notices::some_notices;
use crate::renaming::renamed_joins;
use crate::split::{Split, split_by};
use cn_copies::first_operations;
use cn_copies::laws::copies_tell_nothing;
use cn_joins::Join;
use cn_joins::laws::{joins_decide, two_processes};
use cn_outcomes::bits::contains;
use cn_stocks::Threading;
use cn_table::laws::{tables_are_closed, tables_are_valid};
use cn_table::{Operation, Table};
use cn_telling::rows::rows_differ;
use cn_telling::search::Search;
use std::alloc::{AllocError, Global};
use std::thread::Threads;

/// Adds joins, and answers the marks of the stocks of the search.
fn all_marks(
    alloc: Global,
    table: &Table,
    start: u8,
    search: &Search,
    n: u8,
    marks: &[bool],
    joins: &mut Vec<Join>,
) -> Result<Vec<bool>, AllocError>
    requires start { start < length table.now.states }
    requires search { IsSearch table.now n search.now }
    requires some { 1 ≤ n }
    requires marks { AreMarked table.now start joins.old.items
        search.now.below.stocks.list.items marks.now }
    requires joins { All (IsJoinFrom table.now start) joins.old.items }
    ensures more { OnOk result (AreMore table.now start joins.old.items joins.new.items) }
    ensures marks { IfOk result (λ all. AreMarked table.now start joins.new.items
        search.now.stocks.list.items all.items) }
{
    let (_n, _states) = (n, table.states());
    let below = Below {
        stocks: search.below.stocks.list.as_slice(),
        marks,
    };
    let stocks = search.stocks.list.as_slice();
    let starts = search.starts.as_slice();
    let mut all = Vec::with_capacity(alloc, stocks.len())?;
    for place in 0..stocks.len() {
        let stock = &stocks[place];
        if !rows_differ(table, stock) {
            all.push(false)?;
            continue;
        }
        let tells = contains(starts[place], start);
        let mark = is_left(alloc, table, start, &below, stock, tells, joins)?;
        all.push(mark)?;
    }
    Ok(all)
}

/// Adds joins that connect the operations of each stock of the search whose rows differ; or answers
/// a witness, if one of these splits.
fn first_split(
    alloc: Global,
    table: &Table,
    start: u8,
    search: &Search,
    n: u8,
    marks: &[bool],
    joins: &mut Vec<Join>,
) -> Result<Option<Split>, AllocError>
    requires start { start < length table.now.states }
    requires search { IsSearch table.now n search.now }
    requires some { 1 ≤ n }
    requires marks { AreMarked table.now start joins.old.items
        search.now.below.stocks.list.items marks.now }
    requires joins { All (IsJoinFrom table.now start) joins.old.items }
    ensures more { OnOk result (AreMore table.now start joins.old.items joins.new.items) }
    ensures split { IfOk result (λ found. MatchOption found
        (ConnectEach table.now start joins.new.items search.now.stocks.list.items)
        (IsWitnessFor table.now n)) }
{
    let _n = n;
    let below = Below {
        stocks: search.below.stocks.list.as_slice(),
        marks,
    };
    for stock in &search.stocks.list {
        if !rows_differ(table, stock) {
            continue;
        }
        let found = part_of(alloc, table, start, &below, stock, joins)?;
        if let Some(set) = found {
            let split = split_by(alloc, table, start, stock.operations.as_slice(), set)?;
            return Ok(Some(split));
        }
    }
    Ok(None)
}

/// As many marks.
fn all_marked(alloc: Global, count: usize) -> Result<Vec<bool>, AllocError>
    ensures count { IfOk result (λ marks. length marks.items ≡ count) }
    ensures none { IfOk result (λ marks. (i : ℕ) → slice_get marks.items i ≢ Some false) }
{
    let mut marks = Vec::with_capacity(alloc, count)?;
    for _place in 0..count {
        marks.push(true)?;
    }
    Ok(marks)
}

/// Whether these are stocks of at least two operations, and none of them is marked. Then joins
/// connect all larger stocks whose rows differ too.
fn are_all_connected(marks: &[bool], size: u8) -> bool
    ensures { IsTrue result → (2 ≤ size) × ((i : ℕ) → slice_get marks.now i ≢ Some true) }
{
    if size < 2 {
        return false;
    }
    for mark in marks {
        if *mark {
            return false;
        }
    }
    true
}

/// Adds joins that connect the operations of each stock of n whose rows differ, from the state; or
/// answers a witness, if one of these splits.
fn decide_from<T: Threads + Sync>(
    rt: &T,
    alloc: Global,
    table: &Table,
    start: u8,
    n: u8,
    threading: Threading,
    joins: &mut Vec<Join>,
) -> Result<Option<Split>, AllocError>
    requires start { start < length table.now.states }
    requires some { 2 ≤ n }
    requires few { n ≤ MOST_SIZE }
    requires joins { All (IsJoinFrom table.now start) joins.old.items }
    ensures more { OnOk result (AreMore table.now start joins.old.items joins.new.items) }
    ensures split { IfOk result (λ found. MatchOption found
        (ConnectFrom table.now n start joins.new.items) (IsWitnessFor table.now n)) }
{
    let mut search = Search::new(rt, alloc, table, threading)?;
    let mut marks = all_marked(alloc, search.stocks.list.len())?;
    for size in 1..n {
        search = search.next(rt, alloc, table, size - 1, threading)?;
        marks = all_marks(alloc, table, start, &search, size, marks.as_slice(), joins)?;
        if are_all_connected(marks.as_slice(), size) {
            return Ok(None);
        }
    }
    search = search.next(rt, alloc, table, n - 1, threading)?;
    let found = first_split(alloc, table, start, &search, n, marks.as_slice(), joins)?;
    Ok(found)
}

/// Adds joins that connect the operations of each stock of n that must be connected, from each
/// state; or answers a witness, if one of these splits.
fn decide<T: Threads + Sync>(
    rt: &T,
    alloc: Global,
    table: &Table,
    n: u8,
    threading: Threading,
    joins: &mut Vec<Join>,
) -> Result<Option<Split>, AllocError>
    requires some { 2 ≤ n }
    requires few { n ≤ MOST_SIZE }
    requires none { All (IsJoin table.now) joins.old.items }
    ensures { IfOk result (λ found. MatchOption found
        (All (IsJoin table.now) joins.new.items × ConnectAll table.now n joins.new.items)
        (IsWitnessFor table.now n)) }
{
    for start in 0..table.states() {
        let mut more = Vec::new(alloc);
        let found = decide_from(rt, alloc, table, start, n, threading, &mut more)?;
        if let Some(split) = found {
            return Ok(Some(split));
        }
        joins.append(&mut more)?;
    }
    Ok(None)
}

/// Whether n is 2 and some operation notices itself: then two processes can both do it.
fn is_decided_by_one(table: &Table, n: u8) -> bool
    ensures { IsTrue result ↔ ((n ≡ 2) × SomeNotices table.now) }
{
    n == 2 && some_notices(table)
}

/// Joins that connect the operations of each stock of n that must be connected, from each state;
/// none if one of these splits, so that the type is n-discerning.
fn connecting_joins<T: Threads + Sync>(
    rt: &T,
    alloc: Global,
    table: &Table,
    n: u8,
    threading: Threading,
) -> Result<Option<Vec<Join>>, AllocError>
    requires some { 2 ≤ n }
    requires few { n ≤ MOST_SIZE }
    ensures { IfOk result (λ found. MatchOption found (IsDiscerning table.now n)
        (λ joins. All (IsJoin table.now) joins.items × ConnectAll table.now n joins.items)) }
{
    let mut joins = Vec::new(alloc);
    let found = decide(rt, alloc, table, n, threading, &mut joins)?;
    match found {
        Some(_split) => Ok(None),
        None => Ok(Some(joins)),
    }
}

/// The same, from a search of the table with its first operations alone.
fn joins_of_first<T: Threads + Sync>(
    rt: &T,
    alloc: Global,
    table: &Table,
    first: &[Operation],
    n: u8,
    threading: Threading,
) -> Result<Option<Vec<Join>>, AllocError>
    requires first { AreFirst table.now (map (λ o. o.0) first.now) }
    requires some { 2 ≤ n }
    requires few { n ≤ MOST_SIZE }
    ensures { IfOk result (λ found. MatchOption found (IsDiscerning table.now n)
        (λ joins. All (IsJoin table.now) joins.items × ConnectAll table.now n joins.items)) }
{
    tables_are_valid(table);
    tables_are_closed();
    copies_tell_nothing();
    let smaller = table.with_operations(alloc, first)?;
    let found = connecting_joins(rt, alloc, &smaller, n, threading)?;
    match found {
        None => Ok(None),
        Some(joins) => {
            let renamed = renamed_joins(alloc, first, joins.as_slice())?;
            Ok(Some(renamed))
        }
    }
}

/// Joins that are evidence that the type is not n-discerning, and none if it is. n is from 2 to
/// [`MOST_SIZE`](cn_stocks::limits::MOST_SIZE).
///
/// From each state the search goes up by one operation. Smaller stocks that joins connect connect
/// most others. Of the rest, one that tells has no joins, and of each other one the pairs that words
/// within it show are made, and give the next joins. Operations that are copies of earlier ones are
/// left out, and stocks with two different operations that lead from each state to the same one.
///
/// # Errors
///
/// Where memory is short.
pub fn find_joins<T: Threads + Sync>(
    rt: &T,
    alloc: Global,
    table: &Table,
    n: u8,
    threading: Threading,
) -> Result<Option<Vec<Join>>, AllocError>
    requires some { 2 ≤ n }
    requires few { n ≤ MOST_SIZE }
    // promise: joins-of-a-search (IsEvidenceAgainst, IsDiscerning)
    ensures { IfOk result (λ found. MatchOption found (IsDiscerning table.now n)
        (λ joins. IsEvidenceAgainst table.now n joins.items)) }
{
    two_processes();
    if is_decided_by_one(table, n) {
        return Ok(None);
    }
    let first = first_operations(alloc, table)?;
    if first.len() == table.operations() as usize {
        return connecting_joins(rt, alloc, table, n, threading);
    }
    joins_of_first(rt, alloc, table, first.as_slice(), n, threading)
}

/// A witness that the type is n-discerning, and none if it is not. n is from 3 to
/// [`MOST_SIZE`](cn_stocks::limits::MOST_SIZE).
///
/// Of the stocks of n those that are likely to split come first. Where none of them does, the search
/// for joins decides.
///
/// # Errors
///
/// Where memory is short.
pub fn find_witness<T: Threads + Sync>(
    rt: &T,
    alloc: Global,
    table: &Table,
    n: u8,
    threading: Threading,
) -> Result<Option<Split>, AllocError>
    requires some { 3 ≤ n }
    requires few { n ≤ MOST_SIZE }
    // promise: witness-of-a-search (IsWitnessFor, IsDiscerning)
    ensures { IfOk result (λ found. MatchOption found (¬ IsDiscerning table.now n)
        (IsWitnessFor table.now n)) }
{
    joins_decide();
    if let Some(split) = likely_split(rt, alloc, table, n, threading)? {
        return Ok(Some(split));
    }
    let mut joins = Vec::new(alloc);
    let found = decide(rt, alloc, table, n, threading, &mut joins)?;
    Ok(found)
}
