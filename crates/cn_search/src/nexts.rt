//! Consensus numbers of tables with the same next states, of which one search tells a part.
ghost use Rattle.std.specs.Prelude.{IfOk, IfSome};
ghost use Rattle.cn_stocks.specs.Lasting.{NoneLast};
ghost use Rattle.cn_search.specs.Nexts.{IsNextsSearch, Serves};
ghost use Rattle.cn_search.specs.Numbers.{HasNumber};

use crate::exact::{ConsensusNumber, consensus_number, finite, most_operations};
use crate::fallback::with_fallback;
use crate::up_to::{number_by_split, with_same_numbers};
use cn_stocks::Threading;
use cn_stocks::lasting::find_lasting;
use cn_stocks::lasting::laws::lasting_operations_decide;
use cn_table::{Table, laws};
use cn_telling::{LastSearch, exact_split_by, last_search};
use std::alloc::{AllocError, Global};
use std::thread::Threads;

/// What a search tells of every table with the same next states.
#[derive(Drop)]
pub struct NextsSearch {
    most: u8,
    last: Option<LastSearch>,
}

/// The search of a table.
fn nexts_in<T: Threads + Sync>(
    rt: &T,
    alloc: Global,
    table: &Table,
    threading: Threading,
) -> Result<NextsSearch, AllocError>
    ensures { IfOk result (IsNextsSearch table.now) }
{
    let most = most_operations(table);
    let last = last_search(rt, alloc, table, most, threading)?;
    Ok(NextsSearch { most, last })
}

/// Whether the number is found sooner without a search for several tables: two operations last, or
/// one is a copy of another one.
fn is_found_alone(alloc: Global, table: &Table) -> Result<bool, AllocError> {
    if find_lasting(table).is_some() {
        return Ok(true);
    }
    let searched = with_same_numbers(alloc, table)?;
    Ok(searched.operations() < table.operations())
}

/// What a search tells of every table with the same next states. None where the number of the table
/// is found sooner alone.
///
/// # Errors
///
/// `AllocError` if memory is too little for one thread.
pub fn search_nexts<T: Threads + Sync>(
    rt: &T,
    alloc: Global,
    table: &Table,
) -> Result<Option<NextsSearch>, AllocError>
    // promise: number-without-limit (Serves: IsNextsSearch)
    ensures { IfOk result (Serves table.now) }
{
    if is_found_alone(alloc, table)? {
        return Ok(None);
    }
    let searched = with_fallback(
        alloc,
        |threading: Threading| -> Result<NextsSearch, AllocError>
            ensures { IfOk result (IsNextsSearch table.entry.now) }
        { nexts_in(rt, alloc, table, threading) },
    )?;
    Ok(Some(searched))
}

/// The number of a type no two of whose operations last, by a search that serves for it.
fn number_by<T: Threads + Sync>(
    rt: &T,
    alloc: Global,
    table: &Table,
    searched: &NextsSearch,
) -> Result<ConsensusNumber, AllocError>
    requires searched { IsNextsSearch table.now searched.now }
    requires none { NoneLast table.now }
    ensures { IfOk result (HasNumber table.now) }
{
    laws::tables_are_valid(table);
    laws::tables_are_closed();
    let most = searched.most;
    let found = exact_split_by(alloc, table, most, &searched.last)?;
    let number = number_by_split(rt, alloc, table, most, found, Threading::One)?;
    Ok(finite(number))
}

/// The [consensus number](consensus_number) of a type, by a search that serves for its table.
///
/// # Errors
///
/// `AllocError` if memory is too little for one thread.
pub fn consensus_number_by<T: Threads + Sync>(
    rt: &T,
    alloc: Global,
    table: &Table,
    searched: &Option<NextsSearch>,
) -> Result<ConsensusNumber, AllocError>
    requires { Serves table.now searched.now }
    // promise: number-without-limit (HasNumber: IsNumberOf)
    ensures { IfOk result (HasNumber table.now) }
{
    lasting_operations_decide();
    let Some(searched) = searched else {
        return consensus_number(rt, alloc, table);
    };
    if find_lasting(table).is_some() {
        return Ok(ConsensusNumber::Infinite);
    }
    number_by(rt, alloc, table, searched)
}
