//! The numbers of a type whose entry leads to one next state.
ghost use Rattle.std.specs.Prelude.{◌≡◌, All, IfOk};
ghost use Rattle.std.specs.List.{list_all};
ghost use Rattle.cn_changes.specs.Changes.{IsChange, IsTarget, with_change};
ghost use Rattle.cn_changes.specs.Kinds.{HasNumberOf};
ghost use Rattle.cn_changes.specs.Less.{same_bounds};
ghost use Rattle.cn_changes.specs.Served.{AreServed, LeadsTo};
ghost use Rattle.cn_changes.specs.Told.{AreNextNumbers, AreNumbersOf, agreed};
ghost use Rattle.cn_search.specs.Nexts.{Serves};

use crate::change::{Change, changes_to};
use crate::kind::{NumberKind, exactly, number_of};
use crate::less::is_same;
use crate::targets::Target;
use cn_search::laws::searches_serve_other_responses;
use cn_search::{NextsSearch, consensus_number_by, search_nexts};
use cn_table::{Table, entry_makes_a_table, laws};
use cn_unread_number::NumberBounds;
use std::alloc::{AllocError, Global};
use std::thread::Threads;

/// A change of a table, and the number of the type with it.
#[derive(Clone, Copy, Debug, PartialEq, Eq)]
pub struct ChangeNumber {
    /// The change.
    pub change: Change,
    /// The number of the type with the change.
    pub number: NumberBounds,
}

/// The numbers of a type whose entry leads to one next state.
#[derive(Drop)]
pub struct NextNumbers {
    /// The entry, and the next state to which it leads.
    pub target: Target,
    /// The changes of the entry to this next state, by the response, each with its number.
    pub numbers: Vec<ChangeNumber>,
}

/// The number of a type with a change.
///
/// # Errors
///
/// `AllocError` if memory is too little for one thread.
pub fn number_with<T: Threads + Sync>(
    rt: &T,
    alloc: Global,
    table: &Table,
    kind: NumberKind,
    change: Change,
) -> Result<NumberBounds, AllocError>
    requires { IsChange table.now change }
    // promise: numbers-of-changes (HasNumberOf, with_change)
    ensures { IfOk result (HasNumberOf kind (with_change table.now change)) }
{
    let changed = change.table(alloc, table)?;
    number_of(rt, alloc, &changed, kind)
}

/// What one search tells of the consensus numbers of the type with each of these changes, which lead
/// to one next state.
fn shared_search<T: Threads + Sync>(
    rt: &T,
    alloc: Global,
    table: &Table,
    kind: NumberKind,
    target: Target,
    changes: &[Change],
) -> Result<Option<NextsSearch>, AllocError>
    requires known { All (IsChange table.now) changes.now }
    requires target { All (LeadsTo target) changes.now }
    ensures { IfOk result (λ searched. AreServed table.now changes.now searched) }
{
    entry_makes_a_table();
    searches_serve_other_responses();
    let _target = target;
    laws::tables_are_valid(table);
    if kind != NumberKind::Consensus || changes.is_empty() {
        return Ok(None);
    }
    let changed = changes[0].table(alloc, table)?;
    search_nexts(rt, alloc, &changed)
}

/// The number of the type with a change, by a search that serves for its consensus number.
fn number_by<T: Threads + Sync>(
    rt: &T,
    alloc: Global,
    table: &Table,
    kind: NumberKind,
    change: Change,
    searched: &Option<NextsSearch>,
) -> Result<NumberBounds, AllocError>
    requires known { IsChange table.now change }
    requires served { Serves (with_change table.now change) searched.now }
    ensures { IfOk result (HasNumberOf kind (with_change table.now change)) }
{
    match kind {
        NumberKind::Consensus => {
            let changed = change.table(alloc, table)?;
            let number = consensus_number_by(rt, alloc, &changed, searched)?;
            Ok(exactly(number))
        }
        NumberKind::Recoverable | NumberKind::WithoutReads => {
            number_with(rt, alloc, table, kind, change)
        }
    }
}

/// These changes, each with its number, by a search that serves for their consensus numbers.
fn numbers_of<T: Threads + Sync>(
    rt: &T,
    alloc: Global,
    table: &Table,
    kind: NumberKind,
    changes: &[Change],
    searched: &Option<NextsSearch>,
) -> Result<Vec<ChangeNumber>, AllocError>
    requires known { All (IsChange table.now) changes.now }
    requires served { AreServed table.now changes.now searched.now }
    ensures { IfOk result (λ told. AreNumbersOf kind table.now changes.now told.items) }
{
    let mut told = Vec::new(alloc);
    for change in changes {
        let number = number_by(rt, alloc, table, kind, *change, searched)?;
        told.push(ChangeNumber {
            change: *change,
            number,
        })?;
    }
    Ok(told)
}

/// The numbers of a type whose entry leads to this next state. One search of the next states tells a
/// part of the consensus numbers with all responses.
pub(crate) fn next_numbers<T: Threads + Sync>(
    rt: &T,
    alloc: Global,
    table: &Table,
    kind: NumberKind,
    target: Target,
) -> Result<NextNumbers, AllocError>
    requires { IsTarget table.now target }
    ensures target { IfOk result (λ told. told.target ≡ target) }
    ensures numbers { IfOk result (AreNextNumbers kind table.now) }
{
    let changes = changes_to(alloc, table, target)?;
    let listed = changes.as_slice();
    let searched = shared_search(rt, alloc, table, kind, target, listed)?;
    let numbers = numbers_of(rt, alloc, table, kind, listed, &searched)?;
    Ok(NextNumbers { target, numbers })
}

/// Whether the same number is told with each of these responses.
fn all_have(number: NumberBounds, numbers: &[ChangeNumber]) -> bool
    ensures { result ≡ list_all (λ s. same_bounds number s.number) numbers.now }
{
    numbers.iter().all(|s| is_same(number, s.number))
}

/// The number that is the same with each of the responses, if there is one.
pub fn agreed(numbers: &[ChangeNumber]) -> Option<NumberBounds>
    // promise: numbers-of-changes (agreed)
    ensures { result ≡ agreed numbers.now }
{
    let (first, rest) = numbers.split_first()?;
    if all_have(first.number, rest) {
        Some(first.number)
    } else {
        None
    }
}
