//! The number up to a limit, by stocks.
ghost use Rattle.std.specs.Prelude.{◌≡◌, ◌≤◌, ◌⊎◌, ◌↔◌, ℕ, Err, IfErr, IfOk, IsTrue, None, OnOk, Some};
ghost use Rattle.cn_table.specs.TypeTable.{TypeTable};
ghost use Rattle.cn_choice.specs.Discerning.{IsDiscerning, IsNumberUpTo};
ghost use Rattle.cn_finding.specs.declared.limits.TheConstants.{GREATEST_LIMIT, LEAST_LIMIT};
ghost use Rattle.cn_search.specs.Faults.{number_fault};
ghost use Rattle.cn_search.specs.Numbers.{HaveSameNumbers};
ghost use Rattle.cn_search.specs.declared.fault.FindFault.{FindFault};
ghost use Rattle.cn_search.specs.declared.fault.FindFault.TheVariants.{OutOfMemory};
ghost use Rattle.cn_stocks.specs.declared.limits.TheConstants.{MOST_SIZE};
ghost use Rattle.cn_telling.specs.Greatest.{IsExactSplit};

use crate::FindFault;
use crate::fallback::with_fallback;
use crate::numbers::{LEAST_WITHOUT_TEAMS, decide};
use cn_copies::laws::copies_tell_nothing;
use cn_copies::without_copies;
use cn_finding::LEAST_LIMIT;
use cn_stocks::Threading;
use cn_stocks::lasting::find_lasting;
use cn_stocks::lasting::laws::lasting_operations_decide;
use cn_stocks::laws::splits_decide;
use cn_table::{Table, laws};
use cn_telling::exact_split;
use std::alloc::{AllocError, Global};
use std::thread::Threads;

/// The table without copies of operations: it is discerning for the same numbers of processes.
pub(crate) fn with_same_numbers(alloc: Global, table: &Table) -> Result<Table, AllocError>
    // promise: copies (HaveSameNumbers)
    ensures { IfOk result (HaveSameNumbers table.now) }
{
    laws::tables_are_valid(table);
    laws::tables_are_closed();
    copies_tell_nothing();
    without_copies(alloc, table)
}

/// The greatest number of processes, from the greatest number of operations of which some stock
/// splits, and from whether the type is 2-discerning.
fn greatest_of(found: Option<u8>, two: bool) -> Option<u8>
    ensures { (t : TypeTable) (most : ℕ) → 2 ≤ most → IsExactSplit t most found
        → (IsTrue two ↔ IsDiscerning t 2) → IsNumberUpTo t most result }
{
    splits_decide();
    match found {
        Some(n) => Some(n),
        None if two => Some(LEAST_LIMIT),
        None => None,
    }
}

/// The greatest n up to the most for which the type is n-discerning, from the greatest number of
/// operations of which some stock splits.
pub(crate) fn number_by_split<T: Threads + Sync>(
    rt: &T,
    alloc: Global,
    table: &Table,
    most: u8,
    found: Option<u8>,
    threading: Threading,
) -> Result<Option<u8>, AllocError>
    requires some { 3 ≤ most }
    requires found { IsExactSplit table.now most found }
    // promise: greatest-discerning (IsNumberUpTo)
    ensures { IfOk result (IsNumberUpTo table.now most) }
{
    let two = decide(rt, alloc, table, LEAST_LIMIT, threading)?;
    Ok(greatest_of(found, two.is_discerning))
}

/// The greatest n up to the most for which the type is n-discerning.
pub(crate) fn number_by_stocks<T: Threads + Sync>(
    rt: &T,
    alloc: Global,
    table: &Table,
    most: u8,
    threading: Threading,
) -> Result<Option<u8>, AllocError>
    requires some { 3 ≤ most }
    requires few { most ≤ MOST_SIZE }
    // promise: greatest-discerning (IsNumberUpTo)
    ensures { IfOk result (IsNumberUpTo table.now most) }
{
    let found = exact_split(rt, alloc, table, most, threading)?;
    number_by_split(rt, alloc, table, most, found, threading)
}

/// Two, if the type is 2-discerning.
fn number_up_to_two<T: Threads + Sync>(
    rt: &T,
    alloc: Global,
    table: &Table,
    threading: Threading,
) -> Result<Option<u8>, AllocError>
    ensures { IfOk result (IsNumberUpTo table.now 2) }
{
    let two = decide(rt, alloc, table, LEAST_LIMIT, threading)?;
    Ok(greatest_of(None, two.is_discerning))
}

/// The number up to the limit.
fn number_up_to<T: Threads + Sync>(
    rt: &T,
    alloc: Global,
    table: &Table,
    limit: u8,
    threading: Threading,
) -> Result<Option<u8>, AllocError>
    requires some { LEAST_LIMIT ≤ limit }
    requires few { limit ≤ GREATEST_LIMIT }
    ensures { IfOk result (IsNumberUpTo table.now limit) }
{
    lasting_operations_decide();
    if find_lasting(table).is_some() {
        return Ok(Some(limit));
    }
    if limit < LEAST_WITHOUT_TEAMS {
        return number_up_to_two(rt, alloc, table, threading);
    }
    number_by_stocks(rt, alloc, table, limit, threading)
}

/// The number of a type up to a limit, from [`LEAST_LIMIT`](crate::LEAST_LIMIT) to
/// [`GREATEST_LIMIT`](crate::GREATEST_LIMIT), with no evidence for it: the greatest n from 2 to the
/// limit for which the type is n-discerning, if there is one.
///
/// It is the number of the [`Finding`](crate::Finding) of the type and the limit
/// ([`number_of_finding`](cn_finding::laws::number_of_finding)), and of a type with any number of
/// choices. It is the limit if two operations last, and else stocks of operations tell it. Of
/// operations that do the same in each state one is searched. The search goes on in several threads,
/// or in one if these get too little memory.
///
/// # Errors
///
/// `BadLimit` if the limit is not one of these. `OutOfMemory` can stand in place of a number.
pub fn number<T: Threads + Sync>(
    rt: &T,
    alloc: Global,
    table: &Table,
    limit: u8,
) -> Result<Option<u8>, FindFault>
    // promise: number-of-a-finding (IsNumberUpTo)
    ensures number { IfOk result (IsNumberUpTo table.now limit) }
    // promise: number-of-a-finding
    ensures searched { OnOk result (number_fault limit ≡ None) }
    // promise: number-of-a-finding
    ensures told { (e : FindFault) → number_fault limit ≡ Some e → result ≡ Err e }
    // promise: number-of-a-finding
    ensures refused { IfErr result (λ e. (e ≡ OutOfMemory) ⊎ (number_fault limit ≡ Some e)) }
{
    if let Some(fault) = FindFault::of_limit(limit) {
        return Err(fault);
    }
    let searched = with_same_numbers(alloc, table)?;
    let found = with_fallback(
        alloc,
        |threading: Threading| -> Result<Option<u8>, AllocError>
            requires some { LEAST_LIMIT ≤ limit }
            requires few { limit ≤ GREATEST_LIMIT }
            ensures { IfOk result (IsNumberUpTo searched limit) }
        { number_up_to(rt, alloc, &searched, limit, threading) },
    )?;
    Ok(found)
}
