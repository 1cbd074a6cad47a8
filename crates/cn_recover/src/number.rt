//! The recoverable number, by stocks.
ghost use Rattle.std.specs.Prelude.{◌≡◌, ◌<◌, ◌≤◌, ◌⊎◌, ℕ, length, Err, IfErr, IfOk, None, OnOk, Some};
ghost use Rattle.cn_choice.specs.Discerning.{IsDiscerning};
ghost use Rattle.cn_stocks.specs.declared.limits.TheConstants.{MOST_SIZE};
ghost use Rattle.cn_search.specs.Faults.{number_fault};
ghost use Rattle.cn_search.specs.Numbers.{HasNumber};
ghost use Rattle.cn_finding.specs.declared.limits.TheConstants.{LEAST_LIMIT};
ghost use Rattle.cn_search.specs.declared.fault.FindFault.{FindFault};
ghost use Rattle.cn_search.specs.declared.fault.FindFault.TheVariants.{OutOfMemory};
ghost use Rattle.cn_recover.specs.Recording.{HasRecoverableNumber, IsRecoverableNumberUpTo};

use crate::laws;
use crate::rows::by_rows;
use cn_search::{
    ConsensusNumber, FindFault, LEAST_LIMIT, Threading, consensus_number, with_fallback,
};
use cn_stocks::greatest_record;
use cn_table::Table;
use std::alloc::{AllocError, Global};
use std::thread::Threads;

/// The greatest number of processes up to the most for which the type is recording, in these
/// threads.
fn greatest_in<T: Threads + Sync>(
    rt: &T,
    alloc: Global,
    table: &Table,
    most: u8,
    threading: Threading,
) -> Result<Option<u8>, AllocError>
    requires some { 2 ≤ most }
    requires few { most ≤ MOST_SIZE }
    ensures { IfOk result (IsRecoverableNumberUpTo table.now most) }
{
    laws::records_decide();
    greatest_record(rt, alloc, table, most, threading)
}

/// The same in several threads, or in one if these get too little memory.
fn greatest<T: Threads + Sync>(
    rt: &T,
    alloc: Global,
    table: &Table,
    most: u8,
) -> Result<Option<u8>, AllocError>
    requires some { 2 ≤ most }
    requires few { most ≤ MOST_SIZE }
    ensures { IfOk result (IsRecoverableNumberUpTo table.now most) }
{
    with_fallback(
        alloc,
        |threading: Threading| -> Result<Option<u8>, AllocError>
            requires some { 2 ≤ most }
            requires few { most ≤ MOST_SIZE }
            ensures { IfOk result (IsRecoverableNumberUpTo table.entry.now most) }
        { greatest_in(rt, alloc, table, most, threading) },
    )
}

/// The same by a search of one operation of each row.
fn greatest_by_rows<T: Threads + Sync>(
    rt: &T,
    alloc: Global,
    table: &Table,
    most: u8,
) -> Result<Option<u8>, AllocError>
    requires some { 2 ≤ most }
    requires few { most ≤ MOST_SIZE }
    ensures { IfOk result (IsRecoverableNumberUpTo table.now most) }
{
    laws::one_operation_of_each_row_is_enough();
    let searched = by_rows(alloc, table)?;
    greatest(rt, alloc, &searched, most)
}

/// The recoverable number of a type up to a limit, from [`LEAST_LIMIT`](cn_search::LEAST_LIMIT) to
/// [`GREATEST_LIMIT`](cn_search::GREATEST_LIMIT): the greatest n from 2 to the limit for which the
/// type is n-recording, if there is one.
///
/// It is at most the number of the type up to the limit
/// ([`laws::at_most_the_number`](crate::laws::at_most_the_number)). The type may have any number of
/// choices: the search goes by stocks of operations
/// ([`laws::records_decide`](crate::laws::records_decide)), in several threads, or in one if these
/// get too little memory. Of operations that lead from each state to the same one it takes one
/// ([`laws::one_operation_of_each_row_is_enough`](crate::laws::one_operation_of_each_row_is_enough)).
///
/// # Errors
///
/// `BadLimit` if the limit is not one of these. `OutOfMemory` can stand in place of a number.
pub fn recoverable_number<T: Threads + Sync>(
    rt: &T,
    alloc: Global,
    table: &Table,
    limit: u8,
) -> Result<Option<u8>, FindFault>
    // promise: recoverable-number (IsRecoverableNumberUpTo)
    ensures number { IfOk result (IsRecoverableNumberUpTo table.now limit) }
    // promise: recoverable-number
    ensures searched { OnOk result (number_fault limit ≡ None) }
    // promise: recoverable-number
    ensures told { (e : FindFault) → number_fault limit ≡ Some e → result ≡ Err e }
    // promise: recoverable-number
    ensures refused { IfErr result (λ e. (e ≡ OutOfMemory) ⊎ (number_fault limit ≡ Some e)) }
{
    if let Some(fault) = FindFault::of_limit(limit) {
        return Err(fault);
    }
    Ok(greatest_by_rows(rt, alloc, table, limit)?)
}

/// The number with no limit, from the one up to the bound, or up to 2 if the bound is less.
fn without_limit(table: &Table, bound: u8, found: Option<u8>) -> ConsensusNumber
    requires few { (bound ≤ 2) ⊎ (bound ≤ length table.now.states) }
    requires above { (m : ℕ) → bound < m → ¬ IsDiscerning table.now m }
    requires found { (most : ℕ) × (bound ≤ most) × ((most ≡ 2) ⊎ (most ≡ bound))
        × IsRecoverableNumberUpTo table.now most found }
    ensures { HasRecoverableNumber table.now result }
{
    let (_table, _bound) = (table, bound);
    match found {
        Some(n) => ConsensusNumber::Finite(n),
        None => ConsensusNumber::Finite(1),
    }
}

/// The most processes of the search, if the type is n-discerning for no n above the bound.
fn most_processes(table: &Table, bound: u8) -> u8
    requires { (bound ≤ 2) ⊎ (bound ≤ length table.now.states) }
    ensures range { (2 ≤ result) × (result ≤ MOST_SIZE) }
    ensures all { bound ≤ result }
    ensures least { (result ≡ 2) ⊎ (result ≡ bound) }
{
    let _states = table.states();
    bound.max(LEAST_LIMIT)
}

/// The recoverable number with no limit of a type that is n-discerning for no n above the bound.
fn number_below<T: Threads + Sync>(
    rt: &T,
    alloc: Global,
    table: &Table,
    bound: u8,
) -> Result<ConsensusNumber, AllocError>
    requires few { (bound ≤ 2) ⊎ (bound ≤ length table.now.states) }
    requires above { (m : ℕ) → bound < m → ¬ IsDiscerning table.now m }
    ensures { IfOk result (HasRecoverableNumber table.now) }
{
    let found = greatest_by_rows(rt, alloc, table, most_processes(table, bound))?;
    Ok(without_limit(table, bound, found))
}

/// The number and the recoverable number of a type, with no limit.
#[derive(Clone, Copy, Debug, PartialEq, Eq)]
pub struct BothNumbers {
    /// The consensus number.
    pub number: ConsensusNumber,
    /// The recoverable number.
    pub recoverable: ConsensusNumber,
}

/// The recoverable number of a type with this consensus number.
fn recoverable_of<T: Threads + Sync>(
    rt: &T,
    alloc: Global,
    table: &Table,
    number: ConsensusNumber,
) -> Result<ConsensusNumber, AllocError>
    requires { HasNumber table.now number }
    ensures { IfOk result (HasRecoverableNumber table.now) }
{
    laws::no_greatest_together();
    match number {
        ConsensusNumber::Infinite => Ok(ConsensusNumber::Infinite),
        ConsensusNumber::Finite(n) => number_below(rt, alloc, table, n),
    }
}

/// The consensus number of a type ([`consensus_number`]) and its recoverable number, by the n for
/// which it is n-recording: `Infinite` if it is for every n, and else the greatest such n, or 1.
///
/// The recoverable number is infinite exactly if the consensus number is
/// ([`no_greatest_together`](crate::laws::no_greatest_together)), and at most the consensus number.
///
/// # Errors
///
/// `AllocError` if memory is too little for one thread.
pub fn both_numbers<T: Threads + Sync>(
    rt: &T,
    alloc: Global,
    table: &Table,
) -> Result<BothNumbers, AllocError>
    // promise: numbers-of-both-kinds (HasNumber: IsNumberOf)
    ensures number { IfOk result (λ both. HasNumber table.now both.number) }
    // promise: numbers-of-both-kinds (HasRecoverableNumber: IsNumberOf)
    ensures recoverable { IfOk result (λ both. HasRecoverableNumber table.now both.recoverable) }
{
    let number = consensus_number(rt, alloc, table)?;
    let recoverable = recoverable_of(rt, alloc, table, number)?;
    Ok(BothNumbers {
        number,
        recoverable,
    })
}

/// The recoverable number of a type with no limit, as [`both_numbers`] tells it.
///
/// # Errors
///
/// `AllocError` if memory is too little for one thread.
pub fn recoverable_consensus_number<T: Threads + Sync>(
    rt: &T,
    alloc: Global,
    table: &Table,
) -> Result<ConsensusNumber, AllocError>
    // promise: numbers-of-both-kinds (HasRecoverableNumber: IsNumberOf)
    ensures { IfOk result (HasRecoverableNumber table.now) }
{
    let both = both_numbers(rt, alloc, table)?;
    Ok(both.recoverable)
}
