//! Joins and witnesses, in several threads or in one.
ghost use Rattle.std.specs.Prelude.{◌≤◌, IfOk, MatchOption};
ghost use Rattle.cn_choice.specs.Discerning.{IsDiscerning};
ghost use Rattle.cn_join_find.specs.Marks.{IsWitnessFor};
ghost use Rattle.cn_joins.specs.Evidence.{IsEvidenceAgainst};
ghost use Rattle.cn_stocks.specs.declared.limits.TheConstants.{MOST_SIZE};

use cn_join_find::{Split, find_joins, find_witness};
use cn_joins::Join;
use cn_search::with_fallback;
use cn_stocks::Threading;
use cn_table::Table;
use std::alloc::{AllocError, Global};
use std::thread::Threads;

/// Joins that are evidence that the type is not n-discerning, and none if it is
/// ([`find_joins`](cn_join_find::find_joins)). n is from 2 to
/// [`MOST_SIZE`](cn_stocks::limits::MOST_SIZE).
///
/// The search goes on in several threads, or in one if these get too little memory.
///
/// # Errors
///
/// `AllocError` if memory is too little for one thread.
pub fn joins_against<T: Threads + Sync>(
    rt: &T,
    alloc: Global,
    table: &Table,
    n: u8,
) -> Result<Option<Vec<Join>>, AllocError>
    requires some { 2 ≤ n }
    requires few { n ≤ MOST_SIZE }
    // promise: joins-against (IsEvidenceAgainst, IsDiscerning)
    ensures { IfOk result (λ found. MatchOption found (IsDiscerning table.now n)
        (λ joins. IsEvidenceAgainst table.now n joins.items)) }
{
    with_fallback(
        alloc,
        |threading: Threading| -> Result<Option<Vec<Join>>, AllocError>
            requires some { 2 ≤ n }
            requires few { n ≤ MOST_SIZE }
            ensures { IfOk result (λ found. MatchOption found (IsDiscerning table.entry.now n)
                (λ joins. IsEvidenceAgainst table.entry.now n joins.items)) }
        { find_joins(rt, alloc, table, n, threading) },
    )
}

/// A witness that the type is n-discerning, and none if it is not.
pub(crate) fn witness_of<T: Threads + Sync>(
    rt: &T,
    alloc: Global,
    table: &Table,
    n: u8,
) -> Result<Option<Split>, AllocError>
    requires some { 3 ≤ n }
    requires few { n ≤ MOST_SIZE }
    ensures { IfOk result (λ found. MatchOption found (¬ IsDiscerning table.now n)
        (IsWitnessFor table.now n)) }
{
    with_fallback(
        alloc,
        |threading: Threading| -> Result<Option<Split>, AllocError>
            requires some { 3 ≤ n }
            requires few { n ≤ MOST_SIZE }
            ensures { IfOk result (λ found. MatchOption found (¬ IsDiscerning table.entry.now n)
                (IsWitnessFor table.entry.now n)) }
        { find_witness(rt, alloc, table, n, threading) },
    )
}
