//! The number.
ghost use Rattle.std.specs.Prelude.{IfOk};
ghost use Rattle.cn_merging.specs.Merged.{IsWhollyMerged};
ghost use Rattle.cn_search.specs.Numbers.{HasNumber};
ghost use Rattle.cn_search.specs.declared.exact.ConsensusNumber.{ConsensusNumber as ConsensusNumberOf};
ghost use Rattle.cn_unread_number.specs.Bounds.{AreBounds, HasUnreadNumber};
ghost use Rattle.cn_unread_number.specs.Evidence.{AreCloseTo, AreShown, TellsBy, TellsItsStates};

use crate::bounds::NumberBounds;
use crate::evidence::{Evidence, LeastEvidence, MostEvidence};
use crate::laws::shown_bounds_hold;
use crate::search::found_bounds;
use crate::telling::{Telling, telling_of};
use cn_choice::laws::live_choices_decide;
use cn_merging::{Merged, merge};
use cn_search::{ConsensusNumber, consensus_number};
use cn_signs::find_signs;
use cn_table::Table;
use cn_table::laws::tables_are_valid;
use std::alloc::{AllocError, Global};
use std::thread::Threads;

/// The most attempts of a search for signs.
const MOST_SIGNS: u32 = 100_000;

/// The number of a type without reads.
#[derive(Drop)]
pub struct UnreadNumber {
    /// The table with its states merged, of which the evidence speaks.
    pub merged: Merged,
    /// What is known of the number, and why.
    pub evidence: Evidence,
}

/// The bounds of a type that tells its states: its number with reads.
fn told_bounds(table: &Table, number: ConsensusNumber, how: Telling) -> Evidence
    requires telling { TellsBy table.now how }
    requires number { HasNumber table.now number }
    ensures shown { AreShown table.now result.least result.most result.bounds }
    ensures close { AreCloseTo table.now result.bounds number }
{
    live_choices_decide();
    Evidence {
        bounds: NumberBounds::with_reads(number),
        least: LeastEvidence::Telling(how),
        most: MostEvidence::WithReads,
    }
}

/// The bounds of a type that does not tell its states.
fn other_bounds(
    alloc: Global,
    table: &Table,
    number: ConsensusNumber,
) -> Result<Evidence, AllocError>
    requires telling { ¬ TellsItsStates table.now }
    requires number { HasNumber table.now number }
    ensures shown { IfOk result (λ e. AreShown table.now e.least e.most e.bounds) }
    ensures close { IfOk result (λ e. AreCloseTo table.now e.bounds number) }
{
    if number == ConsensusNumber::Infinite {
        if let Some(signs) = find_signs(table, MOST_SIGNS) {
            return Ok(Evidence {
                bounds: NumberBounds::Infinite,
                least: LeastEvidence::Signs(signs),
                most: MostEvidence::Open,
            });
        }
    }
    found_bounds(alloc, table, number)
}

/// The bounds of a type with this number with reads.
fn bounds_with(
    alloc: Global,
    table: &Table,
    number: ConsensusNumber,
) -> Result<Evidence, AllocError>
    requires { HasNumber table.now number }
    ensures shown { IfOk result (λ e. AreShown table.now e.least e.most e.bounds) }
    ensures close { IfOk result (λ e. AreCloseTo table.now e.bounds number) }
{
    match telling_of(table) {
        Some(how) => Ok(told_bounds(table, number, how)),
        None => other_bounds(alloc, table, number),
    }
}

/// The consensus number of a type whose objects are not read: processes have the operations of its
/// table alone.
///
/// States that no operations tell apart are merged first. A type whose responses, or operations
/// that change nothing, tell its states has the number that it has with reads. Else choices are
/// looked for whose teams responses tell apart, with operations that change nothing or with one
/// further operation, or signs for every number of processes; and from above a trap, for one process
/// more, and if that is not found for some more. The searches have limits, past which the number is
/// told as a range. This leaves nothing above a number with reads, and nothing below a number up to
/// which one of the first [`MOST_CHOICES`](crate::MOST_CHOICES) choices is visible.
///
/// # Errors
///
/// `AllocError` if memory runs out.
pub fn unread_number<T: Threads + Sync>(
    rt: &T,
    alloc: Global,
    table: &Table,
) -> Result<UnreadNumber, AllocError>
    // promise: number-without-reads (HasUnreadNumber: AreBounds)
    ensures bounds { IfOk result (λ found. HasUnreadNumber table.now found.evidence.bounds) }
    // promise: number-without-reads
    ensures merged { IfOk result (λ found.
        IsWhollyMerged table.now found.merged.table found.merged.class_of.items) }
    // promise: number-without-reads (AreShown)
    ensures shown { IfOk result (λ found. AreShown found.merged.table found.evidence.least
        found.evidence.most found.evidence.bounds) }
    // promise: number-without-reads (AreCloseTo)
    ensures close { IfOk result (λ found. (number : ConsensusNumberOf)
        × AreCloseTo found.merged.table found.evidence.bounds number) }
{
    shown_bounds_hold();
    let merged = merge(alloc, table)?;
    tables_are_valid(&merged.table);
    let number = consensus_number(rt, alloc, &merged.table)?;
    let evidence = bounds_with(alloc, &merged.table, number)?;
    Ok(UnreadNumber { merged, evidence })
}
