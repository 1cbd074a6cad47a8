//! What there is to tell of a number without reads, as one value.
ghost use Rattle.std.specs.Prelude.{◌≡◌, ◌≤◌, IfOk};
ghost use Rattle.cn_merging.specs.Merged.{IsWhollyMerged};
ghost use Rattle.cn_unread_number.specs.Bounds.{HasUnreadNumber};
ghost use Rattle.cn_unread_number.specs.Evidence.{AreShown, ShowsMost};
ghost use Rattle.cn_unread_number.specs.declared.evidence.LeastEvidence.{LeastEvidence as LeastEvidenceOf};
ghost use Rattle.cn_unread_reasons.specs.Known.{IsKnownMost};
ghost use Rattle.cn_unread_reasons.specs.UnreadExplanations.{ExplainsUnread, IsMostFor, IsMostReason, least_of};

use crate::low::Low;
use crate::merged::{MergedState, merged_states};
use crate::signs::SignWitness;
use crate::trap::{PlayedTrap, played};
use crate::witness::UnreadWitness;
use cn_choice::MOST_PROCESSES;
use cn_interference::{Rule, rule_of};
use cn_merging::Merged;
use cn_search::greatest_limit;
use cn_table::Table;
use cn_unread_number::{
    Evidence, MostEvidence, NumberBounds, Telling, UnreadNumber, unread_number,
};
use std::alloc::{AllocError, Global};
use std::thread::Threads;

/// Why the number is not more than its upper bound.
#[derive(Drop)]
pub enum MostReason {
    /// No upper bound is known.
    Open,
    /// The number is infinite: there is none.
    EachNumber,
    /// It is not more than with reads.
    WithReads {
        /// The rule by which the operations alone bound the number with reads, if one applies.
        rule: Option<Rule>,
    },
    /// No choice for one process more is defended.
    Trap(PlayedTrap),
}

/// Why the number of a type without reads is what it is. Each form of an explanation is a function
/// of this value.
#[derive(Drop)]
pub struct UnreadExplanation {
    /// The table as it was given.
    pub given: Table,
    /// The table with its states merged. All else speaks of it.
    pub table: Table,
    /// The states of the table that was given for which others stand, in order; none if no two states
    /// are one.
    pub merged: Vec<MergedState>,
    /// What is known of the number.
    pub bounds: NumberBounds,
    /// How the type tells its states, if it does: it needs no reads then.
    pub telling: Option<Telling>,
    /// A choice for as many processes as the lower bound, or as are searched at most, with what its
    /// processes get. None if the bound is 1, if signs are the evidence, or if none was found.
    pub witness: Option<UnreadWitness>,
    /// Signs, which show the lower bound for every number of processes, where these are the evidence.
    pub signs: Option<SignWitness>,
    /// Why the number is not more than its upper bound.
    pub most: MostReason,
    /// Whether the play of every choice is told.
    pub all: bool,
}

/// The number for whose processes the lower bound is shown.
fn least_of(bounds: NumberBounds, limit: u8) -> u8
    ensures { result ≡ least_of limit bounds }
{
    match bounds {
        NumberBounds::Exactly(n) => n,
        NumberBounds::Infinite => limit,
        NumberBounds::Between(n, _) => n,
        NumberBounds::AtLeast(n) => n,
    }
}

/// Why no more than n processes can agree.
fn most_for(
    alloc: Global,
    table: &Table,
    most: MostEvidence,
    n: u8,
    all: bool,
) -> Result<MostReason, AllocError>
    requires some { 1 ≤ n }
    requires shown { ShowsMost table.now most n }
    ensures reason { IfOk result (IsMostFor table.now all n) }
    ensures known { IfOk result (IsKnownMost table.now) }
{
    match most {
        MostEvidence::Open => unreachable!(),
        MostEvidence::WithReads => Ok(MostReason::WithReads {
            rule: rule_of(table),
        }),
        MostEvidence::Trap(trap) => {
            if n as usize >= MOST_PROCESSES {
                return Ok(MostReason::Open);
            }
            let played = played(alloc, table, &trap, n + 1, all)?;
            Ok(MostReason::Trap(played))
        }
    }
}

/// The reason of the upper bound.
fn most_of(
    alloc: Global,
    table: &Table,
    most: MostEvidence,
    bounds: NumberBounds,
    all: bool,
) -> Result<MostReason, AllocError>
    requires { (least : LeastEvidenceOf) × AreShown table.now least most bounds }
    ensures reason { IfOk result (IsMostReason table.now all bounds) }
    ensures known { IfOk result (IsKnownMost table.now) }
{
    match bounds {
        NumberBounds::Exactly(n) => most_for(alloc, table, most, n, all),
        NumberBounds::Infinite => Ok(MostReason::EachNumber),
        NumberBounds::Between(_, n) => most_for(alloc, table, most, n, all),
        NumberBounds::AtLeast(_) => Ok(MostReason::Open),
    }
}

/// The explanation of this number of the table.
fn explained(
    alloc: Global,
    given: Table,
    found: UnreadNumber,
    all: bool,
) -> Result<UnreadExplanation, AllocError>
    requires bounds { HasUnreadNumber given found.evidence.bounds }
    requires merged { IsWhollyMerged given found.merged.table found.merged.class_of.items }
    requires shown { AreShown found.merged.table found.evidence.least found.evidence.most
        found.evidence.bounds }
    ensures { IfOk result (ExplainsUnread given all) }
{
    let _states = given.states();
    let UnreadNumber { merged, evidence } = found;
    let Merged { table, class_of } = merged;
    let Evidence {
        bounds,
        least,
        most,
    } = evidence;
    let limit = greatest_limit(&table);
    let merged = merged_states(alloc, class_of.as_slice())?;
    let low = Low::of(alloc, &table, least, least_of(bounds, limit), limit)?;
    let most = most_of(alloc, &table, most, bounds, all)?;
    Ok(UnreadExplanation {
        given,
        table,
        merged,
        bounds,
        telling: low.telling,
        witness: low.witness,
        signs: low.signs,
        most,
        all,
    })
}

impl UnreadExplanation {
    /// The explanation of the number of a type without reads. It tells the play of every choice for
    /// one process more, or that of the first. `rt` starts the threads of the searches.
    ///
    /// # Errors
    ///
    /// `AllocError` if memory is too little for one thread.
    pub fn new<T: Threads + Sync>(
        rt: &T,
        alloc: Global,
        table: Table,
        all: bool,
    ) -> Result<UnreadExplanation, AllocError>
        // promise: explanation-without-reads (ExplainsUnread)
        ensures { IfOk result (ExplainsUnread table all) }
    {
        let found = unread_number(rt, alloc, &table)?;
        explained(alloc, table, found, all)
    }
}
