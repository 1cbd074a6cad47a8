//! Why a number without reads is no less.
ghost use Rattle.std.specs.Prelude.{◌≤◌, All, IfOk, IfSome, IsSome};
ghost use Rattle.cn_choice.specs.Canonical.{raw_choice_of};
ghost use Rattle.cn_choice.specs.RawChoices.{IsRawChoice};
ghost use Rattle.cn_choice.specs.declared.limits.TheConstants.{MOST_PROCESSES};
ghost use Rattle.cn_further.specs.FurtherNodes.{TellsFirst};
ghost use Rattle.cn_unread_number.specs.Evidence.{ShowsLeast};
ghost use Rattle.cn_unread_reasons.specs.Known.{IsKnownFollowUp, IsKnownUnreadWitness};
ghost use Rattle.cn_unread_reasons.specs.UnreadExplanations.{IsTold, IsWitnessFor};
ghost use Rattle.cn_unread_reasons.specs.LowReasons.{IsKnownLow, IsLowFor};
ghost use Rattle.cn_views.specs.VisibleChoices.{SomeLooksTell};

use crate::signs::{SignWitness, sign_witness};
use crate::witness::{UnreadWitness, further_witness, visible_witness};
use cn_choice::{Choice, MOST_PROCESSES};
use cn_further::Further;
use cn_table::Table;
use cn_unread_number::{LeastEvidence, Telling};
use cn_views::find_visible;
use std::alloc::{AllocError, Global};

/// How many choices are tried for the witness of a type that tells its states.
const MOST_TRIED: u32 = 10_000;

/// Why a number is no less: how the type tells its states, a witness, or signs.
#[derive(Drop)]
pub(crate) struct Low {
    pub telling: Option<Telling>,
    pub witness: Option<UnreadWitness>,
    pub signs: Option<SignWitness>,
}

/// The witness of a type that tells its states, for n processes or for as many as the limit, if one
/// is found.
fn told_witness(
    alloc: Global,
    table: &Table,
    n: u8,
    limit: u8,
) -> Result<Option<UnreadWitness>, AllocError>
    requires { limit ≤ MOST_PROCESSES }
    ensures witness { IfOk result (λ found. IfSome found (IsWitnessFor table.now n limit)) }
    ensures known { IfOk result (λ found. IfSome found (IsKnownUnreadWitness table.now)) }
{
    let size = n.min(limit);
    if size < 2 {
        return Ok(None);
    }
    match find_visible(table, size, MOST_TRIED) {
        Some(choice) => Ok(Some(visible_witness(alloc, table, &choice, size)?)),
        None => Ok(None),
    }
}

/// The witness of a choice that is visible for n processes, if they are not too many.
fn seen_witness(
    alloc: Global,
    table: &Table,
    choice: &Choice,
    n: u8,
) -> Result<Option<UnreadWitness>, AllocError>
    requires fits { IsRawChoice table.now n (raw_choice_of choice.now) }
    requires told { SomeLooksTell table.now (raw_choice_of choice.now) }
    ensures witness { IfOk result (λ found. IfSome found (IsWitnessFor table.now n n)) }
    ensures known { IfOk result (λ found. IfSome found (IsKnownUnreadWitness table.now)) }
    ensures found { 2 ≤ n → n ≤ MOST_PROCESSES → IfOk result (λ found. IsSome found) }
{
    if n < 2 || n as usize > MOST_PROCESSES {
        return Ok(None);
    }
    Ok(Some(visible_witness(alloc, table, choice, n)?))
}

/// The witness of further operations for n processes, if they are not too many.
fn helped_witness(
    alloc: Global,
    table: &Table,
    further: Further,
    n: u8,
) -> Result<Option<UnreadWitness>, AllocError>
    requires { TellsFirst table.now n further.choice further.follow_ups.items }
    ensures witness { IfOk result (λ found. IfSome found (IsWitnessFor table.now n n)) }
    ensures known { IfOk result (λ found. IfSome found (IsKnownUnreadWitness table.now)) }
    ensures found { 2 ≤ n → n ≤ MOST_PROCESSES
        → All (IsKnownFollowUp table.now) further.follow_ups.items
        → IfOk result (λ found. IsSome found) }
{
    if n < 2 || n as usize > MOST_PROCESSES {
        return Ok(None);
    }
    further_witness(alloc, table, further, n)
}

impl Low {
    /// What the evidence for n processes shows. A type that tells its states has a witness for at
    /// most `limit` processes.
    pub(crate) fn of(
        alloc: Global,
        table: &Table,
        least: LeastEvidence,
        n: u8,
        limit: u8,
    ) -> Result<Low, AllocError>
        requires shown { ShowsLeast table.now least n }
        requires few { limit ≤ MOST_PROCESSES }
        ensures low { IfOk result (IsLowFor table.now n limit) }
        ensures known { IfOk result (IsKnownLow table.now) }
        ensures told { IfOk result (λ low.
            IsTold table.now least n low.telling low.witness low.signs) }
    {
        let (telling, witness, signs) = (None, None, None);
        match least {
            LeastEvidence::Alone => Ok(Low {
                telling,
                witness,
                signs,
            }),
            LeastEvidence::Telling(how) => Ok(Low {
                telling: Some(how),
                witness: told_witness(alloc, table, n, limit)?,
                signs,
            }),
            LeastEvidence::Visible(choice) => Ok(Low {
                telling,
                witness: seen_witness(alloc, table, &choice, n)?,
                signs,
            }),
            LeastEvidence::Further(further) => Ok(Low {
                telling,
                witness: helped_witness(alloc, table, further, n)?,
                signs,
            }),
            LeastEvidence::Signs(choice) => Ok(Low {
                telling,
                witness,
                signs: Some(sign_witness(alloc, table, choice)?),
            }),
        }
    }
}
