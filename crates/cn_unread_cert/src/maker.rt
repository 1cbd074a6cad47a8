//! From the number of a type without reads to its certificate.
ghost use Rattle.std.specs.Prelude.{◌≡◌, ◌⊎◌, ◌≤◌, ◌<◌, All, None, Some, IfNone, IfOk, IfSome};
ghost use Rattle.cn_choice.specs.Canonical.{raw_choice_of};
ghost use Rattle.cn_choice.specs.Discerning.{IsDiscerning};
ghost use Rattle.cn_choice.specs.Live.{live_choices};
ghost use Rattle.cn_choice.specs.RawChoices.{IsRawChoice};
ghost use Rattle.cn_choice.specs.declared.limits.TheConstants.{MOST_PROCESSES};
ghost use Rattle.cn_merging.specs.Merged.{IsWhollyMerged};
ghost use Rattle.cn_unread_cert.specs.Kept.{AreReadsShown, IsClaimShown, IsLeastKept, IsLower, IsMostKept, IsToldKept, IsUpper, KeepsFound, LeastIsShown, MostIsShown, least_of, most_of};
ghost use Rattle.cn_unread_cert.specs.Right.{AreInRange, IsRight};
ghost use Rattle.cn_unread_number.specs.Evidence.{AreShown, TellsItsStates};
ghost use Rattle.cn_views.specs.VisibleChoices.{SomeLooksTell};

use crate::certificate::{LeastClaim, UnreadCertificate};
use cn_choice::laws::{live_choices_decide, live_list, monotonicity};
use cn_choice::{Choice, Choices, MOST_PROCESSES};
use cn_game::{Trap, find_trap};
use cn_signs::find_signs;
use cn_table::Table;
use cn_table::laws::{tables_are_closed, tables_are_valid};
use cn_unread_number::{
    Evidence, LeastEvidence, MOST_CHOICES, MostEvidence, NumberBounds, UnreadNumber, unread_number,
};
use cn_views::{Looks, find_visible};
use std::alloc::{AllocError, Global};
use std::thread::Threads;

/// The most attempts of a search for signs.
const MOST_SIGNS: u32 = 100_000;

/// The most positions of a search for a trap.
const MOST_POSITIONS: usize = 60_000;

/// The most processes of which a certificate speaks one by one.
const MOST: u8 = MOST_PROCESSES as u8;

/// A lower bound, and what shows it.
#[derive(Drop)]
struct Lower {
    at_least: Option<u8>,
    by: LeastClaim,
}

/// An upper bound, and what shows it.
#[derive(Drop)]
struct Upper {
    at_most: Option<u8>,
    by: Option<Trap>,
}

/// The lower bound, if it is one number.
fn least_of(bounds: NumberBounds) -> Option<u8>
    ensures { result ≡ least_of bounds }
{
    match bounds {
        NumberBounds::Exactly(n) => Some(n),
        NumberBounds::Infinite => None,
        NumberBounds::Between(n, _) => Some(n),
        NumberBounds::AtLeast(n) => Some(n),
    }
}

/// The upper bound, if there is one.
fn most_of(bounds: NumberBounds) -> Option<u8>
    ensures { result ≡ most_of bounds }
{
    match bounds {
        NumberBounds::Exactly(n) => Some(n),
        NumberBounds::Infinite => None,
        NumberBounds::Between(_, m) => Some(m),
        NumberBounds::AtLeast(_) => None,
    }
}

/// The lower bound that choices show which are visible, for more and more processes.
fn visible_up_to(table: &Table, most: u8) -> Lower
    requires { most ≤ MOST_PROCESSES }
    ensures { IsLower table.now result }
{
    let mut lower = Lower {
        at_least: Some(1),
        by: LeastClaim::Alone,
    };
    for n in 2..=most {
        let Some(choice) = find_visible(table, n, MOST_CHOICES) else {
            return lower;
        };
        lower = Lower {
            at_least: Some(n),
            by: LeastClaim::Visible(choice),
        };
    }
    lower
}

/// The first choice for n processes that is visible, however many come before it.
fn first_visible(table: &Table, n: u8) -> Option<Choice>
    requires some { 2 ≤ n }
    requires few { n ≤ MOST_PROCESSES }
    ensures shown { IfSome result (λ choice. IsRawChoice table.now n (raw_choice_of choice)
        × SomeLooksTell table.now (raw_choice_of choice)) }
    ensures none { IfNone result (All (λ choice. ¬ SomeLooksTell table.now (raw_choice_of choice))
        (live_choices table.now n)) }
{
    live_list();
    let looks = Looks::of(table);
    for choice in Choices::new(table, n) {
        if looks.tell(table, &choice) {
            return Some(choice);
        }
    }
    None
}

/// The lower bound n of a type that tells its states, where n processes can agree with reads. A
/// choice that is a witness for them is visible then, so the search for one needs no limit.
fn told_for(table: &Table, n: u8) -> Lower
    requires telling { TellsItsStates table.now }
    requires reads { 2 ≤ n → IsDiscerning table.now n }
    requires some { 1 ≤ n }
    requires few { n ≤ MOST_PROCESSES }
    ensures lower { IsLower table.now result }
    ensures same { result.at_least ≡ Some n }
{
    live_list();
    live_choices_decide();
    tables_are_valid(table);
    tables_are_closed();
    if n < 2 {
        return Lower {
            at_least: Some(n),
            by: LeastClaim::Alone,
        };
    }
    let Some(choice) = first_visible(table, n) else {
        unreachable!()
    };
    Lower {
        at_least: Some(n),
        by: LeastClaim::Visible(choice),
    }
}

/// The lower bound of a type that tells its states, by its number.
fn told(table: &Table, number: Option<u8>) -> Lower
    requires telling { TellsItsStates table.now }
    requires reads { AreReadsShown table.now number }
    ensures lower { IsLower table.now result }
    ensures kept { IsToldKept number result.at_least }
{
    monotonicity();
    match number {
        Some(n) => told_for(table, n.min(MOST)),
        None => match find_signs(table, MOST_SIGNS) {
            Some(signs) => Lower {
                at_least: None,
                by: LeastClaim::Signs(signs),
            },
            None => told_for(table, MOST),
        },
    }
}

/// The lower bound that the claim shows, unless it is for too many processes.
fn claimed(table: &Table, number: Option<u8>, claim: LeastClaim) -> Lower
    requires { IsClaimShown table.now claim number }
    ensures lower { IsLower table.now result }
    ensures kept { IfSome number (λ n. n ≤ MOST_PROCESSES → result.at_least ≡ Some n) }
{
    let n = number.unwrap_or(MOST);
    if n > MOST {
        return visible_up_to(table, MOST);
    }
    Lower {
        at_least: Some(n),
        by: claim,
    }
}

/// The lower bound of a certificate, by the evidence for that of the number.
fn lower_of(table: &Table, number: Option<u8>, evidence: LeastEvidence) -> Lower
    requires { LeastIsShown table.now evidence number }
    ensures lower { IsLower table.now result }
    ensures kept { IsLeastKept evidence number result.at_least }
{
    match evidence {
        LeastEvidence::Alone => Lower {
            at_least: Some(1),
            by: LeastClaim::Alone,
        },
        LeastEvidence::Telling(_) => told(table, number),
        LeastEvidence::Visible(choice) => claimed(table, number, LeastClaim::Visible(choice)),
        LeastEvidence::Further(further) => claimed(table, number, LeastClaim::Further(further)),
        LeastEvidence::Signs(signs) => Lower {
            at_least: None,
            by: LeastClaim::Signs(signs),
        },
    }
}

/// No upper bound.
fn open() -> Upper
    ensures at_most { result.at_most ≡ None }
    ensures by { result.by ≡ None }
{
    Upper {
        at_most: None,
        by: None,
    }
}

/// The upper bound that a trap shows which is found for one process more.
fn trapped(alloc: Global, table: &Table, n: u8, most: u8) -> Result<Upper, AllocError>
    requires some { 1 ≤ n }
    requires ordered { n ≤ most }
    requires few { most < MOST_PROCESSES }
    ensures upper { IfOk result (IsUpper table.now (Some n)) }
    ensures kept { IfOk result (λ upper. (upper.at_most ≡ None) ⊎ (upper.at_most ≡ Some most)) }
{
    match find_trap(alloc, table, most + 1, MOST_POSITIONS)? {
        Some(trap) => Ok(Upper {
            at_most: Some(most),
            by: Some(trap),
        }),
        None => Ok(open()),
    }
}

/// The upper bound of a certificate with this lower bound, by the evidence for that of the number.
fn upper_of(
    alloc: Global,
    table: &Table,
    at_least: Option<u8>,
    number: Option<u8>,
    evidence: MostEvidence,
) -> Result<Upper, AllocError>
    requires shown { MostIsShown table.now evidence number }
    requires range { AreInRange at_least None }
    ensures upper { IfOk result (IsUpper table.now at_least) }
    ensures kept { IfOk result (λ upper. IsMostKept evidence number at_least upper.at_most) }
{
    let (Some(n), Some(most)) = (at_least, number) else {
        return Ok(open());
    };
    if n > most || most >= MOST {
        return Ok(open());
    }
    match evidence {
        MostEvidence::Open => Ok(open()),
        MostEvidence::WithReads => trapped(alloc, table, n, most),
        MostEvidence::Trap(trap) => Ok(Upper {
            at_most: Some(most),
            by: Some(trap),
        }),
    }
}

impl UnreadCertificate {
    /// The certificate of a number without reads that was found of the table.
    ///
    /// The lower bound is that of the number, up to 8 processes. For a type that tells its states a
    /// visible choice is looked for, with no limit, since there is one. One for every number needs
    /// signs; where none are found within the limits of the search, it is 8.
    ///
    /// An upper bound below 8 is that of the number where a trap shows it. Where the number with
    /// reads shows it, a trap is looked for, within the limits of the search; without one there is
    /// no upper bound.
    ///
    /// # Errors
    ///
    /// `AllocError` if memory runs out.
    pub fn of_number(
        alloc: Global,
        table: &Table,
        number: UnreadNumber,
    ) -> Result<UnreadCertificate, AllocError>
        requires merged { IsWhollyMerged table.now number.merged.table
            number.merged.class_of.items }
        requires shown { AreShown number.merged.table number.evidence.least number.evidence.most
            number.evidence.bounds }
        // promise: certificate-without-reads (IsRight)
        ensures right { IfOk result (IsRight table.now) }
        // promise: certificate-without-reads (IsLeastKept)
        ensures least { IfOk result (λ c. IsLeastKept number.evidence.least
            (least_of number.evidence.bounds) c.at_least) }
        // promise: certificate-without-reads (IsMostKept)
        ensures most { IfOk result (λ c. IsMostKept number.evidence.most
            (most_of number.evidence.bounds) c.at_least c.at_most) }
    {
        let UnreadNumber { merged, evidence } = number;
        tables_are_valid(&merged.table);
        let Evidence {
            bounds,
            least,
            most,
        } = evidence;
        let type_name = String::from_str(alloc, table.name())?;
        let lower = lower_of(&merged.table, least_of(bounds), least);
        let at_least = lower.at_least;
        let upper = upper_of(alloc, &merged.table, at_least, most_of(bounds), most)?;
        Ok(UnreadCertificate {
            at_least,
            at_most: upper.at_most,
            least: lower.by,
            most: upper.by,
            type_name,
        })
    }
}

/// The certificate of the number of a type without reads, as it is found: it keeps the bounds of
/// that number, as [`UnreadCertificate::of_number`] says.
///
/// # Errors
///
/// `AllocError` if memory runs out.
pub fn unread_certificate<T: Threads + Sync>(
    rt: &T,
    alloc: Global,
    table: &Table,
) -> Result<UnreadCertificate, AllocError>
    // promise: certificate-without-reads (IsRight)
    ensures right { IfOk result (IsRight table.now) }
    // promise: certificate-without-reads (KeepsFound)
    ensures kept { IfOk result (KeepsFound table.now) }
{
    let number = unread_number(rt, alloc, table)?;
    tables_are_valid(&number.merged.table);
    let certificate = UnreadCertificate::of_number(alloc, table, number)?;
    Ok(certificate)
}
