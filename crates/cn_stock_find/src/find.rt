//! The certificate by stocks of a type.
ghost use Rattle.std.specs.Prelude.{◌≡◌, ◌≤◌, ◌⊎◌, Err, IfErr, IfOk, None, OnOk, Some, option_map};
ghost use Rattle.cn_choice.specs.Discerning.{IsDiscerning, IsNumberUpTo};
ghost use Rattle.cn_finding.specs.declared.limits.TheConstants.{GREATEST_LIMIT, LEAST_LIMIT};
ghost use Rattle.cn_search.specs.Faults.{number_fault};
ghost use Rattle.cn_search.specs.Numbers.{HasNumber};
ghost use Rattle.cn_search.specs.declared.exact.ConsensusNumber.TheVariants.{Finite as FiniteNumber};
ghost use Rattle.cn_search.specs.declared.fault.FindFault.{FindFault};
ghost use Rattle.cn_search.specs.declared.fault.FindFault.TheVariants.{OutOfMemory};
ghost use Rattle.cn_stock_cert.specs.Right.{ShowsAtLeast, ShowsAtMost};
ghost use Rattle.cn_stock_cert.specs.declared.certificate.StockClaim.TheVariants.{Witness};
ghost use Rattle.cn_stock_find.specs.Found.{IsCertificateOf, IsClaimOf, IsFirstClaim, IsFoundCertificate};
ghost use Rattle.cn_stock_find.specs.Found.{discerning_number, limit_fault, lower_bound, upper_bound};
ghost use Rattle.cn_stocks.specs.declared.limits.TheConstants.{MOST_SIZE};
ghost use Rattle.cn_table.specs.declared.limits.TheConstants.{MOST_STATES};
ghost use Rattle.cn_stocks.specs.Leaving.{IsLasting};

use crate::joins::{joins_against, witness_of};
use crate::lasting::lasting_sets;
use cn_choice::{Choice, laws};
use cn_finding::{GREATEST_LIMIT, LEAST_LIMIT};
use cn_join_find::Split;
use cn_joins::Join;
use cn_joins::laws::joins_decide;
use cn_outcomes::is_witness;
use cn_search::{ConsensusNumber, FindFault, Kind, consensus_number, first_of_kind, number};
use cn_stock_cert::{StockCertificate, StockClaim, TeamChoice};
use cn_stocks::lasting::laws::lasting_operations_decide;
use cn_stocks::lasting::{Lasting, find_lasting};
use cn_stocks::limits::MOST_SIZE;
use cn_table::laws::tables_are_valid;
use cn_table::{State, Table};
use std::alloc::{AllocError, Global};
use std::thread::Threads;

/// The lower bound that the number up to a limit gives.
fn least_of(number: Option<u8>) -> u8
    ensures { result ≡ lower_bound number }
{
    match number {
        None => 1,
        Some(n) => n,
    }
}

/// The upper bound that the number up to a limit gives.
fn most_of(limit: u8, number: Option<u8>) -> Option<u8>
    ensures { result ≡ upper_bound limit number }
{
    match number {
        None => Some(1),
        Some(n) if n < limit => Some(n),
        Some(_) => None,
    }
}

/// The joins that show the upper bound, if there is one.
fn joins_above<T: Threads + Sync>(
    rt: &T,
    alloc: Global,
    table: &Table,
    limit: u8,
    number: Option<u8>,
) -> Result<Option<Vec<Join>>, AllocError>
    requires few { limit ≤ MOST_SIZE }
    requires some { LEAST_LIMIT ≤ limit }
    requires number { IsNumberUpTo table.now limit number }
    ensures { IfOk result (λ joins. ShowsAtMost table.now (option_map (λ list. list.items) joins)
        (upper_bound limit number)) }
{
    joins_decide();
    let Some(most) = most_of(limit, number) else {
        return Ok(None);
    };
    let n = most + 1;
    let joins = joins_against(rt, alloc, table, n)?;
    Ok(joins)
}

/// The kind of witness that shows that a type is n-discerning.
struct DiscerningWitness;

impl Kind for DiscerningWitness {
    ghost use Rattle.cn_choice.specs.Discerning.{IsWitness};

    ghost holds = { IsWitness };

    fn is_witness(table: &Table, choice: &Choice) -> bool {
        is_witness(table, choice)
    }
}

/// The claim with this witness.
fn witness_claim(alloc: Global, choice: &Choice) -> Result<StockClaim, AllocError>
    ensures { IfOk result (λ claim. claim ≡ Witness choice.now) }
{
    let a = Vec::from_slice(alloc, choice.a.as_slice())?;
    let b = Vec::from_slice(alloc, choice.b.as_slice())?;
    Ok(StockClaim::Witness(TeamChoice {
        state: choice.state,
        a,
        b,
    }))
}

/// The claim with the first witness for n processes.
fn first_claim<T: Threads + Sync>(
    rt: &T,
    alloc: Global,
    table: &Table,
    n: u8,
) -> Result<StockClaim, AllocError>
    requires some { LEAST_LIMIT ≤ n }
    requires few { n ≤ GREATEST_LIMIT }
    requires discerning { IsDiscerning table.now n }
    ensures { IfOk result (IsFirstClaim table.now (Some n)) }
{
    laws::live_choices_decide();
    let found = first_of_kind::<DiscerningWitness, T>(rt, alloc, table, n)?;
    match found {
        Some(choice) => witness_claim(alloc, &choice),
        None => unreachable!(),
    }
}

/// The claim with this witness, which a stock that splits gives.
fn split_claim(split: Split) -> StockClaim
    ensures { result ≡ Witness split }
{
    let Split { start, a, b } = split;
    StockClaim::Witness(TeamChoice {
        state: State(start),
        a,
        b,
    })
}

/// The claim with some witness for n processes.
fn some_claim<T: Threads + Sync>(
    rt: &T,
    alloc: Global,
    table: &Table,
    n: u8,
) -> Result<StockClaim, AllocError>
    requires some { 3 ≤ n }
    requires few { n ≤ MOST_SIZE }
    requires discerning { IsDiscerning table.now n }
    ensures { IfOk result (λ claim. ShowsAtLeast table.now claim (Some n)) }
{
    let found = witness_of(rt, alloc, table, n)?;
    match found {
        Some(split) => Ok(split_claim(split)),
        None => unreachable!(),
    }
}

/// The claim that shows the number up to a limit: nothing if there is no number, its first witness
/// if it is not above [`GREATEST_LIMIT`](cn_finding::GREATEST_LIMIT), and else some witness.
fn claim_of<T: Threads + Sync>(
    rt: &T,
    alloc: Global,
    table: &Table,
    limit: u8,
    number: Option<u8>,
) -> Result<StockClaim, AllocError>
    requires few { limit ≤ MOST_SIZE }
    requires number { IsNumberUpTo table.now limit number }
    ensures { IfOk result (IsClaimOf table.now number) }
{
    laws::live_list();
    let _limit = limit;
    let Some(n) = number else {
        return Ok(StockClaim::Alone);
    };
    if n > GREATEST_LIMIT {
        return some_claim(rt, alloc, table, n);
    }
    first_claim(rt, alloc, table, n)
}

/// The certificate of the number up to a limit.
fn certificate_of<T: Threads + Sync>(
    rt: &T,
    alloc: Global,
    table: &Table,
    limit: u8,
    number: Option<u8>,
) -> Result<StockCertificate, AllocError>
    requires few { limit ≤ MOST_SIZE }
    requires some { LEAST_LIMIT ≤ limit }
    requires number { IsNumberUpTo table.now limit number }
    requires small { lower_bound number ≤ MOST_STATES }
    ensures { IfOk result (IsCertificateOf table.now limit number) }
{
    let at_least = least_of(number);
    let at_most = most_of(limit, number);
    let least = claim_of(rt, alloc, table, limit, number)?;
    let most = joins_above(rt, alloc, table, limit, number)?;
    let type_name = String::from_str(alloc, table.name())?;
    Ok(StockCertificate {
        at_least: Some(at_least),
        at_most,
        least,
        most,
        type_name,
    })
}

/// The certificate of the number up to a limit, if the limit has no fault.
fn find_up_to<T: Threads + Sync>(
    rt: &T,
    alloc: Global,
    table: &Table,
    limit: u8,
) -> Result<StockCertificate, FindFault>
    ensures certificate { IfOk result (IsFoundCertificate table.now (Some limit)) }
    ensures searched { OnOk result (number_fault limit ≡ None) }
    ensures told { (e : FindFault) → number_fault limit ≡ Some e → result ≡ Err e }
    ensures refused { IfErr result (λ e. (e ≡ OutOfMemory) ⊎ (number_fault limit ≡ Some e)) }
{
    let found = number(rt, alloc, table, limit)?;
    let certificate = certificate_of(rt, alloc, table, limit, found)?;
    Ok(certificate)
}

/// The number, if it is from 2 on.
fn from_two(n: u8) -> Option<u8>
    ensures { result ≡ discerning_number n }
{
    if n < LEAST_LIMIT {
        return None;
    }
    Some(n)
}

/// The certificate of a finite number.
fn finite_certificate<T: Threads + Sync>(
    rt: &T,
    alloc: Global,
    table: &Table,
    n: u8,
) -> Result<StockCertificate, AllocError>
    requires number { HasNumber table.now (FiniteNumber n) }
    ensures { IfOk result (IsFoundCertificate table.now None) }
{
    tables_are_valid(table);
    let limit = MOST_SIZE as u8;
    let number = from_two(n);
    let certificate = certificate_of(rt, alloc, table, limit, number)?;
    Ok(certificate)
}

/// The certificate of two operations that last.
fn lasting_certificate(
    alloc: Global,
    table: &Table,
    lasting: Lasting,
) -> Result<StockCertificate, AllocError>
    requires { IsLasting table.now lasting }
    ensures { IfOk result (IsFoundCertificate table.now None) }
{
    lasting_operations_decide();
    let sets = lasting_sets(alloc, table, lasting)?;
    let type_name = String::from_str(alloc, table.name())?;
    Ok(StockCertificate {
        at_least: None,
        at_most: None,
        least: StockClaim::Lasting(sets),
        most: None,
        type_name,
    })
}

/// The certificate with no limit.
fn find_without_limit<T: Threads + Sync>(
    rt: &T,
    alloc: Global,
    table: &Table,
) -> Result<StockCertificate, AllocError>
    ensures { IfOk result (IsFoundCertificate table.now None) }
{
    lasting_operations_decide();
    if let Some(lasting) = find_lasting(table) {
        return lasting_certificate(alloc, table, lasting);
    }
    let number = consensus_number(rt, alloc, table)?;
    match number {
        ConsensusNumber::Finite(n) => finite_certificate(rt, alloc, table, n),
        ConsensusNumber::Infinite => unreachable!(),
    }
}

/// The certificate by stocks of a type: its bounds, and evidence for each.
///
/// With a limit, from [`LEAST_LIMIT`](cn_finding::LEAST_LIMIT) to
/// [`GREATEST_LIMIT`](cn_finding::GREATEST_LIMIT), the lower bound is the number up to the limit, or
/// 1, and a number below the limit is the upper bound too. With no limit, a type with every number
/// has no bounds. The finite number of any other one is its lower and its upper bound.
///
/// The first canonical witness shows the lower bound, and another witness one above the greatest
/// limit. Joins show the upper one ([`joins_against`](crate::joins_against)). Sets of states show
/// every number ([`lasting_sets`](crate::lasting_sets)).
///
/// # Errors
///
/// `BadLimit` if there is a limit and it is not one of these. `OutOfMemory` can stand in place of a
/// certificate.
pub fn find_stocks<T: Threads + Sync>(
    rt: &T,
    alloc: Global,
    table: &Table,
    limit: Option<u8>,
) -> Result<StockCertificate, FindFault>
    // promise: certificate-of-a-search (IsFoundCertificate: IsRight, IsFoundWithin)
    ensures certificate { IfOk result (IsFoundCertificate table.now limit) }
    // promise: certificate-of-a-search
    ensures searched { OnOk result (limit_fault limit ≡ None) }
    // promise: certificate-of-a-search
    ensures told { (e : FindFault) → limit_fault limit ≡ Some e → result ≡ Err e }
    // promise: certificate-of-a-search
    ensures refused { IfErr result (λ e. (e ≡ OutOfMemory) ⊎ (limit_fault limit ≡ Some e)) }
{
    match limit {
        Some(limit) => find_up_to(rt, alloc, table, limit),
        None => Ok(find_without_limit(rt, alloc, table)?),
    }
}
