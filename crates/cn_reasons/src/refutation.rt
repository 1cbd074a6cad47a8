//! What a certificate refutes: the ways for one process more than its number.
ghost use Rattle.std.specs.Prelude.{◌≡◌, ◌≤◌, length, All, IfOk, IfSome, IsSomeAnd, MatchOption, None};
ghost use Rattle.cn_choice.specs.declared.limits.TheConstants.{MOST_PROCESSES};
ghost use Rattle.cn_check.specs.Verdict.{IsAccepted};
ghost use Rattle.cn_reasons.specs.Known.{IsKnownRefutation, IsKnownWay};
ghost use Rattle.cn_reasons.specs.Refutations.{first_told, refuted_processes, IsRefutationOf};
ghost use Rattle.cn_reasons.specs.Ways.{IsCollisionOf, IsWayOf};

use crate::way::{Way, ways_of};
use cn_cert::Certificate;
use cn_choice::Collision;
use cn_choice::laws::{canonical_list, live_list};
use cn_form::MOST_TOLD;
use cn_table::Table;
use std::alloc::{AllocError, Global};

/// Why the number is no more: none of the ways for so many processes works.
#[derive(Drop)]
pub struct Refutation<W> {
    /// For how many processes the ways are.
    pub processes: u8,
    /// The ways that are told, in order: all of them, or the first [`MOST_TOLD`](cn_form::MOST_TOLD).
    pub ways: Vec<W>,
    /// The number of all ways.
    pub count: usize,
    /// The number of ways that are not told.
    pub more: usize,
}

/// The entries that are told: all of them, or the first [`MOST_TOLD`](cn_form::MOST_TOLD).
fn first_told(entries: &[Collision], all: bool) -> &[Collision]
    ensures told { result.now ≡ first_told all entries.now }
    ensures few { length result.now ≤ length entries.now }
{
    if all || entries.len() <= MOST_TOLD {
        entries
    } else {
        &entries[..MOST_TOLD]
    }
}

/// The refutation for so many processes by these entries.
fn refutation_by(
    alloc: Global,
    table: &Table,
    processes: u8,
    entries: &[Collision],
    all: bool,
) -> Result<Refutation<Way>, AllocError>
    requires entries { All (IsCollisionOf table.now) entries.now }
    requires some { 2 ≤ processes }
    requires few { processes ≤ MOST_PROCESSES }
    ensures refutation { IfOk result
        (IsRefutationOf (IsWayOf table.now) processes all entries.now) }
    ensures known { IfOk result (IsKnownRefutation (IsKnownWay table.now)) }
{
    let told = first_told(entries, all);
    Ok(Refutation {
        processes,
        ways: ways_of(alloc, table, told)?,
        count: entries.len(),
        more: entries.len() - told.len(),
    })
}

/// For how many processes the certificate refutes the choices, if its number is below its limit.
fn refuted_processes(certificate: &Certificate) -> Option<u8>
    ensures { result ≡ refuted_processes certificate.now.limit certificate.now.number }
{
    match certificate.number {
        None => Some(2),
        Some(n) if n < certificate.limit => Some(n + 1),
        Some(_) => None,
    }
}

/// The entries of the certificate.
fn entries_of(certificate: &Certificate) -> &[Collision]
    ensures { result.now ≡ certificate.now.collisions }
{
    certificate.collisions.as_slice()
}

/// What the certificate refutes, if its number is below its limit.
pub(crate) fn refutation_of(
    alloc: Global,
    table: &Table,
    certificate: &Certificate,
    all: bool,
) -> Result<Option<Refutation<Way>>, AllocError>
    requires { IsAccepted table.now certificate.now }
    ensures refutation { IfOk result (λ refutation.
        MatchOption (refuted_processes certificate.now.limit certificate.now.number)
        (refutation ≡ None)
        (λ n. IsSomeAnd refutation
        (IsRefutationOf (IsWayOf table.now) n all certificate.now.collisions))) }
    ensures known { IfOk result (λ refutation.
        IfSome refutation (IsKnownRefutation (IsKnownWay table.now))) }
{
    // By these laws each entry is of a choice of the table.
    canonical_list();
    live_list();
    let Some(n) = refuted_processes(certificate) else {
        return Ok(None);
    };
    let refutation = refutation_by(alloc, table, n, entries_of(certificate), all)?;
    Ok(Some(refutation))
}
