//! The check of a certificate.
ghost use Rattle.std.specs.Prelude.{◌≡◌, ◌≤◌, ◌↔◌, IfErr, IfSome, IsOk, IsTrue, OnOk};
ghost use Rattle.std.specs.List.{AllZip};
ghost use Rattle.cn_choice.specs.declared.limits.TheConstants.{MOST_PROCESSES};
ghost use Rattle.cn_choice.specs.Canonical.{raw_choice_of};
ghost use Rattle.cn_choice.specs.Discerning.{IsNumberUpTo, IsWitness};
ghost use Rattle.cn_finding.specs.Evidence.{IsFindingFor};
ghost use Rattle.cn_finding.specs.Finding.{Finding};
ghost use Rattle.cn_finding.specs.declared.limits.TheConstants.{GREATEST_LIMIT, LEAST_LIMIT};
ghost use Rattle.cn_cert.specs.Certificate.{certificate_of};
ghost use Rattle.cn_check.specs.Conditions.{HasWitnessFor, IsInRange, Refutes};
ghost use Rattle.cn_check.specs.Faults.{IsFirstFault};
ghost use Rattle.cn_check.specs.EvidenceFaults.{IsEvidenceFault, IsWitnessFault};
ghost use Rattle.cn_check.specs.Verdict.{IsAccepted};
ghost use Rattle.cn_check.specs.Versions.{choices_to_refute_in, greatest_limit};

use crate::CheckFault;
use crate::choice::is_choice_for;
use crate::laws::accepted_is_right;
use crate::refutation::check_entries;
use crate::witness::first_meeting;
use cn_cert::Certificate;
use cn_choice::{Choice, Collision};
use cn_table::Table;

/// Whether the certificate is for a type of the table's name.
pub(crate) fn is_of_type(certificate: &Certificate, table: &Table) -> bool
    ensures { IsTrue result ↔ (certificate.now.type_name ≡ table.now.name) }
{
    certificate.type_name.as_str() == table.name()
}

/// The greatest limit of a certificate of the version; 0 if no such version exists.
fn greatest_limit(version: u8) -> u8
    ensures { result ≡ greatest_limit version }
{
    match version {
        1 => 6,
        2 => 8,
        _ => 0,
    }
}

/// Whether the limit is from 2 to the greatest limit of the version, and the number, if there is
/// one, from 2 to the limit.
pub(crate) fn is_in_range(version: u8, limit: u8, number: Option<u8>) -> bool
    ensures { IsTrue result ↔ IsInRange version limit number }
{
    let limit_is = 2 <= limit && limit <= greatest_limit(version);
    match number {
        Some(n) => limit_is && 2 <= n && n <= limit,
        None => limit_is,
    }
}

/// Checks that the witness is one of the table for the number, and that there is none without a
/// number. The witness need not be canonical.
pub(crate) fn check_witness(
    table: &Table,
    number: Option<u8>,
    witness: &Option<Choice>,
) -> Result<(), CheckFault>
    requires some { IfSome number (λ n. 2 ≤ n) }
    requires few { IfSome number (λ n. n ≤ MOST_PROCESSES) }
    ensures fits { OnOk result (HasWitnessFor table.now number witness.now) }
    ensures witness { OnOk result
        (IfSome witness.now (λ w. IsWitness table.now (raw_choice_of w))) }
    ensures fault { IfErr result (IsWitnessFault table.now number witness.now) }
{
    match (number, witness) {
        (None, None) => Ok(()),
        (Some(n), Some(choice)) if is_choice_for(choice, table, n) => {
            match first_meeting(table, choice) {
                Some(process) => Err(CheckFault::WitnessMeets(process)),
                None => Ok(()),
            }
        }
        _ => Err(CheckFault::WitnessShape),
    }
}

/// Checks that the entries refute the choices that count in the version, for one process more than
/// the number, or for two without a number. If the number is the limit, there must be no entries.
fn check_evidence(
    table: &Table,
    version: u8,
    limit: u8,
    number: Option<u8>,
    entries: &[Collision],
) -> Result<(), CheckFault>
    requires { IsInRange version limit number }
    ensures refuted { OnOk result
        (AllZip (Refutes table.now) (choices_to_refute_in version table.now limit number)
        entries.now) }
    ensures fault { IfErr result (IsEvidenceFault table.now version limit number entries.now) }
{
    match number {
        None => check_entries(table, version, entries, 2),
        Some(n) if n < limit => check_entries(table, version, entries, n + 1),
        Some(_) if entries.is_empty() => Ok(()),
        Some(_) => Err(CheckFault::Unexpected),
    }
}

/// Checks a certificate against the table of its type.
///
/// `Ok` says that the certificate is for this type and that its number is the type's up to its
/// limit. Each certificate of a finding of this table is accepted. The check allocates nothing.
///
/// # Errors
///
/// The first fault of the certificate, in the order that [`CheckFault`] gives.
pub fn check(table: &Table, certificate: &Certificate) -> Result<(), CheckFault>
    // promise: acceptance
    // promise: wanted-entries (IsAccepted: refuted, choices_to_refute_in)
    // promise: pairs-by-explain (IsAccepted: witness, refuted)
    ensures accepted { OnOk result (IsAccepted table.now certificate.now) }
    // promise: acceptance
    // promise: wanted-entries (IsAccepted: refuted, choices_to_refute_in)
    ensures passes { IsAccepted table.now certificate.now → IsOk result }
    // promise: acceptance (IsFirstFault)
    ensures refused { IfErr result (IsFirstFault table.now certificate.now) }
    // promise: acceptance
    ensures number { OnOk result
        (IsNumberUpTo table.now certificate.now.limit certificate.now.number) }
    // promise: accepted-numbers
    ensures found { (f : Finding) → IsFindingFor table.now f.limit f
        → LEAST_LIMIT ≤ f.limit → f.limit ≤ GREATEST_LIMIT
        → certificate.now ≡ certificate_of table.now.name f → IsOk result }
{
    accepted_is_right();
    if !is_of_type(certificate, table) {
        return Err(CheckFault::OtherType);
    }
    let (version, limit, number) = (certificate.version, certificate.limit, certificate.number);
    if !is_in_range(version, limit, number) {
        return Err(CheckFault::BadNumber);
    }
    check_witness(table, number, &certificate.witness)?;
    let entries = certificate.collisions.as_slice();
    check_evidence(table, version, limit, number, entries)
}
