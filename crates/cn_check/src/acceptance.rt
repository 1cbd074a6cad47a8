//! The check of a certificate whose entries are still text, in one pass.
ghost use Rattle.std.specs.Prelude.{◌≡◌, ◌≤◌, [], IsTrue};
ghost use Rattle.cn_check.specs.Conditions.{IsInRange};
ghost use Rattle.cn_check.specs.EntryTexts.{AreSpelled};
ghost use Rattle.cn_check.specs.Verdict.{IsAcceptedWith};
ghost use Rattle.cn_check.specs.Versions.{choices_to_refute_in};

use crate::one_pass::are_entries;
use crate::verdict::{check_witness, is_in_range, is_of_type};
use cn_cert::Certificate;
use cn_table::Table;

/// Whether the bytes are the text of entries that refute the choices that count in the version, for
/// one process more than the number, or for two without a number. If the number is the limit, there
/// must be no entries.
fn are_evidence(table: &Table, version: u8, limit: u8, number: Option<u8>, entries: &[u8]) -> bool
    requires { IsInRange version limit number }
    ensures { IsTrue result → AreSpelled table.now
        (choices_to_refute_in version table.now limit number) entries.now [] }
{
    match number {
        None => are_entries(table, version, 2, entries),
        Some(n) if n < limit => are_entries(table, version, n + 1, entries),
        Some(_) => entries.is_empty(),
    }
}

/// Whether the check accepts the certificate with the entries of this text in place of its own.
///
/// The text is what stands between the brackets of the array of the entries. The call goes through
/// it once and keeps nothing. It only accepts: if it answers no, the text can still spell, in
/// another form, entries with which [`check`](crate::check) accepts the certificate.
pub fn accepts(table: &Table, certificate: &Certificate, entries: &[u8]) -> bool
    // promise: acceptance-of-text (IsAcceptedWith: AreEntries, IsAccepted)
    ensures { IsTrue result → IsAcceptedWith table.now certificate.now entries.now }
{
    let (version, limit, number) = (certificate.version, certificate.limit, certificate.number);
    if !is_of_type(certificate, table) {
        return false;
    }
    if !is_in_range(version, limit, number) {
        return false;
    }
    let Ok(()) = check_witness(table, number, &certificate.witness) else {
        return false;
    };
    are_evidence(table, version, limit, number, entries)
}
