//! The check of a certificate of a number without reads.
ghost use Rattle.std.specs.Prelude.{◌≡◌, ◌⊎◌, ◌↔◌, IfErr, IsTrue, OnOk};
ghost use Rattle.cn_unread_cert.specs.Right.{AreInRange, IsRight};
ghost use Rattle.cn_unread_check.specs.Bounds.{bounds_of};
ghost use Rattle.cn_unread_check.specs.Faults.{ComeScenesLast, IsFirstFault, IsUndecided};
ghost use Rattle.cn_unread_number.specs.Bounds.{HasUnreadNumber};

use crate::evidence::{shows_at_least, shows_at_most};
use crate::fault::UnreadCheckFault;
use crate::laws::{accepted_bounds_hold, faults_are_wrong};
use cn_merging::merge;
use cn_table::Table;
use cn_table::laws::tables_are_valid;
use cn_unread_cert::UnreadCertificate;
use std::alloc::Global;

/// Whether the certificate is for a type of the table's name.
fn is_of_type(certificate: &UnreadCertificate, table: &Table) -> bool
    ensures { IsTrue result ↔ (certificate.now.type_name ≡ table.now.name) }
{
    certificate.type_name.as_str() == table.name()
}

/// Whether the bounds are in range: every number and no upper bound; or a lower bound from 1 to 8,
/// and an upper bound from it to 7 or none.
fn are_in_range(at_least: Option<u8>, at_most: Option<u8>) -> bool
    ensures { IsTrue result ↔ AreInRange at_least at_most }
{
    match (at_least, at_most) {
        (None, None) => true,
        (None, Some(_)) => false,
        (Some(n), None) => 1 <= n && n <= 8,
        (Some(n), Some(m)) => 1 <= n && n <= m && m < 8,
    }
}

/// Checks a certificate of a number without reads against the table of its type.
///
/// `Ok` says that the certificate is for this type, and that its evidence shows its bounds: so each
/// of them is a bound of the type's number. A certificate of which that is so is accepted, if the
/// check comes to its end.
///
/// # Errors
///
/// The first of the faults 1 to 4 of [`UnreadCheckFault`] that the certificate has. `OutOfMemory` if
/// memory runs out, and `TooManyScenes` if further operations lead to more than 20,000 scenes; the
/// certificate is not judged then.
pub fn check_unread(
    alloc: Global,
    table: &Table,
    certificate: &UnreadCertificate,
) -> Result<(), UnreadCheckFault>
    // promise: check-without-reads (IsRight)
    ensures accepted { OnOk result (IsRight table.now certificate.now) }
    // promise: check-without-reads (HasUnreadNumber)
    ensures bounds { OnOk result (HasUnreadNumber table.now
        (bounds_of certificate.now.at_least certificate.now.at_most)) }
    // promise: check-without-reads (IsFirstFault)
    ensures refused { IfErr result (λ e. IsUndecided certificate.now e
        ⊎ IsFirstFault table.now certificate.now e) }
    // promise: check-without-reads (IsUndecided)
    ensures passes { IsRight table.now certificate.now
        → IfErr result (IsUndecided certificate.now) }
    // promise: check-without-reads (ComeScenesLast)
    ensures scenes { IfErr result (ComeScenesLast table.now certificate.now) }
{
    let (least, most) = (certificate.at_least, certificate.at_most);
    accepted_bounds_hold();
    faults_are_wrong();
    let merged = merge(alloc, table)?;
    tables_are_valid(&merged.table);
    tables_are_valid(table);
    if !is_of_type(certificate, table) {
        return Err(UnreadCheckFault::OtherType);
    }
    if !are_in_range(least, most) {
        return Err(UnreadCheckFault::BadNumber);
    }
    match shows_at_least(alloc, &merged.table, &certificate.least, least)? {
        Some(true) => {}
        Some(false) => return Err(UnreadCheckFault::Least),
        None => return Err(UnreadCheckFault::TooManyScenes),
    }
    if !shows_at_most(&merged.table, &certificate.most, most) {
        return Err(UnreadCheckFault::Most);
    }
    Ok(())
}
