//! The check of a certificate by stocks.
ghost use Rattle.std.specs.Prelude.{◌≡◌, ◌≤◌, ◌⊎◌, ◌↔◌, IfErr, IfSome, IsTrue, OnOk, option_map};
ghost use Rattle.cn_table.specs.declared.limits.TheConstants.{MOST_STATES};
ghost use Rattle.cn_stock_cert.specs.Right.{AreBounds, AreInRange, IsRight, ShowsAtMost};
ghost use Rattle.cn_stock_check.specs.Faults.{IsFirstFault};
ghost use Rattle.cn_stock_check.specs.MostFaults.{IsFirstMostFault};
ghost use Rattle.cn_stock_check.specs.declared.fault.StockCheckFault.TheVariants.{OutOfMemory};

use crate::evidence::check_evidence;
use crate::fault::StockCheckFault;
use crate::laws::faults_are_wrong;
use crate::least::check_least;
use cn_joins::Join;
use cn_stock_cert::StockCertificate;
use cn_stock_cert::laws::right_bounds_hold;
use cn_table::{MOST_STATES, Table};
use std::alloc::Global;

/// The greatest bound of a certificate.
const MOST: u8 = MOST_STATES as u8;

/// Whether the certificate is for a type of the table's name.
fn is_of_type(certificate: &StockCertificate, table: &Table) -> bool
    ensures { IsTrue result ↔ (certificate.now.type_name ≡ table.now.name) }
{
    certificate.type_name.as_str() == table.name()
}

/// Whether the bounds are in range: every number and no upper bound; or a lower bound from 1 to 16,
/// and an upper bound from it to 16 or none.
fn are_in_range(at_least: Option<u8>, at_most: Option<u8>) -> bool
    ensures { IsTrue result ↔ AreInRange at_least at_most }
{
    match (at_least, at_most) {
        (None, None) => true,
        (None, Some(_)) => false,
        (Some(n), None) => 1 <= n && n <= MOST,
        (Some(n), Some(m)) => 1 <= n && n <= m && m <= MOST,
    }
}

/// Checks that the joins show the upper bound.
#[tactic(auto, using(crate::proofs::Firsts::first_of_joins, crate::proofs::Firsts::first_most_shape))]
fn check_most(
    alloc: Global,
    table: &Table,
    most: &Option<Vec<Join>>,
    bound: Option<u8>,
) -> Result<(), StockCheckFault>
    requires { IfSome bound (λ m. m ≤ MOST_STATES) }
    ensures shown { OnOk result
        (ShowsAtMost table.now (option_map (λ joins. joins.items) most.now) bound) }
    ensures fault { IfErr result (λ e. (e ≡ OutOfMemory)
        ⊎ IsFirstMostFault table.now (option_map (λ joins. joins.items) most.now) bound e) }
{
    match (most, bound) {
        (None, None) => Ok(()),
        (Some(joins), Some(m)) => check_evidence(alloc, table, m + 1, joins.as_slice()),
        _ => Err(StockCheckFault::MostShape),
    }
}

/// Checks a certificate by stocks against the table of its type.
///
/// `Ok` says that the certificate is for this type, and that its evidence shows its bounds: so each
/// of them is a bound of the type's number. Each certificate of which that is so is accepted, if
/// memory suffices.
///
/// # Errors
///
/// The first of the faults 1 to 10 of [`StockCheckFault`] that the certificate has. `OutOfMemory` if
/// memory runs out; the certificate is not judged then.
pub fn check_stocks(
    alloc: Global,
    table: &Table,
    certificate: &StockCertificate,
) -> Result<(), StockCheckFault>
    // promise: check-by-stocks (IsRight)
    ensures accepted { OnOk result (IsRight table.now certificate.now) }
    // promise: check-by-stocks (AreBounds)
    ensures bounds { OnOk result
        (AreBounds table.now certificate.now.at_least certificate.now.at_most) }
    // promise: check-by-stocks (IsFirstFault)
    ensures refused { IfErr result (λ e. (e ≡ OutOfMemory)
        ⊎ IsFirstFault table.now certificate.now e) }
    // promise: check-by-stocks (IsRight)
    ensures passes { IsRight table.now certificate.now
        → IfErr result (λ e. e ≡ OutOfMemory) }
{
    right_bounds_hold();
    faults_are_wrong();
    if !is_of_type(certificate, table) {
        return Err(StockCheckFault::OtherType);
    }
    let (least, most) = (certificate.at_least, certificate.at_most);
    if !are_in_range(least, most) {
        return Err(StockCheckFault::BadNumber);
    }
    check_least(alloc, table, &certificate.least, least)?;
    check_most(alloc, table, &certificate.most, most)
}
