//! Whether joins are evidence that a type is not n-discerning.
ghost use Rattle.std.specs.Prelude.{◌≡◌, ◌≤◌, ◌+◌, ◌⊎◌, ◌↔◌, ◌<◌, ℕ, IfErr, IfNone, IfSome, IsTrue, OnOk, length};
ghost use Rattle.cn_table.specs.declared.limits.TheConstants.{MOST_STATES};
ghost use Rattle.cn_joins.specs.Evidence.{IsEvidenceAgainst, NoticesItself, SomeNotices};
ghost use Rattle.cn_stock_check.specs.Faults.{NoticesItselfSomewhere};
ghost use Rattle.cn_stock_check.specs.JoinFaults.{IsFirstJoinFault};
ghost use Rattle.cn_stock_check.specs.declared.fault.StockCheckFault.TheVariants.{OutOfMemory};

use crate::fault::StockCheckFault;
use crate::joins::first_other;
use crate::stocks::first_open;
use cn_joins::Join;
use cn_table::{Operation, State, Table};
use std::alloc::Global;

/// Whether the operation notices itself from the state.
pub(crate) fn notices_itself(table: &Table, start: State, operation: Operation) -> bool
    requires start { start.0 < length table.now.states }
    requires operation { operation.0 < length table.now.operations }
    ensures { IsTrue result ↔ NoticesItself table.now start.0 operation.0 }
{
    let (response, next) = table.apply(operation, start);
    let (again, _) = table.apply(operation, next);
    response.0 != again.0
}

/// Whether the operation notices itself from some state.
fn notices_somewhere(table: &Table, operation: Operation) -> bool
    requires { operation.0 < length table.now.operations }
    ensures { IsTrue result ↔ ((start : ℕ) × (start < length table.now.states)
        × NoticesItself table.now start operation.0) }
{
    for start in 0..table.states() {
        if notices_itself(table, State(start), operation) {
            return true;
        }
    }
    false
}

/// The first operation that notices itself from some state, if there is one.
fn first_noticing(table: &Table) -> Option<u8>
    ensures none { IfNone result (¬ SomeNotices table.now) }
    ensures some { IfSome result (NoticesItselfSomewhere table.now) }
    ensures first { IfSome result (λ found. (o : ℕ) → o < found
        → ¬ NoticesItselfSomewhere table.now o) }
{
    for operation in 0..table.operations() {
        if notices_somewhere(table, Operation(operation)) {
            return Some(operation);
        }
    }
    None
}

/// Checks that the joins are evidence that the type of the table is not n-discerning.
#[tactic(auto, using(crate::proofs::Firsts::no_join, crate::proofs::Firsts::notice, crate::proofs::Firsts::left_open, crate::proofs::Firsts::is_evidence))]
pub(crate) fn check_evidence(
    alloc: Global,
    table: &Table,
    n: u8,
    joins: &[Join],
) -> Result<(), StockCheckFault>
    requires { n ≤ MOST_STATES + 1 }
    ensures shown { OnOk result (IsEvidenceAgainst table.now n joins.now) }
    ensures fault { IfErr result (λ e. (e ≡ OutOfMemory)
        ⊎ IsFirstJoinFault table.now n joins.now e) }
{
    if let Some(place) = first_other(table, joins) {
        return Err(StockCheckFault::NotAJoin(place as u64));
    }
    if n == 2 {
        if let Some(operation) = first_noticing(table) {
            return Err(StockCheckFault::NoticesItself(operation));
        }
    }
    match first_open(alloc, table, n, joins)? {
        Some(state) => Err(StockCheckFault::NotConnected(state)),
        None => Ok(()),
    }
}
