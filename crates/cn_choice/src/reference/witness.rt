//! What a process sees of a run, and by every pair of orders whether a raw choice is a witness.
ghost use Rattle.std.specs.Prelude.{◌≡◌, ◌<◌, ◌↔◌, ℕ, length, All, Any, IfOk, IfSome, IsTrue, Some};
ghost use Rattle.cn_choice.specs.RawChoices.{IsRawChoice};
ghost use Rattle.cn_choice.specs.OutcomeSets.{BeginsIn, pair_of};
ghost use Rattle.cn_choice.specs.Discerning.{IsWitness};
ghost use Rattle.cn_choice.specs.Meeting.{Meet, Collide};

use crate::limits::MOST_PROCESSES;
use crate::reference::plain_orders;
use crate::{RawChoice, Team};
use arrayvec::ArrayVec;
use cn_table::{Operation, Table};
use std::alloc::{AllocError, Global};

/// What the process sees of the run in this order: its response and the last state, or nothing if
/// the order leaves it out. The choice is one of the table, and the order names only its processes.
/// If the order names the process twice, the response to its first step counts.
pub fn seen_pair(table: &Table, choice: &RawChoice, order: &[u8], process: u8) -> Option<(u8, u8)>
    requires fits { IsRawChoice table.now (length choice.now.operations) choice.now }
    requires known { All (λ p. p < length choice.now.operations) order.now }
    // promise: what-a-process-sees
    ensures pair { result ≡ pair_of table.now choice.now order.now process }
    // promise: what-a-process-sees
    ensures range { IfSome result (λ pair. (pair.0 < length table.now.responses)
        × (pair.1 < length table.now.states)) }
{
    let mut state = choice.state;
    let mut own_response = None;
    for p in order {
        let operation = Operation(choice.operations[*p as usize]);
        let (response, next) = table.apply(operation, state);
        if own_response.is_none() && *p == process {
            own_response = Some(response.0);
        }
        state = next;
    }
    match own_response {
        Some(response) => Some((response, state.0)),
        None => None,
    }
}

/// Whether the first process of the order is in the team.
fn begins_in(choice: &RawChoice, team: Team, order: &[u8]) -> bool
    requires known { All (λ p. p < length choice.now.marks) order.now }
    ensures { IsTrue result ↔ BeginsIn choice.now team order.now }
{
    match order {
        [] => false,
        [first, ..] => choice.marks[*first as usize] == team,
    }
}

/// Whether the process sees the same pair in both orders.
fn sees_the_same(table: &Table, choice: &RawChoice, alpha: &[u8], beta: &[u8], process: u8) -> bool
    requires fits { IsRawChoice table.now (length choice.now.operations) choice.now }
    requires alpha_known { All (λ p. p < length choice.now.operations) alpha.now }
    requires beta_known { All (λ p. p < length choice.now.operations) beta.now }
    ensures { IsTrue result
        ↔ ((pair : ℕ × ℕ) × (pair_of table.now choice.now alpha.now process ≡ Some pair)
        × (pair_of table.now choice.now beta.now process ≡ Some pair)) }
{
    match (
        seen_pair(table, choice, alpha, process),
        seen_pair(table, choice, beta, process),
    ) {
        (Some((r, q)), Some((s, p))) => r == s && q == p,
        _ => false,
    }
}

/// Whether some process sees the same pair in both orders.
fn meet(table: &Table, choice: &RawChoice, alpha: &[u8], beta: &[u8]) -> bool
    requires fits { IsRawChoice table.now (length choice.now.operations) choice.now }
    requires alpha_known { All (λ p. p < length choice.now.operations) alpha.now }
    requires beta_known { All (λ p. p < length choice.now.operations) beta.now }
    ensures { IsTrue result ↔ Meet table.now choice.now alpha.now beta.now }
{
    for process in 0..choice.operations.len() as u8 {
        if sees_the_same(table, choice, alpha, beta, process) {
            return true;
        }
    }
    false
}

/// Whether the first order begins in A, the second in B, and some process sees the same pair in
/// both.
fn collide(table: &Table, choice: &RawChoice, alpha: &[u8], beta: &[u8]) -> bool
    requires fits { IsRawChoice table.now (length choice.now.operations) choice.now }
    requires alpha_known { All (λ p. p < length choice.now.operations) alpha.now }
    requires beta_known { All (λ p. p < length choice.now.operations) beta.now }
    ensures { IsTrue result ↔ Collide table.now choice.now alpha.now beta.now }
{
    begins_in(choice, Team::A, alpha)
        && begins_in(choice, Team::B, beta)
        && meet(table, choice, alpha, beta)
}

/// Whether the order collides with one of the orders.
fn collides_with_any(
    table: &Table,
    choice: &RawChoice,
    alpha: &[u8],
    orders: &[ArrayVec<u8, MOST_PROCESSES>],
) -> bool
    requires fits { IsRawChoice table.now (length choice.now.operations) choice.now }
    requires alpha_known { All (λ p. p < length choice.now.operations) alpha.now }
    requires orders_known { All (λ beta. All (λ p. p < length choice.now.operations) beta.items)
        orders.now }
    ensures { IsTrue result
        ↔ Any (λ beta. Collide table.now choice.now alpha.now beta.items) orders.now }
{
    for beta in orders {
        if collide(table, choice, alpha, beta.as_slice()) {
            return true;
        }
    }
    false
}

/// Whether two of the orders collide.
fn any_collide(table: &Table, choice: &RawChoice, orders: &[ArrayVec<u8, MOST_PROCESSES>]) -> bool
    requires fits { IsRawChoice table.now (length choice.now.operations) choice.now }
    requires orders_known { All (λ order. All (λ p. p < length choice.now.operations) order.items)
        orders.now }
    ensures { IsTrue result
        ↔ Any
        (λ alpha. Any (λ beta. Collide table.now choice.now alpha.items beta.items) orders.now)
        orders.now }
{
    for alpha in orders {
        if collides_with_any(table, choice, alpha.as_slice(), orders) {
            return true;
        }
    }
    false
}

/// Whether what processes see splits by the team that begins, and so whether the raw choice is a
/// witness: no process sees the same pair in an order that begins in A and in one that begins in B. The choice is one of the table, for 2 to
/// [`MOST_PROCESSES`](crate::MOST_PROCESSES) processes.
///
/// # Errors
///
/// `AllocError` if memory runs out.
pub fn raw_splits(alloc: Global, table: &Table, choice: &RawChoice) -> Result<bool, AllocError>
    requires fits { IsRawChoice table.now (length choice.now.operations) choice.now }
    // promise: what-a-process-sees
    ensures { IfOk result (λ yes. IsTrue yes ↔ IsWitness table.now choice.now) }
{
    let orders = plain_orders(alloc, choice.operations.len() as u8)?;
    Ok(!any_collide(table, choice, orders.as_slice()))
}
