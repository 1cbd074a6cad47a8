//! Whether sets of states show that two operations last.
ghost use Rattle.std.specs.Prelude.{◌≡◌, ◌≢◌, ◌<◌, ◌↔◌, All, Contains, IsTrue, length};
ghost use Rattle.cn_table.specs.TypeTable.{transition};
ghost use Rattle.cn_stock_cert.specs.LastingSets.{AreLastingSets, LeadsInto};
ghost use Rattle.cn_stock_check.specs.LastingParts.{AreFirstRight, AreLaterRight};

use crate::words::is_among;
use cn_stock_cert::LastingSets;
use cn_table::{Operation, State, Table};

/// The state to which the operation leads.
fn next(table: &Table, operation: Operation, state: u8) -> u8
    requires operation { operation.0 < length table.now.operations }
    requires state { state < length table.now.states }
    ensures value { result ≡ (transition table.now operation.0 state).1 }
    ensures known { result < length table.now.states }
{
    let (_, next) = table.apply(operation, State(state));
    next.0
}

/// Whether all states are those of the table.
fn are_known(table: &Table, states: &[u8]) -> bool
    ensures { IsTrue result ↔ All (λ q. q < length table.now.states) states.now }
{
    let count = table.states();
    states.iter().all(|q| *q < count)
}

/// Whether the operation leads from each of the states to one of these.
fn leads_into(table: &Table, operation: Operation, to: &[u8], from: &[u8]) -> bool
    requires operation { operation.0 < length table.now.operations }
    requires from { All (λ q. q < length table.now.states) from.now }
    ensures { IsTrue result ↔ LeadsInto table.now operation.0 to.now from.now }
{
    for state in from {
        let found = next(table, operation, *state);
        if !is_among(to, found) {
            return false;
        }
    }
    true
}

/// Whether the single operation, behind the other one, leads from each of the states to one of
/// these.
fn leads_behind(table: &Table, many: Operation, single: Operation, to: &[u8], from: &[u8]) -> bool
    requires many { many.0 < length table.now.operations }
    requires single { single.0 < length table.now.operations }
    requires from { All (λ q. q < length table.now.states) from.now }
    ensures { IsTrue result ↔ All (λ q. Contains to.now
        (transition table.now single.0 (transition table.now many.0 q).1).1) from.now }
{
    for state in from {
        let found = next(table, single, next(table, many, *state));
        if !is_among(to, found) {
            return false;
        }
    }
    true
}

/// Whether the state is none of these, and none of those.
fn is_outside(state: u8, these: &[u8], those: &[u8]) -> bool
    ensures { IsTrue result ↔ (¬ Contains these.now state × ¬ Contains those.now state) }
{
    !is_among(these, state) && !is_among(those, state)
}

/// Whether none of the states is one of these, or of those.
fn are_apart(states: &[u8], these: &[u8], those: &[u8]) -> bool
    ensures { IsTrue result
        ↔ All (λ q. ¬ Contains these.now q × ¬ Contains those.now q) states.now }
{
    for state in states {
        if !is_outside(*state, these, those) {
            return false;
        }
    }
    true
}

/// Whether the start state and the operations are those of the table, and the operations differ.
fn is_pair(table: &Table, sets: &LastingSets) -> bool
    ensures { IsTrue result
        ↔ ((sets.now.start < length table.now.states)
        × (sets.now.many < length table.now.operations)
        × (sets.now.single < length table.now.operations) × (sets.now.many ≢ sets.now.single)) }
{
    let operations = table.operations();
    sets.start.0 < table.states()
        && sets.many.0 < operations
        && sets.single.0 < operations
        && sets.many.0 != sets.single.0
}

/// Whether all states of the sets are those of the table.
fn are_all_known(table: &Table, sets: &LastingSets) -> bool
    ensures { IsTrue result ↔ (All (λ q. q < length table.now.states) sets.now.alone
        × All (λ q. q < length table.now.states) sets.now.behind
        × All (λ q. q < length table.now.states) sets.now.first) }
{
    are_known(table, sets.alone.as_slice())
        && are_known(table, sets.behind.as_slice())
        && are_known(table, sets.first.as_slice())
}

/// Whether the states while the single operation was not first are as they have to be.
fn are_later_right(table: &Table, sets: &LastingSets) -> bool
    requires start { sets.now.start < length table.now.states }
    requires many { sets.now.many < length table.now.operations }
    requires single { sets.now.single < length table.now.operations }
    requires alone { All (λ q. q < length table.now.states) sets.now.alone }
    requires behind { All (λ q. q < length table.now.states) sets.now.behind }
    ensures { IsTrue result ↔ AreLaterRight table.now sets.now }
{
    let (alone, behind) = (sets.alone.as_slice(), sets.behind.as_slice());
    if !is_among(alone, sets.start.0) {
        return false;
    }
    if !leads_into(table, sets.many, alone, alone) {
        return false;
    }
    if !leads_behind(table, sets.many, sets.single, behind, alone) {
        return false;
    }
    leads_into(table, sets.many, behind, behind)
}

/// Whether the states once the single operation was first are as they have to be.
fn are_first_right(table: &Table, sets: &LastingSets) -> bool
    requires start { sets.now.start < length table.now.states }
    requires many { sets.now.many < length table.now.operations }
    requires single { sets.now.single < length table.now.operations }
    requires first { All (λ q. q < length table.now.states) sets.now.first }
    ensures { IsTrue result ↔ AreFirstRight table.now sets.now }
{
    let first = sets.first.as_slice();
    let begun = next(table, sets.single, sets.start.0);
    if !is_among(first, begun) {
        return false;
    }
    if !leads_into(table, sets.many, first, first) {
        return false;
    }
    are_apart(first, sets.alone.as_slice(), sets.behind.as_slice())
}

/// Whether the sets show that the two operations last.
pub(crate) fn are_lasting_sets(table: &Table, sets: &LastingSets) -> bool
    ensures { IsTrue result ↔ AreLastingSets table.now sets.now }
{
    if !is_pair(table, sets) || !are_all_known(table, sets) {
        return false;
    }
    if !are_later_right(table, sets) {
        return false;
    }
    are_first_right(table, sets)
}
