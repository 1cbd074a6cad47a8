//! Whether changes without a sign come to an end.
ghost use Rattle.std.specs.Prelude.{◌≡◌, ◌<◌, ◌↔◌, ℕ, All, IsBitSet, IsTrue, length, slice_index};
ghost use Rattle.cn_outcomes.specs.Subsets.{Below};
ghost use Rattle.cn_table.specs.TypeTable.{transition};
ghost use Rattle.cn_table.specs.declared.limits.TheConstants.{MOST_OPERATIONS};
ghost use Rattle.cn_signs.specs.SignChecks.{AllLeadOut, HasRanks, IsEnd, LeadsOut};

use crate::responses::{SignRows, shows};
use cn_outcomes::Bits;
use cn_table::laws::tables_are_valid;
use cn_table::{Operation, State, Table};

/// Whether the operation gives a sign in the state, does not change it, or leads out of the set.
fn leads_out(table: &Table, rows: &SignRows, set: Bits, operation: Operation, state: State) -> bool
    requires operation { operation.0 < length table.now.operations }
    requires state { state.0 < length table.now.states }
    requires rows { length rows.now ≡ MOST_OPERATIONS }
    ensures { IsTrue result ↔ LeadsOut table.now rows.now set operation.0 state.0 }
{
    tables_are_valid(table);
    let (_, next) = table.apply(operation, state);
    shows(table, rows, operation, state) || next.0 == state.0 || !set.has(next.0)
}

/// Whether each of the operations does one of these.
fn all_lead_out(table: &Table, operations: &[u8], rows: &SignRows, set: Bits, state: State) -> bool
    requires operations { All (λ operation. operation < length table.now.operations)
        operations.now }
    requires state { state.0 < length table.now.states }
    requires rows { length rows.now ≡ MOST_OPERATIONS }
    ensures { IsTrue result ↔ AllLeadOut table.now operations.now rows.now set state.0 }
{
    for number in operations {
        if !leads_out(table, rows, set, Operation(*number), state) {
            return false;
        }
    }
    true
}

/// Whether the state is in the set, and each change without a sign leads from it out of the set.
fn is_end(table: &Table, operations: &[u8], rows: &SignRows, set: Bits, state: State) -> bool
    requires operations { All (λ operation. operation < length table.now.operations)
        operations.now }
    requires state { state.0 < length table.now.states }
    requires rows { length rows.now ≡ MOST_OPERATIONS }
    ensures { IsTrue result ↔ IsEnd table.now operations.now rows.now set state.0 }
{
    tables_are_valid(table);
    set.has(state.0) && all_lead_out(table, operations, rows, set, state)
}

/// The states of the set from which each change without a sign leads out of it.
fn ends_of(table: &Table, operations: &[u8], rows: &SignRows, set: Bits) -> Bits
    requires operations { All (λ operation. operation < length table.now.operations)
        operations.now }
    requires known { Below (length table.now.states) set }
    requires rows { length rows.now ≡ MOST_OPERATIONS }
    ensures { (q : ℕ) → IsBitSet result q ↔ IsEnd table.now operations.now rows.now set q }
{
    tables_are_valid(table);
    let mut ends = Bits::new();
    for state in 0..table.states() {
        if is_end(table, operations, rows, set, State(state)) {
            ends.insert(state);
        }
    }
    ends
}

/// Whether changes without a sign, within these states, come to an end. The operations do not lead
/// out of these states.
///
/// Ends are taken away again and again. If no state is left, the turn in which a state is taken away
/// falls with each change without a sign.
pub(crate) fn come_to_an_end(
    table: &Table,
    operations: &[u8],
    rows: &SignRows,
    states: Bits,
) -> bool
    requires operations { All (λ operation. operation < length table.now.operations)
        operations.now }
    requires known { Below (length table.now.states) states }
    requires rows { length rows.now ≡ MOST_OPERATIONS }
    requires closed { (q i : ℕ) → IsBitSet states q → i < length operations.now
        → IsBitSet states (transition table.now (slice_index operations.now i) q).1 }
    ensures { IsTrue result ↔ HasRanks table.now operations.now rows.now states }
{
    let mut left = states;
    let mut ends = ends_of(table, operations, rows, left);
    while !ends.is_empty() {
        left = left.difference(ends);
        ends = ends_of(table, operations, rows, left);
    }
    left.is_empty()
}
