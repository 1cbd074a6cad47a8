//! The test of signs.
ghost use Rattle.std.specs.Prelude.{◌≡◌, ◌<◌, ◌↔◌, ℕ, All, IsBitSet, IsTrue, length, slice_index};
ghost use Rattle.cn_outcomes.specs.Subsets.{Below};
ghost use Rattle.cn_table.specs.TypeTable.{transition};
ghost use Rattle.cn_table.specs.declared.limits.TheConstants.{MOST_OPERATIONS};
ghost use Rattle.cn_signs.specs.SignChecks.{AllTell, HasRanks, SomeTells, Tells};
ghost use Rattle.cn_signs.specs.SignChoices.{HasSigns, IsKnownChoice};
ghost use Rattle.cn_signs.specs.StateSets.{AreKnownStates, AreStatesFor};

use crate::ends::come_to_an_end;
use crate::responses::{SignRows, shows, sign_rows};
use crate::sign_choice::SignChoice;
use crate::states::SignStates;
use cn_outcomes::Bits;
use cn_table::laws::tables_are_valid;
use cn_table::{Operation, State, Table};

/// Whether the operation gives a sign in the state, or changes it.
fn tells(table: &Table, rows: &SignRows, operation: Operation, state: State) -> bool
    requires operation { operation.0 < length table.now.operations }
    requires state { state.0 < length table.now.states }
    requires rows { length rows.now ≡ MOST_OPERATIONS }
    ensures { IsTrue result ↔ Tells table.now rows.now operation.0 state.0 }
{
    let (_, next) = table.apply(operation, state);
    shows(table, rows, operation, state) || next.0 != state.0
}

/// Whether some of the operations does.
fn some_tells(table: &Table, operations: &[u8], rows: &SignRows, state: State) -> bool
    requires operations { All (λ operation. operation < length table.now.operations)
        operations.now }
    requires state { state.0 < length table.now.states }
    requires rows { length rows.now ≡ MOST_OPERATIONS }
    ensures { IsTrue result ↔ SomeTells table.now operations.now rows.now state.0 }
{
    for number in operations {
        if tells(table, rows, Operation(*number), state) {
            return true;
        }
    }
    false
}

/// Whether in each of these states some of the operations does.
fn all_tell(table: &Table, operations: &[u8], rows: &SignRows, states: Bits) -> bool
    requires operations { All (λ operation. operation < length table.now.operations)
        operations.now }
    requires known { Below (length table.now.states) states }
    requires rows { length rows.now ≡ MOST_OPERATIONS }
    ensures { IsTrue result ↔ AllTell table.now operations.now rows.now states }
{
    tables_are_valid(table);
    for state in 0..table.states() {
        if !states.has(state) {
            continue;
        }
        if !some_tells(table, operations, rows, State(state)) {
            return false;
        }
    }
    true
}

/// Whether in each of these states somebody who goes over the operations sees a sign or a change,
/// and changes without a sign come to an end.
fn lead_to_signs(table: &Table, operations: &[u8], rows: &SignRows, states: Bits) -> bool
    requires operations { All (λ operation. operation < length table.now.operations)
        operations.now }
    requires known { Below (length table.now.states) states }
    requires rows { length rows.now ≡ MOST_OPERATIONS }
    requires closed { (q i : ℕ) → IsBitSet states q → i < length operations.now
        → IsBitSet states (transition table.now (slice_index operations.now i) q).1 }
    ensures { IsTrue result ↔ (AllTell table.now operations.now rows.now states
        × HasRanks table.now operations.now rows.now states) }
{
    all_tell(table, operations, rows, states) && come_to_an_end(table, operations, rows, states)
}

/// Whether the choice, with these states, has signs.
pub(crate) fn shows_signs(table: &Table, choice: &SignChoice, states: &SignStates) -> bool
    requires choice { IsKnownChoice table.now choice.now }
    requires states { AreStatesFor table.now choice.now states.now }
    requires known { AreKnownStates table.now states.now }
    ensures { IsTrue result ↔ HasSigns table.now choice.now }
{
    let further = choice.further.as_slice();
    if further.is_empty() {
        return false;
    }
    let own = states.of_team(choice.side);
    let rows = sign_rows(table, states, choice.side);
    lead_to_signs(table, further, &rows, own)
}
