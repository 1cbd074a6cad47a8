//! Which responses are signs.
ghost use Rattle.std.specs.Prelude.{◌≡◌, ◌<◌, ◌↔◌, ℕ, IsBitSet, IsTrue, length};
ghost use Rattle.cn_outcomes.specs.Subsets.{Below};
ghost use Rattle.cn_table.specs.declared.limits.TheConstants.{MOST_OPERATIONS};
ghost use Rattle.cn_signs.specs.SignChecks.{Answers, AreSignRows, Shows};
ghost use Rattle.cn_signs.specs.StateSets.{AreKnownStates};

use crate::states::{SignStates, other_team};
use cn_choice::Team;
use cn_outcomes::Bits;
use cn_table::laws::tables_are_valid;
use cn_table::{MOST_OPERATIONS, Operation, State, Table};

/// For each operation the responses that are signs.
pub(crate) type SignRows = [Bits; MOST_OPERATIONS];

/// The responses to the operation in these states.
fn responses_in(table: &Table, operation: Operation, states: Bits) -> Bits
    requires operation { operation.0 < length table.now.operations }
    requires known { Below (length table.now.states) states }
    ensures { (r : ℕ) → IsBitSet result r ↔ Answers table.now operation.0 (IsBitSet states) r }
{
    tables_are_valid(table);
    let mut responses = Bits::new();
    for state in 0..table.states() {
        if states.has(state) {
            let (response, _) = table.apply(operation, State(state));
            responses.insert(response.0);
        }
    }
    responses
}

/// For each operation the responses that it gets in states of the side, and in none of the other
/// team.
pub(crate) fn sign_rows(table: &Table, states: &SignStates, side: Team) -> SignRows
    requires { AreKnownStates table.now states.now }
    ensures rows { AreSignRows table.now states.now side result }
    ensures long { length result ≡ MOST_OPERATIONS }
{
    let own = states.of_team(side);
    let others = states.of_team(other_team(side));
    let mut rows = [Bits::new(); MOST_OPERATIONS];
    for operation in 0..table.operations() {
        let here = responses_in(table, Operation(operation), own);
        let there = responses_in(table, Operation(operation), others);
        rows[operation as usize] = here.difference(there);
    }
    rows
}

/// Whether the response to the operation in the state is a sign.
pub(crate) fn shows(table: &Table, rows: &SignRows, operation: Operation, state: State) -> bool
    requires operation { operation.0 < length table.now.operations }
    requires state { state.0 < length table.now.states }
    requires rows { length rows.now ≡ MOST_OPERATIONS }
    ensures { IsTrue result ↔ Shows table.now rows.now operation.0 state.0 }
{
    tables_are_valid(table);
    let (response, _) = table.apply(operation, state);
    rows[operation.0 as usize].has(response.0)
}
