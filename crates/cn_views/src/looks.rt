//! The silent operations of a table, and the states that they do not tell apart.
ghost use Rattle.std.specs.Prelude.{◌≡◌, ◌<◌, ◌↔◌, ℕ, All, IsBitSet, IsTrue, length};
ghost use Rattle.cn_table.specs.declared.limits.TheConstants.{MOST_STATES};
ghost use Rattle.cn_unread.specs.Collects.{LookAlike};
ghost use Rattle.cn_views.specs.LookTables.{AreAlikeSets, AreLooksOf};

use crate::silent::silent_operations;
use arrayvec::ArrayVec;
use cn_outcomes::Bits;
use cn_table::laws::tables_are_valid;
use cn_table::{MOST_OPERATIONS, MOST_STATES, Operation, State, Table};

/// The silent operations of a table, and the states that they do not tell apart. A search works
/// this out once for all choices.
#[derive(Drop)]
pub struct Looks {
    /// The silent operations, ascending.
    pub operations: ArrayVec<u8, MOST_OPERATIONS>,
    /// For each state the states that look alike: in them each silent operation gives the same
    /// response as in this one.
    pub alike: [Bits; MOST_STATES],
}

/// Whether each of the operations gives the same response in both states.
fn look_alike(table: &Table, operations: &[u8], one: State, other: State) -> bool
    requires operations { All (λ operation. operation < length table.now.operations)
        operations.now }
    requires one { one.0 < length table.now.states }
    requires other { other.0 < length table.now.states }
    ensures { IsTrue result ↔ LookAlike table.now operations.now one.0 other.0 }
{
    for number in operations {
        let operation = Operation(*number);
        let (seen, _) = table.apply(operation, one);
        let (seen_there, _) = table.apply(operation, other);
        if seen.0 != seen_there.0 {
            return false;
        }
    }
    true
}

/// The states that look like this one.
fn states_alike(table: &Table, operations: &[u8], state: State) -> Bits
    requires operations { All (λ operation. operation < length table.now.operations)
        operations.now }
    requires state { state.0 < length table.now.states }
    ensures { (q : ℕ) → IsBitSet result q
        ↔ ((q < length table.now.states) × LookAlike table.now operations.now state.0 q) }
{
    let mut alike = Bits::new();
    for other in 0..table.states() {
        if look_alike(table, operations, state, State(other)) {
            alike.insert(other);
        }
    }
    alike
}

/// For each state the states that look alike.
fn all_alike(table: &Table, operations: &[u8]) -> [Bits; MOST_STATES]
    requires { All (λ operation. operation < length table.now.operations) operations.now }
    ensures sets { AreAlikeSets table.now operations.now result }
    ensures long { length result ≡ MOST_STATES }
{
    let mut sets = [Bits::new(); MOST_STATES];
    for state in 0..table.states() {
        sets[state as usize] = states_alike(table, operations, State(state));
    }
    sets
}

impl Looks {
    /// The looks of the table.
    pub fn of(table: &Table) -> Looks
        // promise: looks (AreLooksOf)
        ensures { AreLooksOf table.now result }
    {
        let operations = silent_operations(table);
        let alike = all_alike(table, operations.as_slice());
        Looks { operations, alike }
    }

    /// Whether the two states look alike. These are the looks of the table.
    pub fn are_alike(&self, table: &Table, one: State, other: State) -> bool
        requires looks { AreLooksOf table.now self.now }
        requires one { one.0 < length table.now.states }
        requires other { other.0 < length table.now.states }
        // promise: looks (LookAlike)
        ensures { IsTrue result
            ↔ LookAlike table.now self.now.operations.items one.0 other.0 }
    {
        tables_are_valid(table);
        self.alike[one.0 as usize].has(other.0)
    }
}
