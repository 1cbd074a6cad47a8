//! Operations of which one tells nothing of the other.
ghost use Rattle.std.specs.Prelude.{◌≡◌, ◌<◌, ◌⊎◌, ◌↔◌, ℕ, IsTrue, false, length};
ghost use Rattle.cn_interference.specs.Interference.{AllHide, TellsNothing};

use cn_table::{Operation, State, Table};

/// Whether the first operation tells nothing of the second in the state: it gives the same response
/// whether or not the second goes before it, and the two commute there or the first wipes out the
/// second.
pub fn tells_nothing(table: &Table, first: Operation, second: Operation, state: State) -> bool
    requires first { first.0 < length table.now.operations }
    requires second { second.0 < length table.now.operations }
    requires state { state.0 < length table.now.states }
    // promise: interference (TellsNothing)
    ensures { IsTrue result ↔ TellsNothing table.now first.0 second.0 state.0 }
{
    let (alone, after_first) = table.apply(first, state);
    let (_, after_second) = table.apply(second, state);
    let (_, second_last) = table.apply(second, after_first);
    let (behind, first_last) = table.apply(first, after_second);
    behind == alone && (second_last == first_last || first_last == after_first)
}

/// Whether there is a state in which each of the two operations tells something of the other.
fn both_tell(table: &Table, first: Operation, second: Operation) -> bool
    requires first { first.0 < length table.now.operations }
    requires second { second.0 < length table.now.operations }
    ensures yes { IsTrue result → (q : ℕ) × (q < length table.now.states)
        × ¬ (TellsNothing table.now first.0 second.0 q
        ⊎ TellsNothing table.now second.0 first.0 q) }
    ensures no { result ≡ false → (q : ℕ) → q < length table.now.states
        → TellsNothing table.now first.0 second.0 q ⊎ TellsNothing table.now second.0 first.0 q }
{
    for state in 0..table.states() {
        let state = State(state);
        let hides = tells_nothing(table, first, second, state);
        let is_hidden = tells_nothing(table, second, first, state);
        if !(hides || is_hidden) {
            return true;
        }
    }
    false
}

/// Whether there is an operation such that each of the two tells something of the other.
fn tells_of_some(table: &Table, first: Operation) -> bool
    requires { first.0 < length table.now.operations }
    ensures yes { IsTrue result → (g : ℕ) × (g < length table.now.operations)
        × ((q : ℕ) × (q < length table.now.states)
        × ¬ (TellsNothing table.now first.0 g q ⊎ TellsNothing table.now g first.0 q)) }
    ensures no { result ≡ false → (g : ℕ) → g < length table.now.operations
        → (q : ℕ) → q < length table.now.states
        → TellsNothing table.now first.0 g q ⊎ TellsNothing table.now g first.0 q }
{
    for second in 0..table.operations() {
        if both_tell(table, first, Operation(second)) {
            return true;
        }
    }
    false
}

/// Whether of any two operations, in every state, one tells nothing of the other.
pub fn hiding(table: &Table) -> bool
    // promise: interference (AllHide)
    ensures { IsTrue result ↔ AllHide table.now }
{
    for first in 0..table.operations() {
        if tells_of_some(table, Operation(first)) {
            return false;
        }
    }
    true
}
