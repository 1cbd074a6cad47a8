//! Whether operations interfere.
ghost use Rattle.std.specs.Prelude.{◌≡◌, ◌<◌, ◌↔◌, ℕ, IsTrue, false, length};
ghost use Rattle.cn_interference.specs.Interference.{AllInterfere, Interfere};
ghost use Rattle.cn_interference.specs.Pairs.{AreApart};

use cn_table::{Operation, State, Table};

/// Whether the two operations interfere in the state: both orders leave the same state, or one of
/// them leaves the same state whether or not the other goes before it.
pub fn interferes(table: &Table, first: Operation, second: Operation, state: State) -> bool
    requires first { first.0 < length table.now.operations }
    requires second { second.0 < length table.now.operations }
    requires state { state.0 < length table.now.states }
    // promise: interference (Interfere)
    ensures { IsTrue result ↔ Interfere table.now first.0 second.0 state.0 }
{
    let (_, after_first) = table.apply(first, state);
    let (_, after_second) = table.apply(second, state);
    let (_, second_last) = table.apply(second, after_first);
    let (_, first_last) = table.apply(first, after_second);
    second_last == first_last || first_last == after_first || second_last == after_second
}

/// Whether there is a state in which the two operations do not interfere.
pub(crate) fn are_apart(table: &Table, first: Operation, second: Operation) -> bool
    requires first { first.0 < length table.now.operations }
    requires second { second.0 < length table.now.operations }
    ensures yes { IsTrue result → AreApart table.now first.0 second.0 }
    ensures no { result ≡ false → (q : ℕ) → q < length table.now.states
        → Interfere table.now first.0 second.0 q }
{
    for state in 0..table.states() {
        if !interferes(table, first, second, State(state)) {
            return true;
        }
    }
    false
}

/// Whether there is an operation with which this one does not interfere in some state.
fn is_apart(table: &Table, first: Operation) -> bool
    requires { first.0 < length table.now.operations }
    ensures yes { IsTrue result → (g : ℕ) × (g < length table.now.operations)
        × AreApart table.now first.0 g }
    ensures no { result ≡ false → (g : ℕ) → g < length table.now.operations
        → (q : ℕ) → q < length table.now.states → Interfere table.now first.0 g q }
{
    for second in 0..table.operations() {
        if are_apart(table, first, Operation(second)) {
            return true;
        }
    }
    false
}

/// Whether any two operations interfere in every state.
pub fn interfering(table: &Table) -> bool
    // promise: interference (AllInterfere)
    ensures { IsTrue result ↔ AllInterfere table.now }
{
    for first in 0..table.operations() {
        if is_apart(table, Operation(first)) {
            return false;
        }
    }
    true
}
