//! The search for two operations that last.
ghost use Rattle.std.specs.Prelude.{◌≡◌, ◌≢◌, ◌<◌, ◌↔◌, ℕ, length, IfSome, IsBitSet, None};
ghost use Rattle.cn_stocks.specs.Lasting.{Lasts, HaveCommonState, NoneLast};
ghost use Rattle.cn_stocks.specs.Leaving.{IsLasting, Leaves};

use super::onward::{lasts, many_first, single_first};
use cn_outcomes::Bits;
use cn_table::{Operation, State, Table};

/// A start state and two operations, as evidence for a type that is n-discerning for every n: where
/// one process does the single operation and any number of processes do the other, the state tells
/// for good which came first.
#[derive(Clone, Copy, Debug, PartialEq, Eq)]
pub struct Lasting {
    /// The start state.
    pub start: State,
    /// The operation that any number of processes do.
    pub many: Operation,
    /// The operation that one process does.
    pub single: Operation,
}

/// Which of two operations that last came first.
#[derive(Clone, Copy, Debug, PartialEq, Eq)]
pub enum First {
    /// The single one.
    Single,
    /// The one that any number of processes do, or none yet.
    Many,
}

/// A single operation with which the other one lasts from the start state.
fn lasting_single(table: &Table, start: u8, many: u8) -> Option<u8>
    requires start { start < length table.now.states }
    requires many { many < length table.now.operations }
    ensures found { IfSome result (Lasts table.now start many) }
    ensures none { result ≡ None → (single : ℕ) → single < length table.now.operations
        → many ≢ single → HaveCommonState table.now start many single }
{
    for single in 0..table.operations() {
        if single != many && lasts(table, start, many, single) {
            return Some(single);
        }
    }
    None
}

/// Two operations that last from the start state: the one that many do, and the single one.
fn lasting_from(table: &Table, start: u8) -> Option<(u8, u8)>
    requires start { start < length table.now.states }
    ensures found { IfSome result (λ pair. Lasts table.now start pair.0 pair.1) }
    ensures none { result ≡ None → (many : ℕ) → many < length table.now.operations
        → (single : ℕ) → single < length table.now.operations → many ≢ single
        → HaveCommonState table.now start many single }
{
    for many in 0..table.operations() {
        if let Some(single) = lasting_single(table, start, many) {
            return Some((many, single));
        }
    }
    None
}

/// Two operations that last, and the start state from which they do; `None` where there are none.
///
/// It takes no memory, and at most 16 times 56 closures of a set of states.
pub fn find_lasting(table: &Table) -> Option<Lasting>
    // promise: lasting-operations (IsLasting: Lasts)
    ensures found { IfSome result (IsLasting table.now) }
    // promise: lasting-operations (NoneLast)
    ensures none { result ≡ None → NoneLast table.now }
{
    for start in 0..table.states() {
        if let Some((many, single)) = lasting_from(table, start) {
            return Some(Lasting {
                start: State(start),
                many: Operation(many),
                single: Operation(single),
            });
        }
    }
    None
}

/// The states that orders leave in which this operation came first.
pub fn left_states(table: &Table, lasting: Lasting, first: First) -> Bits
    requires { IsLasting table.now lasting }
    // promise: why-without-a-limit (Leaves)
    ensures { (q : ℕ) → IsBitSet result q ↔ Leaves table.now lasting first q }
{
    let (start, many, single) = (lasting.start.0, lasting.many.0, lasting.single.0);
    match first {
        First::Single => single_first(table, start, many, single),
        First::Many => many_first(table, start, many, single),
    }
}
