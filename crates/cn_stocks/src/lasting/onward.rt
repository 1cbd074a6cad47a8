//! The states to which an operation leads that is done any number of times.
ghost use Rattle.std.specs.Prelude.{◌≡◌, ◌≢◌, ◌<◌, ◌↔◌, ℕ, length, IsBitSet, IsTrue, false};
ghost use Rattle.cn_outcomes.specs.Subsets.{Below};
ghost use Rattle.cn_stocks.specs.Lasting.{Lasts, ManyFirst, HaveCommonState, SingleFirst};
ghost use Rattle.cn_stocks.specs.Repeats.{FirstOnward, Onward};

use cn_outcomes::{Bits, image};
use cn_table::{Operation, Table};

/// The states to which the operation, any number of times, leads from one of these states.
fn onward(table: &Table, many: u8, from: Bits) -> Bits
    requires many { many < length table.now.operations }
    requires known { Below (length table.now.states) from }
    ensures same { (q : ℕ) → IsBitSet result q ↔ Onward table.now many (IsBitSet from) q }
    ensures known { Below (length table.now.states) result }
{
    let _states = table.states();
    let mut set = from;
    let mut grown = set.union(image(table, Operation(many), set));
    while grown != set {
        set = grown;
        grown = set.union(image(table, Operation(many), set));
    }
    set
}

/// The states to which the first operation, and then the other any number of times, lead from one
/// of these states.
fn first_onward(table: &Table, first: u8, many: u8, from: Bits) -> Bits
    requires first { first < length table.now.operations }
    requires many { many < length table.now.operations }
    requires known { Below (length table.now.states) from }
    ensures same { (q : ℕ) → IsBitSet result q
        ↔ FirstOnward table.now first many (IsBitSet from) q }
    ensures known { Below (length table.now.states) result }
{
    onward(table, many, image(table, Operation(first), from))
}

/// The set of the start state alone.
fn only(table: &Table, start: u8) -> Bits
    requires { start < length table.now.states }
    ensures same { (q : ℕ) → IsBitSet result q ↔ (q ≡ start) }
    ensures known { Below (length table.now.states) result }
{
    let _states = table.states();
    Bits::new().with(start)
}

/// The states that orders leave which begin with the single operation.
pub(crate) fn single_first(table: &Table, start: u8, many: u8, single: u8) -> Bits
    requires start { start < length table.now.states }
    requires many { many < length table.now.operations }
    requires single { single < length table.now.operations }
    ensures { (q : ℕ) → IsBitSet result q ↔ SingleFirst table.now start many single q }
{
    first_onward(table, single, many, only(table, start))
}

/// The states that all other orders leave.
pub(crate) fn many_first(table: &Table, start: u8, many: u8, single: u8) -> Bits
    requires start { start < length table.now.states }
    requires many { many < length table.now.operations }
    requires single { single < length table.now.operations }
    ensures { (q : ℕ) → IsBitSet result q ↔ ManyFirst table.now start many single q }
{
    let from = only(table, start);
    let alone = onward(table, many, from);
    let begun = first_onward(table, many, many, from);
    let mixed = first_onward(table, single, many, begun);
    alone.union(mixed)
}

/// Whether the two operations last from the start state.
pub(crate) fn lasts(table: &Table, start: u8, many: u8, single: u8) -> bool
    requires start { start < length table.now.states }
    requires many { many < length table.now.operations }
    requires single { single < length table.now.operations }
    requires different { many ≢ single }
    ensures yes { IsTrue result → Lasts table.now start many single }
    ensures no { result ≡ false → HaveCommonState table.now start many single }
{
    !single_first(table, start, many, single).meets(many_first(table, start, many, single))
}
