//! Sets of states that show that two operations last.
ghost use Rattle.std.specs.Prelude.{◌≡◌, ◌<◌, ◌↔◌, ℕ, Contains, IfOk, IsBitSet, length};
ghost use Rattle.cn_outcomes.specs.Subsets.{Below};
ghost use Rattle.cn_stock_find.specs.LeastSets.{AreLeastSets};
ghost use Rattle.cn_stocks.specs.Leaving.{IsLasting};
ghost use Rattle.cn_stocks.specs.Repeats.{FirstOnward, Onward};

use cn_outcomes::{Bits, image};
use cn_stock_cert::LastingSets;
use cn_stocks::lasting::Lasting;
use cn_table::{Operation, State, Table};
use std::alloc::{AllocError, Global};

/// The states to which the operation, any number of times, leads from one of these states.
fn onward(table: &Table, many: Operation, from: Bits) -> Bits
    requires many { many.0 < length table.now.operations }
    requires known { Below (length table.now.states) from }
    ensures same { (q : ℕ) → IsBitSet result q ↔ Onward table.now many.0 (IsBitSet from) q }
    ensures known { Below (length table.now.states) result }
{
    let _states = table.states();
    let mut set = from;
    let mut grown = set.union(image(table, many, set));
    while grown != set {
        set = grown;
        grown = set.union(image(table, many, set));
    }
    set
}

/// The states to which the first operation, and then the other any number of times, lead from one
/// of these states.
fn first_onward(table: &Table, first: Operation, many: Operation, from: Bits) -> Bits
    requires first { first.0 < length table.now.operations }
    requires many { many.0 < length table.now.operations }
    requires known { Below (length table.now.states) from }
    ensures same { (q : ℕ) → IsBitSet result q
        ↔ FirstOnward table.now first.0 many.0 (IsBitSet from) q }
    ensures known { Below (length table.now.states) result }
{
    onward(table, many, image(table, first, from))
}

/// The set of the start state alone.
fn only(table: &Table, start: State) -> Bits
    requires { start.0 < length table.now.states }
    ensures same { (q : ℕ) → IsBitSet result q ↔ (q ≡ start.0) }
    ensures known { Below (length table.now.states) result }
{
    let _states = table.states();
    Bits::new().with(start.0)
}

/// The states of the set, ascending.
fn list_of(alloc: Global, set: Bits) -> Result<Vec<u8>, AllocError>
    ensures { IfOk result (λ list. (q : ℕ) → Contains list.items q ↔ IsBitSet set q) }
{
    let mut list = Vec::new(alloc);
    for state in set.iter() {
        list.push(state)?;
    }
    Ok(list)
}

/// The sets of states that show that the operations last: those that orders leave in which only the
/// others have moved, in which the single operation came behind another one, and in which it came
/// first.
///
/// # Errors
///
/// `AllocError` if memory runs out.
pub fn lasting_sets(
    alloc: Global,
    table: &Table,
    lasting: Lasting,
) -> Result<LastingSets, AllocError>
    requires { IsLasting table.now lasting }
    // promise: sets-of-lasting-operations (AreLeastSets: AreLastingSets)
    ensures { IfOk result (AreLeastSets table.now lasting) }
{
    let (many, single) = (lasting.many, lasting.single);
    let from = only(table, lasting.start);
    let alone_states = onward(table, many, from);
    let begun_states = first_onward(table, many, many, from);
    let behind_states = first_onward(table, single, many, begun_states);
    let first_states = first_onward(table, single, many, from);
    let alone = list_of(alloc, alone_states)?;
    let behind = list_of(alloc, behind_states)?;
    let first = list_of(alloc, first_states)?;
    Ok(LastingSets {
        start: lasting.start,
        many,
        single,
        alone,
        behind,
        first,
    })
}
