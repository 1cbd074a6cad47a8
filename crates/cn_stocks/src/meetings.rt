//! Sets of states that meet.
ghost use Rattle.std.specs.Prelude.{◌≡◌, ◌≢◌, ◌<◌, ◌↔◌, ℕ, IsBitSet, IsTrue};
ghost use Rattle.cn_table.specs.declared.limits.TheConstants.{MOST_OPERATIONS};
ghost use Rattle.cn_stocks.specs.Meetings.{AreGathered, FallApart, HasAt, IsAlone, IsClosed, IsOutside};

use cn_outcomes::bits::{contains, union};
use cn_table::MOST_OPERATIONS;

/// For each operation a set of states, or an empty one.
pub(crate) type StateSets = [u16; MOST_OPERATIONS];

/// Whether the sets have a common state.
pub(crate) fn meet(a: u16, b: u16) -> bool
    ensures { IsTrue result ↔ ((q : ℕ) × IsBitSet a q × IsBitSet b q) }
{
    a & b != 0
}

/// The set with the states of each of the sets that meets it.
fn grow(sets: &StateSets, set: u16) -> u16
    ensures kept { (q : ℕ) → IsBitSet set q → IsBitSet result q }
    ensures grown { (f q r : ℕ) → HasAt sets.now f q → IsBitSet set q → HasAt sets.now f r
        → IsBitSet result r }
    ensures gathered { (first : ℕ) → AreGathered sets.now first set
        → AreGathered sets.now first result }
{
    let mut grown = set;
    for operation in 0..MOST_OPERATIONS {
        if meet(sets[operation], grown) {
            grown = union(grown, sets[operation]);
        }
    }
    grown
}

/// The states that are in a set which meets, step by step, that of the operation.
fn component(sets: &StateSets, first: u8) -> u16
    requires { first < MOST_OPERATIONS }
    ensures first { (q : ℕ) → HasAt sets.now first q → IsBitSet result q }
    ensures closed { IsClosed sets.now result }
    ensures gathered { AreGathered sets.now first result }
{
    let mut set = sets[first as usize];
    let mut grown = grow(sets, set);
    while grown != set {
        set = grown;
        grown = grow(sets, set);
    }
    set
}

/// Whether some set that is not empty does not meet this one.
fn some_outside(sets: &StateSets, set: u16) -> bool
    ensures { IsTrue result ↔ ((g : ℕ) × IsOutside sets.now set g) }
{
    for operation in 0..MOST_OPERATIONS {
        if sets[operation] != 0 && !meet(sets[operation], set) {
            return true;
        }
    }
    false
}

/// Whether the sets that are not empty fall into two parts of which no sets meet. That of the first
/// operation is not empty.
pub(crate) fn fall_apart(sets: &StateSets, first: u8) -> bool
    requires known { first < MOST_OPERATIONS }
    requires some { (q : ℕ) × HasAt sets.now first q }
    ensures { IsTrue result ↔ FallApart sets.now }
{
    let set = component(sets, first);
    some_outside(sets, set)
}

/// Whether some of the sets has the state.
pub(crate) fn some_has(sets: &StateSets, state: u8) -> bool
    requires { state < 16 }
    ensures { IsTrue result ↔ ((f : ℕ) × HasAt sets.now f state) }
{
    let mut all = 0;
    for operation in 0..MOST_OPERATIONS {
        all = union(all, sets[operation]);
    }
    contains(all, state)
}

/// The states of the sets of all other operations.
fn union_of_others(sets: &StateSets, operation: u8) -> u16
    ensures { (q : ℕ) → IsBitSet result q ↔ ((g : ℕ) × (g ≢ operation) × HasAt sets.now g q) }
{
    let mut others = 0;
    for other in 0..MOST_OPERATIONS {
        if other != operation as usize {
            others = union(others, sets[other]);
        }
    }
    others
}

/// Whether the set of the operation meets no other one, and another one is not empty.
pub(crate) fn is_alone(sets: &StateSets, operation: u8) -> bool
    requires { operation < MOST_OPERATIONS }
    ensures { IsTrue result ↔ IsAlone sets.now operation }
{
    let others = union_of_others(sets, operation);
    others != 0 && !meet(others, sets[operation as usize])
}
