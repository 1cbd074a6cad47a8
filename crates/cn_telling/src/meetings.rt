//! Sets that meet.
ghost use Rattle.std.specs.Prelude.{◌≡◌, ◌<◌, ◌↔◌, ℕ, IsBitSet, IsTrue};
ghost use Rattle.cn_table.specs.declared.limits.TheConstants.{MOST_OPERATIONS};
ghost use Rattle.cn_stocks.specs.Meetings.{AreGathered, FallApart, HasAt, IsClosed, IsOutside};

use cn_outcomes::bits::union;
use cn_table::MOST_OPERATIONS;

/// For each operation a set of small numbers, or an empty one.
pub(crate) type Sets = [u16; MOST_OPERATIONS];

/// Whether the sets have a common element.
fn meet(a: u16, b: u16) -> bool
    ensures { IsTrue result ↔ ((q : ℕ) × IsBitSet a q × IsBitSet b q) }
{
    a & b != 0
}

/// The set with the elements of each of the sets that meets it.
fn grow(sets: &Sets, set: u16) -> u16
    ensures kept { (q : ℕ) → IsBitSet set q → IsBitSet result q }
    ensures grown { (f q r : ℕ) → HasAt sets.now f q → IsBitSet set q → HasAt sets.now f r
        → IsBitSet result r }
    ensures gathered { (first : ℕ) → AreGathered sets.now first set
        → AreGathered sets.now first result }
{
    let mut grown = set;
    for operation in 0..MOST_OPERATIONS {
        if meet(sets[operation], grown) {
            grown = union(grown, sets[operation]);
        }
    }
    grown
}

/// The elements that are in a set which meets, step by step, that of the operation.
fn component(sets: &Sets, first: u8) -> u16
    requires { first < MOST_OPERATIONS }
    ensures first { (q : ℕ) → HasAt sets.now first q → IsBitSet result q }
    ensures closed { IsClosed sets.now result }
    ensures gathered { AreGathered sets.now first result }
{
    let mut set = sets[first as usize];
    let mut grown = grow(sets, set);
    while grown != set {
        set = grown;
        grown = grow(sets, set);
    }
    set
}

/// Whether some set that is not empty does not meet this one.
fn some_outside(sets: &Sets, set: u16) -> bool
    ensures { IsTrue result ↔ ((g : ℕ) × IsOutside sets.now set g) }
{
    for operation in 0..MOST_OPERATIONS {
        if sets[operation] != 0 && !meet(sets[operation], set) {
            return true;
        }
    }
    false
}

/// Whether the sets that are not empty fall into two parts of which no sets meet. That of the first
/// operation is not empty.
pub(crate) fn fall_apart(sets: &Sets, first: u8) -> bool
    requires known { first < MOST_OPERATIONS }
    requires some { (q : ℕ) × HasAt sets.now first q }
    ensures { IsTrue result ↔ FallApart sets.now }
{
    let set = component(sets, first);
    some_outside(sets, set)
}
