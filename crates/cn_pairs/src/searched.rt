//! The first sets of one size with the number of the type, by searches.
ghost use Rattle.std.specs.Prelude.{◌≤◌, ◌↔◌, ◌-◌, All, Any, Contains, IfOk, IsTrue, length, map};
ghost use Rattle.cn_table.specs.Restriction.{AreOperations};
ghost use Rattle.cn_search.specs.Numbers.{HasNumber};
ghost use Rattle.cn_search.specs.declared.exact.ConsensusNumber.{ConsensusNumber};
ghost use Rattle.cn_pairs.specs.Firsts.{AreFirstWith};
ghost use Rattle.cn_pairs.specs.SetNumbers.{AreSetNumbers, numbers, set_lists, sets_of_size};
ghost use Rattle.cn_pairs.specs.Smallest.{HasNumberWith, IsWithinOther};
ghost use Rattle.cn_pairs.specs.declared.smallest.TheConstants.{MOST_SETS};

use crate::restricted::{SetNumber, number_with};
use crate::sets::sets_of_size;
use crate::smallest::{MOST_SETS, is_same};
use cn_search::ConsensusNumber;
use cn_table::{Operation, Table};
use std::alloc::{AllocError, Global};
use std::thread::Threads;

/// Whether the operation is one of these.
fn is_among(operations: &[Operation], operation: Operation) -> bool
    ensures { IsTrue result ↔ Contains operations.now operation }
{
    operations.contains(&operation)
}

/// Whether each operation of the set is one of the larger set.
fn is_within(set: &[Operation], larger: &[Operation]) -> bool
    ensures { IsTrue result ↔ All (Contains larger.now) set.now }
{
    for operation in set {
        if !is_among(larger, *operation) {
            return false;
        }
    }
    true
}

/// Whether the set is within this one, which has another number.
#[tactic(auto, unfolding(crate::specs::Smallest::IsWithinOther))]
fn is_within_other(set: &[Operation], larger: &SetNumber, number: ConsensusNumber) -> bool
    ensures { IsTrue result ↔ IsWithinOther (numbers set.now) number larger.now }
{
    !is_same(larger.number, number) && is_within(set, larger.operations.as_slice())
}

/// Whether the set is within one of these that has another number.
fn is_within_some(set: &[Operation], known: &[SetNumber], number: ConsensusNumber) -> bool
    ensures { IsTrue result ↔ Any (IsWithinOther (numbers set.now) number) known.now }
{
    for larger in known {
        if is_within_other(set, larger, number) {
            return true;
        }
    }
    false
}

/// Whether the type has its number with these operations alone. A set within one that has another
/// number has another number too, and needs no search.
fn has_number<T: Threads + Sync>(
    rt: &T,
    alloc: Global,
    table: &Table,
    number: ConsensusNumber,
    known: &[SetNumber],
    set: &[Operation],
) -> Result<bool, AllocError>
    requires number { HasNumber table.now number }
    requires some { 2 ≤ length table.now.operations }
    requires known { AreSetNumbers table.now (length table.now.operations - 1) known.now }
    requires set { AreOperations table.now (numbers set.now) }
    ensures { IfOk result (λ has. IsTrue has ↔ HasNumberWith table.now number (numbers set.now)) }
{
    if is_within_some(set, known, number) {
        return Ok(false);
    }
    let own = number_with(rt, alloc, table, set)?;
    Ok(is_same(own, number))
}

/// The first of these sets that have the number of the type.
fn first_of<T: Threads + Sync>(
    rt: &T,
    alloc: Global,
    table: &Table,
    number: ConsensusNumber,
    known: &[SetNumber],
    sets: &[Vec<Operation>],
) -> Result<Vec<Vec<Operation>>, AllocError>
    requires number { HasNumber table.now number }
    requires some { 2 ≤ length table.now.operations }
    requires known { AreSetNumbers table.now (length table.now.operations - 1) known.now }
    requires sets { All (λ set. AreOperations table.now (numbers set.items)) sets.now }
    ensures { IfOk result (λ found. AreFirstWith (HasNumberWith table.now number) MOST_SETS
        (map (λ set. numbers set.items) sets.now) (set_lists found)) }
{
    let mut found = Vec::new(alloc);
    for set in sets {
        if found.len() >= MOST_SETS {
            return Ok(found);
        }
        let has = has_number(rt, alloc, table, number, known, set.as_slice())?;
        if has {
            found.push(Vec::from_slice(alloc, set.as_slice())?)?;
        }
    }
    Ok(found)
}

/// The first of the sets of so many operations that have the number of the type, by the known
/// numbers of the sets of all operations but one.
pub(crate) fn first_sets<T: Threads + Sync>(
    rt: &T,
    alloc: Global,
    table: &Table,
    number: ConsensusNumber,
    known: &[SetNumber],
    size: u8,
) -> Result<Vec<Vec<Operation>>, AllocError>
    requires number { HasNumber table.now number }
    requires some { 2 ≤ length table.now.operations }
    requires known { AreSetNumbers table.now (length table.now.operations - 1) known.now }
    requires size { 1 ≤ size }
    ensures { IfOk result (λ found. AreFirstWith (HasNumberWith table.now number) MOST_SETS
        (sets_of_size table.now size) (set_lists found)) }
{
    let sets = sets_of_size(alloc, table, size)?;
    first_of(rt, alloc, table, number, known, sets.as_slice())
}
