//! The smallest sets of operations with the number of the type.
ghost use Rattle.std.specs.Prelude.{◌≡◌, ◌≢◌, ◌≤◌, ◌<◌, ◌-◌, [], ℕ, IfOk, length, map, take};
ghost use Rattle.std.specs.List.{filter};
ghost use Rattle.cn_search.specs.Numbers.{HasNumber};
ghost use Rattle.cn_search.specs.declared.exact.ConsensusNumber.{ConsensusNumber};
ghost use Rattle.cn_pairs.specs.SetNumbers.{AreSetNumbers, set_lists, set_of};
ghost use Rattle.cn_pairs.specs.Smallest.{AreSmallest, NoneHas, same_number};
ghost use Rattle.cn_pairs.specs.declared.smallest.TheConstants.{MOST_SETS};

use crate::restricted::{SetNumber, set_numbers};
use crate::searched::first_sets;
use crate::sets::sets_of_size;
use cn_search::ConsensusNumber;
use cn_table::{Operation, Table};
use std::alloc::{AllocError, Global};
use std::thread::Threads;

/// The most sets that are listed.
pub const MOST_SETS: usize = 12;

/// Whether the two are the same number.
pub(crate) fn is_same(a: ConsensusNumber, b: ConsensusNumber) -> bool
    ensures { result ≡ same_number a b }
{
    match (a, b) {
        (ConsensusNumber::Finite(m), ConsensusNumber::Finite(n)) => m == n,
        (ConsensusNumber::Infinite, ConsensusNumber::Infinite) => true,
        _ => false,
    }
}

/// The first of the sets with this number.
fn sets_with(
    alloc: Global,
    sets: &[SetNumber],
    number: ConsensusNumber,
) -> Result<Vec<Vec<Operation>>, AllocError>
    ensures { IfOk result (λ found. set_lists found
        ≡ map set_of (take MOST_SETS (filter (λ s. same_number s.number number) sets.now))) }
{
    let mut found = Vec::new(alloc);
    for set in sets {
        if found.len() < MOST_SETS && is_same(set.number, number) {
            found.push(Vec::from_slice(alloc, set.operations.as_slice())?)?;
        }
    }
    Ok(found)
}

/// The smallest sets of at least three operations with the number of the type, by the numbers of
/// the sets of all operations but one. None if only the set of all operations has it.
fn sets_of_fewer<T: Threads + Sync>(
    rt: &T,
    alloc: Global,
    table: &Table,
    number: ConsensusNumber,
    known: &[SetNumber],
) -> Result<Vec<Vec<Operation>>, AllocError>
    requires number { HasNumber table.now number }
    requires some { 4 ≤ length table.now.operations }
    requires known { AreSetNumbers table.now (length table.now.operations - 1) known.now }
    requires alone { NoneHas table.now 1 number }
    requires pairs { NoneHas table.now 2 number }
    ensures found { IfOk result (λ sets. sets.items ≢ []
        → AreSmallest table.now number (set_lists sets)) }
    ensures none { IfOk result (λ sets. sets.items ≡ [] → (size : ℕ) → 1 ≤ size
        → size < length table.now.operations → NoneHas table.now size number) }
{
    for size in 3..table.operations() - 1 {
        let found = first_sets(rt, alloc, table, number, known, size)?;
        if !found.is_empty() {
            return Ok(found);
        }
    }
    sets_with(alloc, known, number)
}

/// The smallest sets of operations with the number of the type, where no operation and no pair
/// has it.
fn larger_sets<T: Threads + Sync>(
    rt: &T,
    alloc: Global,
    table: &Table,
    number: ConsensusNumber,
) -> Result<Vec<Vec<Operation>>, AllocError>
    requires number { HasNumber table.now number }
    requires alone { NoneHas table.now 1 number }
    requires pairs { NoneHas table.now 2 number }
    ensures { IfOk result (λ sets. AreSmallest table.now number (set_lists sets)) }
{
    let operations = table.operations();
    if operations <= 3 {
        return sets_of_size(alloc, table, operations);
    }
    let known = set_numbers(rt, alloc, table, operations - 1)?;
    let found = sets_of_fewer(rt, alloc, table, number, known.as_slice())?;
    if !found.is_empty() {
        return Ok(found);
    }
    sets_of_size(alloc, table, operations)
}

/// The smallest sets of operations with the number of the type, from the numbers of each operation
/// alone and of each pair: sets of one size, in lexicographic order of their ascending lists, and
/// at most [`MOST_SETS`] of them.
pub(crate) fn smallest_after_pairs<T: Threads + Sync>(
    rt: &T,
    alloc: Global,
    table: &Table,
    number: ConsensusNumber,
    alone: &[SetNumber],
    pairs: &[SetNumber],
) -> Result<Vec<Vec<Operation>>, AllocError>
    requires number { HasNumber table.now number }
    requires alone { AreSetNumbers table.now 1 alone.now }
    requires pairs { AreSetNumbers table.now 2 pairs.now }
    // promise: numbers-of-some-operations (AreSmallest)
    ensures { IfOk result (λ sets. AreSmallest table.now number (set_lists sets)) }
{
    let of_one = sets_with(alloc, alone, number)?;
    if !of_one.is_empty() {
        return Ok(of_one);
    }
    let of_two = sets_with(alloc, pairs, number)?;
    if !of_two.is_empty() {
        return Ok(of_two);
    }
    larger_sets(rt, alloc, table, number)
}
