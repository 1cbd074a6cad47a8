//! The numbers of a type with some of its operations alone.
ghost use Rattle.std.specs.Prelude.{◌≡◌, ◌≤◌, All, IfOk, map};
ghost use Rattle.cn_table.specs.Restriction.{AreOperations, with_operations};
ghost use Rattle.cn_search.specs.Numbers.{HasNumber};
ghost use Rattle.cn_pairs.specs.SetNumbers.{AreSetNumbers, IsSetNumber, numbers, set_of};

use crate::sets::sets_of_size;
use cn_search::{ConsensusNumber, consensus_number};
use cn_table::{Operation, Table};
use std::alloc::{AllocError, Global};
use std::thread::Threads;

/// A set of operations of a type, and the number of the type with these operations alone.
#[derive(Drop)]
pub struct SetNumber {
    /// The operations: those with lesser numbers come first.
    pub operations: Vec<Operation>,
    /// The number of the type with these operations and no others.
    pub number: ConsensusNumber,
}

/// The number of a type with these operations alone.
///
/// # Errors
///
/// `AllocError` if memory is too little for one thread.
pub fn number_with<T: Threads + Sync>(
    rt: &T,
    alloc: Global,
    table: &Table,
    operations: &[Operation],
) -> Result<ConsensusNumber, AllocError>
    requires { AreOperations table.now (numbers operations.now) }
    // promise: numbers-of-some-operations (HasNumber, with_operations)
    ensures { IfOk result (HasNumber (with_operations table.now (numbers operations.now))) }
{
    let restricted = table.with_operations(alloc, operations)?;
    consensus_number(rt, alloc, &restricted)
}

/// These sets, each with its number.
fn numbers_of<T: Threads + Sync>(
    rt: &T,
    alloc: Global,
    table: &Table,
    sets: &[Vec<Operation>],
) -> Result<Vec<SetNumber>, AllocError>
    requires { All (λ set. AreOperations table.now (numbers set.items)) sets.now }
    ensures sets { IfOk result (λ told. map set_of told.items
        ≡ map (λ set. numbers set.items) sets.now) }
    ensures numbers { IfOk result (λ told. All (IsSetNumber table.now) told.items) }
{
    let mut told = Vec::new(alloc);
    for set in sets {
        let number = number_with(rt, alloc, table, set.as_slice())?;
        let operations = Vec::from_slice(alloc, set.as_slice())?;
        told.push(SetNumber { operations, number })?;
    }
    Ok(told)
}

/// All sets of so many operations, at least one, each with its number. Each set is an ascending
/// list, and these lists come in lexicographic order.
///
/// # Errors
///
/// `AllocError` if memory is too little for one thread.
pub fn set_numbers<T: Threads + Sync>(
    rt: &T,
    alloc: Global,
    table: &Table,
    size: u8,
) -> Result<Vec<SetNumber>, AllocError>
    requires { 1 ≤ size }
    // promise: numbers-of-some-operations (AreSetNumbers)
    ensures { IfOk result (λ sets. AreSetNumbers table.now size sets.items) }
{
    let sets = sets_of_size(alloc, table, size)?;
    let told = numbers_of(rt, alloc, table, sets.as_slice())?;
    Ok(told)
}
