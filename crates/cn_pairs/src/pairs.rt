//! The numbers of the operations of a type, of their pairs, and of the type.
ghost use Rattle.std.specs.Prelude.{IfOk};
ghost use Rattle.cn_search.specs.Numbers.{HasNumber};
ghost use Rattle.cn_pairs.specs.SetNumbers.{AreSetNumbers, set_lists};
ghost use Rattle.cn_pairs.specs.Smallest.{AreSmallest};

use crate::restricted::{SetNumber, set_numbers};
use crate::smallest::smallest_after_pairs;
use cn_search::{ConsensusNumber, consensus_number};
use cn_table::{Operation, Table};
use std::alloc::{AllocError, Global};
use std::thread::Threads;

/// The numbers of a type, of each of its operations alone, and of each pair of operations, and the
/// smallest sets of operations with the number of the type.
#[derive(Drop)]
pub struct Pairs {
    /// The number of the type.
    pub number: ConsensusNumber,
    /// Each operation alone.
    pub alone: Vec<SetNumber>,
    /// Each pair of operations.
    pub pairs: Vec<SetNumber>,
    /// The smallest sets of operations with the number of the type, at most
    /// [`MOST_SETS`](crate::MOST_SETS) of them. There is one at least, since the set of all
    /// operations has it ([`whole_type_has_its_number`](crate::laws::whole_type_has_its_number)).
    pub smallest: Vec<Vec<Operation>>,
}

/// The numbers of a type, of each of its operations alone, and of each pair of operations, and the
/// smallest sets of operations with the number of the type.
///
/// # Errors
///
/// `AllocError` if memory is too little for one thread.
pub fn pairs_of<T: Threads + Sync>(
    rt: &T,
    alloc: Global,
    table: &Table,
) -> Result<Pairs, AllocError>
    // promise: numbers-of-some-operations (HasNumber)
    ensures number { IfOk result (λ p. HasNumber table.now p.number) }
    // promise: numbers-of-some-operations
    ensures alone { IfOk result (λ p. AreSetNumbers table.now 1 p.alone.items) }
    // promise: numbers-of-some-operations (AreSetNumbers)
    ensures pairs { IfOk result (λ p. AreSetNumbers table.now 2 p.pairs.items) }
    // promise: numbers-of-some-operations (AreSmallest)
    ensures smallest { IfOk result (λ p. AreSmallest table.now p.number (set_lists p.smallest)) }
{
    let number = consensus_number(rt, alloc, table)?;
    let alone = set_numbers(rt, alloc, table, 1)?;
    let pairs = set_numbers(rt, alloc, table, 2)?;
    let smallest = smallest_after_pairs(
        rt,
        alloc,
        table,
        number,
        alone.as_slice(),
        pairs.as_slice(),
    )?;
    Ok(Pairs {
        number,
        alone,
        pairs,
        smallest,
    })
}
