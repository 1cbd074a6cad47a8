//! Which number of a type is told.
ghost use Rattle.std.specs.Prelude.{◌≡◌, IfOk};
ghost use Rattle.cn_unread_number.specs.Bounds.{as_bounds};
ghost use Rattle.cn_changes.specs.Kinds.{HasNumberOf};

use cn_recover::recoverable_consensus_number;
use cn_search::{ConsensusNumber, consensus_number};
use cn_table::Table;
use cn_unread_number::{NumberBounds, unread_number};
use std::alloc::{AllocError, Global};
use std::thread::Threads;

/// Which number of a type is told.
#[derive(Clone, Copy, Debug, PartialEq, Eq)]
pub enum NumberKind {
    /// The consensus number.
    Consensus,
    /// The recoverable number.
    Recoverable,
    /// The consensus number without reads, as far as it is known.
    WithoutReads,
}

/// An exact number as what is known of one.
pub(crate) fn exactly(number: ConsensusNumber) -> NumberBounds
    ensures { result ≡ as_bounds number }
{
    match number {
        ConsensusNumber::Finite(n) => NumberBounds::Exactly(n),
        ConsensusNumber::Infinite => NumberBounds::Infinite,
    }
}

/// This number of a type. It is [`Exactly`](NumberBounds::Exactly) one or
/// [`Infinite`](NumberBounds::Infinite), and without reads also a range.
///
/// # Errors
///
/// `AllocError` if memory is too little for one thread.
pub fn number_of<T: Threads + Sync>(
    rt: &T,
    alloc: Global,
    table: &Table,
    kind: NumberKind,
) -> Result<NumberBounds, AllocError>
    // promise: numbers-of-changes (HasNumberOf)
    ensures { IfOk result (HasNumberOf kind table.now) }
{
    match kind {
        NumberKind::Consensus => {
            let number = consensus_number(rt, alloc, table)?;
            Ok(exactly(number))
        }
        NumberKind::Recoverable => {
            let number = recoverable_consensus_number(rt, alloc, table)?;
            Ok(exactly(number))
        }
        NumberKind::WithoutReads => {
            let found = unread_number(rt, alloc, table)?;
            Ok(found.evidence.bounds)
        }
    }
}
