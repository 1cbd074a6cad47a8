//! What there is to tell of a recoverable number, as one value.
ghost use Rattle.std.specs.Prelude.{◌≡◌, ◌<◌, ◌≤◌, ◌+◌, length, IfOk, IfSome};
ghost use Rattle.cn_recover.specs.Recording.{HasRecoverableNumber};
ghost use Rattle.cn_search.specs.GreatestLimit.{IsGreatestLimit};
ghost use Rattle.cn_search.specs.declared.exact.ConsensusNumber.TheVariants.{Finite};
ghost use Rattle.cn_reasons.specs.Known.{IsKnownRecoverableWay, IsKnownRefutation};
ghost use Rattle.cn_reasons.specs.Recoverable.{ExplainsRecoverable, IsNoMore, witness_size};

use crate::reasons::{RecoverableWay, refutation_for};
use crate::recording::{RecordingWitness, witness_for};
use crate::refutation::Refutation;
use cn_recover::laws::{live_choices_decide, monotonicity};
use cn_recover::recoverable_consensus_number;
use cn_search::{ConsensusNumber, greatest_limit};
use cn_table::Table;
use std::alloc::{AllocError, Global};
use std::thread::Threads;

/// Why the recoverable number of a type is what it is. Each form of an explanation is a function of
/// this value.
#[derive(Drop)]
pub struct RecoverableExplanation {
    /// The table of the type.
    pub table: Table,
    /// The recoverable number.
    pub number: ConsensusNumber,
    /// The first recording witness for as many processes as the number, or as are searched at most,
    /// and none if the number is 1.
    pub witness: Option<RecordingWitness>,
    /// Why there is none for one process more, if so many are searched.
    pub refutation: Option<Refutation<RecoverableWay>>,
    /// Whether every choice for one process more is told.
    pub all: bool,
}

/// For how many processes the witness is: as many as the number, or as are searched at most.
fn witness_size(number: ConsensusNumber, limit: u8) -> u8
    ensures { result ≡ witness_size limit number }
{
    match number {
        ConsensusNumber::Finite(n) => n.min(limit),
        ConsensusNumber::Infinite => limit,
    }
}

/// Why there is no recording witness for one process more than n, if so many are searched.
fn no_more_than(
    alloc: Global,
    table: &Table,
    n: u8,
    limit: u8,
    all: bool,
) -> Result<Option<Refutation<RecoverableWay>>, AllocError>
    requires number { HasRecoverableNumber table.now (Finite n) }
    requires limit { IsGreatestLimit (length table.now.states) (length table.now.operations) limit }
    ensures no_more { IfOk result (IsNoMore table.now limit all (Finite n)) }
    ensures known { IfOk result (λ refutation.
        IfSome refutation (IsKnownRefutation (IsKnownRecoverableWay table.now))) }
{
    live_choices_decide();
    if n >= limit {
        return Ok(None);
    }
    let refutation = refutation_for(alloc, table, n + 1, all)?;
    Ok(Some(refutation))
}

/// The same for one process more than the number.
fn no_more(
    alloc: Global,
    table: &Table,
    number: ConsensusNumber,
    limit: u8,
    all: bool,
) -> Result<Option<Refutation<RecoverableWay>>, AllocError>
    requires number { HasRecoverableNumber table.now number }
    requires limit { IsGreatestLimit (length table.now.states) (length table.now.operations) limit }
    ensures no_more { IfOk result (IsNoMore table.now limit all number) }
    ensures known { IfOk result (λ refutation.
        IfSome refutation (IsKnownRefutation (IsKnownRecoverableWay table.now))) }
{
    match number {
        ConsensusNumber::Finite(n) => no_more_than(alloc, table, n, limit, all),
        ConsensusNumber::Infinite => Ok(None),
    }
}

impl RecoverableExplanation {
    /// The explanation of the recoverable number of a type with no limit. It tells all choices for
    /// one process more, or the first [`MOST_TOLD`](cn_form::MOST_TOLD). `rt` starts the threads of
    /// the searches.
    ///
    /// At most as many processes are searched as [`find`](cn_search::find) takes for the table
    /// ([`greatest_limit`]).
    ///
    /// # Errors
    ///
    /// `AllocError` if memory is too little for one thread.
    pub fn new<T: Threads + Sync>(
        rt: &T,
        alloc: Global,
        table: Table,
        all: bool,
    ) -> Result<RecoverableExplanation, AllocError>
        // promise: recoverable-explanation (ExplainsRecoverable)
        ensures { IfOk result (ExplainsRecoverable table all) }
    {
        monotonicity();
        let number = recoverable_consensus_number(rt, alloc, &table)?;
        let limit = greatest_limit(&table);
        let witness = witness_for(rt, alloc, &table, witness_size(number, limit))?;
        let refutation = no_more(alloc, &table, number, limit, all)?;
        Ok(RecoverableExplanation {
            table,
            number,
            witness,
            refutation,
            all,
        })
    }
}
