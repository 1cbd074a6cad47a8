//! Two operations that last, with the states that they leave.
ghost use Rattle.std.specs.Prelude.{◌≡◌, IfOk, IfSome, IsSomeAnd, MatchOption, None};
ghost use Rattle.cn_stocks.specs.Leaving.{IsLasting, Leaves};
ghost use Rattle.cn_reasons.specs.Known.{IsKnownLasting};
ghost use Rattle.cn_reasons.specs.Lasting.{IsLastingWitnessOf};
ghost use Rattle.cn_reasons.specs.States.{AreStates};

use crate::states::states_in;
use cn_stocks::lasting::{First, Lasting, left_states};
use cn_table::{State, Table};
use std::alloc::{AllocError, Global};

/// Two operations that last: no state is left both where the single one came first, and where the
/// other one did or nobody has moved yet.
#[derive(Drop)]
pub struct LastingWitness {
    /// The start state and the operations.
    pub lasting: Lasting,
    /// The states that are left where the single operation came first, ascending.
    pub single_states: Vec<State>,
    /// Those that are left where the other one came first, or none yet, ascending.
    pub many_states: Vec<State>,
}

/// The operations with the states that they leave.
fn lasting_witness(
    alloc: Global,
    table: &Table,
    lasting: Lasting,
) -> Result<LastingWitness, AllocError>
    requires { IsLasting table.now lasting }
    ensures witness { IfOk result (IsLastingWitnessOf table.now lasting) }
    ensures known { IfOk result (IsKnownLasting table.now) }
{
    let _states = table.states();
    let single = left_states(table, lasting, First::Single);
    let many = left_states(table, lasting, First::Many);
    Ok(LastingWitness {
        lasting,
        single_states: states_in(alloc, table, single)?,
        many_states: states_in(alloc, table, many)?,
    })
}

/// The same, if operations are given.
pub(crate) fn lasting_if(
    alloc: Global,
    table: &Table,
    lasting: Option<Lasting>,
) -> Result<Option<LastingWitness>, AllocError>
    requires { IfSome lasting (IsLasting table.now) }
    ensures witness { IfOk result (λ witness. MatchOption lasting (witness ≡ None)
        (λ l. IsSomeAnd witness (IsLastingWitnessOf table.now l))) }
    ensures known { IfOk result (λ witness. IfSome witness (IsKnownLasting table.now)) }
{
    match lasting {
        Some(lasting) => Ok(Some(lasting_witness(alloc, table, lasting)?)),
        None => Ok(None),
    }
}
