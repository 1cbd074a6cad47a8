//! Sets of states, as lists.
ghost use Rattle.std.specs.Prelude.{◌<◌, ℕ, length, All, IfOk, IsBitSet};
ghost use Rattle.cn_reasons.specs.Known.{IsKnownState};
ghost use Rattle.cn_reasons.specs.States.{AreStates};

use cn_outcomes::Bits;
use cn_table::{State, Table};
use std::alloc::{AllocError, Global};

/// The states of the set, ascending.
pub(crate) fn states_in(alloc: Global, table: &Table, set: Bits) -> Result<Vec<State>, AllocError>
    requires { (q : ℕ) → IsBitSet set q → q < length table.now.states }
    ensures states { IfOk result (λ states. AreStates (IsBitSet set) states.items) }
    ensures known { IfOk result (λ states. All (IsKnownState table.now) states.items) }
{
    let _table = table;
    let mut states = Vec::new(alloc);
    for state in set.iter() {
        states.push(State(state))?;
    }
    Ok(states)
}
