//! States that are one without reads.
ghost use Rattle.std.specs.Prelude.{◌≡◌, ◌<◌, ◌≤◌, IfOk, length};
ghost use Rattle.cn_table.specs.declared.limits.TheConstants.{MOST_STATES};
ghost use Rattle.cn_unread_reasons.specs.MergedStates.{merged_states, stands_before};

use cn_table::State;
use std::alloc::{AllocError, Global};

/// A state of a table for which another one stands, and the state of the merged table that both are.
#[derive(Clone, Copy, Debug, PartialEq, Eq)]
pub struct MergedState {
    /// The state of the table that was given.
    pub state: State,
    /// The state of the merged table.
    pub class: State,
}

/// Whether a state before this one is of the same class.
fn stands_before(class_of: &[u8], state: u8) -> bool
    requires { state < length class_of.now }
    ensures { result ≡ stands_before class_of.now state }
{
    let place = state as usize;
    let class = class_of[place];
    class_of[..place].iter().any(|other| *other == class)
}

/// The states that are not the first of their class, in order, each with its class.
pub(crate) fn merged_states(alloc: Global, class_of: &[u8]) -> Result<Vec<MergedState>, AllocError>
    requires { length class_of.now ≤ MOST_STATES }
    ensures { IfOk result (λ merged. merged.items ≡ merged_states class_of.now) }
{
    let mut merged = Vec::new(alloc);
    for state in 0..class_of.len() as u8 {
        if stands_before(class_of, state) {
            merged.push(MergedState {
                state: State(state),
                class: State(class_of[state as usize]),
            })?;
        }
    }
    Ok(merged)
}
