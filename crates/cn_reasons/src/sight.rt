//! What a process can see, by the team that moves first.
ghost use Rattle.std.specs.Prelude.{◌≡◌, ◌↔◌, ◌+◌, ◌<◌, ◌++◌, ℕ, Bool, length, All, IfOk, IsTrue, OnOk};
ghost use Rattle.cn_choice.specs.Canonical.{FitsTable};
ghost use Rattle.cn_outcomes.specs.PairSets.{Has};
ghost use Rattle.cn_reasons.specs.Known.{IsKnownSight};
ghost use Rattle.cn_reasons.specs.Sights.{sights, sights_if};

use crate::laws::told_sights;
use cn_choice::{Choice, Team};
use cn_outcomes::{OutcomeSet, outcomes};
use cn_table::{Response, State, Table};
use std::alloc::{AllocError, Global};

/// What a process sees of a run: the response that it got, and the state that it reads at the end.
#[derive(Clone, Copy, Debug, PartialEq, Eq)]
pub struct Sight {
    /// The response.
    pub response: Response,
    /// The state.
    pub state: State,
}

/// Appends the sights of the set with this response, in the order of the states.
fn push_sights(
    sights: &mut Vec<Sight>,
    set: &OutcomeSet,
    response: u8,
    states: u8,
) -> Result<(), AllocError>
    ensures { (test : ℕ → ℕ → Bool) → ((r q : ℕ) → IsTrue (test r q) ↔ Has set.now r q)
        → OnOk result (sights.new.items ≡ sights.old.items ++ sights_if test states response) }
{
    for state in 0..states {
        let sight = Sight {
            response: Response(response),
            state: State(state),
        };
        if set.has(sight.response, sight.state) {
            sights.push(sight)?;
        }
    }
    Ok(())
}

/// What a process of a choice can see if the team is first: by the number of the response, and then
/// by that of the state.
///
/// # Errors
///
/// `AllocError` if memory runs out.
pub fn sights(
    alloc: Global,
    table: &Table,
    choice: &Choice,
    team: Team,
    process: u8,
) -> Result<Vec<Sight>, AllocError>
    requires fits { FitsTable table.now choice.now }
    requires process { process < length choice.now.a + length choice.now.b }
    // promise: seen-pairs (sights)
    ensures seen { IfOk result (λ seen. seen.items
        ≡ sights table.now choice.now team process) }
    // promise: seen-pairs (IsKnownSight)
    ensures known { IfOk result (λ seen. All (IsKnownSight table.now) seen.items) }
{
    told_sights();
    let set = outcomes(table, choice, team, process);
    let mut seen = Vec::new(alloc);
    for response in 0..table.responses() {
        push_sights(&mut seen, &set, response, table.states())?;
    }
    Ok(seen)
}
