//! The ways that a certificate refutes: the choice of each, and two runs by which a process cannot
//! tell which team was first.
ghost use Rattle.std.specs.Prelude.{◌≡◌, All, IfOk};
ghost use Rattle.std.specs.List.{AllZip};
ghost use Rattle.cn_choice.specs.Canonical.{raw_choice_of};
ghost use Rattle.cn_reasons.specs.Known.{IsKnownSight, IsKnownWay};
ghost use Rattle.cn_reasons.specs.Ways.{IsCollisionOf, IsSightOf, IsWayOf};

use crate::group::{ChoiceGroups, choice_groups};
use crate::runs::{Runs, runs_of};
use crate::sight::Sight;
use cn_choice::laws::{pair_in_order, short_orders};
use cn_choice::reference::seen_pair;
use cn_choice::{Collision, RawChoice};
use cn_table::{Response, State, Table};
use std::alloc::{AllocError, Global};

/// A way to choose a start state, operations and teams that does not work: a process sees the same
/// in two runs, and so cannot tell which team was first.
#[derive(Drop)]
pub struct Way {
    /// The choice.
    pub choice: ChoiceGroups,
    /// The process that cannot tell.
    pub process: u8,
    /// What it sees of both runs.
    pub sight: Sight,
    /// The two runs.
    pub runs: Runs,
}

/// What the process of the entry sees of both runs.
fn sight_of(table: &Table, choice: &RawChoice, entry: &Collision) -> Sight
    requires entry { IsCollisionOf table.now entry.now }
    requires choice { choice.now ≡ raw_choice_of entry.now.choice }
    ensures sight { IsSightOf table.now entry.now result }
    ensures known { IsKnownSight table.now result }
{
    match seen_pair(table, choice, entry.alpha.as_slice(), entry.process) {
        Some((response, state)) => Sight {
            response: Response(response),
            state: State(state),
        },
        None => unreachable!(),
    }
}

/// The way of an entry of a certificate.
fn way_of(table: &Table, entry: &Collision) -> Way
    requires { IsCollisionOf table.now entry.now }
    ensures way { IsWayOf table.now entry.now result }
    ensures known { IsKnownWay table.now result }
{
    short_orders();
    pair_in_order();
    let raw = RawChoice::of(&entry.choice);
    let (alpha, beta) = (entry.alpha.as_slice(), entry.beta.as_slice());
    Way {
        choice: choice_groups(table, &entry.choice),
        process: entry.process,
        sight: sight_of(table, &raw, entry),
        runs: runs_of(table, &raw, alpha, beta),
    }
}

/// The ways of entries of a certificate.
pub(crate) fn ways_of(
    alloc: Global,
    table: &Table,
    entries: &[Collision],
) -> Result<Vec<Way>, AllocError>
    requires { All (IsCollisionOf table.now) entries.now }
    ensures ways { IfOk result (λ ways. AllZip (IsWayOf table.now) entries.now ways.items) }
    ensures known { IfOk result (λ ways. All (IsKnownWay table.now) ways.items) }
{
    let mut ways = Vec::new(alloc);
    for entry in entries {
        ways.push(way_of(table, entry))?;
    }
    Ok(ways)
}
