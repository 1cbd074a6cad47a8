//! The pair that an order shows to a process.
ghost use Rattle.std.specs.Prelude.{◌≡◌, ◌<◌, ◌≤◌, ◌+◌, ◌↔◌, ℕ, length, All, IfSome, IsTrue, Some};
ghost use Rattle.cn_choice.specs.declared.limits.TheConstants.{MOST_PROCESSES};
ghost use Rattle.cn_choice.specs.Canonical.{FitsTable, raw_choice_of};
ghost use Rattle.cn_choice.specs.Orders.{IsOrder};
ghost use Rattle.cn_choice.specs.OutcomeSets.{BeginsIn, pair_of};
ghost use Rattle.cn_check.specs.Runs.{IsIn};
ghost use Rattle.cn_check.specs.ShownPairs.{Shows};

use crate::choice::{operation_in, processes_in, team_in};
use crate::sets::{has_moved, with_moved};
use cn_choice::Team;
use cn_choice::laws::pair_along_order;
use cn_table::{State, Table};

/// Whether the process has not moved and is one of n; n is at most
/// [`MOST_PROCESSES`](cn_choice::MOST_PROCESSES).
fn may_move(used: u8, process: u8, n: u8) -> bool
    requires { n ≤ MOST_PROCESSES }
    ensures { IsTrue result ↔ ((process < n) × (¬ IsIn used process)) }
{
    process < n && !has_moved(used, process)
}

/// Whether the first process of the order is in the team.
fn begins_in(state: State, teams: (&[u8], &[u8]), team: Team, order: &[u8]) -> bool
    requires known { All (λ p. p < length teams.0.now + length teams.1.now) order.now }
    ensures { IsTrue result
        ↔ BeginsIn (raw_choice_of (record { state = state.0; a = teams.entry.0.now; b = teams.entry.1.now }))
        team order.now }
{
    match order {
        [] => false,
        [first, ..] => team_in(teams, *first) == team,
    }
}

/// The response of the process and the last state, after the processes of the list have moved from
/// the start state on, if the list is an order and contains the process.
fn pair_of(
    table: &Table,
    start: State,
    teams: (&[u8], &[u8]),
    list: &[u8],
    process: u8,
) -> Option<(u8, u8)>
    requires fits { FitsTable table.now
        (record { state = start.0; a = teams.0.now; b = teams.1.now }) }
    ensures pair { (pair : ℕ × ℕ)
        → (result ≡ Some pair)
        ↔ (IsOrder (length teams.entry.0.now + length teams.entry.1.now) list.now
        × (pair_of table.now
        (raw_choice_of (record { state = start.0; a = teams.entry.0.now; b = teams.entry.1.now })) list.now
        process ≡ Some pair)) }
    ensures range { IfSome result (λ pair. (pair.0 < length table.now.responses)
        × (pair.1 < length table.now.states)) }
{
    // One walk along the order finds what the process sees.
    pair_along_order();
    let n = processes_in(teams);
    let mut used = 0;
    let mut state = start;
    let mut own_response = None;
    for p in list {
        if !may_move(used, *p, n) {
            return None;
        }
        used = with_moved(used, *p);
        let (response, next) = table.apply(operation_in(teams, *p), state);
        if *p == process && own_response.is_none() {
            own_response = Some(response.0);
        }
        state = next;
    }
    match own_response {
        Some(response) => Some((response, state.0)),
        None => None,
    }
}

/// The pair that the list shows to the process, if the list is an order of the processes of these
/// teams, begins in the team and contains the process.
pub(crate) fn shown_pair(
    table: &Table,
    start: State,
    teams: (&[u8], &[u8]),
    team: Team,
    list: &[u8],
    process: u8,
) -> Option<(u8, u8)>
    requires fits { FitsTable table.now
        (record { state = start.0; a = teams.0.now; b = teams.1.now }) }
    ensures pair { (pair : ℕ × ℕ)
        → (result ≡ Some pair)
        ↔ Shows table.now
        (raw_choice_of (record { state = start.0; a = teams.entry.0.now; b = teams.entry.1.now })) team process
        pair list.now }
    ensures range { IfSome result (λ pair. (pair.0 < length table.now.responses)
        × (pair.1 < length table.now.states)) }
{
    let pair = pair_of(table, start, teams, list, process)?;
    if begins_in(start, teams, team, list) {
        Some(pair)
    } else {
        None
    }
}
