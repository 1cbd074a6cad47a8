//! Whether a choice is a witness.
ghost use Rattle.std.specs.Prelude.{◌≡◌, ◌<◌, ◌+◌, ◌⊎◌, ◌↔◌, ℕ, length, IfNone, IfSome};
ghost use Rattle.cn_choice.specs.Canonical.{FitsTable, raw_choice_of};
ghost use Rattle.cn_choice.specs.Discerning.{IsWitness, OutcomeSetsMeet};
ghost use Rattle.cn_choice.specs.OutcomeSets.{InOutcomeSet};
ghost use Rattle.cn_check.specs.Runs.{EndsIn, IsIn, ShowsFrom};
ghost use Rattle.cn_choice.specs.Moves.{move_of};
ghost use Rattle.cn_check.specs.WalkedRuns.{AreWalked, HasPair};

use crate::choice::{operation_of, processes, team_of};
use crate::end_sets::EndSets;
use crate::pairs::Pairs;
use crate::sets::{has_moved, only, union, with_moved};
use cn_choice::laws::{pair_along_order, process_of_pair};
use cn_choice::{Choice, Team};
use cn_table::{State, Table};

/// The response to a process that moves in this state, and the state after the move.
fn move_of(table: &Table, choice: &Choice, process: u8, state: State) -> (u8, State)
    requires fits { FitsTable table.now choice.now }
    requires process { process < length choice.now.a + length choice.now.b }
    requires state { state.0 < length table.now.states }
    ensures value { (result.0, result.1.0)
        ≡ move_of table.now (raw_choice_of choice.now) process state.0 }
    ensures response { result.0 < 16 }
    ensures known { result.1.0 < length table.now.states }
{
    // A table has at most 16 responses.
    let _responses = table.responses();
    let (response, after) = table.apply(operation_of(choice, process), state);
    (response.0, after)
}

/// The states in which the runs from a point can end: these processes have moved, and the object is
/// in this state. The walk adds what the runs show to the pairs, and keeps the set for the point. A
/// point whose set is not empty was visited: the pairs have what the runs from it show.
fn walk(
    end_sets: &mut EndSets,
    pairs: &mut Pairs,
    table: &Table,
    choice: &Choice,
    used: u8,
    state: State,
) -> u16
    requires fits { FitsTable table.now choice.now }
    requires state { state.0 < length table.now.states }
    requires walked { AreWalked table.now (raw_choice_of choice.now) end_sets.old pairs.old }
    ensures ends { (q : ℕ)
        → IsIn result q ↔ EndsIn table.now (raw_choice_of choice.now) used state.0 q }
    ensures shown { (j r q : ℕ)
        → HasPair pairs.new j r q
        ↔ (HasPair pairs.old j r q
        ⊎ ShowsFrom table.now (raw_choice_of choice.now) used state.0 j r q) }
    ensures walked { AreWalked table.now (raw_choice_of choice.now) end_sets.new pairs.new }
{
    // A table has at most 16 states.
    let _states = table.states();
    let before = end_sets.at(used, state.0);
    if before != 0 {
        return before;
    }
    let mut ends = only(state.0);
    for next in 0..processes(table, choice) {
        if !has_moved(used, next) {
            let (response, after) = move_of(table, choice, next, state);
            let later = walk(
                end_sets,
                pairs,
                table,
                choice,
                with_moved(used, next),
                after,
            );
            pairs.add(next, response, later);
            ends = union(ends, later);
        }
    }
    end_sets.put(used, state.0, ends);
    ends
}

fn outcome_sets(table: &Table, choice: &Choice, team: Team) -> Pairs
    requires { FitsTable table.now choice.now }
    ensures { (j r q : ℕ)
        → HasPair result j r q ↔ InOutcomeSet table.now (raw_choice_of choice.now) team j (r, q) }
{
    // One walk along an order finds what a process sees.
    pair_along_order();
    let mut end_sets = EndSets::new();
    let mut pairs = Pairs::new();
    for first in 0..processes(table, choice) {
        if team_of(choice, first) == team {
            let (response, after) = move_of(table, choice, first, choice.state);
            let used = with_moved(0, first);
            let later = walk(&mut end_sets, &mut pairs, table, choice, used, after);
            pairs.add(first, response, later);
        }
    }
    pairs
}

/// The least process whose outcome sets meet; none if the choice is a witness.
pub(crate) fn first_meeting(table: &Table, choice: &Choice) -> Option<u8>
    requires { FitsTable table.now choice.now }
    ensures none { IfNone result (IsWitness table.now (raw_choice_of choice.now)) }
    ensures meets { IfSome result (OutcomeSetsMeet table.now (raw_choice_of choice.now)) }
    ensures least { IfSome result (λ j. (i : ℕ) → i < j
        → ¬ OutcomeSetsMeet table.now (raw_choice_of choice.now) i) }
{
    // A number that is no process of the choice has no pair in an outcome set.
    process_of_pair();
    let after_a = outcome_sets(table, choice, Team::A);
    let after_b = outcome_sets(table, choice, Team::B);
    for process in 0..processes(table, choice) {
        if after_a.meets(&after_b, process) {
            return Some(process);
        }
    }
    None
}
