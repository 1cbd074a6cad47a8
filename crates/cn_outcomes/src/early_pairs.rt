//! Pairs that a process gets from orders of one or two processes.
ghost use Rattle.std.specs.Prelude.{◌≡◌, ◌≤◌, ◌<◌, length, slice_get, IsTrue, Some};
ghost use Rattle.cn_choice.specs.Discerning.{IsWitness};
ghost use Rattle.cn_choice.specs.RawChoices.{IsRawChoice};
ghost use Rattle.cn_outcomes.specs.EarlyPairs.{AreOutcomePairs};
ghost use Rattle.cn_choice.specs.declared.limits.TheConstants.{MOST_PROCESSES};

use crate::outcome_sets::OutcomeSet;
use crate::subset_rows::{is_in, operation_of};
use crate::twins::links;
use cn_choice::{RawChoice, Team};
use cn_table::Table;

/// The pairs of the process if it moves first, alone or before one other process.
fn pairs_of_first_move(table: &Table, choice: &RawChoice, team: Team, j: u8) -> OutcomeSet
    requires few { length choice.now.operations ≤ MOST_PROCESSES }
    requires fits { IsRawChoice table.now (length choice.now.operations) choice.now }
    requires j { j < length choice.now.operations }
    requires team { slice_get choice.now.marks j ≡ Some team }
    ensures { AreOutcomePairs table.now choice.now team j result }
{
    let (_states, _responses) = (table.states(), table.responses());
    let (response, left) = table.apply(operation_of(choice, j), choice.state);
    let mut set = OutcomeSet::only(response.0, left.0);
    for k in 0..choice.operations.len() as u8 {
        if k != j {
            let (_, after) = table.apply(operation_of(choice, k), left);
            set.add(response.0, after.0);
        }
    }
    set
}

/// The pairs of the process if one process of the team moves first, and then itself.
fn pairs_of_second_move(table: &Table, choice: &RawChoice, team: Team, j: u8) -> OutcomeSet
    requires few { length choice.now.operations ≤ MOST_PROCESSES }
    requires fits { IsRawChoice table.now (length choice.now.operations) choice.now }
    requires j { j < length choice.now.operations }
    ensures { AreOutcomePairs table.now choice.now team j result }
{
    let (_states, _responses) = (table.states(), table.responses());
    let mut set = OutcomeSet::none();
    for i in 0..choice.operations.len() as u8 {
        if i != j && is_in(choice, i, team) {
            let (_, found) = table.apply(operation_of(choice, i), choice.state);
            let (response, left) = table.apply(operation_of(choice, j), found);
            set.add(response.0, left.0);
        }
    }
    set
}

/// Whether process j gets the same pair from two such orders that begin in different teams.
fn meets_soon(table: &Table, choice: &RawChoice, j: u8) -> bool
    requires few { length choice.now.operations ≤ MOST_PROCESSES }
    requires fits { IsRawChoice table.now (length choice.now.operations) choice.now }
    requires j { j < length choice.now.operations }
    ensures { IsTrue result → ¬ IsWitness table.now choice.now }
{
    let from_a = pairs_of_second_move(table, choice, Team::A, j);
    let from_b = pairs_of_second_move(table, choice, Team::B, j);
    if from_a.meets(&from_b) {
        return true;
    }
    if is_in(choice, j, Team::A) {
        pairs_of_first_move(table, choice, Team::A, j).meets(&from_b)
    } else {
        pairs_of_first_move(table, choice, Team::B, j).meets(&from_a)
    }
}

/// Whether some process gets the same pair from two such orders that begin in different teams. Then
/// the choice is no witness.
pub(crate) fn some_meet_soon(table: &Table, choice: &RawChoice) -> bool
    requires few { length choice.now.operations ≤ MOST_PROCESSES }
    requires fits { IsRawChoice table.now (length choice.now.operations) choice.now }
    ensures { IsTrue result → ¬ IsWitness table.now choice.now }
{
    let links = links(choice);
    for j in 0..choice.operations.len() as u8 {
        if !links.has(j) && meets_soon(table, choice, j) {
            return true;
        }
    }
    false
}
