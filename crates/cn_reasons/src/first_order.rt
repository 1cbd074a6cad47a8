//! The first order of a team that leaves a state.
ghost use Rattle.std.specs.Prelude.{◌≡◌, ◌+◌, ◌≤◌, ◌<◌, ◌++◌, [], ℕ, List, length, IsFalse, IsTrue};
ghost use Rattle.cn_choice.specs.RawChoices.{IsRawChoice};
ghost use Rattle.cn_choice.specs.Moves.{next_of};
ghost use Rattle.cn_outcomes.specs.LeftStates.{LeavesIn};
ghost use Rattle.cn_outcomes.specs.Twins.{AreTwins};
ghost use Rattle.cn_reasons.specs.Beginnings.{IsAim, IsBeginning, IsFirstRest, IsFree, IsPassed, NoRest};
ghost use Rattle.cn_reasons.specs.NotRecording.{IsFirstOrder};

use crate::onward::Onward;
use arrayvec::ArrayVec;
use cn_choice::{MOST_PROCESSES, RawChoice, Team};
use cn_outcomes::bits::{contains, with};
use cn_table::{Operation, State, Table};

/// A team of a choice, and a state that its orders are to leave.
#[derive(Clone, Copy)]
pub(crate) struct Aim<'a> {
    pub table: &'a Table,
    pub choice: &'a RawChoice,
    pub onward: &'a Onward,
    pub team: Team,
    pub state: State,
}

/// Whether the process has the same operation and team as the one before it.
fn is_twin(choice: &RawChoice, process: u8) -> bool
    requires operation { process < length choice.now.operations }
    requires team { length choice.now.marks ≡ length choice.now.operations }
    ensures { IsTrue result → (before : ℕ) × (process ≡ before + 1) × AreTwins choice.now before }
{
    if process == 0 {
        return false;
    }
    let (here, before) = (process as usize, process as usize - 1);
    choice.operations[here] == choice.operations[before]
        && choice.marks[here] == choice.marks[before]
}

/// Whether the process is tried next: it can move, and its twin before it has moved.
fn is_tried(aim: &Aim<'_>, used: u16, process: u8) -> bool
    requires aim { IsAim aim.now }
    requires process { process < length aim.now.choice.now.operations }
    ensures tried { IsTrue result → IsFree aim.now used process }
    ensures passed { IsFalse result → IsPassed aim.now used process }
{
    let choice = aim.choice;
    if contains(used, process) {
        return false;
    }
    if used == 0 && choice.marks[process as usize] != aim.team {
        return false;
    }
    !is_twin(choice, process) || contains(used, process - 1)
}

/// The state after a move of the process.
fn next_state(aim: &Aim<'_>, state: State, process: u8) -> State
    requires aim { IsAim aim.now }
    requires state { state.0 < length aim.now.table.now.states }
    requires process { process < length aim.now.choice.now.operations }
    ensures next { result.0 ≡ next_of aim.now.table.now aim.now.choice.now process state.0 }
    ensures known { result.0 < length aim.now.table.now.states }
{
    let choice = aim.choice;
    let (_, next) = aim
        .table
        .apply(Operation(choice.operations[process as usize]), state);
    next
}

/// Appends the first list of so many processes with which the order leaves the state, if there is
/// one.
fn push_rest(
    aim: &Aim<'_>,
    used: u16,
    state: State,
    left: u8,
    order: &mut ArrayVec<u8, MOST_PROCESSES>,
) -> bool
    requires aim { IsAim aim.now }
    requires beginning { IsBeginning aim.now order.old.items used state.0 }
    requires some { order.old.items ≡ [] → 1 ≤ left }
    requires room { length order.old.items + left ≤ length aim.now.choice.now.operations }
    ensures none { IsFalse result → NoRest aim.now left order.old.items }
    ensures unchanged { IsFalse result → order.new.items ≡ order.old.items }
    ensures first { IsTrue result → (rest : List ℕ)
        × (order.new.items ≡ order.old.items ++ rest)
        × IsFirstRest aim.now left order.old.items rest }
{
    if !aim.onward.leads(aim.table, left, state, aim.state) {
        return false;
    }
    if left == 0 {
        return true;
    }
    let choice = aim.choice;
    let n = choice.operations.len() as u8;
    for process in 0..n {
        if !is_tried(aim, used, process) {
            continue;
        }
        order.push(process);
        let next = next_state(aim, state, process);
        if push_rest(aim, with(used, process), next, left - 1, order) {
            return true;
        }
        let _process = order.pop();
    }
    false
}

/// The first order of the team, in list order, that leaves the state, which some order of it does.
pub(crate) fn first_order(aim: &Aim<'_>) -> ArrayVec<u8, MOST_PROCESSES>
    requires aim { IsAim aim.now }
    requires some { LeavesIn aim.now.table.now aim.now.choice.now aim.now.team aim.now.state.0 }
    ensures { IsFirstOrder aim.now.table.now aim.now.choice.now aim.now.team aim.now.state.0
        result.items }
{
    let choice = aim.choice;
    let n = choice.operations.len() as u8;
    let mut order = ArrayVec::new();
    for more in 0..n {
        if push_rest(aim, 0, choice.state, more + 1, &mut order) {
            return order;
        }
    }
    unreachable!()
}
