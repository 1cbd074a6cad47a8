//! Recording witnesses, decided by the sets of the states that the orders of each team leave.
ghost use Rattle.std.specs.Prelude.{◌≡◌, ◌≤◌, ◌<◌, ◌↔◌, length, slice_get, IsTrue, Some};
ghost use Rattle.cn_choice.specs.Moves.{next_of};
ghost use Rattle.cn_choice.specs.RawChoices.{IsRawChoice};
ghost use Rattle.cn_choice.specs.Canonical.{FitsTable, raw_choice_of};
ghost use Rattle.cn_choice.specs.declared.limits.TheConstants.{MOST_PROCESSES};
ghost use Rattle.cn_recover.specs.Recording.{IsRecordingWitness};
ghost use Rattle.cn_recover.specs.StatesApart.{AreApart, AreLeft};

use cn_choice::{Choice, RawChoice, Team};
use cn_outcomes::{Bits, left_states};
use cn_table::{Operation, State, Table};

/// The state that the process leaves if it moves in this one.
fn state_after_move(table: &Table, choice: &RawChoice, process: usize, state: State) -> State
    requires fits { IsRawChoice table.now (length choice.now.operations) choice.now }
    requires process { process < length choice.now.operations }
    requires state { state.0 < length table.now.states }
    ensures next { result.0 ≡ next_of table.now choice.now process state.0 }
    ensures known { result.0 < length table.now.states }
{
    let (_, next) = table.apply(Operation(choice.operations[process]), state);
    next
}

/// Puts the states into the set that the process leaves if it moves first, and then another one or
/// none.
fn add_short(table: &Table, choice: &RawChoice, team: Team, first: usize, set: &mut Bits)
    requires few { length choice.now.operations ≤ MOST_PROCESSES }
    requires fits { IsRawChoice table.now (length choice.now.operations) choice.now }
    requires first { first < length choice.now.operations }
    requires team { slice_get choice.now.marks first ≡ Some team }
    requires set { AreLeft table.now choice.now team set.old }
    ensures { AreLeft table.now choice.now team set.new }
{
    let _states = table.states();
    let left = state_after_move(table, choice, first, choice.state);
    set.insert(left.0);
    for second in 0..choice.operations.len() {
        if second != first {
            set.insert(state_after_move(table, choice, second, left).0);
        }
    }
}

/// The states that orders of one or two processes leave, which begin in the team.
fn short_states(table: &Table, choice: &RawChoice, team: Team) -> Bits
    requires few { length choice.now.operations ≤ MOST_PROCESSES }
    requires fits { IsRawChoice table.now (length choice.now.operations) choice.now }
    ensures { AreLeft table.now choice.now team result }
{
    let mut set = Bits::new();
    for first in 0..choice.operations.len() {
        if choice.marks[first] == team {
            add_short(table, choice, team, first, &mut set);
        }
    }
    set
}

/// Whether the sets of states tell the teams apart: no state is in both, and the start state is in
/// neither, but in that of a team whose other team is one process alone.
fn are_apart(choice: &Choice, from_a: Bits, from_b: Bits) -> bool
    ensures { IsTrue result ↔ AreApart choice.now from_a from_b }
{
    !from_a.meets(from_b)
        && !(choice.b.len() > 1 && from_a.contains(choice.state.0))
        && !(choice.a.len() > 1 && from_b.contains(choice.state.0))
}

/// Whether the choice, which has both of these forms, is a recording witness. The short orders
/// come first, since they refute most choices.
fn raw_is_recording_witness(table: &Table, choice: &Choice, raw: &RawChoice) -> bool
    requires few { length raw.now.operations ≤ MOST_PROCESSES }
    requires fits { IsRawChoice table.now (length raw.now.operations) raw.now }
    requires same { raw.now ≡ raw_choice_of choice.now }
    ensures { IsTrue result ↔ IsRecordingWitness table.now raw.now }
{
    let soon_from_a = short_states(table, raw, Team::A);
    let soon_from_b = short_states(table, raw, Team::B);
    if !are_apart(choice, soon_from_a, soon_from_b) {
        return false;
    }
    let from_a = left_states(table, raw, Team::A);
    let from_b = left_states(table, raw, Team::B);
    are_apart(choice, from_a, from_b)
}

/// Whether the choice is a recording witness: no state is left both by an order that begins in A
/// and by one that begins in B; if B has two members or more, no order that begins in A leaves the
/// start state; if A has two or more, none that begins in B does.
///
/// The choice is for the table and for 2 to [`MOST_PROCESSES`](cn_choice::MOST_PROCESSES)
/// processes.
pub fn is_recording_witness(table: &Table, choice: &Choice) -> bool
    requires { FitsTable table.now choice.now }
    // promise: recording-witness (IsRecordingWitness)
    ensures { IsTrue result ↔ IsRecordingWitness table.now (raw_choice_of choice.now) }
{
    raw_is_recording_witness(table, choice, &RawChoice::of(choice))
}
