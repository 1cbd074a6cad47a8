//! Whether silent operations tell the teams of a choice apart.
ghost use Rattle.std.specs.Prelude.{◌<◌, ◌+◌, ◌↔◌, List, ℕ, IsTrue, length};
ghost use Rattle.cn_choice.specs.Canonical.{FitsTable, raw_choice_of};
ghost use Rattle.cn_outcomes.specs.PairSets.{Has};
ghost use Rattle.cn_unread.specs.Collects.{IsVisible, LookAlike};
ghost use Rattle.cn_views.specs.LookTables.{AreLooksOf};
ghost use Rattle.cn_views.specs.VisibleChoices.{IsAlsoIn, IsToldTo, MeetAlike, MeetAt, SomeLooksTell};

use crate::looks::Looks;
use cn_choice::laws::process_of_pair;
use cn_choice::{Choice, Team};
use cn_outcomes::{OutcomeSet, is_witness, outcomes};
use cn_table::laws::tables_are_valid;
use cn_table::{Response, State, Table};

/// Whether the set has the response with the other state, and this looks like the first one.
fn has_alike(
    table: &Table,
    looks: &Looks,
    set: &OutcomeSet,
    response: Response,
    state: State,
    other: State,
) -> bool
    requires looks { AreLooksOf table.now looks.now }
    requires state { state.0 < length table.now.states }
    requires other { other.0 < length table.now.states }
    ensures { IsTrue result ↔ (Has set.now response.0 other.0
        × LookAlike table.now looks.now.operations.items state.0 other.0) }
{
    set.has(response, other) && looks.are_alike(table, state, other)
}

/// Whether the set has the response with a state that looks like this one.
fn is_also_in(
    table: &Table,
    looks: &Looks,
    set: &OutcomeSet,
    response: Response,
    state: State,
) -> bool
    requires looks { AreLooksOf table.now looks.now }
    requires state { state.0 < length table.now.states }
    ensures { IsTrue result
        ↔ IsAlsoIn table.now looks.now.operations.items set.now response.0 state.0 }
{
    for other in 0..table.states() {
        if has_alike(table, looks, set, response, state, State(other)) {
            return true;
        }
    }
    false
}

/// Whether the first set has the response with the state, and the second one with a state that
/// looks alike.
fn meet_with(
    table: &Table,
    looks: &Looks,
    from_a: &OutcomeSet,
    from_b: &OutcomeSet,
    response: Response,
    state: State,
) -> bool
    requires looks { AreLooksOf table.now looks.now }
    requires state { state.0 < length table.now.states }
    ensures { IsTrue result ↔ (Has from_a.now response.0 state.0
        × IsAlsoIn table.now looks.now.operations.items from_b.now response.0 state.0) }
{
    from_a.has(response, state) && is_also_in(table, looks, from_b, response, state)
}

/// Whether the first set has some response with the state, and the second one has the same with a
/// state that looks alike.
fn meet_at(
    table: &Table,
    looks: &Looks,
    from_a: &OutcomeSet,
    from_b: &OutcomeSet,
    state: State,
) -> bool
    requires looks { AreLooksOf table.now looks.now }
    requires state { state.0 < length table.now.states }
    ensures { IsTrue result
        ↔ MeetAt table.now looks.now.operations.items from_a.now from_b.now state.0 }
{
    for response in 0..table.responses() {
        if meet_with(table, looks, from_a, from_b, Response(response), state) {
            return true;
        }
    }
    false
}

/// Whether the sets have pairs with one response and with states that look alike.
fn meet_alike(table: &Table, looks: &Looks, from_a: &OutcomeSet, from_b: &OutcomeSet) -> bool
    requires { AreLooksOf table.now looks.now }
    ensures { IsTrue result
        ↔ MeetAlike table.now looks.now.operations.items from_a.now from_b.now }
{
    for state in 0..table.states() {
        if meet_at(table, looks, from_a, from_b, State(state)) {
            return true;
        }
    }
    false
}

/// Whether the process sees nothing alike in orders that begin in different teams.
fn is_told(table: &Table, looks: &Looks, choice: &Choice, process: u8) -> bool
    requires looks { AreLooksOf table.now looks.now }
    requires fits { FitsTable table.now choice.now }
    requires process { process < length choice.now.a + length choice.now.b }
    ensures { IsTrue result ↔ IsToldTo table.now looks.now.operations.items
        (raw_choice_of choice.now) process }
{
    tables_are_valid(table);
    let from_a = outcomes(table, choice, Team::A, process);
    let from_b = outcomes(table, choice, Team::B, process);
    !meet_alike(table, looks, &from_a, &from_b)
}

/// Whether each process is told.
fn are_told(table: &Table, looks: &Looks, choice: &Choice) -> bool
    requires looks { AreLooksOf table.now looks.now }
    requires fits { FitsTable table.now choice.now }
    ensures { IsTrue result
        ↔ IsVisible table.now looks.now.operations.items (raw_choice_of choice.now) }
{
    // A number that is no process of the choice has no pair in an outcome set.
    process_of_pair();
    for process in 0..(choice.a.len() + choice.b.len()) as u8 {
        if !is_told(table, looks, choice, process) {
            return false;
        }
    }
    true
}

impl Looks {
    /// Whether all silent operations together tell the teams of the choice apart. These are the
    /// looks of the table.
    ///
    /// The choice is one of the table, for 2 to [`MOST_PROCESSES`](cn_choice::MOST_PROCESSES)
    /// processes. Only a witness can be visible, and most choices are none, so that test comes
    /// first. It passes over choices for 3 processes or more with an operation in both teams, too: a
    /// third process sees the same behind either of the two.
    pub fn tell(&self, table: &Table, choice: &Choice) -> bool
        requires looks { AreLooksOf table.now self.now }
        requires fits { FitsTable table.now choice.now }
        // promise: visible-choices
        ensures all { IsTrue result
            ↔ IsVisible table.now self.now.operations.items (raw_choice_of choice.now) }
        // promise: visible-choices (SomeLooksTell)
        ensures some { IsTrue result ↔ SomeLooksTell table.now (raw_choice_of choice.now) }
    {
        is_witness(table, choice) && are_told(table, self, choice)
    }
}

/// Whether some silent operations tell the teams of the choice apart: no process has the same
/// response in orders that begin in different teams, with last states in which these operations
/// give the same responses.
///
/// The choice is one of the table, for 2 to [`MOST_PROCESSES`](cn_choice::MOST_PROCESSES)
/// processes. For many choices of one table, [`Looks::tell`] is faster.
pub fn is_visible(table: &Table, choice: &Choice) -> bool
    requires { FitsTable table.now choice.now }
    // promise: visible-choices
    ensures { IsTrue result ↔ SomeLooksTell table.now (raw_choice_of choice.now) }
{
    Looks::of(table).tell(table, choice)
}
