//! Outcome sets: the pairs of response and last state that a process can get if a team moves first.
ghost use Rattle.std.specs.Prelude.{◌≡◌, ◌≤◌, ◌<◌, ◌↔◌, ◌⊎◌, ◌+◌, ◌^◌, ℕ, length, IsBitSet, IsTrue};
ghost use Rattle.cn_table.specs.declared.limits.TheConstants.{MOST_RESPONSES, MOST_STATES};
ghost use Rattle.cn_table.specs.TypeTable.{transition};
ghost use Rattle.cn_outcomes.specs.Subsets.{Below};
ghost use Rattle.cn_choice.specs.RawChoices.{IsRawChoice};
ghost use Rattle.cn_choice.specs.Canonical.{FitsTable, raw_choice_of};
ghost use Rattle.cn_choice.specs.Discerning.{IsWitness};
ghost use Rattle.cn_outcomes.specs.PairSets.{Has, HaveCommonPair};
ghost use Rattle.cn_choice.specs.OutcomeSets.{InOutcomeSet};
ghost use Rattle.cn_outcomes.specs.RowSettings.{HasRows, IsRowSetting, subset_count};
ghost use Rattle.cn_choice.specs.declared.limits.TheConstants.{MOST_PROCESSES};

use crate::bits::Bits;
use crate::early_pairs::some_meet_soon;
use crate::limits::SUBSETS;
use crate::row_setting::RowSetting;
use crate::subset_pairs::outcomes_from;
use crate::subset_rows::rows;
use crate::twins::{first_twin, links};
use cn_choice::{Choice, RawChoice, Team};
use cn_table::{MOST_RESPONSES, MOST_STATES, Operation, Response, State, Table};
use std::marker::Model;

/// A set of pairs of a response and a state.
#[derive(Clone, Copy)]
pub struct OutcomeSet {
    /// For each state the set of the responses.
    row: [Bits; MOST_STATES],
}

impl Model for OutcomeSet {
    ghost use Rattle.cn_table.specs.declared.limits.TheConstants.{MOST_STATES};
    ghost use Rattle.std.specs.Prelude.{◌≡◌, List, ℕ, length};

    ghost Value = { List ℕ };

    ghost view = { λ s. s.row };

    ghost invariant = { λ s. length s.row ≡ MOST_STATES };

    ghost inverse = { λ row. record { row = row } };
}

impl OutcomeSet {
    /// The empty set.
    pub fn none() -> OutcomeSet
        ensures { (r q : ℕ) → ¬ Has result r q }
    {
        OutcomeSet {
            row: [Bits::new(); MOST_STATES],
        }
    }

    /// Puts the pair into the set.
    pub fn add(&mut self, response: u8, state: u8)
        requires response { response < MOST_RESPONSES }
        requires state { state < MOST_STATES }
        ensures { (r q : ℕ) → Has self.new r q
            ↔ (Has self.old r q ⊎ ((r ≡ response) × (q ≡ state))) }
    {
        let place = state as usize;
        self.row[place] = self.row[place].with(response);
    }

    /// The set of one pair.
    pub(crate) fn only(response: u8, state: u8) -> OutcomeSet
        requires response { response < MOST_RESPONSES }
        requires state { state < MOST_STATES }
        ensures { (r q : ℕ) → Has result r q ↔ ((r ≡ response) × (q ≡ state)) }
    {
        let mut set = OutcomeSet::none();
        set.add(response, state);
        set
    }

    /// The pairs of response and next state of the operation from one of these states.
    pub fn of_answers(table: &Table, operation: Operation, from: Bits) -> OutcomeSet
        requires operation { operation.0 < length table.now.operations }
        requires known { Below (length table.now.states) from }
        ensures { (r q : ℕ) → Has result r q
            ↔ ((found : ℕ) × IsBitSet from found
            × ((transition table.now operation.0 found).0 ≡ r)
            × ((transition table.now operation.0 found).1 ≡ q)) }
    {
        let (_responses, _states) = (table.responses(), table.states());
        let mut set = OutcomeSet::none();
        for state in from.iter() {
            let (response, next) = table.apply(operation, State(state));
            set.add(response.0, next.0);
        }
        set
    }

    /// Puts the pairs of each of the responses and the state into the set.
    fn add_responses(&mut self, responses: Bits, state: u8)
        requires { state < MOST_STATES }
        ensures { (r q : ℕ) → Has self.new r q
            ↔ (Has self.old r q ⊎ (IsBitSet responses r × (q ≡ state))) }
    {
        let place = state as usize;
        self.row[place] = self.row[place].union(responses);
    }

    /// The responses of the pairs with the state.
    fn responses_with(&self, state: u8) -> Bits
        requires { state < MOST_STATES }
        ensures { (r : ℕ) → IsBitSet result r ↔ Has self.now r state }
    {
        self.row[state as usize]
    }

    /// The pairs of both sets together.
    pub fn union(&self, other: &OutcomeSet) -> OutcomeSet
        ensures { (r q : ℕ) → Has result r q ↔ (Has self.now r q ⊎ Has other.now r q) }
    {
        let mut row = [Bits::new(); MOST_STATES];
        for q in 0..MOST_STATES {
            row[q] = self.row[q].union(other.row[q]);
        }
        OutcomeSet { row }
    }

    /// The pairs after the operation: each keeps its response, and its state, which is one of
    /// these, becomes the next state.
    pub fn moved(&self, table: &Table, operation: Operation, from: Bits) -> OutcomeSet
        requires operation { operation.0 < length table.now.operations }
        requires known { Below (length table.now.states) from }
        requires among { (r q : ℕ) → Has self.now r q → IsBitSet from q }
        ensures { (r q : ℕ) → Has result r q ↔ ((found : ℕ) × Has self.now r found
            × ((transition table.now operation.0 found).1 ≡ q)) }
    {
        let _states = table.states();
        let mut moved = OutcomeSet::none();
        for state in from.iter() {
            let (_, next) = table.apply(operation, State(state));
            moved.add_responses(self.responses_with(state), next.0);
        }
        moved
    }

    /// Whether the pair is in the set. No set has a response or a state that no table has.
    pub fn has(&self, response: Response, state: State) -> bool
        // promise: outcome-sets
        ensures found { IsTrue result ↔ Has self.now response.0 state.0 }
        // promise: outcome-sets
        ensures in_range { IsTrue result → (response.0 < MOST_RESPONSES) × (state.0 < MOST_STATES) }
    {
        let row = self.row;
        if state.0 as usize >= MOST_STATES {
            return false;
        }
        row[state.0 as usize].contains(response.0)
    }

    /// Whether some pair is in both sets.
    pub fn meets(&self, other: &OutcomeSet) -> bool
        // promise: outcome-sets
        ensures { IsTrue result ↔ HaveCommonPair self.now other.now }
    {
        for q in 0..MOST_STATES {
            if self.row[q].meets(other.row[q]) {
                return true;
            }
        }
        false
    }
}

/// The outcome set of the team for the process: the pairs that it gets from the orders that contain
/// it and begin in the team.
///
/// The choice is one of the table, for 2 to [`MOST_PROCESSES`](crate::MOST_PROCESSES) processes.
/// Team A has the lowest numbers.
pub fn outcomes(table: &Table, choice: &Choice, team: Team, process: u8) -> OutcomeSet
    requires fits { FitsTable table.now choice.now }
    requires process { process < length choice.now.a + length choice.now.b }
    // promise: outcome-sets
    ensures { (r q : ℕ) → Has result r q
        ↔ InOutcomeSet table.now (raw_choice_of choice.now) team process (r, q) }
{
    let raw = RawChoice::of(choice);
    let links = links(&raw);
    let setting = RowSetting {
        table,
        choice: &raw,
        team,
        links,
    };
    let rows = rows(&setting);
    let first = first_twin(links, process);
    outcomes_from(&setting, first, &rows, &mut [OutcomeSet::none(); SUBSETS])
}

/// Whether the raw choice is a witness, by the outcome sets of each process that is the first of
/// its twins.
fn is_witness_by_rows(table: &Table, choice: &RawChoice) -> bool
    requires few { length choice.now.operations ≤ MOST_PROCESSES }
    requires fits { IsRawChoice table.now (length choice.now.operations) choice.now }
    ensures { IsTrue result ↔ IsWitness table.now choice.now }
{
    let links = links(choice);
    let setting_a = RowSetting {
        table,
        choice,
        team: Team::A,
        links,
    };
    let setting_b = RowSetting {
        team: Team::B,
        ..setting_a
    };
    let rows_a = rows(&setting_a);
    let rows_b = rows(&setting_b);
    let mut pairs = [OutcomeSet::none(); SUBSETS];
    for j in 0..choice.operations.len() as u8 {
        if links.has(j) {
            continue;
        }
        let from_a = outcomes_from(&setting_a, j, &rows_a, &mut pairs);
        let from_b = outcomes_from(&setting_b, j, &rows_b, &mut pairs);
        if from_a.meets(&from_b) {
            return false;
        }
    }
    true
}

/// Whether the raw choice is a witness. The short test comes first, since the call of the other
/// test clears its arrays at entry.
fn raw_is_witness(table: &Table, choice: &RawChoice) -> bool
    requires few { length choice.now.operations ≤ MOST_PROCESSES }
    requires fits { IsRawChoice table.now (length choice.now.operations) choice.now }
    ensures { IsTrue result ↔ IsWitness table.now choice.now }
{
    !some_meet_soon(table, choice) && is_witness_by_rows(table, choice)
}

/// Whether the choice is a witness: no process has a pair in the outcome sets of both teams.
///
/// The choice is one of the table, for 2 to [`MOST_PROCESSES`](crate::MOST_PROCESSES) processes.
pub fn is_witness(table: &Table, choice: &Choice) -> bool
    requires { FitsTable table.now choice.now }
    // promise: what-a-process-sees
    ensures { IsTrue result ↔ IsWitness table.now (raw_choice_of choice.now) }
{
    raw_is_witness(table, &RawChoice::of(choice))
}
