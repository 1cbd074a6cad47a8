//! The states in which the object can be once somebody has moved.
ghost use Rattle.std.specs.Prelude.{◌≡◌, ◌<◌, ◌⊎◌, ◌↔◌, ℕ, All, IsBitSet, length};
ghost use Rattle.cn_choice.specs.Renumbering.{other};
ghost use Rattle.cn_outcomes.specs.Subsets.{Below};
ghost use Rattle.cn_table.specs.TypeTable.{TypeTable};
ghost use Rattle.cn_signs.specs.SignChoices.{IsKnownChoice};
ghost use Rattle.cn_signs.specs.StateSets.{AreKnownStates, AreStatesFor, InTeam, LedFrom, StepsTo};

use crate::sign_choice::SignChoice;
use cn_choice::Team;
use cn_outcomes::{Bits, image};
use cn_table::laws::tables_are_valid;
use cn_table::{Operation, State, Table};

/// The states in which the object can be once somebody has moved, where one process does the single
/// operation of a choice and then further ones, and all others that of the many and then further
/// ones.
#[derive(Clone, Copy)]
pub struct SignStates {
    /// Where the single process was first.
    pub single_first: Bits,
    /// Where another one was first, and the single one has not moved.
    pub many_first: Bits,
    /// Where another one was first, and the single one moved later.
    pub single_later: Bits,
}

/// The other team.
pub(crate) fn other_team(team: Team) -> Team
    ensures { result ≡ other team }
{
    match team {
        Team::A => Team::B,
        Team::B => Team::A,
    }
}

/// The set of the state alone.
fn only(table: &Table, state: State) -> Bits
    requires { state.0 < length table.now.states }
    ensures same { (q : ℕ) → IsBitSet result q ↔ (q ≡ state.0) }
    ensures known { Below (length table.now.states) result }
{
    let _states = table.states();
    Bits::new().with(state.0)
}

/// The set with the states to which one operation of the many, or a further one, leads from its
/// states.
fn grown(table: &Table, many: Operation, further: &[u8], set: Bits) -> Bits
    requires many { many.0 < length table.now.operations }
    requires further { All (λ operation. operation < length table.now.operations) further.now }
    requires known { Below (length table.now.states) set }
    ensures same { (q : ℕ) → IsBitSet result q ↔ (IsBitSet set q
        ⊎ StepsTo table.now many.0 further.now (length further.now) set q) }
    ensures known { Below (length table.now.states) result }
{
    let mut grown = set.union(image(table, many, set));
    for number in further {
        grown = grown.union(image(table, Operation(*number), set));
    }
    grown
}

/// The states to which operations of the many and further ones lead from states of the set.
fn closure(table: &Table, many: Operation, further: &[u8], from: Bits) -> Bits
    requires many { many.0 < length table.now.operations }
    requires further { All (λ operation. operation < length table.now.operations) further.now }
    requires known { Below (length table.now.states) from }
    ensures same { (q : ℕ) → IsBitSet result q ↔ LedFrom table.now many.0 further.now from q }
    ensures known { Below (length table.now.states) result }
{
    tables_are_valid(table);
    let mut set = from;
    let mut next = grown(table, many, further, set);
    while next != set {
        set = next;
        next = grown(table, many, further, set);
    }
    set
}

impl SignStates {
    /// The states for the choice, whose state and operations are the table's: those that a run
    /// can reach, and no others.
    pub fn of(table: &Table, choice: &SignChoice) -> SignStates
        requires { IsKnownChoice table.now choice.now }
        // promise: states-of-a-choice (AreStatesFor)
        ensures states { AreStatesFor table.now choice.now result }
        // promise: states-of-a-choice
        ensures known { AreKnownStates table.now result }
    {
        let (single, many, further) = (choice.single, choice.many, choice.further.as_slice());
        let start = only(table, choice.state);
        let after_single = image(table, single, start);
        let after_many = image(table, many, start);
        let single_first = closure(table, many, further, after_single);
        let many_first = closure(table, many, further, after_many);
        let then_single = image(table, single, many_first);
        let single_later = closure(table, many, further, then_single);
        SignStates {
            single_first,
            many_first,
            single_later,
        }
    }

    /// The states once a process of the team was first. The single process is team A.
    pub fn of_team(&self, team: Team) -> Bits
        // promise: states-of-a-choice (InTeam)
        ensures same { (q : ℕ) → IsBitSet result q ↔ InTeam self.now team q }
        // promise: states-of-a-choice
        ensures known { (t : TypeTable) → AreKnownStates t self.now
            → Below (length t.states) result }
    {
        match team {
            Team::A => self.single_first,
            Team::B => self.many_first.union(self.single_later),
        }
    }

    /// Whether no state can be reached whichever team was first.
    pub(crate) fn are_apart(&self) -> bool {
        !self.of_team(Team::A).meets(self.of_team(Team::B))
    }
}
