//! Operations with which processes look for signs.
ghost use Rattle.std.specs.Prelude.{◌<◌, ◌↔◌, All, IsTrue};
ghost use Rattle.cn_signs.specs.SignChoices.{HasSigns, IsKnownChoice};

use crate::check::shows_signs;
use crate::states::SignStates;
use arrayvec::ArrayVec;
use cn_choice::Team;
use cn_table::{MOST_OPERATIONS, Operation, State, Table};

/// A start state, and the operations with which processes look for signs.
///
/// A single process, which is team A, does the one operation first, and each other process, in team
/// B, the other one. Then each goes over the list of further operations, again and again, until an
/// answer is a sign of the team `side`. Who sees none decides the other team in the end.
#[derive(Drop)]
pub struct SignChoice {
    /// The start state.
    pub state: State,
    /// The operation of the single process.
    pub single: Operation,
    /// The operation of each other process.
    pub many: Operation,
    /// The operations of which all then go over the list.
    pub further: ArrayVec<u8, MOST_OPERATIONS>,
    /// The team whose signs they look for.
    pub side: Team,
}

/// Whether each of the numbers is below the limit.
fn are_below(numbers: &[u8], limit: u8) -> bool
    ensures { IsTrue result ↔ All (λ x. x < limit) numbers.now }
{
    numbers.iter().all(|number| *number < limit)
}

impl SignChoice {
    /// Whether the state and the operations are the table's.
    pub(crate) fn is_of(&self, table: &Table) -> bool
        ensures { IsTrue result ↔ IsKnownChoice table.now self.now }
    {
        let operations = table.operations();
        self.state.0 < table.states()
            && self.single.0 < operations
            && self.many.0 < operations
            && are_below(self.further.as_slice(), operations)
    }

    /// Whether these operations have signs. Then the type solves consensus for each number of
    /// processes, without reads.
    ///
    /// A response to an operation is a sign where it comes in states of the side and in none of the
    /// other team. No cycle of changes may be without one, and in each state of the side some
    /// further operation has to give a sign or to change the state.
    pub fn has_signs(&self, table: &Table) -> bool
        // promise: signs-of-a-choice (HasSigns)
        ensures { IsTrue result ↔ HasSigns table.now self.now }
    {
        self.is_of(table) && shows_signs(table, self, &SignStates::of(table, self))
    }
}
