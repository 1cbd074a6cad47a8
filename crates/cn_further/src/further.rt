//! Choices with further operations.
ghost use Rattle.std.specs.Prelude.{◌≡◌, ◌≤◌, ◌+◌, ◌++◌, ◌↔◌, All, IfOk, IfSome, IsTrue, length};
ghost use Rattle.cn_choice.specs.Canonical.{IsChoiceFor};
ghost use Rattle.cn_choice.specs.declared.limits.TheConstants.{MOST_PROCESSES};
ghost use Rattle.cn_further.specs.FurtherNodes.{AreKnown, TellsFirst};
ghost use Rattle.cn_further.specs.FurtherSights.{AreFurtherSights, IsKnownSight};

use crate::follow_up::{FollowUp, are_of};
use crate::meeting::meeting_in;
use crate::sight::FurtherSight;
use crate::sights::sights;
use crate::walk::walk;
use arrayvec::ArrayVec;
use cn_choice::laws::choice_by_teams;
use cn_choice::{Choice, MOST_PROCESSES, RawChoice};
use cn_table::Table;
use cn_unread::laws::closed_sets_are_enough;
use std::alloc::{AllocError, Global};

/// A choice, and what its processes do next.
///
/// Each process does its operation of the choice. If there is a follow-up for this operation and the
/// response to it, the process does the further operation of the first such, and has finished then;
/// else it has finished at once.
#[derive(Drop)]
pub struct Further {
    /// The start state, and the operation and the team of each process.
    pub choice: Choice,
    /// The further operations.
    pub follow_ups: Vec<FollowUp>,
}

/// The operations of all processes, those of team A first.
pub(crate) fn operations_of(choice: &Choice) -> ArrayVec<u8, MOST_PROCESSES>
    requires { length choice.now.a + length choice.now.b ≤ MOST_PROCESSES }
    ensures { result.items ≡ choice.now.a ++ choice.now.b }
{
    RawChoice::of(choice).operations
}

/// Whether these further operations tell the team that was first, if lists of scenes show it or a
/// meeting refutes it.
fn is_shown(
    alloc: Global,
    table: &Table,
    choice: &Choice,
    follow_ups: &[FollowUp],
) -> Result<Option<bool>, AllocError>
    requires choice { IsChoiceFor table.now (length choice.now.a + length choice.now.b) choice.now }
    requires known { AreKnown table.now (choice.now.a ++ choice.now.b) follow_ups.now }
    requires few { length choice.now.a + length choice.now.b ≤ MOST_PROCESSES }
    ensures { IfOk result (λ told. IfSome told (λ answer. IsTrue answer
        ↔ TellsFirst table.now (length choice.now.a + length choice.now.b) choice.now
        follow_ups.now)) }
{
    closed_sets_are_enough();
    let list = operations_of(choice);
    let (state, operations, size) = (choice.state, list.as_slice(), choice.a.len());
    let listing = walk(alloc, table, state, operations, follow_ups, size)?;
    if listing.is_sound(table, state, operations, follow_ups, size) {
        return Ok(Some(true));
    }
    let Some(meeting) = meeting_in(&listing) else {
        return Ok(None);
    };
    if meeting.is_sound(table, state, operations, follow_ups, size) {
        return Ok(Some(false));
    }
    Ok(None)
}

impl Further {
    /// Whether each of n processes then knows which team was first: this is a choice of the table
    /// for n processes, the further operations are the table's, and what a process has got when it
    /// has finished is never the same after first operations of both teams. If so, the type solves
    /// consensus for n processes without reads, by `nodes_are_enough` of `cn_unread_laws`. n is at
    /// most [`MOST_PROCESSES`](cn_choice::MOST_PROCESSES).
    ///
    /// `None` if there are more than 20,000 scenes, that is states of the object with what all
    /// processes have got.
    ///
    /// # Errors
    ///
    /// `AllocError` if memory runs out.
    pub fn tells(&self, alloc: Global, table: &Table, n: u8) -> Result<Option<bool>, AllocError>
        requires { n ≤ MOST_PROCESSES }
        // promise: further-operations-tell (TellsFirst)
        ensures { IfOk result (λ told. IfSome told (λ answer. IsTrue answer
            ↔ TellsFirst table.now n self.now.choice self.now.follow_ups.items)) }
    {
        choice_by_teams();
        let follow_ups = self.follow_ups.as_slice();
        if !self.choice.is_for(table, n) {
            return Ok(Some(false));
        }
        if !are_of(follow_ups, table) {
            return Ok(Some(false));
        }
        is_shown(alloc, table, &self.choice, follow_ups)
    }

    /// What each of n processes can have got when it has finished, by the team that was first: by
    /// the team, and then by the number of operations that are done when it comes first. Each is
    /// there once, and comes in some run.
    ///
    /// It goes through all scenes, that is states of the object with what all processes have got.
    /// Where [`Further::tells`] answers, these are at most 20,000.
    ///
    /// # Errors
    ///
    /// `AllocError` if memory runs out.
    pub fn sights(
        &self,
        alloc: Global,
        table: &Table,
        n: u8,
    ) -> Result<Vec<FurtherSight>, AllocError>
        requires few { n ≤ MOST_PROCESSES }
        requires choice { IsChoiceFor table.now n self.now.choice }
        requires known { AreKnown table.now (self.now.choice.a ++ self.now.choice.b)
            self.now.follow_ups.items }
        // promise: further-operations-sights (AreFurtherSights)
        ensures sights { IfOk result (λ list.
            AreFurtherSights table.now self.now.choice self.now.follow_ups.items list.items) }
        // promise: further-operations-sights
        ensures known { IfOk result (λ list. All (IsKnownSight table.now) list.items) }
    {
        sights(alloc, table, &self.choice, self.follow_ups.as_slice())
    }
}
