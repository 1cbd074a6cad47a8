//! What a process gets.
ghost use Rattle.std.specs.Prelude.{◌≡◌, ◌≢◌, ◌+◌, ◌<◌, ◌≤◌, ◌⊎◌, ◌↔◌, All, AllPairs, Contains, IfOk, IsTrue, OnOk, length, map};
ghost use Rattle.cn_table.specs.declared.limits.TheConstants.{MOST_OPERATIONS};
ghost use Rattle.cn_choice.specs.Canonical.{FitsTable};
ghost use Rattle.cn_reasons.specs.Known.{IsKnownSight};
ghost use Rattle.cn_unread_reasons.specs.Known.{IsKnownAnswer, IsKnownUnreadSight};
ghost use Rattle.cn_unread_reasons.specs.UnreadSights.{AreSightsOf, answer_in, told_sight};
ghost use Rattle.cn_unread_reasons.specs.declared.sight.UnreadSight.{UnreadSight as Told};

use arrayvec::ArrayVec;
use cn_choice::{Choice, Team};
use cn_reasons::{Sight, sights};
use cn_table::{MOST_OPERATIONS, Operation, Response, State, Table};
use std::alloc::{AllocError, Global};

/// The response to an operation.
#[derive(Clone, Copy, Debug, PartialEq, Eq)]
pub struct Answer {
    /// The operation.
    pub operation: Operation,
    /// The response.
    pub response: Response,
}

// What stands in the free places of a list of answers.
impl Default for Answer {
    fn default() -> Answer {
        Answer {
            operation: Operation(0),
            response: Response(0),
        }
    }
}

/// What a process gets: the response to its operation of the choice, and then the answers of the
/// operations that change nothing, in order, or that of its further operation, if it does one.
#[derive(Drop)]
pub struct UnreadSight {
    /// The response to its operation of the choice.
    pub response: Response,
    /// What it gets then.
    pub answers: ArrayVec<Answer, MOST_OPERATIONS>,
}

/// What the operations answer in the state, in order.
fn answers_in(table: &Table, looks: &[u8], state: State) -> ArrayVec<Answer, MOST_OPERATIONS>
    requires looks { All (λ o. o < length table.now.operations) looks.now }
    requires few { length looks.now ≤ MOST_OPERATIONS }
    requires state { state.0 < length table.now.states }
    ensures answers { result.items ≡ map (answer_in table.now state.0) looks.now }
    ensures known { All (IsKnownAnswer table.now) result.items }
{
    let mut answers = ArrayVec::new();
    for look in looks {
        let operation = Operation(*look);
        let (response, _) = table.apply(operation, state);
        answers.push(Answer {
            operation,
            response,
        });
    }
    answers
}

/// What a process gets that could see the response and the state.
fn told_sight(table: &Table, looks: &[u8], sight: Sight) -> UnreadSight
    requires looks { All (λ o. o < length table.now.operations) looks.now }
    requires few { length looks.now ≤ MOST_OPERATIONS }
    requires sight { IsKnownSight table.now sight }
    ensures told { result ≡ told_sight table.now looks.now sight }
    ensures known { IsKnownUnreadSight table.now result }
{
    UnreadSight {
        response: sight.response,
        answers: answers_in(table, looks, sight.state),
    }
}

/// Whether the two are the same.
fn is_answer(one: Answer, other: Answer) -> bool
    ensures { IsTrue result ↔ (one ≡ other) }
{
    one.operation.0 == other.operation.0 && one.response.0 == other.response.0
}

/// Whether the two lists are the same.
fn are_answers(ones: &[Answer], others: &[Answer]) -> bool
    ensures { IsTrue result ↔ (ones.now ≡ others.now) }
{
    match (ones.split_first(), others.split_first()) {
        (None, None) => true,
        (Some((one, ones)), Some((other, others))) => {
            is_answer(*one, *other) && are_answers(ones, others)
        }
        _ => false,
    }
}

/// Whether the two are the same.
fn are_same(one: &UnreadSight, other: &UnreadSight) -> bool
    ensures { IsTrue result ↔ (one.now ≡ other.now) }
{
    one.response.0 == other.response.0
        && are_answers(one.answers.as_slice(), other.answers.as_slice())
}

/// Whether the list has it.
fn has(list: &[UnreadSight], sight: &UnreadSight) -> bool
    ensures { IsTrue result ↔ Contains list.now sight.now }
{
    list.iter().any(|one| are_same(one, sight))
}

/// Appends it, unless the list has it.
pub(crate) fn push_new(list: &mut Vec<UnreadSight>, sight: UnreadSight) -> Result<(), AllocError>
    ensures same { OnOk result ((s : Told)
        → Contains list.new.items s ↔ (Contains list.old.items s ⊎ (s ≡ sight))) }
    ensures once { OnOk result (AllPairs (λ x y. x ≢ y) list.old.items
        → AllPairs (λ x y. x ≢ y) list.new.items) }
{
    if has(list.as_slice(), &sight) {
        return Ok(());
    }
    list.push(sight)?;
    Ok(())
}

/// What the process gets where the team is first, each once: by the number of the response, and then
/// by that of the first state in which it gets it.
pub(crate) fn unread_sights(
    alloc: Global,
    table: &Table,
    looks: &[u8],
    choice: &Choice,
    team: Team,
    process: u8,
) -> Result<Vec<UnreadSight>, AllocError>
    requires looks { All (λ o. o < length table.now.operations) looks.now }
    requires few { length looks.now ≤ MOST_OPERATIONS }
    requires fits { FitsTable table.now choice.now }
    requires process { process < length choice.now.a + length choice.now.b }
    ensures sights { IfOk result (λ list.
        AreSightsOf table.now looks.now choice.now team process list.items) }
    ensures known { IfOk result (λ list. All (IsKnownUnreadSight table.now) list.items) }
{
    let seen = sights(alloc, table, choice, team, process)?;
    let mut list = Vec::new(alloc);
    for sight in seen.as_slice() {
        push_new(&mut list, told_sight(table, looks, *sight))?;
    }
    Ok(list)
}
