//! What processes have got when they have finished.
ghost use Rattle.std.specs.Prelude.{◌≡◌, ◌≢◌, ◌⊎◌, ◌↔◌, AllPairs, Contains, IfSome, IsTrue, MatchOption, None, OnOk};
ghost use Rattle.cn_further.specs.FurtherNodes.{further_of, next_by};
ghost use Rattle.cn_further.specs.FurtherSights.{Fits, IsEndOf, IsFurtherFor};
ghost use Rattle.cn_further.specs.SceneLists.{kept_of};
ghost use Rattle.cn_further.specs.declared.sight.FurtherSight.{FurtherSight as Told};

use crate::follow_up::{FollowUp, further_of};
use crate::stage::Stage;
use cn_choice::Team;
use cn_table::{Operation, Response};
use std::alloc::AllocError;

/// A further operation, and the response to it.
#[derive(Clone, Copy, Debug, PartialEq, Eq)]
pub struct FurtherAnswer {
    /// The further operation.
    pub operation: Operation,
    /// The response.
    pub response: Response,
}

/// What a process can have got when it has finished, and the team that was first then.
#[derive(Clone, Copy, Debug, PartialEq, Eq)]
pub struct FurtherSight {
    /// The process. Those of team A come first.
    pub process: u8,
    /// The team that was first.
    pub first: Team,
    /// The response to its operation of the choice.
    pub response: Response,
    /// The answer of its further operation, if it does one.
    pub further: Option<FurtherAnswer>,
}

/// Whether the two are the same.
fn are_same_answers(one: Option<FurtherAnswer>, other: Option<FurtherAnswer>) -> bool
    ensures { IsTrue result ↔ (one ≡ other) }
{
    match (one, other) {
        (None, None) => true,
        (Some(one), Some(other)) => {
            one.operation.0 == other.operation.0 && one.response.0 == other.response.0
        }
        _ => false,
    }
}

/// Whether the two are the same.
fn are_same(one: FurtherSight, other: FurtherSight) -> bool
    ensures { IsTrue result ↔ (one ≡ other) }
{
    one.process == other.process
        && one.first == other.first
        && one.response.0 == other.response.0
        && are_same_answers(one.further, other.further)
}

/// Whether the list has it.
fn has(list: &[FurtherSight], sight: FurtherSight) -> bool
    ensures { IsTrue result ↔ Contains list.now sight }
{
    list.iter().any(|one| are_same(*one, sight))
}

/// Appends it, unless the list has it.
pub(crate) fn push_new(list: &mut Vec<FurtherSight>, sight: FurtherSight) -> Result<(), AllocError>
    ensures same { OnOk result ((s : Told)
        → Contains list.new.items s ↔ (Contains list.old.items s ⊎ (s ≡ sight))) }
    ensures once { OnOk result (AllPairs (λ x y. x ≢ y) list.old.items
        → AllPairs (λ x y. x ≢ y) list.new.items) }
{
    if has(list.as_slice(), sight) {
        return Ok(());
    }
    list.push(sight)?;
    Ok(())
}

/// What a process with this operation of the choice has got at the stage, if it has finished.
pub(crate) fn sight_of(
    follow_ups: &[FollowUp],
    own: Operation,
    first: Team,
    process: u8,
    stage: Stage,
) -> Option<FurtherSight>
    requires { Fits (further_of follow_ups.now) own.0 (kept_of stage) }
    ensures told { MatchOption result
        (next_by (further_of follow_ups.now) own.0 (kept_of stage).0 (kept_of stage).1 ≢ None)
        (IsEndOf first process (kept_of stage)) }
    ensures answer { IfSome result (IsFurtherFor (further_of follow_ups.now) own.0) }
{
    let (response, further) = match stage {
        Stage::Waiting => return None,
        Stage::Moved(response) => match further_of(follow_ups, own, response) {
            Some(_) => return None,
            None => (response, None),
        },
        Stage::Done(response, answer) => match further_of(follow_ups, own, response) {
            Some(operation) => {
                let further = FurtherAnswer {
                    operation,
                    response: answer,
                };
                (response, Some(further))
            }
            None => return None,
        },
    };
    Some(FurtherSight {
        process,
        first,
        response,
        further,
    })
}
