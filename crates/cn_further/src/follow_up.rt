//! Further operations, and which operation comes next.
ghost use Rattle.std.specs.Prelude.{◌≡◌, ◌<◌, ◌↔◌, All, IsTrue, length, option_map};
ghost use Rattle.cn_further.specs.FurtherNodes.{further_of, next_by};
ghost use Rattle.cn_further.specs.SceneLists.{kept_of};

use crate::stage::Stage;
use cn_table::{Operation, Response, Table};

/// What a process does next that has got the response to the operation.
#[derive(Clone, Copy)]
pub struct FollowUp {
    /// Its operation of the choice.
    pub operation: Operation,
    /// The response that it got.
    pub response: Response,
    /// The further operation.
    pub further: Operation,
}

/// The further operation of the first follow-up for both, if there is one.
pub(crate) fn further_of(
    follow_ups: &[FollowUp],
    own: Operation,
    answer: Response,
) -> Option<Operation>
    ensures { option_map (λ o. o.0) result ≡ further_of follow_ups.now own.0 answer.0 }
{
    for follow_up in follow_ups {
        if follow_up.operation.0 == own.0 && follow_up.response.0 == answer.0 {
            return Some(follow_up.further);
        }
    }
    None
}

/// The operation that a process with this operation of the choice does next, if it has not
/// finished.
pub(crate) fn next_operation(
    follow_ups: &[FollowUp],
    own: Operation,
    stage: Stage,
) -> Option<Operation>
    ensures { option_map (λ o. o.0) result
        ≡ next_by (further_of follow_ups.now) own.0 (kept_of stage).0 (kept_of stage).1 }
{
    match stage {
        Stage::Waiting => Some(own),
        Stage::Moved(answer) => further_of(follow_ups, own, answer),
        Stage::Done(_, _) => None,
    }
}

/// Whether all further operations are the table's.
pub(crate) fn are_of(follow_ups: &[FollowUp], table: &Table) -> bool
    ensures { IsTrue result
        ↔ All (λ f. f.further.0 < length table.now.operations) follow_ups.now }
{
    follow_ups
        .iter()
        .all(|follow_up| follow_up.further.0 < table.operations())
}
