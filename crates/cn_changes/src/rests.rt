//! Entries on which the number of a type rests.
ghost use Rattle.std.specs.Prelude.{◌≡◌};
ghost use Rattle.cn_changes.specs.Rests.{lowers, rests_on};

use crate::less::is_less;
use crate::numbers::NextNumbers;
use cn_table::{Operation, State};
use cn_unread_number::NumberBounds;

/// Whether the number is less with this next state and some response.
fn lowers(number: NumberBounds, told: &NextNumbers) -> bool
    ensures { result ≡ lowers number told.now }
{
    told.numbers.iter().any(|r| is_less(r.number, number))
}

/// Whether the number rests on the entry of the operation in the state: with some change of it, it is
/// less.
pub fn rests_on(
    number: NumberBounds,
    nexts: &[NextNumbers],
    operation: Operation,
    state: State,
) -> bool
    // promise: numbers-of-changes (rests_on)
    ensures { result ≡ rests_on number nexts.now operation.0 state.0 }
{
    nexts.iter().any(|x| {
        x.target.operation.0 == operation.0 && x.target.state.0 == state.0 && lowers(number, x)
    })
}
