//! The greatest limit that is not refused.
ghost use Rattle.std.specs.Prelude.{length};
ghost use Rattle.cn_search.specs.GreatestLimit.{IsGreatestLimit};

use crate::limits::MOST_CHOICES;
use cn_choice::{count, laws};
use cn_finding::{GREATEST_LIMIT, LEAST_LIMIT};
use cn_table::Table;

/// The greatest limit that [`find`](crate::find) does not refuse for this table: each table has
/// one, since the choices for two processes are few.
pub fn greatest_limit(table: &Table) -> u8
    // promise: limit-by-default (IsGreatestLimit: taken, greatest)
    ensures { IsGreatestLimit (length table.now.states) (length table.now.operations) result }
{
    laws::choices_by_formula();
    let (states, operations) = (table.states(), table.operations());
    for less in 0..GREATEST_LIMIT - LEAST_LIMIT {
        let limit = GREATEST_LIMIT - less;
        if count(states, operations, limit) <= MOST_CHOICES {
            return limit;
        }
    }
    LEAST_LIMIT
}
