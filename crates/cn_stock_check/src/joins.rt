//! Whether joins are those of a table.
ghost use Rattle.std.specs.Prelude.{◌<◌, ◌↔◌, ℕ, All, IfNone, IfSome, IsSomeAnd, IsTrue, slice_get};
ghost use Rattle.cn_joins.specs.Joins.{IsJoin};
ghost use Rattle.cn_stock_check.specs.Faults.{IsOtherJoin};

use crate::words::{asked, is_word, pair_of};
use cn_joins::Join;
use cn_table::Table;

/// Whether the two words are of the table, and show one operation the same pair.
fn is_join(table: &Table, join: &Join) -> bool
    ensures { IsTrue result ↔ IsJoin table.now join.now }
{
    if join.start.0 >= table.states() {
        return false;
    }
    if !is_word(table, &join.first) || !is_word(table, &join.second) {
        return false;
    }
    let (response, state) = pair_of(table, join.start, &join.first);
    let (other_response, other_state) = pair_of(table, join.start, &join.second);
    asked(&join.first) == asked(&join.second)
        && response.0 == other_response.0
        && state.0 == other_state.0
}

/// The place of the first join that is none of the table, if there is one.
pub(crate) fn first_other(table: &Table, joins: &[Join]) -> Option<usize>
    ensures none { IfNone result (All (IsJoin table.now) joins.now) }
    ensures other { IfSome result (IsOtherJoin table.now joins.now) }
    ensures first { IfSome result (λ place. (i : ℕ) → i < place
        → IsSomeAnd (slice_get joins.now i) (IsJoin table.now)) }
{
    joins.iter().position(|join| !is_join(table, join))
}
