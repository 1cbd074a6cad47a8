//! The faults of a draft, except for entries that name nothing.
ghost use Rattle.std.specs.Prelude.{◌≡◌, ◌&&◌, not, nat_le};
ghost use Rattle.std.specs.List.{list_any};
ghost use Rattle.cn_table.specs.DraftView.{draft_view, row_view};
ghost use Rattle.cn_table.specs.Faults.{has_bad_name, has_bad_count, has_repeated_name, is_misfit, has_bad_length};

use crate::draft::{Draft, DraftRow};
use crate::limits::{MOST_OPERATIONS, MOST_RESPONSES, MOST_STATES};
use crate::names::{have_names, have_repeat, is_name};

/// Whether the type, a state, a response or an operation has no name.
#[tactic(auto, using(crate::proofs::ListLemmas::map_twice))]
pub(crate) fn has_bad_name(draft: &Draft) -> bool
    ensures { result ≡ has_bad_name (draft_view draft.now) }
{
    let states = have_names(&draft.states);
    let responses = have_names(&draft.responses);
    let operations = have_names(&draft.operations);
    !(is_name(draft.name.as_str()) && states && responses && operations)
}

#[tactic(auto, using(std::proofs::lemmas::Grind::common_steps))]
fn is_miscounted(count: usize, most: usize) -> bool
    ensures { result ≡ not (nat_le 1 count && nat_le count most) }
{
    count < 1 || count > most
}

/// Whether there are too few or too many states, responses or operations.
pub(crate) fn has_bad_count(draft: &Draft) -> bool
    ensures { result ≡ has_bad_count (draft_view draft.now) }
{
    let states = is_miscounted(draft.states.len(), MOST_STATES);
    let responses = is_miscounted(draft.responses.len(), MOST_RESPONSES);
    let operations = is_miscounted(draft.operations.len(), MOST_OPERATIONS);
    states || responses || operations
}

/// Whether two states, two responses or two operations have one name.
#[tactic(auto, using(crate::proofs::ListLemmas::map_twice))]
pub(crate) fn has_repeated_name(draft: &Draft) -> bool
    ensures { result ≡ has_repeated_name (draft_view draft.now) }
{
    let states = have_repeat(&draft.states);
    let responses = have_repeat(&draft.responses);
    let operations = have_repeat(&draft.operations);
    states || responses || operations
}

fn is_misfit(row: &DraftRow, states: usize) -> bool
    ensures { result ≡ is_misfit states (row_view row.now) }
{
    row.response.len() != states || row.next.len() != states
}

fn some_row_misfits(rows: &[DraftRow], states: usize) -> bool
    ensures { result ≡ list_any (λ r. is_misfit states (row_view r)) rows.now }
{
    rows.iter().any(|row| is_misfit(row, states))
}

/// Whether the length of some row is not the number of states.
pub(crate) fn has_bad_length(draft: &Draft) -> bool
    ensures { result ≡ has_bad_length (draft_view draft.now) }
{
    let states = draft.states.as_slice();
    some_row_misfits(&draft.operations, states.len())
}
