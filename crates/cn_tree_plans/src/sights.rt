//! Sights of a type.
ghost use Rattle.std.specs.Prelude.{◌≡◌, ◌↔◌, ◌<◌, ◌≤◌, length, IsTrue};
ghost use Rattle.cn_table.specs.declared.limits.TheConstants.{MOST_STATES};
ghost use Rattle.cn_meetings.specs.Meeting.{IsSightOf, sees};
ghost use Rattle.cn_meetings.specs.Sights.{sight_of};
ghost use Rattle.cn_tree_plans.specs.Sights.{seen_count};

use cn_meetings::Sight;
use cn_table::{State, Table};
use cn_views::is_silent;

/// Whether a process can look at an object of the type in this way.
pub(crate) fn is_sight_of(table: &Table, sight: Sight) -> bool
    ensures { IsTrue result ↔ IsSightOf table.now (sight_of sight) }
{
    match sight {
        Sight::State | Sight::Nothing => true,
        Sight::Response(operation) => {
            operation.0 < table.operations() && is_silent(table, operation)
        }
    }
}

/// What is seen of the state: its number, the number of a response, or 0 where nobody looks.
pub(crate) fn see(table: &Table, sight: Sight, state: State) -> u8
    requires sight { IsSightOf table.now (sight_of sight) }
    requires state { state.0 < length table.now.states }
    ensures value { result ≡ sees table.now (sight_of sight) state.0 }
    ensures range { result < seen_count table.now (sight_of sight) }
    ensures small { result < MOST_STATES }
{
    // A table has few states and responses.
    let _few = (table.states(), table.responses());
    match sight {
        Sight::State => state.0,
        Sight::Nothing => 0,
        Sight::Response(operation) => table.apply(operation, state).0.0,
    }
}

/// What is seen by the sight is below this number.
pub(crate) fn seen_count(table: &Table, sight: Sight) -> u8
    ensures number { result ≡ seen_count table.now (sight_of sight) }
    ensures range { result ≤ MOST_STATES }
{
    match sight {
        Sight::State => table.states(),
        Sight::Nothing => 1,
        Sight::Response(_) => table.responses(),
    }
}
