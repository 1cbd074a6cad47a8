//! The states in which the orders that begin in a team leave the object.
ghost use Rattle.std.specs.Prelude.{◌≡◌, ◌≤◌, ◌↔◌, ℕ, length, IsBitSet};
ghost use Rattle.cn_choice.specs.RawChoices.{IsRawChoice};
ghost use Rattle.cn_choice.specs.declared.limits.TheConstants.{MOST_PROCESSES};
ghost use Rattle.cn_outcomes.specs.LeftStates.{LeavesIn};
ghost use Rattle.cn_outcomes.specs.RowSettings.{HasRows, IsRowSetting, subset_count};

use crate::bits::Bits;
use crate::limits::SUBSETS;
use crate::row_setting::RowSetting;
use crate::subset_rows::rows;
use crate::twins::{is_packed, links};
use cn_choice::{RawChoice, Team};
use cn_table::Table;

/// The states of the rows.
fn states_of_rows(setting: &RowSetting<'_>, rows: &[Bits; SUBSETS]) -> Bits
    requires setting { IsRowSetting setting.now }
    requires rows { HasRows setting.now (subset_count setting.now) rows.now }
    ensures { (q : ℕ) → IsBitSet result q
        ↔ LeavesIn setting.now.table.now setting.now.choice.now setting.now.team q }
{
    let choice = setting.choice;
    let mut all = Bits::new();
    for number in 1..1u16 << choice.operations.len() {
        let subset = Bits::of_number(number);
        if !is_packed(setting.links, subset) {
            continue;
        }
        all = all.union(rows[number as usize]);
    }
    all
}

/// The states in which the orders that begin in the team leave the object.
///
/// The raw choice is one of the table, for at most [`MOST_PROCESSES`](cn_choice::MOST_PROCESSES)
/// processes.
pub fn left_states(table: &Table, choice: &RawChoice, team: Team) -> Bits
    requires few { length choice.now.operations ≤ MOST_PROCESSES }
    requires fits { IsRawChoice table.now (length choice.now.operations) choice.now }
    // promise: left-states (LeavesIn)
    ensures { (q : ℕ) → IsBitSet result q ↔ LeavesIn table.now choice.now team q }
{
    let setting = RowSetting {
        table,
        choice,
        team,
        links: links(choice),
    };
    let rows = rows(&setting);
    states_of_rows(&setting, &rows)
}
