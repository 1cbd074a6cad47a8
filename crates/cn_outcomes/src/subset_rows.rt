//! Rows for the subsets of the processes: what the orders of exactly one subset give.
ghost use Rattle.std.specs.Prelude.{◌≡◌, ◌<◌, ◌↔◌, ℕ, length, IsBitSet, slice_index, slice_get, IsTrue, Some};
ghost use Rattle.cn_table.specs.TypeTable.{transition};
ghost use Rattle.cn_outcomes.specs.RowSettings.{HasRows, HasRowsBefore, IsRowSetting, subset_count};
ghost use Rattle.cn_outcomes.specs.Subsets.{LeavesState, FindsState, Below};
ghost use Rattle.cn_outcomes.specs.declared.limits.TheConstants.{SUBSETS};

use crate::bits::Bits;
use crate::limits::SUBSETS;
use crate::row_setting::RowSetting;
use crate::twins::{is_packed, movers};
use cn_choice::{RawChoice, Team};
use cn_table::{Operation, State, Table};

/// The states to which the operation leads from one of these states.
pub fn image(table: &Table, operation: Operation, from: Bits) -> Bits
    requires operation { operation.0 < length table.now.operations }
    requires known { Below (length table.now.states) from }
    ensures same { (q : ℕ) → IsBitSet result q
        ↔ ((found : ℕ) × IsBitSet from found × ((transition table.now operation.0 found).1 ≡ q)) }
    ensures known { Below (length table.now.states) result }
{
    let _states = table.states();
    let mut set = Bits::new();
    for state in from.iter() {
        let (_, next) = table.apply(operation, State(state));
        set.insert(next.0);
    }
    set
}

pub(crate) fn is_in(choice: &RawChoice, process: u8, team: Team) -> bool
    requires { process < length choice.now.marks }
    ensures { IsTrue result ↔ (slice_get choice.now.marks process ≡ Some team) }
{
    choice.marks[process as usize] == team
}

pub(crate) fn operation_of(choice: &RawChoice, process: u8) -> Operation
    requires { process < length choice.now.operations }
    ensures { result.0 ≡ slice_index choice.now.operations process }
{
    Operation(choice.operations[process as usize])
}

/// The states in which the process may find the object after the rest have moved.
pub(crate) fn found_states(
    setting: &RowSetting<'_>,
    rows: &[Bits; SUBSETS],
    process: u8,
    rest: Bits,
) -> Bits
    requires setting { IsRowSetting setting.now }
    requires process { process < length setting.now.choice.now.operations }
    requires rest { rest < SUBSETS }
    requires row { (q : ℕ) → IsBitSet (slice_index rows.now rest) q
        ↔ LeavesState setting.now.table.now setting.now.choice.now setting.now.team rest q }
    requires known { Below (length setting.now.table.now.states) (slice_index rows.now rest) }
    ensures same { (q : ℕ) → IsBitSet result q
        ↔ FindsState setting.now.table.now setting.now.choice.now setting.now.team process rest q }
    ensures known { Below (length setting.now.table.now.states) result }
{
    let choice = setting.choice;
    let _states = setting.table.states();
    if rest.is_empty() {
        if is_in(choice, process, setting.team) {
            Bits::new().with(choice.state.0)
        } else {
            Bits::new()
        }
    } else {
        rows[rest.place()]
    }
}

/// The row of the packed subset, from the rows of smaller subsets.
fn row(setting: &RowSetting<'_>, rows: &[Bits; SUBSETS], subset: Bits) -> Bits
    requires setting { IsRowSetting setting.now }
    requires rows { HasRowsBefore setting.now subset rows.now }
    ensures same { (q : ℕ) → IsBitSet result q
        ↔ LeavesState setting.now.table.now setting.now.choice.now setting.now.team subset q }
    ensures known { Below (length setting.now.table.now.states) result }
{
    let _states = setting.table.states();
    let mut set = Bits::new();
    for process in movers(setting.links, subset).iter() {
        let rest = subset.without(process);
        let from = found_states(setting, rows, process, rest);
        let moved = image(setting.table, operation_of(setting.choice, process), from);
        set = set.union(moved);
    }
    set
}

/// A row for each packed subset: the states in which orders of that subset leave the object.
pub(crate) fn rows(setting: &RowSetting<'_>) -> [Bits; SUBSETS]
    requires { IsRowSetting setting.now }
    ensures { HasRows setting.now (subset_count setting.now) result }
{
    let choice = setting.choice;
    let mut rows = [Bits::new(); SUBSETS];
    for number in 1..1u16 << choice.operations.len() {
        let subset = Bits::of_number(number);
        if !is_packed(setting.links, subset) {
            continue;
        }
        rows[number as usize] = row(setting, &rows, subset);
    }
    rows
}
