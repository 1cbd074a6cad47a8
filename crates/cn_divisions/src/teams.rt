//! The teams of the processes that do the operations of a stock, one each.
ghost use Rattle.std.specs.Prelude.{◌≡◌, ◌≢◌, ◌<◌, ◌≤◌, ◌↔◌, ◌⊎◌, ℕ, length, slice_index, IsTrue};
ghost use Rattle.cn_choice.specs.declared.limits.TheConstants.{MOST_PROCESSES};
ghost use Rattle.cn_table.specs.TypeTable.{transition};
ghost use Rattle.cn_divisions.specs.Counts.{AreTeams};
ghost use Rattle.cn_divisions.specs.Divisions.{AreParted, IsFinestOf, meeting_of};
ghost use Rattle.cn_divisions.specs.Levels.{IsSetting};
ghost use Rattle.cn_divisions.specs.Looks.{IsLook};
ghost use Rattle.cn_meetings.specs.Sights.{sight_of};

use crate::components::components;
use crate::levels::Setting;
use crate::looks::Look;
use crate::sizes::Numbers;
use arrayvec::ArrayVec;
use cn_table::{Operation, State, Table};

/// Whether the second of two processes that do the operation gets another response than the first.
fn tells_twins(table: &Table, start: u8, operation: u8) -> bool
    requires start { start < length table.now.states }
    requires operation { operation < length table.now.operations }
    ensures { IsTrue result ↔ ((transition table.now operation start).0
        ≢ (transition table.now operation (transition table.now operation start).1).0) }
{
    let (first, next) = table.apply(Operation(operation), State(start));
    let (second, _) = table.apply(Operation(operation), next);
    first.0 != second.0
}

/// The teams of two processes that do the operation.
fn twin_teams(table: &Table, start: u8, operation: u8) -> Numbers
    requires start { start < length table.now.states }
    requires operation { operation < length table.now.operations }
    ensures long { length result.items ≡ 2 }
    ensures teams { AreTeams result.items }
    ensures same { (slice_index result.items 0 ≡ slice_index result.items 1)
        ↔ ((transition table.now operation start).0
        ≡ (transition table.now operation (transition table.now operation start).1).0) }
{
    let second = tells_twins(table, start, operation) as u8;
    let mut teams = ArrayVec::new();
    teams.push(0);
    teams.push(second);
    teams
}

/// The teams of the processes by those of their operations.
fn teams_by_operation(setting: &Setting<'_>, look: &Look, start: u8) -> Numbers
    requires setting { IsSetting setting.now }
    requires look { IsLook setting.now.table.now look.now }
    requires start { start < length setting.now.table.now.states }
    requires few { length setting.now.stock.now.operations.items ≤ MOST_PROCESSES }
    requires many { (3 ≤ length setting.now.stock.now.operations.items)
        ⊎ ((length setting.now.stock.now.operations.items ≡ 2)
        × (slice_index setting.now.stock.now.operations.items 0
        ≢ slice_index setting.now.stock.now.operations.items 1)) }
    ensures long { length result.items ≡ length setting.now.stock.now.operations.items }
    ensures teams { AreTeams result.items }
    ensures finest { IsFinestOf setting.now.table.now
        (meeting_of start setting.now.stock.now.operations.items (sight_of look.now.sight))
        (length setting.now.stock.now.operations.items) (λ p. slice_index result.items p) }
{
    let _operations = setting.table.operations();
    let of_operations = components(setting, look, start);
    let operations = setting.stock.operations.as_slice();
    let mut teams = ArrayVec::new();
    for process in 0..operations.len() {
        teams.push(of_operations[operations[process] as usize]);
    }
    teams
}

/// The teams of the processes: their finest division.
pub(crate) fn process_teams(setting: &Setting<'_>, look: &Look, start: u8) -> Numbers
    requires setting { IsSetting setting.now }
    requires look { IsLook setting.now.table.now look.now }
    requires start { start < length setting.now.table.now.states }
    requires few { length setting.now.stock.now.operations.items ≤ MOST_PROCESSES }
    requires many { 2 ≤ length setting.now.stock.now.operations.items }
    ensures long { length result.items ≡ length setting.now.stock.now.operations.items }
    ensures teams { AreTeams result.items }
    ensures finest { IsFinestOf setting.now.table.now
        (meeting_of start setting.now.stock.now.operations.items (sight_of look.now.sight))
        (length setting.now.stock.now.operations.items) (λ p. slice_index result.items p) }
{
    let operations = setting.stock.operations.as_slice();
    if operations.len() == 2 && operations[0] == operations[1] {
        return twin_teams(setting.table, start, operations[0]);
    }
    teams_by_operation(setting, look, start)
}

/// Whether some processes are in different teams.
pub(crate) fn is_parted(teams: &[u8]) -> bool
    requires { 1 ≤ length teams.now }
    ensures { IsTrue result ↔ AreParted (length teams.now) (λ p. slice_index teams.now p) }
{
    for team in teams {
        if *team != teams[0] {
            return true;
        }
    }
    false
}
