//! The finest division of the processes that do the operations of a stock.
ghost use Rattle.std.specs.Prelude.{◌≡◌, ◌<◌, ◌≤◌, ◌↔◌, length, IfOk, IfSome, IsSome, IsTrue};
ghost use Rattle.cn_choice.specs.declared.limits.TheConstants.{MOST_PROCESSES};
ghost use Rattle.cn_divisions.specs.Divisions.{IsDivision};
ghost use Rattle.cn_divisions.specs.Found.{HasDivisionOf, HaveSizes, IsAdded};
ghost use Rattle.cn_divisions.specs.Joins.{IsSplit};
ghost use Rattle.cn_divisions.specs.Levels.{IsSetting};
ghost use Rattle.cn_divisions.specs.Looks.{IsLook};
ghost use Rattle.cn_meetings.specs.Sights.{sight_of};

use crate::levels::Setting;
use crate::looks::Look;
use crate::sizes::{Numbers, sizes};
use crate::teams::{is_parted, process_teams};
use arrayvec::ArrayVec;
use cn_table::State;
use std::alloc::AllocError;

/// A division of the processes of a meeting.
#[derive(Drop)]
pub struct Division {
    /// The state in which the object starts.
    pub start: State,
    /// The operation of each process.
    pub operations: Numbers,
    /// The team of each process.
    pub teams: Numbers,
    /// The sizes of the teams, the greatest first.
    pub sizes: Numbers,
}

/// The list of these numbers.
fn list_of(numbers: &[u8]) -> Numbers
    requires { length numbers.now ≤ MOST_PROCESSES }
    ensures { result.items ≡ numbers.now }
{
    let mut list = ArrayVec::new();
    let _fits = list.try_extend_from_slice(numbers);
    list
}

/// The finest division of the processes that do the operations of the stock, if some are in
/// different teams.
pub(crate) fn finest(setting: &Setting<'_>, look: &Look, start: u8) -> Option<Division>
    requires setting { IsSetting setting.now }
    requires look { IsLook setting.now.table.now look.now }
    requires start { start < length setting.now.table.now.states }
    requires few { length setting.now.stock.now.operations.items ≤ MOST_PROCESSES }
    requires many { 2 ≤ length setting.now.stock.now.operations.items }
    ensures is { IfSome result (IsDivision setting.now.table.now (sight_of look.now.sight)
        (length setting.now.stock.now.operations.items)) }
    ensures all { HasDivisionOf setting.now.table.now (sight_of look.now.sight) start
        setting.now.stock.now.operations.items result }
    ensures split { IsSplit setting.now.table.now (sight_of look.now.sight) start
        setting.now.stock.now.operations.items → IsSome result }
{
    let teams = process_teams(setting, look, start);
    let sizes = sizes(teams.as_slice());
    if !is_parted(teams.as_slice()) {
        return None;
    }
    Some(Division {
        start: State(start),
        operations: list_of(setting.stock.operations.as_slice()),
        teams,
        sizes,
    })
}

/// Whether one of the divisions has these sizes.
fn have_sizes(divisions: &[Division], sizes: &[u8]) -> bool
    ensures { IsTrue result ↔ HaveSizes divisions.now sizes.now }
{
    for division in divisions {
        if division.sizes.as_slice() == sizes {
            return true;
        }
    }
    false
}

/// Puts the division behind the others, if none of them has its sizes.
pub(crate) fn add(found: &mut Vec<Division>, division: Division) -> Result<(), AllocError>
    ensures added { IfOk result (λ _. IsAdded found.old.items division found.new.items) }
    ensures has { IfOk result (λ _. HaveSizes found.new.items division.sizes.items) }
{
    if have_sizes(found.as_slice(), division.sizes.as_slice()) {
        return Ok(());
    }
    found.push(division)?;
    Ok(())
}
