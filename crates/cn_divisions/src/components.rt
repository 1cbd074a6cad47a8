//! The teams of a stock: operations that are joined, or connected by others that are.
ghost use Rattle.std.specs.Prelude.{◌≡◌, ◌≢◌, ◌<◌, ◌+◌, ℕ, length, slice_index, IsTrue};
ghost use Rattle.cn_meetings.specs.Meeting.{Sight as SightOf};
ghost use Rattle.cn_divisions.specs.Joins.{AreComponents, AreComponentsSoFar, AreJoined, IsMerged};
ghost use Rattle.cn_divisions.specs.Levels.{IsSetting};
ghost use Rattle.cn_divisions.specs.Looks.{IsLook};
ghost use Rattle.cn_meetings.specs.Sights.{sight_of};

use crate::joins::are_joined;
use crate::levels::Setting;
use crate::looks::Look;
use cn_table::MOST_OPERATIONS;

/// For each operation the number of its team.
pub(crate) type Teams = [u8; MOST_OPERATIONS];

/// The team, or the other one if it is that which changes.
fn renamed(team: u8, from: u8, to: u8) -> u8
    ensures same { team ≡ from → result ≡ to }
    ensures other { team ≢ from → result ≡ team }
{
    if team == from {
        return to;
    }
    team
}

/// The teams where those of the two operations become one.
fn merged(teams: &Teams, f: u8, g: u8) -> Teams
    requires f { f < MOST_OPERATIONS }
    requires g { g < MOST_OPERATIONS }
    ensures { IsMerged teams.now f g result }
{
    let mut merged = *teams;
    for operation in 0..MOST_OPERATIONS {
        let team = renamed(teams[operation], teams[g as usize], teams[f as usize]);
        merged[operation] = team;
    }
    merged
}

/// Whether it is to be seen if the two operations are joined: the stock has both, and they are not
/// in one team yet.
fn is_open(setting: &Setting<'_>, teams: &Teams, f: u8, g: u8) -> bool
    requires setting { IsSetting setting.now }
    requires f { f < MOST_OPERATIONS }
    requires g { g < MOST_OPERATIONS }
    ensures { (sight : SightOf) (start : ℕ) → ¬ IsTrue result → AreJoined setting.now.table.now sight
        start setting.now.stock.now.operations.items f g
        → slice_index teams.now f ≡ slice_index teams.now g }
{
    if !setting.stock.has(f) {
        return false;
    }
    if !setting.stock.has(g) {
        return false;
    }
    teams[f as usize] != teams[g as usize]
}

/// The teams where that of the operation and those of the lower operations which are joined with it
/// become one.
fn with_joined(setting: &Setting<'_>, look: &Look, start: u8, teams: &Teams, g: u8) -> Teams
    requires setting { IsSetting setting.now }
    requires look { IsLook setting.now.table.now look.now }
    requires start { start < length setting.now.table.now.states }
    requires g { g < length setting.now.table.now.operations }
    requires teams { AreComponentsSoFar setting.now.table.now (sight_of look.now.sight) start
        setting.now.stock.now.operations.items g teams.now }
    ensures { AreComponentsSoFar setting.now.table.now (sight_of look.now.sight) start
        setting.now.stock.now.operations.items (g + 1) result }
{
    let _operations = setting.table.operations();
    let mut merging = *teams;
    for f in 0..g {
        if is_open(setting, &merging, f, g) && are_joined(setting, look, start, f, g) {
            merging = merged(&merging, f, g);
        }
    }
    merging
}

/// The teams of the operations: the components of those that are joined.
pub(crate) fn components(setting: &Setting<'_>, look: &Look, start: u8) -> Teams
    requires setting { IsSetting setting.now }
    requires look { IsLook setting.now.table.now look.now }
    requires start { start < length setting.now.table.now.states }
    ensures are { AreComponents setting.now.table.now (sight_of look.now.sight) start
        setting.now.stock.now.operations.items MOST_OPERATIONS result }
    ensures small { (f : ℕ) → f < MOST_OPERATIONS → slice_index result f < MOST_OPERATIONS }
{
    let mut teams = [0, 1, 2, 3, 4, 5, 6, 7];
    for g in 0..setting.table.operations() {
        teams = with_joined(setting, look, start, &teams, g);
    }
    teams
}
