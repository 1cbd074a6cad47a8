//! Examples of the sizes of teams.
ghost use Rattle.std.specs.Prelude.{◌≡◌, ◌≢◌, ◌<◌, ◌≤◌, ℕ, List, IfSome, length, None, slice_index};
ghost use Rattle.cn_choice.specs.declared.limits.TheConstants.{MOST_PROCESSES};
ghost use Rattle.cn_divisions.specs.Divisions.{IsDivision};
ghost use Rattle.cn_meetings.specs.Meeting.{Sight};
ghost use Rattle.cn_table.specs.TypeTable.{TypeTable};
ghost use Rattle.cn_tree_costs.specs.Sizes.{team_size as size_in};
ghost use Rattle.cn_shortest.specs.Examples.{IsExample, IsFirstAlike, moved as moved_teams};
ghost use Rattle.cn_shortest.specs.Sizes.{AreCounts, AreMerged, HasBoth};

use cn_choice::MOST_PROCESSES;
use cn_divisions::Division;
use cn_table::State;

/// A meeting, and a team for each of its processes.
#[derive(Clone, Copy, Drop)]
pub(crate) struct Example {
    /// The state in which the object starts.
    pub start: State,
    /// The operation of each process.
    pub operations: [u8; MOST_PROCESSES],
    /// The team of each process.
    pub teams: [u8; MOST_PROCESSES],
}

/// How many of the first n processes are in the team.
pub(crate) fn team_size(teams: &[u8; MOST_PROCESSES], n: u8, team: u8) -> u8
    requires { n ≤ MOST_PROCESSES }
    ensures { result ≡ size_in (λ p. slice_index teams.now p) n team }
{
    let mut size = 0;
    for process in 0..n {
        if teams[process as usize] == team {
            size += 1;
        }
    }
    size
}

/// The first team of this size but one.
fn team_of_size(teams: &[u8; MOST_PROCESSES], n: u8, size: u8, but: u8) -> Option<u8>
    requires { n ≤ MOST_PROCESSES }
    ensures some { IfSome result (λ g. (g < MOST_PROCESSES) × (g ≢ but)
        × (size_in (λ p. slice_index teams.now p) n g ≡ size)) }
    ensures none { result ≡ None → (g : ℕ) → g < MOST_PROCESSES → g ≢ but
        → size_in (λ p. slice_index teams.now p) n g ≢ size }
{
    for team in 0..MOST_PROCESSES as u8 {
        if team != but && team_size(teams, n, team) == size {
            return Some(team);
        }
    }
    None
}

/// The teams where those of one team have moved to another one.
fn moved(teams: &[u8; MOST_PROCESSES], from: u8, to: u8) -> [u8; MOST_PROCESSES]
    ensures { (p : ℕ) → p < MOST_PROCESSES → slice_index result p
        ≡ moved_teams (λ q. slice_index teams.now q) from to p }
{
    let mut new = *teams;
    for process in 0..MOST_PROCESSES {
        if teams[process] == from {
            new[process] = to;
        }
    }
    new
}

/// The example where a team of the one size and another one of the other size have become one team.
pub(crate) fn merged(example: &Example, n: u8, a: u8, b: u8) -> Example
    requires n { n ≤ MOST_PROCESSES }
    requires a { (1 ≤ a) × (a ≤ MOST_PROCESSES) }
    requires b { (1 ≤ b) × (b ≤ MOST_PROCESSES) }
    ensures { (t : TypeTable) (sight : Sight) (counts new : List ℕ)
        → IsExample t sight n counts example.now → HasBoth counts a b → AreMerged counts a b new
        → IsExample t sight n new result }
{
    let Some(first) = team_of_size(&example.teams, n, a, MOST_PROCESSES as u8) else {
        return *example;
    };
    let Some(second) = team_of_size(&example.teams, n, b, first) else {
        return *example;
    };
    Example {
        start: example.start,
        operations: example.operations,
        teams: moved(&example.teams, first, second),
    }
}

/// The first process that is in the team of this one.
fn first_alike(teams: &[u8], process: usize) -> u8
    requires process { process < length teams.now }
    requires few { length teams.now ≤ MOST_PROCESSES }
    ensures { IsFirstAlike teams.now process result }
{
    for first in 0..process {
        if teams[first] == teams[process] {
            return first as u8;
        }
    }
    process as u8
}

/// The example of a division. Each team has the number of its first process.
pub(crate) fn example_of(division: &Division, n: u8) -> Example
    requires n { n ≤ MOST_PROCESSES }
    requires operations { length division.now.operations.items ≡ n }
    requires teams { length division.now.teams.items ≡ n }
    ensures { (t : TypeTable) (sight : Sight) (counts : List ℕ)
        → IsDivision t sight n division.now → AreCounts division.now.sizes.items counts
        → IsExample t sight n counts result }
{
    let mut operations = [0; MOST_PROCESSES];
    let mut teams = [0; MOST_PROCESSES];
    for process in 0..n as usize {
        operations[process] = division.operations[process];
        teams[process] = first_alike(division.teams.as_slice(), process);
    }
    Example {
        start: division.start,
        operations,
        teams,
    }
}
