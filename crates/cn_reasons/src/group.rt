//! The processes of a choice, in groups: neighbours of one team with the same operation.
ghost use Rattle.std.specs.Prelude.{◌≡◌, ◌+◌, ◌≤◌, ◌<◌, length};
ghost use Rattle.cn_choice.specs.Canonical.{FitsTable};
ghost use Rattle.cn_choice.specs.declared.limits.TheConstants.{MOST_PROCESSES};
ghost use Rattle.cn_reasons.specs.Groups.{alike, begins_group, choice_groups, group_at, groups, AreWithin};
ghost use Rattle.cn_reasons.specs.Known.{IsKnownChoice};

use arrayvec::ArrayVec;
use cn_choice::{Choice, MOST_PROCESSES, Team};
use cn_table::{Operation, State, Table};

/// Neighbours of one team with the same operation.
#[derive(Clone, Copy, Debug, PartialEq, Eq)]
pub struct Group {
    /// Their team.
    pub team: Team,
    /// The first of them.
    pub first: u8,
    /// How many they are.
    pub count: u8,
    /// The operation of each.
    pub operation: Operation,
}

// What stands in the free places of a list of groups.
impl Default for Group {
    fn default() -> Group {
        Group {
            team: Team::A,
            first: 0,
            count: 0,
            operation: Operation(0),
        }
    }
}

/// A choice, with its processes in groups.
#[derive(Drop)]
pub struct ChoiceGroups {
    /// The start state.
    pub start: State,
    /// The groups of team A, in order.
    pub a: ArrayVec<Group, MOST_PROCESSES>,
    /// The groups of team B, in order.
    pub b: ArrayVec<Group, MOST_PROCESSES>,
}

/// The number of operations, from the first on, that are this one.
fn alike(operations: &[u8], own: u8) -> usize
    ensures count { result ≡ alike operations.now own }
    ensures range { result ≤ length operations.now }
{
    operations.iter().take_while(|other| **other == own).count()
}

/// Whether the process at this place of a team has another operation than the one before it.
fn begins_group(operations: &[u8], place: usize) -> bool
    requires { place < length operations.now }
    ensures { result ≡ begins_group operations.now place }
{
    place == 0 || operations[place - 1] != operations[place]
}

/// The group that begins at this place of a team, whose first process has this number.
fn group_at(team: Team, first: u8, operations: &[u8], place: usize) -> Group
    requires place { place < length operations.now }
    requires few { first + length operations.now ≤ MOST_PROCESSES }
    ensures { result ≡ group_at team first operations.now place }
{
    let own = operations[place];
    Group {
        team,
        first: first + place as u8,
        count: alike(&operations[place..], own) as u8,
        operation: Operation(own),
    }
}

/// The groups of a team with these operations, whose first process has this number.
fn groups(team: Team, first: u8, operations: &[u8]) -> ArrayVec<Group, MOST_PROCESSES>
    requires { first + length operations.now ≤ MOST_PROCESSES }
    ensures { result.items ≡ groups team first operations.now }
{
    let mut groups = ArrayVec::new();
    for place in 0..operations.len() {
        if begins_group(operations, place) {
            groups.push(group_at(team, first, operations, place));
        }
    }
    groups
}

/// The choice with its processes in groups.
fn groups_of(choice: &Choice) -> ChoiceGroups
    requires { length choice.now.a + length choice.now.b ≤ MOST_PROCESSES }
    ensures { result ≡ choice_groups choice.now }
{
    let members = choice.a.len() as u8;
    ChoiceGroups {
        start: choice.state,
        a: groups(Team::A, 0, choice.a.as_slice()),
        b: groups(Team::B, members, choice.b.as_slice()),
    }
}

/// A choice of the table, with its processes in groups.
pub fn choice_groups(table: &Table, choice: &Choice) -> ChoiceGroups
    requires { FitsTable table.now choice.now }
    ensures groups { result ≡ choice_groups choice.now }
    ensures known { IsKnownChoice table.now result }
    ensures within { AreWithin (length choice.now.a + length choice.now.b) result }
{
    let _table = table;
    groups_of(choice)
}

/// The number of processes of a choice.
pub(crate) fn processes_of(choice: &Choice) -> u8
    requires { length choice.now.a + length choice.now.b ≤ MOST_PROCESSES }
    ensures { result ≡ length choice.now.a + length choice.now.b }
{
    (choice.a.len() + choice.b.len()) as u8
}
