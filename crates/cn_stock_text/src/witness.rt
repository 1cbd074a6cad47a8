//! A witness in words.
ghost use Rattle.std.specs.Prelude.{◌≡◌, ◌<◌, ◌≤◌, ◌+◌, ◌++◌, All, OnOk, codes, flat_map, length, string_bytes};
ghost use Rattle.cn_table.specs.declared.limits.TheConstants.{MOST_STATES};
ghost use Rattle.cn_choice.specs.Canonical.{FitsTable};
ghost use Rattle.cn_choice.specs.declared.limits.TheConstants.{MOST_PROCESSES};
ghost use Rattle.cn_choice.specs.declared.team.Team.TheVariants.{A, B};
ghost use Rattle.cn_reasons.specs.Groups.{groups};
ghost use Rattle.cn_reasons.specs.Known.{IsKnownGroup, IsKnownSight};
ghost use Rattle.cn_stock_text.specs.Known.{IsKnownChoice};
ghost use Rattle.cn_stock_text.specs.Witness.{apart_line, does_text, groups_text, seen_text, sight_text, sights_text, start_text, teams_text, view_line, view_lines, witness_text};

use crate::names::push_operations;
use arrayvec::ArrayVec;
use cn_choice::laws::choice_by_teams;
use cn_choice::{Choice, MOST_PROCESSES, Team};
use cn_pieces::push_pieces;
use cn_reasons::{Group, Sight, choice_groups, sights};
use cn_sentences::{push_members, push_processes};
use cn_stock_cert::TeamChoice;
use cn_table::{State, Table};
use std::alloc::{AllocError, Global};

/// Appends the number of processes, and where they start.
fn push_start(text: &mut String, table: &Table, n: usize, start: State) -> Result<(), AllocError>
    requires { start.0 < length table.now.states }
    ensures { OnOk result (string_bytes text.new
        ≡ string_bytes text.old ++ start_text table.now n start.0) }
{
    let start = table.state_name(start);
    write!(text, "Why {n}: from state {start}, ")
}

/// Appends what a process sees, behind a mark.
fn push_sight(text: &mut String, table: &Table, mark: &str, sight: Sight) -> Result<(), AllocError>
    requires { IsKnownSight table.now sight }
    ensures { OnOk result (string_bytes text.new
        ≡ string_bytes text.old ++ sight_text table.now mark.now sight) }
{
    let response = table.response_name(sight.response);
    let state = table.state_name(sight.state);
    push_pieces(text, &[mark, "got ", response, ", reads ", state])
}

/// Appends what a process can see, each behind a semicolon.
fn push_other_sights(text: &mut String, table: &Table, sights: &[Sight]) -> Result<(), AllocError>
    requires { All (IsKnownSight table.now) sights.now }
    ensures { OnOk result (string_bytes text.new ≡ string_bytes text.old
        ++ flat_map (sight_text table.now (codes "; ")) sights.now) }
{
    for sight in sights {
        push_sight(text, table, "; ", *sight)?;
    }
    Ok(())
}

/// Appends what a process can see.
fn push_sights(text: &mut String, table: &Table, sights: &[Sight]) -> Result<(), AllocError>
    requires { All (IsKnownSight table.now) sights.now }
    ensures { OnOk result (string_bytes text.new
        ≡ string_bytes text.old ++ sights_text table.now sights.now) }
{
    let [first, others @ ..] = sights else {
        return Ok(());
    };
    push_sight(text, table, " ", *first)?;
    push_other_sights(text, table, others)
}

/// Appends what the processes of a group can see where the team is first.
fn push_view(
    alloc: Global,
    text: &mut String,
    table: &Table,
    choice: &Choice,
    group: Group,
    team: Team,
) -> Result<(), AllocError>
    requires fits { FitsTable table.now choice.now }
    requires process { group.first < length choice.now.a + length choice.now.b }
    requires known { IsKnownGroup table.now group }
    ensures { OnOk result (string_bytes text.new
        ≡ string_bytes text.old ++ view_line table.now choice.now group team) }
{
    let seen = sights(alloc, table, choice, team, group.first)?;
    text.push_str("  ")?;
    push_processes(text, group.first, group.count)?;
    push_pieces(text, &[", ", team.name(), " first:"])?;
    push_sights(text, table, seen.as_slice())?;
    text.push_str("\n")
}

/// Appends what the processes of groups can see, by the team that is first.
fn push_views(
    alloc: Global,
    text: &mut String,
    table: &Table,
    choice: &Choice,
    groups: &[Group],
) -> Result<(), AllocError>
    requires fits { FitsTable table.now choice.now }
    requires within { All (λ g. g.first < length choice.now.a + length choice.now.b) groups.now }
    requires known { All (IsKnownGroup table.now) groups.now }
    ensures { OnOk result (string_bytes text.new
        ≡ string_bytes text.old ++ flat_map (view_lines table.now choice.now) groups.now) }
{
    for group in groups {
        push_view(alloc, text, table, choice, *group, Team::A)?;
        push_view(alloc, text, table, choice, *group, Team::B)?;
    }
    Ok(())
}

/// That teams are told apart.
fn apart_line<'a>() -> &'a str
    ensures { result.now ≡ apart_line }
{
    "  No process sees the same where team A is first as where team B is, so each can tell which team was first.\n"
}

/// Appends the groups of each team.
fn push_groups(text: &mut String, table: &Table, a: &[Group], b: &[Group]) -> Result<(), AllocError>
    requires a { All (IsKnownGroup table.now) a.now }
    requires b { All (IsKnownGroup table.now) b.now }
    ensures { OnOk result (string_bytes text.new
        ≡ string_bytes text.old ++ groups_text table.now a.now b.now) }
{
    push_members(text, table, " (team A)", a)?;
    text.push_str(", ")?;
    push_members(text, table, " (team B)", b)?;
    text.push_str(".\n")
}

/// Appends groups of each team, and what each group can see.
fn push_seen(
    alloc: Global,
    text: &mut String,
    table: &Table,
    choice: &Choice,
    a: &[Group],
    b: &[Group],
) -> Result<(), AllocError>
    requires fits { FitsTable table.now choice.now }
    requires a_within { All (λ g. g.first < length choice.now.a + length choice.now.b) a.now }
    requires b_within { All (λ g. g.first < length choice.now.a + length choice.now.b) b.now }
    requires a_known { All (IsKnownGroup table.now) a.now }
    requires b_known { All (IsKnownGroup table.now) b.now }
    ensures { OnOk result (string_bytes text.new
        ≡ string_bytes text.old ++ seen_text table.now choice.now a.now b.now) }
{
    push_groups(text, table, a, b)?;
    push_views(alloc, text, table, choice, a)?;
    push_views(alloc, text, table, choice, b)?;
    text.push_str(apart_line())
}

/// Appends the processes of a choice by group, and what each group can see.
fn push_all_groups(
    alloc: Global,
    text: &mut String,
    table: &Table,
    choice: &Choice,
) -> Result<(), AllocError>
    requires { FitsTable table.now choice.now }
    ensures { OnOk result (string_bytes text.new ≡ string_bytes text.old
        ++ seen_text table.now choice.now (groups A 0 choice.now.a)
        (groups B (length choice.now.a) choice.now.b)) }
{
    let groups = choice_groups(table, choice);
    let (a, b) = (groups.a.as_slice(), groups.b.as_slice());
    push_seen(alloc, text, table, choice, a, b)
}

/// The operations of team A.
fn team_a(choice: &TeamChoice) -> &[u8]
    ensures { result.now ≡ choice.now.a }
{
    choice.a.as_slice()
}

/// The operations of team B.
fn team_b(choice: &TeamChoice) -> &[u8]
    ensures { result.now ≡ choice.now.b }
{
    choice.b.as_slice()
}

/// Appends the operations of each team.
fn push_teams(text: &mut String, table: &Table, choice: &TeamChoice) -> Result<(), AllocError>
    requires a { All (λ o. o < length table.now.operations) choice.now.a }
    requires b { All (λ o. o < length table.now.operations) choice.now.b }
    ensures { OnOk result (string_bytes text.new
        ≡ string_bytes text.old ++ teams_text table.now choice.now) }
{
    text.push_str("team A does")?;
    push_operations(text, table, team_a(choice))?;
    text.push_str(", team B does")?;
    push_operations(text, table, team_b(choice))?;
    text.push_str(".\n")?;
    text.push_str(apart_line())
}

/// The list of at most so many operations.
fn list_of(operations: &[u8]) -> ArrayVec<u8, MOST_PROCESSES>
    requires { length operations.now ≤ MOST_PROCESSES }
    ensures { result.items ≡ operations.now }
{
    let mut list = ArrayVec::new();
    let _fits = list.try_extend_from_slice(operations);
    list
}

/// The choice, of few processes.
fn choice_of(choice: &TeamChoice) -> Choice
    requires { length choice.now.a + length choice.now.b ≤ MOST_PROCESSES }
    ensures { result ≡ choice.now }
{
    Choice {
        state: choice.state,
        a: list_of(choice.a.as_slice()),
        b: list_of(choice.b.as_slice()),
    }
}

/// Where the processes start.
fn start_of(choice: &TeamChoice) -> State
    ensures { result.0 ≡ choice.now.state }
{
    choice.state
}

/// How many processes there are.
fn processes_of(choice: &TeamChoice) -> usize
    requires { length choice.now.a + length choice.now.b ≤ MOST_STATES }
    ensures { result ≡ length choice.now.a + length choice.now.b }
{
    team_a(choice).len() + team_b(choice).len()
}

/// Appends what the processes do: by group, or by team where they are more than have names.
fn push_does(
    alloc: Global,
    text: &mut String,
    table: &Table,
    choice: &TeamChoice,
) -> Result<(), AllocError>
    requires { IsKnownChoice table.now choice.now }
    ensures { OnOk result (string_bytes text.new
        ≡ string_bytes text.old ++ does_text table.now choice.now) }
{
    choice_by_teams();
    let n = processes_of(choice);
    if n <= MOST_PROCESSES {
        push_all_groups(alloc, text, table, &choice_of(choice))
    } else {
        push_teams(text, table, choice)
    }
}

/// Appends a witness: what its processes do, and what each of them can see. Of more than
/// [`MOST_PROCESSES`](cn_choice::MOST_PROCESSES) processes, only what they do.
pub(crate) fn push_witness(
    alloc: Global,
    text: &mut String,
    table: &Table,
    choice: &TeamChoice,
) -> Result<(), AllocError>
    requires { IsKnownChoice table.now choice.now }
    ensures { OnOk result (string_bytes text.new
        ≡ string_bytes text.old ++ witness_text table.now choice.now) }
{
    push_start(text, table, processes_of(choice), start_of(choice))?;
    push_does(alloc, text, table, choice)
}
