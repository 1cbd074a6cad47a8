//! Groups of processes in words.
ghost use Rattle.std.specs.Prelude.{◌≡◌, ◌≤◌, ◌<◌, ◌+◌, ◌++◌, codes, flat_map, string_bytes, All, OnOk};
ghost use Rattle.cn_choice.specs.declared.limits.TheConstants.{MOST_PROCESSES};
ghost use Rattle.cn_reasons.specs.Known.{IsKnownGroup};
ghost use Rattle.cn_sentences.specs.Groups.{does, joint, last_name, member, members, process_name, processes};

use cn_pieces::push_pieces;
use cn_reasons::Group;
use cn_table::Table;
use std::alloc::AllocError;

/// The name of a process, as `p0`.
#[tactic(auto, using(std::proofs::lemmas::Fmt::decimal_digit))]
pub fn process_name<'a>(process: u8) -> &'a str
    requires { process < MOST_PROCESSES }
    ensures { result.now ≡ process_name process }
{
    match process {
        0 => "p0",
        1 => "p1",
        2 => "p2",
        3 => "p3",
        4 => "p4",
        5 => "p5",
        6 => "p6",
        _ => "p7",
    }
}

/// The words between the first process of a group and its last.
fn joint<'a>(count: u8) -> &'a str
    ensures { result.now ≡ joint count }
{
    match count {
        0 | 1 => "",
        2 => " and ",
        _ => " to ",
    }
}

/// The last of this number of processes, if it is not the first.
fn last_name<'a>(first: u8, count: u8) -> &'a str
    requires { first + count ≤ MOST_PROCESSES }
    ensures { result.now ≡ last_name first count }
{
    if count <= 1 {
        ""
    } else {
        process_name(first + (count - 1))
    }
}

fn does<'a>(count: u8) -> &'a str
    ensures { result.now ≡ does count }
{
    if count <= 1 { " does " } else { " do " }
}

/// Writes the names of this number of processes, from the first on: `p0`, `p0 and p1` or `p0 to p2`.
///
/// # Errors
///
/// `AllocError` if memory runs out, as of each function here that writes. The text may then have a
/// part of what was to be written.
#[tactic(auto, unfolding(crate::specs::Groups::processes))]
pub fn push_processes(text: &mut String, first: u8, count: u8) -> Result<(), AllocError>
    requires some { 1 ≤ count }
    requires few { first + count ≤ MOST_PROCESSES }
    ensures { OnOk result (string_bytes text.new
        ≡ string_bytes text.old ++ processes first count) }
{
    push_pieces(
        text,
        &[process_name(first), joint(count), last_name(first, count)],
    )
}

/// The processes of a group, words for their team, and their operation.
#[tactic(auto, unfolding(crate::specs::Groups::member))]
fn push_member<'a>(
    text: &mut String,
    table: &'a Table,
    before: &'a str,
    team: &'a str,
    group: Group,
) -> Result<(), AllocError>
    requires { IsKnownGroup table.now group }
    ensures { OnOk result (string_bytes text.new
        ≡ string_bytes text.old ++ member table.now before.now team.now group) }
{
    let (first, count) = (group.first, group.count);
    let operation = table.operation_name(group.operation);
    let (name, last) = (process_name(first), last_name(first, count));
    push_pieces(
        text,
        &[
            before,
            name,
            joint(count),
            last,
            team,
            does(count),
            operation,
        ],
    )
}

/// The groups, each behind a comma.
fn push_others(
    text: &mut String,
    table: &Table,
    team: &str,
    groups: &[Group],
) -> Result<(), AllocError>
    requires { All (IsKnownGroup table.now) groups.now }
    ensures { OnOk result (string_bytes text.new ≡ string_bytes text.old
        ++ flat_map (member table.now (codes ", ") team.now) groups.now) }
{
    for group in groups {
        push_member(text, table, ", ", team, *group)?;
    }
    Ok(())
}

/// Writes groups of processes, with a comma between two: the processes of each, these words for their
/// team, and their operation.
pub fn push_members(
    text: &mut String,
    table: &Table,
    team: &str,
    groups: &[Group],
) -> Result<(), AllocError>
    requires { All (IsKnownGroup table.now) groups.now }
    // promise: parts-of-explanations (members)
    ensures { OnOk result (string_bytes text.new
        ≡ string_bytes text.old ++ members table.now team.now groups.now) }
{
    let [first, others @ ..] = groups else {
        return Ok(());
    };
    push_member(text, table, "", team, *first)?;
    push_others(text, table, team, others)
}
