//! The ways that do not work: the choice of each, and two runs.
ghost use Rattle.std.specs.Prelude.{◌≡◌, ◌<◌, ◌++◌, flat_map, length, string_bytes, All, OnOk};
ghost use Rattle.cn_choice.specs.declared.limits.TheConstants.{MOST_PROCESSES};
ghost use Rattle.cn_reasons.specs.Known.{IsKnownChoice, IsKnownRecoverableWay, IsKnownStep, IsKnownWay};
ghost use Rattle.cn_text.specs.Folded.{FoldsBehind};
ghost use Rattle.cn_text.specs.Ways.{both_runs, cannot_tell, choice_text, numbered, recoverable_way_text, run_name, run_text, seen_run, step_text, way_start, way_text};

use crate::folded::fold_whole;
use cn_choice::Team;
use cn_pieces::{push_number, push_pieces};
use cn_reasons::{ChoiceGroups, RecoverableWay, Step, Way};
use cn_sentences::{process_name, push_members};
use cn_table::{State, Table};
use std::alloc::{AllocError, Global};

/// A choice: its start state, and the operations of each team.
#[tactic(auto, unfolding(crate::specs::Ways::choice_text))]
fn push_choice(text: &mut String, table: &Table, choice: &ChoiceGroups) -> Result<(), AllocError>
    requires { IsKnownChoice table.now choice.now }
    // promise: parts-of-explanations (choice_text)
    ensures { OnOk result (string_bytes text.new
        ≡ string_bytes text.old ++ choice_text table.now choice.now) }
{
    push_pieces(text, &["start ", table.state_name(choice.start), "; A: "])?;
    push_members(text, table, "", choice.a.as_slice())?;
    text.push_str("; B: ")?;
    push_members(text, table, "", choice.b.as_slice())
}

#[tactic(auto, unfolding(crate::specs::Ways::way_start))]
pub(crate) fn push_way_start(
    text: &mut String,
    table: &Table,
    number: usize,
    choice: &ChoiceGroups,
) -> Result<(), AllocError>
    requires { IsKnownChoice table.now choice.now }
    // promise: parts-of-explanations (way_start)
    ensures { OnOk result (string_bytes text.new
        ≡ string_bytes text.old ++ way_start table.now number choice.now) }
{
    text.push_str("  ")?;
    push_number(text, number as u64)?;
    text.push_str(". ")?;
    push_choice(text, table, choice)
}

/// The step of a process, with the response if that is told.
#[tactic(auto, unfolding(crate::specs::Ways::step_text))]
fn push_step(text: &mut String, table: &Table, answered: bool, step: Step) -> Result<(), AllocError>
    requires { IsKnownStep table.now step }
    ensures { OnOk result (string_bytes text.new
        ≡ string_bytes text.old ++ step_text table.now answered step) }
{
    let (process, operation) = (
        process_name(step.process),
        table.operation_name(step.operation),
    );
    let (response, state) = (
        table.response_name(step.response),
        table.state_name(step.state),
    );
    if answered {
        push_pieces(
            text,
            &[" --", process, " ", operation, "/", response, "--> ", state],
        )
    } else {
        push_pieces(text, &[" --", process, " ", operation, "--> ", state])
    }
}

fn push_steps(
    text: &mut String,
    table: &Table,
    answered: bool,
    steps: &[Step],
) -> Result<(), AllocError>
    requires { All (IsKnownStep table.now) steps.now }
    ensures { OnOk result (string_bytes text.new
        ≡ string_bytes text.old ++ flat_map (step_text table.now answered) steps.now) }
{
    for step in steps {
        push_step(text, table, answered, *step)?;
    }
    Ok(())
}

/// The team that is first, if there is a step.
fn run_name<'a>(team: Team, steps: &[Step]) -> &'a str
    ensures { result.now ≡ run_name team steps.now }
{
    match (team, steps) {
        (_, []) => "no step",
        (Team::A, _) => "A first",
        (Team::B, _) => "B first",
    }
}

/// A run from the start state.
#[tactic(auto, unfolding(crate::specs::Ways::run_text))]
fn push_run(
    text: &mut String,
    table: &Table,
    answered: bool,
    start: State,
    team: Team,
    steps: &[Step],
) -> Result<(), AllocError>
    requires start { start.0 < length table.now.states }
    requires steps { All (IsKnownStep table.now) steps.now }
    ensures { OnOk result (string_bytes text.new
        ≡ string_bytes text.old ++ run_text table.now answered start team steps.now) }
{
    push_pieces(
        text,
        &[
            "       ",
            run_name(team, steps),
            ":  ",
            table.state_name(start),
        ],
    )?;
    push_steps(text, table, answered, steps)
}

/// Both runs of a choice, the one that team A begins first.
#[tactic(auto, unfolding(crate::specs::Ways::both_runs))]
pub(crate) fn push_both_runs(
    text: &mut String,
    table: &Table,
    answered: bool,
    start: State,
    a_first: &[Step],
    b_first: &[Step],
) -> Result<(), AllocError>
    requires start { start.0 < length table.now.states }
    requires a_first { All (IsKnownStep table.now) a_first.now }
    requires b_first { All (IsKnownStep table.now) b_first.now }
    // promise: parts-of-explanations (both_runs)
    ensures { OnOk result (string_bytes text.new ≡ string_bytes text.old
        ++ both_runs table.now answered start a_first.now b_first.now) }
{
    push_run(text, table, answered, start, Team::A, a_first)?;
    text.push_str("\n")?;
    push_run(text, table, answered, start, Team::B, b_first)?;
    push_pieces(text, &["\n"])
}

/// A run of a way, and what its process sees of it.
#[tactic(auto, unfolding(crate::specs::Ways::seen_run))]
fn push_seen_run(
    text: &mut String,
    table: &Table,
    way: &Way,
    team: Team,
    steps: &[Step],
) -> Result<(), AllocError>
    requires way { IsKnownWay table.now way.now }
    requires steps { All (IsKnownStep table.now) steps.now }
    ensures { OnOk result (string_bytes text.new
        ≡ string_bytes text.old ++ seen_run table.now way.now team steps.now) }
{
    let process = process_name(way.process);
    let response = table.response_name(way.sight.response);
    let state = table.state_name(way.sight.state);
    push_run(text, table, true, way.choice.start, team, steps)?;
    push_pieces(
        text,
        &["     ", process, " got ", response, ", reads ", state, "\n"],
    )
}

#[tactic(auto, unfolding(crate::specs::Ways::cannot_tell))]
fn push_cannot_tell(text: &mut String, process: u8) -> Result<(), AllocError>
    requires { process < MOST_PROCESSES }
    ensures { OnOk result (string_bytes text.new ≡ string_bytes text.old ++ cannot_tell process) }
{
    push_pieces(
        text,
        &["        ", process_name(process), " cannot tell:\n"],
    )
}

/// A numbered way, with the two runs by which its process cannot tell.
#[tactic(auto, unfolding(crate::specs::Ways::way_text))]
fn push_way(text: &mut String, table: &Table, number: usize, way: &Way) -> Result<(), AllocError>
    requires { IsKnownWay table.now way.now }
    ensures { OnOk result (string_bytes text.new
        ≡ string_bytes text.old ++ way_text table.now number way.now) }
{
    push_way_start(text, table, number, &way.choice)?;
    push_cannot_tell(text, way.process)?;
    push_seen_run(text, table, way, Team::A, way.runs.a_first.as_slice())?;
    push_seen_run(text, table, way, Team::B, way.runs.b_first.as_slice())
}

/// The ways, numbered from 1, behind lines that are not folded yet. Each is folded as it is told.
pub(crate) fn push_ways(
    alloc: Global,
    text: &mut String,
    lines: &mut String,
    table: &Table,
    ways: &[Way],
) -> Result<(), AllocError>
    requires { All (IsKnownWay table.now) ways.now }
    ensures { OnOk result (FoldsBehind (string_bytes text.old) (string_bytes lines.old)
        (numbered (way_text table.now) 0 ways.now) (string_bytes text.new) (string_bytes lines.new)) }
{
    for (place, way) in ways.iter().enumerate() {
        push_way(lines, table, place + 1, way)?;
        fold_whole(alloc, text, lines)?;
    }
    Ok(())
}

/// A numbered way, with two runs that leave one state.
#[tactic(auto, unfolding(crate::specs::Ways::recoverable_way_text))]
fn push_recoverable_way(
    text: &mut String,
    table: &Table,
    number: usize,
    way: &RecoverableWay,
) -> Result<(), AllocError>
    requires { IsKnownRecoverableWay table.now way.now }
    ensures { OnOk result (string_bytes text.new
        ≡ string_bytes text.old ++ recoverable_way_text table.now number way.now) }
{
    let start = way.choice.start;
    push_way_start(text, table, number, &way.choice)?;
    push_pieces(
        text,
        &["        both leave ", table.state_name(way.state), ":\n"],
    )?;
    let (a_first, b_first) = (way.runs.a_first.as_slice(), way.runs.b_first.as_slice());
    push_both_runs(text, table, false, start, a_first, b_first)
}

/// The ways, numbered from 1.
pub(crate) fn push_recoverable_ways(
    text: &mut String,
    table: &Table,
    ways: &[RecoverableWay],
) -> Result<(), AllocError>
    requires { All (IsKnownRecoverableWay table.now) ways.now }
    ensures { OnOk result (string_bytes text.new
        ≡ string_bytes text.old ++ numbered (recoverable_way_text table.now) 0 ways.now) }
{
    for (place, way) in ways.iter().enumerate() {
        push_recoverable_way(text, table, place + 1, way)?;
    }
    Ok(())
}
