//! The witness of a number in Markdown.
ghost use Rattle.std.specs.Prelude.{◌≡◌, ◌++◌, All, IfSome, OnOk, flat_map, string_bytes};
ghost use Rattle.cn_reasons.specs.Known.{IsKnownGroup, IsKnownSight, IsKnownView, IsKnownWitness};
ghost use Rattle.cn_markdown.specs.Witness.{group_cells, sights, view_row, witness_markdown, witness_start, witness_table};

use crate::rows::push_name_rule;
use cn_pieces::push_pieces;
use cn_reasons::{Group, Sight, View, Witness};
use cn_sentences::alone_line;
use cn_table::Table;
use std::alloc::AllocError;

/// What a process can see, each as it stands in a cell.
fn push_sights(text: &mut String, table: &Table, seen: &[Sight]) -> Result<(), AllocError>
    requires { All (IsKnownSight table.now) seen.now }
    ensures { OnOk result (string_bytes text.new
        ≡ string_bytes text.old ++ sights table.now seen.now) }
{
    for sight in seen {
        let response = table.response_name(sight.response);
        push_pieces(text, &[" ", response, "/", table.state_name(sight.state)])?;
    }
    Ok(())
}

/// How many processes a group has, its team, and its operation.
#[tactic(auto, unfolding(crate::specs::Witness::group_cells))]
pub(crate) fn push_group_cells(
    text: &mut String,
    table: &Table,
    group: Group,
) -> Result<(), AllocError>
    requires { IsKnownGroup table.now group }
    ensures { OnOk result (string_bytes text.new
        ≡ string_bytes text.old ++ group_cells table.now group) }
{
    let (count, team) = (group.count, group.team.name());
    let operation = table.operation_name(group.operation);
    write!(text, "| {count} | {team} | {operation} |")
}

/// The row of a group, with what its processes can see where each team is first.
#[tactic(auto, unfolding(crate::specs::Witness::view_row))]
fn push_view(text: &mut String, table: &Table, view: &View) -> Result<(), AllocError>
    requires { IsKnownView table.now view.now }
    ensures { OnOk result (string_bytes text.new
        ≡ string_bytes text.old ++ view_row table.now view.now) }
{
    push_group_cells(text, table, view.group)?;
    push_sights(text, table, view.a_first.as_slice())?;
    text.push_str(" |")?;
    push_sights(text, table, view.b_first.as_slice())?;
    text.push_str(" |\n")
}

fn push_views(text: &mut String, table: &Table, views: &[View]) -> Result<(), AllocError>
    requires { All (IsKnownView table.now) views.now }
    ensures { OnOk result (string_bytes text.new
        ≡ string_bytes text.old ++ flat_map (view_row table.now) views.now) }
{
    for view in views {
        push_view(text, table, view)?;
    }
    Ok(())
}

/// For how many processes the witness is, its start state, and the head of its table.
#[tactic(auto, unfolding(crate::specs::Witness::witness_start))]
fn push_witness_start(text: &mut String, table: &Table, witness: &Witness) -> Result<(), AllocError>
    requires { IsKnownWitness table.now witness.now }
    ensures { OnOk result (string_bytes text.new
        ≡ string_bytes text.old ++ witness_start table.now witness.now) }
{
    let (processes, start) = (witness.processes, table.state_name(witness.choice.start));
    write!(text, "{processes} processes: from state ")?;
    push_pieces(
        text,
        &[
            start,
            ", each can tell which team was first, by its response and the state that it reads.\n\n",
            "| Processes | Team | Operation | Team A first: response/state | Team B first: response/state |\n",
        ],
    )
}

#[tactic(auto, unfolding(crate::specs::Witness::witness_table))]
fn push_witness_table(text: &mut String, table: &Table, witness: &Witness) -> Result<(), AllocError>
    requires { IsKnownWitness table.now witness.now }
    ensures { OnOk result (string_bytes text.new
        ≡ string_bytes text.old ++ witness_table table.now witness.now) }
{
    push_witness_start(text, table, witness)?;
    push_name_rule(text, 5)?;
    push_views(text, table, witness.views.as_slice())
}

/// Why the number is no less: the witness, if there is one.
pub(crate) fn push_witness(
    text: &mut String,
    table: &Table,
    witness: &Option<Witness>,
) -> Result<(), AllocError>
    requires { IfSome witness.now (IsKnownWitness table.now) }
    ensures { OnOk result (string_bytes text.new
        ≡ string_bytes text.old ++ witness_markdown table.now witness.now) }
{
    match witness {
        Some(witness) => push_witness_table(text, table, witness),
        None => text.push_str(alone_line()),
    }
}
