//! What the processes of a witness can see, a group at a time.
//!
//! Neighbours of one team with the same operation can see the same
//! ([`laws::like_processes`](cn_reasons::laws::like_processes)), so this stands in the text once.
ghost use Rattle.std.specs.Prelude.{◌≡◌, ◌≤◌, ◌++◌, flat_map, map, string_bytes, All, IfOk, OnOk};
ghost use Rattle.cn_reasons.specs.Known.{IsKnownSight, IsKnownView};
ghost use Rattle.cn_table.specs.DraftView.{texts_view};
ghost use Rattle.cn_text.specs.Views.{sight_text, sight_width, view_rows, views_text};

use crate::columns::{Named, widest_name};
use crate::sides::{SideWidths, push_sides, widths_for};
use cn_pieces::push_pieces;
use cn_reasons::{ChoiceGroups, Sight, View};
use cn_table::Table;
use std::alloc::{AllocError, Global};

/// What a process sees.
#[tactic(auto, unfolding(crate::specs::Views::sight_text))]
fn sight_text(alloc: Global, table: &Table, sight: Sight) -> Result<String, AllocError>
    requires { IsKnownSight table.now sight }
    ensures { IfOk result (λ text. string_bytes text ≡ sight_text table.now sight) }
{
    let (response, state) = (
        table.response_name(sight.response),
        table.state_name(sight.state),
    );
    let mut text = String::new(alloc);
    push_pieces(&mut text, &["got ", response, ", reads ", state])?;
    Ok(text)
}

fn sight_texts(alloc: Global, table: &Table, sights: &[Sight]) -> Result<Vec<String>, AllocError>
    requires { All (IsKnownSight table.now) sights.now }
    ensures { IfOk result (λ texts. texts_view texts ≡ map (sight_text table.now) sights.now) }
{
    let mut texts = Vec::new(alloc);
    for sight in sights {
        texts.push(sight_text(alloc, table, *sight)?)?;
    }
    Ok(texts)
}

/// A width that no sight of the table passes.
fn sight_width(table: &Table) -> usize
    ensures { result ≡ sight_width table.now }
{
    widest_name(table, Named::Responses) + widest_name(table, Named::States) + 12
}

/// What the processes of a group can see.
fn push_view(
    alloc: Global,
    text: &mut String,
    table: &Table,
    widths: SideWidths,
    view: &View,
) -> Result<(), AllocError>
    requires label { widths.label ≤ 9 }
    requires known { IsKnownView table.now view.now }
    ensures { OnOk result (string_bytes text.new
        ≡ string_bytes text.old ++ view_rows table.now widths view.now) }
{
    let left = sight_texts(alloc, table, view.a_first.as_slice())?;
    let right = sight_texts(alloc, table, view.b_first.as_slice())?;
    push_sides(
        alloc,
        text,
        widths,
        view.group,
        left.as_slice(),
        right.as_slice(),
    )
}

/// What the processes of a witness with this choice can see, a group at a time.
pub(crate) fn push_views(
    alloc: Global,
    text: &mut String,
    table: &Table,
    choice: &ChoiceGroups,
    views: &[View],
) -> Result<(), AllocError>
    requires { All (IsKnownView table.now) views.now }
    ensures { OnOk result (string_bytes text.new
        ≡ string_bytes text.old ++ views_text table.now choice.now views.now) }
{
    let widths = widths_for(choice, sight_width(table));
    for view in views {
        push_view(alloc, text, table, widths, view)?;
    }
    Ok(())
}
