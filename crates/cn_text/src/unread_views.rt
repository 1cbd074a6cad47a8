//! What the processes of a witness get without reads, a group at a time.
ghost use Rattle.std.specs.Prelude.{◌≡◌, ◌≤◌, ◌++◌, map, max, string_bytes, All, IfOk, OnOk};
ghost use Rattle.cn_sentences.specs.Unread.{unread_sight_text};
ghost use Rattle.cn_table.specs.DraftView.{texts_view};
ghost use Rattle.cn_text.specs.Columns.{widest};
ghost use Rattle.cn_text.specs.UnreadViews.{unread_view_rows, unread_views_text, view_width, widest_sight};
ghost use Rattle.cn_unread_reasons.specs.Known.{IsKnownUnreadSight, IsKnownUnreadView};

use crate::sides::{SideWidths, push_sides, widest_text, widths_for};
use cn_reasons::ChoiceGroups;
use cn_sentences::push_unread_sight;
use cn_table::Table;
use cn_unread_reasons::{UnreadSight, UnreadView};
use std::alloc::{AllocError, Global};

/// What a process gets.
fn sight_text(alloc: Global, table: &Table, sight: &UnreadSight) -> Result<String, AllocError>
    requires { IsKnownUnreadSight table.now sight.now }
    ensures { IfOk result (λ text. string_bytes text ≡ unread_sight_text table.now sight.now) }
{
    let mut text = String::new(alloc);
    push_unread_sight(&mut text, table, sight)?;
    Ok(text)
}

fn sight_texts(
    alloc: Global,
    table: &Table,
    sights: &[UnreadSight],
) -> Result<Vec<String>, AllocError>
    requires { All (IsKnownUnreadSight table.now) sights.now }
    ensures { IfOk result (λ texts. texts_view texts
        ≡ map (unread_sight_text table.now) sights.now) }
{
    let mut texts = Vec::new(alloc);
    for sight in sights {
        texts.push(sight_text(alloc, table, sight)?)?;
    }
    Ok(texts)
}

/// The width of the widest text of these sights.
fn sights_width(alloc: Global, table: &Table, sights: &[UnreadSight]) -> Result<usize, AllocError>
    requires { All (IsKnownUnreadSight table.now) sights.now }
    ensures { IfOk result (λ width. width
        ≡ widest (map (unread_sight_text table.now) sights.now)) }
{
    let texts = sight_texts(alloc, table, sights)?;
    Ok(widest_text(texts.as_slice()))
}

/// The width of the widest text of a view, on either side.
fn view_width(alloc: Global, table: &Table, view: &UnreadView) -> Result<usize, AllocError>
    requires { IsKnownUnreadView table.now view.now }
    ensures { IfOk result (λ width. width ≡ view_width table.now view.now) }
{
    let left = sights_width(alloc, table, view.a_first.as_slice())?;
    let right = sights_width(alloc, table, view.b_first.as_slice())?;
    Ok(left.max(right))
}

/// The width of the widest text.
fn widest_sight(alloc: Global, table: &Table, views: &[UnreadView]) -> Result<usize, AllocError>
    requires { All (IsKnownUnreadView table.now) views.now }
    ensures { IfOk result (λ width. width ≡ widest_sight table.now views.now) }
{
    let mut width = 0;
    for view in views {
        width = width.max(view_width(alloc, table, view)?);
    }
    Ok(width)
}

/// What the processes of a group get.
fn push_view(
    alloc: Global,
    text: &mut String,
    table: &Table,
    widths: SideWidths,
    view: &UnreadView,
) -> Result<(), AllocError>
    requires label { widths.label ≤ 9 }
    requires known { IsKnownUnreadView table.now view.now }
    ensures { OnOk result (string_bytes text.new
        ≡ string_bytes text.old ++ unread_view_rows table.now widths view.now) }
{
    let left = sight_texts(alloc, table, view.a_first.as_slice())?;
    let right = sight_texts(alloc, table, view.b_first.as_slice())?;
    push_sides(
        alloc,
        text,
        widths,
        view.group,
        left.as_slice(),
        right.as_slice(),
    )
}

/// What the processes of a witness with this choice get, a group at a time.
pub(crate) fn push_unread_views(
    alloc: Global,
    text: &mut String,
    table: &Table,
    choice: &ChoiceGroups,
    views: &[UnreadView],
) -> Result<(), AllocError>
    requires { All (IsKnownUnreadView table.now) views.now }
    // promise: parts-of-explanations (unread_views_text)
    ensures { OnOk result (string_bytes text.new
        ≡ string_bytes text.old ++ unread_views_text table.now choice.now views.now) }
{
    let widths = widths_for(choice, widest_sight(alloc, table, views)?);
    for view in views {
        push_view(alloc, text, table, widths, view)?;
    }
    Ok(())
}
