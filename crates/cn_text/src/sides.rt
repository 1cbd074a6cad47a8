//! Texts of a group of processes in rows of two sides: where team A is first, and where team B is.
ghost use Rattle.std.specs.Prelude.{◌≡◌, ◌≤◌, ◌+◌, ◌++◌, length, nat_lt, string_bytes, IfOk, OnOk};
ghost use Rattle.cn_choice.specs.declared.limits.TheConstants.{MOST_PROCESSES};
ghost use Rattle.cn_sentences.specs.Triangle.{texts_of};
ghost use Rattle.cn_text.specs.Columns.{text_at, widest};
ghost use Rattle.cn_text.specs.Sides.{a_head, b_head, has_room, heading, label_width, left_side, right_side, row, rows, sides, widths_for, words_width};

use crate::columns::{push_padded, text_at};
use crate::limits::WIDEST_LINE;
use cn_pieces::{push_pieces, push_spaces};
use cn_reasons::{ChoiceGroups, Group};
use cn_sentences::push_processes;
use std::alloc::{AllocError, Global};

/// The widths of the columns.
#[derive(Clone, Copy)]
pub(crate) struct SideWidths {
    /// That of the words for a group.
    pub label: usize,
    /// That of the texts.
    pub texts: usize,
}

/// The words before the first text of a side, and as many spaces before the others.
fn push_heading(text: &mut String, words: &str, place: usize) -> Result<(), AllocError>
    ensures { OnOk result (string_bytes text.new
        ≡ string_bytes text.old ++ heading words.now place) }
{
    if place == 0 {
        text.push_str(words)
    } else {
        push_spaces(text, words.len())
    }
}

fn push_left_side(
    text: &mut String,
    width: usize,
    shown: &str,
    beside: bool,
) -> Result<(), AllocError>
    ensures { OnOk result (string_bytes text.new
        ≡ string_bytes text.old ++ left_side width shown.now beside) }
{
    push_padded(text, if beside { width } else { 0 }, &[shown])
}

fn push_right_side(text: &mut String, right: &[String], place: usize) -> Result<(), AllocError>
    ensures { OnOk result (string_bytes text.new
        ≡ string_bytes text.old ++ right_side (texts_of right.now) place) }
{
    if place >= right.len() {
        return Ok(());
    }
    push_heading(text, "    B first: ", place)?;
    text.push_str(text_at(right, place))
}

/// A row of the two sides: a text of each that has one left.
#[tactic(auto, unfolding(crate::specs::Sides::row))]
fn push_row(
    text: &mut String,
    width: usize,
    head: &str,
    left: &[String],
    right: &[String],
    place: usize,
) -> Result<(), AllocError>
    ensures { OnOk result (string_bytes text.new ≡ string_bytes text.old
        ++ row width head.now (texts_of left.now) (texts_of right.now) place) }
{
    push_heading(text, head, place)?;
    push_left_side(text, width, text_at(left, place), place < right.len())?;
    push_right_side(text, right, place)?;
    push_pieces(text, &["\n"])
}

/// As many rows as the longer side has texts.
#[tactic(auto, using(cn_pieces::proofs::Ranges::pieces_behind))]
fn push_rows(
    text: &mut String,
    width: usize,
    head: &str,
    left: &[String],
    right: &[String],
) -> Result<(), AllocError>
    ensures { OnOk result (string_bytes text.new ≡ string_bytes text.old
        ++ rows width head.now (texts_of left.now) (texts_of right.now)) }
{
    for place in 0..left.len().max(right.len()) {
        push_row(text, width, head, left, right, place)?;
    }
    Ok(())
}

/// The width of the words for so many processes.
fn words_width(count: u8) -> usize
    ensures { result ≡ words_width count }
{
    match count {
        0 | 1 => 2,
        2 => 9,
        _ => 8,
    }
}

/// The greatest width of the words for a group.
fn label_width(groups: &[Group]) -> usize
    ensures width { result ≡ label_width groups.now }
    ensures few { result ≤ 9 }
{
    let mut width = 0;
    for group in groups {
        width = width.max(words_width(group.count));
    }
    width
}

/// The widths of the columns for the groups of a choice, with texts of this width.
pub(crate) fn widths_for(choice: &ChoiceGroups, texts: usize) -> SideWidths
    ensures widths { result ≡ widths_for choice.now texts }
    ensures few { result.label ≤ 9 }
{
    let label = label_width(choice.a.as_slice()).max(label_width(choice.b.as_slice()));
    SideWidths { label, texts }
}

/// The width of the widest of the texts.
pub(crate) fn widest_text(texts: &[String]) -> usize
    ensures { result ≡ widest (texts_of texts.now) }
{
    let mut width = 0;
    for text in texts {
        width = width.max(text.len());
    }
    width
}

/// The words before the texts where team A is first.
#[tactic(auto, unfolding(crate::specs::Sides::a_head))]
fn a_head(alloc: Global, width: usize, group: Group) -> Result<String, AllocError>
    requires some { 1 ≤ group.count }
    requires few { group.first + group.count ≤ MOST_PROCESSES }
    ensures { IfOk result (λ head. string_bytes head ≡ a_head width group) }
{
    let mut head = String::from_str(alloc, "  ")?;
    push_processes(&mut head, group.first, group.count)?;
    push_spaces(&mut head, width.saturating_sub(words_width(group.count)))?;
    head.push_str("   A first: ")?;
    Ok(head)
}

/// The words before the texts where team B is first, in lines of their own.
#[tactic(auto, unfolding(crate::specs::Sides::b_head))]
fn b_head(alloc: Global, width: usize) -> Result<String, AllocError>
    requires { width ≤ 9 }
    ensures { IfOk result (λ head. string_bytes head ≡ b_head width) }
{
    let mut head = String::new(alloc);
    push_spaces(&mut head, width + 5)?;
    head.push_str("B first: ")?;
    Ok(head)
}

/// Whether a line has room for two texts of this width.
fn has_room(widths: SideWidths) -> bool
    requires { widths.label ≤ 9 }
    ensures { result ≡ has_room widths }
{
    widths.texts <= WIDEST_LINE && widths.label + widths.texts + widths.texts + 27 <= WIDEST_LINE
}

/// The texts of a group: the sides side by side if a line has room for them, else one below the
/// other.
pub(crate) fn push_sides(
    alloc: Global,
    text: &mut String,
    widths: SideWidths,
    group: Group,
    left: &[String],
    right: &[String],
) -> Result<(), AllocError>
    requires label { widths.label ≤ 9 }
    requires some { 1 ≤ group.count }
    requires few { group.first + group.count ≤ MOST_PROCESSES }
    // promise: parts-of-explanations (sides)
    ensures { OnOk result (string_bytes text.new ≡ string_bytes text.old
        ++ sides widths group (texts_of left.now) (texts_of right.now)) }
{
    let head = a_head(alloc, widths.label, group)?;
    if has_room(widths) {
        return push_rows(text, widths.texts, &head, left, right);
    }
    push_rows(text, widths.texts, &head, left, &[])?;
    let head = b_head(alloc, widths.label)?;
    push_rows(text, widths.texts, &head, right, &[])
}
