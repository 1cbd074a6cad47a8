//! An explanation of a number without reads in Markdown.
ghost use Rattle.std.specs.Prelude.{◌≡◌, ◌++◌, All, IfOk, OnOk, codes, flat_map, string_bytes};
ghost use Rattle.cn_markdown.specs.Explanation.{start};
ghost use Rattle.cn_markdown.specs.Numbers.{unread_head};
ghost use Rattle.cn_markdown.specs.Unread.{least_markdown, marked_sight, no_more, no_more_with_reads, sights, signs_markdown, unread_markdown, unread_reasons, view_row, views_table, views_told, with_reads_line, with_reads_markdown, witness_markdown, witness_start, witness_table};
ghost use Rattle.cn_unread_number.specs.BoundsText.{bounds_text};
ghost use Rattle.cn_unread_reasons.specs.Known.{IsKnownSigns, IsKnownUnreadSight, IsKnownUnreadView, IsKnownUnreadWitness, IsUnreadExplanation};

use crate::explanation::{push_choices_line, push_rule_line, push_start};
use crate::lasting::push_single_start;
use crate::numbers::unread_head;
use crate::recoverable::each_number_line;
use crate::rows::push_name_rule;
use crate::witness::push_group_cells;
use cn_interference::Rule;
use cn_pieces::push_pieces;
use cn_sentences::{
    alone_line, open_line, push_merged, push_next_steps, push_sign_search, push_undecided,
    push_unread_sight, telling_line,
};
use cn_table::Table;
use cn_unread_number::NumberBounds;
use cn_unread_reasons::{
    MostReason, SignWitness, UnreadExplanation, UnreadSight, UnreadView, UnreadWitness,
};
use std::alloc::{AllocError, Global};

/// What a process gets, behind a mark.
fn push_marked_sight(
    text: &mut String,
    table: &Table,
    mark: &str,
    sight: &UnreadSight,
) -> Result<(), AllocError>
    requires { IsKnownUnreadSight table.now sight.now }
    ensures { OnOk result (string_bytes text.new
        ≡ string_bytes text.old ++ marked_sight table.now mark.now sight.now) }
{
    text.push_str(mark)?;
    push_unread_sight(text, table, sight)
}

fn push_other_sights(
    text: &mut String,
    table: &Table,
    seen: &[UnreadSight],
) -> Result<(), AllocError>
    requires { All (IsKnownUnreadSight table.now) seen.now }
    ensures { OnOk result (string_bytes text.new ≡ string_bytes text.old
        ++ flat_map (marked_sight table.now (codes "; ")) seen.now) }
{
    for sight in seen {
        push_marked_sight(text, table, "; ", sight)?;
    }
    Ok(())
}

/// What the processes of a group can get, as it stands in a cell.
fn push_sights(text: &mut String, table: &Table, seen: &[UnreadSight]) -> Result<(), AllocError>
    requires { All (IsKnownUnreadSight table.now) seen.now }
    ensures { OnOk result (string_bytes text.new
        ≡ string_bytes text.old ++ sights table.now seen.now) }
{
    let [first, others @ ..] = seen else {
        return Ok(());
    };
    push_marked_sight(text, table, " ", first)?;
    push_other_sights(text, table, others)
}

/// The row of a group, with what its processes can get where each team is first.
#[tactic(auto, unfolding(crate::specs::Unread::view_row))]
fn push_view(text: &mut String, table: &Table, view: &UnreadView) -> Result<(), AllocError>
    requires { IsKnownUnreadView table.now view.now }
    ensures { OnOk result (string_bytes text.new
        ≡ string_bytes text.old ++ view_row table.now view.now) }
{
    push_group_cells(text, table, view.group)?;
    push_sights(text, table, view.a_first.as_slice())?;
    text.push_str(" |")?;
    push_sights(text, table, view.b_first.as_slice())?;
    text.push_str(" |\n")
}

fn push_views(text: &mut String, table: &Table, views: &[UnreadView]) -> Result<(), AllocError>
    requires { All (IsKnownUnreadView table.now) views.now }
    ensures { OnOk result (string_bytes text.new
        ≡ string_bytes text.old ++ flat_map (view_row table.now) views.now) }
{
    for view in views {
        push_view(text, table, view)?;
    }
    Ok(())
}

/// For how many processes the witness is, its start state, and what they do.
#[tactic(auto, unfolding(crate::specs::Unread::witness_start))]
fn push_witness_start(
    text: &mut String,
    table: &Table,
    witness: &UnreadWitness,
) -> Result<(), AllocError>
    requires { IsKnownUnreadWitness table.now witness.now }
    ensures { OnOk result (string_bytes text.new
        ≡ string_bytes text.old ++ witness_start table.now witness.now) }
{
    let (processes, start) = (witness.processes, table.state_name(witness.choice.start));
    write!(
        text,
        "{processes} processes: from state {start}, each can tell which team was first, by what it gets.\n"
    )?;
    push_next_steps(text, table, "", witness)
}

/// The table of what the processes get.
#[tactic(auto, unfolding(crate::specs::Unread::views_table))]
fn push_views_table(
    text: &mut String,
    table: &Table,
    views: &[UnreadView],
) -> Result<(), AllocError>
    requires { All (IsKnownUnreadView table.now) views.now }
    ensures { OnOk result (string_bytes text.new
        ≡ string_bytes text.old ++ views_table table.now views.now) }
{
    push_pieces(
        text,
        &["\n| Processes | Team | Operation | Team A first | Team B first |\n"],
    )?;
    push_name_rule(text, 5)?;
    push_views(text, table, views)
}

/// The same, if that is told.
fn push_views_told(text: &mut String, table: &Table, views: &[UnreadView]) -> Result<(), AllocError>
    requires { All (IsKnownUnreadView table.now) views.now }
    ensures { OnOk result (string_bytes text.new
        ≡ string_bytes text.old ++ views_told table.now views.now) }
{
    if views.is_empty() {
        return Ok(());
    }
    push_views_table(text, table, views)
}

#[tactic(auto, unfolding(crate::specs::Unread::witness_table))]
fn push_witness_table(
    text: &mut String,
    table: &Table,
    witness: &UnreadWitness,
) -> Result<(), AllocError>
    requires { IsKnownUnreadWitness table.now witness.now }
    ensures { OnOk result (string_bytes text.new
        ≡ string_bytes text.old ++ witness_table table.now witness.now) }
{
    push_witness_start(text, table, witness)?;
    push_views_told(text, table, witness.views.as_slice())
}

/// The witness, if there is one.
fn push_witness(text: &mut String, explanation: &UnreadExplanation) -> Result<(), AllocError>
    requires { IsUnreadExplanation explanation.now }
    ensures { OnOk result (string_bytes text.new ≡ string_bytes text.old
        ++ witness_markdown explanation.now.table explanation.now.witness) }
{
    match &explanation.witness {
        Some(witness) => push_witness_table(text, &explanation.table, witness),
        None => text.push_str(alone_line()),
    }
}

/// The signs, and what the processes do.
#[tactic(auto, unfolding(crate::specs::Unread::signs_markdown))]
fn push_signs(text: &mut String, table: &Table, signs: &SignWitness) -> Result<(), AllocError>
    requires { IsKnownSigns table.now signs.now }
    ensures { OnOk result (string_bytes text.new
        ≡ string_bytes text.old ++ signs_markdown table.now signs.now) }
{
    let start = table.state_name(signs.choice.state);
    let single = table.operation_name(signs.choice.single);
    let many = table.operation_name(signs.choice.many);
    push_single_start(text, start, single, " (team A)", many, " (team B)")?;
    text.push_str("\n")?;
    push_sign_search(text, table, "", signs)
}

/// Why the number is no less: the signs, or else the witness.
fn push_least(text: &mut String, explanation: &UnreadExplanation) -> Result<(), AllocError>
    requires { IsUnreadExplanation explanation.now }
    ensures { OnOk result (string_bytes text.new ≡ string_bytes text.old
        ++ least_markdown explanation.now explanation.now.signs) }
{
    match &explanation.signs {
        Some(signs) => push_signs(text, &explanation.table, signs),
        None => push_witness(text, explanation),
    }
}

#[tactic(auto, unfolding(crate::specs::Unread::with_reads_line))]
fn push_with_reads_line(text: &mut String, n: u16) -> Result<(), AllocError>
    ensures { OnOk result (string_bytes text.new ≡ string_bytes text.old ++ with_reads_line n) }
{
    write!(
        text,
        "{n} processes: not even if these states can be read.\n"
    )
}

/// That reads do not help either, where no rule says so.
fn push_no_more_with_reads(text: &mut String, bounds: NumberBounds) -> Result<(), AllocError>
    ensures { OnOk result (string_bytes text.new
        ≡ string_bytes text.old ++ no_more_with_reads bounds) }
{
    match bounds {
        NumberBounds::Exactly(n) => push_with_reads_line(text, n as u16 + 1),
        NumberBounds::Infinite => text.push_str(each_number_line()),
        NumberBounds::Between(_, most) => push_with_reads_line(text, most as u16 + 1),
        NumberBounds::AtLeast(_) => text.push_str(open_line()),
    }
}

/// The rule, or else the same.
fn push_with_reads(
    text: &mut String,
    bounds: NumberBounds,
    rule: Option<Rule>,
) -> Result<(), AllocError>
    ensures { OnOk result (string_bytes text.new
        ≡ string_bytes text.old ++ with_reads_markdown bounds rule) }
{
    match rule {
        Some(rule) => push_rule_line(text, rule),
        None => push_no_more_with_reads(text, bounds),
    }
}

/// Why the number is no more.
fn push_no_more(text: &mut String, explanation: &UnreadExplanation) -> Result<(), AllocError>
    ensures { OnOk result (string_bytes text.new
        ≡ string_bytes text.old ++ no_more explanation.now explanation.now.most) }
{
    match &explanation.most {
        MostReason::Open => text.push_str(open_line()),
        MostReason::EachNumber => text.push_str(each_number_line()),
        MostReason::WithReads { rule } => push_with_reads(text, explanation.bounds, *rule),
        MostReason::Trap(trap) => {
            let (n, count) = (trap.processes, trap.count);
            push_choices_line(text, "an adversary hides which team was first", n, count)
        }
    }
}

/// Why the number is so much, and why it is no more.
#[tactic(auto, unfolding(crate::specs::Unread::unread_reasons))]
fn push_reasons(text: &mut String, explanation: &UnreadExplanation) -> Result<(), AllocError>
    requires { IsUnreadExplanation explanation.now }
    ensures { OnOk result (string_bytes text.new
        ≡ string_bytes text.old ++ unread_reasons explanation.now) }
{
    let (given, table) = (&explanation.given, &explanation.table);
    push_merged(text, given, table, explanation.merged.as_slice())?;
    text.push_str(telling_line(explanation.telling))?;
    push_least(text, explanation)?;
    text.push_str("\n")?;
    push_no_more(text, explanation)?;
    push_undecided(text, explanation.bounds)
}

/// The table with the number.
fn push_number(
    alloc: Global,
    text: &mut String,
    explanation: &UnreadExplanation,
) -> Result<(), AllocError>
    ensures { OnOk result (string_bytes text.new ≡ string_bytes text.old
        ++ start unread_head explanation.now.table (bounds_text explanation.now.bounds)) }
{
    let words = format!(in alloc; "{}", explanation.bounds)?;
    push_start(
        alloc,
        text,
        unread_head(),
        &explanation.table,
        words.as_str(),
    )
}

/// Why the number of a type without reads is what it is, in Markdown: a table with the type and its
/// number, the table of the type with its states merged, what processes get by which each tells which
/// team was first, and the number of choices for one process more, in each of which an adversary hides
/// it; or another reason why the number is no more.
///
/// Each line ends with a line feed.
///
/// # Errors
///
/// `AllocError` if memory runs out.
#[tactic(auto, unfolding(crate::specs::Unread::unread_markdown))]
pub fn unread_explanation_markdown(
    alloc: Global,
    explanation: &UnreadExplanation,
) -> Result<String, AllocError>
    requires { IsUnreadExplanation explanation.now }
    // promise: unread-explanation (unread_markdown)
    ensures { IfOk result (λ text. string_bytes text ≡ unread_markdown explanation.now) }
{
    let mut text = String::new(alloc);
    push_number(alloc, &mut text, explanation)?;
    push_reasons(&mut text, explanation)?;
    Ok(text)
}
