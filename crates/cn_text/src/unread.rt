//! The text of an explanation of a number without reads.
ghost use Rattle.std.specs.Prelude.{◌≡◌, ◌++◌, string_bytes, IfOk, OnOk};
ghost use Rattle.cn_sentences.specs.Unread.{merged_text, undecided};
ghost use Rattle.cn_text.specs.Folded.{folded};
ghost use Rattle.cn_text.specs.Reasons.{start_text};
ghost use Rattle.cn_text.specs.Unread.{is_least, least_line, least_part, no_more, no_more_with_reads, signs_text, trap_line, trap_plays, trap_text, unread_reasons, unread_text, views_part, with_reads_line, with_reads_reason, witness_lines, witness_part, witness_text};
ghost use Rattle.cn_text.specs.declared.reasons.NumberKind.TheVariants.{Unread};
ghost use Rattle.cn_unread_number.specs.BoundsText.{bounds_text};
ghost use Rattle.cn_unread_reasons.specs.Known.{IsKnownSigns, IsKnownTrap, IsKnownUnreadWitness, IsUnreadExplanation};

use crate::explanation::rule_words;
use crate::folded::push_folded;
use crate::limits::LIVE_VERSION;
use crate::plays::push_plays;
use crate::reasons::{
    NumberKind, push_each_number, push_said_for, push_single_line, push_start, push_theorem,
    push_ways_notes, push_ways_words, push_witness_line,
};
use crate::unread_views::push_unread_views;
use cn_interference::Rule;
use cn_pieces::push_pieces;
use cn_sentences::{
    alone_line, open_line, push_merged, push_next_steps, push_sign_search, push_undecided,
    telling_line,
};
use cn_table::Table;
use cn_unread_number::NumberBounds;
use cn_unread_reasons::{MostReason, PlayedTrap, SignWitness, UnreadExplanation, UnreadWitness};
use std::alloc::{AllocError, Global};

/// Whether the number is at least this, and at most this if there is a greatest one.
fn is_least(bounds: NumberBounds, processes: u8) -> bool
    ensures { result ≡ is_least bounds processes }
{
    match bounds {
        NumberBounds::Infinite => false,
        NumberBounds::Exactly(n) | NumberBounds::Between(n, _) | NumberBounds::AtLeast(n) => {
            n == processes
        }
    }
}

/// For how many processes the witness is, if these are not the least.
fn push_least_line(text: &mut String, bounds: NumberBounds, processes: u8) -> Result<(), AllocError>
    ensures { OnOk result (string_bytes text.new
        ≡ string_bytes text.old ++ least_line bounds processes) }
{
    if is_least(bounds, processes) {
        return Ok(());
    }
    push_said_for(text, processes)
}

/// What the processes of the witness do.
#[tactic(auto, unfolding(crate::specs::Unread::witness_lines))]
fn push_witness_lines(
    text: &mut String,
    table: &Table,
    witness: &UnreadWitness,
) -> Result<(), AllocError>
    requires { IsKnownUnreadWitness table.now witness.now }
    ensures { OnOk result (string_bytes text.new
        ≡ string_bytes text.old ++ witness_lines table.now witness.now) }
{
    push_witness_line(text, table, witness.processes, &witness.choice)?;
    push_next_steps(text, table, "  ", witness)
}

/// What the processes of the witness get.
#[tactic(auto, unfolding(crate::specs::Unread::views_part))]
fn push_views_part(
    alloc: Global,
    text: &mut String,
    table: &Table,
    witness: &UnreadWitness,
) -> Result<(), AllocError>
    requires { IsKnownUnreadWitness table.now witness.now }
    ensures { OnOk result (string_bytes text.new
        ≡ string_bytes text.old ++ views_part table.now witness.now) }
{
    push_unread_views(
        alloc,
        text,
        table,
        &witness.choice,
        witness.views.as_slice(),
    )?;
    push_pieces(
        text,
        &["  No process gets the same on both sides, so each can tell which team was first.\n"],
    )
}

/// What the processes of the witness do, and what they get.
#[tactic(auto, unfolding(crate::specs::Unread::witness_text))]
fn push_witness(
    alloc: Global,
    text: &mut String,
    table: &Table,
    witness: &UnreadWitness,
) -> Result<(), AllocError>
    requires { IsKnownUnreadWitness table.now witness.now }
    ensures { OnOk result (string_bytes text.new
        ≡ string_bytes text.old ++ witness_text table.now witness.now) }
{
    let mut lines = String::new(alloc);
    push_witness_lines(&mut lines, table, witness)?;
    push_folded(alloc, text, lines.as_str())?;
    push_views_part(alloc, text, table, witness)
}

/// The signs, and what the processes do.
#[tactic(auto, unfolding(crate::specs::Unread::signs_text))]
fn push_signs(text: &mut String, table: &Table, signs: &SignWitness) -> Result<(), AllocError>
    requires { IsKnownSigns table.now signs.now }
    ensures { OnOk result (string_bytes text.new
        ≡ string_bytes text.old ++ signs_text table.now signs.now) }
{
    let choice = &signs.choice;
    let start = table.state_name(choice.state);
    let single = table.operation_name(choice.single);
    let many = table.operation_name(choice.many);
    push_single_line(text, start, single, " (team A)", many, " (team B)")?;
    push_sign_search(text, table, "  ", signs)
}

/// The witness, below the number of its processes.
fn push_witness_part(
    alloc: Global,
    text: &mut String,
    explanation: &UnreadExplanation,
) -> Result<(), AllocError>
    requires { IsUnreadExplanation explanation.now }
    ensures { OnOk result (string_bytes text.new ≡ string_bytes text.old
        ++ witness_part explanation.now.table explanation.now.bounds explanation.now.witness) }
{
    let Some(witness) = &explanation.witness else {
        return text.push_str(alone_line());
    };
    push_least_line(text, explanation.bounds, witness.processes)?;
    push_witness(alloc, text, &explanation.table, witness)
}

/// The signs, or else the witness.
fn push_least_part(
    alloc: Global,
    text: &mut String,
    explanation: &UnreadExplanation,
) -> Result<(), AllocError>
    requires { IsUnreadExplanation explanation.now }
    ensures { OnOk result (string_bytes text.new ≡ string_bytes text.old
        ++ least_part explanation.now explanation.now.signs) }
{
    let Some(signs) = &explanation.signs else {
        return push_witness_part(alloc, text, explanation);
    };
    let mut lines = String::new(alloc);
    push_signs(&mut lines, &explanation.table, signs)?;
    push_folded(alloc, text, lines.as_str())
}

/// The rule of a type that no more processes solve with reads, if there is one.
fn push_with_reads_reason(text: &mut String, rule: Option<Rule>) -> Result<(), AllocError>
    ensures { OnOk result (string_bytes text.new
        ≡ string_bytes text.old ++ with_reads_reason rule) }
{
    match rule {
        None => text.push_str(" (cnum why of a table of these states tells why)"),
        Some(rule) => push_pieces(text, &[", since ", rule_words(rule)]),
    }
}

#[tactic(auto, unfolding(crate::specs::Unread::with_reads_line))]
fn push_with_reads_line(text: &mut String, rule: Option<Rule>, n: u16) -> Result<(), AllocError>
    ensures { OnOk result (string_bytes text.new
        ≡ string_bytes text.old ++ with_reads_line rule n) }
{
    write!(text, "Why not {n}: not even if these states can be read")?;
    push_with_reads_reason(text, rule)?;
    push_pieces(text, &[".\n"])
}

/// That more processes do not solve it with reads either.
fn push_no_more_with_reads(
    text: &mut String,
    rule: Option<Rule>,
    bounds: NumberBounds,
) -> Result<(), AllocError>
    ensures { OnOk result (string_bytes text.new
        ≡ string_bytes text.old ++ no_more_with_reads rule bounds) }
{
    match bounds {
        NumberBounds::Exactly(n) => push_with_reads_line(text, rule, n as u16 + 1),
        NumberBounds::Infinite => push_each_number(text),
        NumberBounds::Between(_, most) => push_with_reads_line(text, rule, most as u16 + 1),
        NumberBounds::AtLeast(_) => text.push_str(open_line()),
    }
}

/// Why such runs are enough, and how many positions the adversary needs.
#[tactic(auto, unfolding(crate::specs::Unread::trap_line))]
fn push_trap_line(text: &mut String, positions: usize) -> Result<(), AllocError>
    ensures { OnOk result (string_bytes text.new
        ≡ string_bytes text.old ++ trap_line positions) }
{
    text.push_str(
        "  Who gets the same in two runs that leave one state decides the same in both.\n",
    )?;
    write!(
        text,
        "  Whatever a protocol does, the adversary keeps it in a trap. Positions of the trap: {positions}.\n"
    )
}

/// The choices, and the plays of the adversary.
#[tactic(auto, unfolding(crate::specs::Unread::trap_plays))]
fn push_trap_plays(text: &mut String, table: &Table, trap: &PlayedTrap) -> Result<(), AllocError>
    requires { IsKnownTrap table.now trap.now }
    ensures { OnOk result (string_bytes text.new
        ≡ string_bytes text.old ++ trap_plays table.now trap.now) }
{
    write!(text, "Why not {}: ", trap.processes)?;
    push_ways_words(text, "an adversary wins", trap.count)?;
    push_plays(text, table, trap.plays.as_slice())
}

#[tactic(auto, unfolding(crate::specs::Unread::trap_text))]
fn push_trap(text: &mut String, table: &Table, trap: &PlayedTrap) -> Result<(), AllocError>
    requires { IsKnownTrap table.now trap.now }
    ensures { OnOk result (string_bytes text.new
        ≡ string_bytes text.old ++ trap_text table.now trap.now) }
{
    push_trap_plays(text, table, trap)?;
    push_ways_notes(text, trap.more, LIVE_VERSION)?;
    push_trap_line(text, trap.positions)?;
    push_theorem(text, "without reads", trap.processes as u16)
}

/// Why the number is no more.
fn push_no_more(text: &mut String, explanation: &UnreadExplanation) -> Result<(), AllocError>
    requires { IsUnreadExplanation explanation.now }
    ensures { OnOk result (string_bytes text.new
        ≡ string_bytes text.old ++ no_more explanation.now explanation.now.most) }
{
    match &explanation.most {
        MostReason::Open => text.push_str(open_line()),
        MostReason::EachNumber => push_each_number(text),
        MostReason::WithReads { rule } => push_no_more_with_reads(text, *rule, explanation.bounds),
        MostReason::Trap(trap) => push_trap(text, &explanation.table, trap),
    }
}

/// The number and the table.
fn push_number(
    alloc: Global,
    text: &mut String,
    explanation: &UnreadExplanation,
) -> Result<(), AllocError>
    ensures { OnOk result (string_bytes text.new ≡ string_bytes text.old
        ++ start_text explanation.now.table Unread (bounds_text explanation.now.bounds)) }
{
    let words = format!(in alloc; "{}", explanation.bounds)?;
    push_start(
        alloc,
        text,
        &explanation.table,
        NumberKind::Unread,
        words.as_str(),
    )
}

/// The states that are one, in as many lines as they need.
fn push_merged_part(
    alloc: Global,
    text: &mut String,
    explanation: &UnreadExplanation,
) -> Result<(), AllocError>
    requires { IsUnreadExplanation explanation.now }
    ensures { OnOk result (string_bytes text.new ≡ string_bytes text.old
        ++ folded (merged_text explanation.now.given explanation.now.table
        explanation.now.merged.items)) }
{
    let mut lines = String::new(alloc);
    let (given, table) = (&explanation.given, &explanation.table);
    push_merged(&mut lines, given, table, explanation.merged.as_slice())?;
    push_folded(alloc, text, lines.as_str())
}

/// Why the number is no more, and what is not decided, in as many lines as it needs.
fn push_end(
    alloc: Global,
    text: &mut String,
    explanation: &UnreadExplanation,
) -> Result<(), AllocError>
    requires { IsUnreadExplanation explanation.now }
    ensures { OnOk result (string_bytes text.new ≡ string_bytes text.old
        ++ folded (no_more explanation.now explanation.now.most
        ++ undecided explanation.now.bounds)) }
{
    let mut lines = String::new(alloc);
    push_no_more(&mut lines, explanation)?;
    push_undecided(&mut lines, explanation.bounds)?;
    push_folded(alloc, text, lines.as_str())
}

/// The text behind the number and the table.
#[tactic(auto, unfolding(crate::specs::Unread::unread_reasons))]
fn push_reasons(
    alloc: Global,
    text: &mut String,
    explanation: &UnreadExplanation,
) -> Result<(), AllocError>
    requires { IsUnreadExplanation explanation.now }
    ensures { OnOk result (string_bytes text.new
        ≡ string_bytes text.old ++ unread_reasons explanation.now) }
{
    push_merged_part(alloc, text, explanation)?;
    text.push_str(telling_line(explanation.telling))?;
    push_least_part(alloc, text, explanation)?;
    text.push_str("\n")?;
    push_end(alloc, text, explanation)
}

/// The text that tells people why the number of a type without reads is what it is. It has
///
/// - the number, and the cells of the table with its states merged;
/// - each state that stands for another one;
/// - why the type needs no reads, if it does not;
/// - what the processes of the witness get, by which each tells which team was first; or the signs by
///   which any number of processes tell it;
/// - why there is no more: that not even reads help; or for each choice for one process more that the
///   explanation has, the play of an adversary, two runs in which some process gets the same.
///
/// Each line ends with a line feed.
///
/// # Errors
///
/// `AllocError` if memory runs out.
#[tactic(auto, unfolding(crate::specs::Unread::unread_text))]
pub fn unread_explanation_of(
    alloc: Global,
    explanation: &UnreadExplanation,
) -> Result<String, AllocError>
    requires { IsUnreadExplanation explanation.now }
    // promise: unread-explanation (unread_text)
    ensures { IfOk result (λ text. string_bytes text ≡ unread_text explanation.now) }
{
    let mut text = String::new(alloc);
    push_number(alloc, &mut text, explanation)?;
    push_reasons(alloc, &mut text, explanation)?;
    Ok(text)
}
