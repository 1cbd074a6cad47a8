//! What explanations of both kinds of numbers say: the number and the table, the line of a witness,
//! and the words around the ways.
ghost use Rattle.std.specs.Prelude.{◌≡◌, [], ◌++◌, codes, string_bytes, All, OnOk};
ghost use Rattle.cn_reasons.specs.Known.{IsKnownChoice, IsKnownState};
ghost use Rattle.cn_text.specs.Grid.{cells_text};
ghost use Rattle.cn_text.specs.Reasons.{each_number_line, example_line, few_states, is_exactly, kind_words, left_out, more_line, no_list, not_listed, number_line, readers, said_for, single_line, start_text, states_line, theorem_line, ways_end, ways_notes, ways_words, witness_line};

use crate::folded::push_folded;
use crate::grid::push_cells;
use cn_pieces::push_pieces;
use cn_reasons::ChoiceGroups;
use cn_search::ConsensusNumber;
use cn_sentences::{push_members, push_states};
use cn_table::{State, Table};
use std::alloc::{AllocError, Global};

/// What a number is of.
#[derive(Clone, Copy)]
pub(crate) enum NumberKind {
    /// Processes that read objects.
    Readable,
    /// Processes that read objects, crash and come back.
    Recoverable,
    /// Processes that do not read objects.
    Unread,
}

fn kind_words<'a>(kind: NumberKind) -> &'a str
    ensures { result.now ≡ kind_words kind }
{
    match kind {
        NumberKind::Readable => "consensus number",
        NumberKind::Recoverable => "recoverable consensus number",
        NumberKind::Unread => "consensus number without reads",
    }
}

/// What the processes can do, for which the number is.
fn readers<'a>(kind: NumberKind) -> &'a str
    ensures { result.now ≡ readers kind }
{
    match kind {
        NumberKind::Readable | NumberKind::Recoverable => "can read the whole state",
        NumberKind::Unread => "have these operations alone",
    }
}

#[tactic(auto, unfolding(crate::specs::Reasons::number_line))]
fn push_number_line<'a>(
    text: &mut String,
    table: &'a Table,
    kind: NumberKind,
    words: &'a str,
) -> Result<(), AllocError>
    ensures { OnOk result (string_bytes text.new
        ≡ string_bytes text.old ++ number_line table.now kind words.now) }
{
    let (name, told, can) = (table.name(), kind_words(kind), readers(kind));
    push_pieces(
        text,
        &[
            name,
            ": ",
            told,
            " ",
            words,
            " (for processes that ",
            can,
            ")\n",
        ],
    )
}

/// The number in words, of this kind, in as many lines as it needs; and the cells of the table.
#[tactic(auto, unfolding(crate::specs::Reasons::start_text))]
pub(crate) fn push_start(
    alloc: Global,
    text: &mut String,
    table: &Table,
    kind: NumberKind,
    words: &str,
) -> Result<(), AllocError>
    ensures { OnOk result (string_bytes text.new
        ≡ string_bytes text.old ++ start_text table.now kind words.now) }
{
    let mut line = String::new(alloc);
    push_number_line(&mut line, table, kind, words)?;
    push_folded(alloc, text, line.as_str())?;
    push_table(text, table)
}

/// The cells of the table between two empty lines.
fn push_table(text: &mut String, table: &Table) -> Result<(), AllocError>
    ensures { OnOk result (string_bytes text.new
        ≡ string_bytes text.old ++ (codes "\n" ++ (cells_text table.now ++ (codes "\n" ++ [])))) }
{
    text.push_str("\n")?;
    push_cells(text, table)?;
    push_pieces(text, &["\n"])
}

/// Whether it is this number.
fn is_exactly(number: ConsensusNumber, processes: u8) -> bool
    ensures { result ≡ is_exactly number processes }
{
    match number {
        ConsensusNumber::Finite(n) => n == processes,
        ConsensusNumber::Infinite => false,
    }
}

/// For how many processes the witness is.
#[tactic(auto, unfolding(crate::specs::Reasons::said_for))]
pub(crate) fn push_said_for(text: &mut String, processes: u8) -> Result<(), AllocError>
    ensures { OnOk result (string_bytes text.new ≡ string_bytes text.old ++ said_for processes) }
{
    write!(text, "For {processes} processes, say:\n")
}

/// The same, if the number is another one.
pub(crate) fn push_example(
    text: &mut String,
    number: ConsensusNumber,
    processes: u8,
) -> Result<(), AllocError>
    // promise: parts-of-explanations (example_line)
    ensures { OnOk result (string_bytes text.new
        ≡ string_bytes text.old ++ example_line number processes) }
{
    if is_exactly(number, processes) {
        return Ok(());
    }
    push_said_for(text, processes)
}

/// The operations of the witness, by team.
#[tactic(auto, unfolding(crate::specs::Reasons::witness_line))]
pub(crate) fn push_witness_line(
    text: &mut String,
    table: &Table,
    processes: u8,
    choice: &ChoiceGroups,
) -> Result<(), AllocError>
    requires { IsKnownChoice table.now choice.now }
    // promise: parts-of-explanations (witness_line)
    ensures { OnOk result (string_bytes text.new
        ≡ string_bytes text.old ++ witness_line table.now processes choice.now) }
{
    let start = table.state_name(choice.start);
    write!(text, "Why {processes}: from state {start}, ")?;
    push_members(text, table, " (team A)", choice.a.as_slice())?;
    text.push_str(", ")?;
    push_members(text, table, " (team B)", choice.b.as_slice())?;
    push_pieces(text, &[".\n"])
}

/// The operation of a single process from a state, and that of all others, with words for their
/// teams.
#[tactic(auto, unfolding(crate::specs::Reasons::single_line))]
pub(crate) fn push_single_line(
    text: &mut String,
    start: &str,
    single: &str,
    team: &str,
    many: &str,
    others: &str,
) -> Result<(), AllocError>
    // promise: parts-of-explanations (single_line)
    ensures { OnOk result (string_bytes text.new ≡ string_bytes text.old
        ++ single_line start.now single.now team.now many.now others.now) }
{
    push_pieces(
        text,
        &[
            "Why infinite: from state ",
            start,
            ", one process",
            team,
            " does ",
            single,
            ", and any number of others",
            others,
            " do ",
            many,
            ".\n",
        ],
    )
}

/// The states that are left if this was first.
#[tactic(auto, unfolding(crate::specs::Reasons::states_line))]
pub(crate) fn push_states_line(
    text: &mut String,
    table: &Table,
    first: &str,
    when: &str,
    states: &[State],
) -> Result<(), AllocError>
    requires { All (IsKnownState table.now) states.now }
    ensures { OnOk result (string_bytes text.new
        ≡ string_bytes text.old ++ states_line table.now first.now when.now states.now) }
{
    push_pieces(text, &["  ", first, when, ": the state is one of"])?;
    push_states(text, table, states)?;
    push_pieces(text, &["\n"])
}

/// That no protocol of this kind does it for n processes.
#[tactic(auto, unfolding(crate::specs::Reasons::theorem_line))]
pub(crate) fn push_theorem(text: &mut String, kind: &str, n: u16) -> Result<(), AllocError>
    // promise: parts-of-explanations (theorem_line)
    ensures { OnOk result (string_bytes text.new
        ≡ string_bytes text.old ++ theorem_line kind.now n) }
{
    write!(
        text,
        "No protocol {kind} does it for {n}: this is proved (docs/PROVED.md).\n"
    )
}

#[tactic(auto, unfolding(crate::specs::Reasons::no_list))]
fn push_no_list(text: &mut String, n: u16) -> Result<(), AllocError>
    // promise: parts-of-explanations (no_list)
    ensures { OnOk result (string_bytes text.new ≡ string_bytes text.old ++ no_list n) }
{
    write!(text, "Why not {n}: its ways are not listed here.\n")?;
    push_theorem(text, "at all", n)
}

/// Why not n, of a type with fewer states of which no two operations last
/// ([`finite_numbers_are_few`](cn_stocks::lasting::laws::finite_numbers_are_few)).
#[tactic(auto, unfolding(crate::specs::Reasons::few_states))]
fn push_few_states(text: &mut String, n: u16, states: u8) -> Result<(), AllocError>
    // promise: parts-of-explanations (few_states)
    ensures { OnOk result (string_bytes text.new ≡ string_bytes text.old ++ few_states n states) }
{
    write!(
        text,
        "Why not {n}: it has {states} states and no two operations that last.\n"
    )?;
    push_theorem(text, "at all", n)
}

/// Why the finite number of a type with so many states is not n: that n is above them, or that its
/// ways are not listed.
pub(crate) fn push_not_listed(text: &mut String, states: u8, n: u16) -> Result<(), AllocError>
    // promise: parts-of-explanations (not_listed)
    ensures { OnOk result (string_bytes text.new ≡ string_bytes text.old ++ not_listed states n) }
{
    if (states as u16) < n {
        push_few_states(text, n, states)
    } else {
        push_no_list(text, n)
    }
}

pub(crate) fn push_each_number(text: &mut String) -> Result<(), AllocError>
    // promise: parts-of-explanations (each_number_line)
    ensures { OnOk result (string_bytes text.new ≡ string_bytes text.old ++ each_number_line) }
{
    text.push_str("It is so for each number of processes: this is proved (docs/PROVED.md).\n")
}

/// The number of ways, in each of which there is something that does not tell.
#[tactic(auto, unfolding(crate::specs::Reasons::ways_words))]
pub(crate) fn push_ways_words(
    text: &mut String,
    untold: &str,
    count: usize,
) -> Result<(), AllocError>
    ensures { OnOk result (string_bytes text.new
        ≡ string_bytes text.old ++ ways_words untold.now count) }
{
    match count {
        0 => text.push_str("no way to choose a start state, operations and teams is left.\n"),
        1 => push_pieces(
            text,
            &[
                "1 way to choose a start state, operations and teams; in it ",
                untold,
                ".\n",
            ],
        ),
        _ => write!(
            text,
            "{count} ways to choose a start state, operations and teams; in each {untold}.\n"
        ),
    }
}

/// The number of ways that are not told.
#[tactic(auto, unfolding(crate::specs::Reasons::more_line))]
fn push_more(text: &mut String, more: usize) -> Result<(), AllocError>
    // promise: parts-of-explanations (more_line)
    ensures { OnOk result (string_bytes text.new ≡ string_bytes text.old ++ more_line more) }
{
    if more == 0 {
        return Ok(());
    }
    write!(text, "  and {more} more (--all tells them)\n")
}

/// The ways that a list of this version leaves out.
fn left_out<'a>(version: u8) -> &'a str
    // promise: parts-of-explanations (left_out)
    ensures { result.now ≡ left_out version }
{
    if version == 1 {
        ""
    } else {
        "  Ways in which an operation leaves the start state unchanged cannot work, and are left out.\n"
    }
}

/// What is left out behind the ways of a list of this version.
#[tactic(auto, unfolding(crate::specs::Reasons::ways_notes))]
pub(crate) fn push_ways_notes(text: &mut String, more: usize, version: u8) -> Result<(), AllocError>
    // promise: parts-of-explanations (same_ways)
    ensures { OnOk result (string_bytes text.new
        ≡ string_bytes text.old ++ ways_notes more version) }
{
    let same_ways =
        "  Ways that differ only in the numbers of the processes or the names of the teams count as one.\n";
    push_more(text, more)?;
    push_pieces(text, &[same_ways, left_out(version)])
}

/// The same, and that no protocol does it for n processes.
#[tactic(auto, unfolding(crate::specs::Reasons::ways_end))]
pub(crate) fn push_ways_end(
    text: &mut String,
    more: usize,
    version: u8,
    n: u8,
) -> Result<(), AllocError>
    ensures { OnOk result (string_bytes text.new
        ≡ string_bytes text.old ++ ways_end more version n) }
{
    push_ways_notes(text, more, version)?;
    push_theorem(text, "at all", n as u16)
}
