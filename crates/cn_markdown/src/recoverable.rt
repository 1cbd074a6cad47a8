//! An explanation of a recoverable number in Markdown.
ghost use Rattle.std.specs.Prelude.{◌≡◌, ◌++◌, All, IfOk, IfSome, OnOk, string_bytes};
ghost use Rattle.cn_search.specs.NumberText.{number_text};
ghost use Rattle.cn_reasons.specs.Known.{IsKnownGroup, IsKnownRecording, IsKnownState};
ghost use Rattle.cn_reasons.specs.Recoverable.{IsRecoverableExplanation};
ghost use Rattle.cn_markdown.specs.Explanation.{start};
ghost use Rattle.cn_markdown.specs.Numbers.{recoverable_head};
ghost use Rattle.cn_markdown.specs.Recoverable.{each_number_line, no_more, not_refuted, recoverable_markdown, start_place, team_row, witness_markdown, witness_start, witness_table};

use crate::explanation::{push_choices_line, push_no_list_line, push_start};
use crate::numbers::recoverable_head;
use crate::rows::push_name_rule;
use cn_pieces::push_pieces;
use cn_reasons::{
    Group, Reader, RecordingWitness, RecoverableExplanation, RecoverableWay, Refutation,
};
use cn_search::ConsensusNumber;
use cn_sentences::{alone_line, push_members, push_reader, push_states};
use cn_table::{State, Table};
use std::alloc::{AllocError, Global};

/// For how many processes the witness is, its start state, and the head of its table.
#[tactic(auto, unfolding(crate::specs::Recoverable::witness_start))]
fn push_witness_start(
    text: &mut String,
    table: &Table,
    witness: &RecordingWitness,
) -> Result<(), AllocError>
    requires { IsKnownRecording table.now witness.now }
    ensures { OnOk result (string_bytes text.new
        ≡ string_bytes text.old ++ witness_start table.now witness.now) }
{
    let (processes, start) = (witness.processes, table.state_name(witness.choice.start));
    write!(text, "{processes} processes: from state ")?;
    push_pieces(
        text,
        &[
            start,
            ", the state alone tells for good which team was first.\n\n",
            "| Team | Processes | Team first: the state is one of |\n",
        ],
    )
}

/// The row of a team: its processes, and the states that orders leave which begin in it.
#[tactic(auto, unfolding(crate::specs::Recoverable::team_row))]
fn push_team_row(
    text: &mut String,
    table: &Table,
    team: &str,
    groups: &[Group],
    states: &[State],
) -> Result<(), AllocError>
    requires groups { All (IsKnownGroup table.now) groups.now }
    requires states { All (IsKnownState table.now) states.now }
    ensures { OnOk result (string_bytes text.new
        ≡ string_bytes text.old ++ team_row table.now team.now groups.now states.now) }
{
    push_pieces(text, &["| ", team, " | "])?;
    push_members(text, table, "", groups)?;
    text.push_str(" |")?;
    push_states(text, table, states)?;
    text.push_str(" |\n")
}

/// In which row the start state also stands, in which no process has moved yet.
fn push_start_place(text: &mut String, reader: &Option<Reader>) -> Result<(), AllocError>
    ensures { OnOk result (string_bytes text.new
        ≡ string_bytes text.old ++ start_place reader.now) }
{
    let Some(reader) = reader else {
        return text.push_str(", which is in neither row.\n");
    };
    let other = reader.other.name();
    push_pieces(text, &[", which is also in the row of team ", other, ": "])?;
    push_reader(text, reader)
}

#[tactic(auto, unfolding(crate::specs::Recoverable::witness_table))]
fn push_witness_table(
    text: &mut String,
    table: &Table,
    witness: &RecordingWitness,
) -> Result<(), AllocError>
    requires { IsKnownRecording table.now witness.now }
    ensures { OnOk result (string_bytes text.new
        ≡ string_bytes text.old ++ witness_table table.now witness.now) }
{
    let choice = &witness.choice;
    let start = table.state_name(choice.start);
    let (a_states, b_states) = (witness.a_states.as_slice(), witness.b_states.as_slice());
    push_witness_start(text, table, witness)?;
    push_name_rule(text, 3)?;
    push_team_row(text, table, "A", choice.a.as_slice(), a_states)?;
    push_team_row(text, table, "B", choice.b.as_slice(), b_states)?;
    push_pieces(text, &["\nNo step yet: the state is ", start])?;
    push_start_place(text, &witness.reader)
}

/// Why the number is no less: the witness, if there is one.
fn push_witness(
    text: &mut String,
    table: &Table,
    witness: &Option<RecordingWitness>,
) -> Result<(), AllocError>
    requires { IfSome witness.now (IsKnownRecording table.now) }
    ensures { OnOk result (string_bytes text.new
        ≡ string_bytes text.old ++ witness_markdown table.now witness.now) }
{
    match witness {
        Some(witness) => push_witness_table(text, table, witness),
        None => text.push_str(alone_line()),
    }
}

/// That there is no greatest number.
pub(crate) fn each_number_line<'a>() -> &'a str
    ensures { result.now ≡ each_number_line }
{
    "It is so for each number of processes.\n"
}

/// Why the number is no more, with no refutation.
fn push_not_refuted(text: &mut String, number: ConsensusNumber) -> Result<(), AllocError>
    ensures { OnOk result (string_bytes text.new ≡ string_bytes text.old ++ not_refuted number) }
{
    match number {
        ConsensusNumber::Infinite => text.push_str(each_number_line()),
        ConsensusNumber::Finite(n) => push_no_list_line(text, n as u16 + 1),
    }
}

/// Why the number is no more.
fn push_no_more(
    text: &mut String,
    number: ConsensusNumber,
    refutation: &Option<Refutation<RecoverableWay>>,
) -> Result<(), AllocError>
    ensures { OnOk result (string_bytes text.new
        ≡ string_bytes text.old ++ no_more number refutation.now) }
{
    match refutation {
        Some(refutation) => {
            let (n, count) = (refutation.processes, refutation.count);
            push_choices_line(text, "the state does not tell", n, count)
        }
        None => push_not_refuted(text, number),
    }
}

/// The table with the number.
fn push_number(
    alloc: Global,
    text: &mut String,
    explanation: &RecoverableExplanation,
) -> Result<(), AllocError>
    ensures { OnOk result (string_bytes text.new ≡ string_bytes text.old
        ++ start recoverable_head explanation.now.table (number_text explanation.now.number)) }
{
    let words = format!(in alloc; "{}", explanation.number)?;
    push_start(
        alloc,
        text,
        recoverable_head(),
        &explanation.table,
        words.as_str(),
    )
}

/// Why the recoverable number of a type is what it is, in Markdown: a table with the type and its
/// number, the table of the type, the recording witness with the states that the orders of each team
/// leave, and the number of choices for one process more, in each of which the state does not tell.
///
/// Each line ends with a line feed.
///
/// # Errors
///
/// `AllocError` if memory runs out.
#[tactic(auto, unfolding(crate::specs::Recoverable::recoverable_markdown))]
pub fn recoverable_explanation_markdown(
    alloc: Global,
    explanation: &RecoverableExplanation,
) -> Result<String, AllocError>
    requires { IsRecoverableExplanation explanation.now }
    // promise: recoverable-explanation (recoverable_markdown)
    ensures { IfOk result (λ text. string_bytes text ≡ recoverable_markdown explanation.now) }
{
    let mut text = String::new(alloc);
    push_number(alloc, &mut text, explanation)?;
    push_witness(&mut text, &explanation.table, &explanation.witness)?;
    text.push_str("\n")?;
    push_no_more(&mut text, explanation.number, &explanation.refutation)?;
    Ok(text)
}
