//! The text of an explanation of a recoverable number.
ghost use Rattle.std.specs.Prelude.{◌≡◌, ◌++◌, string_bytes, IfOk, IfSome, OnOk};
ghost use Rattle.cn_reasons.specs.Known.{IsKnownRecording, IsKnownRecoverableWay, IsKnownRefutation};
ghost use Rattle.cn_reasons.specs.Recoverable.{IsRecoverableExplanation};
ghost use Rattle.cn_search.specs.NumberText.{number_text};
ghost use Rattle.cn_text.specs.Folded.{folded};
ghost use Rattle.cn_text.specs.Reasons.{start_text};
ghost use Rattle.cn_text.specs.declared.reasons.NumberKind.TheVariants.{Recoverable};
ghost use Rattle.cn_text.specs.Recoverable.{no_more, not_refuted, recoverable_text, refutation_text, start_place, why, witness_text};

use crate::folded::push_folded;
use crate::limits::LIVE_VERSION;
use crate::reasons::{
    NumberKind, push_each_number, push_example, push_not_listed, push_start, push_states_line,
    push_ways_end, push_ways_words, push_witness_line,
};
use crate::ways::push_recoverable_ways;
use cn_pieces::push_pieces;
use cn_reasons::{Reader, RecordingWitness, RecoverableExplanation, RecoverableWay, Refutation};
use cn_search::ConsensusNumber;
use cn_sentences::{alone_line, push_reader};
use cn_table::Table;
use std::alloc::{AllocError, Global};

/// Where the start state stands, in which no process has moved yet.
fn push_start_place(text: &mut String, reader: &Option<Reader>) -> Result<(), AllocError>
    ensures { OnOk result (string_bytes text.new
        ≡ string_bytes text.old ++ start_place reader.now) }
{
    let Some(reader) = reader else {
        return text.push_str(", which is in neither list.\n");
    };
    push_pieces(
        text,
        &[
            ", which is also in the list of team ",
            reader.other.name(),
            "; ",
        ],
    )?;
    push_reader(text, reader)
}

/// The witness, and the states that its orders leave.
#[tactic(auto, unfolding(crate::specs::Recoverable::witness_text))]
fn push_witness(
    text: &mut String,
    table: &Table,
    witness: &RecordingWitness,
) -> Result<(), AllocError>
    requires { IsKnownRecording table.now witness.now }
    ensures { OnOk result (string_bytes text.new
        ≡ string_bytes text.old ++ witness_text table.now witness.now) }
{
    let start = table.state_name(witness.choice.start);
    push_witness_line(text, table, witness.processes, &witness.choice)?;
    push_states_line(text, table, "A", " first", witness.a_states.as_slice())?;
    push_states_line(text, table, "B", " first", witness.b_states.as_slice())?;
    push_pieces(text, &["  No step yet: the state is ", start])?;
    push_start_place(text, &witness.reader)?;
    push_pieces(
        text,
        &["  No state is in both lists, so the state alone tells for good which team was first.\n"],
    )
}

/// Why the number is no less.
fn push_why(
    text: &mut String,
    table: &Table,
    number: ConsensusNumber,
    witness: &Option<RecordingWitness>,
) -> Result<(), AllocError>
    requires { IfSome witness.now (IsKnownRecording table.now) }
    ensures { OnOk result (string_bytes text.new
        ≡ string_bytes text.old ++ why table.now number witness.now) }
{
    let Some(witness) = witness else {
        return text.push_str(alone_line());
    };
    push_example(text, number, witness.processes)?;
    push_witness(text, table, witness)
}

/// Why the number is not one more: the ways for one process more.
#[tactic(auto, unfolding(crate::specs::Recoverable::refutation_text))]
fn push_refutation(
    text: &mut String,
    table: &Table,
    refutation: &Refutation<RecoverableWay>,
) -> Result<(), AllocError>
    requires { IsKnownRefutation (IsKnownRecoverableWay table.now) refutation.now }
    ensures { OnOk result (string_bytes text.new
        ≡ string_bytes text.old ++ refutation_text table.now refutation.now) }
{
    write!(text, "Why not {}: ", refutation.processes)?;
    push_ways_words(text, "the state does not tell", refutation.count)?;
    push_recoverable_ways(text, table, refutation.ways.as_slice())?;
    push_ways_end(text, refutation.more, LIVE_VERSION, refutation.processes)
}

/// Why the number is no more, with no refutation.
fn push_not_refuted(
    text: &mut String,
    table: &Table,
    number: ConsensusNumber,
) -> Result<(), AllocError>
    ensures { OnOk result (string_bytes text.new
        ≡ string_bytes text.old ++ not_refuted table.now number) }
{
    match number {
        ConsensusNumber::Infinite => push_each_number(text),
        ConsensusNumber::Finite(n) => push_not_listed(text, table.states(), n as u16 + 1),
    }
}

/// Why the number is no more.
fn push_no_more(
    text: &mut String,
    table: &Table,
    number: ConsensusNumber,
    refutation: &Option<Refutation<RecoverableWay>>,
) -> Result<(), AllocError>
    requires { IfSome refutation.now (IsKnownRefutation (IsKnownRecoverableWay table.now)) }
    ensures { OnOk result (string_bytes text.new
        ≡ string_bytes text.old ++ no_more table.now number refutation.now) }
{
    match refutation {
        Some(refutation) => push_refutation(text, table, refutation),
        None => push_not_refuted(text, table, number),
    }
}

/// The number and the table.
fn push_number(
    alloc: Global,
    text: &mut String,
    explanation: &RecoverableExplanation,
) -> Result<(), AllocError>
    ensures { OnOk result (string_bytes text.new ≡ string_bytes text.old
        ++ start_text explanation.now.table Recoverable
        (number_text explanation.now.number)) }
{
    let words = format!(in alloc; "{}", explanation.number)?;
    push_start(
        alloc,
        text,
        &explanation.table,
        NumberKind::Recoverable,
        words.as_str(),
    )
}

/// Why the number is no less, in as many lines as it needs.
fn push_evidence(
    alloc: Global,
    text: &mut String,
    explanation: &RecoverableExplanation,
) -> Result<(), AllocError>
    requires { IsRecoverableExplanation explanation.now }
    ensures { OnOk result (string_bytes text.new ≡ string_bytes text.old
        ++ folded (why explanation.now.table explanation.now.number explanation.now.witness)) }
{
    let mut lines = String::new(alloc);
    push_why(
        &mut lines,
        &explanation.table,
        explanation.number,
        &explanation.witness,
    )?;
    push_folded(alloc, text, lines.as_str())
}

/// Why the number is no more, in as many lines as it needs.
fn push_end(
    alloc: Global,
    text: &mut String,
    explanation: &RecoverableExplanation,
) -> Result<(), AllocError>
    requires { IsRecoverableExplanation explanation.now }
    ensures { OnOk result (string_bytes text.new ≡ string_bytes text.old
        ++ folded (no_more explanation.now.table explanation.now.number
        explanation.now.refutation)) }
{
    let mut lines = String::new(alloc);
    push_no_more(
        &mut lines,
        &explanation.table,
        explanation.number,
        &explanation.refutation,
    )?;
    push_folded(alloc, text, lines.as_str())
}

/// The text that tells people why the recoverable number of a type is what it is. It has
///
/// - the number, and the cells of the table;
/// - the first recording witness, and the states by which each process that comes back tells which
///   team was first;
/// - why there is no more: for each way for one process more that the explanation has, two runs that
///   leave one state.
///
/// Each line ends with a line feed.
///
/// # Errors
///
/// `AllocError` if memory runs out.
#[tactic(auto, unfolding(crate::specs::Recoverable::recoverable_text))]
pub fn recoverable_explanation_of(
    alloc: Global,
    explanation: &RecoverableExplanation,
) -> Result<String, AllocError>
    requires { IsRecoverableExplanation explanation.now }
    // promise: recoverable-explanation (recoverable_text)
    ensures { IfOk result (λ text. string_bytes text ≡ recoverable_text explanation.now) }
{
    let mut text = String::new(alloc);
    push_number(alloc, &mut text, explanation)?;
    push_evidence(alloc, &mut text, explanation)?;
    text.push_str("\n")?;
    push_end(alloc, &mut text, explanation)?;
    Ok(text)
}
