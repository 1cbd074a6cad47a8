//! The text of an explanation.
ghost use Rattle.std.specs.Prelude.{◌≡◌, ◌++◌, codes, flat_map, string_bytes, All, IfOk, IfSome, OnOk};
ghost use Rattle.cn_reasons.specs.Explanation.{IsExplanation};
ghost use Rattle.cn_reasons.specs.Known.{IsKnownLasting, IsKnownPair, IsKnownRefutation, IsKnownWay, IsKnownWitness};
ghost use Rattle.cn_sentences.specs.Numbers.{number_words};
ghost use Rattle.cn_text.specs.Explanation.{example_part, exception, exceptions, explanation_text, in_full, lasting_part, lasting_text, no_more, not_refuted, pairs_line, reasons_text, refutation_text, rest_interferes, rule_sentence, rule_words, shortest_part, tells_pairs, tells_refutation, ways_part, why, witness_text, with_ways};
ghost use Rattle.cn_text.specs.Folded.{folded, FoldsBehind};
ghost use Rattle.cn_text.specs.Reasons.{start_text};
ghost use Rattle.cn_text.specs.declared.reasons.NumberKind.TheVariants.{Readable};

use crate::folded::push_folded;
use crate::limits::MOST_APART;
use crate::reasons::{
    NumberKind, push_each_number, push_example, push_not_listed, push_single_line, push_start,
    push_states_line, push_ways_end, push_ways_words, push_witness_line,
};
use crate::views::push_views;
use crate::ways::push_ways;
use cn_interference::{OperationPair, Rule};
use cn_pieces::push_pieces;
use cn_reasons::{Explanation, LastingWitness, Refutation, TypeNumber, Way, Witness};
use cn_search::ConsensusNumber;
use cn_sentences::{ShortestCost, alone_line, number_words, push_limit_line, push_shortest};
use cn_table::Table;
use std::alloc::{AllocError, Global};

/// Why two operations that last tell which came first, by the states that each first leads to.
#[tactic(auto, unfolding(crate::specs::Explanation::lasting_text))]
fn push_lasting(
    text: &mut String,
    table: &Table,
    witness: &LastingWitness,
) -> Result<(), AllocError>
    requires { IsKnownLasting table.now witness.now }
    ensures { OnOk result (string_bytes text.new
        ≡ string_bytes text.old ++ lasting_text table.now witness.now) }
{
    let start = table.state_name(witness.lasting.start);
    let single = table.operation_name(witness.lasting.single);
    let many = table.operation_name(witness.lasting.many);
    push_single_line(text, start, single, "", many, "")?;
    let (single_states, many_states) = (&witness.single_states, &witness.many_states);
    push_states_line(text, table, single, " first", single_states.as_slice())?;
    push_states_line(
        text,
        table,
        many,
        " first, or no step yet",
        many_states.as_slice(),
    )?;
    push_pieces(
        text,
        &[
            "  No state is in both lists, so each process can tell which came first, however many there are.\n",
        ],
    )
}

/// The same in as many lines as it needs, of a type with operations that last.
fn push_lasting_part(
    alloc: Global,
    text: &mut String,
    table: &Table,
    lasting: &Option<LastingWitness>,
) -> Result<(), AllocError>
    requires { IfSome lasting.now (IsKnownLasting table.now) }
    ensures { OnOk result (string_bytes text.new
        ≡ string_bytes text.old ++ lasting_part table.now lasting.now) }
{
    let Some(witness) = lasting else {
        return Ok(());
    };
    let mut lines = String::new(alloc);
    push_lasting(&mut lines, table, witness)?;
    push_folded(alloc, text, lines.as_str())
}

/// For how many processes the witness is, if the number is another one with no limit.
fn push_example_part(text: &mut String, number: TypeNumber, processes: u8) -> Result<(), AllocError>
    ensures { OnOk result (string_bytes text.new
        ≡ string_bytes text.old ++ example_part number processes) }
{
    match number {
        TypeNumber::Exact(number) => push_example(text, number, processes),
        TypeNumber::UpTo(_, _) => Ok(()),
    }
}

/// The witness, and what its processes can see.
#[tactic(auto, unfolding(crate::specs::Explanation::witness_text))]
fn push_witness(
    alloc: Global,
    text: &mut String,
    table: &Table,
    witness: &Witness,
) -> Result<(), AllocError>
    requires { IsKnownWitness table.now witness.now }
    ensures { OnOk result (string_bytes text.new
        ≡ string_bytes text.old ++ witness_text table.now witness.now) }
{
    let mut line = String::new(alloc);
    push_witness_line(&mut line, table, witness.processes, &witness.choice)?;
    push_folded(alloc, text, line.as_str())?;
    push_views(
        alloc,
        text,
        table,
        &witness.choice,
        witness.views.as_slice(),
    )?;
    push_pieces(
        text,
        &["  No process has a pair on both sides, so each can tell which team was first.\n"],
    )
}

/// Why the number is no less.
fn push_why(
    alloc: Global,
    text: &mut String,
    table: &Table,
    number: TypeNumber,
    witness: &Option<Witness>,
) -> Result<(), AllocError>
    requires { IfSome witness.now (IsKnownWitness table.now) }
    ensures { OnOk result (string_bytes text.new
        ≡ string_bytes text.old ++ why table.now number witness.now) }
{
    let Some(witness) = witness else {
        return text.push_str(alone_line());
    };
    push_example_part(text, number, witness.processes)?;
    push_witness(alloc, text, table, witness)
}

/// A rule in words: what it says of the operations.
#[tactic(auto, unfolding(crate::specs::Explanation::rule_words))]
pub(crate) fn rule_words<'a>(rule: Rule) -> &'a str
    ensures { result.now ≡ rule_words rule }
{
    match rule {
        Rule::InterferenceWithoutAnswers => {
            "no operation answers, and two always commute, or one wipes out the other"
        }
        Rule::HiddenOperations => {
            "in every state, of any two operations, one tells nothing of the other"
        }
        Rule::TwoStates => "with two states any two operations commute, or one wipes out the other",
        Rule::Interference => {
            "in every state any two operations commute, or one wipes out the other"
        }
    }
}

/// The rule by which the number is no more, if one applies.
fn push_rule(text: &mut String, rule: Option<Rule>) -> Result<(), AllocError>
    ensures { OnOk result (string_bytes text.new ≡ string_bytes text.old ++ rule_sentence rule) }
{
    match rule {
        None => Ok(()),
        Some(rule) => push_pieces(text, &["proved, since ", rule_words(rule), ".\n"]),
    }
}

/// The words before the ways, behind those for a rule.
fn in_full<'a>(rule: Option<Rule>) -> &'a str
    ensures { result.now ≡ in_full rule }
{
    match rule {
        None => "",
        Some(_) => "In full: ",
    }
}

/// Whether the ways are told: with no limit, and with a rule that says the same, only if all are
/// asked for.
fn with_ways(number: TypeNumber, rule: Option<Rule>, all: bool) -> bool
    ensures { result ≡ with_ways number rule all }
{
    match (number, rule) {
        (TypeNumber::Exact(_), Some(_)) => all,
        _ => true,
    }
}

/// The ways, and what is left out.
#[tactic(auto, unfolding(crate::specs::Explanation::ways_part))]
fn push_ways_part(
    alloc: Global,
    text: &mut String,
    lines: &mut String,
    explanation: &Explanation,
    refutation: &Refutation<Way>,
) -> Result<(), AllocError>
    requires { IsKnownRefutation (IsKnownWay explanation.now.table) refutation.now }
    ensures { OnOk result (FoldsBehind (string_bytes text.old) (string_bytes lines.old)
        (ways_part explanation.now refutation.now) (string_bytes text.new) (string_bytes lines.new)) }
{
    let (table, version) = (&explanation.table, explanation.version);
    lines.push_str(in_full(explanation.rule))?;
    push_ways_words(lines, "a process cannot tell", refutation.count)?;
    push_ways(alloc, text, lines, table, refutation.ways.as_slice())?;
    push_ways_end(lines, refutation.more, version, refutation.processes)
}

/// Why the number is not one more: the rule, and the ways.
#[tactic(auto, unfolding(crate::specs::Explanation::refutation_text))]
fn push_refutation(
    alloc: Global,
    text: &mut String,
    lines: &mut String,
    explanation: &Explanation,
    refutation: &Refutation<Way>,
) -> Result<(), AllocError>
    requires { IsKnownRefutation (IsKnownWay explanation.now.table) refutation.now }
    ensures { OnOk result (FoldsBehind (string_bytes text.old) (string_bytes lines.old)
        (refutation_text explanation.now refutation.now)
        (string_bytes text.new) (string_bytes lines.new)) }
{
    write!(lines, "Why not {}: ", refutation.processes)?;
    push_rule(lines, explanation.rule)?;
    if !with_ways(explanation.number, explanation.rule, explanation.all) {
        return Ok(());
    }
    push_ways_part(alloc, text, lines, explanation, refutation)
}

/// Why the number is no more, with no refutation.
fn push_not_refuted(
    text: &mut String,
    table: &Table,
    limit: u8,
    number: TypeNumber,
) -> Result<(), AllocError>
    ensures { OnOk result (string_bytes text.new
        ≡ string_bytes text.old ++ not_refuted table.now limit number) }
{
    match number {
        TypeNumber::UpTo(_, _) => push_limit_line(text, limit),
        TypeNumber::Exact(ConsensusNumber::Finite(n)) => {
            push_not_listed(text, table.states(), n as u16 + 1)
        }
        TypeNumber::Exact(ConsensusNumber::Infinite) => push_each_number(text),
    }
}

/// Whether what is refuted is told: of a number up to a limit, and of a finite one.
fn tells_refutation(number: TypeNumber) -> bool
    ensures { result ≡ tells_refutation number }
{
    match number {
        TypeNumber::UpTo(_, _) | TypeNumber::Exact(ConsensusNumber::Finite(_)) => true,
        TypeNumber::Exact(_) => false,
    }
}

/// Why the number is no more.
fn push_no_more(
    alloc: Global,
    text: &mut String,
    lines: &mut String,
    explanation: &Explanation,
) -> Result<(), AllocError>
    requires { IsExplanation explanation.now }
    ensures { OnOk result (FoldsBehind (string_bytes text.old) (string_bytes lines.old)
        (no_more explanation.now explanation.now.refutation)
        (string_bytes text.new) (string_bytes lines.new)) }
{
    match &explanation.refutation {
        Some(refutation) if tells_refutation(explanation.number) => {
            push_refutation(alloc, text, lines, explanation, refutation)
        }
        _ => push_not_refuted(
            lines,
            &explanation.table,
            explanation.limit,
            explanation.number,
        ),
    }
}

/// The two operations of a pair behind a word.
#[tactic(auto, unfolding(crate::specs::Explanation::exception))]
fn push_exception(
    text: &mut String,
    table: &Table,
    before: &str,
    pair: OperationPair,
) -> Result<(), AllocError>
    requires { IsKnownPair table.now pair }
    ensures { OnOk result (string_bytes text.new
        ≡ string_bytes text.old ++ exception table.now before.now pair) }
{
    let first = table.operation_name(pair.first);
    let second = table.operation_name(pair.second);
    push_pieces(text, &[before, first, " and ", second])
}

fn push_other_exceptions(
    text: &mut String,
    table: &Table,
    pairs: &[OperationPair],
) -> Result<(), AllocError>
    requires { All (IsKnownPair table.now) pairs.now }
    ensures { OnOk result (string_bytes text.new
        ≡ string_bytes text.old ++ flat_map (exception table.now (codes ", nor ")) pairs.now) }
{
    for pair in pairs {
        push_exception(text, table, ", nor ", *pair)?;
    }
    Ok(())
}

/// The words for all other pairs.
#[tactic(auto, unfolding(crate::specs::Explanation::rest_interferes))]
fn rest_interferes<'a>() -> &'a str
    ensures { result.now ≡ rest_interferes }
{
    "In every state any two operations commute, or one wipes out the other, but not "
}

fn push_exceptions(
    text: &mut String,
    table: &Table,
    pairs: &[OperationPair],
) -> Result<(), AllocError>
    requires { All (IsKnownPair table.now) pairs.now }
    ensures { OnOk result (string_bytes text.new
        ≡ string_bytes text.old ++ exceptions table.now pairs.now) }
{
    let [first, others @ ..] = pairs else {
        return Ok(());
    };
    push_exception(text, table, rest_interferes(), *first)?;
    push_other_exceptions(text, table, others)
}

/// Whether the pairs that do not interfere are told.
fn tells_pairs(witness: &Option<Witness>, pairs: &[OperationPair]) -> bool
    ensures { result ≡ tells_pairs witness.now pairs.now }
{
    match witness {
        Some(witness) => {
            witness.processes >= 3 && !pairs.is_empty() && pairs.len() <= MOST_APART
        }
        None => false,
    }
}

/// The pairs that do not interfere, if they are told.
fn push_pairs_line(
    text: &mut String,
    table: &Table,
    witness: &Option<Witness>,
    pairs: &[OperationPair],
) -> Result<(), AllocError>
    requires { All (IsKnownPair table.now) pairs.now }
    ensures { OnOk result (string_bytes text.new
        ≡ string_bytes text.old ++ pairs_line table.now witness.now pairs.now) }
{
    if !tells_pairs(witness, pairs) {
        return Ok(());
    }
    push_exceptions(text, table, pairs)?;
    push_pieces(text, &[".\n"])
}

/// The number and the table.
fn push_number(
    alloc: Global,
    text: &mut String,
    explanation: &Explanation,
) -> Result<(), AllocError>
    ensures { OnOk result (string_bytes text.new ≡ string_bytes text.old
        ++ start_text explanation.now.table Readable
        (number_words (codes " (the limit)") explanation.now.number)) }
{
    let words = number_words(alloc, " (the limit)", explanation.number)?;
    push_start(
        alloc,
        text,
        &explanation.table,
        NumberKind::Readable,
        words.as_str(),
    )
}

/// Why the number is no more, and the pairs that do not interfere, in as many lines as it needs.
fn push_end(alloc: Global, text: &mut String, explanation: &Explanation) -> Result<(), AllocError>
    requires { IsExplanation explanation.now }
    ensures { OnOk result (string_bytes text.new ≡ string_bytes text.old
        ++ folded (no_more explanation.now explanation.now.refutation
        ++ pairs_line explanation.now.table explanation.now.witness explanation.now.apart.items)) }
{
    let mut lines = String::new(alloc);
    let (table, witness) = (&explanation.table, &explanation.witness);
    push_no_more(alloc, text, &mut lines, explanation)?;
    push_pairs_line(&mut lines, table, witness, explanation.apart.as_slice())?;
    push_folded(alloc, text, lines.as_str())
}

/// The text behind the number and the table.
#[tactic(auto, unfolding(crate::specs::Explanation::reasons_text))]
fn push_reasons(
    alloc: Global,
    text: &mut String,
    explanation: &Explanation,
) -> Result<(), AllocError>
    requires { IsExplanation explanation.now }
    ensures { OnOk result (string_bytes text.new
        ≡ string_bytes text.old ++ reasons_text explanation.now) }
{
    let table = &explanation.table;
    push_lasting_part(alloc, text, table, &explanation.lasting)?;
    push_why(alloc, text, table, explanation.number, &explanation.witness)?;
    text.push_str("\n")?;
    push_end(alloc, text, explanation)
}

/// What the shortest plan costs, if it is told.
fn push_shortest_part(
    alloc: Global,
    text: &mut String,
    shortest: Option<ShortestCost>,
) -> Result<(), AllocError>
    ensures { OnOk result (string_bytes text.new
        ≡ string_bytes text.old ++ shortest_part shortest) }
{
    let Some(cost) = shortest else {
        return Ok(());
    };
    let mut line = String::new(alloc);
    push_shortest(&mut line, cost)?;
    text.push_str("\n")?;
    push_folded(alloc, text, line.as_str())
}

/// The text that tells people why the number of a type is what it is. It has
///
/// - the number, and the cells of the table;
/// - of a type with operations that last, the states by which each process tells which came first;
/// - what the processes of the witness can see, by which each tells which team was first;
/// - why there is no more, if that is known: the rule that says so, if there is one, and for each way
///   that the explanation has, two runs by which a process cannot tell. With no limit and a rule, it
///   has the ways only if all are asked for;
/// - the pairs of operations that do not interfere, if they are few and the witness is for three
///   processes or more;
/// - what the shortest plan costs, if that is given.
///
/// Each line ends with a line feed.
///
/// # Errors
///
/// `AllocError` if memory runs out.
#[tactic(auto, unfolding(crate::specs::Explanation::explanation_text))]
pub fn explanation_of(
    alloc: Global,
    explanation: &Explanation,
    shortest: Option<ShortestCost>,
) -> Result<String, AllocError>
    requires { IsExplanation explanation.now }
    // promise: explanation (explanation_text)
    // promise: why-without-a-limit
    // promise: shortest-cost-by-why (explanation_text: shortest_part)
    ensures { IfOk result (λ text. string_bytes text ≡ explanation_text explanation.now shortest) }
{
    let mut text = String::new(alloc);
    push_number(alloc, &mut text, explanation)?;
    push_reasons(alloc, &mut text, explanation)?;
    push_shortest_part(alloc, &mut text, shortest)?;
    Ok(text)
}
