//! Why the number of a type is what it is, in Markdown.
ghost use Rattle.std.specs.Prelude.{◌≡◌, ◌++◌, [], IfOk, IfSome, OnOk, false, string_bytes};
ghost use Rattle.cn_reasons.specs.Explanation.{IsExplanation};
ghost use Rattle.cn_reasons.specs.Known.{IsKnownLasting};
ghost use Rattle.cn_sentences.specs.Numbers.{number_words};
ghost use Rattle.cn_markdown.specs.Explanation.{bound, choices_line, choices_words, explanation_markdown, no_list_line, no_more, not_refuted, reason, refuted, rule_line, rule_start, shortest_part, start};
ghost use Rattle.cn_markdown.specs.Numbers.{numbers_head};

use crate::lasting::push_lasting_table;
use crate::numbers::{head_of, number_row};
use crate::type_table::push_type_table;
use crate::witness::push_witness;
use cn_interference::Rule;
use cn_pieces::push_pieces;
use cn_reasons::{Explanation, Refutation, TypeNumber, Way};
use cn_search::ConsensusNumber;
use cn_sentences::{ShortestCost, number_words, push_limit_line, push_shortest};
use cn_table::Table;
use std::alloc::{AllocError, Global};

/// A table with the type and its number, and the table of the type.
#[tactic(auto, unfolding(crate::specs::Explanation::start))]
pub(crate) fn push_start(
    alloc: Global,
    text: &mut String,
    head: &str,
    table: &Table,
    words: &str,
) -> Result<(), AllocError>
    ensures { OnOk result (string_bytes text.new
        ≡ string_bytes text.old ++ start head.now table.now words.now) }
{
    let row = number_row(alloc, table, words, None, None)?;
    push_pieces(text, &[head, row.as_str(), "\n"])?;
    push_type_table(text, table)?;
    text.push_str("\n")
}

/// The table with the number.
fn push_number(
    alloc: Global,
    text: &mut String,
    explanation: &Explanation,
) -> Result<(), AllocError>
    ensures { OnOk result (string_bytes text.new ≡ string_bytes text.old
        ++ start (numbers_head false false) explanation.now.table
        (number_words [] explanation.now.number)) }
{
    let words = number_words(alloc, "", explanation.number)?;
    push_start(
        alloc,
        text,
        head_of(false, false),
        &explanation.table,
        words.as_str(),
    )
}

fn rule_start(rule: Rule) -> &'static str
    ensures { result.now ≡ rule_start rule }
{
    match rule {
        Rule::InterferenceWithoutAnswers => {
            "No operation answers, and in every state any two commute, or one wipes out the other"
        }
        Rule::HiddenOperations => {
            "Of any two operations, in every state, one tells nothing of the other"
        }
        Rule::TwoStates => "With two states any two operations commute, or one wipes out the other",
        Rule::Interference =>
            "In every state any two operations commute, or one wipes out the other",
    }
}

#[tactic(auto, unfolding(crate::specs::Explanation::rule_line))]
pub(crate) fn push_rule_line(text: &mut String, rule: Rule) -> Result<(), AllocError>
    ensures { OnOk result (string_bytes text.new ≡ string_bytes text.old ++ rule_line rule) }
{
    let (start, most) = (rule_start(rule), rule.most());
    write!(text, "{start}, so the number is at most {most}.\n")
}

fn push_choices_words(text: &mut String, blind: &str, count: usize) -> Result<(), AllocError>
    ensures { OnOk result (string_bytes text.new
        ≡ string_bytes text.old ++ choices_words blind.now count) }
{
    match count {
        0 => text.push_str("no choice of a start state, operations and teams is left.\n"),
        1 => push_pieces(
            text,
            &[
                "in the 1 choice of a start state, operations and teams, ",
                blind,
                ".\n",
            ],
        ),
        _ => write!(
            text,
            "in each of the {count} choices of a start state, operations and teams, {blind}.\n"
        ),
    }
}

/// The choices for so many processes, with what cannot tell in each of them.
#[tactic(auto, unfolding(crate::specs::Explanation::choices_line))]
pub(crate) fn push_choices_line(
    text: &mut String,
    blind: &str,
    n: u8,
    count: usize,
) -> Result<(), AllocError>
    ensures { OnOk result (string_bytes text.new
        ≡ string_bytes text.old ++ choices_line blind.now n count) }
{
    write!(text, "{n} processes: ")?;
    push_choices_words(text, blind, count)
}

/// That the choices for so many processes are not listed.
#[tactic(auto, unfolding(crate::specs::Explanation::no_list_line))]
pub(crate) fn push_no_list_line(text: &mut String, n: u16) -> Result<(), AllocError>
    ensures { OnOk result (string_bytes text.new ≡ string_bytes text.old ++ no_list_line n) }
{
    write!(text, "{n} processes: the choices are not listed here.\n")
}

/// With no refutation: that the choices are not listed, or that no more processes were looked for.
fn push_not_refuted(text: &mut String, number: TypeNumber, limit: u8) -> Result<(), AllocError>
    ensures { OnOk result (string_bytes text.new
        ≡ string_bytes text.old ++ not_refuted number limit) }
{
    match number {
        TypeNumber::Exact(ConsensusNumber::Finite(n)) => push_no_list_line(text, n as u16 + 1),
        TypeNumber::Exact(ConsensusNumber::Infinite) => Ok(()),
        TypeNumber::UpTo(_, _) => push_limit_line(text, limit),
    }
}

/// The refutation, where the number is the one that it bounds.
fn push_refuted(
    text: &mut String,
    number: TypeNumber,
    limit: u8,
    refutation: &Refutation<Way>,
) -> Result<(), AllocError>
    ensures { OnOk result (string_bytes text.new
        ≡ string_bytes text.old ++ refuted number limit refutation.now) }
{
    let (n, count) = (refutation.processes, refutation.count);
    match number {
        TypeNumber::Exact(ConsensusNumber::Infinite) => Ok(()),
        TypeNumber::Exact(ConsensusNumber::Finite(_)) | TypeNumber::UpTo(_, _) => {
            push_choices_line(text, "a process cannot tell", n, count)
        }
    }
}

fn push_no_more(
    text: &mut String,
    number: TypeNumber,
    limit: u8,
    refutation: &Option<Refutation<Way>>,
) -> Result<(), AllocError>
    ensures { OnOk result (string_bytes text.new
        ≡ string_bytes text.old ++ no_more number limit refutation.now) }
{
    match refutation {
        Some(refutation) => push_refuted(text, number, limit, refutation),
        None => push_not_refuted(text, number, limit),
    }
}

/// The rule, or else what is refuted.
fn push_bound(text: &mut String, explanation: &Explanation) -> Result<(), AllocError>
    ensures { OnOk result (string_bytes text.new ≡ string_bytes text.old
        ++ bound explanation.now explanation.now.rule) }
{
    match explanation.rule {
        Some(rule) => push_rule_line(text, rule),
        None => {
            let (number, limit) = (explanation.number, explanation.limit);
            push_no_more(text, number, limit, &explanation.refutation)
        }
    }
}

/// Why the number is no more, or why there is no greatest one.
fn push_reason(text: &mut String, explanation: &Explanation) -> Result<(), AllocError>
    requires { IfSome explanation.now.lasting (IsKnownLasting explanation.now.table) }
    ensures { OnOk result (string_bytes text.new ≡ string_bytes text.old
        ++ reason explanation.now explanation.now.lasting) }
{
    match &explanation.lasting {
        Some(lasting) => push_lasting_table(text, &explanation.table, lasting),
        None => push_bound(text, explanation),
    }
}

/// What the shortest plan costs, if it is told.
fn push_shortest_part(text: &mut String, shortest: Option<ShortestCost>) -> Result<(), AllocError>
    ensures { OnOk result (string_bytes text.new
        ≡ string_bytes text.old ++ shortest_part shortest) }
{
    let Some(cost) = shortest else {
        return Ok(());
    };
    text.push_str("\n")?;
    push_shortest(text, cost)
}

/// Why the number of a type is what it is, in Markdown: a table with the type and its number, the
/// table of the type, the witness with what its processes can see, and why the number is no more.
/// That is one of these:
///
/// - two operations that last, with the states that each leaves;
/// - the rule by which the operations alone bound the number;
/// - the number of choices for one process more, in each of which a process cannot tell.
///
/// Each group of processes of the witness has one row. What the shortest plan costs comes last, if it
/// is given. Each line ends with a line feed.
///
/// # Errors
///
/// `AllocError` if memory runs out.
#[tactic(auto, unfolding(crate::specs::Explanation::explanation_markdown))]
pub fn explanation_markdown(
    alloc: Global,
    explanation: &Explanation,
    shortest: Option<ShortestCost>,
) -> Result<String, AllocError>
    requires { IsExplanation explanation.now }
    // promise: texts-of-numbers (explanation_markdown)
    // promise: why-without-a-limit
    // promise: shortest-cost-by-why (explanation_markdown: shortest_part)
    ensures { IfOk result (λ text. string_bytes text
        ≡ explanation_markdown explanation.now shortest) }
{
    let mut text = String::new(alloc);
    push_number(alloc, &mut text, explanation)?;
    push_witness(&mut text, &explanation.table, &explanation.witness)?;
    text.push_str("\n")?;
    push_reason(&mut text, explanation)?;
    push_shortest_part(&mut text, shortest)?;
    Ok(text)
}
