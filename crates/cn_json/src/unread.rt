//! Why the number of a type without reads is what it is, as JSON.
ghost use Rattle.std.specs.Prelude.{◌≡◌, All, IfOk, codes, string_bytes};
ghost use Rattle.serde_json.specs.Written.{compact_text};
ghost use Rattle.cn_unread_reasons.specs.Known.{IsKnownMerged, IsKnownPlay, IsKnownMost, IsKnownTrap, IsUnreadExplanation};
ghost use Rattle.cn_json.specs.Tokens.{Appends, list_rest, member_tokens, value_tokens};
ghost use Rattle.cn_json.specs.Unread.{end_data, is_with_reads, merged_data, play_data, reason_data, rule_of, telling_data, trap_data, unread_explanation_data};
ghost use Rattle.cn_json.specs.Values.{list_data, option_data, primitive_data};

use crate::explanation::rule_value;
use crate::json_text::JsonText;
use crate::json_text::Primitive::{self, Boolean, Byte, Null, Number, Text};
use crate::numbers::write_bounds;
use crate::value::JsonValue;
use cn_interference::Rule;
use cn_table::Table;
use cn_unread_number::Telling;
use cn_unread_reasons::{MergedState, MostReason, Play, PlayEnd, PlayedTrap, UnreadExplanation};
use std::alloc::{AllocError, Global};

/// The process that gets the same in both runs, or null.
fn end_value<'a>(end: Option<PlayEnd>) -> Primitive<'a>
    ensures { primitive_data result ≡ option_data end_data end }
{
    match end {
        Some(end) => Byte(end.process),
        None => Null,
    }
}

impl JsonValue for Play {
    ghost IsKnown = { IsKnownPlay };

    ghost json = { play_data };

    fn write(&self, out: &mut JsonText, table: &Table) -> Result<(), AllocError> {
        out.begin_object()?;
        out.array_at("a_first", table, &self.a_first)?;
        out.array_at("b_first", table, &self.b_first)?;
        out.member("process", end_value(self.end))?;
        out.processes_of(table, &self.choice)?;
        out.last_members(&[("start", Text(table.state_name(self.choice.start)))])
    }
}

impl JsonValue for PlayedTrap {
    ghost IsKnown = { IsKnownTrap };

    ghost json = { trap_data };

    fn write(&self, out: &mut JsonText, table: &Table) -> Result<(), AllocError> {
        out.begin_object()?;
        out.array_at("choices", table, &self.plays)?;
        out.last_members(&[
            ("count", Number(self.count as u64)),
            ("positions", Number(self.positions as u64)),
            ("processes", Byte(self.processes)),
        ])
    }
}

/// A state of the given table, and the state of the other one that stands for it.
fn write_merged_state(
    out: &mut JsonText,
    given: &Table,
    table: &Table,
    merged: MergedState,
) -> Result<(), AllocError>
    requires { IsKnownMerged given.now table.now merged }
    ensures { Appends result out.old out.new
        (value_tokens (merged_data given.now table.now merged)) }
{
    out.object(&[
        ("class", Text(table.state_name(merged.class))),
        ("state", Text(given.state_name(merged.state))),
    ])
}

/// Writes the states that are merged, and the end of their array.
fn write_each_merged(
    out: &mut JsonText,
    given: &Table,
    table: &Table,
    merged: &[MergedState],
) -> Result<(), AllocError>
    requires { All (IsKnownMerged given.now table.now) merged.now }
    ensures { Appends result out.old out.new
        (list_rest (merged_data given.now table.now) merged.now) }
{
    for state in merged {
        write_merged_state(out, given, table, *state)?;
    }
    out.end_array()
}

fn write_merged(
    out: &mut JsonText,
    given: &Table,
    table: &Table,
    merged: &[MergedState],
) -> Result<(), AllocError>
    requires { All (IsKnownMerged given.now table.now) merged.now }
    ensures { Appends result out.old out.new (member_tokens (codes "merged")
        (list_data (merged_data given.now table.now) merged.now)) }
{
    out.begin_array_at("merged")?;
    write_each_merged(out, given, table, merged)
}

/// Writes the choices that are refuted, or null.
fn write_refuted(out: &mut JsonText, table: &Table, most: &MostReason) -> Result<(), AllocError>
    requires { IsKnownMost table.now most.now }
    ensures { Appends result out.old out.new
        (member_tokens (codes "refuted") (reason_data table.now most.now)) }
{
    out.key("refuted")?;
    match most {
        MostReason::Trap(trap) => trap.write(out, table),
        MostReason::Open | MostReason::EachNumber | MostReason::WithReads { .. } => out.null(),
    }
}

/// The rule by which the operations alone bound the number with reads, where that is the reason.
fn rule_of(most: &MostReason) -> Option<Rule>
    ensures { result ≡ rule_of most.now }
{
    match most {
        MostReason::WithReads { rule } => *rule,
        MostReason::Open | MostReason::EachNumber | MostReason::Trap(_) => None,
    }
}

/// Whether the reason is the number with reads.
fn is_with_reads(most: &MostReason) -> bool
    ensures { result ≡ is_with_reads most.now }
{
    match most {
        MostReason::WithReads { .. } => true,
        MostReason::Open | MostReason::EachNumber | MostReason::Trap(_) => false,
    }
}

/// The word for how the type tells its states, or null.
fn telling_value<'a>(telling: Option<Telling>) -> Primitive<'a>
    ensures { primitive_data result ≡ option_data telling_data telling }
{
    match telling {
        Some(Telling::Responses) => Text("responses"),
        Some(Telling::Looks) => Text("looks"),
        None => Null,
    }
}

fn write_explanation(out: &mut JsonText, explanation: &UnreadExplanation) -> Result<(), AllocError>
    requires { IsUnreadExplanation explanation.now }
    ensures { Appends result out.old out.new
        (value_tokens (unread_explanation_data explanation.now)) }
{
    let (table, most) = (&explanation.table, &explanation.most);
    out.begin_object()?;
    write_merged(out, &explanation.given, table, &explanation.merged)?;
    out.member("name", Text(table.name()))?;
    write_refuted(out, table, most)?;
    out.member("rule", rule_value(rule_of(most)))?;
    out.option_at("signs", table, &explanation.signs)?;
    out.member("telling", telling_value(explanation.telling))?;
    out.member("with_reads", Boolean(is_with_reads(most)))?;
    out.key("without_read")?;
    write_bounds(out, explanation.bounds)?;
    out.option_at("witness", table, &explanation.witness)?;
    out.end_object()
}

/// Why the number of a type without reads is what it is, as one compact JSON object:
///
/// - `merged`: each `state` of the given table for which another one stands, in order, and its
///   `class`, the state of the merged table that stands for it. All else speaks of that table;
/// - `name`: the name of the type;
/// - `refuted`: `null`, or the `choices` for so many `processes` that are told, the `count` of all,
///   and the number of `positions` of the trap. A choice has its `processes`, in order, with their
///   `operation` and `team`; its `start` state; and two runs, `a_first` and `b_first`, that leave one
///   state, with the `process` that gets the same in both. A run has its steps, each with `process`,
///   `operation`, `response` and the `state` after it. Where no such runs are found, these are
///   empty, and the process is `null`.
/// - `rule`: `null`, or the word of the rule by which the operations alone bound the number with
///   reads, where that is why the number is not more;
/// - `signs`: `null`, or the `single` operation and that of `many`, the `start` state, the `further`
///   operations, and the responses to these that are `signs` of the team `side`;
/// - `telling`: `"responses"` or `"looks"`, if these tell the states, or `null`;
/// - `with_reads`: whether the number with reads is why the number is not more;
/// - `without_read`: what is known of the number, as in a [`Classification`](crate::Classification);
/// - `witness`: `null`, or its `start` state; the `looks`, which each process does after its
///   operation; the `follow_ups`, each of a `further` operation behind an `operation` and a
///   `response`; and its `processes`, each with what it can get where a process of team A is first,
///   `a_first`, and where one of team B is, `b_first`: the `response` to its operation, and then the
///   `answers`.
///
/// # Errors
///
/// `AllocError` if memory runs out.
pub fn unread_explanation_json(
    alloc: Global,
    explanation: &UnreadExplanation,
) -> Result<String, AllocError>
    requires { IsUnreadExplanation explanation.now }
    // promise: unread-explanation (unread_explanation_data)
    // promise: answers-as-json (unread_explanation_data: unread_witness_data, signs_data,
    //     reason_data, merged_data, bounds_data)
    ensures { IfOk result (λ text. string_bytes text
        ≡ compact_text (unread_explanation_data explanation.now)) }
{
    let mut out = JsonText::new(alloc);
    write_explanation(&mut out, explanation)?;
    Ok(out.finish())
}
