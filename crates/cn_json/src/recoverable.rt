//! Why the recoverable number of a type is what it is, as JSON.
ghost use Rattle.std.specs.Prelude.{◌≡◌, IfOk, string_bytes};
ghost use Rattle.serde_json.specs.Written.{compact_text};
ghost use Rattle.cn_reasons.specs.Known.{IsKnownRecording, IsKnownRecoverableWay, IsKnownRefutation};
ghost use Rattle.cn_reasons.specs.Recoverable.{IsRecoverableExplanation};
ghost use Rattle.cn_json.specs.Recoverable.{recording_data, recoverable_data, refutation_data, refuted_data, start_team_data};
ghost use Rattle.cn_json.specs.Tokens.{Appends, value_tokens};
ghost use Rattle.cn_json.specs.Values.{option_data, primitive_data};

use crate::json_text::JsonText;
use crate::json_text::Primitive::{self, Null, Number, Text};
use crate::numbers::write_exact;
use crate::value::JsonValue;
use cn_reasons::{Reader, RecordingWitness, RecoverableExplanation, RecoverableWay, Refutation};
use cn_table::Table;
use std::alloc::{AllocError, Global};

impl JsonValue for RecoverableWay {
    ghost IsKnown = { IsKnownRecoverableWay };

    ghost json = { refuted_data };

    fn write(&self, out: &mut JsonText, table: &Table) -> Result<(), AllocError> {
        out.begin_object()?;
        out.array_at("a_first", table, &self.runs.a_first)?;
        out.array_at("b_first", table, &self.runs.b_first)?;
        out.processes_of(table, &self.choice)?;
        out.last_members(&[
            ("start", Text(table.state_name(self.choice.start))),
            ("state", Text(table.state_name(self.state))),
        ])
    }
}

impl JsonValue for Refutation<RecoverableWay> {
    ghost IsKnown = { λ t. IsKnownRefutation (IsKnownRecoverableWay t) };

    ghost json = { refutation_data };

    fn write(&self, out: &mut JsonText, table: &Table) -> Result<(), AllocError> {
        out.begin_object()?;
        out.array_at("choices", table, &self.ways)?;
        out.last_members(&[("count", Number(self.count as u64))])
    }
}

/// The team whose orders also leave the start state, or null.
fn start_team<'a>(reader: Option<Reader>) -> Primitive<'a>
    ensures { primitive_data result ≡ option_data start_team_data reader }
{
    match reader {
        Some(reader) => Text(reader.other.name()),
        None => Null,
    }
}

impl JsonValue for RecordingWitness {
    ghost IsKnown = { IsKnownRecording };

    ghost json = { recording_data };

    fn write(&self, out: &mut JsonText, table: &Table) -> Result<(), AllocError> {
        out.begin_object()?;
        out.array_at("a_states", table, &self.a_states)?;
        out.array_at("b_states", table, &self.b_states)?;
        out.processes_of(table, &self.choice)?;
        out.member("start", Text(table.state_name(self.choice.start)))?;
        out.member("start_team", start_team(self.reader))?;
        out.end_object()
    }
}

fn write_explanation(
    out: &mut JsonText,
    explanation: &RecoverableExplanation,
) -> Result<(), AllocError>
    requires { IsRecoverableExplanation explanation.now }
    ensures { Appends result out.old out.new (value_tokens (recoverable_data explanation.now)) }
{
    let table = &explanation.table;
    out.begin_object()?;
    out.member("name", Text(table.name()))?;
    out.key("number")?;
    write_exact(out, explanation.number)?;
    out.option_at("refuted", table, &explanation.refutation)?;
    out.option_at("witness", table, &explanation.witness)?;
    out.end_object()
}

/// Why the recoverable number of a type is what it is, as one compact JSON object:
///
/// - `name` and `number`: the name of the type, and its recoverable number with no limit;
/// - `refuted`: `null`, or the `choices` for one process more that are told, and the `count` of all.
///   A choice has its `processes`, in order, with their `operation` and `team`; its `start` state;
///   and two runs, `a_first` and `b_first`, that leave the same `state`. A run has its steps, each
///   with `process`, `operation`, `response` and the `state` after it, and none if no process moves.
/// - `witness`: `null`, or its `processes` and its `start` state, the states that are left where a
///   process of team A is first, `a_states`, and where one of team B is, `b_states`, and the team
///   whose orders also leave the start state, `start_team`, or `null`.
///
/// # Errors
///
/// `AllocError` if memory runs out.
pub fn recoverable_explanation_json(
    alloc: Global,
    explanation: &RecoverableExplanation,
) -> Result<String, AllocError>
    requires { IsRecoverableExplanation explanation.now }
    // promise: recoverable-explanation (recoverable_data)
    // promise: answers-as-json (recoverable_data: recording_data, refuted_data, exact_data)
    ensures { IfOk result (λ text. string_bytes text
        ≡ compact_text (recoverable_data explanation.now)) }
{
    let mut out = JsonText::new(alloc);
    write_explanation(&mut out, explanation)?;
    Ok(out.finish())
}
