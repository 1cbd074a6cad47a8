//! What happened in a log as JSON: its calls, its entries and its events.
ghost use Rattle.std.specs.Prelude.{◌≡◌, ◌<◌, ◌∷◌, All, IfOk, IfSome, codes, length, string_bytes};
ghost use Rattle.json.specs.Token.{begin_object};
ghost use Rattle.serde_json.specs.Written.{compact_text};
ghost use Rattle.cn_log.specs.CallEnds.{EndsWithResponse};
ghost use Rattle.cn_log.specs.Linearized.{entry_slots};
ghost use Rattle.cn_log.specs.Log.{entries};
ghost use Rattle.cn_log.specs.Opening.{setting};
ghost use Rattle.cn_json.specs.Log.{answer_data, entries_list, event_data, event_text, log_data, placed_data, service_data, unanswered_data, HaveResponses};
ghost use Rattle.cn_json.specs.Tokens.{Appends, list_rest, member_tokens, value_tokens, values_rest};
ghost use Rattle.cn_json.specs.Values.{list_data};

use crate::json_text::JsonText;
use crate::json_text::Primitive::{Byte, Number, Text};
use crate::value::JsonValue;
use cn_log::{CallEnd, Entry, Event, LogCore};
use cn_table::{Response, State, Table};
use std::alloc::{AllocError, Global};

/// How a call of a process ended.
#[derive(Clone, Copy, Debug)]
pub struct AnswerOf {
    /// The process, from 0.
    pub process: u8,
    /// How its call ended, or none if it was stopped before its end.
    pub end: Option<CallEnd>,
}

/// Writes a call with no response.
fn write_unanswered(out: &mut JsonText, end: &str, process: u8) -> Result<(), AllocError>
    ensures { Appends result out.old out.new (value_tokens (unanswered_data end.now process)) }
{
    out.object(&[("end", Text(end)), ("process", Byte(process))])
}

impl JsonValue for AnswerOf {
    ghost IsKnown = { λ t answer. IfSome answer.end (EndsWithResponse t) };

    ghost json = { answer_data };

    fn write(&self, out: &mut JsonText, table: &Table) -> Result<(), AllocError> {
        let process = self.process;
        match self.end {
            Some(CallEnd::Answered(reply)) => out.object(&[
                ("end", Text("answered")),
                ("process", Byte(process)),
                ("response", Text(table.response_name(reply.response))),
                ("slot", Number(u64::from(reply.slot))),
            ]),
            Some(CallEnd::Full) => write_unanswered(out, "full", process),
            None => write_unanswered(out, "stopped", process),
        }
    }
}

/// Writes an entry in a slot, with the response of the object and the state after it.
fn write_entry(
    out: &mut JsonText,
    object: &Table,
    slot: u16,
    entry: Entry,
    given: (Response, State),
) -> Result<(), AllocError>
    requires operation { entry.operation.0 < length object.now.operations }
    requires response { given.0.0 < length object.now.responses }
    requires state { given.1.0 < length object.now.states }
    ensures { Appends result out.old out.new
        (value_tokens (placed_data object.now slot entry (given.0.0, given.1.0))) }
{
    out.object(&[
        ("operation", Text(object.operation_name(entry.operation))),
        ("process", Byte(entry.process)),
        ("response", Text(object.response_name(given.0))),
        ("slot", Number(u64::from(slot))),
        ("state", Text(object.state_name(given.1))),
    ])
}

/// Writes the entries, and the end of their array.
fn write_each_entry(
    out: &mut JsonText,
    object: &Table,
    start: State,
    core: &LogCore,
) -> Result<(), AllocError>
    requires start { start.0 < length object.now.states }
    requires known { All (λ e. e.operation.0 < length object.now.operations)
        (entries (setting core.now) core.now.schedule) }
    ensures { Appends result out.old out.new
        (values_rest (entries_list object.now start.0
        (entries (setting core.now) core.now.schedule)
        (entry_slots (setting core.now) core.now.schedule))) }
{
    let mut state = start;
    for (place, entry) in core.entries().iter().enumerate() {
        let slot = core.slot_at(place);
        let given = object.apply(entry.operation, state);
        write_entry(out, object, slot, *entry, given)?;
        state = given.1;
    }
    out.end_array()
}

/// The text of an event, in the form in which lists of events are read.
fn event_text(alloc: Global, event: Event) -> Result<String, AllocError>
    ensures { IfOk result (λ text. string_bytes text ≡ event_text event) }
{
    match event {
        Event::Invoke(process, operation) => format!(in alloc; "i{process}:{operation}"),
        Event::Step(process) => format!(in alloc; "s{process}"),
    }
}

fn write_event(alloc: Global, out: &mut JsonText, event: Event) -> Result<(), AllocError>
    ensures { Appends result out.old out.new (value_tokens (event_data event)) }
{
    let text = event_text(alloc, event)?;
    out.text(text.as_str())
}

/// Writes the events, and the end of their array.
fn write_each_event(alloc: Global, out: &mut JsonText, events: &[Event]) -> Result<(), AllocError>
    ensures { Appends result out.old out.new (list_rest event_data events.now) }
{
    for event in events {
        write_event(alloc, out, *event)?;
    }
    out.end_array()
}

/// Writes the beginning of an object: the calls that ended.
fn begin_with_answers(
    out: &mut JsonText,
    object: &Table,
    answers: &[AnswerOf],
) -> Result<(), AllocError>
    requires { HaveResponses object.now answers.now }
    ensures { Appends result out.old out.new (begin_object
        ∷ member_tokens (codes "answers") (list_data (answer_data object.now) answers.now)) }
{
    out.begin_object()?;
    out.array_at("answers", object, answers)
}

fn write_log(
    out: &mut JsonText,
    object: &Table,
    start: State,
    core: &LogCore,
    answers: &[AnswerOf],
) -> Result<(), AllocError>
    requires start { start.0 < length object.now.states }
    requires known { All (λ e. e.operation.0 < length object.now.operations)
        (entries (setting core.now) core.now.schedule) }
    requires answers { HaveResponses object.now answers.now }
    ensures { Appends result out.old out.new
        (value_tokens (log_data object.now start.0 answers.now
        (entries (setting core.now) core.now.schedule)
        (entry_slots (setting core.now) core.now.schedule))) }
{
    begin_with_answers(out, object, answers)?;
    out.begin_array_at("entries")?;
    write_each_entry(out, object, start, core)?;
    out.end_object()
}

fn write_service(
    alloc: Global,
    out: &mut JsonText,
    object: &Table,
    start: State,
    core: &LogCore,
    answers: &[AnswerOf],
) -> Result<(), AllocError>
    requires start { start.0 < length object.now.states }
    requires known { All (λ e. e.operation.0 < length object.now.operations)
        (entries (setting core.now) core.now.schedule) }
    requires answers { HaveResponses object.now answers.now }
    ensures { Appends result out.old out.new
        (value_tokens (service_data object.now start.0 answers.now
        (entries (setting core.now) core.now.schedule)
        (entry_slots (setting core.now) core.now.schedule) core.now.schedule)) }
{
    begin_with_answers(out, object, answers)?;
    out.begin_array_at("entries")?;
    write_each_entry(out, object, start, core)?;
    out.begin_array_at("events")?;
    write_each_event(alloc, out, core.schedule())?;
    out.end_object()
}

/// What happened in a log, as one compact JSON object: `{"answers":[..],"entries":[..]}`.
///
/// An answer has `end` and `process`. The end is `answered`, with the name of the `response` and
/// the `slot` of the call; `full`, if no slot is left; or `stopped`. An entry has its `slot`, its
/// `process`, and the names of its `operation`, of the object's `response`, and of its `state`
/// afterwards: the entries are one sequential run of the object from the start state. The start
/// state is one of the object's states, each entry's operation is one of its operations, and each
/// response is one of its responses.
///
/// # Errors
///
/// `AllocError` if memory runs out.
pub fn log_json(
    alloc: Global,
    object: &Table,
    start: State,
    core: &LogCore,
    answers: &[AnswerOf],
) -> Result<String, AllocError>
    requires start { start.0 < length object.now.states }
    requires known { All (λ e. e.operation.0 < length object.now.operations)
        (entries (setting core.now) core.now.schedule) }
    requires answers { HaveResponses object.now answers.now }
    // promise: answers-as-json (log_data: answer_data, entries_list)
    // promise: log-by-replay
    ensures { IfOk result (λ text. string_bytes text
        ≡ compact_text (log_data object.now start.0 answers.now
        (entries (setting core.now) core.now.schedule)
        (entry_slots (setting core.now) core.now.schedule))) }
{
    let mut out = JsonText::new(alloc);
    write_log(&mut out, object, start, core, answers)?;
    Ok(out.finish())
}

/// What happened in a log, with its events: `{"answers":[..],"entries":[..],"events":[..]}`. The
/// first two are those of [`log_json`]. An event is a text, in the form in which lists of events
/// are read: `iP:O` for a call of operation O by process P, and `sP` for a step of P.
///
/// # Errors
///
/// `AllocError` if memory runs out.
pub fn service_json(
    alloc: Global,
    object: &Table,
    start: State,
    core: &LogCore,
    answers: &[AnswerOf],
) -> Result<String, AllocError>
    requires start { start.0 < length object.now.states }
    requires known { All (λ e. e.operation.0 < length object.now.operations)
        (entries (setting core.now) core.now.schedule) }
    requires answers { HaveResponses object.now answers.now }
    // promise: answers-as-json (service_data: event_data)
    // promise: log-by-serve
    ensures { IfOk result (λ text. string_bytes text
        ≡ compact_text (service_data object.now start.0 answers.now
        (entries (setting core.now) core.now.schedule)
        (entry_slots (setting core.now) core.now.schedule) core.now.schedule)) }
{
    let mut out = JsonText::new(alloc);
    write_service(alloc, &mut out, object, start, core, answers)?;
    Ok(out.finish())
}
