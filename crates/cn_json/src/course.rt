//! The decisions of processes, and the steps of a schedule, as JSON.
ghost use Rattle.std.specs.Prelude.{◌≡◌, ◌∷◌, IfOk, IfSome, codes, string_bytes};
ghost use Rattle.json.specs.Token.{begin_object};
ghost use Rattle.serde_json.specs.Written.{compact_text};
ghost use Rattle.cn_agree.specs.Actions.{AreOfTable, IsOfTable};
ghost use Rattle.cn_json.specs.Course.{action_data, course_data, decision_data, decisions_data, idle_data, register_data, step_data};
ghost use Rattle.cn_json.specs.Tokens.{Appends, list_rest, member_tokens, value_tokens};
ghost use Rattle.cn_json.specs.Values.{list_data};

use crate::json_text::JsonText;
use crate::json_text::Primitive::{Byte, Number, Text};
use crate::value::JsonValue;
use cn_agree::{Action, Course, StepRecord};
use cn_choice::Team;
use cn_table::Table;
use std::alloc::{AllocError, Global};

fn write_decision(out: &mut JsonText, decision: Option<u64>) -> Result<(), AllocError>
    ensures { Appends result out.old out.new (value_tokens (decision_data decision)) }
{
    match decision {
        Some(value) => out.number(value),
        None => out.null(),
    }
}

/// Writes the decisions, and the end of their array.
fn write_each_decision(out: &mut JsonText, decisions: &[Option<u64>]) -> Result<(), AllocError>
    ensures { Appends result out.old out.new (list_rest decision_data decisions.now) }
{
    for decision in decisions {
        write_decision(out, *decision)?;
    }
    out.end_array()
}

/// Writes the beginning of an object: the decisions.
pub(crate) fn begin_with_decisions(
    out: &mut JsonText,
    decisions: &[Option<u64>],
) -> Result<(), AllocError>
    ensures { Appends result out.old out.new (begin_object
        ∷ member_tokens (codes "decisions") (list_data decision_data decisions.now)) }
{
    out.begin_object()?;
    out.begin_array_at("decisions")?;
    write_each_decision(out, decisions)
}

fn write_decisions(out: &mut JsonText, decisions: &[Option<u64>]) -> Result<(), AllocError>
    ensures { Appends result out.old out.new (value_tokens (decisions_data decisions.now)) }
{
    begin_with_decisions(out, decisions)?;
    out.end_object()
}

/// Writes that a process writes a value to the register of a team, or takes it from there.
fn write_register(
    out: &mut JsonText,
    action: &str,
    node: u8,
    process: u8,
    team: Team,
    value: u64,
) -> Result<(), AllocError>
    ensures { Appends result out.old out.new
        (value_tokens (register_data action.now node process team value)) }
{
    out.object(&[
        ("action", Text(action)),
        ("node", Byte(node)),
        ("process", Byte(process)),
        ("team", Text(team.name())),
        ("value", Number(value)),
    ])
}

/// Writes that a process has decided before.
pub(crate) fn write_idle(out: &mut JsonText, process: u8) -> Result<(), AllocError>
    ensures { Appends result out.old out.new (value_tokens (idle_data process)) }
{
    out.object(&[("action", Text("none")), ("process", Byte(process))])
}

pub(crate) fn write_action(
    out: &mut JsonText,
    table: &Table,
    process: u8,
    action: Action<u64>,
) -> Result<(), AllocError>
    requires { IsOfTable table.now action }
    ensures { Appends result out.old out.new
        (value_tokens (action_data table.now process action)) }
{
    match action {
        Action::Write { node, team, value } => {
            write_register(out, "write", node, process, team, value)
        }
        Action::Apply {
            node,
            operation,
            response,
            before,
            after,
        } => out.object(&[
            ("action", Text("apply")),
            ("after", Text(table.state_name(after))),
            ("before", Text(table.state_name(before))),
            ("node", Byte(node)),
            ("operation", Text(table.operation_name(operation))),
            ("process", Byte(process)),
            ("response", Text(table.response_name(response))),
        ]),
        Action::Read { node, state, team } => out.object(&[
            ("action", Text("read")),
            ("judged", Text(team.name())),
            ("node", Byte(node)),
            ("process", Byte(process)),
            ("state", Text(table.state_name(state))),
        ]),
        Action::Take { node, team, value } => {
            write_register(out, "take", node, process, team, value)
        }
        Action::Decide { value } => out.object(&[
            ("action", Text("decide")),
            ("process", Byte(process)),
            ("value", Number(value)),
        ]),
    }
}

impl JsonValue for StepRecord<u64> {
    ghost IsKnown = { λ t step. IfSome step.action (IsOfTable t) };

    ghost json = { step_data };

    fn write(&self, out: &mut JsonText, table: &Table) -> Result<(), AllocError> {
        match self.action {
            Some(action) => write_action(out, table, self.process, action),
            None => write_idle(out, self.process),
        }
    }
}

fn write_course(out: &mut JsonText, table: &Table, course: &Course) -> Result<(), AllocError>
    requires { AreOfTable table.now course.now.records }
    ensures { Appends result out.old out.new (value_tokens (course_data table.now course.now)) }
{
    begin_with_decisions(out, &course.decisions)?;
    out.array_at("steps", table, &course.records)?;
    out.end_object()
}

/// The decisions of processes, as one compact JSON object: `{"decisions":[..]}`, with the value
/// that each process has decided, from process 0 on, or `null`.
///
/// # Errors
///
/// `AllocError` if memory runs out.
pub fn decisions_json(alloc: Global, decisions: &[Option<u64>]) -> Result<String, AllocError>
    // promise: answers-as-json (decisions_data: decision_data)
    // promise: decisions-by-agree
    ensures { IfOk result (λ text. string_bytes text
        ≡ compact_text (decisions_data decisions.now)) }
{
    let mut out = JsonText::new(alloc);
    write_decisions(&mut out, decisions)?;
    Ok(out.finish())
}

/// The steps of a schedule and the decisions after it, as one compact JSON object:
/// `{"decisions":[..],"steps":[..]}`. The operations, responses and states of the steps are those
/// of the table. The decisions are those of [`decisions_json`]. A step has the number of its
/// `process`, and its `action`:
///
/// - `write` and `take`: the process writes its `value` to the register of its `team` at a `node`,
///   or takes it from there;
/// - `apply`: it applies its `operation` to the object of a `node`, and gets this `response`; the
///   object is in the states `before` and `after`;
/// - `read`: it reads the `state` of the object of a `node`, and judges that the team `judged` came
///   first there;
/// - `decide`: it decides the `value`;
/// - `none`: it has decided before, and does nothing.
///
/// # Errors
///
/// `AllocError` if memory runs out.
pub fn course_json(alloc: Global, table: &Table, course: &Course) -> Result<String, AllocError>
    requires { AreOfTable table.now course.now.records }
    // promise: answers-as-json (course_data: step_data, action_data)
    // promise: decisions-by-agree
    ensures { IfOk result (λ text. string_bytes text
        ≡ compact_text (course_data table.now course.now)) }
{
    let mut out = JsonText::new(alloc);
    write_course(&mut out, table, course)?;
    Ok(out.finish())
}
