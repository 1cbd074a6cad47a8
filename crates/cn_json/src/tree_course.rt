//! The steps of a schedule along a plan tree, and the decisions after it, as JSON.
ghost use Rattle.std.specs.Prelude.{◌≡◌, ◌<◌, IfOk, IfSome, length, string_bytes};
ghost use Rattle.serde_json.specs.Written.{compact_text};
ghost use Rattle.cn_tree_rounds.specs.Actions.{AreOfTable, IsOfTable};
ghost use Rattle.cn_json.specs.Tokens.{Appends, value_tokens};
ghost use Rattle.cn_json.specs.TreeCourses.{IsAppliedIn, apply_data, look_data, team_register_data, tree_action_data, tree_course_data, tree_step_data};

use crate::course::{begin_with_decisions, write_idle};
use crate::json_text::JsonText;
use crate::json_text::Primitive::{Byte, Number, Text};
use crate::value::JsonValue;
use cn_table::{Operation, Response, State, Table};
use cn_tree_rounds::{Action, Course, StepRecord};
use std::alloc::{AllocError, Global};

/// Writes that a process writes a value to the register of a team, or takes it from there.
fn write_team_register(
    out: &mut JsonText,
    action: &str,
    node: u8,
    process: u8,
    team: u8,
    value: u64,
) -> Result<(), AllocError>
    ensures { Appends result out.old out.new
        (value_tokens (team_register_data action.now node process team value)) }
{
    out.object(&[
        ("action", Text(action)),
        ("node", Byte(node)),
        ("process", Byte(process)),
        ("team", Byte(team)),
        ("value", Number(value)),
    ])
}

/// An operation that a process applies to the object of a node: the response, and the states before
/// and after it.
#[derive(Clone, Copy)]
pub(crate) struct Applied {
    process: u8,
    node: u8,
    operation: Operation,
    response: Response,
    before: State,
    after: State,
}

/// Writes that a process applies its operation; where it does not look, it judges by the response.
fn write_apply(
    out: &mut JsonText,
    table: &Table,
    applied: Applied,
    judged: Option<u8>,
) -> Result<(), AllocError>
    requires { IsAppliedIn table.now applied }
    ensures { Appends result out.old out.new
        (value_tokens (apply_data table.now applied judged)) }
{
    let (before, after) = (
        table.state_name(applied.before),
        table.state_name(applied.after),
    );
    let done = table.operation_name(applied.operation);
    let given = table.response_name(applied.response);
    match judged {
        Some(judged) => out.object(&[
            ("action", Text("apply")),
            ("after", Text(after)),
            ("before", Text(before)),
            ("judged", Byte(judged)),
            ("node", Byte(applied.node)),
            ("operation", Text(done)),
            ("process", Byte(applied.process)),
            ("response", Text(given)),
        ]),
        None => out.object(&[
            ("action", Text("apply")),
            ("after", Text(after)),
            ("before", Text(before)),
            ("node", Byte(applied.node)),
            ("operation", Text(done)),
            ("process", Byte(applied.process)),
            ("response", Text(given)),
        ]),
    }
}

/// Writes that a process looks by an operation that changes nothing, and judges by the response.
fn write_look(
    out: &mut JsonText,
    table: &Table,
    process: u8,
    node: u8,
    operation: Operation,
    response: Response,
    judged: u8,
) -> Result<(), AllocError>
    requires operation { operation.0 < length table.now.operations }
    requires response { response.0 < length table.now.responses }
    ensures { Appends result out.old out.new
        (value_tokens (look_data table.now process node operation response judged)) }
{
    let (done, given) = (
        table.operation_name(operation),
        table.response_name(response),
    );
    out.object(&[
        ("action", Text("look")),
        ("judged", Byte(judged)),
        ("node", Byte(node)),
        ("operation", Text(done)),
        ("process", Byte(process)),
        ("response", Text(given)),
    ])
}

fn write_tree_action(
    out: &mut JsonText,
    table: &Table,
    process: u8,
    action: Action,
) -> Result<(), AllocError>
    requires { IsOfTable table.now action }
    ensures { Appends result out.old out.new
        (value_tokens (tree_action_data table.now process action)) }
{
    match action {
        Action::Write { node, team, value } => {
            write_team_register(out, "write", node, process, team, value)
        }
        Action::Apply {
            node,
            operation,
            response,
            before,
            after,
            team,
        } => {
            let applied = Applied {
                process,
                node,
                operation,
                response,
                before,
                after,
            };
            write_apply(out, table, applied, team)
        }
        Action::Read { node, state, team } => out.object(&[
            ("action", Text("read")),
            ("judged", Byte(team)),
            ("node", Byte(node)),
            ("process", Byte(process)),
            ("state", Text(table.state_name(state))),
        ]),
        Action::Look {
            node,
            operation,
            response,
            team,
        } => write_look(out, table, process, node, operation, response, team),
        Action::Take { node, team, value } => {
            write_team_register(out, "take", node, process, team, value)
        }
        Action::Decide { value } => out.object(&[
            ("action", Text("decide")),
            ("process", Byte(process)),
            ("value", Number(value)),
        ]),
    }
}

impl JsonValue for StepRecord {
    ghost IsKnown = { λ t step. IfSome step.action (IsOfTable t) };

    ghost json = { tree_step_data };

    fn write(&self, out: &mut JsonText, table: &Table) -> Result<(), AllocError> {
        match self.action {
            Some(action) => write_tree_action(out, table, self.process, action),
            None => write_idle(out, self.process),
        }
    }
}

fn write_tree_course(out: &mut JsonText, table: &Table, course: &Course) -> Result<(), AllocError>
    requires { AreOfTable table.now course.now.records }
    ensures { Appends result out.old out.new
        (value_tokens (tree_course_data table.now course.now)) }
{
    begin_with_decisions(out, &course.decisions)?;
    out.array_at("steps", table, &course.records)?;
    out.end_object()
}

/// The steps of a schedule along a plan tree and the decisions after it, as one compact JSON object:
/// `{"decisions":[..],"steps":[..]}`. The operations, responses and states of the steps are those
/// of the table. The decisions are those of [`decisions_json`](crate::decisions_json). A step has
/// the number of its `process`, and its `action`; teams have numbers at each node:
///
/// - `write` and `take`: the process writes its `value` to the register of its `team` at a `node`,
///   or takes it from there;
/// - `apply`: it applies its `operation` to the object of a `node`, and gets this `response`; where
///   it does not look, it judges by it that the team `judged` came first there;
/// - `read`: it reads the `state` of the object of a `node`, and judges that the team `judged` came
///   first there;
/// - `look`: it applies an `operation` that changes nothing to the object of a `node`, gets this
///   `response`, and judges that the team `judged` came first there;
/// - `decide`: it decides the `value`;
/// - `none`: it has decided before, and does nothing.
///
/// # Errors
///
/// `AllocError` if memory runs out.
pub fn tree_course_json(alloc: Global, table: &Table, course: &Course) -> Result<String, AllocError>
    requires { AreOfTable table.now course.now.records }
    // promise: answers-as-json (tree_course_data: tree_step_data, tree_action_data)
    ensures { IfOk result (λ text. string_bytes text
        ≡ compact_text (tree_course_data table.now course.now)) }
{
    let mut out = JsonText::new(alloc);
    write_tree_course(&mut out, table, course)?;
    Ok(out.finish())
}
