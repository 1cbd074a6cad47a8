//! The lines of the steps of a schedule along a plan tree.
ghost use Rattle.std.specs.Prelude.{◌≡◌, ◌++◌, string_bytes, IfOk, IfSome, OnOk};
ghost use Rattle.cn_tree_rounds.specs.Actions.{AreOfTable, IsOfTable};
ghost use Rattle.cn_tree_text.specs.Steps.{action_text, apply_text, look_text, step_line, step_lines, step_text, told_text};

use cn_table::Table;
use cn_tree_rounds::{Action, StepRecord};
use std::alloc::{AllocError, Global};

/// Appends the team that a process judges by the response alone, if it does.
fn push_told(lines: &mut String, team: Option<u8>) -> Result<(), AllocError>
    ensures { OnOk result (string_bytes lines.new
        ≡ string_bytes lines.old ++ told_text team) }
{
    match team {
        Some(team) => write!(lines, ", team {team}"),
        None => Ok(()),
    }
}

/// Appends an operation with its response, and the team that this shows.
fn push_apply(
    lines: &mut String,
    operation: &str,
    node: u8,
    response: &str,
    team: Option<u8>,
) -> Result<(), AllocError>
    ensures { OnOk result (string_bytes lines.new
        ≡ string_bytes lines.old ++ apply_text operation.now node response.now team) }
{
    write!(lines, "applies {operation} at node {node}: {response}")?;
    push_told(lines, team)
}

/// Appends a look by an operation, with the response, and the team that the process judges.
fn push_look(
    lines: &mut String,
    operation: &str,
    node: u8,
    response: &str,
    team: u8,
) -> Result<(), AllocError>
    ensures { OnOk result (string_bytes lines.new
        ≡ string_bytes lines.old ++ look_text operation.now node response.now team) }
{
    write!(
        lines,
        "looks by {operation} at node {node}: {response}, team {team}"
    )
}

/// Appends an action in words. Its operation, response and state are those of the table.
fn push_action(lines: &mut String, table: &Table, action: Action) -> Result<(), AllocError>
    requires { IsOfTable table.now action }
    ensures { OnOk result (string_bytes lines.new
        ≡ string_bytes lines.old ++ action_text table.now action) }
{
    match action {
        Action::Write { node, team, value } => {
            write!(lines, "writes {value} to team {team} of node {node}")
        }
        Action::Apply {
            node,
            operation,
            response,
            team,
            ..
        } => {
            let operation = table.operation_name(operation);
            push_apply(lines, operation, node, table.response_name(response), team)
        }
        Action::Read { node, state, team } => {
            let state = table.state_name(state);
            write!(lines, "reads {state} at node {node}: team {team}")
        }
        Action::Look {
            node,
            operation,
            response,
            team,
        } => {
            let operation = table.operation_name(operation);
            push_look(lines, operation, node, table.response_name(response), team)
        }
        Action::Take { node, team, value } => {
            write!(lines, "takes {value} from team {team} of node {node}")
        }
        Action::Decide { value } => write!(lines, "decides {value}"),
    }
}

/// Appends the action of a step in words, or that the process has decided.
fn push_step(lines: &mut String, table: &Table, action: Option<Action>) -> Result<(), AllocError>
    requires { IfSome action (IsOfTable table.now) }
    ensures { OnOk result (string_bytes lines.new
        ≡ string_bytes lines.old ++ step_text table.now action) }
{
    match action {
        Some(action) => push_action(lines, table, action),
        None => lines.push_str("has decided"),
    }
}

/// Appends the line of a step.
fn push_step_line(lines: &mut String, table: &Table, step: StepRecord) -> Result<(), AllocError>
    requires { IfSome step.action (IsOfTable table.now) }
    ensures { OnOk result (string_bytes lines.new
        ≡ string_bytes lines.old ++ step_line table.now step) }
{
    let process = step.process;
    write!(lines, "{process}: ")?;
    push_step(lines, table, step.action)?;
    lines.push_str("\n")
}

/// A line for each step of a schedule, in order. The operations, responses and states of the steps
/// are those of the table. Each line ends with a line feed. The lines are:
///
/// - `P: writes V to team g of node N`: process P writes its value V into the register of its team;
/// - `P: applies O at node N: R`: it applies its operation, and gets the response;
/// - `P: applies O at node N: R, team g`: the same where it does not look: it judges by the response
///   that team g came first;
/// - `P: reads S at node N: team g`: it reads the state of the object, and judges that team g came
///   first;
/// - `P: looks by O at node N: R, team g`: it does the operation O, which changes nothing, gets this
///   response, and judges that team g came first;
/// - `P: takes V from team g of node N`: it takes the value of this team's register, and goes on
///   with it;
/// - `P: decides V`: it takes the value at the last node of its path, and decides it;
/// - `P: has decided`: it has decided before, and does nothing.
///
/// # Errors
///
/// Fails only for want of memory.
pub fn step_lines(alloc: Global, table: &Table, steps: &[StepRecord]) -> Result<String, AllocError>
    requires { AreOfTable table.now steps.now }
    // promise: forms-of-a-plan-tree (step_lines)
    ensures { IfOk result (λ lines. string_bytes lines ≡ step_lines table.now steps.now) }
{
    let mut lines = String::new(alloc);
    for step in steps {
        push_step_line(&mut lines, table, *step)?;
    }
    Ok(lines)
}
