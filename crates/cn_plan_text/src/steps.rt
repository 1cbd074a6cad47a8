//! The lines of the steps of a schedule.
ghost use Rattle.std.specs.Prelude.{◌≡◌, ◌++◌, string_bytes, IfOk, IfSome, OnOk};
ghost use Rattle.cn_agree.specs.Actions.{AreOfTable, IsOfTable};
ghost use Rattle.cn_plan_text.specs.Steps.{action_text, step_line, step_lines, step_text};

use cn_agree::{Action, StepRecord};
use cn_table::Table;
use std::alloc::{AllocError, Global};

/// Appends an action in words. Its operation, response and state are those of the table.
fn push_action(lines: &mut String, table: &Table, action: Action<u64>) -> Result<(), AllocError>
    requires { IsOfTable table.now action }
    ensures { OnOk result (string_bytes lines.new
        ≡ string_bytes lines.old ++ action_text table.now action) }
{
    match action {
        Action::Write { node, team, value } => {
            let team = team.name();
            write!(lines, "writes {value} to {team} of node {node}")
        }
        Action::Apply {
            node,
            operation,
            response,
            ..
        } => {
            let operation = table.operation_name(operation);
            let response = table.response_name(response);
            write!(lines, "applies {operation} at node {node}: {response}")
        }
        Action::Read { node, state, team } => {
            let state = table.state_name(state);
            let team = team.name();
            write!(lines, "reads {state} at node {node}: team {team}")
        }
        Action::Take { node, team, value } => {
            let team = team.name();
            write!(lines, "takes {value} from {team} of node {node}")
        }
        Action::Decide { value } => write!(lines, "decides {value}"),
    }
}

/// Appends the action of a step in words, or that the process has decided.
pub(crate) fn push_step(
    lines: &mut String,
    table: &Table,
    action: Option<Action<u64>>,
) -> Result<(), AllocError>
    requires { IfSome action (IsOfTable table.now) }
    ensures { OnOk result (string_bytes lines.new
        ≡ string_bytes lines.old ++ step_text table.now action) }
{
    match action {
        Some(action) => push_action(lines, table, action),
        None => lines.push_str("has decided"),
    }
}

/// Appends the line of a step.
fn push_step_line(
    lines: &mut String,
    table: &Table,
    step: StepRecord<u64>,
) -> Result<(), AllocError>
    requires { IfSome step.action (IsOfTable table.now) }
    ensures { OnOk result (string_bytes lines.new
        ≡ string_bytes lines.old ++ step_line table.now step) }
{
    let process = step.process;
    write!(lines, "{process}: ")?;
    push_step(lines, table, step.action)?;
    lines.push_str("\n")
}

/// A line for each step of a schedule, in order. The operations, responses and states of the steps
/// are those of the table. Each line ends with a line feed. The lines are:
///
/// - `P: writes V to T of node N`: process P writes its value V into the register of its team T;
/// - `P: applies O at node N: R`: it applies its operation, and gets the response;
/// - `P: reads S at node N: team T`: it reads the state of the object, and judges that team T was
///   first;
/// - `P: takes V from T of node N`: it takes the value of this team's register, and goes on with
///   it;
/// - `P: decides V`: it takes the value at the last node of its path, and decides it;
/// - `P: has decided`: it has decided before, and does nothing.
///
/// # Errors
///
/// Fails only for want of memory.
pub fn step_lines(
    alloc: Global,
    table: &Table,
    steps: &[StepRecord<u64>],
) -> Result<String, AllocError>
    requires { AreOfTable table.now steps.now }
    // promise: decisions-by-agree
    ensures { IfOk result (λ lines. string_bytes lines ≡ step_lines table.now steps.now) }
{
    let mut lines = String::new(alloc);
    for step in steps {
        push_step_line(&mut lines, table, *step)?;
    }
    Ok(lines)
}
