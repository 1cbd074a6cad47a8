//! The lines of the events of a schedule of steps and crashes.
ghost use Rattle.std.specs.Prelude.{◌≡◌, ◌++◌, string_bytes, IfOk, OnOk};
ghost use Rattle.cn_lives.specs.Courses.{AreOfTable, IsOfTable};
ghost use Rattle.cn_plan_text.specs.Lives.{life_action_text, life_step_line, life_step_lines};

use crate::steps::push_step;
use cn_lives::{LifeAction, LifeRecord};
use cn_table::Table;
use std::alloc::{AllocError, Global};

/// Appends what a process does, in words.
fn push_life_action(lines: &mut String, table: &Table, action: LifeAction) -> Result<(), AllocError>
    requires { IsOfTable table.now action }
    ensures { OnOk result (string_bytes lines.new
        ≡ string_bytes lines.old ++ life_action_text table.now action) }
{
    match action {
        LifeAction::Common(action) => push_step(lines, table, Some(action)),
        LifeAction::ReadStart { node, state } => {
            let state = table.state_name(state);
            write!(lines, "reads {state} at node {node}: start state")
        }
        LifeAction::ReadEmpty { node, team } => {
            let team = team.name();
            write!(lines, "finds nothing in {team} of node {node}")
        }
        LifeAction::HasDecided => push_step(lines, table, None),
        LifeAction::Crash { .. } => lines.push_str("crashes"),
    }
}

/// Appends the line of an event.
fn push_life_line(lines: &mut String, table: &Table, event: LifeRecord) -> Result<(), AllocError>
    requires { IsOfTable table.now event.action }
    ensures { OnOk result (string_bytes lines.new
        ≡ string_bytes lines.old ++ life_step_line table.now event) }
{
    let process = event.process;
    write!(lines, "{process}: ")?;
    push_life_action(lines, table, event.action)?;
    lines.push_str("\n")
}

/// A line for each event of a schedule of steps and crashes, in order. The operations, responses
/// and states of the steps are those of the table. Each line ends with a line feed. The lines are
/// those of [`crate::step_lines`], and these:
///
/// - `P: reads S at node N: start state`: process P reads the object of node N before its
///   operation, and finds it in the start state;
/// - `P: finds nothing in T of node N`: it reads the register of team T, which is empty;
/// - `P: crashes`: it loses its local state, and begins again with its input.
///
/// # Errors
///
/// Fails only for want of memory.
pub fn life_step_lines(
    alloc: Global,
    table: &Table,
    events: &[LifeRecord],
) -> Result<String, AllocError>
    requires { AreOfTable table.now events.now }
    // promise: life-step-lines (life_step_line, life_action_text: action_text)
    ensures { IfOk result (λ lines. string_bytes lines ≡ life_step_lines table.now events.now) }
{
    let mut lines = String::new(alloc);
    for event in events {
        push_life_line(&mut lines, table, *event)?;
    }
    Ok(lines)
}
