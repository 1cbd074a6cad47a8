//! The steps and crashes of processes that crash and come back, as JSON.
ghost use Rattle.std.specs.Prelude.{◌≡◌, IfOk, string_bytes};
ghost use Rattle.serde_json.specs.Written.{compact_text};
ghost use Rattle.cn_lives.specs.Courses.{AreOfTable, IsOfTable};
ghost use Rattle.cn_json.specs.Lives.{crash_data, life_course_data, life_step_data, memory_data};
ghost use Rattle.cn_json.specs.Tokens.{Appends, value_tokens};

use crate::course::{begin_with_decisions, write_action, write_idle};
use crate::json_text::JsonText;
use crate::json_text::Primitive::{Byte, Null, Number, Text};
use crate::value::JsonValue;
use cn_lives::{LifeAction, LifeCourse, LifeRecord, Memory};
use cn_table::Table;
use std::alloc::{AllocError, Global};

fn write_memory(out: &mut JsonText, memory: Memory) -> Result<(), AllocError>
    ensures { Appends result out.old out.new (value_tokens (memory_data memory)) }
{
    match memory {
        Memory::Value { node, value } => {
            out.object(&[("node", Byte(node)), ("value", Number(value))])
        }
        Memory::Decision { value } => out.object(&[("decision", Number(value))]),
    }
}

/// Writes that a process crashes, and what it forgets.
fn write_crash(out: &mut JsonText, process: u8, forgets: Memory) -> Result<(), AllocError>
    ensures { Appends result out.old out.new (value_tokens (crash_data process forgets)) }
{
    out.begin_object()?;
    out.member("action", Text("crash"))?;
    out.key("forgets")?;
    write_memory(out, forgets)?;
    out.last_members(&[("process", Byte(process))])
}

impl JsonValue for LifeRecord {
    ghost IsKnown = { λ t event. IsOfTable t event.action };

    ghost json = { life_step_data };

    fn write(&self, out: &mut JsonText, table: &Table) -> Result<(), AllocError> {
        let process = self.process;
        match self.action {
            LifeAction::Common(action) => write_action(out, table, process, action),
            LifeAction::ReadStart { node, state } => out.object(&[
                ("action", Text("read")),
                ("judged", Null),
                ("node", Byte(node)),
                ("process", Byte(process)),
                ("state", Text(table.state_name(state))),
            ]),
            LifeAction::ReadEmpty { node, team } => out.object(&[
                ("action", Text("take")),
                ("node", Byte(node)),
                ("process", Byte(process)),
                ("team", Text(team.name())),
                ("value", Null),
            ]),
            LifeAction::HasDecided => write_idle(out, process),
            LifeAction::Crash { forgets } => write_crash(out, process, forgets),
        }
    }
}

fn write_life_course(
    out: &mut JsonText,
    table: &Table,
    course: &LifeCourse,
) -> Result<(), AllocError>
    requires { AreOfTable table.now course.now.records }
    ensures { Appends result out.old out.new
        (value_tokens (life_course_data table.now course.now)) }
{
    begin_with_decisions(out, &course.decisions)?;
    out.array_at("steps", table, &course.records)?;
    out.end_object()
}

/// The events of a schedule of steps and crashes and the decisions after it, as one compact JSON
/// object: `{"decisions":[..],"steps":[..]}`, as [`course_json`](crate::course_json) writes it. The
/// operations, responses and states of the steps are those of the table. Beside the actions of
/// [`course_json`](crate::course_json) there are these:
///
/// - `crash`: the process crashes, and begins again with its input. It `forgets` the `value` with
///   which it is at a `node`, or its `decision`;
/// - `read` with `judged` null: before its operation the process reads the `state` of the object of
///   a `node`, which is the start state;
/// - `take` with `value` null: it reads the register of a `team` at a `node`, which is empty.
///
/// # Errors
///
/// `AllocError` if memory runs out.
pub fn life_course_json(
    alloc: Global,
    table: &Table,
    course: &LifeCourse,
) -> Result<String, AllocError>
    requires { AreOfTable table.now course.now.records }
    // promise: answers-as-json (life_course_data: life_step_data, life_action_data)
    ensures { IfOk result (λ text. string_bytes text
        ≡ compact_text (life_course_data table.now course.now)) }
{
    let mut out = JsonText::new(alloc);
    write_life_course(&mut out, table, course)?;
    Ok(out.finish())
}
