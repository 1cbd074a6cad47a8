//! The plan of a recording witness as JSON.
ghost use Rattle.std.specs.Prelude.{◌≡◌, ◌<◌, IfOk, codes, length, map, string_bytes};
ghost use Rattle.std.specs.List.{range_with_len};
ghost use Rattle.serde_json.specs.Written.{compact_text};
ghost use Rattle.cn_proto.specs.Plan.{processes_of};
ghost use Rattle.cn_json.specs.Plans.{path_data};
ghost use Rattle.cn_json.specs.RecordingPlans.{judged_state_data, life_path_data, life_role_data, recording_plan_data};
ghost use Rattle.cn_json.specs.Tokens.{each_value, Appends, member_tokens, value_tokens};
ghost use Rattle.cn_json.specs.Values.{list_data};

use crate::json_text::JsonText;
use crate::json_text::Primitive::{Boolean, Byte, Text};
use cn_lives::RecordingPlan;
use cn_plan_text::{life_steps, most_life_steps};
use cn_proto::Plan;
use cn_table::State;
use std::alloc::{AllocError, Global};

/// A state, and the team that it shows to have come first.
fn write_judged(out: &mut JsonText, plan: &RecordingPlan, state: State) -> Result<(), AllocError>
    requires { state.0 < length plan.now.plan.table.states }
    ensures { Appends result out.old out.new (value_tokens (judged_state_data plan.now state.0)) }
{
    let name = plan.plan().table().state_name(state);
    let team = plan.judge(state).name();
    out.object(&[("state", Text(name)), ("team", Text(team))])
}

#[tactic(auto, using(crate::proofs::Arrays::each_more))]
fn write_each_judged(out: &mut JsonText, plan: &RecordingPlan) -> Result<(), AllocError>
    ensures { Appends result out.old out.new
        (each_value (map (judged_state_data plan.now)
        (range_with_len 0 (length plan.now.plan.table.states)))) }
{
    for state in 0..plan.plan().table().states() {
        write_judged(out, plan, State(state))?;
    }
    Ok(())
}

/// A key and an array with the team that each state shows.
fn write_judges(out: &mut JsonText, plan: &RecordingPlan) -> Result<(), AllocError>
    ensures { Appends result out.old out.new
        (member_tokens (codes "judges")
        (list_data (judged_state_data plan.now)
        (range_with_len 0 (length plan.now.plan.table.states)))) }
{
    out.begin_array_at("judges")?;
    write_each_judged(out, plan)?;
    out.end_array()
}

/// A key and an array with the places of a process.
fn write_places(out: &mut JsonText, plan: &Plan, process: u8) -> Result<(), AllocError>
    requires { process < processes_of plan.now }
    ensures { Appends result out.old out.new
        (member_tokens (codes "places") (path_data plan.now process)) }
{
    out.array_at("places", plan.table(), plan.path(process))
}

fn write_path(out: &mut JsonText, plan: &RecordingPlan, process: u8) -> Result<(), AllocError>
    requires { process < processes_of plan.now.plan }
    ensures { Appends result out.old out.new (value_tokens (life_path_data plan.now process)) }
{
    let steps = life_steps(plan, process);
    out.begin_object()?;
    write_places(out, plan.plan(), process)?;
    out.last_members(&[("process", Byte(process)), ("steps", Byte(steps))])
}

#[tactic(auto, using(crate::proofs::Arrays::each_more))]
fn write_each_path(out: &mut JsonText, plan: &RecordingPlan) -> Result<(), AllocError>
    ensures { Appends result out.old out.new
        (each_value (map (life_path_data plan.now)
        (range_with_len 0 (processes_of plan.now.plan)))) }
{
    for process in 0..plan.plan().processes() {
        write_path(out, plan, process)?;
    }
    Ok(())
}

/// A key and an array with the path of each process.
fn write_paths(out: &mut JsonText, plan: &RecordingPlan) -> Result<(), AllocError>
    ensures { Appends result out.old out.new
        (member_tokens (codes "paths")
        (list_data (life_path_data plan.now) (range_with_len 0 (processes_of plan.now.plan)))) }
{
    out.begin_array_at("paths")?;
    write_each_path(out, plan)?;
    out.end_array()
}

fn write_role(out: &mut JsonText, plan: &RecordingPlan, role: u8) -> Result<(), AllocError>
    requires { role < processes_of plan.now.plan }
    ensures { Appends result out.old out.new (value_tokens (life_role_data plan.now role)) }
{
    let plan = plan.plan();
    let operation = plan.table().operation_name(plan.operation(role));
    let team = plan.team(role).name();
    out.object(&[("operation", Text(operation)), ("team", Text(team))])
}

#[tactic(auto, using(crate::proofs::Arrays::each_more))]
fn write_each_role(out: &mut JsonText, plan: &RecordingPlan) -> Result<(), AllocError>
    ensures { Appends result out.old out.new
        (each_value (map (life_role_data plan.now)
        (range_with_len 0 (processes_of plan.now.plan)))) }
{
    for role in 0..plan.plan().processes() {
        write_role(out, plan, role)?;
    }
    Ok(())
}

/// A key and an array with each role.
fn write_roles(out: &mut JsonText, plan: &RecordingPlan) -> Result<(), AllocError>
    ensures { Appends result out.old out.new
        (member_tokens (codes "roles")
        (list_data (life_role_data plan.now) (range_with_len 0 (processes_of plan.now.plan)))) }
{
    out.begin_array_at("roles")?;
    write_each_role(out, plan)?;
    out.end_array()
}

fn write_plan(out: &mut JsonText, plan: &RecordingPlan) -> Result<(), AllocError>
    ensures { Appends result out.old out.new (value_tokens (recording_plan_data plan.now)) }
{
    let (two_teams, steps) = (plan.plan(), most_life_steps(plan));
    out.begin_object()?;
    write_judges(out, plan)?;
    out.member("lone", Boolean(plan.is_lone()))?;
    out.member("nodes", Byte(two_teams.nodes()))?;
    write_paths(out, plan)?;
    out.member("processes", Byte(two_teams.processes()))?;
    write_roles(out, plan)?;
    out.last_members(&[
        (
            "start",
            Text(two_teams.table().state_name(two_teams.start())),
        ),
        ("steps", Byte(steps)),
        ("type", Text(two_teams.table().name())),
    ])
}

/// The plan of a recording witness as one compact JSON object:
/// `{"judges":[..],"lone":..,"nodes":..,"paths":[..],"processes":..,"roles":[..],"start":..,`
/// `"steps":..,"type":..}`. In `judges` each `state` of the table has the `team` that it shows to
/// have come first; `lone` is whether team A is one process alone; `nodes` and `processes` are their
/// numbers, `start` is the name of the start state and `type` that of the type. In `paths` each
/// process has its `places` from its lowest node to the root, each with its `node`, its `role` and
/// its `team`; its number (`process`); and the own `steps` within which it decides
/// ([`life_steps`](cn_plan_text::life_steps)). `steps` is the greatest number of these. In `roles`
/// each role has its `operation` and its `team`.
///
/// # Errors
///
/// `AllocError` if memory runs out.
pub fn recording_plan_json(alloc: Global, plan: &RecordingPlan) -> Result<String, AllocError>
    // promise: answers-as-json (recording_plan_data)
    // promise: forms-of-a-recording-plan (recording_plan_data)
    ensures { IfOk result (λ text. string_bytes text
        ≡ compact_text (recording_plan_data plan.now)) }
{
    let mut out = JsonText::new(alloc);
    write_plan(&mut out, plan)?;
    Ok(out.finish())
}
