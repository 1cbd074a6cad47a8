//! A plan as JSON.
ghost use Rattle.std.specs.Prelude.{◌≡◌, ◌<◌, IfOk, codes, length, map, string_bytes};
ghost use Rattle.std.specs.List.{range_with_len};
ghost use Rattle.serde_json.specs.Written.{compact_text};
ghost use Rattle.cn_proto.specs.Plan.{processes_of};
ghost use Rattle.cn_json.specs.Plans.{pair_data, path_data, place_data, plan_data, role_data};
ghost use Rattle.cn_json.specs.Tokens.{each_value, Appends, member_tokens, value_tokens};
ghost use Rattle.cn_json.specs.Values.{list_data};

use crate::json_text::JsonText;
use crate::json_text::Primitive::{Byte, Text};
use crate::value::JsonValue;
use cn_proto::{Place, Plan};
use cn_table::{Response, State, Table};
use std::alloc::{AllocError, Global};

impl JsonValue for Place {
    ghost IsKnown = { λ t place. Unit {0} };

    ghost json = { λ t place. place_data place };

    fn write(&self, out: &mut JsonText, table: &Table) -> Result<(), AllocError> {
        out.object(&[
            ("node", Byte(self.node)),
            ("role", Byte(self.role)),
            ("team", Text(self.team.name())),
        ])
    }
}

/// The numbers of a response and of a state.
impl JsonValue for (u8, u8) {
    ghost IsKnown = { λ t pair. (pair.0 < length t.responses) × (pair.1 < length t.states) };

    ghost json = { pair_data };

    fn write(&self, out: &mut JsonText, table: &Table) -> Result<(), AllocError> {
        let (response, state) = (Response(self.0), State(self.1));
        out.object(&[
            ("response", Text(table.response_name(response))),
            ("state", Text(table.state_name(state))),
        ])
    }
}

#[tactic(auto, using(crate::proofs::Arrays::each_more))]
fn write_each_path(out: &mut JsonText, plan: &Plan) -> Result<(), AllocError>
    ensures { Appends result out.old out.new
        (each_value (map (path_data plan.now) (range_with_len 0 (processes_of plan.now)))) }
{
    for process in 0..plan.processes() {
        out.array(plan.table(), plan.path(process))?;
    }
    Ok(())
}

fn write_paths(out: &mut JsonText, plan: &Plan) -> Result<(), AllocError>
    ensures { Appends result out.old out.new
        (member_tokens (codes "paths")
        (list_data (path_data plan.now) (range_with_len 0 (processes_of plan.now)))) }
{
    out.begin_array_at("paths")?;
    write_each_path(out, plan)?;
    out.end_array()
}

fn write_role(out: &mut JsonText, plan: &Plan, role: u8) -> Result<(), AllocError>
    requires { role < processes_of plan.now }
    ensures { Appends result out.old out.new (value_tokens (role_data plan.now role)) }
{
    let table = plan.table();
    out.begin_object()?;
    out.array_at("judges", table, plan.judged_pairs(role))?;
    out.last_members(&[
        (
            "operation",
            Text(table.operation_name(plan.operation(role))),
        ),
        ("team", Text(plan.team(role).name())),
    ])
}

#[tactic(auto, using(crate::proofs::Arrays::each_more))]
fn write_each_role(out: &mut JsonText, plan: &Plan) -> Result<(), AllocError>
    ensures { Appends result out.old out.new
        (each_value (map (role_data plan.now) (range_with_len 0 (processes_of plan.now)))) }
{
    for role in 0..plan.processes() {
        write_role(out, plan, role)?;
    }
    Ok(())
}

fn write_roles(out: &mut JsonText, plan: &Plan) -> Result<(), AllocError>
    ensures { Appends result out.old out.new
        (member_tokens (codes "roles")
        (list_data (role_data plan.now) (range_with_len 0 (processes_of plan.now)))) }
{
    out.begin_array_at("roles")?;
    write_each_role(out, plan)?;
    out.end_array()
}

fn write_plan(out: &mut JsonText, plan: &Plan) -> Result<(), AllocError>
    ensures { Appends result out.old out.new (value_tokens (plan_data plan.now)) }
{
    let table = plan.table();
    out.begin_object()?;
    out.member("nodes", Byte(plan.nodes()))?;
    write_paths(out, plan)?;
    out.member("processes", Byte(plan.processes()))?;
    write_roles(out, plan)?;
    out.last_members(&[
        ("start", Text(table.state_name(plan.start()))),
        ("type", Text(table.name())),
    ])
}

/// A plan as one compact JSON object:
/// `{"nodes":..,"paths":[..],"processes":..,"roles":[..],"start":..,"type":..}`. The numbers of nodes
/// and of processes stand beside the names of the start state and of the type. In `paths` each
/// process has its places from the lowest node to the root, each with its `node`, its `role` and its
/// `team`. In `roles` each role has the pairs that it `judges` to be team A's, each with its
/// `response` and its `state`; its `operation`; and its `team`.
///
/// # Errors
///
/// `AllocError` if memory runs out.
pub fn plan_json(alloc: Global, plan: &Plan) -> Result<String, AllocError>
    // promise: answers-as-json (plan_data)
    // promise: forms-of-a-plan (plan_data)
    ensures { IfOk result (λ text. string_bytes text ≡ compact_text (plan_data plan.now)) }
{
    let mut out = JsonText::new(alloc);
    write_plan(&mut out, plan)?;
    Ok(out.finish())
}
