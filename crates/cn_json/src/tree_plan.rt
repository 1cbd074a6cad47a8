//! A plan tree as JSON.
ghost use Rattle.std.specs.Prelude.{◌≡◌, ◌<◌, ◌+◌, All, IfOk, codes, length, map, string_bytes};
ghost use Rattle.std.specs.List.{range_with_len};
ghost use Rattle.serde_json.specs.Written.{compact_text};
ghost use Rattle.cn_meetings.specs.Sights.{sight_of};
ghost use Rattle.cn_meetings.specs.Witness.{Has};
ghost use Rattle.cn_trees.specs.Tree.{comes_to, nodes_of, processes_of};
ghost use Rattle.cn_tree_plans.specs.Paths.{place_of};
ghost use Rattle.cn_tree_plans.specs.Plan.{judged_at, tree_of};
ghost use Rattle.cn_tree_plans.specs.Sights.{seen_count};
ghost use Rattle.cn_tree_text.specs.Places.{first_at, sight_at, size_at, start_at, team_count};
ghost use Rattle.cn_json.specs.Tokens.{each_value, Appends, list_rest, member_tokens, members_rest, value_tokens};
ghost use Rattle.cn_json.specs.TreePlans.{judged_data, look_members, member_data, node_data, node_members, team_size_at, tree_path_data, tree_place_data, tree_plan_data};
ghost use Rattle.cn_json.specs.Values.{list_data, number_data};

use crate::json_text::JsonText;
use crate::json_text::Primitive::{Boolean, Byte, Text};
use crate::value::JsonValue;
use cn_meetings::Sight;
use cn_table::{Response, State, Table};
use cn_tree_costs::laws::nodes_are_trees;
use cn_tree_plans::laws::judgements_are_of_the_type;
use cn_tree_plans::{Judged, Place, TreePlan};
use std::alloc::{AllocError, Global};

impl JsonValue for Place {
    ghost IsKnown = { λ t place. Unit {0} };

    ghost json = { λ t place. tree_place_data (place_of place) };

    fn write(&self, out: &mut JsonText, table: &Table) -> Result<(), AllocError> {
        out.object(&[("node", Byte(self.node)), ("team", Byte(self.team))])
    }
}

/// A response, what a process sees behind it, and the team that they show.
fn write_judged(
    out: &mut JsonText,
    table: &Table,
    sight: Sight,
    judged: Judged,
) -> Result<(), AllocError>
    requires response { judged.response.0 < length table.now.responses }
    requires saw { judged.saw < seen_count table.now (sight_of sight) }
    ensures { Appends result out.old out.new (value_tokens (judged_data table.now sight judged)) }
{
    let response = table.response_name(judged.response);
    match sight {
        Sight::State => out.object(&[
            ("response", Text(response)),
            ("state", Text(table.state_name(State(judged.saw)))),
            ("team", Byte(judged.team)),
        ]),
        Sight::Nothing => out.object(&[("response", Text(response)), ("team", Byte(judged.team))]),
        Sight::Response(_) => out.object(&[
            ("look", Text(table.response_name(Response(judged.saw)))),
            ("response", Text(response)),
            ("team", Byte(judged.team)),
        ]),
    }
}

/// What a process judges, and the end of its array.
fn write_each_judged(
    out: &mut JsonText,
    table: &Table,
    sight: Sight,
    judged: &[Judged],
) -> Result<(), AllocError>
    requires { All
        (λ j. (j.response.0 < length table.now.responses)
        × (j.saw < seen_count table.now (sight_of sight))) judged.now }
    ensures { Appends result out.old out.new (list_rest (judged_data table.now sight) judged.now) }
{
    for entry in judged {
        write_judged(out, table, sight, *entry)?;
    }
    out.end_array()
}

/// The name of the state in which the object of a node starts.
fn start_name(plan: &TreePlan, node: u8) -> &str
    requires { node < nodes_of (tree_of plan.now) }
    ensures { result.now ≡ start_at plan.now node }
{
    plan.table().state_name(plan.meeting(node).start)
}

/// A key and an array with what a process judges.
fn write_judges(
    out: &mut JsonText,
    plan: &TreePlan,
    node: u8,
    process: u8,
) -> Result<(), AllocError>
    requires node { node < nodes_of (tree_of plan.now) }
    requires process { Has (comes_to plan.now.teams node) process }
    ensures { Appends result out.old out.new
        (member_tokens (codes "judges")
        (list_data (judged_data plan.now.table (sight_at plan.now node))
        (judged_at plan.now node process))) }
{
    judgements_are_of_the_type(plan);
    let sight = plan.sight(node);
    let judged = plan.judged(node, process);
    out.begin_array_at("judges")?;
    write_each_judged(out, plan.table(), sight, judged)
}

/// A process of a node.
fn write_member(
    out: &mut JsonText,
    plan: &TreePlan,
    node: u8,
    process: u8,
) -> Result<(), AllocError>
    requires node { node < nodes_of (tree_of plan.now) }
    requires process { Has (comes_to plan.now.teams node) process }
    ensures { Appends result out.old out.new (value_tokens (member_data plan.now node process)) }
{
    let operation = plan.table().operation_name(plan.operation(node, process));
    let team = plan.team(node, process);
    out.begin_object()?;
    write_judges(out, plan, node, process)?;
    out.last_members(&[
        ("operation", Text(operation)),
        ("process", Byte(process)),
        ("team", Byte(team)),
    ])
}

#[tactic(auto, using(crate::proofs::Arrays::each_more_from))]
fn write_each_member(out: &mut JsonText, plan: &TreePlan, node: u8) -> Result<(), AllocError>
    requires { node < nodes_of (tree_of plan.now) }
    ensures { Appends result out.old out.new
        (each_value (map (member_data plan.now node)
        (range_with_len (first_at plan.now node) (size_at plan.now node)))) }
{
    nodes_are_trees();
    let _most = plan.processes();
    let first = plan.first(node);
    for process in first..first + plan.size(node) {
        write_member(out, plan, node, process)?;
    }
    Ok(())
}

/// A key and an array with each process of a node.
fn write_members(out: &mut JsonText, plan: &TreePlan, node: u8) -> Result<(), AllocError>
    requires { node < nodes_of (tree_of plan.now) }
    ensures { Appends result out.old out.new
        (member_tokens (codes "processes")
        (list_data (member_data plan.now node)
        (range_with_len (first_at plan.now node) (size_at plan.now node)))) }
{
    out.begin_array_at("processes")?;
    write_each_member(out, plan, node)?;
    out.end_array()
}

/// The number of processes of a team of a node.
fn team_size(plan: &TreePlan, node: u8, team: u8) -> u8
    requires { node < nodes_of (tree_of plan.now) }
    ensures { result ≡ team_size_at plan.now node team }
{
    nodes_are_trees();
    let _most = plan.processes();
    let first = plan.first(node);
    let mut size = 0;
    for process in first..first + plan.size(node) {
        if plan.team(node, process) == team {
            size += 1;
        }
    }
    size
}

#[tactic(auto, using(crate::proofs::Arrays::each_more))]
fn write_each_team(out: &mut JsonText, plan: &TreePlan, node: u8) -> Result<(), AllocError>
    requires { node < nodes_of (tree_of plan.now) }
    ensures { Appends result out.old out.new
        (each_value (map (λ team. number_data (team_size_at plan.now node team))
        (range_with_len 0 (team_count plan.now node)))) }
{
    for team in 0..plan.team_count(node) {
        out.number(u64::from(team_size(plan, node, team)))?;
    }
    Ok(())
}

/// A key and an array with the size of each team of a node.
fn write_teams(out: &mut JsonText, plan: &TreePlan, node: u8) -> Result<(), AllocError>
    requires { node < nodes_of (tree_of plan.now) }
    ensures { Appends result out.old out.new
        (member_tokens (codes "teams")
        (list_data (λ team. number_data (team_size_at plan.now node team))
        (range_with_len 0 (team_count plan.now node)))) }
{
    out.begin_array_at("teams")?;
    write_each_team(out, plan, node)?;
    out.end_array()
}

/// The members of a node from its number on, and the end of its object.
fn write_last_of_node(out: &mut JsonText, plan: &TreePlan, node: u8) -> Result<(), AllocError>
    requires { node < nodes_of (tree_of plan.now) }
    ensures { Appends result out.old out.new (members_rest (node_members plan.now node)) }
{
    let reads = plan.sight(node).reads();
    let start = start_name(plan, node);
    out.member("node", Byte(node))?;
    write_members(out, plan, node)?;
    out.member("reads", Boolean(reads))?;
    out.member("start", Text(start))?;
    write_teams(out, plan, node)?;
    out.end_object()
}

/// The operation by which the processes of a node look, if they do so, and the members behind it.
fn write_look(out: &mut JsonText, plan: &TreePlan, node: u8) -> Result<(), AllocError>
    requires { node < nodes_of (tree_of plan.now) }
    ensures { Appends result out.old out.new (members_rest
        (look_members plan.now.table (sight_at plan.now node) (node_members plan.now node))) }
{
    match plan.sight(node) {
        Sight::State => write_last_of_node(out, plan, node),
        Sight::Nothing => write_last_of_node(out, plan, node),
        Sight::Response(operation) => {
            out.member("look", Text(plan.table().operation_name(operation)))?;
            write_last_of_node(out, plan, node)
        }
    }
}

fn write_node(out: &mut JsonText, plan: &TreePlan, node: u8) -> Result<(), AllocError>
    requires { node < nodes_of (tree_of plan.now) }
    ensures { Appends result out.old out.new (value_tokens (node_data plan.now node)) }
{
    let first = plan.first(node);
    out.begin_object()?;
    out.member("first", Byte(first))?;
    write_look(out, plan, node)
}

#[tactic(auto, using(crate::proofs::Arrays::each_more))]
fn write_each_node(out: &mut JsonText, plan: &TreePlan) -> Result<(), AllocError>
    ensures { Appends result out.old out.new
        (each_value (map (node_data plan.now) (range_with_len 0 (nodes_of (tree_of plan.now))))) }
{
    for node in 0..plan.nodes() {
        write_node(out, plan, node)?;
    }
    Ok(())
}

/// A key and an array with each node.
fn write_nodes(out: &mut JsonText, plan: &TreePlan) -> Result<(), AllocError>
    ensures { Appends result out.old out.new
        (member_tokens (codes "nodes")
        (list_data (node_data plan.now) (range_with_len 0 (nodes_of (tree_of plan.now))))) }
{
    out.begin_array_at("nodes")?;
    write_each_node(out, plan)?;
    out.end_array()
}

fn write_path(out: &mut JsonText, plan: &TreePlan, process: u8) -> Result<(), AllocError>
    requires { process < processes_of (tree_of plan.now) }
    ensures { Appends result out.old out.new (value_tokens (tree_path_data plan.now process)) }
{
    out.begin_object()?;
    out.array_at("places", plan.table(), plan.path(process))?;
    out.last_members(&[
        ("process", Byte(process)),
        ("steps", Byte(plan.steps(process))),
    ])
}

#[tactic(auto, using(crate::proofs::Arrays::each_more))]
fn write_each_path(out: &mut JsonText, plan: &TreePlan) -> Result<(), AllocError>
    ensures { Appends result out.old out.new
        (each_value (map (tree_path_data plan.now)
        (range_with_len 0 (processes_of (tree_of plan.now))))) }
{
    for process in 0..plan.processes() {
        write_path(out, plan, process)?;
    }
    Ok(())
}

/// A key and an array with the path of each process.
fn write_paths(out: &mut JsonText, plan: &TreePlan) -> Result<(), AllocError>
    ensures { Appends result out.old out.new
        (member_tokens (codes "paths")
        (list_data (tree_path_data plan.now) (range_with_len 0 (processes_of (tree_of plan.now))))) }
{
    out.begin_array_at("paths")?;
    write_each_path(out, plan)?;
    out.end_array()
}

fn write_tree_plan(out: &mut JsonText, plan: &TreePlan) -> Result<(), AllocError>
    ensures { Appends result out.old out.new (value_tokens (tree_plan_data plan.now)) }
{
    let (processes, cost) = (plan.processes(), plan.cost());
    out.begin_object()?;
    write_nodes(out, plan)?;
    out.member("objects", Byte(plan.nodes()))?;
    write_paths(out, plan)?;
    out.last_members(&[
        ("processes", Byte(processes)),
        ("steps", Byte(cost.steps)),
        ("sum", Byte(cost.sum)),
        ("type", Text(plan.table().name())),
    ])
}

/// A plan tree as one compact JSON object:
/// `{"nodes":[..],"objects":..,"paths":[..],"processes":..,"steps":..,"sum":..,"type":..}`.
/// `objects` and `processes` are their numbers, `steps` is the greatest number of own steps and `sum`
/// that of all processes together, and `type` is the name of the type. In `nodes` each node has its
/// `first` process, the operation by which its processes `look` where they do so, its number (`node`),
/// its `processes`, whether they read the state (`reads`), its `start` state, and the number of
/// processes of each team (`teams`). Each of these processes has what it `judges`, which is a
/// `response`, the `state` where they read it or the response of the operation by which they `look`,
/// and the `team` that came first; its `operation`; its number (`process`); and its `team`. In
/// `paths` each process has its
/// `places` from its lowest node to the root, each with its `node` and its `team` there; its number
/// (`process`); and the number of its own `steps`.
///
/// # Errors
///
/// `AllocError` if memory runs out.
pub fn tree_plan_json(alloc: Global, plan: &TreePlan) -> Result<String, AllocError>
    // promise: answers-as-json (tree_plan_data)
    // promise: forms-of-a-plan-tree (tree_plan_data)
    ensures { IfOk result (λ text. string_bytes text ≡ compact_text (tree_plan_data plan.now)) }
{
    let mut out = JsonText::new(alloc);
    write_tree_plan(&mut out, plan)?;
    Ok(out.finish())
}
