//! The text of a plan tree for people.
ghost use Rattle.std.specs.Prelude.{◌≡◌, ◌<◌, ◌++◌, All, IfOk, OnOk, codes, flat_map, length, map, string_bytes};
ghost use Rattle.std.specs.List.{range_with_len};
ghost use Rattle.cn_meetings.specs.Meeting.{IsSightOf};
ghost use Rattle.cn_meetings.specs.Sights.{sight_of};
ghost use Rattle.cn_meetings.specs.Witness.{Has};
ghost use Rattle.cn_table.specs.Texts.{joined_texts};
ghost use Rattle.cn_trees.specs.Tree.{comes_to, nodes_of, processes_of};
ghost use Rattle.cn_tree_plans.specs.Paths.{place_of, places_of};
ghost use Rattle.cn_tree_plans.specs.Plan.{tree_of};
ghost use Rattle.cn_tree_plans.specs.Sights.{seen_count};
ghost use Rattle.cn_tree_text.specs.Places.{first_at, is_first, is_last, size_at};
ghost use Rattle.cn_tree_text.specs.Text.{end_text, head_line, judgement_text, member_line, node_line, node_lines, place_text, plan_text, process_line, seen_text, sight_text, teams_text};

use crate::places::{end_of, judged_of, nodes_have_members};
use cn_meetings::Sight;
use cn_table::{Response, State, Table};
use cn_tree_plans::{Judged, Place, TreePlan};
use std::alloc::{AllocError, Global};

/// The text of a plan tree for people: lines that each end with a line feed.
///
/// The first is `type T processes n objects k steps s`, with the greatest number of own steps. Each
/// node has a line `node v start S by response teams ..`, with the processes of each team, as
/// `0-3 4`; or `by response and state` if its processes read the state, or `by response and look L`
/// if they look by the operation L. Behind it each process of the node has a line
/// `node v process p O judges ..`, with its operation, and for each response `R` that it can get the
/// team that came first, as `R:0`; or so for each response and state, or each response and that of
/// the look, `R/S`. Last, each process has a line `process p steps s: ..` with its places from its
/// lowest node to the root, each as `node v team g`, with a comma and a space between two.
///
/// # Errors
///
/// `AllocError` if memory runs out.
#[tactic(auto, unfolding(crate::specs::Text::plan_text))]
pub fn plan_lines(alloc: Global, plan: &TreePlan) -> Result<String, AllocError>
    // promise: forms-of-a-plan-tree (plan_text)
    ensures { IfOk result (λ text. string_bytes text ≡ plan_text plan.now) }
{
    let mut text = head_line(alloc, plan)?;
    push_nodes(&mut text, plan)?;
    push_processes(&mut text, plan)?;
    Ok(text)
}

/// The first line of the text of a plan tree ([`plan_lines`]): how short the plan is.
///
/// # Errors
///
/// `AllocError` if memory runs out.
pub fn head_line(alloc: Global, plan: &TreePlan) -> Result<String, AllocError>
    // promise: forms-of-a-plan-tree (head_line)
    ensures { IfOk result (λ text. string_bytes text ≡ head_line plan.now) }
{
    let (name, processes) = (plan.table().name(), plan.processes());
    let (nodes, steps) = (plan.nodes(), plan.cost().steps);
    format!(in alloc; "type {name} processes {processes} objects {nodes} steps {steps}\n")
}

#[tactic(auto, using(cn_table::proofs::Lines::lines_more))]
fn push_nodes(text: &mut String, plan: &TreePlan) -> Result<(), AllocError>
    ensures { OnOk result (string_bytes text.new ≡ string_bytes text.old
        ++ flat_map (node_lines plan.now) (range_with_len 0 (nodes_of (tree_of plan.now)))) }
{
    for node in 0..plan.nodes() {
        push_node(text, plan, node)?;
    }
    Ok(())
}

/// A node, and then each of its processes.
fn push_node(text: &mut String, plan: &TreePlan, node: u8) -> Result<(), AllocError>
    requires { node < nodes_of (tree_of plan.now) }
    ensures { OnOk result (string_bytes text.new
        ≡ string_bytes text.old ++ node_lines plan.now node) }
{
    push_node_line(text, plan, node)?;
    push_members(text, plan, node)
}

fn push_node_line(text: &mut String, plan: &TreePlan, node: u8) -> Result<(), AllocError>
    requires { node < nodes_of (tree_of plan.now) }
    ensures { OnOk result (string_bytes text.new
        ≡ string_bytes text.old ++ node_line plan.now node) }
{
    let start = plan.table().state_name(plan.meeting(node).start);
    write!(text, "node {node} start {start} by ")?;
    push_sight(text, plan.table(), plan.sight(node))?;
    text.push_str(" teams")?;
    push_teams(text, plan, node)?;
    text.push_str("\n")
}

/// By what the processes of a node judge.
pub(crate) fn push_sight(text: &mut String, table: &Table, sight: Sight) -> Result<(), AllocError>
    requires { IsSightOf table.now (sight_of sight) }
    ensures { OnOk result (string_bytes text.new
        ≡ string_bytes text.old ++ sight_text table.now sight) }
{
    match sight {
        Sight::State => text.push_str("response and state"),
        Sight::Nothing => text.push_str("response"),
        Sight::Response(operation) => {
            let look = table.operation_name(operation);
            write!(text, "response and look {look}")
        }
    }
}

#[tactic(auto, using(crate::proofs::Ranges::range_more))]
fn push_teams(text: &mut String, plan: &TreePlan, node: u8) -> Result<(), AllocError>
    requires { node < nodes_of (tree_of plan.now) }
    ensures { OnOk result (string_bytes text.new
        ≡ string_bytes text.old ++ teams_text plan.now node) }
{
    nodes_have_members(plan);
    let (first, end) = (plan.first(node), end_of(plan, node));
    for process in first..end {
        push_end(text, plan, node, process)?;
    }
    Ok(())
}

/// The process, if it is the first one or the last one of its team.
fn push_end(text: &mut String, plan: &TreePlan, node: u8, process: u8) -> Result<(), AllocError>
    requires node { node < nodes_of (tree_of plan.now) }
    requires process { Has (comes_to plan.now.teams node) process }
    ensures { OnOk result (string_bytes text.new
        ≡ string_bytes text.old ++ end_text plan.now node process) }
{
    if begins_team(plan, node, process) {
        write!(text, " {process}")
    } else if ends_team(plan, node, process) {
        write!(text, "-{process}")
    } else {
        Ok(())
    }
}

fn begins_team(plan: &TreePlan, node: u8, process: u8) -> bool
    requires node { node < nodes_of (tree_of plan.now) }
    requires process { Has (comes_to plan.now.teams node) process }
    ensures { result ≡ is_first plan.now node process }
{
    nodes_have_members(plan);
    process == plan.first(node) || plan.team(node, process - 1) != plan.team(node, process)
}

fn ends_team(plan: &TreePlan, node: u8, process: u8) -> bool
    requires node { node < nodes_of (tree_of plan.now) }
    requires process { Has (comes_to plan.now.teams node) process }
    ensures { result ≡ is_last plan.now node process }
{
    nodes_have_members(plan);
    let end = end_of(plan, node);
    process + 1 == end || plan.team(node, process + 1) != plan.team(node, process)
}

#[tactic(auto, using(crate::proofs::Ranges::range_more))]
fn push_members(text: &mut String, plan: &TreePlan, node: u8) -> Result<(), AllocError>
    requires { node < nodes_of (tree_of plan.now) }
    ensures { OnOk result (string_bytes text.new ≡ string_bytes text.old
        ++ flat_map (member_line plan.now node)
        (range_with_len (first_at plan.now node) (size_at plan.now node))) }
{
    nodes_have_members(plan);
    let (first, end) = (plan.first(node), end_of(plan, node));
    for process in first..end {
        push_member(text, plan, node, process)?;
    }
    Ok(())
}

/// The operation of a process of a node, and what it judges there.
fn push_member(text: &mut String, plan: &TreePlan, node: u8, process: u8) -> Result<(), AllocError>
    requires node { node < nodes_of (tree_of plan.now) }
    requires process { Has (comes_to plan.now.teams node) process }
    ensures { OnOk result (string_bytes text.new
        ≡ string_bytes text.old ++ member_line plan.now node process) }
{
    let operation = plan.table().operation_name(plan.operation(node, process));
    write!(text, "node {node} process {process} {operation} judges")?;
    let sight = plan.sight(node);
    push_judged(text, plan.table(), sight, judged_of(plan, node, process))?;
    text.push_str("\n")
}

fn push_judged(
    text: &mut String,
    table: &Table,
    sight: Sight,
    judged: &[Judged],
) -> Result<(), AllocError>
    requires { All (λ j. (j.response.0 < length table.now.responses)
        × (j.saw < seen_count table.now (sight_of sight))) judged.now }
    ensures { OnOk result (string_bytes text.new
        ≡ string_bytes text.old ++ flat_map (judgement_text table.now sight) judged.now) }
{
    for entry in judged {
        push_judgement(text, table, sight, *entry)?;
    }
    Ok(())
}

/// A response, what is seen, if the process looks, and the team that they show.
fn push_judgement(
    text: &mut String,
    table: &Table,
    sight: Sight,
    judged: Judged,
) -> Result<(), AllocError>
    requires response { judged.response.0 < length table.now.responses }
    requires saw { judged.saw < seen_count table.now (sight_of sight) }
    ensures { OnOk result (string_bytes text.new
        ≡ string_bytes text.old ++ judgement_text table.now sight judged) }
{
    write!(text, " {}", table.response_name(judged.response))?;
    push_seen(text, table, sight, judged.saw)?;
    write!(text, ":{}", judged.team)
}

/// A state that is read, or the response of a look.
fn push_seen(text: &mut String, table: &Table, sight: Sight, saw: u8) -> Result<(), AllocError>
    requires { saw < seen_count table.now (sight_of sight) }
    ensures { OnOk result (string_bytes text.new
        ≡ string_bytes text.old ++ seen_text table.now sight saw) }
{
    match sight {
        Sight::State => write!(text, "/{}", table.state_name(State(saw))),
        Sight::Nothing => Ok(()),
        Sight::Response(_) => write!(text, "/{}", table.response_name(Response(saw))),
    }
}

#[tactic(auto, using(cn_table::proofs::Lines::lines_more))]
fn push_processes(text: &mut String, plan: &TreePlan) -> Result<(), AllocError>
    ensures { OnOk result (string_bytes text.new ≡ string_bytes text.old
        ++ flat_map (process_line plan.now) (range_with_len 0 (processes_of (tree_of plan.now)))) }
{
    for process in 0..plan.processes() {
        push_process(text, plan, process)?;
    }
    Ok(())
}

fn push_process(text: &mut String, plan: &TreePlan, process: u8) -> Result<(), AllocError>
    requires { process < processes_of (tree_of plan.now) }
    ensures { OnOk result (string_bytes text.new
        ≡ string_bytes text.old ++ process_line plan.now process) }
{
    write!(text, "process {process} steps {}: ", plan.steps(process))?;
    push_places(text, plan.path(process))?;
    text.push_str("\n")
}

fn push_places(text: &mut String, places: &[Place]) -> Result<(), AllocError>
    ensures { OnOk result (string_bytes text.new ≡ string_bytes text.old
        ++ joined_texts (codes ", ") (map place_text (places_of places.now))) }
{
    let [first, rest @ ..] = places else {
        return Ok(());
    };
    push_place(text, first)?;
    for place in rest {
        text.push_str(", ")?;
        push_place(text, place)?;
    }
    Ok(())
}

fn push_place(text: &mut String, place: &Place) -> Result<(), AllocError>
    ensures { OnOk result (string_bytes text.new
        ≡ string_bytes text.old ++ place_text (place_of place.now)) }
{
    let (node, team) = (place.node, place.team);
    write!(text, "node {node} team {team}")
}
