//! A plan tree as a picture for Graphviz.
ghost use Rattle.std.specs.Prelude.{◌≡◌, ◌<◌, ◌++◌, IfOk, OnOk, flat_map, string_bytes};
ghost use Rattle.std.specs.List.{range_with_len};
ghost use Rattle.cn_meetings.specs.Witness.{Has};
ghost use Rattle.cn_trees.specs.Tree.{comes_to, nodes_of, processes_of};
ghost use Rattle.cn_tree_plans.specs.Paths.{place_of};
ghost use Rattle.cn_tree_plans.specs.Plan.{tree_of};
ghost use Rattle.cn_tree_text.specs.Dot.{arrow_dot, box_dot, edge_dot, head_dot, node_dot, origin_dot, plan_dot, process_dot};
ghost use Rattle.cn_tree_text.specs.Places.{place_count};

use crate::lines::push_sight;
use crate::places::{path_len, place_at};
use cn_pieces::push_pieces;
use cn_tree_plans::{Place, TreePlan};
use std::alloc::{AllocError, Global};

/// A plan tree as a picture for Graphviz: a `digraph` with the nodes, the processes, and for each
/// place of a path an arrow to its node. A node tells the state in which its object starts, and by
/// what its processes judge. An arrow names the process, its team there and its operation. The last
/// byte is a line feed.
///
/// Names consist of lower case letters, digits and underscores, so none is escaped.
///
/// # Errors
///
/// `AllocError` if memory runs out.
#[tactic(auto, unfolding(crate::specs::Dot::plan_dot))]
pub fn plan_dot(alloc: Global, plan: &TreePlan) -> Result<String, AllocError>
    // promise: forms-of-a-plan-tree (plan_dot)
    ensures { IfOk result (λ text. string_bytes text ≡ plan_dot plan.now) }
{
    let mut text = String::new(alloc);
    push_head(&mut text, plan)?;
    push_nodes(&mut text, plan)?;
    push_processes(&mut text, plan)?;
    text.push_str("}\n")?;
    Ok(text)
}

fn push_head(text: &mut String, plan: &TreePlan) -> Result<(), AllocError>
    ensures { OnOk result (string_bytes text.new ≡ string_bytes text.old ++ head_dot plan.now) }
{
    let name = plan.table().name();
    push_pieces(
        text,
        &[
            "digraph \"",
            name,
            "\" {\n  rankdir=BT;\n  label=\"",
            name,
            "\";\n",
        ],
    )
}

#[tactic(auto, using(cn_table::proofs::Lines::lines_more))]
fn push_nodes(text: &mut String, plan: &TreePlan) -> Result<(), AllocError>
    ensures { OnOk result (string_bytes text.new ≡ string_bytes text.old
        ++ flat_map (node_dot plan.now) (range_with_len 0 (nodes_of (tree_of plan.now)))) }
{
    for node in 0..plan.nodes() {
        push_node(text, plan, node)?;
    }
    Ok(())
}

fn push_node(text: &mut String, plan: &TreePlan, node: u8) -> Result<(), AllocError>
    requires { node < nodes_of (tree_of plan.now) }
    ensures { OnOk result (string_bytes text.new
        ≡ string_bytes text.old ++ node_dot plan.now node) }
{
    let start = plan.table().state_name(plan.meeting(node).start);
    write!(text, "  node_{node} [label=\"node {node} from {start} by ")?;
    push_sight(text, plan.table(), plan.sight(node))?;
    text.push_str("\"];\n")
}

#[tactic(auto, using(cn_table::proofs::Lines::lines_more))]
fn push_processes(text: &mut String, plan: &TreePlan) -> Result<(), AllocError>
    ensures { OnOk result (string_bytes text.new ≡ string_bytes text.old
        ++ flat_map (process_dot plan.now) (range_with_len 0 (processes_of (tree_of plan.now)))) }
{
    for process in 0..plan.processes() {
        push_process(text, plan, process)?;
    }
    Ok(())
}

fn push_process(text: &mut String, plan: &TreePlan, process: u8) -> Result<(), AllocError>
    requires { process < processes_of (tree_of plan.now) }
    ensures { OnOk result (string_bytes text.new
        ≡ string_bytes text.old ++ process_dot plan.now process) }
{
    push_box(text, process)?;
    push_edges(text, plan, process)
}

fn push_box(text: &mut String, process: u8) -> Result<(), AllocError>
    ensures { OnOk result (string_bytes text.new ≡ string_bytes text.old ++ box_dot process) }
{
    write!(
        text,
        "  process_{process} [shape=box,label=\"process {process}\"];\n"
    )
}

#[tactic(auto, using(cn_table::proofs::Lines::lines_more))]
fn push_edges(text: &mut String, plan: &TreePlan, process: u8) -> Result<(), AllocError>
    requires { process < processes_of (tree_of plan.now) }
    ensures { OnOk result (string_bytes text.new ≡ string_bytes text.old
        ++ flat_map (edge_dot plan.now process) (range_with_len 0 (place_count plan.now process))) }
{
    for place in 0..path_len(plan, process) {
        push_edge(text, plan, process, place)?;
    }
    Ok(())
}

/// The edge of a process to a place of its path.
fn push_edge(
    text: &mut String,
    plan: &TreePlan,
    process: u8,
    place: usize,
) -> Result<(), AllocError>
    requires process { process < processes_of (tree_of plan.now) }
    requires place { place < place_count plan.now process }
    ensures { OnOk result (string_bytes text.new
        ≡ string_bytes text.old ++ edge_dot plan.now process place) }
{
    push_origin(text, plan, process, place)?;
    push_arrow(text, plan, process, place_at(plan, process, place))
}

/// The origin of a process on its way to a place of its path.
fn push_origin(
    text: &mut String,
    plan: &TreePlan,
    process: u8,
    place: usize,
) -> Result<(), AllocError>
    requires process { process < processes_of (tree_of plan.now) }
    requires place { place < place_count plan.now process }
    ensures { OnOk result (string_bytes text.new
        ≡ string_bytes text.old ++ origin_dot plan.now process place) }
{
    if place == 0 {
        return write!(text, "  process_{process}");
    }
    let below = place_at(plan, process, place - 1);
    write!(text, "  node_{}", below.node)
}

/// The arrow on which a process comes to a place.
fn push_arrow(
    text: &mut String,
    plan: &TreePlan,
    process: u8,
    here: Place,
) -> Result<(), AllocError>
    requires { Has (comes_to plan.now.teams here.node) process }
    ensures { OnOk result (string_bytes text.new
        ≡ string_bytes text.old ++ arrow_dot plan.now process (place_of here)) }
{
    let (node, team) = (here.node, here.team);
    let operation = plan.table().operation_name(plan.operation(node, process));
    write!(
        text,
        " -> node_{node} [label=\"process {process}: team {team} {operation}\"];\n"
    )
}
