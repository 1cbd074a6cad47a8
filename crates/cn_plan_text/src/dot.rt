//! A plan as a picture for Graphviz.
ghost use Rattle.std.specs.Prelude.{◌≡◌, ◌<◌, ◌++◌, IfOk, OnOk, flat_map, string_bytes};
ghost use Rattle.std.specs.List.{range_with_len};
ghost use Rattle.cn_proto.specs.Plan.{nodes_of, processes_of, protocol_of};
ghost use Rattle.cn_proto.specs.Sound.{IsPlace};
ghost use Rattle.cn_plan_text.specs.Dot.{arrow_dot, box_dot, edge_dot, head_dot, node_dot, origin_dot, plan_dot, process_dot};
ghost use Rattle.cn_plan_text.specs.Places.{places_of};

use crate::places::place_at;
use cn_pieces::push_pieces;
use cn_proto::{Place, Plan};
use std::alloc::{AllocError, Global};

/// A plan as a picture for Graphviz: a `digraph` with the nodes, the processes, and for each place
/// of a path an arrow to its node. The arrow names the process, its team there, its role and the
/// role's operation. The last byte is a line feed.
///
/// Names consist of lower case letters, digits and underscores, so none is escaped.
///
/// # Errors
///
/// `AllocError` if memory runs out.
#[tactic(auto, unfolding(crate::specs::Dot::plan_dot))]
pub fn plan_dot(alloc: Global, plan: &Plan) -> Result<String, AllocError>
    // promise: forms-of-a-plan (plan_dot)
    ensures { IfOk result (λ text. string_bytes text ≡ plan_dot plan.now) }
{
    let mut text = String::new(alloc);
    push_head(&mut text, plan)?;
    push_nodes(&mut text, plan)?;
    push_processes(&mut text, plan)?;
    text.push_str("}\n")?;
    Ok(text)
}

fn push_head(text: &mut String, plan: &Plan) -> Result<(), AllocError>
    ensures { OnOk result (string_bytes text.new ≡ string_bytes text.old ++ head_dot plan.now) }
{
    let (name, start) = (plan.table().name(), plan.table().state_name(plan.start()));
    push_pieces(
        text,
        &[
            "digraph \"",
            name,
            "\" {\n  rankdir=BT;\n  label=\"",
            name,
            " from ",
            start,
            "\";\n",
        ],
    )
}

#[tactic(auto, using(cn_table::proofs::Lines::lines_more))]
fn push_nodes(text: &mut String, plan: &Plan) -> Result<(), AllocError>
    ensures { OnOk result (string_bytes text.new
        ≡ string_bytes text.old ++ flat_map node_dot (range_with_len 0 (nodes_of plan.now))) }
{
    for node in 0..plan.nodes() {
        push_node(text, node)?;
    }
    Ok(())
}

fn push_node(text: &mut String, node: u8) -> Result<(), AllocError>
    ensures { OnOk result (string_bytes text.new ≡ string_bytes text.old ++ node_dot node) }
{
    write!(text, "  node_{node} [label=\"node {node}\"];\n")
}

#[tactic(auto, using(cn_table::proofs::Lines::lines_more))]
fn push_processes(text: &mut String, plan: &Plan) -> Result<(), AllocError>
    ensures { OnOk result (string_bytes text.new
        ≡ string_bytes text.old
        ++ flat_map (process_dot plan.now) (range_with_len 0 (processes_of plan.now))) }
{
    for process in 0..plan.processes() {
        push_process(text, plan, process)?;
    }
    Ok(())
}

fn push_process(text: &mut String, plan: &Plan, process: u8) -> Result<(), AllocError>
    requires { process < processes_of plan.now }
    ensures { OnOk result (string_bytes text.new
        ≡ string_bytes text.old ++ process_dot plan.now process) }
{
    push_box(text, process)?;
    push_edges(text, plan, process)
}

fn push_box(text: &mut String, process: u8) -> Result<(), AllocError>
    ensures { OnOk result (string_bytes text.new ≡ string_bytes text.old ++ box_dot process) }
{
    write!(
        text,
        "  process_{process} [shape=box,label=\"process {process}\"];\n"
    )
}

#[tactic(auto, using(cn_table::proofs::Lines::lines_more))]
fn push_edges(text: &mut String, plan: &Plan, process: u8) -> Result<(), AllocError>
    requires { process < processes_of plan.now }
    ensures { OnOk result (string_bytes text.new
        ≡ string_bytes text.old
        ++ flat_map (edge_dot plan.now process) (range_with_len 0 (places_of plan.now process))) }
{
    for place in 0..plan.path(process).len() {
        push_edge(text, plan, process, place)?;
    }
    Ok(())
}

/// The edge of a process to a place of its path.
fn push_edge(text: &mut String, plan: &Plan, process: u8, place: usize) -> Result<(), AllocError>
    requires { IsPlace (protocol_of plan.now) (processes_of plan.now) process place }
    ensures { OnOk result (string_bytes text.new
        ≡ string_bytes text.old ++ edge_dot plan.now process place) }
{
    push_origin(text, plan, process, place)?;
    push_arrow(text, plan, process, place_at(plan, process, place))
}

/// The origin of a process on its way to a place of its path.
fn push_origin(text: &mut String, plan: &Plan, process: u8, place: usize) -> Result<(), AllocError>
    requires { IsPlace (protocol_of plan.now) (processes_of plan.now) process place }
    ensures { OnOk result (string_bytes text.new
        ≡ string_bytes text.old ++ origin_dot plan.now process place) }
{
    if place == 0 {
        return write!(text, "  process_{process}");
    }
    let below = place_at(plan, process, place - 1);
    write!(text, "  node_{}", below.node)
}

/// The arrow on which a process comes to a place.
fn push_arrow(text: &mut String, plan: &Plan, process: u8, here: Place) -> Result<(), AllocError>
    requires { here.role < processes_of plan.now }
    ensures { OnOk result (string_bytes text.new
        ≡ string_bytes text.old ++ arrow_dot plan.now process here) }
{
    let (node, team, role) = (here.node, here.team.name(), here.role);
    let operation = plan.table().operation_name(plan.operation(role));
    write!(
        text,
        " -> node_{node} [label=\"process {process}: {team} role {role} {operation}\"];\n"
    )
}
