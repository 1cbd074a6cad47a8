//! A plan tree as a model in Promela.
ghost use Rattle.std.specs.Prelude.{◌≡◌, ◌<◌, ◌++◌, IfOk, OnOk, flat_map, length, string_bytes};
ghost use Rattle.std.specs.List.{range_with_len};
ghost use Rattle.cn_meetings.specs.Meeting.{IsSightOf};
ghost use Rattle.cn_meetings.specs.Sights.{sight_of};
ghost use Rattle.cn_meetings.specs.Witness.{Has};
ghost use Rattle.cn_trees.specs.Tree.{comes_to, nodes_of, processes_of};
ghost use Rattle.cn_tree_plans.specs.Paths.{place_of};
ghost use Rattle.cn_tree_plans.specs.Plan.{tree_of};
ghost use Rattle.cn_tree_text.specs.Places.{place_count};
ghost use Rattle.cn_tree_text.specs.Promela.{actions_promela, answer_promela, answers_promela, apply_promela, end_promela, head_promela, judged_promela, look_promela, node_promela, place_promela, plan_promela, process_promela};
ghost use Rattle.cn_tree_text.specs.Promela.{proctype_promela, read_promela, register_promela, row_promela, rules_promela, saw_promela, see_promela, selection_promela, stand_promela, take_promela, value_promela, write_promela};

use crate::places::{path_len, place_at};
use cn_meetings::Sight;
use cn_table::{Operation, State, Table};
use cn_tree_plans::{Judged, Place, TreePlan};
use std::alloc::{AllocError, Global};

/// A plan tree as a model in Promela: a process for each process of the tree. At each place of its
/// path it takes its actions, one `atomic` each, and may stop before each: it writes, it applies its
/// operation, it looks where the node says so, by a read or a further operation, and it takes a
/// value. It begins with its own number as the value. Assertions say of each decision that it is the value of a process that
/// has moved, that it equals every other decision, and that it comes with the last of the own steps
/// of the process, which are at most those of the plan; and that a process gets only what it judges.
/// The last byte is a line feed.
///
/// Names consist of lower case letters, digits and underscores, so none is escaped.
///
/// # Errors
///
/// `AllocError` if memory runs out.
#[tactic(auto, unfolding(crate::specs::Promela::plan_promela))]
pub fn plan_promela(alloc: Global, plan: &TreePlan) -> Result<String, AllocError>
    // promise: forms-of-a-plan-tree (plan_promela)
    ensures { IfOk result (λ text. string_bytes text ≡ plan_promela plan.now) }
{
    let mut text = String::new(alloc);
    push_head(&mut text, plan)?;
    push_nodes(&mut text, plan)?;
    push_rules(&mut text, plan.processes(), plan.cost().steps)?;
    push_processes(&mut text, plan)?;
    Ok(text)
}

fn push_head(text: &mut String, plan: &TreePlan) -> Result<(), AllocError>
    ensures { OnOk result (string_bytes text.new
        ≡ string_bytes text.old ++ head_promela plan.now) }
{
    let (name, processes) = (plan.table().name(), plan.processes());
    write!(text, "/* {name} for {processes} processes */\n")
}

#[tactic(auto, using(cn_table::proofs::Lines::lines_more))]
fn push_nodes(text: &mut String, plan: &TreePlan) -> Result<(), AllocError>
    ensures { OnOk result (string_bytes text.new ≡ string_bytes text.old
        ++ flat_map (node_promela plan.now) (range_with_len 0 (nodes_of (tree_of plan.now)))) }
{
    for node in 0..plan.nodes() {
        push_node(text, plan, node)?;
    }
    Ok(())
}

/// The object of a node and the registers of its teams.
fn push_node(text: &mut String, plan: &TreePlan, node: u8) -> Result<(), AllocError>
    requires { node < nodes_of (tree_of plan.now) }
    ensures { OnOk result (string_bytes text.new
        ≡ string_bytes text.old ++ node_promela plan.now node) }
{
    write!(text, "byte object_{node} = {}", plan.meeting(node).start.0)?;
    push_registers(text, node, plan.team_count(node))?;
    text.push_str(";\n")
}

#[tactic(auto, using(cn_table::proofs::Lines::lines_more))]
fn push_registers(text: &mut String, node: u8, teams: u8) -> Result<(), AllocError>
    ensures { OnOk result (string_bytes text.new ≡ string_bytes text.old
        ++ flat_map (register_promela node) (range_with_len 0 teams)) }
{
    for team in 0..teams {
        push_register(text, node, team)?;
    }
    Ok(())
}

fn push_register(text: &mut String, node: u8, team: u8) -> Result<(), AllocError>
    ensures { OnOk result (string_bytes text.new
        ≡ string_bytes text.old ++ register_promela node team) }
{
    write!(text, ", written_{node}_{team} = 255")
}

/// The rules for each of the processes: its actions, and its decision with its assertions.
#[tactic(auto, unfolding(crate::specs::Promela::rules_promela))]
fn push_rules(text: &mut String, processes: u8, most: u8) -> Result<(), AllocError>
    ensures { OnOk result (string_bytes text.new
        ≡ string_bytes text.old ++ rules_promela processes most) }
{
    write!(
        text,
        "byte taken[{processes}];
byte agreed = 255;

#define ACTION(p) if :: goto stopped :: taken[p]++ fi

inline decide(p, value, needed) {{
    assert(value != 255);
    assert(taken[value] > 0);
    assert(agreed == 255 || agreed == value);
    assert(taken[p] == needed && needed <= {most});
    agreed = value
}}
"
    )
}

#[tactic(auto, using(cn_table::proofs::Lines::lines_more))]
fn push_processes(text: &mut String, plan: &TreePlan) -> Result<(), AllocError>
    ensures { OnOk result (string_bytes text.new ≡ string_bytes text.old
        ++ flat_map (process_promela plan.now)
        (range_with_len 0 (processes_of (tree_of plan.now)))) }
{
    for process in 0..plan.processes() {
        push_process(text, plan, process)?;
    }
    Ok(())
}

fn push_process(text: &mut String, plan: &TreePlan, process: u8) -> Result<(), AllocError>
    requires { process < processes_of (tree_of plan.now) }
    ensures { OnOk result (string_bytes text.new
        ≡ string_bytes text.old ++ process_promela plan.now process) }
{
    push_proctype(text, process)?;
    push_places(text, plan, process)?;
    text.push_str("stopped:\n    skip\n}\n")
}

fn push_proctype(text: &mut String, process: u8) -> Result<(), AllocError>
    ensures { OnOk result (string_bytes text.new
        ≡ string_bytes text.old ++ proctype_promela process) }
{
    write!(
        text,
        "\nactive proctype process_{process}() {{\n    byte value = {process}, response, saw;\n"
    )
}

#[tactic(auto, using(cn_table::proofs::Lines::lines_more))]
fn push_places(text: &mut String, plan: &TreePlan, process: u8) -> Result<(), AllocError>
    requires { process < processes_of (tree_of plan.now) }
    ensures { OnOk result (string_bytes text.new ≡ string_bytes text.old
        ++ flat_map (place_promela plan.now process)
        (range_with_len 0 (place_count plan.now process))) }
{
    for place in 0..path_len(plan, process) {
        push_place(text, plan, process, place)?;
    }
    Ok(())
}

/// The actions at a place, and what comes behind the last one.
fn push_place(
    text: &mut String,
    plan: &TreePlan,
    process: u8,
    place: usize,
) -> Result<(), AllocError>
    requires process { process < processes_of (tree_of plan.now) }
    requires place { place < place_count plan.now process }
    ensures { OnOk result (string_bytes text.new
        ≡ string_bytes text.old ++ place_promela plan.now process place) }
{
    push_actions(text, plan, process, place_at(plan, process, place))?;
    push_end(text, plan, process, place)
}

/// The actions at a place: to write, to apply the operation, to look, and to take a value.
#[tactic(auto, unfolding(crate::specs::Promela::actions_promela))]
fn push_actions(
    text: &mut String,
    plan: &TreePlan,
    process: u8,
    here: Place,
) -> Result<(), AllocError>
    requires node { here.node < nodes_of (tree_of plan.now) }
    requires process { Has (comes_to plan.now.teams here.node) process }
    ensures { OnOk result (string_bytes text.new
        ≡ string_bytes text.old ++ actions_promela plan.now process (place_of here)) }
{
    push_stand(text, plan, process, here)?;
    push_write(text, process, here)?;
    push_apply(text, plan, process, here.node)?;
    push_look(text, plan, process, here.node)
}

fn push_stand(
    text: &mut String,
    plan: &TreePlan,
    process: u8,
    here: Place,
) -> Result<(), AllocError>
    requires { Has (comes_to plan.now.teams here.node) process }
    ensures { OnOk result (string_bytes text.new
        ≡ string_bytes text.old ++ stand_promela plan.now process (place_of here)) }
{
    let (node, team) = (here.node, here.team);
    let operation = plan.table().operation_name(plan.operation(node, process));
    write!(text, "    /* node {node}, team {team}: {operation} */\n")
}

/// The action that writes the value of a process into the register of its team.
fn push_write(text: &mut String, process: u8, here: Place) -> Result<(), AllocError>
    ensures { OnOk result (string_bytes text.new
        ≡ string_bytes text.old ++ write_promela process (place_of here)) }
{
    let (node, team) = (here.node, here.team);
    write!(
        text,
        "    atomic {{ ACTION({process}); written_{node}_{team} = value }};\n"
    )
}

/// The action that applies the operation of a process at a node.
fn push_apply(text: &mut String, plan: &TreePlan, process: u8, node: u8) -> Result<(), AllocError>
    requires { Has (comes_to plan.now.teams node) process }
    ensures { OnOk result (string_bytes text.new
        ≡ string_bytes text.old ++ apply_promela plan.now process node) }
{
    push_selection(text, process)?;
    push_rows(text, plan, process, node)?;
    text.push_str(" fi };\n")
}

/// The start of an action that is a selection.
fn push_selection(text: &mut String, process: u8) -> Result<(), AllocError>
    ensures { OnOk result (string_bytes text.new
        ≡ string_bytes text.old ++ selection_promela process) }
{
    write!(text, "    atomic {{ ACTION({process}); if")
}

#[tactic(auto, using(cn_table::proofs::Lines::lines_more))]
fn push_rows(text: &mut String, plan: &TreePlan, process: u8, node: u8) -> Result<(), AllocError>
    requires { Has (comes_to plan.now.teams node) process }
    ensures { OnOk result (string_bytes text.new ≡ string_bytes text.old
        ++ flat_map (row_promela plan.now process node)
        (range_with_len 0 (length plan.now.table.states))) }
{
    for state in 0..plan.table().states() {
        push_row(text, plan, process, node, State(state))?;
    }
    Ok(())
}

/// The effect of the operation of a process at a node in a state.
fn push_row(
    text: &mut String,
    plan: &TreePlan,
    process: u8,
    node: u8,
    state: State,
) -> Result<(), AllocError>
    requires process { Has (comes_to plan.now.teams node) process }
    requires state { state.0 < length plan.now.table.states }
    ensures { OnOk result (string_bytes text.new
        ≡ string_bytes text.old ++ row_promela plan.now process node state.0) }
{
    let (response, next) = plan.act(node, process, state);
    let (before, given, after) = (state.0, response.0, next.0);
    write!(
        text,
        " :: object_{node} == {before} -> response = {given}; object_{node} = {after}"
    )
}

/// The action that looks at the object, if the processes of the node look, and the one that takes
/// the value of the team that the process judges to have been first.
fn push_look(text: &mut String, plan: &TreePlan, process: u8, node: u8) -> Result<(), AllocError>
    requires node { node < nodes_of (tree_of plan.now) }
    requires process { Has (comes_to plan.now.teams node) process }
    ensures { OnOk result (string_bytes text.new
        ≡ string_bytes text.old ++ look_promela plan.now process node) }
{
    let sight = plan.sight(node);
    let judged = plan.judged(node, process);
    push_see(text, plan.table(), sight, process, node)?;
    push_take(text, sight.looks(), process, node, judged)
}

fn push_see(
    text: &mut String,
    table: &Table,
    sight: Sight,
    process: u8,
    node: u8,
) -> Result<(), AllocError>
    requires { IsSightOf table.now (sight_of sight) }
    ensures { OnOk result (string_bytes text.new
        ≡ string_bytes text.old ++ see_promela table.now sight process node) }
{
    match sight {
        Sight::State => push_read(text, process, node),
        Sight::Nothing => Ok(()),
        Sight::Response(operation) => push_answers(text, table, operation, process, node),
    }
}

fn push_read(text: &mut String, process: u8, node: u8) -> Result<(), AllocError>
    ensures { OnOk result (string_bytes text.new
        ≡ string_bytes text.old ++ read_promela process node) }
{
    write!(
        text,
        "    atomic {{ ACTION({process}); saw = object_{node} }};\n"
    )
}

/// The action that looks by an operation.
fn push_answers(
    text: &mut String,
    table: &Table,
    operation: Operation,
    process: u8,
    node: u8,
) -> Result<(), AllocError>
    requires { operation.0 < length table.now.operations }
    ensures { OnOk result (string_bytes text.new
        ≡ string_bytes text.old ++ answers_promela table.now operation.0 process node) }
{
    push_selection(text, process)?;
    push_answer_rows(text, table, operation, node)?;
    text.push_str(" fi };\n")
}

#[tactic(auto, using(cn_table::proofs::Lines::lines_more))]
fn push_answer_rows(
    text: &mut String,
    table: &Table,
    operation: Operation,
    node: u8,
) -> Result<(), AllocError>
    requires { operation.0 < length table.now.operations }
    ensures { OnOk result (string_bytes text.new ≡ string_bytes text.old
        ++ flat_map (answer_promela table.now operation.0 node)
        (range_with_len 0 (length table.now.states))) }
{
    for state in 0..table.states() {
        push_answer(text, table, operation, node, State(state))?;
    }
    Ok(())
}

/// The response of the operation of a look in a state.
fn push_answer(
    text: &mut String,
    table: &Table,
    operation: Operation,
    node: u8,
    state: State,
) -> Result<(), AllocError>
    requires operation { operation.0 < length table.now.operations }
    requires state { state.0 < length table.now.states }
    ensures { OnOk result (string_bytes text.new
        ≡ string_bytes text.old ++ answer_promela table.now operation.0 node state.0) }
{
    let (response, _) = table.apply(operation, state);
    let (before, given) = (state.0, response.0);
    write!(text, " :: object_{node} == {before} -> saw = {given}")
}

fn push_take(
    text: &mut String,
    looks: bool,
    process: u8,
    node: u8,
    judged: &[Judged],
) -> Result<(), AllocError>
    ensures { OnOk result (string_bytes text.new
        ≡ string_bytes text.old ++ take_promela looks process node judged.now) }
{
    push_selection(text, process)?;
    push_judged(text, looks, node, judged)?;
    text.push_str(" :: else -> assert(false) fi")
}

fn push_judged(
    text: &mut String,
    looks: bool,
    node: u8,
    judged: &[Judged],
) -> Result<(), AllocError>
    ensures { OnOk result (string_bytes text.new
        ≡ string_bytes text.old ++ flat_map (judged_promela looks node) judged.now) }
{
    for entry in judged {
        push_entry(text, looks, node, *entry)?;
    }
    Ok(())
}

/// The register that a process takes for a response, and for what it sees if it looks.
#[tactic(auto, unfolding(crate::specs::Promela::judged_promela))]
fn push_entry(text: &mut String, looks: bool, node: u8, entry: Judged) -> Result<(), AllocError>
    ensures { OnOk result (string_bytes text.new
        ≡ string_bytes text.old ++ judged_promela looks node entry) }
{
    write!(text, " :: response == {}", entry.response.0)?;
    push_saw(text, looks, entry.saw)?;
    push_value(text, node, entry.team)
}

#[tactic(auto, unfolding(crate::specs::Promela::value_promela))]
fn push_value(text: &mut String, node: u8, team: u8) -> Result<(), AllocError>
    ensures { OnOk result (string_bytes text.new
        ≡ string_bytes text.old ++ value_promela node team) }
{
    write!(text, " -> value = written_{node}_{team}")
}

fn push_saw(text: &mut String, looks: bool, saw: u8) -> Result<(), AllocError>
    ensures { OnOk result (string_bytes text.new
        ≡ string_bytes text.old ++ saw_promela looks saw) }
{
    if looks {
        write!(text, " && saw == {saw}")
    } else {
        Ok(())
    }
}

/// The end of the last action at a place; with its last action a process decides.
fn push_end(text: &mut String, plan: &TreePlan, process: u8, place: usize) -> Result<(), AllocError>
    requires process { process < processes_of (tree_of plan.now) }
    requires place { place < place_count plan.now process }
    ensures { OnOk result (string_bytes text.new
        ≡ string_bytes text.old ++ end_promela plan.now process place) }
{
    let places = path_len(plan, process);
    if place + 1 == places {
        let steps = plan.steps(process);
        write!(text, "; decide({process}, value, {steps}) }};\n")
    } else {
        text.push_str(" };\n")
    }
}
