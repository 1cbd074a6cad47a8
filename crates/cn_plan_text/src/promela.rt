//! A plan as a model in Promela.
ghost use Rattle.std.specs.Prelude.{◌≡◌, ◌<◌, ◌++◌, IfOk, OnOk, flat_map, length, string_bytes};
ghost use Rattle.std.specs.List.{range_with_len};
ghost use Rattle.cn_proto.specs.Plan.{processes_of, protocol_of};
ghost use Rattle.cn_proto.specs.Sound.{IsPlace};
ghost use Rattle.cn_plan_text.specs.Places.{places_of};
ghost use Rattle.cn_plan_text.specs.Promela.{actions_promela, apply_promela, end_promela, nodes_promela, other_promela, pair_promela, place_promela, plan_promela};
ghost use Rattle.cn_plan_text.specs.Promela.{process_promela, proctype_promela, read_promela, row_promela, rules_promela, selection_promela, stand_promela, take_promela, write_promela};

use crate::places::place_at;
use cn_proto::{Place, Plan};
use cn_table::State;
use std::alloc::{AllocError, Global};

/// A plan as a model in Promela: a process for each process of the plan. It takes the four actions
/// at each place of its path, one `atomic` each, and may stop before each. It begins with its own
/// number as the value. Assertions say of each decision that it is the value of a process that has
/// moved, that it equals every other decision, and that it comes with action 4k, where k is the
/// number of places on the path; 4k is at most 4(n-1) for n processes. The last byte is a line feed.
///
/// Names consist of lower case letters, digits and underscores, so none is escaped.
///
/// # Errors
///
/// `AllocError` if memory runs out.
#[tactic(auto, unfolding(crate::specs::Promela::plan_promela))]
pub fn plan_promela(alloc: Global, plan: &Plan) -> Result<String, AllocError>
    // promise: forms-of-a-plan (plan_promela)
    ensures { IfOk result (λ text. string_bytes text ≡ plan_promela plan.now) }
{
    let mut text = String::new(alloc);
    push_nodes(&mut text, plan)?;
    push_rules(&mut text, plan.processes())?;
    push_processes(&mut text, plan)?;
    Ok(text)
}

/// For each node its object and its registers.
fn push_nodes(text: &mut String, plan: &Plan) -> Result<(), AllocError>
    ensures { OnOk result (string_bytes text.new
        ≡ string_bytes text.old ++ nodes_promela plan.now) }
{
    let (nodes, state) = (plan.nodes(), plan.start());
    let (name, start) = (plan.table().name(), plan.table().state_name(state));
    write!(
        text,
        "/* {name} from {start} */\nbyte object[{nodes}] = {};\n",
        state.0
    )?;
    write!(
        text,
        "byte written_A[{nodes}] = 255;\nbyte written_B[{nodes}] = 255;\n"
    )
}

/// The rules for each of the processes: its actions, and its decision with its assertions.
#[tactic(auto, unfolding(crate::specs::Promela::rules_promela))]
fn push_rules(text: &mut String, processes: u8) -> Result<(), AllocError>
    ensures { OnOk result (string_bytes text.new
        ≡ string_bytes text.old ++ rules_promela processes) }
{
    write!(
        text,
        "byte taken[{processes}];
byte agreed = 255;

#define ACTION(p) if :: goto stopped :: taken[p]++ fi

inline decide(p, value, needed) {{
    assert(value != 255);
    assert(taken[value] > 0);
    assert(agreed == 255 || agreed == value);
    assert(taken[p] == needed && needed <= 4 * ({processes} - 1));
    agreed = value
}}
"
    )
}

#[tactic(auto, using(cn_table::proofs::Lines::lines_more))]
fn push_processes(text: &mut String, plan: &Plan) -> Result<(), AllocError>
    ensures { OnOk result (string_bytes text.new
        ≡ string_bytes text.old
        ++ flat_map (process_promela plan.now) (range_with_len 0 (processes_of plan.now))) }
{
    for process in 0..plan.processes() {
        push_process(text, plan, process)?;
    }
    Ok(())
}

fn push_process(text: &mut String, plan: &Plan, process: u8) -> Result<(), AllocError>
    requires { process < processes_of plan.now }
    ensures { OnOk result (string_bytes text.new
        ≡ string_bytes text.old ++ process_promela plan.now process) }
{
    push_proctype(text, process)?;
    push_places(text, plan, process)?;
    text.push_str("stopped:\n    skip\n}\n")
}

fn push_proctype(text: &mut String, process: u8) -> Result<(), AllocError>
    ensures { OnOk result (string_bytes text.new
        ≡ string_bytes text.old ++ proctype_promela process) }
{
    write!(
        text,
        "\nactive proctype process_{process}() {{\n    byte value = {process}, response, state;\n"
    )
}

#[tactic(auto, using(cn_table::proofs::Lines::lines_more))]
fn push_places(text: &mut String, plan: &Plan, process: u8) -> Result<(), AllocError>
    requires { process < processes_of plan.now }
    ensures { OnOk result (string_bytes text.new
        ≡ string_bytes text.old
        ++ flat_map (place_promela plan.now process)
        (range_with_len 0 (places_of plan.now process))) }
{
    for place in 0..plan.path(process).len() {
        push_place(text, plan, process, place)?;
    }
    Ok(())
}

/// The four actions at a place: to write, to apply the operation, to read, and to take a value.
fn push_place(text: &mut String, plan: &Plan, process: u8, place: usize) -> Result<(), AllocError>
    requires { IsPlace (protocol_of plan.now) (processes_of plan.now) process place }
    ensures { OnOk result (string_bytes text.new
        ≡ string_bytes text.old ++ place_promela plan.now process place) }
{
    push_actions(text, plan, process, place_at(plan, process, place))?;
    push_end(text, plan, process, place)
}

#[tactic(auto, unfolding(crate::specs::Promela::actions_promela))]
fn push_actions(text: &mut String, plan: &Plan, process: u8, here: Place) -> Result<(), AllocError>
    requires { here.role < processes_of plan.now }
    ensures { OnOk result (string_bytes text.new
        ≡ string_bytes text.old ++ actions_promela plan.now process here) }
{
    push_stand(text, plan, here)?;
    push_write(text, process, here)?;
    push_apply(text, plan, process, here)?;
    push_take(text, plan, process, here)
}

fn push_stand(text: &mut String, plan: &Plan, here: Place) -> Result<(), AllocError>
    requires { here.role < processes_of plan.now }
    ensures { OnOk result (string_bytes text.new
        ≡ string_bytes text.old ++ stand_promela plan.now here) }
{
    let (node, team, role) = (here.node, here.team.name(), here.role);
    let operation = plan.table().operation_name(plan.operation(role));
    write!(
        text,
        "    /* node {node}, team {team}, role {role}: {operation} */\n"
    )
}

/// The action that writes the value of a process into the register of its team.
fn push_write(text: &mut String, process: u8, here: Place) -> Result<(), AllocError>
    ensures { OnOk result (string_bytes text.new
        ≡ string_bytes text.old ++ write_promela process here) }
{
    let (node, team) = (here.node, here.team.name());
    write!(
        text,
        "    atomic {{ ACTION({process}); written_{team}[{node}] = value }};\n"
    )
}

/// The action that applies the operation of a role, and the one that reads the state.
fn push_apply(text: &mut String, plan: &Plan, process: u8, here: Place) -> Result<(), AllocError>
    requires { here.role < processes_of plan.now }
    ensures { OnOk result (string_bytes text.new
        ≡ string_bytes text.old ++ apply_promela plan.now process here) }
{
    push_selection(text, process)?;
    push_rows(text, plan, here)?;
    push_read(text, process, here.node)
}

/// The start of an action that is a selection.
fn push_selection(text: &mut String, process: u8) -> Result<(), AllocError>
    ensures { OnOk result (string_bytes text.new
        ≡ string_bytes text.old ++ selection_promela process) }
{
    write!(text, "    atomic {{ ACTION({process}); if")
}

/// The end of the action that applies an operation, and the action that reads the state.
fn push_read(text: &mut String, process: u8, node: u8) -> Result<(), AllocError>
    ensures { OnOk result (string_bytes text.new
        ≡ string_bytes text.old ++ read_promela process node) }
{
    write!(
        text,
        " fi }};\n    atomic {{ ACTION({process}); state = object[{node}] }};\n"
    )
}

#[tactic(auto, using(cn_table::proofs::Lines::lines_more))]
fn push_rows(text: &mut String, plan: &Plan, here: Place) -> Result<(), AllocError>
    requires { here.role < processes_of plan.now }
    ensures { OnOk result (string_bytes text.new
        ≡ string_bytes text.old
        ++ flat_map (row_promela plan.now here) (range_with_len 0 (length plan.now.table.states))) }
{
    for state in 0..plan.table().states() {
        push_row(text, plan, here, State(state))?;
    }
    Ok(())
}

/// The effect of the operation of the role in a state.
fn push_row(text: &mut String, plan: &Plan, here: Place, state: State) -> Result<(), AllocError>
    requires role { here.role < processes_of plan.now }
    requires state { state.0 < length plan.now.table.states }
    ensures { OnOk result (string_bytes text.new
        ≡ string_bytes text.old ++ row_promela plan.now here state.0) }
{
    let (response, next) = plan.act(here.role, state);
    let (node, before, given, after) = (here.node, state.0, response.0, next.0);
    write!(
        text,
        " :: object[{node}] == {before} -> response = {given}; object[{node}] = {after}"
    )
}

/// The action that takes the value of the team that the role judges to have been first.
fn push_take(text: &mut String, plan: &Plan, process: u8, here: Place) -> Result<(), AllocError>
    requires { here.role < processes_of plan.now }
    ensures { OnOk result (string_bytes text.new
        ≡ string_bytes text.old ++ take_promela plan.now process here) }
{
    push_selection(text, process)?;
    push_pairs(text, here.node, plan.judged_pairs(here.role))?;
    push_other(text, here.node)
}

/// For every other pair a process takes the value of team B.
fn push_other(text: &mut String, node: u8) -> Result<(), AllocError>
    ensures { OnOk result (string_bytes text.new ≡ string_bytes text.old ++ other_promela node) }
{
    write!(text, " :: else -> value = written_B[{node}] fi")
}

fn push_pairs(text: &mut String, node: u8, pairs: &[(u8, u8)]) -> Result<(), AllocError>
    ensures { OnOk result (string_bytes text.new
        ≡ string_bytes text.old ++ flat_map (pair_promela node) pairs.now) }
{
    for pair in pairs {
        push_pair(text, node, pair)?;
    }
    Ok(())
}

#[tactic(auto, unfolding(crate::specs::Promela::pair_promela))]
fn push_pair(text: &mut String, node: u8, pair: &(u8, u8)) -> Result<(), AllocError>
    ensures { OnOk result (string_bytes text.new
        ≡ string_bytes text.old ++ pair_promela node pair.now) }
{
    let (response, state) = *pair;
    write!(
        text,
        " :: response == {response} && state == {state} -> value = written_A[{node}]"
    )
}

/// The end of the fourth action; with its last action a process decides.
fn push_end(text: &mut String, plan: &Plan, process: u8, place: usize) -> Result<(), AllocError>
    requires { IsPlace (protocol_of plan.now) (processes_of plan.now) process place }
    ensures { OnOk result (string_bytes text.new
        ≡ string_bytes text.old ++ end_promela plan.now process place) }
{
    let places = plan.path(process).len();
    if place + 1 == places {
        write!(text, "; decide({process}, value, 4 * {places}) }};\n")
    } else {
        text.push_str(" };\n")
    }
}
