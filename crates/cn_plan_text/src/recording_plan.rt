//! The text of the plan of a recording witness for people.
ghost use Rattle.std.specs.Prelude.{◌≡◌, ◌<◌, ◌≤◌, ◌++◌, IfOk, OnOk, codes, flat_map, length, map, string_bytes};
ghost use Rattle.std.specs.List.{range_with_len};
ghost use Rattle.cn_proto.specs.Plan.{processes_of};
ghost use Rattle.cn_proto.specs.PlanText.{place_text};
ghost use Rattle.cn_table.specs.Texts.{joined_texts};
ghost use Rattle.cn_plan_text.specs.RecordingPlans.{head_line, judged_text, life_steps, most_life_steps, process_line, recording_plan_text, role_line, team_line, type_text};

use cn_choice::Team;
use cn_lives::RecordingPlan;
use cn_proto::laws::plans_are_sound;
use cn_proto::{Place, Plan};
use cn_table::State;
use std::alloc::{AllocError, Global};

/// The own steps that a process takes at a place, at most.
const STEPS_AT_A_PLACE: u8 = 6;

/// The own steps within which a process decides in a life that does not end: 6 at each place of its
/// path. It can decide with fewer.
pub fn life_steps(plan: &RecordingPlan, process: u8) -> u8
    requires { process < processes_of plan.now.plan }
    // promise: own-steps-of-a-recording-plan (life_steps)
    ensures steps { result ≡ life_steps plan.now process }
    // promise: own-steps-of-a-recording-plan
    ensures range { result ≤ 42 }
{
    plans_are_sound(plan.plan());
    let _processes = plan.plan().processes();
    STEPS_AT_A_PLACE * plan.plan().path(process).len() as u8
}

/// The greatest number of own steps within which a process decides: that of [`life_steps`] of the
/// process that has most.
pub fn most_life_steps(plan: &RecordingPlan) -> u8
    // promise: own-steps-of-a-recording-plan (most_life_steps)
    ensures { result ≡ most_life_steps plan.now }
{
    let mut most = 0;
    for process in 0..plan.plan().processes() {
        most = most.max(life_steps(plan, process));
    }
    most
}

/// The text of the plan of a recording witness for people: lines that each end with a line feed.
///
/// The first is `type T processes n nodes k start S steps s`, with the greatest number of own steps
/// ([`most_life_steps`]). Each team has a line `team X first: S S ..`: the states by which a process
/// judges that it came first. Each role has a line `role j X O`: its team and the name of its
/// operation. Last, each process has a line `process p steps s: ..` with its own steps
/// ([`life_steps`]) and its places from the lowest node to the root, each as `node N X role J`, with
/// a comma and a space between two.
///
/// # Errors
///
/// `AllocError` if memory runs out.
#[tactic(auto, unfolding(crate::specs::RecordingPlans::recording_plan_text))]
pub fn recording_plan_lines(alloc: Global, plan: &RecordingPlan) -> Result<String, AllocError>
    // promise: forms-of-a-recording-plan (recording_plan_text)
    ensures { IfOk result (λ text. string_bytes text ≡ recording_plan_text plan.now) }
{
    let mut text = String::new(alloc);
    push_head(&mut text, plan)?;
    push_team(&mut text, plan, Team::A)?;
    push_team(&mut text, plan, Team::B)?;
    push_roles(&mut text, plan)?;
    push_processes(&mut text, plan)?;
    Ok(text)
}

fn push_head(text: &mut String, plan: &RecordingPlan) -> Result<(), AllocError>
    ensures { OnOk result (string_bytes text.new ≡ string_bytes text.old ++ head_line plan.now) }
{
    let steps = most_life_steps(plan);
    push_type(text, plan.plan())?;
    write!(text, " steps {steps}\n")
}

fn push_type(text: &mut String, plan: &Plan) -> Result<(), AllocError>
    ensures { OnOk result (string_bytes text.new ≡ string_bytes text.old ++ type_text plan.now) }
{
    let table = plan.table();
    write!(text, "type {} processes {}", table.name(), plan.processes())?;
    write!(
        text,
        " nodes {} start {}",
        plan.nodes(),
        table.state_name(plan.start()),
    )
}

fn push_team(text: &mut String, plan: &RecordingPlan, side: Team) -> Result<(), AllocError>
    ensures { OnOk result (string_bytes text.new
        ≡ string_bytes text.old ++ team_line plan.now side) }
{
    let team = side.name();
    write!(text, "team {team} first:")?;
    push_states(text, plan, side)?;
    text.push_str("\n")
}

#[tactic(auto, using(cn_table::proofs::Lines::lines_more))]
fn push_states(text: &mut String, plan: &RecordingPlan, side: Team) -> Result<(), AllocError>
    ensures { OnOk result (string_bytes text.new ≡ string_bytes text.old
        ++ flat_map (judged_text plan.now side)
        (range_with_len 0 (length plan.now.plan.table.states))) }
{
    for state in 0..plan.plan().table().states() {
        push_state(text, plan, side, State(state))?;
    }
    Ok(())
}

/// The state, if it shows this team to have come first.
fn push_state(
    text: &mut String,
    plan: &RecordingPlan,
    side: Team,
    state: State,
) -> Result<(), AllocError>
    requires { state.0 < length plan.now.plan.table.states }
    ensures { OnOk result (string_bytes text.new
        ≡ string_bytes text.old ++ judged_text plan.now side state.0) }
{
    let name = plan.plan().table().state_name(state);
    match (plan.judge(state), side) {
        (Team::A, Team::A) | (Team::B, Team::B) => write!(text, " {name}"),
        (Team::A, Team::B) | (Team::B, Team::A) => Ok(()),
    }
}

#[tactic(auto, using(cn_table::proofs::Lines::lines_more))]
fn push_roles(text: &mut String, plan: &RecordingPlan) -> Result<(), AllocError>
    ensures { OnOk result (string_bytes text.new ≡ string_bytes text.old
        ++ flat_map (role_line plan.now) (range_with_len 0 (processes_of plan.now.plan))) }
{
    for role in 0..plan.plan().processes() {
        push_role(text, plan, role)?;
    }
    Ok(())
}

fn push_role(text: &mut String, plan: &RecordingPlan, role: u8) -> Result<(), AllocError>
    requires { role < processes_of plan.now.plan }
    ensures { OnOk result (string_bytes text.new
        ≡ string_bytes text.old ++ role_line plan.now role) }
{
    let plan = plan.plan();
    let team = plan.team(role).name();
    let operation = plan.table().operation_name(plan.operation(role));
    write!(text, "role {role} {team} {operation}\n")
}

#[tactic(auto, using(cn_table::proofs::Lines::lines_more))]
fn push_processes(text: &mut String, plan: &RecordingPlan) -> Result<(), AllocError>
    ensures { OnOk result (string_bytes text.new ≡ string_bytes text.old
        ++ flat_map (process_line plan.now) (range_with_len 0 (processes_of plan.now.plan))) }
{
    for process in 0..plan.plan().processes() {
        push_process(text, plan, process)?;
    }
    Ok(())
}

fn push_process(text: &mut String, plan: &RecordingPlan, process: u8) -> Result<(), AllocError>
    requires { process < processes_of plan.now.plan }
    ensures { OnOk result (string_bytes text.new
        ≡ string_bytes text.old ++ process_line plan.now process) }
{
    let steps = life_steps(plan, process);
    write!(text, "process {process} steps {steps}: ")?;
    push_places(text, plan.plan().path(process))?;
    text.push_str("\n")
}

fn push_places(text: &mut String, places: &[Place]) -> Result<(), AllocError>
    ensures { OnOk result (string_bytes text.new ≡ string_bytes text.old
        ++ joined_texts (codes ", ") (map place_text places.now)) }
{
    let [first, rest @ ..] = places else {
        return Ok(());
    };
    push_place(text, first)?;
    for place in rest {
        text.push_str(", ")?;
        push_place(text, place)?;
    }
    Ok(())
}

fn push_place(text: &mut String, place: &Place) -> Result<(), AllocError>
    ensures { OnOk result (string_bytes text.new ≡ string_bytes text.old ++ place_text place.now) }
{
    let (node, role) = (place.node, place.role);
    let team = place.team.name();
    write!(text, "node {node} {team} role {role}")
}
