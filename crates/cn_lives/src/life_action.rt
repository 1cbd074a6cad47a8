//! What a process does in an event of a schedule.
ghost use Rattle.std.specs.Prelude.{◌≡◌, ◌<◌, ◌≤◌, ◌*◌, None, length};
ghost use Rattle.cn_proto.specs.Plan.{processes_of};
ghost use Rattle.cn_lives.specs.Courses.{IsOfTable, action_at, look, take_if};
ghost use Rattle.cn_lives.specs.Steps.{held_at, state_at};
ghost use Rattle.cn_lives.specs.declared.local.Stage.TheVariants.{Act};

use crate::local::Stage;
use crate::plan::RecordingPlan;
use crate::turn::{Turn, register_of};
use cn_agree::Action;
use cn_choice::Team;
use cn_table::State;

/// What a process remembers.
#[derive(Clone, Copy, Debug, Drop)]
pub enum Memory {
    /// The value with which it is at a node.
    Value { node: u8, value: u64 },
    /// The value that it has decided.
    Decision { value: u64 },
}

/// What a process does in an event.
#[derive(Clone, Copy, Debug, Drop)]
pub enum LifeAction {
    /// An action that a round without crashes has too.
    Common(Action<u64>),
    /// Before its operation, it reads this state of the object of a node: the start state.
    ReadStart { node: u8, state: State },
    /// It reads the register of a team at a node, which is empty.
    ReadEmpty { node: u8, team: Team },
    /// It has decided before, and does nothing.
    HasDecided,
    /// It crashes, forgets this, and begins again with its input.
    Crash { forgets: Memory },
}

/// An event of a schedule: the process that it names, and what this process does.
#[derive(Clone, Copy, Debug, Drop)]
pub struct LifeRecord {
    /// The process.
    pub process: u8,
    /// What it does.
    pub action: LifeAction,
}

/// A look at this state of the object of a node, before the operation.
fn look(plan: &RecordingPlan, node: u8, state: State) -> LifeAction
    requires { state.0 < length plan.now.plan.table.states }
    ensures action { result ≡ look plan.now node state.0 }
    ensures table { IsOfTable plan.now.plan.table result }
{
    if state == plan.plan().start() {
        return LifeAction::ReadStart { node, state };
    }
    LifeAction::Common(Action::Read {
        node,
        state,
        team: plan.judge(state),
    })
}

/// A read of the register of a team, which holds this, at the place of the turn.
fn take_if(plan: &RecordingPlan, turn: Turn, team: Team, held: Option<u64>) -> LifeAction
    requires { turn.place < turn.places }
    ensures action { result ≡ take_if turn.places turn.place turn.here.node team held }
    ensures table { IsOfTable plan.now.plan.table result }
{
    let _plan = plan;
    let node = turn.here.node;
    match held {
        None => LifeAction::ReadEmpty { node, team },
        Some(value) if turn.place + 1 < turn.places => {
            LifeAction::Common(Action::Take { node, team, value })
        }
        Some(value) => LifeAction::Common(Action::Decide { value }),
    }
}

/// The operation of the turn, on this state.
fn apply(plan: &RecordingPlan, turn: Turn, state: State) -> LifeAction
    requires role { turn.here.role < processes_of plan.now.plan }
    requires state { state.0 < length plan.now.plan.table.states }
    ensures action { result ≡ action_at plan.now turn.places turn.place turn.value Act turn.here
        state.0 (λ _. None) }
    ensures table { IsOfTable plan.now.plan.table result }
{
    let here = turn.here;
    let (response, after) = plan.plan().act(here.role, state);
    LifeAction::Common(Action::Apply {
        node: here.node,
        operation: plan.plan().operation(here.role),
        response,
        before: state,
        after,
    })
}

/// The action of a process at its turn.
pub(crate) fn action_at(
    plan: &RecordingPlan,
    turn: Turn,
    registers: &[Option<u64>],
    objects: &[State],
) -> LifeAction
    requires place { turn.place < turn.places }
    requires node { turn.here.node < length objects.now }
    requires registers { 2 * length objects.now ≤ length registers.now }
    requires role { turn.here.role < processes_of plan.now.plan }
    requires state { state_at objects.now turn.here.node < length plan.now.plan.table.states }
    ensures action { result ≡ action_at plan.now turn.places turn.place turn.value turn.stage
        turn.here (state_at objects.now turn.here.node) (held_at registers.now turn.here.node) }
    ensures table { IsOfTable plan.now.plan.table result }
{
    let node = turn.here.node;
    let state = objects[usize::from(node)];
    match turn.stage {
        Stage::Write => LifeAction::Common(Action::Write {
            node,
            team: turn.here.team,
            value: turn.value,
        }),
        Stage::Look => look(plan, node, state),
        Stage::Peek => take_if(plan, turn, Team::B, registers[register_of(node, Team::B)]),
        Stage::Act => apply(plan, turn, state),
        Stage::Again => LifeAction::Common(Action::Read {
            node,
            state,
            team: plan.judge(state),
        }),
        Stage::Take(team) => take_if(plan, turn, team, registers[register_of(node, team)]),
    }
}
