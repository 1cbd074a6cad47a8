//! The actions of a process at a place of its path.
ghost use Rattle.std.specs.Prelude.{◌≡◌, ◌<◌, ◌≤◌, ◌+◌, ◌*◌, length};
ghost use Rattle.cn_proto.specs.Plan.{processes_of};
ghost use Rattle.cn_lives.specs.Steps.{held_at, local_after, objects_after, onward, onward_if};
ghost use Rattle.cn_lives.specs.Steps.{register_of, registers_after, stage_seen, state_at};
ghost use Rattle.cn_lives.specs.declared.local.Local.TheVariants.{Active};

use crate::local::{Local, Stage};
use crate::plan::RecordingPlan;
use cn_choice::Team;
use cn_proto::Place;
use cn_table::State;

/// The turn of a process: its place, the number of this place on its path, the number of places
/// there, its value, and its next action.
#[derive(Clone, Copy, Drop)]
pub(crate) struct Turn {
    pub here: Place,
    pub place: usize,
    pub places: usize,
    pub value: u64,
    pub stage: Stage,
}

impl Turn {
    /// The process stays at its place, with this next action.
    fn stays(self, stage: Stage) -> Local
        ensures { result ≡ Active self.place self.value stage }
    {
        Local::Active {
            place: self.place,
            value: self.value,
            stage,
        }
    }

    /// The process goes on with the value that a register holds, or stays with this next action.
    fn takes(self, held: Option<u64>, or: Stage) -> Local
        requires { self.place < self.places }
        ensures { result ≡ onward_if self.places self.place (Active self.place self.value or) held }
    {
        match held {
            None => self.stays(or),
            Some(value) if self.place + 1 < self.places => Local::Active {
                place: self.place + 1,
                value,
                stage: Stage::Write,
            },
            Some(value) => Local::Decided(value),
        }
    }
}

/// The number of the register of a team at a node.
pub(crate) fn register_of(node: u8, team: Team) -> usize
    ensures { result ≡ register_of node team }
{
    let low = 2 * usize::from(node);
    match team {
        Team::A => low,
        Team::B => low + 1,
    }
}

/// The stage of a process of this team after a look at this state.
fn stage_seen(plan: &RecordingPlan, team: Team, state: State) -> Stage
    requires { state.0 < length plan.now.plan.table.states }
    ensures { result ≡ stage_seen plan.now team state.0 }
{
    if state != plan.plan().start() {
        Stage::Take(plan.judge(state))
    } else if plan.is_lone() && team == Team::A {
        Stage::Peek
    } else {
        Stage::Act
    }
}

/// The local state of a process after its action.
pub(crate) fn local_after(
    plan: &RecordingPlan,
    turn: Turn,
    registers: &[Option<u64>],
    objects: &[State],
) -> Local
    requires place { turn.place < turn.places }
    requires node { turn.here.node < length objects.now }
    requires registers { 2 * length objects.now ≤ length registers.now }
    requires state { state_at objects.now turn.here.node < length plan.now.plan.table.states }
    ensures { result ≡ local_after plan.now turn.places turn.place turn.value turn.stage turn.here
        (state_at objects.now turn.here.node)
        (held_at registers.now turn.here.node) }
{
    let node = turn.here.node;
    let state = objects[usize::from(node)];
    match turn.stage {
        Stage::Write => turn.stays(Stage::Look),
        Stage::Look => turn.stays(stage_seen(plan, turn.here.team, state)),
        Stage::Peek => turn.takes(registers[register_of(node, Team::B)], Stage::Act),
        Stage::Act => turn.stays(Stage::Again),
        Stage::Again => turn.stays(Stage::Take(plan.judge(state))),
        Stage::Take(team) => turn.takes(registers[register_of(node, team)], turn.stage),
    }
}

/// What a process changes of what it shares with the others: it writes its value to the register of
/// its team, or it applies its operation to the object.
pub(crate) fn share(
    plan: &RecordingPlan,
    turn: Turn,
    registers: &mut [Option<u64>],
    objects: &mut [State],
)
    requires node { turn.here.node < length objects.old }
    requires registers { 2 * length objects.old ≤ length registers.old }
    requires role { turn.here.role < processes_of plan.now.plan }
    requires state { state_at objects.old turn.here.node < length plan.now.plan.table.states }
    ensures registers { registers.new
        ≡ registers_after turn.value turn.stage turn.here registers.old }
    ensures objects { objects.new ≡ objects_after plan.now turn.stage turn.here objects.old }
{
    let here = turn.here;
    match turn.stage {
        Stage::Write => registers[register_of(here.node, here.team)] = Some(turn.value),
        Stage::Act => {
            let object = &mut objects[usize::from(here.node)];
            let (_, next) = plan.plan().act(here.role, *object);
            *object = next;
        }
        Stage::Look | Stage::Peek | Stage::Again | Stage::Take(_) => {}
    }
}
