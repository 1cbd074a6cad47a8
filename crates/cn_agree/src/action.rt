//! The four actions of a process at a place of its path.
ghost use Rattle.std.specs.Prelude.{◌≡◌, ◌<◌, length};
ghost use Rattle.cn_proto.specs.Plan.{protocol_of, processes_of};
ghost use Rattle.cn_agree.specs.declared.local.Local.TheVariants.{Active};
ghost use Rattle.cn_agree.specs.Steps.{node_after, local_after, first_after as record_after, onward};

use crate::local::{Local, Stage};
use crate::node::Node;
use cn_choice::Team;
use cn_proto::{Place, Plan};

/// The turn of a process: its place, the number of this place on its path, the number of places
/// there, and its next action.
#[derive(Clone, Copy, Drop)]
pub(crate) struct Turn {
    pub here: Place,
    pub place: usize,
    pub places: usize,
    pub stage: Stage,
}

/// One action at a node, and the local state of the process after it. Of its values, the process
/// copies only the one that it writes or takes.
pub(crate) fn act<V: Copy>(plan: &Plan, turn: Turn, node: &mut Node<V>, local: &mut Local<V>)
    requires role { turn.here.role < processes_of plan.now }
    requires place { turn.place < turn.places }
    requires state { node.old.state.0 < length plan.now.table.states }
    ensures node { (x : V) → local.old ≡ Active turn.place x turn.stage
        → node.new ≡ node_after (protocol_of plan.now) turn.here x turn.stage node.old }
    ensures local { (x : V) → local.old ≡ Active turn.place x turn.stage
        → local.new
        ≡ local_after (protocol_of plan.now) turn.places turn.place turn.here x turn.stage
        node.old }
{
    let Turn {
        here,
        place,
        places,
        stage,
    } = turn;
    match stage {
        Stage::Write => {
            if let Local::Active { value, .. } = local {
                node.write(here.team, *value);
            }
            local.go_on(Stage::Apply);
        }
        Stage::Apply => {
            let (response, next) = plan.act(here.role, node.state);
            node.state = next;
            local.go_on(Stage::Read(response));
        }
        Stage::Read(response) => local.go_on(Stage::Take(response, node.state)),
        Stage::Take(response, state) => {
            // A process that has applied finds the register of the first team written.
            if let Some(value) = *node.register(plan.judge(here.role, response, state)) {
                go_onward(local, places, place, value);
            }
        }
    }
}

/// A process goes on from a place with the value that it took there: to the next place of its path,
/// or from the last place to its decision.
fn go_onward<V: Copy>(local: &mut Local<V>, places: usize, place: usize, value: V)
    requires { place < places }
    ensures { local.new ≡ onward places place value }
{
    if place + 1 < places {
        *local = Local::Active {
            place: place + 1,
            value,
            stage: Stage::Write,
        };
    } else {
        *local = Local::Decided(value);
    }
}

/// The team of the first application at the root, after an action here.
pub(crate) fn first_after(first: Option<Team>, here: Place, stage: Stage) -> Option<Team>
    ensures { result ≡ record_after first here stage }
{
    if stage == Stage::Apply && here.node == 0 && first.is_none() {
        Some(here.team)
    } else {
        first
    }
}
