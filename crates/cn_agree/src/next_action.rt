//! The action of the next step of a process.
ghost use Rattle.std.specs.Prelude.{◌≡◌, ◌<◌, length, IfSome};
ghost use Rattle.cn_proto.specs.Plan.{processes_of};
ghost use Rattle.cn_agree.specs.Actions.{IsOfTable, action_at};

use crate::action::Turn;
use crate::local::Stage;
use crate::node::Node;
use cn_choice::Team;
use cn_proto::Plan;
use cn_table::{Operation, Response, State};

/// The action of a step.
#[derive(Clone, Copy, Debug, Drop)]
pub enum Action<V> {
    /// It writes its value to the register of its team at a node.
    Write {
        node: u8,
        team: Team,
        value: V,
    },
    /// It applies its operation to the object of a node, and gets this response. The object is in
    /// these states before the operation and after it.
    Apply {
        node: u8,
        operation: Operation,
        response: Response,
        before: State,
        after: State,
    },
    /// It reads this state of the object of a node, and judges that this team came first there.
    Read {
        node: u8,
        state: State,
        team: Team,
    },
    /// It reads this value in the register of a team at a node, and takes it to its next place.
    Take {
        node: u8,
        team: Team,
        value: V,
    },
    /// It reads this value at the last node of its path, and decides it.
    Decide {
        value: V,
    },
}

/// A step of a schedule: the process that it names, and its action.
#[derive(Clone, Copy, Debug, Drop)]
pub struct StepRecord<V> {
    /// The process.
    pub process: u8,
    /// Its action, or none if it has decided before.
    pub action: Option<Action<V>>,
}

/// The action of a process at its turn, with this value and this node. None if the register from
/// which the process takes its next value is empty.
pub(crate) fn action_at<V: Copy>(
    plan: &Plan,
    turn: Turn,
    value: V,
    node: &Node<V>,
) -> Option<Action<V>>
    requires role { turn.here.role < processes_of plan.now }
    requires place { turn.place < turn.places }
    requires state { node.now.state.0 < length plan.now.table.states }
    ensures action { result
        ≡ action_at plan.now turn.places turn.place turn.here value turn.stage node.now }
    ensures table { IfSome result (IsOfTable plan.now.table) }
{
    let Turn {
        here,
        place,
        places,
        stage,
    } = turn;
    let at = here.node;
    match stage {
        Stage::Write => Some(Action::Write {
            node: at,
            team: here.team,
            value,
        }),
        Stage::Apply => {
            let (response, after) = plan.act(here.role, node.state);
            Some(Action::Apply {
                node: at,
                operation: plan.operation(here.role),
                response,
                before: node.state,
                after,
            })
        }
        Stage::Read(response) => Some(Action::Read {
            node: at,
            state: node.state,
            team: plan.judge(here.role, response, node.state),
        }),
        Stage::Take(response, state) => {
            let team = plan.judge(here.role, response, state);
            let value = (*node.register(team))?;
            Some(if place + 1 < places {
                Action::Take {
                    node: at,
                    team,
                    value,
                }
            } else {
                Action::Decide { value }
            })
        }
    }
}
