//! The actions of a process at a place of its path.
ghost use Rattle.std.specs.Prelude.{◌≡◌, ◌+◌, ◌<◌, IfSome, length};
ghost use Rattle.cn_trees.specs.Steps.{behind, onward};
ghost use Rattle.cn_tree_plans.specs.Paths.{place_of};
ghost use Rattle.cn_tree_plans.specs.Plan.{tree_of};
ghost use Rattle.cn_tree_rounds.specs.Actions.{IsOfTable, judged_behind, looking, taking};
ghost use Rattle.cn_tree_rounds.specs.Turns.{IsTurn, action_at_turn, local_after, node_after};
ghost use Rattle.cn_tree_rounds.specs.Worlds.{local_of, stage_of};

use crate::action::Action;
use crate::local::{Local, Stage};
use crate::node::Node;
use cn_meetings::Sight;
use cn_table::{Response, State};
use cn_tree_plans::laws::tree_plans_are_right;
use cn_tree_plans::{Place, TreePlan};

/// The turn of a process: its place, the number of this place on its path, the number of places
/// there, its value, and its next action.
#[derive(Clone, Copy, Debug)]
pub(crate) struct Turn {
    pub process: u8,
    pub here: Place,
    pub place: usize,
    pub places: usize,
    pub value: u64,
    pub stage: Stage,
}

impl Turn {
    /// The action at the node, and the local state of the process after it.
    pub(crate) fn act(self, plan: &TreePlan, node: &mut Node) -> Local
        requires turn { IsTurn plan.now self }
        requires state { node.old.state.0 < length plan.now.table.states }
        ensures node { node.new ≡ node_after plan.now self node.old }
        ensures local { local_of result ≡ local_after plan.now self node.old }
        ensures state { node.new.state.0 < length plan.now.table.states }
    {
        tree_plans_are_right(plan);
        let at = self.here.node;
        match self.stage {
            Stage::Write => {
                node.write(self.here.team, self.value);
                self.goes_on(Stage::Apply)
            }
            Stage::Apply => {
                let (response, next) = plan.act(at, self.process, node.state);
                node.state = next;
                self.goes_on(self.behind(plan, response))
            }
            Stage::Look(response) => {
                let saw = plan.see(at, node.state);
                self.goes_on(Stage::Take(response, saw))
            }
            Stage::Take(response, saw) => {
                let first = plan.judge(at, self.process, response, saw);
                match node.register(first) {
                    Some(value) => self.onward(value),
                    // A process that has applied finds the register of the first team written.
                    None => self.goes_on(self.stage),
                }
            }
        }
    }

    /// The action of this turn. None if the register from which the process takes its next value is
    /// empty.
    pub(crate) fn action(self, plan: &TreePlan, node: &Node) -> Option<Action>
        requires turn { IsTurn plan.now self }
        requires state { node.now.state.0 < length plan.now.table.states }
        ensures action { result ≡ action_at_turn plan.now self node.now }
        ensures table { IfSome result (IsOfTable plan.now.table) }
    {
        tree_plans_are_right(plan);
        let at = self.here.node;
        match self.stage {
            Stage::Write => Some(Action::Write {
                node: at,
                team: self.here.team,
                value: self.value,
            }),
            Stage::Apply => {
                let (response, after) = plan.act(at, self.process, node.state);
                Some(Action::Apply {
                    node: at,
                    operation: plan.operation(at, self.process),
                    response,
                    before: node.state,
                    after,
                    team: self.judged_behind(plan, response),
                })
            }
            Stage::Look(response) => Some(self.looking(plan, response, node.state)),
            Stage::Take(response, saw) => {
                let team = plan.judge(at, self.process, response, saw);
                Some(self.taking(team, node.register(team)?))
            }
        }
    }

    /// The local state with another next action.
    fn goes_on(self, stage: Stage) -> Local
        ensures { result ≡ Local.Active self.place self.value stage }
    {
        Local::Active {
            place: self.place,
            value: self.value,
            stage,
        }
    }

    /// The next action behind an operation with this response.
    fn behind(self, plan: &TreePlan, response: Response) -> Stage
        requires { IsTurn plan.now self }
        ensures { stage_of result
            ≡ behind (tree_of plan.now) self.process (place_of self.here) response.0 }
    {
        if plan.looks(self.here.node) {
            Stage::Look(response)
        } else {
            Stage::Take(response, 0)
        }
    }

    /// The team that a process judges by its response alone, if it does not look.
    fn judged_behind(self, plan: &TreePlan, response: Response) -> Option<u8>
        requires { IsTurn plan.now self }
        ensures { result
            ≡ judged_behind (tree_of plan.now) self.here.node self.process response.0 }
    {
        let at = self.here.node;
        if plan.looks(at) {
            None
        } else {
            Some(plan.judge(at, self.process, response, 0))
        }
    }

    /// The action in which it looks at the object in this state. Its operation got this response.
    fn looking(self, plan: &TreePlan, response: Response, state: State) -> Action
        requires turn { IsTurn plan.now self }
        requires state { state.0 < length plan.now.table.states }
        ensures action { result
            ≡ looking (tree_of plan.now) self.here.node self.process response.0 state.0 }
        ensures table { IsOfTable plan.now.table result }
    {
        let node = self.here.node;
        let saw = plan.see(node, state);
        let team = plan.judge(node, self.process, response, saw);
        match plan.sight(node) {
            Sight::State => Action::Read { node, state, team },
            // A process that does not look takes no such action.
            Sight::Nothing => Action::Read { node, state, team },
            Sight::Response(operation) => {
                let (response, _) = plan.table().apply(operation, state);
                Action::Look {
                    node,
                    operation,
                    response,
                    team,
                }
            }
        }
    }

    /// The process goes on with the value that it took: to the next place of its path, or from the
    /// last place to its decision.
    fn onward(self, value: u64) -> Local
        requires { self.place < self.places }
        ensures { local_of result ≡ onward self.places self.place value }
    {
        if self.place + 1 < self.places {
            Local::Active {
                place: self.place + 1,
                value,
                stage: Stage::Write,
            }
        } else {
            Local::Decided(value)
        }
    }

    /// The action in which it takes this value from the register of a team.
    fn taking(self, team: u8, value: u64) -> Action
        requires { self.place < self.places }
        ensures { result ≡ taking self.places self.place self.here.node team value }
    {
        if self.place + 1 < self.places {
            Action::Take {
                node: self.here.node,
                team,
                value,
            }
        } else {
            Action::Decide { value }
        }
    }
}
