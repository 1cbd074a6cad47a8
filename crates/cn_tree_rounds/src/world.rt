//! The world of a plan tree: its nodes and its processes.
ghost use Rattle.std.specs.Prelude.{◌≡◌, ◌<◌, IfOk, IfSome, length, map};
ghost use Rattle.std.specs.List.{range_with_len};
ghost use Rattle.cn_trees.specs.Consensus.{decision_of};
ghost use Rattle.cn_trees.specs.Steps.{after_step, first_world};
ghost use Rattle.cn_trees.specs.Tree.{nodes_of, processes_of};
ghost use Rattle.cn_tree_plans.specs.Plan.{meeting_in, tree_of};
ghost use Rattle.cn_tree_rounds.specs.Actions.{IsOfTable, action_of};
ghost use Rattle.cn_tree_rounds.specs.Schedules.{input_of};
ghost use Rattle.cn_tree_rounds.specs.Turns.{IsTurnOf};
ghost use Rattle.cn_tree_rounds.specs.Worlds.{IsOfPlan, fresh_node, local_of, world_of};

use crate::action::Action;
use crate::local::{Local, Stage};
use crate::node::Node;
use crate::turn::Turn;
use cn_tree_plans::TreePlan;
use cn_tree_plans::laws::tree_plans_are_right;
use std::alloc::{AllocError, Global};

/// The nodes of a plan tree, and the local state of each process.
#[derive(Debug, Drop)]
pub(crate) struct World {
    nodes: Vec<Node>,
    locals: Vec<Local>,
}

impl World {
    /// The world in which each process has its input and nothing has happened.
    pub(crate) fn new(alloc: Global, plan: &TreePlan, inputs: &[u64]) -> Result<World, AllocError>
        requires { length inputs.now ≡ processes_of (tree_of plan.now) }
        ensures world { IfOk result (λ w. world_of plan.now w
            ≡ first_world (tree_of plan.now) (input_of inputs.now)) }
        ensures of_plan { IfOk result (IsOfPlan plan.now) }
    {
        tree_plans_are_right(plan);
        Ok(World {
            nodes: first_nodes(alloc, plan)?,
            locals: first_locals(alloc, inputs)?,
        })
    }

    /// The turn of a process, if it has not decided.
    fn turn(&self, plan: &TreePlan, process: u8) -> Option<Turn>
        requires of_plan { IsOfPlan plan.now self.now }
        requires process { process < processes_of (tree_of plan.now) }
        ensures { IsTurnOf plan.now self.now process result }
    {
        match self.locals[usize::from(process)] {
            Local::Active {
                place,
                value,
                stage,
            } => {
                let path = plan.path(process);
                Some(Turn {
                    process,
                    here: path[place],
                    place,
                    places: path.len(),
                    value,
                    stage,
                })
            }
            Local::Decided(_) => None,
        }
    }

    /// One atomic step of a process. It does nothing if the process has decided.
    pub(crate) fn step(&mut self, plan: &TreePlan, process: u8)
        requires of_plan { IsOfPlan plan.now self.old }
        requires process { process < processes_of (tree_of plan.now) }
        ensures world { world_of plan.now self.new
            ≡ after_step (tree_of plan.now) process (world_of plan.now self.old) }
        ensures of_plan { IsOfPlan plan.now self.new }
    {
        tree_plans_are_right(plan);
        if let Some(turn) = self.turn(plan, process) {
            let node = &mut self.nodes[usize::from(turn.here.node)];
            self.locals[usize::from(process)] = turn.act(plan, node);
        }
    }

    /// The action of the next step of a process. None if it has decided.
    pub(crate) fn next_action(&self, plan: &TreePlan, process: u8) -> Option<Action>
        requires of_plan { IsOfPlan plan.now self.now }
        requires process { process < processes_of (tree_of plan.now) }
        ensures action { result ≡ action_of (tree_of plan.now) process (world_of plan.now self.now) }
        ensures table { IfSome result (IsOfTable plan.now.table) }
    {
        let turn = self.turn(plan, process)?;
        turn.action(plan, &self.nodes[usize::from(turn.here.node)])
    }

    /// The decision of each process, if it has one.
    pub(crate) fn decisions(&self, alloc: Global) -> Result<Vec<Option<u64>>, AllocError>
        ensures { IfOk result (λ decisions. decisions.items
            ≡ map (λ x. decision_of (local_of x)) self.now.locals.items) }
    {
        self.locals.iter().map(Local::decision).collect(alloc)
    }
}

/// The nodes of a plan before any step.
fn first_nodes(alloc: Global, plan: &TreePlan) -> Result<Vec<Node>, AllocError>
    ensures { IfOk result (λ nodes. nodes.items
        ≡ map (λ v. fresh_node (meeting_in plan.now.teams plan.now.meetings v).start)
        (range_with_len 0 (nodes_of (tree_of plan.now)))) }
{
    let mut nodes = Vec::new(alloc);
    for node in 0..plan.nodes() {
        let meeting = plan.meeting(node);
        nodes.push(Node::new(meeting.start))?;
    }
    Ok(nodes)
}

/// The processes before any step.
fn first_locals(alloc: Global, inputs: &[u64]) -> Result<Vec<Local>, AllocError>
    ensures { IfOk result (λ locals. locals.items ≡ map (λ x. Local.Active 0 x Stage.Write) inputs.now) }
{
    inputs
        .iter()
        .map(|value| Local::Active {
            place: 0,
            value: *value,
            stage: Stage::Write,
        })
        .collect(alloc)
}
