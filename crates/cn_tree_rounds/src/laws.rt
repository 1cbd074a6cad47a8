//! Laws of schedules along plan trees. A law is a function that does nothing: its contract is the
//! law.
ghost use Rattle.std.specs.Prelude.{ℕ, List, ◌≡◌, ◌<◌, ◌↔◌, IsNone, IsSome, length};
ghost use Rattle.cn_agree.specs.Consensus.{IsSchedule};
ghost use Rattle.cn_trees.specs.Consensus.{decision};
ghost use Rattle.cn_trees.specs.Steps.{world_after};
ghost use Rattle.cn_trees.specs.Tree.{IsPlanTree, PlanTree, processes_of};
ghost use Rattle.cn_tree_plans.specs.Plan.{TreePlan, tree_of};
ghost use Rattle.cn_tree_rounds.specs.Actions.{action_of};
ghost use Rattle.cn_tree_rounds.specs.Consensus.{IsConsensus};
ghost use Rattle.cn_tree_rounds.specs.Schedules.{decisions_after};

use cn_trees::laws::plan_trees_agree;

/// Every schedule of a plan tree, with any inputs, ends in consensus: agreement, validity, and
/// wait-freedom with the exact number of steps.
pub fn schedules_agree()
    // promise: consensus-along-a-plan-tree (IsConsensus: agreement, validity, in_time)
    ensures { (plan : TreePlan) → IsPlanTree (tree_of plan) → (inputs schedule : List ℕ)
        → length inputs ≡ processes_of (tree_of plan)
        → IsSchedule (processes_of (tree_of plan)) schedule
        → IsConsensus plan inputs schedule (decisions_after plan inputs schedule) }
{
    plan_trees_agree::<u64>();
}

/// After each schedule a process has no next action exactly if it has decided: it never finds the
/// register empty from which it takes a value.
pub fn actions_are_told()
    // promise: steps-along-a-plan-tree
    ensures { (T : PlanTree) → IsPlanTree T → (inputs : ℕ → ℕ) (schedule : List ℕ) (p : ℕ)
        → IsSchedule (processes_of T) schedule → p < processes_of T
        → IsNone (action_of T p (world_after T inputs schedule))
        ↔ IsSome (decision (world_after T inputs schedule) p) }
{}
