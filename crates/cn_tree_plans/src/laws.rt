//! Laws of plan trees in memory. A law is a function that does nothing: its contract is the law.
ghost use Rattle.std.specs.Prelude.{ℕ, List, Bool, ◌<◌, ◌≤◌, All, length, slice_index_or};
ghost use Rattle.cn_agree.specs.Consensus.{IsSchedule};
ghost use Rattle.cn_meetings.specs.Meeting.{Sight};
ghost use Rattle.cn_meetings.specs.Sights.{sight_of};
ghost use Rattle.cn_meetings.specs.Witness.{Has};
ghost use Rattle.cn_trees.specs.Consensus.{IsConsensus};
ghost use Rattle.cn_trees.specs.Tree.{IsPlanTree, comes_to, nodes_of, processes_of};
ghost use Rattle.cn_tree_costs.specs.Cost.{IsTreeFor};
ghost use Rattle.cn_tree_plans.specs.Plan.{IsTreePlan, judged_at, no_meeting, tree_of};
ghost use Rattle.cn_tree_plans.specs.Sights.{HasSights, seen_count};

use crate::plan::TreePlan;
use cn_tree_costs::laws::nodes_are_trees;
use cn_trees::laws::{plan_trees_agree, witnesses_make_plan_trees};

/// The laws of plan trees in memory:
///
/// - `plan`: each process judges exactly what it is shown;
/// - `right`: so it is right about the team that came first;
/// - `tree`: and the plan is a uniform tree of witnesses of its type, with the sights of its nodes.
pub fn tree_plans_are_right(plan: &TreePlan)
    // promise: tree-plans-are-right (IsTreePlan)
    ensures plan { IsTreePlan plan.now }
    // promise: tree-plans-are-right (IsPlanTree)
    ensures right { IsPlanTree (tree_of plan.now) }
    // promise: tree-plans-are-right (IsTreeFor)
    ensures tree { (allowed : Sight → Bool) → HasSights allowed plan.now
        → IsTreeFor plan.now.table allowed (processes_of (tree_of plan.now)) (tree_of plan.now) }
{
    nodes_are_trees();
    witnesses_make_plan_trees();
    let _ = &plan.meetings;
}

/// In every schedule of the processes of a plan tree, or of the first n of them, all decisions are
/// equal, and the input of a process that has taken a step. A process has decided exactly when it
/// has taken the steps of its path.
pub fn tree_plans_agree<V>(plan: &TreePlan)
    // promise: tree-plans-agree (IsConsensus: agreement, validity, in_time)
    ensures { (n : ℕ) → n ≤ processes_of (tree_of plan.now) → (inputs : ℕ → V) (schedule : List ℕ)
        → IsSchedule n schedule → IsConsensus (tree_of plan.now) n inputs schedule }
{
    tree_plans_are_right(plan);
    plan_trees_agree::<V>();
}

/// What the processes of a plan tree judge has responses of the type, and they can see it by the
/// sights of the nodes.
pub fn judgements_are_of_the_type(plan: &TreePlan)
    // promise: judgements-of-a-tree-plan
    ensures { (v p : ℕ) → v < nodes_of (tree_of plan.now) → Has (comes_to plan.now.teams v) p
        → All (λ j. (j.response.0 < length plan.now.table.responses)
        × (j.saw < seen_count plan.now.table
        (sight_of (slice_index_or plan.now.meetings v no_meeting).sight))) (judged_at plan.now v p) }
{
    tree_plans_are_right(plan);
}
