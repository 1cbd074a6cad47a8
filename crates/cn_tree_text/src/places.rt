//! The places of a plan tree, and the processes of its nodes.
ghost use Rattle.std.specs.Prelude.{◌≡◌, ◌↔◌, ◌+◌, ◌<◌, ℕ, All, length};
ghost use Rattle.cn_meetings.specs.Sights.{sight_of};
ghost use Rattle.cn_meetings.specs.Witness.{Has};
ghost use Rattle.cn_trees.specs.Tree.{comes_to, nodes_of, processes_of};
ghost use Rattle.cn_tree_costs.specs.Nodes.{IsAmong, node_at};
ghost use Rattle.cn_tree_plans.specs.Paths.{place_of};
ghost use Rattle.cn_tree_plans.specs.Plan.{judged_at, tree_of};
ghost use Rattle.cn_tree_plans.specs.Sights.{seen_count};
ghost use Rattle.cn_tree_text.specs.Places.{first_at, place_at, place_count, sight_at, size_at};

use cn_tree_costs::laws::nodes_are_trees;
use cn_tree_plans::laws::judgements_are_of_the_type;
use cn_tree_plans::{Judged, Place, TreePlan};

/// A place of a path, whose node is one of the plan's, to which the process comes.
pub(crate) fn place_at(plan: &TreePlan, process: u8, place: usize) -> Place
    requires process { process < processes_of (tree_of plan.now) }
    requires place { place < place_count plan.now process }
    ensures place { place_of result ≡ place_at plan.now process place }
    ensures node { result.node < nodes_of (tree_of plan.now) }
    ensures comes { Has (comes_to plan.now.teams result.node) process }
{
    plan.path(process)[place]
}

/// The number of places on the path of a process.
pub(crate) fn path_len(plan: &TreePlan, process: u8) -> usize
    requires { process < processes_of (tree_of plan.now) }
    ensures { result ≡ place_count plan.now process }
{
    plan.path(process).len()
}

/// One more than the last process that comes to a node.
pub(crate) fn end_of(plan: &TreePlan, node: u8) -> u8
    requires { node < nodes_of (tree_of plan.now) }
    ensures { result ≡ first_at plan.now node + size_at plan.now node }
{
    let _most = plan.processes();
    let first = plan.first(node);
    first + plan.size(node)
}

/// What a process judges at a node, each with a response of the type, and with what it can see.
pub(crate) fn judged_of(plan: &TreePlan, node: u8, process: u8) -> &[Judged]
    requires node { node < nodes_of (tree_of plan.now) }
    requires process { Has (comes_to plan.now.teams node) process }
    ensures list { result.now ≡ judged_at plan.now node process }
    ensures known { All
        (λ j. (j.response.0 < length plan.now.table.responses)
        × (j.saw < seen_count plan.now.table (sight_of (sight_at plan.now node)))) result.now }
{
    judgements_are_of_the_type(plan);
    plan.judged(node, process)
}

/// The processes that come to a node have numbers from its first one on.
pub(crate) fn nodes_have_members(plan: &TreePlan)
    ensures { (v p : ℕ) → Has (comes_to plan.now.teams v) p
        ↔ IsAmong (node_at plan.now.teams v) p }
{
    nodes_are_trees();
}
