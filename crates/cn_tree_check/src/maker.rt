//! From a plan tree to its certificate.
ghost use Rattle.std.specs.Prelude.{◌≡◌, ◌<◌, map, slice_index_or, IfOk};
ghost use Rattle.cn_trees.specs.Tree.{nodes_of};
ghost use Rattle.cn_tree_check.specs.Right.{IsCertificateOf, IsRight, meeting_of};
ghost use Rattle.cn_tree_check.specs.Sizes.{all_sizes, teams_at};
ghost use Rattle.cn_tree_costs.specs.Nodes.{node_at};
ghost use Rattle.cn_tree_costs.specs.Sizes.{sizes_of};
ghost use Rattle.cn_tree_plans.specs.Plan.{no_meeting, tree_of};

use cn_tree_cert::{TreeCertificate, TreeNode};
use cn_tree_plans::TreePlan;
use cn_tree_plans::laws::tree_plans_are_right;
use std::alloc::{AllocError, Global};

/// What a certificate says of a node.
fn node_of(alloc: Global, plan: &TreePlan, node: u8) -> Result<TreeNode, AllocError>
    requires { node < nodes_of (tree_of plan.now) }
    ensures meeting { IfOk result (λ n. meeting_of n
        ≡ slice_index_or plan.now.meetings node no_meeting) }
    ensures teams { IfOk result (λ n. n.teams ≡ sizes_of (node_at plan.now.teams node).teams) }
{
    let meeting = plan.meeting(node);
    let operations = Vec::from_slice(alloc, meeting.operations.as_slice())?;
    let teams = plan.sizes(alloc, node)?;
    Ok(TreeNode {
        start: meeting.start,
        sight: meeting.sight,
        operations,
        teams,
    })
}

/// The nodes of a plan tree, in the order of their numbers.
fn all_nodes(alloc: Global, plan: &TreePlan) -> Result<Vec<TreeNode>, AllocError>
    ensures meetings { IfOk result (λ nodes. map meeting_of nodes.items ≡ plan.now.meetings) }
    ensures teams { IfOk result (λ nodes. teams_at nodes.items ≡ all_sizes plan.now.teams) }
{
    tree_plans_are_right(plan);
    let mut nodes = Vec::new(alloc);
    for node in 0..plan.nodes() {
        let here = node_of(alloc, plan, node)?;
        nodes.push(here)?;
    }
    Ok(nodes)
}

/// The certificate of a plan tree.
///
/// # Errors
///
/// `AllocError` if memory runs out.
pub fn tree_certificate(alloc: Global, plan: &TreePlan) -> Result<TreeCertificate, AllocError>
    // promise: certificate-of-a-plan-tree (IsCertificateOf)
    ensures says { IfOk result (IsCertificateOf plan.now) }
    // promise: certificate-of-a-plan-tree (IsRight)
    ensures right { IfOk result (IsRight plan.now.table) }
{
    tree_plans_are_right(plan);
    let nodes = all_nodes(alloc, plan)?;
    let type_name = String::from_str(alloc, plan.table().name())?;
    Ok(TreeCertificate {
        nodes,
        processes: plan.processes(),
        steps: plan.cost().steps,
        type_name,
    })
}
