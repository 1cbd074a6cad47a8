//! How processes look at objects.
ghost use Rattle.std.specs.Prelude.{◌≡◌, ◌<◌};
ghost use Rattle.cn_meetings.specs.Sights.{reads};
ghost use Rattle.cn_trees.specs.Tree.{nodes_of};
ghost use Rattle.cn_tree_plans.specs.Plan.{tree_of};
ghost use Rattle.cn_code.specs.TreeJudgements.{is_response, sight_at, some_read, some_response};

use cn_meetings::Sight;
use cn_tree_plans::TreePlan;

/// Whether some process reads an object.
#[tactic(auto, using(crate::proofs::Loops::any_more))]
pub(crate) fn some_read(plan: &TreePlan) -> bool
    ensures { result ≡ some_read plan.now }
{
    for node in 0..plan.nodes() {
        if reads_at(plan, node) {
            return true;
        }
    }
    false
}

fn reads_at(plan: &TreePlan, node: u8) -> bool
    requires { node < nodes_of (tree_of plan.now) }
    ensures { result ≡ reads (sight_at plan.now node) }
{
    plan.sight(node).reads()
}

/// Whether some process looks by an operation.
#[tactic(auto, using(crate::proofs::Loops::any_more))]
pub(crate) fn some_response(plan: &TreePlan) -> bool
    ensures { result ≡ some_response plan.now }
{
    for node in 0..plan.nodes() {
        if is_response_at(plan, node) {
            return true;
        }
    }
    false
}

fn is_response_at(plan: &TreePlan, node: u8) -> bool
    requires { node < nodes_of (tree_of plan.now) }
    ensures { result ≡ is_response (sight_at plan.now node) }
{
    is_response(plan.sight(node))
}

fn is_response(sight: Sight) -> bool
    ensures { result ≡ is_response sight }
{
    match sight {
        Sight::Response(_) => true,
        Sight::State | Sight::Nothing => false,
    }
}
