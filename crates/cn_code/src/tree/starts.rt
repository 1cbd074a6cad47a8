//! The table of start states.
ghost use Rattle.std.specs.Prelude.{◌≡◌, ◌<◌, ◌++◌, OnOk, length, string_bytes};
ghost use Rattle.cn_trees.specs.Tree.{nodes_of};
ghost use Rattle.cn_tree_plans.specs.Plan.{tree_of};
ghost use Rattle.cn_code.specs.Trees.{start_at, tree_start, tree_starts};

use crate::frame::push_start_line;
use crate::language::{Language, Part};
use crate::words::push_word;
use cn_table::State;
use cn_tree_plans::TreePlan;
use std::alloc::AllocError;

/// The state in which the object of each node starts.
#[tactic(auto, using(cn_table::proofs::Lines::lines_more))]
pub(crate) fn push_starts(
    text: &mut String,
    language: Language,
    plan: &TreePlan,
) -> Result<(), AllocError>
    ensures { OnOk result (string_bytes text.new
        ≡ string_bytes text.old ++ tree_starts language plan.now) }
{
    push_word(text, language, Part::Starts)?;
    for node in 0..plan.nodes() {
        push_start(text, language, plan, node)?;
    }
    Ok(())
}

fn push_start(
    text: &mut String,
    language: Language,
    plan: &TreePlan,
    node: u8,
) -> Result<(), AllocError>
    requires { node < nodes_of (tree_of plan.now) }
    ensures { OnOk result (string_bytes text.new
        ≡ string_bytes text.old ++ tree_start language plan.now node) }
{
    push_start_line(text, language, plan.table(), start_at(plan, node), node)
}

fn start_at(plan: &TreePlan, node: u8) -> State
    requires { node < nodes_of (tree_of plan.now) }
    ensures start { result.0 ≡ start_at plan.now node }
    ensures known { result.0 < length plan.now.table.states }
{
    plan.meeting(node).start
}
