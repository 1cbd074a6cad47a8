//! The shortest plan.
ghost use Rattle.std.specs.Prelude.{◌≡◌, ◌≤◌, IfOk, IsSome, Some, length};
ghost use Rattle.cn_choice.specs.declared.limits.TheConstants.{MOST_PROCESSES};
ghost use Rattle.cn_tree_costs.specs.Cost.{IsLeastPlan, cost};
ghost use Rattle.cn_tree_costs.specs.Least.{Load};
ghost use Rattle.cn_tree_plans.specs.Plan.{tree_of};
ghost use Rattle.cn_trees.specs.Tree.{PlanTree};
ghost use Rattle.cn_shortest.specs.Costs.{IsLeastPlanFound};
ghost use Rattle.cn_shortest.specs.Loads.{table_of};
ghost use Rattle.cn_shortest.specs.Looks.{allowed};
ghost use Rattle.cn_shortest.specs.Searches.{HaveExamples, IsSearch};
ghost use Rattle.cn_shortest.specs.declared.loads.TheConstants.{MOST_STEPS};

use crate::building::add_node;
use crate::least::cost_in;
use crate::loads::MOST_STEPS;
use crate::looks::Looks;
use crate::search::Search;
use cn_choice::MOST_PROCESSES;
use cn_table::Table;
use cn_tree_costs::laws::nodes_are_trees;
use cn_tree_plans::laws::tree_plans_are_right;
use cn_tree_plans::{TreePlan, TreePlanFault};
use std::alloc::{AllocError, Global};

/// The plan of n processes within the bound. If a least plan has the load within the bound, this is
/// one.
pub(crate) fn plan_of(
    alloc: Global,
    table: &Table,
    found: &Search,
    looks: Looks,
    n: u8,
    budget: usize,
) -> Result<TreePlan, AllocError>
    requires found { IsSearch found.now }
    requires examples { HaveExamples table.now (allowed looks) found.now.roots.items }
    requires some { 2 ≤ n }
    requires few { n ≤ length found.now.rows.items }
    requires budget { budget ≤ MOST_STEPS }
    requires load { IsSome (table_of found.now.rows.items n budget) }
    ensures { IfOk result (λ plan. (x : Load) → table_of found.now.rows.items n budget ≡ Some x
        → (T : PlanTree) × IsLeastPlan table.now (allowed looks) n T
        × (cost T ≡ record { steps = budget; nodes = x.nodes; sum = x.sum })
        → IsLeastPlan table.now (allowed looks) n (tree_of plan)) }
{
    nodes_are_trees();
    let _looks = looks;
    let mut meetings = Vec::new(alloc);
    let teams = add_node(alloc, found, n, budget, &mut meetings)?;
    let fault = match TreePlan::new(alloc, table, teams, meetings) {
        Ok(plan) => {
            tree_plans_are_right(&plan);
            return Ok(plan);
        }
        Err(fault) => fault,
    };
    match fault {
        TreePlanFault::OutOfMemory => Err(AllocError),
        TreePlanFault::Meets { .. } => unreachable!(),
    }
}

/// A least plan for n processes, from 2 to [`MOST_PROCESSES`], at each node of which all look in one
/// way, and so as is allowed. `None` if there is no such plan tree.
///
/// # Errors
///
/// Where memory is short.
pub fn shortest_plan(
    alloc: Global,
    table: &Table,
    looks: Looks,
    n: u8,
) -> Result<Option<TreePlan>, AllocError>
    requires some { 2 ≤ n }
    requires few { n ≤ MOST_PROCESSES }
    // promise: shortest-plan (IsLeastPlanFound: IsLeastPlan)
    ensures { IfOk result (IsLeastPlanFound table.now (allowed looks) n) }
{
    let found = Search::new(alloc, table, looks, n)?;
    let Some(cost) = cost_in(&found, n) else {
        return Ok(None);
    };
    let plan = plan_of(alloc, table, &found, looks, n, cost.steps as usize)?;
    Ok(Some(plan))
}
