//! The most processes for which there is a plan tree.
ghost use Rattle.std.specs.Prelude.{◌≡◌, ◌≤◌, ◌+◌, Bool, IfOk, IfSome, Some, length};
ghost use Rattle.cn_choice.specs.declared.limits.TheConstants.{MOST_PROCESSES};
ghost use Rattle.cn_meetings.specs.Meeting.{Sight};
ghost use Rattle.cn_table.specs.TypeTable.{TypeTable};
ghost use Rattle.cn_tree_costs.specs.Least.{AreRoots};
ghost use Rattle.cn_shortest.specs.Greatest.{IsGreatestCostFound, IsGreatestPlanFound};
ghost use Rattle.cn_shortest.specs.Loads.{all_roots, table_of};
ghost use Rattle.cn_shortest.specs.Looks.{allowed};
ghost use Rattle.cn_shortest.specs.Searches.{IsSearch};
ghost use Rattle.cn_shortest.specs.declared.loads.TheConstants.{MOST_STEPS};

use crate::least::cost_in;
use crate::looks::Looks;
use crate::plan::plan_of;
use crate::search::Search;
use cn_choice::MOST_PROCESSES;
use cn_table::Table;
use cn_tree_plans::{Cost, TreePlan};
use std::alloc::{AllocError, Global};

/// The most processes, of those of the search, for which there is a tree, and the cost of a least
/// one for them.
fn greatest_in(found: &Search, most: u8) -> Option<(u8, Cost)>
    requires found { IsSearch found.now }
    requires most { length found.now.roots.items + 1 ≡ most }
    ensures cost { (t : TypeTable) (allowed : Sight → Bool)
        → AreRoots t allowed (length found.now.roots.items + 1) (all_roots found.now.roots.items)
        → IsGreatestCostFound t allowed most result }
    ensures load { IfSome result (λ c. (2 ≤ c.0) × (c.0 ≤ length found.now.rows.items)
        × (c.1.steps ≤ MOST_STEPS) × (table_of found.now.rows.items c.0 c.1.steps
        ≡ Some (record { nodes = c.1.nodes; sum = c.1.sum }))) }
{
    for less in 0..most - 1 {
        let n = most - less;
        if let Some(cost) = cost_in(found, n) {
            return Some((n, cost));
        }
    }
    None
}

/// The most processes, from 2 to `most`, for which there is a plan tree at each node of which all
/// look in one way, and so as is allowed, and the cost of a least one for them. `None` if there is no
/// such tree. `most` is from 2 to [`MOST_PROCESSES`].
///
/// # Errors
///
/// Where memory is short.
pub fn greatest_cost(
    alloc: Global,
    table: &Table,
    looks: Looks,
    most: u8,
) -> Result<Option<(u8, Cost)>, AllocError>
    requires some { 2 ≤ most }
    requires few { most ≤ MOST_PROCESSES }
    // promise: greatest-cost (IsGreatestCostFound: IsGreatest, IsLeastPlan)
    ensures { IfOk result (IsGreatestCostFound table.now (allowed looks) most) }
{
    let found = Search::new(alloc, table, looks, most)?;
    Ok(greatest_in(&found, most))
}

/// A least plan for the most processes, from 2 to `most`, for which there is a plan tree at each node
/// of which all look in one way, and so as is allowed. `None` if there is no such tree. `most` is
/// from 2 to [`MOST_PROCESSES`].
///
/// # Errors
///
/// Where memory is short.
pub fn greatest_plan(
    alloc: Global,
    table: &Table,
    looks: Looks,
    most: u8,
) -> Result<Option<TreePlan>, AllocError>
    requires some { 2 ≤ most }
    requires few { most ≤ MOST_PROCESSES }
    // promise: greatest-plan (IsGreatestPlanFound: IsGreatest, IsLeastPlan)
    ensures { IfOk result (IsGreatestPlanFound table.now (allowed looks) most) }
{
    let found = Search::new(alloc, table, looks, most)?;
    let Some(greatest) = greatest_in(&found, most) else {
        return Ok(None);
    };
    let budget = greatest.1.steps as usize;
    let plan = plan_of(alloc, table, &found, looks, greatest.0, budget)?;
    Ok(Some(plan))
}
