//! The cost of a least plan tree.
ghost use Rattle.std.specs.Prelude.{◌≡◌, ◌≤◌, ◌+◌, All, Bool, IfOk, IfSome, None, Some, length};
ghost use Rattle.cn_choice.specs.declared.limits.TheConstants.{MOST_PROCESSES};
ghost use Rattle.cn_meetings.specs.Meeting.{Sight};
ghost use Rattle.cn_table.specs.TypeTable.{TypeTable};
ghost use Rattle.cn_tree_costs.specs.Least.{AreRoots};
ghost use Rattle.cn_shortest.specs.Costs.{HaveNoLoad, IsFirstCost, IsLeastCost};
ghost use Rattle.cn_shortest.specs.Loads.{IsBelow, all_roots, table_of};
ghost use Rattle.cn_shortest.specs.Looks.{allowed};
ghost use Rattle.cn_shortest.specs.Searches.{IsSearch};
ghost use Rattle.cn_shortest.specs.declared.loads.TheConstants.{MOST_STEPS};

use crate::loads::{MOST_STEPS, Row};
use crate::looks::Looks;
use crate::search::Search;
use cn_choice::MOST_PROCESSES;
use cn_table::Table;
use cn_tree_costs::laws::loads_are_least_costs;
use cn_tree_plans::Cost;
use std::alloc::{AllocError, Global};

/// The cost by the least bound that has a load.
fn first_cost(row: &Row) -> Option<Cost>
    requires { All (IsBelow 7 224) row.now.loads }
    ensures first { IfSome result (IsFirstCost row.now.loads) }
    ensures none { result ≡ None → HaveNoLoad row.now.loads (MOST_STEPS + 1) }
{
    for steps in 0..MOST_STEPS + 1 {
        if let Some(load) = row.loads[steps] {
            return Some(Cost {
                steps: steps as u8,
                nodes: load.nodes as u8,
                sum: load.sum as u8,
            });
        }
    }
    None
}

/// The cost of a least plan tree for n processes, at most as many as the search has. `None` if there
/// is no such tree.
pub(crate) fn cost_in(found: &Search, n: u8) -> Option<Cost>
    requires found { IsSearch found.now }
    requires some { 2 ≤ n }
    requires most { n ≤ length found.now.roots.items + 1 }
    ensures cost { (t : TypeTable) (allowed : Sight → Bool)
        → AreRoots t allowed (length found.now.roots.items + 1) (all_roots found.now.roots.items)
        → IsLeastCost t allowed n result }
    ensures load { IfSome result (λ c. (c.steps ≤ MOST_STEPS)
        × (table_of found.now.rows.items n c.steps
        ≡ Some (record { nodes = c.nodes; sum = c.sum }))) }
{
    loads_are_least_costs();
    first_cost(&found.rows[n as usize - 1])
}

/// The cost of a least plan tree for n processes, from 2 to [`MOST_PROCESSES`], at each node of
/// which all look in one way, and so as is allowed. `None` if there is no such tree. Of two costs the
/// steps decide, then the objects, then the sum.
///
/// # Errors
///
/// Where memory is short.
pub fn least_cost(
    alloc: Global,
    table: &Table,
    looks: Looks,
    n: u8,
) -> Result<Option<Cost>, AllocError>
    requires some { 2 ≤ n }
    requires few { n ≤ MOST_PROCESSES }
    // promise: least-cost (IsLeastCost: IsLeastPlan)
    ensures { IfOk result (IsLeastCost table.now (allowed looks) n) }
{
    let found = Search::new(alloc, table, looks, n)?;
    Ok(cost_in(&found, n))
}
