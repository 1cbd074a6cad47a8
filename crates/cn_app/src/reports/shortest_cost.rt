//! What the shortest plan of a table costs.
ghost use Rattle.std.specs.Prelude.{IfOk};
ghost use Rattle.cn_app.specs.Commands.ShortestCost.{TellsShortest};

use cn_search::GREATEST_LIMIT;
use cn_sentences::ShortestCost;
use cn_shortest::{Looks, greatest_cost};
use cn_table::Table;
use std::alloc::{AllocError, Global};

/// What the shortest plan costs for the most processes for which there is a plan tree. `None` if there
/// is no plan tree.
pub(crate) fn shortest_cost(
    alloc: Global,
    table: &Table,
) -> Result<Option<ShortestCost>, AllocError>
    ensures { IfOk result (TellsShortest table.now) }
{
    let found = greatest_cost(alloc, table, Looks::AtStates, GREATEST_LIMIT)?;
    match found {
        Some(most) => Ok(Some(ShortestCost {
            processes: most.0,
            steps: most.1.steps,
            objects: u32::from(most.1.nodes),
        })),
        None => Ok(None),
    }
}
