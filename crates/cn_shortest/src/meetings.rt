//! The meetings of nodes.
ghost use Rattle.std.specs.Prelude.{◌≡◌, ◌≤◌, Bool, true, IfOk, map};
ghost use Rattle.cn_choice.specs.declared.limits.TheConstants.{MOST_PROCESSES};
ghost use Rattle.cn_meetings.specs.Sights.{sight_of};
ghost use Rattle.cn_meetings.specs.Meeting.{IsSightOf, Sight};
ghost use Rattle.cn_table.specs.TypeTable.{TypeTable};
ghost use Rattle.cn_shortest.specs.Examples.{IsExample};
ghost use Rattle.cn_shortest.specs.Nodes.{IsNode, sight_in};
ghost use Rattle.cn_shortest.specs.Ordering.{ordered_operations};
ghost use Rattle.cn_shortest.specs.Sizes.{AreOf, sizes_of};

use crate::choosing::Choice;
use crate::examples::Example;
use crate::ordering::ordered;
use cn_table::Operation;
use cn_tree_plans::Meeting;
use std::alloc::{AllocError, Global};

/// The operations of the processes, team by team, the greatest team first.
fn operations(alloc: Global, example: &Example, n: u8) -> Result<Vec<Operation>, AllocError>
    requires { n ≤ MOST_PROCESSES }
    ensures { IfOk result (λ list. map (λ o. o.0) list.items ≡ ordered_operations example.now n) }
{
    let order = ordered(&example.teams, n);
    let mut operations = Vec::new(alloc);
    for process in order.as_slice() {
        operations.push(Operation(example.operations[*process as usize]))?;
    }
    Ok(operations)
}

/// The meeting of a node of n processes with this root, whose processes stand team by team.
pub(crate) fn meeting(alloc: Global, choice: &Choice, n: u8) -> Result<Meeting, AllocError>
    requires { n ≤ MOST_PROCESSES }
    ensures sight { IfOk result (λ m. sight_in m ≡ sight_of choice.now.sight) }
    ensures node { IfOk result (λ m. (t : TypeTable) (allowed : Sight → Bool)
        → allowed (sight_of choice.now.sight) ≡ true → IsSightOf t (sight_of choice.now.sight)
        → IsExample t (sight_of choice.now.sight) n choice.now.sizes.counts
        choice.now.sizes.example → AreOf n choice.now.sizes.counts
        → IsNode t allowed (sizes_of choice.now.sizes.counts) m) }
{
    let example = &choice.sizes.example;
    let operations = operations(alloc, example, n)?;
    Ok(Meeting {
        start: example.start,
        sight: choice.sight,
        operations,
    })
}
