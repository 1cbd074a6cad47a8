//! The teams of a least plan, and the meetings of its nodes.
ghost use Rattle.std.specs.Prelude.{◌≡◌, ◌+◌, ◌++◌, ◌≤◌, All, IfOk, IsSome, Some, length, replicate};
ghost use Rattle.cn_choice.specs.declared.limits.TheConstants.{MOST_PROCESSES};
ghost use Rattle.cn_tree_costs.specs.Least.{Load, load_of_teams};
ghost use Rattle.cn_tree_plans.specs.Teams.{teams_of};
ghost use Rattle.cn_trees.specs.Tree.{members};
ghost use Rattle.cn_trees.specs.Tree.Teams.{Alone, Meet};
ghost use Rattle.cn_shortest.specs.Built.{AddsNode, AddsTeams};
ghost use Rattle.cn_shortest.specs.Loads.{table_of};
ghost use Rattle.cn_shortest.specs.Searches.{IsRootOf, IsSearch};
ghost use Rattle.cn_shortest.specs.Sizes.{sizes_of};
ghost use Rattle.cn_shortest.specs.declared.loads.TheConstants.{MOST_STEPS};

use crate::choosing::{Choice, choose};
use crate::loads::{MOST_STEPS, price};
use crate::meetings::meeting;
use crate::search::Search;
use arrayvec::ArrayVec;
use cn_choice::MOST_PROCESSES;
use cn_divisions::Numbers;
use cn_tree_plans::{Meeting, Teams};
use std::alloc::{AllocError, Global};

/// The root of a least tree for n processes within the bound.
fn root(found: &Search, n: u8, budget: usize) -> Choice
    requires found { IsSearch found.now }
    requires some { 2 ≤ n }
    requires few { n ≤ length found.now.rows.items }
    requires budget { budget ≤ MOST_STEPS }
    requires load { IsSome (table_of found.now.rows.items n budget) }
    ensures { IsRootOf found.now n budget result }
{
    let n = n as usize;
    let Some(load) = found.rows[n - 1].loads[budget] else {
        unreachable!()
    };
    choose(&found.rows[..n - 1], budget, &found.roots[n - 2], load)
}

/// Puts the size behind the others as often as there are teams of it.
fn add_size(list: &mut Numbers, size: u8, count: u8)
    requires { length list.now.items + count ≤ MOST_PROCESSES }
    ensures { list.new.items ≡ list.old.items ++ replicate count size }
{
    for _team in 0..count {
        list.push(size);
    }
}

/// The sizes, the greatest first.
fn list_of(counts: &[u8; MOST_PROCESSES + 1]) -> Numbers
    requires { length (sizes_of counts.now) ≤ MOST_PROCESSES }
    ensures { result.items ≡ sizes_of counts.now }
{
    let mut list = ArrayVec::new();
    for smaller in 0..MOST_PROCESSES {
        let size = MOST_PROCESSES - smaller;
        add_size(&mut list, size as u8, counts[size]);
    }
    list
}

/// A team of one process in front of the others.
fn alone(alloc: Global, others: Teams) -> Result<Teams, AllocError>
    ensures { IfOk result (λ teams. teams_of teams ≡ Alone (teams_of others)) }
{
    Ok(Teams::Alone(Box::new(alloc, others)?))
}

/// A team of the processes of a node in front of the others.
fn meet(alloc: Global, team: Teams, others: Teams) -> Result<Teams, AllocError>
    ensures { IfOk result (λ teams. teams_of teams ≡ Meet (teams_of team) (teams_of others)) }
{
    let team = Box::new(alloc, team)?;
    let others = Box::new(alloc, others)?;
    Ok(Teams::Meet(team, others))
}

/// Puts the meetings of a node of n processes and of the nodes below behind the others, and answers
/// its teams.
#[cycle(nodes)]
pub(crate) fn add_node(
    alloc: Global,
    found: &Search,
    n: u8,
    budget: usize,
    meetings: &mut Vec<Meeting>,
) -> Result<Teams, AllocError>
    requires found { IsSearch found.now }
    requires some { 2 ≤ n }
    requires few { n ≤ length found.now.rows.items }
    requires budget { budget ≤ MOST_STEPS }
    requires load { IsSome (table_of found.now.rows.items n budget) }
    ensures { IfOk result (λ teams. (x : Load) → table_of found.now.rows.items n budget ≡ Some x
        → AddsNode found.now.roots.items n budget x (teams_of teams) meetings.old.items
        meetings.new.items) }
{
    let choice = root(found, n, budget);
    let here = meeting(alloc, &choice, n)?;
    meetings.push(here)?;
    let sizes = list_of(&choice.sizes.counts);
    add_teams(
        alloc,
        found,
        sizes.as_slice(),
        budget - price(choice.sight),
        meetings,
    )
}

/// Puts the meetings of the nodes below teams of these sizes behind the others, and answers the
/// teams.
#[cycle(nodes)]
fn add_teams(
    alloc: Global,
    found: &Search,
    sizes: &[u8],
    budget: usize,
    meetings: &mut Vec<Meeting>,
) -> Result<Teams, AllocError>
    requires found { IsSearch found.now }
    requires sizes { All (λ m. (1 ≤ m) × (m ≤ length found.now.rows.items)) sizes.now }
    requires budget { budget ≤ MOST_STEPS }
    requires load { IsSome (load_of_teams (table_of found.now.rows.items) budget sizes.now) }
    ensures { IfOk result (λ teams. (x : Load)
        → load_of_teams (table_of found.now.rows.items) budget sizes.now ≡ Some x
        → AddsTeams found.now.roots.items budget sizes.now x (teams_of teams) meetings.old.items
        meetings.new.items) }
{
    let Some((size, rest)) = sizes.split_first() else {
        return Ok(Teams::Last);
    };
    if *size == 1 {
        let others = add_teams(alloc, found, rest, budget, meetings)?;
        return alone(alloc, others);
    }
    let team = add_node(alloc, found, *size, budget, meetings)?;
    let others = add_teams(alloc, found, rest, budget, meetings)?;
    meet(alloc, team, others)
}
