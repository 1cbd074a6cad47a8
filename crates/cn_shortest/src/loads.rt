//! The least load of objects and steps, for each number of processes and each bound on their steps.
ghost use Rattle.std.specs.Prelude.{◌≡◌, ◌<◌, ◌≤◌, ◌+◌, ◌*◌, ◌++◌, ◌↔◌, ℕ, List, All, IfOk, IsTrue, length, None, replicate, slice_get, Some};
ghost use Rattle.cn_choice.specs.declared.limits.TheConstants.{MOST_PROCESSES};
ghost use Rattle.cn_meetings.specs.Sights.{sight_of};
ghost use Rattle.cn_stocks.specs.Each.{EachAt};
ghost use Rattle.cn_tree_costs.specs.Least.{IsAtMost, IsLoadTable, LoadTable};
ghost use Rattle.cn_tree_costs.specs.Least.{load_of_teams as load_of_sizes, load_of_root as load_at_root, plus as both};
ghost use Rattle.cn_tree_costs.specs.Sizes.{price as price_of};
ghost use Rattle.cn_shortest.specs.Loads.{AreAllOf, IsBelow, IsEntry, IsLessOf, IsSmallTable};
ghost use Rattle.cn_shortest.specs.Loads.{all_roots, load_of, roots_in, roots_with, root_with, table_of};
ghost use Rattle.cn_shortest.specs.Sizes.{AreOf, sizes_from};
ghost use Rattle.cn_shortest.specs.declared.loads.TheConstants.{MOST_STEPS};
ghost use Rattle.cn_shortest.specs.declared.roots.Roots.{Roots};

use crate::roots::Roots;
use crate::sizes::Sizes;
use cn_choice::MOST_PROCESSES;
use cn_meetings::Sight;
use std::alloc::{AllocError, Global};

/// The greatest bound on own steps that a plan tree needs.
pub(crate) const MOST_STEPS: usize = 4 * (MOST_PROCESSES - 1);

/// Objects, and own steps of all processes together.
#[derive(Clone, Copy, Drop)]
pub(crate) struct Load {
    pub nodes: u32,
    pub sum: u32,
}

/// The loads of one number of processes, by the bound on their steps.
#[derive(Clone, Copy, Drop)]
pub(crate) struct Row {
    pub loads: [Option<Load>; MOST_STEPS + 1],
}

/// Both loads together, if there are both.
fn plus(x: Option<Load>, y: Option<Load>) -> Option<Load>
    requires x { IsBelow 1000000 1000000 x }
    requires y { IsBelow 1000000 1000000 y }
    ensures { load_of result ≡ both (load_of x) (load_of y) }
{
    let (x, y) = (x?, y?);
    Some(Load {
        nodes: x.nodes + y.nodes,
        sum: x.sum + y.sum,
    })
}

/// Whether the first is no more: the objects decide, then the steps.
fn is_at_most(x: Load, y: Load) -> bool
    ensures { IsTrue result ↔ IsAtMost (record { nodes = x.nodes; sum = x.sum })
        (record { nodes = y.nodes; sum = y.sum }) }
{
    x.nodes < y.nodes || (x.nodes == y.nodes && x.sum <= y.sum)
}

/// The less one of those that there are.
fn less(x: Option<Load>, y: Option<Load>) -> Option<Load>
    ensures { IsLessOf x y result }
{
    let Some(a) = x else {
        return y;
    };
    let Some(b) = y else {
        return x;
    };
    if is_at_most(a, b) { x } else { y }
}

/// The load, with that of so many teams.
fn with_teams(rest: Option<Load>, team: Option<Load>, count: u8) -> Option<Load>
    requires team { IsBelow 7 224 team }
    requires rest { IsBelow 20000 500000 rest }
    ensures value { (best : LoadTable) (b size : ℕ) (sizes : List ℕ) → best size b ≡ load_of team
        → load_of_sizes best b sizes ≡ load_of rest
        → load_of_sizes best b (replicate count size ++ sizes) ≡ load_of result }
    ensures below { (nodes sum : ℕ) → IsBelow nodes sum rest
        → IsBelow (nodes + 1785) (sum + 57120) result }
{
    let mut load = rest;
    for _team in 0..count {
        load = plus(team, load);
    }
    load
}

/// The load of teams of these sizes.
fn load_of_teams(rows: &[Row], budget: usize, sizes: &Sizes) -> Option<Load>
    requires few { length rows.now < MOST_PROCESSES }
    requires budget { budget ≤ MOST_STEPS }
    requires small { IsSmallTable (table_of rows.now) }
    ensures value { load_of result
        ≡ load_of_sizes (table_of rows.now) budget (sizes_from sizes.now.counts (length rows.now)) }
    ensures below { IsBelow 20000 500000 result }
{
    let mut load = Some(Load { nodes: 0, sum: 0 });
    for place in 0..rows.len() {
        load = with_teams(load, rows[place].loads[budget], sizes.counts[place + 1]);
    }
    load
}

/// The steps of a process at a node, by how it looks.
pub(crate) fn price(sight: Sight) -> usize
    ensures { result ≡ price_of (sight_of sight) }
{
    match sight {
        Sight::Nothing => 3,
        Sight::State | Sight::Response(_) => 4,
    }
}

/// The load of a root with teams of these sizes, of one process more than the rows have. Its price
/// has to be within the steps.
pub(crate) fn load_of_root(rows: &[Row], budget: usize, sight: Sight, sizes: &Sizes) -> Option<Load>
    requires few { length rows.now < MOST_PROCESSES }
    requires budget { budget ≤ MOST_STEPS }
    requires paid { price_of (sight_of sight) ≤ budget }
    requires small { IsSmallTable (table_of rows.now) }
    requires sizes { AreOf (length rows.now + 1) sizes.now.counts }
    ensures { load_of result ≡ load_at_root (table_of rows.now) (length rows.now + 1) budget
        (root_with (sight_of sight) sizes.now) }
{
    let price = price(sight);
    let root = Load {
        nodes: 1,
        sum: (rows.len() as u32 + 1) * price as u32,
    };
    plus(Some(root), load_of_teams(rows, budget - price, sizes))
}

/// The least load of these roots.
fn least_of(rows: &[Row], budget: usize, sight: Sight, list: &[Sizes]) -> Option<Load>
    requires few { length rows.now < MOST_PROCESSES }
    requires budget { budget ≤ MOST_STEPS }
    requires small { IsSmallTable (table_of rows.now) }
    requires sizes { All (λ s. AreOf (length rows.now + 1) s.counts) list.now }
    ensures { IsEntry (table_of rows.now) (length rows.now + 1) budget
        (roots_with (sight_of sight) list.now) result }
{
    let mut load = None;
    if budget < price(sight) {
        return load;
    }
    for place in 0..list.len() {
        load = less(load, load_of_root(rows, budget, sight, &list[place]));
    }
    load
}

/// The least load of one process more than the rows have, within the steps.
fn entry(rows: &[Row], budget: usize, roots: &Roots) -> Option<Load>
    requires few { length rows.now < MOST_PROCESSES }
    requires budget { budget ≤ MOST_STEPS }
    requires small { IsSmallTable (table_of rows.now) }
    requires roots { AreAllOf (length rows.now + 1) roots.now }
    ensures { IsEntry (table_of rows.now) (length rows.now + 1) budget (roots_in roots.now)
        result }
{
    let all = roots.by_sight.as_slice();
    let mut load = None;
    for which in 0..all.len() {
        let of_sight = &all[which];
        let sizes = of_sight.sizes.as_slice();
        load = less(load, least_of(rows, budget, of_sight.sight, sizes));
    }
    load
}

/// The loads of one process more than the rows have.
fn next_row(rows: &[Row], roots: &Roots) -> Row
    requires few { length rows.now < MOST_PROCESSES }
    requires small { IsSmallTable (table_of rows.now) }
    requires roots { AreAllOf (length rows.now + 1) roots.now }
    ensures { EachAt (λ b load. IsEntry (table_of rows.now) (length rows.now + 1) b
        (roots_in roots.now) load) (MOST_STEPS + 1) result.loads }
{
    let mut loads = [None; MOST_STEPS + 1];
    for budget in 0..MOST_STEPS + 1 {
        loads[budget] = entry(rows, budget, roots);
    }
    Row { loads }
}

/// The loads of 1 process, of 2 and so on: one row more than there are roots.
pub(crate) fn rows(alloc: Global, roots: &[Roots]) -> Result<Vec<Row>, AllocError>
    requires few { length roots.now < MOST_PROCESSES }
    requires roots { (i : ℕ) (here : Roots) → slice_get roots.now i ≡ Some here
        → AreAllOf (i + 2) here }
    ensures long { IfOk result (λ rows. length rows.items ≡ length roots.now + 1) }
    ensures table { IfOk result (λ rows. IsLoadTable (all_roots roots.now) (length roots.now + 1)
        MOST_STEPS (table_of rows.items)) }
    ensures small { IfOk result (λ rows. IsSmallTable (table_of rows.items)) }
{
    let mut rows = Vec::new(alloc);
    rows.push(Row {
        loads: [Some(Load { nodes: 0, sum: 0 }); MOST_STEPS + 1],
    })?;
    for place in 0..roots.len() {
        let row = next_row(rows.as_slice(), &roots[place]);
        rows.push(row)?;
    }
    Ok(rows)
}
