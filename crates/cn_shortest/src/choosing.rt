//! The root of a least tree: the first one that has the least load.
ghost use Rattle.std.specs.Prelude.{◌≡◌, ◌↔◌, ◌<◌, ◌≤◌, ◌+◌, ℕ, All, Contains, IfSome, IsTrue, length, None, Some, slice_get};
ghost use Rattle.cn_choice.specs.declared.limits.TheConstants.{MOST_PROCESSES};
ghost use Rattle.cn_meetings.specs.Sights.{sight_of};
ghost use Rattle.cn_tree_costs.specs.Least.{Root};
ghost use Rattle.cn_tree_costs.specs.Least.{load_of_root as load_at_root};
ghost use Rattle.cn_tree_costs.specs.Sizes.{price as price_of};
ghost use Rattle.cn_shortest.specs.Choosing.{HasNone, IsChoice, IsPlace};
ghost use Rattle.cn_shortest.specs.Loads.{AreAllOf, IsLoadOf, IsSmallTable, load_of, roots_in, table_of};
ghost use Rattle.cn_shortest.specs.Sizes.{AreOf};
ghost use Rattle.cn_shortest.specs.declared.loads.TheConstants.{MOST_STEPS};

use crate::loads::{Load, MOST_STEPS, Row, load_of_root, price};
use crate::roots::Roots;
use crate::sizes::Sizes;
use cn_meetings::Sight;

/// A root: how its processes look, and its teams.
#[derive(Clone, Copy, Drop)]
pub(crate) struct Choice {
    pub sight: Sight,
    pub sizes: Sizes,
}

/// Whether there is this load.
fn is_load(x: Option<Load>, load: Load) -> bool
    ensures { IsTrue result ↔ (load_of x ≡ Some (record { nodes = load.nodes; sum = load.sum })) }
{
    match x {
        Some(y) => y.nodes == load.nodes && y.sum == load.sum,
        None => false,
    }
}

/// The place of the first of these sizes whose root has the load.
fn place_of(rows: &[Row], budget: usize, sight: Sight, list: &[Sizes], load: Load) -> Option<usize>
    requires few { length rows.now < MOST_PROCESSES }
    requires budget { budget ≤ MOST_STEPS }
    requires small { IsSmallTable (table_of rows.now) }
    requires sizes { All (λ s. AreOf (length rows.now + 1) s.counts) list.now }
    ensures some { IfSome result (IsPlace (table_of rows.now) (length rows.now + 1) budget
        (sight_of sight) list.now (record { nodes = load.nodes; sum = load.sum })) }
    ensures none { result ≡ None → HasNone (table_of rows.now) (length rows.now + 1) budget
        (sight_of sight) list.now (record { nodes = load.nodes; sum = load.sum }) }
{
    if budget < price(sight) {
        return None;
    }
    for place in 0..list.len() {
        if is_load(load_of_root(rows, budget, sight, &list[place]), load) {
            return Some(place);
        }
    }
    None
}

/// The first root that has the load, in the order of the sights, then in that of the list.
pub(crate) fn choose(rows: &[Row], budget: usize, roots: &Roots, load: Load) -> Choice
    requires few { length rows.now < MOST_PROCESSES }
    requires budget { budget ≤ MOST_STEPS }
    requires small { IsSmallTable (table_of rows.now) }
    requires roots { AreAllOf (length rows.now + 1) roots.now }
    requires some { IsLoadOf (table_of rows.now) (length rows.now + 1) budget (roots_in roots.now)
        (record { nodes = load.nodes; sum = load.sum }) }
    ensures { IsChoice (table_of rows.now) (length rows.now + 1) budget roots.now
        (record { nodes = load.nodes; sum = load.sum }) result }
{
    let all = roots.by_sight.as_slice();
    for which in 0..all.len() {
        let of_sight = &all[which];
        let list = of_sight.sizes.as_slice();
        if let Some(place) = place_of(rows, budget, of_sight.sight, list, load) {
            let sizes = list[place];
            return Choice {
                sight: of_sight.sight,
                sizes,
            };
        }
    }
    unreachable!()
}
