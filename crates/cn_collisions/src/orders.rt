//! The first order that leads a process into a set of pairs, and the set of all pairs that it gets.
ghost use Rattle.std.specs.Prelude.{◌≡◌, ◌<◌, ◌↔◌, [], ℕ, IfNone, IfSome};
ghost use Rattle.cn_table.specs.declared.limits.TheConstants.{MOST_RESPONSES, MOST_STATES};
ghost use Rattle.cn_choice.specs.OutcomeSets.{InOutcomeSet};
ghost use Rattle.cn_stocks.specs.Pairs.{Has};
ghost use Rattle.cn_collisions.specs.OutcomeOrders.{IsFirstInto, NoneInto, NoneOfLength};
ghost use Rattle.cn_collisions.specs.Steps.{AreOpeningsOf};
ghost use Rattle.cn_collisions.specs.Views.{IsAsked};

use crate::asked::Asked;
use crate::endings::{own_ending, way_of_two};
use crate::ways::{Step, first_opening, is_open, push_openings, tried_after, way_after};
use arrayvec::ArrayVec;
use cn_choice::{MOST_PROCESSES, Team};
use cn_stocks::pair_sets::PairSet;

/// Fills an empty list with the first moves of the processes of the team. Each order that begins in
/// the team goes on from one of them, or is like one that does.
fn push_openings_of(asked: &Asked<'_>, team: Team, openings: &mut ArrayVec<Step, MOST_PROCESSES>)
    requires asked { IsAsked asked.now }
    requires empty { openings.old.items ≡ [] }
    ensures { AreOpeningsOf asked.now team openings.new.items }
{
    let (low, high) = asked.choice.bounds(team);
    push_openings(&asked.view, low, high, asked.start, openings);
}

/// Fills an empty list with the first order of three processes or more that begins in the team and
/// leads to the target, and answers its pair. No shorter order leads there. The openings are those
/// of the team.
fn long_order_from(
    asked: &Asked<'_>,
    team: Team,
    openings: &[Step],
    target: &PairSet,
    order: &mut ArrayVec<u8, MOST_PROCESSES>,
) -> Option<(u8, u8)>
    requires asked { IsAsked asked.now }
    requires openings { AreOpeningsOf asked.now team openings.now }
    requires shorter { (k : ℕ) → k < 3 → NoneOfLength asked.now.view.sets.now.table.now
        asked.now.view.raw.now team asked.now.view.process target.now k }
    requires empty { order.old.items ≡ [] }
    ensures none { IfNone result (NoneInto asked.now.view.sets.now.table.now
        asked.now.view.raw.now team asked.now.view.process target.now) }
    ensures unchanged { IfNone result (order.new.items ≡ []) }
    ensures first { IfSome result (IsFirstInto asked.now.view.sets.now.table.now
        asked.now.view.raw.now team asked.now.view.process target.now order.new.items) }
    ensures in_range { IfSome result (λ pair. (pair.0 < MOST_RESPONSES) × (pair.1 < MOST_STATES)) }
{
    let _team = team;
    let raw = asked.view.raw;
    let n = raw.operations.len() as u8;
    for left in 2..n {
        if let Some(step) = first_opening(&asked.view, openings, target, left) {
            return Some(way_after(&asked.view, target, left, step, order));
        }
    }
    None
}

/// The same from the openings that it makes.
fn long_order_into(
    asked: &Asked<'_>,
    team: Team,
    target: &PairSet,
    order: &mut ArrayVec<u8, MOST_PROCESSES>,
) -> Option<(u8, u8)>
    requires asked { IsAsked asked.now }
    requires shorter { (k : ℕ) → k < 3 → NoneOfLength asked.now.view.sets.now.table.now
        asked.now.view.raw.now team asked.now.view.process target.now k }
    requires empty { order.old.items ≡ [] }
    ensures none { IfNone result (NoneInto asked.now.view.sets.now.table.now
        asked.now.view.raw.now team asked.now.view.process target.now) }
    ensures unchanged { IfNone result (order.new.items ≡ []) }
    ensures first { IfSome result (IsFirstInto asked.now.view.sets.now.table.now
        asked.now.view.raw.now team asked.now.view.process target.now order.new.items) }
    ensures in_range { IfSome result (λ pair. (pair.0 < MOST_RESPONSES) × (pair.1 < MOST_STATES)) }
{
    let mut openings = ArrayVec::new();
    push_openings_of(asked, team, &mut openings);
    long_order_from(asked, team, &openings, target, order)
}

/// Fills an empty list with the first order of one or two processes that begins in the team and
/// leads to the target, and answers its pair. Such an order needs no sets.
#[inline(always)]
fn short_order_into(
    asked: &Asked<'_>,
    team: Team,
    target: &PairSet,
    order: &mut ArrayVec<u8, MOST_PROCESSES>,
) -> Option<(u8, u8)>
    requires asked { IsAsked asked.now }
    requires empty { order.old.items ≡ [] }
    ensures none { IfNone result ((k : ℕ) → k < 3 → NoneOfLength asked.now.view.sets.now.table.now
        asked.now.view.raw.now team asked.now.view.process target.now k) }
    ensures unchanged { IfNone result (order.new.items ≡ []) }
    ensures first { IfSome result (IsFirstInto asked.now.view.sets.now.table.now
        asked.now.view.raw.now team asked.now.view.process target.now order.new.items) }
    ensures in_range { IfSome result (λ pair. (pair.0 < MOST_RESPONSES) × (pair.1 < MOST_STATES)) }
{
    let (low, high) = asked.choice.bounds(team);
    let start = asked.start;
    if let Some(last) = own_ending(&asked.view, target, low, high, start.used, start.state) {
        order.push(last.process);
        return Some((last.response, last.state));
    }
    if let Some(pair) = way_of_two(&asked.view, target, low, high, start, order) {
        return Some(pair);
    }
    None
}

/// Fills an empty list with the first order that begins in the team and leads to the target, and
/// answers its pair. Most are short, so these are tried first.
#[inline(always)]
pub(crate) fn first_order_into(
    asked: &Asked<'_>,
    team: Team,
    target: &PairSet,
    order: &mut ArrayVec<u8, MOST_PROCESSES>,
) -> Option<(u8, u8)>
    requires asked { IsAsked asked.now }
    requires empty { order.old.items ≡ [] }
    // promise: first-order (NoneInto)
    ensures none { IfNone result (NoneInto asked.now.view.sets.now.table.now
        asked.now.view.raw.now team asked.now.view.process target.now) }
    ensures unchanged { IfNone result (order.new.items ≡ []) }
    // promise: first-order (IsFirstInto)
    ensures first { IfSome result (IsFirstInto asked.now.view.sets.now.table.now
        asked.now.view.raw.now team asked.now.view.process target.now order.new.items) }
    ensures in_range { IfSome result (λ pair. (pair.0 < MOST_RESPONSES) × (pair.1 < MOST_STATES)) }
{
    if let Some(pair) = short_order_into(asked, team, target, order) {
        return Some(pair);
    }
    long_order_into(asked, team, target, order)
}

/// The pairs that the process gets from orders that begin in the team.
#[inline(always)]
pub(crate) fn outcomes(asked: &Asked<'_>, team: Team) -> PairSet
    requires asked { IsAsked asked.now }
    ensures { (r q : ℕ) → Has result r q ↔ InOutcomeSet asked.now.view.sets.now.table.now
        asked.now.view.raw.now team asked.now.view.process (r, q) }
{
    let (low, high) = asked.choice.bounds(team);
    let mut pairs = PairSet::none();
    let mut tried = 0;
    for process in low..high {
        if !is_open(&asked.view, asked.start.used, tried, process) {
            continue;
        }
        tried = tried_after(&asked.view, tried, process);
        let next = asked.view.after(asked.start, process);
        asked.view.add_pairs_of_ways(next, &mut pairs);
    }
    pairs
}
