//! The first way to go on, in list order, that leads into a set of pairs.
ghost use Rattle.std.specs.Prelude.{◌≡◌, ◌≢◌, ◌≤◌, ◌<◌, ◌+◌, ◌++◌, ◌∷◌, [], ◌⊎◌, ◌↔◌, ℕ, List, length, slice_index, All, IfNone, IfSome, IsBitSet, IsFalse, IsTrue};
ghost use Rattle.cn_table.specs.declared.limits.TheConstants.{MOST_RESPONSES, MOST_STATES};
ghost use Rattle.cn_choice.specs.declared.limits.TheConstants.{MOST_PROCESSES};
ghost use Rattle.cn_collisions.specs.Views.{IsPrefix, IsView, moves_left};
ghost use Rattle.cn_collisions.specs.Steps.{AreOpenings, HasMovesLeft, IsFirstOnward, IsFirstStep, LeadsOnward};
ghost use Rattle.cn_collisions.specs.Ways.{IsFirstWay, IsPassed, NoWay};

use crate::view::{Prefix, View};
use arrayvec::ArrayVec;
use cn_choice::MOST_PROCESSES;
use cn_outcomes::bits::{contains, with};
use cn_stocks::pair_sets::PairSet;

/// Whether the process is tried next. It has not moved, and it is the process in question or none
/// with its operation was tried.
pub(crate) fn is_open(view: &View<'_>, used: u16, tried: u16, process: u8) -> bool
    requires view { IsView view.now }
    requires process { process < length view.now.raw.now.operations }
    ensures open { IsTrue result
        → ¬ IsPassed view.now.raw.now view.now.process used tried process }
    ensures closed { IsFalse result
        → IsPassed view.now.raw.now view.now.process used tried process }
{
    let _operations = view.sets.table.operations();
    if contains(used, process) {
        return false;
    }
    if process == view.process {
        return true;
    }
    !contains(tried, view.operation(process).0)
}

/// The operations tried, with that of the process. The process in question does not count.
pub(crate) fn tried_after(view: &View<'_>, tried: u16, process: u8) -> u16
    requires view { IsView view.now }
    requires process { process < length view.now.raw.now.operations }
    ensures { (o : ℕ) → IsBitSet result o ↔ (IsBitSet tried o
        ⊎ ((process ≢ view.now.process)
        × (o ≡ slice_index view.now.raw.now.operations process))) }
{
    let _operations = view.sets.table.operations();
    if process == view.process {
        tried
    } else {
        with(tried, view.operation(process).0)
    }
}

/// A process that moves next, and the prefix after its move.
#[derive(Clone, Copy, Default)]
pub(crate) struct Step {
    pub process: u8,
    pub prefix: Prefix,
}

/// Fills an empty list with the first moves of the processes from low on and below high, in order.
/// Of processes with the same operation only the first has one. The process in question has its
/// own. A list that is the result would be copied twice.
#[inline(always)]
pub(crate) fn push_openings(
    view: &View<'_>,
    low: u8,
    high: u8,
    start: Prefix,
    steps: &mut ArrayVec<Step, MOST_PROCESSES>,
)
    requires view { IsView view.now }
    requires prefix { IsPrefix view.now start }
    requires high { high ≤ length view.now.raw.now.operations }
    requires empty { steps.old.items ≡ [] }
    ensures { AreOpenings view.now low high start steps.new.items }
{
    let mut tried = 0;
    for process in low..high {
        if !is_open(view, start.used, tried, process) {
            continue;
        }
        tried = tried_after(view, tried, process);
        steps.push(Step {
            process,
            prefix: view.after(start, process),
        });
    }
}

/// The first of the steps after which some way to go on with exactly this number of processes leads
/// into the set.
#[inline(always)]
pub(crate) fn first_opening<'o>(
    view: &View<'_>,
    openings: &'o [Step],
    target: &PairSet,
    left: u8,
) -> Option<&'o Step>
    requires view { IsView view.now }
    requires room { All (HasMovesLeft view.now left) openings.now }
    ensures none { IfNone result
        (All (λ s. ¬ LeadsOnward view.now target.now left s.prefix) openings.now) }
    ensures first { IfSome result
        (λ s. IsFirstOnward view.now target.now left openings.now s.now) }
{
    for step in openings {
        if view.leads_into(step.prefix, left, target) {
            return Some(step);
        }
    }
    None
}

/// The first process from low on and below high after which some way to go on leads into the set,
/// if the way has exactly this number of processes with this one. Of processes with the same
/// operation only the first is tried. A call of its own would cost as much as a process.
#[inline(always)]
fn first_step(
    view: &View<'_>,
    target: &PairSet,
    low: u8,
    high: u8,
    left: u8,
    prefix: Prefix,
) -> Option<Step>
    requires view { IsView view.now }
    requires prefix { IsPrefix view.now prefix }
    requires high { high ≤ length view.now.raw.now.operations }
    requires some { 1 ≤ left }
    requires left { left ≤ moves_left prefix }
    ensures none { IfNone result (NoWay view.now.sets.now.table.now view.now.raw.now
        view.now.process target.now left low high prefix.used prefix.state.0 prefix.seen) }
    ensures step { IfSome result (IsFirstStep view.now target.now left low high prefix) }
{
    let mut tried = 0;
    for process in low..high {
        if !is_open(view, prefix.used, tried, process) {
            continue;
        }
        tried = tried_after(view, tried, process);
        let next = view.after(prefix, process);
        if view.leads_into(next, left - 1, target) {
            return Some(Step {
                process,
                prefix: next,
            });
        }
    }
    None
}

/// Appends the process of the step, and then the first way to go on with exactly this number of
/// processes that leads into the set. Answers its pair. Some way leads there, so no step is taken
/// back.
#[inline(always)]
pub(crate) fn way_after(
    view: &View<'_>,
    target: &PairSet,
    left: u8,
    step: &Step,
    order: &mut ArrayVec<u8, MOST_PROCESSES>,
) -> (u8, u8)
    requires view { IsView view.now }
    requires prefix { IsPrefix view.now step.now.prefix }
    requires left { left ≤ moves_left step.now.prefix }
    requires short { length order.old.items + left + 1 ≤ MOST_PROCESSES }
    requires leads { LeadsOnward view.now target.now left step.now.prefix }
    ensures way { (tail : List ℕ)
        × (order.new.items ≡ (order.old.items ++ step.now.process ∷ []) ++ tail)
        × IsFirstWay view.now.sets.now.table.now view.now.raw.now view.now.process target.now
        left 0 (length view.now.raw.now.operations) step.now.prefix.used step.now.prefix.state.0
        step.now.prefix.seen tail result }
    ensures in_range { (result.0 < MOST_RESPONSES) × (result.1 < MOST_STATES) }
{
    let _states = view.sets.table.states();
    let raw = view.raw;
    let n = raw.operations.len() as u8;
    order.push(step.process);
    let mut at = step.prefix;
    for moved in 0..left {
        let Some(next) = first_step(view, target, 0, n, left - moved, at) else {
            unreachable!()
        };
        order.push(next.process);
        at = next.prefix;
    }
    let Some(response) = at.seen else {
        unreachable!()
    };
    (response, at.state.0)
}
