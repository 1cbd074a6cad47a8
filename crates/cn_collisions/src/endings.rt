//! The last process of a way that leads into a set of pairs, and ways of two processes.
ghost use Rattle.std.specs.Prelude.{◌≡◌, ◌<◌, ◌≤◌, [], Some, None, IfNone, IfSome, length};
ghost use Rattle.cn_table.specs.declared.limits.TheConstants.{MOST_RESPONSES, MOST_STATES};
ghost use Rattle.cn_collisions.specs.Steps.{IsFirstBehind, IsFirstEnding, NoEnding, NoEndingBehind};
ghost use Rattle.cn_collisions.specs.Views.{IsStart, IsView};
ghost use Rattle.cn_collisions.specs.Ways.{IsFirstWay, NoWay};

use crate::view::{Prefix, View};
use arrayvec::ArrayVec;
use cn_choice::MOST_PROCESSES;
use cn_outcomes::bits::{contains, with};
use cn_stocks::pair_sets::PairSet;
use cn_table::State;

/// A process that moves last, and the pair that the process in question has then.
#[derive(Clone, Copy)]
pub(crate) struct Ending {
    pub process: u8,
    pub response: u8,
    pub state: u8,
}

/// The process in question, if it is from low on and below high, has not moved, and gets a pair of
/// the set when it moves last. No other process can be the last one.
#[inline(always)]
pub(crate) fn own_ending(
    view: &View<'_>,
    target: &PairSet,
    low: u8,
    high: u8,
    used: u16,
    state: State,
) -> Option<Ending>
    requires view { IsView view.now }
    requires state { state.0 < length view.now.sets.now.table.now.states }
    ensures none { IfNone result (NoEnding view.now target.now low high used state.0 None) }
    ensures first { IfSome result (IsFirstEnding view.now target.now low high used state.0 None) }
{
    let process = view.process;
    if process < low || high <= process || contains(used, process) {
        return None;
    }
    let _responses = view.sets.table.responses();
    let _states = view.sets.table.states();
    let (response, next) = view.sets.table.apply(view.operation(process), state);
    if !target.has_some(response.0, with(0, next.0)) {
        return None;
    }
    Some(Ending {
        process,
        response: response.0,
        state: next.0,
    })
}

/// The first process from low on and below high that has not moved and leads into the set when it
/// moves last, where the process in question has moved and has got the response.
#[inline(always)]
pub(crate) fn other_ending(
    view: &View<'_>,
    target: &PairSet,
    low: u8,
    high: u8,
    used: u16,
    state: State,
    response: u8,
) -> Option<Ending>
    requires view { IsView view.now }
    requires high { high ≤ length view.now.raw.now.operations }
    requires state { state.0 < length view.now.sets.now.table.now.states }
    requires response { response < MOST_RESPONSES }
    ensures none { IfNone result
        (NoEnding view.now target.now low high used state.0 (Some response)) }
    ensures first { IfSome result
        (IsFirstEnding view.now target.now low high used state.0 (Some response)) }
{
    let _states = view.sets.table.states();
    for process in low..high {
        if contains(used, process) {
            continue;
        }
        let (_, next) = view.sets.table.apply(view.operation(process), state);
        if target.has_some(response, with(0, next.0)) {
            return Some(Ending {
                process,
                response,
                state: next.0,
            });
        }
    }
    None
}

/// The process that moves last behind a first one, and leads into the set.
#[inline(always)]
fn ending_after(view: &View<'_>, target: &PairSet, start: Prefix, process: u8) -> Option<Ending>
    requires view { IsView view.now }
    requires start { IsStart view.now start }
    requires process { process < length view.now.raw.now.operations }
    ensures none { IfNone result (NoEndingBehind view.now target.now start process) }
    ensures first { IfSome result (IsFirstBehind view.now target.now start process) }
{
    let raw = view.raw;
    let n = raw.operations.len() as u8;
    let _responses = view.sets.table.responses();
    let (response, next) = view.sets.table.apply(view.operation(process), start.state);
    let used = start.used | (1 << process);
    if process == view.process {
        other_ending(view, target, 0, n, used, next, response.0)
    } else {
        own_ending(view, target, 0, n, used, next)
    }
}

/// Fills an empty list with the first way of two processes that leads into the set, if its first
/// process is from low on and below high, and answers its pair.
#[inline(always)]
pub(crate) fn way_of_two(
    view: &View<'_>,
    target: &PairSet,
    low: u8,
    high: u8,
    start: Prefix,
    order: &mut ArrayVec<u8, MOST_PROCESSES>,
) -> Option<(u8, u8)>
    requires view { IsView view.now }
    requires start { IsStart view.now start }
    requires high { high ≤ length view.now.raw.now.operations }
    requires empty { order.old.items ≡ [] }
    ensures none { IfNone result (NoWay view.now.sets.now.table.now view.now.raw.now
        view.now.process target.now 2 low high start.used start.state.0 None) }
    ensures unchanged { IfNone result (order.new.items ≡ []) }
    ensures first { IfSome result (IsFirstWay view.now.sets.now.table.now view.now.raw.now
        view.now.process target.now 2 low high start.used start.state.0 None order.new.items) }
    ensures in_range { IfSome result (λ pair. (pair.0 < MOST_RESPONSES) × (pair.1 < MOST_STATES)) }
{
    for process in low..high {
        if let Some(last) = ending_after(view, target, start, process) {
            order.push(process);
            order.push(last.process);
            return Some((last.response, last.state));
        }
    }
    None
}
