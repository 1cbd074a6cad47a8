//! Single steps of words within stocks.
ghost use Rattle.std.specs.Prelude.{◌≡◌, ◌<◌, ◌↔◌, ℕ, List, IfSome, IsTrue, None, length};
ghost use Rattle.cn_stocks.specs.Pairs.{Has};
ghost use Rattle.cn_table.specs.declared.limits.TheConstants.{MOST_RESPONSES, MOST_STATES};
ghost use Rattle.cn_join_find.specs.Steps.{AreCells, AreViews, EndsBehind, IsEndsStep, IsShownStep, ShowsBehind, StandsAt};

use cn_outcomes::bits::{contains, with};
use cn_stocks::pair_sets::PairSet;
use cn_stocks::stocks::Stock;
use cn_table::{MOST_RESPONSES, MOST_STATES, Operation, State, Table};
use cn_telling::ends::Ends;
use cn_telling::shown::Shown;

/// The stocks within one stock, each behind those that have one operation less, and the states in
/// which words within each of them end.
#[derive(Clone, Copy)]
pub(crate) struct Cells<'s> {
    pub table: &'s Table,
    pub stocks: &'s [Stock],
    pub ends: &'s [Ends],
}

/// The same, with the pairs that words within each of them show an operation.
#[derive(Clone, Copy)]
pub(crate) struct Views<'s> {
    pub cells: Cells<'s>,
    pub asked: u8,
    pub shown: &'s [Shown],
}

/// An operation that is done, the stock of what is left, and the next state.
#[derive(Clone, Copy)]
pub(crate) struct Step {
    pub operation: u8,
    pub place: usize,
    pub state: u8,
}

/// A response, and a state.
#[derive(Clone, Copy)]
pub(crate) struct Pair {
    pub response: u8,
    pub state: u8,
}

/// Whether the response and the state are a pair of the set.
pub(crate) fn has_pair(set: &PairSet, response: u8, state: u8) -> bool
    requires response { response < MOST_RESPONSES }
    requires state { state < MOST_STATES }
    ensures { IsTrue result ↔ Has set.now response state }
{
    let only = with(0, state);
    set.has_some(response, only)
}

/// The step by the operation, if the stock has it and words within what is left end in the goal.
pub(crate) fn ends_step(
    cells: &Cells<'_>,
    place: usize,
    operation: u8,
    start: u8,
    goal: u8,
) -> Option<Step>
    requires cells { AreCells cells.now }
    requires place { place < length cells.now.stocks.now }
    requires operation { operation < length cells.now.table.now.operations }
    requires start { start < length cells.now.table.now.states }
    requires goal { goal < length cells.now.table.now.states }
    ensures some { IfSome result (IsEndsStep cells.now place operation start goal) }
    ensures known { IfSome result (λ step. step.state < length cells.now.table.now.states) }
    ensures none { result ≡ None → (items : List ℕ) → StandsAt cells.now place items
        → ¬ EndsBehind cells.now.table.now start items goal operation }
{
    let table = cells.table;
    let (_operations, _states) = (table.operations(), table.states());
    let (stocks, ends) = (cells.stocks, cells.ends);
    let stock = &stocks[place];
    let Some(rest) = stock.less[operation as usize] else {
        return None;
    };
    let (_, next) = table.apply(Operation(operation), State(start));
    let left = ends[rest as usize].states[next.0 as usize];
    if !contains(left, goal) {
        return None;
    }
    Some(Step {
        operation,
        place: rest as usize,
        state: next.0,
    })
}

/// The step by the operation, if the stock has it and words within what is left show the asked
/// operation the pair.
pub(crate) fn shown_step(
    views: &Views<'_>,
    place: usize,
    operation: u8,
    start: u8,
    pair: Pair,
) -> Option<Step>
    requires views { AreViews views.now }
    requires place { place < length views.now.cells.stocks.now }
    requires operation { operation < length views.now.cells.table.now.operations }
    requires start { start < length views.now.cells.table.now.states }
    requires response { pair.response < length views.now.cells.table.now.responses }
    requires state { pair.state < length views.now.cells.table.now.states }
    ensures some { IfSome result (IsShownStep views.now place operation start pair.response
        pair.state) }
    ensures known { IfSome result (λ step. step.state
        < length views.now.cells.table.now.states) }
    ensures none { result ≡ None → (items : List ℕ) → StandsAt views.now.cells place items
        → ¬ ShowsBehind views.now.cells.table.now start items views.now.asked pair.response
        pair.state operation }
{
    let table = views.cells.table;
    let (_operations, _states) = (table.operations(), table.states());
    let _responses = table.responses();
    let (stocks, shown) = (views.cells.stocks, views.shown);
    let stock = &stocks[place];
    let Some(rest) = stock.less[operation as usize] else {
        return None;
    };
    let (_, next) = table.apply(Operation(operation), State(start));
    let pairs = shown[rest as usize].pairs[next.0 as usize];
    if !has_pair(&pairs, pair.response, pair.state) {
        return None;
    }
    Some(Step {
        operation,
        place: rest as usize,
        state: next.0,
    })
}
