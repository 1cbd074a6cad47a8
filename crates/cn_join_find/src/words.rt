//! Words within stocks that end in a state, or show an operation a pair.
ghost use Rattle.std.specs.Prelude.{◌≡◌, ◌<◌, ◌≤◌, ℕ, List, IfOk, IfSome, None, length};
ghost use Rattle.cn_table.specs.TypeTable.{transition};
ghost use Rattle.cn_stocks.specs.Reach.{EndsWithin, ShowsAtOnce, ShowsWithin};
ghost use Rattle.cn_stocks.specs.Words.{Shows};
ghost use Rattle.cn_join_find.specs.Steps.{AreCells, AreViews, EndsBehind, IsEndsStep, IsShowing, IsShownStep, LeadsTo, LeadsToShow, ShowsBehind, StandsAt};

use crate::steps::{Cells, Pair, Step, Views, ends_step, shown_step};
use cn_joins::PlacedWord;
use cn_table::{Operation, State};
use std::alloc::{AllocError, Global};

/// A step from the state, from which words within the stock end in the goal.
fn some_ends_step(cells: &Cells<'_>, place: usize, start: u8, goal: u8) -> Option<Step>
    requires cells { AreCells cells.now }
    requires place { place < length cells.now.stocks.now }
    requires start { start < length cells.now.table.now.states }
    requires goal { goal < length cells.now.table.now.states }
    ensures some { IfSome result (λ step. (o : ℕ) × (o < length cells.now.table.now.operations)
        × IsEndsStep cells.now place o start goal step) }
    ensures known { IfSome result (λ step. step.state < length cells.now.table.now.states) }
    ensures none { result ≡ None → (items : List ℕ) → StandsAt cells.now place items → (o : ℕ)
        → o < length cells.now.table.now.operations → ¬ EndsBehind cells.now.table.now start items goal o }
{
    for operation in 0..cells.table.operations() {
        if let Some(step) = ends_step(cells, place, operation, start, goal) {
            return Some(step);
        }
    }
    None
}

/// Adds a word within the stock that ends in the goal.
fn push_way(
    cells: &Cells<'_>,
    place: usize,
    start: u8,
    goal: u8,
    word: &mut Vec<u8>,
) -> Result<(), AllocError>
    requires cells { AreCells cells.now }
    requires place { place < length cells.now.stocks.now }
    requires start { start < length cells.now.table.now.states }
    requires goal { goal < length cells.now.table.now.states }
    requires ends { (items : List ℕ) → StandsAt cells.now place items
        → EndsWithin cells.now.table.now start items goal }
    ensures { IfOk result (λ _. (items : List ℕ) → StandsAt cells.now place items
        → LeadsTo cells.now.table.now start items goal word.old.items word.new.items) }
{
    if start == goal {
        return Ok(());
    }
    let Some(step) = some_ends_step(cells, place, start, goal) else {
        unreachable!()
    };
    word.push(step.operation)?;
    push_way(cells, step.place, step.state, goal, word)
}

/// The step by the asked operation, if it gets the response and words within what is left end in
/// the state.
fn asked_step(views: &Views<'_>, place: usize, start: u8, pair: Pair) -> Option<Step>
    requires views { AreViews views.now }
    requires place { place < length views.now.cells.stocks.now }
    requires start { start < length views.now.cells.table.now.states }
    requires response { pair.response < length views.now.cells.table.now.responses }
    requires state { pair.state < length views.now.cells.table.now.states }
    ensures some { IfSome result (IsEndsStep views.now.cells place views.now.asked start pair.state) }
    ensures answer { IfSome result (λ step. (transition views.now.cells.table.now
        views.now.asked start).0 ≡ pair.response) }
    ensures known { IfSome result (λ step. step.state
        < length views.now.cells.table.now.states) }
    ensures none { result ≡ None → (items : List ℕ) → StandsAt views.now.cells place items
        → ¬ ShowsAtOnce views.now.cells.table.now start items views.now.asked pair.response
        pair.state }
{
    let (response, _) = views
        .cells
        .table
        .apply(Operation(views.asked), State(start));
    if response.0 != pair.response {
        return None;
    }
    ends_step(&views.cells, place, views.asked, start, pair.state)
}

/// The same, if the asked operation is this one.
fn asked_step_of(views: &Views<'_>, place: usize, start: u8, first: u8, pair: Pair) -> Option<Step>
    requires views { AreViews views.now }
    requires place { place < length views.now.cells.stocks.now }
    requires start { start < length views.now.cells.table.now.states }
    requires response { pair.response < length views.now.cells.table.now.responses }
    requires state { pair.state < length views.now.cells.table.now.states }
    ensures some { IfSome result (IsEndsStep views.now.cells place views.now.asked start
        pair.state) }
    ensures same { IfSome result (λ step. first ≡ views.now.asked) }
    ensures answer { IfSome result (λ step. (transition views.now.cells.table.now
        views.now.asked start).0 ≡ pair.response) }
    ensures known { IfSome result (λ step. step.state
        < length views.now.cells.table.now.states) }
    ensures none { result ≡ None → (items : List ℕ) → StandsAt views.now.cells place items
        → first ≡ views.now.asked → ¬ ShowsAtOnce views.now.cells.table.now start items
        views.now.asked pair.response pair.state }
{
    if first != views.asked {
        return None;
    }
    asked_step(views, place, start, pair)
}

/// A step from the state, from which words within the stock show the asked operation the pair
/// behind their first place.
fn some_shown_step(views: &Views<'_>, place: usize, start: u8, pair: Pair) -> Option<Step>
    requires views { AreViews views.now }
    requires place { place < length views.now.cells.stocks.now }
    requires start { start < length views.now.cells.table.now.states }
    requires response { pair.response < length views.now.cells.table.now.responses }
    requires state { pair.state < length views.now.cells.table.now.states }
    ensures some { IfSome result (λ step. (o : ℕ) × (o < length views.now.cells.table.now.operations)
        × IsShownStep views.now place o start pair.response pair.state step) }
    ensures known { IfSome result (λ step. step.state < length views.now.cells.table.now.states) }
    ensures none { result ≡ None → (items : List ℕ) → StandsAt views.now.cells place items → (o : ℕ)
        → o < length views.now.cells.table.now.operations
        → ¬ ShowsBehind views.now.cells.table.now start items views.now.asked pair.response pair.state o }
{
    for operation in 0..views.cells.table.operations() {
        if let Some(step) = shown_step(views, place, operation, start, pair) {
            return Some(step);
        }
    }
    None
}

/// Adds a word within the stock that shows the asked operation the pair, and answers its place
/// there.
fn push_shown(
    views: &Views<'_>,
    place: usize,
    start: u8,
    pair: Pair,
    word: &mut Vec<u8>,
) -> Result<usize, AllocError>
    requires views { AreViews views.now }
    requires place { place < length views.now.cells.stocks.now }
    requires start { start < length views.now.cells.table.now.states }
    requires response { pair.response < length views.now.cells.table.now.responses }
    requires state { pair.state < length views.now.cells.table.now.states }
    requires shows { (items : List ℕ) → StandsAt views.now.cells place items
        → ShowsWithin views.now.cells.table.now start items views.now.asked pair.response pair.state }
    ensures { IfOk result (λ at. (items : List ℕ) → StandsAt views.now.cells place items
        → LeadsToShow views.now.cells.table.now start items views.now.asked pair.response pair.state
        word.old.items word.new.items at) }
{
    if let Some(step) = asked_step(views, place, start, pair) {
        let at = word.len();
        word.push(step.operation)?;
        push_way(&views.cells, step.place, step.state, pair.state, word)?;
        return Ok(at);
    }
    let Some(step) = some_shown_step(views, place, start, pair) else {
        unreachable!()
    };
    word.push(step.operation)?;
    push_shown(views, step.place, step.state, pair, word)
}

/// A word within the stock that begins with the first operation and shows the asked one the pair,
/// with its place there.
pub(crate) fn first_word(
    alloc: Global,
    views: &Views<'_>,
    place: usize,
    start: u8,
    first: u8,
    pair: Pair,
) -> Result<PlacedWord, AllocError>
    requires views { AreViews views.now }
    requires place { place < length views.now.cells.stocks.now }
    requires start { start < length views.now.cells.table.now.states }
    requires first { first < length views.now.cells.table.now.operations }
    requires response { pair.response < length views.now.cells.table.now.responses }
    requires state { pair.state < length views.now.cells.table.now.states }
    requires shows { (items : List ℕ) → StandsAt views.now.cells place items
        → (length items ≤ 255) × Shows views.now.cells.table.now start items first views.now.asked pair.response pair.state }
    ensures { IfOk result (λ w. (items : List ℕ) → StandsAt views.now.cells place items
        → IsShowing views.now.cells.table.now start items first views.now.asked pair.response pair.state w) }
{
    let mut word = Vec::new(alloc);
    word.push(first)?;
    if let Some(step) = asked_step_of(views, place, start, first, pair) {
        push_way(&views.cells, step.place, step.state, pair.state, &mut word)?;
        return Ok(PlacedWord { word, place: 0 });
    }
    let Some(step) = shown_step(views, place, first, start, pair) else {
        unreachable!()
    };
    let at = push_shown(views, step.place, step.state, pair, &mut word)?;
    Ok(PlacedWord {
        word,
        place: at as u8,
    })
}
