//! What words within a stock lead to, from each state.
ghost use Rattle.std.specs.Prelude.{◌≡◌, ◌<◌, ◌↔◌, ℕ, length, IfOk, IsBitSet};
ghost use Rattle.cn_divisions.specs.Levels.{AreAllEnds, AreAllShown, AreNext, IsSetting};
ghost use Rattle.cn_stocks.specs.Pairs.{Has};
ghost use Rattle.cn_stocks.specs.Reach.{AreEnds, ArePairs, ArePairsTo, AreShown, EndsWithin, ShowsAtOnce};

use crate::levels::{Level, Setting};
use cn_outcomes::bits::{union, with};
use cn_stocks::pair_sets::PairSet;
use cn_stocks::stocks::Stock;
use cn_table::{MOST_STATES, Operation, State, Table};
use std::alloc::{AllocError, Global};

/// The states in which words within a stock end.
#[derive(Clone, Copy)]
pub(crate) struct Ends {
    /// For each start state the set of these.
    pub states: [u16; MOST_STATES],
}

/// The pairs that words within a stock show.
#[derive(Drop)]
pub(crate) struct Shown {
    /// For each operation and each start state the pairs that these words show the operation. The
    /// row of an operation that the stock does not have is empty.
    pub pairs: Vec<Vec<PairSet>>,
}

impl Shown {
    ghost use Rattle.std.specs.Prelude.{◌≡◌, ◌<◌, ◌↔◌, ◌⊎◌, ℕ, List, length};
    ghost use Rattle.cn_table.specs.TypeTable.{TypeTable};
    ghost use Rattle.cn_stocks.specs.Pairs.{Has};
    ghost use Rattle.cn_stocks.specs.Reach.{AreShown, ShowsWithin};

    /// Puts the pairs that these words show the operation from the start state into the set.
    pub fn add_to(&self, asked: u8, start: u8, set: &mut PairSet)
        requires { asked < length self.now.pairs.items }
        ensures { (t : TypeTable) (stock : List ℕ) → AreShown t stock self.now.pairs.items
            → start < length t.states → (r q : ℕ) → Has set.new r q
            ↔ (Has set.old r q ⊎ ShowsWithin t start stock asked r q) }
    {
        let sets = &self.pairs[asked as usize];
        if (start as usize) < sets.len() {
            set.add_all(&sets[start as usize]);
        }
    }
}

/// The states in which words within the stock end.
fn ends_from(setting: &Setting<'_>, start: u8) -> u16
    requires setting { IsSetting setting.now }
    requires start { start < length setting.now.table.now.states }
    ensures { (q : ℕ) → IsBitSet result q ↔ EndsWithin setting.now.table.now start
        setting.now.stock.now.operations.items q }
{
    let _states = setting.table.states();
    let mut set = with(0, start);
    for operation in 0..setting.table.operations() {
        if let Some(ends) = setting.less_ends(operation) {
            let (_, next) = setting.table.apply(Operation(operation), State(start));
            set = union(set, ends.states[next.0 as usize]);
        }
    }
    set
}

/// These states for each start state.
fn stock_ends(setting: &Setting<'_>) -> Ends
    requires { IsSetting setting.now }
    ensures { AreEnds setting.now.table.now setting.now.stock.now.operations.items
        (length setting.now.table.now.states) result.states }
{
    let mut states = [0; MOST_STATES];
    for start in 0..setting.table.states() {
        states[start as usize] = ends_from(setting, start);
    }
    Ends { states }
}

/// The pairs that words within the stock show the operation at their first place.
pub(crate) fn shown_at_once(setting: &Setting<'_>, asked: u8, start: u8) -> PairSet
    requires setting { IsSetting setting.now }
    requires asked { asked < length setting.now.table.now.operations }
    requires start { start < length setting.now.table.now.states }
    ensures { (r q : ℕ) → Has result r q ↔ ShowsAtOnce setting.now.table.now start
        setting.now.stock.now.operations.items asked r q }
{
    let (_responses, _states) = (setting.table.responses(), setting.table.states());
    let mut set = PairSet::none();
    if let Some(ends) = setting.less_ends(asked) {
        let (response, next) = setting.table.apply(Operation(asked), State(start));
        set.add_states(response.0, ends.states[next.0 as usize]);
    }
    set
}

/// The pairs that words within the stock show the operation.
fn shown_from(setting: &Setting<'_>, asked: u8, start: u8) -> PairSet
    requires setting { IsSetting setting.now }
    requires asked { asked < length setting.now.table.now.operations }
    requires start { start < length setting.now.table.now.states }
    ensures { ArePairs setting.now.table.now start setting.now.stock.now.operations.items asked
        result }
{
    let (_operations, _states) = (setting.table.operations(), setting.table.states());
    let mut set = shown_at_once(setting, asked, start);
    for operation in 0..setting.table.operations() {
        if let Some(shown) = setting.less_shown(operation) {
            let (_, next) = setting.table.apply(Operation(operation), State(start));
            shown.add_to(asked, next.0, &mut set);
        }
    }
    set
}

/// These pairs for each start state.
fn shown_to(alloc: Global, setting: &Setting<'_>, asked: u8) -> Result<Vec<PairSet>, AllocError>
    requires setting { IsSetting setting.now }
    requires asked { asked < length setting.now.table.now.operations }
    ensures { IfOk result (λ sets. ArePairsTo setting.now.table.now
        setting.now.stock.now.operations.items asked sets.items) }
{
    let _operations = setting.table.operations();
    // An operation that the stock does not have is shown nothing.
    if !setting.stock.has(asked) {
        return Ok(Vec::new(alloc));
    }
    let end = setting.table.states();
    let mut sets = Vec::with_capacity(alloc, end as usize)?;
    for start in 0..end {
        let set = shown_from(setting, asked, start);
        sets.push(set)?;
    }
    Ok(sets)
}

/// The pairs that words within the stock show.
fn stock_pairs(alloc: Global, setting: &Setting<'_>) -> Result<Shown, AllocError>
    requires { IsSetting setting.now }
    ensures { IfOk result (λ shown. AreShown setting.now.table.now
        setting.now.stock.now.operations.items shown.pairs.items) }
{
    let end = setting.table.operations();
    let mut pairs = Vec::with_capacity(alloc, end as usize)?;
    for asked in 0..end {
        let sets = shown_to(alloc, setting, asked)?;
        pairs.push(sets)?;
    }
    Ok(Shown { pairs })
}

/// The states in which words within each of these stocks end.
pub(crate) fn all_ends(
    alloc: Global,
    table: &Table,
    level: &Level,
    stocks: &[Stock],
) -> Result<Vec<Ends>, AllocError>
    requires { AreNext table.now level.now stocks.now }
    ensures { IfOk result (λ ends. AreAllEnds table.now stocks.now (length stocks.now) ends.items) }
{
    let mut all = Vec::with_capacity(alloc, stocks.len())?;
    for place in 0..stocks.len() {
        let ends = stock_ends(&Setting {
            table,
            level,
            stock: &stocks[place],
        });
        all.push(ends)?;
    }
    Ok(all)
}

/// The pairs that words within each of these stocks show.
pub(crate) fn all_shown(
    alloc: Global,
    table: &Table,
    level: &Level,
    stocks: &[Stock],
) -> Result<Vec<Shown>, AllocError>
    requires { AreNext table.now level.now stocks.now }
    ensures { IfOk result (λ shown. AreAllShown table.now stocks.now (length stocks.now)
        shown.items) }
{
    let mut all = Vec::with_capacity(alloc, stocks.len())?;
    for place in 0..stocks.len() {
        let setting = Setting {
            table,
            level,
            stock: &stocks[place],
        };
        let shown = stock_pairs(alloc, &setting)?;
        all.push(shown)?;
    }
    Ok(all)
}
