//! What words of each number of operations within a stock lead to, from each state.
ghost use Rattle.std.specs.Prelude.{◌≡◌, ◌≤◌, ◌<◌, ◌↔◌, ◌-◌, ◌+◌, ℕ, length, IfOk, IsBitSet};
ghost use Rattle.cn_choice.specs.declared.limits.TheConstants.{MOST_PROCESSES};
ghost use Rattle.cn_stocks.specs.Pairs.{Has};
ghost use Rattle.cn_collisions.specs.Exact.{AreEndsAfter, AreEndsUpTo, ArePairsAfter, ArePairsUpTo, EndsAfter, EndsUpTo, ShowsNow};
ghost use Rattle.cn_collisions.specs.WordSets.{AreAllRows, AreEndRows, AreShownRows, AreSets, AreUnionRows, AreUnions, IsEnds, IsEndsSetting, IsShown, IsShownSetting};

use crate::setting::Setting;
use cn_outcomes::bits::{union, with};
use cn_stocks::pair_sets::PairSet;
use cn_table::{MOST_STATES, Operation, State};
use std::alloc::{AllocError, Global};

/// The states in which words within a stock end.
#[derive(Drop)]
pub(crate) struct Ends {
    /// For each number of operations and each start state the set of these.
    pub by_count: Vec<[u16; MOST_STATES]>,
    /// For each start state the set of all of them.
    pub all: [u16; MOST_STATES],
}

/// The pairs that words within a stock show an operation that is put into them at some place.
#[derive(Drop)]
pub(crate) struct Shown {
    /// For each number of operations of the word, each such operation and each start state the set
    /// of these.
    pub by_count: Vec<Vec<Vec<PairSet>>>,
    /// For each such operation and each start state the set of all of them.
    pub all: Vec<Vec<PairSet>>,
}

/// What words within a stock lead to, of one kind.
pub(crate) trait StockSets {
    ghost use Rattle.std.specs.Prelude.{ℕ, List};
    ghost use Rattle.cn_table.specs.TypeTable.{TypeTable};

    /// These are the sets of a stock of the table with this number of operations.
    ghost fits: { TypeTable → ℕ → List ℕ → Self → Type 0 };
}

impl StockSets for Ends {
    ghost use Rattle.cn_collisions.specs.WordSets.{IsEnds};

    ghost fits = { IsEnds };
}

impl StockSets for Shown {
    ghost use Rattle.cn_collisions.specs.WordSets.{IsShown};

    ghost fits = { IsShown };
}

impl Ends {
    ghost use Rattle.std.specs.Prelude.{◌≡◌, ◌≤◌, ◌<◌, ◌↔◌, ℕ, List, length, IsBitSet};
    ghost use Rattle.cn_table.specs.TypeTable.{TypeTable};
    ghost use Rattle.cn_table.specs.declared.limits.TheConstants.{MOST_STATES};
    ghost use Rattle.cn_collisions.specs.Exact.{EndsAfter, EndsUpTo};
    ghost use Rattle.cn_collisions.specs.WordSets.{HasEndsAt, IsEnds};

    /// The states in which words of this number of operations end.
    pub fn after(&self, count: u8, start: u8) -> u16
        requires { HasEndsAt self.now count start }
        ensures { (t : TypeTable) (m : ℕ) (stock : List ℕ) → IsEnds t m stock self.now → count ≤ m
            → start < length t.states
            → (q : ℕ) → IsBitSet result q ↔ EndsAfter t start stock count q }
    {
        let row = &self.by_count[count as usize];
        row[start as usize]
    }

    /// The states in which words of any number of operations end.
    pub fn ever(&self, start: u8) -> u16
        requires { start < MOST_STATES }
        ensures { (t : TypeTable) (m : ℕ) (stock : List ℕ) → IsEnds t m stock self.now
            → start < length t.states
            → (q : ℕ) → IsBitSet result q ↔ EndsUpTo t start stock m q }
    {
        self.all[start as usize]
    }
}

impl Shown {
    ghost use Rattle.std.specs.Prelude.{◌≡◌, ◌≤◌, ◌<◌, ◌↔◌, ℕ, List, length};
    ghost use Rattle.cn_table.specs.TypeTable.{TypeTable};
    ghost use Rattle.cn_stocks.specs.Pairs.{Has};
    ghost use Rattle.cn_collisions.specs.Exact.{ShowsAfter, ShowsUpTo};
    ghost use Rattle.cn_collisions.specs.WordSets.{HasShownAt, IsShown};

    /// The pairs that words of this number of operations show the asked one.
    pub fn after(&self, count: u8, asked: u8, start: u8) -> &PairSet
        requires { HasShownAt self.now count asked start }
        ensures { (t : TypeTable) (m : ℕ) (stock : List ℕ) → IsShown t m stock self.now → count ≤ m
            → asked < length t.operations → start < length t.states
            → (r q : ℕ) → Has result.now r q ↔ ShowsAfter t start stock asked count r q }
    {
        let rows = &self.by_count[count as usize];
        let sets = &rows[asked as usize];
        &sets[start as usize]
    }

    /// The pairs that words of any number of operations show the asked one.
    pub fn ever(&self, asked: u8, start: u8) -> &PairSet
        requires { HasShownAt self.now 0 asked start }
        ensures { (t : TypeTable) (m : ℕ) (stock : List ℕ) → IsShown t m stock self.now
            → asked < length t.operations → start < length t.states
            → (r q : ℕ) → Has result.now r q ↔ ShowsUpTo t start stock asked m r q }
    {
        let sets = &self.all[asked as usize];
        &sets[start as usize]
    }
}

/// The states in which words of this number of operations end, which is 1 at least.
fn ends_by_first(setting: &Setting<'_>, start: u8, count: u8) -> u16
    requires setting { IsEndsSetting setting.now }
    requires start { start < length setting.now.table.now.states }
    requires some { 1 ≤ count }
    requires few { count ≤ setting.now.size }
    ensures { (q : ℕ) → IsBitSet result q ↔ EndsAfter setting.now.table.now start
        setting.now.stock.now.operations.items count q }
{
    let _states = setting.table.states();
    let mut set = 0;
    for operation in 0..setting.table.operations() {
        if let Some(ends) = setting.less(setting.ends, operation) {
            let (_, next) = setting.table.apply(Operation(operation), State(start));
            set = union(set, ends.after(count - 1, next.0));
        }
    }
    set
}

/// The states in which words of this number of operations end.
fn ends_from(setting: &Setting<'_>, start: u8, count: u8) -> u16
    requires setting { IsEndsSetting setting.now }
    requires start { start < length setting.now.table.now.states }
    requires few { count ≤ setting.now.size }
    ensures { (q : ℕ) → IsBitSet result q ↔ EndsAfter setting.now.table.now start
        setting.now.stock.now.operations.items count q }
{
    let _states = setting.table.states();
    if count == 0 {
        return with(0, start);
    }
    ends_by_first(setting, start, count)
}

/// These states for each start state.
fn ends_row(setting: &Setting<'_>, count: u8) -> [u16; MOST_STATES]
    requires setting { IsEndsSetting setting.now }
    requires few { count ≤ setting.now.size }
    ensures { AreEndsAfter setting.now.table.now setting.now.stock.now.operations.items count
        (length setting.now.table.now.states) result }
{
    let mut row = [0; MOST_STATES];
    for start in 0..setting.table.states() {
        row[start as usize] = ends_from(setting, start, count);
    }
    row
}

/// The states in which words of any number of operations end.
fn ends_ever(setting: &Setting<'_>, by_count: &[[u16; MOST_STATES]], start: u8) -> u16
    requires ends { AreEndRows setting.now.table.now setting.now.size
        setting.now.stock.now.operations.items by_count.now }
    requires start { start < length setting.now.table.now.states }
    ensures { (q : ℕ) → IsBitSet result q ↔ EndsUpTo setting.now.table.now start
        setting.now.stock.now.operations.items setting.now.size q }
{
    let _states = setting.table.states();
    let mut set = 0;
    for row in by_count {
        set = union(set, row[start as usize]);
    }
    set
}

/// These states for each start state.
fn ends_union(setting: &Setting<'_>, by_count: &[[u16; MOST_STATES]]) -> [u16; MOST_STATES]
    requires { AreEndRows setting.now.table.now setting.now.size
        setting.now.stock.now.operations.items by_count.now }
    ensures { AreEndsUpTo setting.now.table.now setting.now.stock.now.operations.items
        setting.now.size (length setting.now.table.now.states) result }
{
    let mut all = [0; MOST_STATES];
    for start in 0..setting.table.states() {
        all[start as usize] = ends_ever(setting, by_count, start);
    }
    all
}

/// The states in which words within the stock end.
pub(crate) fn stock_ends(alloc: Global, setting: &Setting<'_>) -> Result<Ends, AllocError>
    requires setting { IsEndsSetting setting.now }
    requires few { setting.now.size < MOST_PROCESSES }
    ensures { IfOk result (IsEnds setting.now.table.now setting.now.size
        setting.now.stock.now.operations.items) }
{
    let mut by_count = Vec::with_capacity(alloc, setting.size as usize + 1)?;
    for count in 0..setting.size + 1 {
        let row = ends_row(setting, count);
        by_count.push(row)?;
    }
    let all = ends_union(setting, &by_count);
    Ok(Ends { by_count, all })
}

/// The pairs that words of this number of operations show the asked one before them.
fn shown_now(setting: &Setting<'_>, own: &Ends, count: u8, asked: u8, start: u8) -> PairSet
    requires setting { IsShownSetting setting.now }
    requires own { IsEnds setting.now.table.now setting.now.size
        setting.now.stock.now.operations.items own.now }
    requires few { count ≤ setting.now.size }
    requires asked { asked < length setting.now.table.now.operations }
    requires start { start < length setting.now.table.now.states }
    ensures { (r q : ℕ) → Has result r q ↔ ShowsNow setting.now.table.now start
        setting.now.stock.now.operations.items asked count r q }
{
    let _responses = setting.table.responses();
    let _states = setting.table.states();
    let mut set = PairSet::none();
    let (response, next) = setting.table.apply(Operation(asked), State(start));
    set.add_states(response.0, own.after(count, next.0));
    set
}

/// The pairs that words of this number of operations show the asked one.
fn shown_from(setting: &Setting<'_>, own: &Ends, count: u8, asked: u8, start: u8) -> PairSet
    requires setting { IsShownSetting setting.now }
    requires own { IsEnds setting.now.table.now setting.now.size
        setting.now.stock.now.operations.items own.now }
    requires few { count ≤ setting.now.size }
    requires asked { asked < length setting.now.table.now.operations }
    requires start { start < length setting.now.table.now.states }
    ensures { ArePairsAfter setting.now.table.now start setting.now.stock.now.operations.items asked
        count result }
{
    let _states = setting.table.states();
    let mut set = shown_now(setting, own, count, asked, start);
    if count == 0 {
        return set;
    }
    for operation in 0..setting.table.operations() {
        if let Some(shown) = setting.less(setting.shown, operation) {
            let (_, next) = setting.table.apply(Operation(operation), State(start));
            set.add_all(shown.after(count - 1, asked, next.0));
        }
    }
    set
}

/// These pairs for each start state.
fn shown_sets(
    alloc: Global,
    setting: &Setting<'_>,
    own: &Ends,
    count: u8,
    asked: u8,
) -> Result<Vec<PairSet>, AllocError>
    requires setting { IsShownSetting setting.now }
    requires own { IsEnds setting.now.table.now setting.now.size
        setting.now.stock.now.operations.items own.now }
    requires few { count ≤ setting.now.size }
    requires asked { asked < length setting.now.table.now.operations }
    ensures { IfOk result (λ sets. AreSets setting.now.table.now
        setting.now.stock.now.operations.items count asked sets.items) }
{
    let end = setting.table.states();
    let mut sets = Vec::with_capacity(alloc, end as usize)?;
    for start in 0..end {
        let set = shown_from(setting, own, count, asked, start);
        sets.push(set)?;
    }
    Ok(sets)
}

/// These sets for each asked operation.
fn shown_rows(
    alloc: Global,
    setting: &Setting<'_>,
    own: &Ends,
    count: u8,
) -> Result<Vec<Vec<PairSet>>, AllocError>
    requires setting { IsShownSetting setting.now }
    requires own { IsEnds setting.now.table.now setting.now.size
        setting.now.stock.now.operations.items own.now }
    requires few { count ≤ setting.now.size }
    ensures { IfOk result (λ rows. AreShownRows setting.now.table.now
        setting.now.stock.now.operations.items count rows.items) }
{
    let end = setting.table.operations();
    let mut rows = Vec::with_capacity(alloc, end as usize)?;
    for asked in 0..end {
        let sets = shown_sets(alloc, setting, own, count, asked)?;
        rows.push(sets)?;
    }
    Ok(rows)
}

/// The pairs that words of any number of operations show the asked one.
fn shown_union(
    setting: &Setting<'_>,
    by_count: &[Vec<Vec<PairSet>>],
    asked: u8,
    start: u8,
) -> PairSet
    requires shown { AreAllRows setting.now.table.now setting.now.size
        setting.now.stock.now.operations.items by_count.now }
    requires asked { asked < length setting.now.table.now.operations }
    requires start { start < length setting.now.table.now.states }
    ensures { ArePairsUpTo setting.now.table.now start setting.now.stock.now.operations.items asked
        setting.now.size result }
{
    let _size = setting.size;
    let mut set = PairSet::none();
    for rows in by_count {
        let sets = &rows[asked as usize];
        set.add_all(&sets[start as usize]);
    }
    set
}

/// These pairs for each start state.
fn union_sets(
    alloc: Global,
    setting: &Setting<'_>,
    by_count: &[Vec<Vec<PairSet>>],
    asked: u8,
) -> Result<Vec<PairSet>, AllocError>
    requires shown { AreAllRows setting.now.table.now setting.now.size
        setting.now.stock.now.operations.items by_count.now }
    requires asked { asked < length setting.now.table.now.operations }
    ensures { IfOk result (λ sets. AreUnions setting.now.table.now setting.now.size
        setting.now.stock.now.operations.items asked sets.items) }
{
    let end = setting.table.states();
    let mut sets = Vec::with_capacity(alloc, end as usize)?;
    for start in 0..end {
        let set = shown_union(setting, by_count, asked, start);
        sets.push(set)?;
    }
    Ok(sets)
}

/// These sets for each asked operation.
fn union_rows(
    alloc: Global,
    setting: &Setting<'_>,
    by_count: &[Vec<Vec<PairSet>>],
) -> Result<Vec<Vec<PairSet>>, AllocError>
    requires { AreAllRows setting.now.table.now setting.now.size
        setting.now.stock.now.operations.items by_count.now }
    ensures { IfOk result (λ rows. AreUnionRows setting.now.table.now setting.now.size
        setting.now.stock.now.operations.items rows.items) }
{
    let end = setting.table.operations();
    let mut rows = Vec::with_capacity(alloc, end as usize)?;
    for asked in 0..end {
        let sets = union_sets(alloc, setting, by_count, asked)?;
        rows.push(sets)?;
    }
    Ok(rows)
}

/// The pairs that words within the stock show an operation that is put into them.
pub(crate) fn stock_shown(
    alloc: Global,
    setting: &Setting<'_>,
    own: &Ends,
) -> Result<Shown, AllocError>
    requires setting { IsShownSetting setting.now }
    requires own { IsEnds setting.now.table.now setting.now.size
        setting.now.stock.now.operations.items own.now }
    requires few { setting.now.size < MOST_PROCESSES }
    ensures { IfOk result (IsShown setting.now.table.now setting.now.size
        setting.now.stock.now.operations.items) }
{
    let mut by_count = Vec::with_capacity(alloc, setting.size as usize + 1)?;
    for count in 0..setting.size + 1 {
        let rows = shown_rows(alloc, setting, own, count)?;
        by_count.push(rows)?;
    }
    let all = union_rows(alloc, setting, &by_count)?;
    Ok(Shown { by_count, all })
}
