//! The search by the number of processes.
ghost use Rattle.std.specs.Prelude.{◌≡◌, ◌<◌, ◌≤◌, ◌+◌, ◌-◌, ℕ, [], All, length, IfOk, IsBitSet, IsTrue};
ghost use Rattle.cn_choice.specs.declared.limits.TheConstants.{MOST_PROCESSES};
ghost use Rattle.cn_meetings.specs.Meeting.{Meeting};
ghost use Rattle.cn_stocks.specs.Each.{EachAt};
ghost use Rattle.cn_stocks.specs.Stocks.{SomeAll};
ghost use Rattle.cn_stocks.specs.Words.{HaveSame};
ghost use Rattle.cn_divisions.specs.Divisions.{AreAllSizes, AreDivisions, DifferInSizes, HaveSizesOf, IsDivision, IsMeetingOf, operations_of};
ghost use Rattle.cn_divisions.specs.Found.{IsExtended};
ghost use Rattle.cn_divisions.specs.Levels.{AreNext, AreStarts, HasStarts, IsSetting};
ghost use Rattle.cn_divisions.specs.Looks.{IsLook};
ghost use Rattle.cn_meetings.specs.Sights.{AreSightsOf, sight_of};

use crate::divisions::{Division, add, finest};
use crate::levels::{Level, Setting, Starts};
use crate::looks::{Look, looks};
use crate::word_sets::{all_ends, all_shown};
use cn_choice::MOST_PROCESSES;
use cn_meetings::Sight;
use cn_outcomes::bits::{contains, with};
use cn_stocks::stocks::{Stocks, no_operation};
use cn_table::Table;
use std::alloc::{AllocError, Global};

/// The divisions of one number of processes, where all have one sight.
#[derive(Drop)]
pub struct SightDivisions {
    /// The sight.
    pub sight: Sight,
    /// The divisions.
    pub list: Vec<Division>,
}

/// The divisions of one number of processes.
#[derive(Drop)]
pub struct Divisions {
    /// Those by each of the sights, in their order.
    pub by_sight: Vec<SightDivisions>,
}

/// Whether the stock may be split from the state, by the states from which it is so with one
/// operation less.
fn may_split(setting: &Setting<'_>, less: u16, start: u8) -> bool
    requires { start < 16 }
    ensures { ¬ IsTrue result → (3 ≤ length setting.now.stock.now.operations.items)
        × ¬ IsBitSet less start }
{
    setting.stock.operations.len() < 3 || contains(less, start)
}

/// Adds the divisions of the processes that do the operations of the stock, from each start state.
/// Answers the states from which there is one.
fn add_stock(
    setting: &Setting<'_>,
    look: &Look,
    starts: &Starts,
    found: &mut Vec<Division>,
) -> Result<u16, AllocError>
    requires setting { IsSetting setting.now }
    requires look { IsLook setting.now.table.now look.now }
    requires starts { AreStarts setting.now.table.now (sight_of look.now.sight)
        setting.now.level.now.stocks.list.items
        (length setting.now.level.now.stocks.list.items) starts.now.sets.items }
    requires few { length setting.now.stock.now.operations.items ≤ MOST_PROCESSES }
    requires many { 2 ≤ length setting.now.stock.now.operations.items }
    requires are { All (IsDivision setting.now.table.now (sight_of look.now.sight)
        (length setting.now.stock.now.operations.items)) found.now.items }
    requires once { DifferInSizes found.now.items }
    ensures are { IfOk result (λ _. All (IsDivision setting.now.table.now (sight_of look.now.sight)
        (length setting.now.stock.now.operations.items)) found.new.items) }
    ensures once { IfOk result (λ _. DifferInSizes found.new.items) }
    ensures kept { IfOk result (λ _. IsExtended found.old.items found.new.items) }
    ensures all { IfOk result (λ _. (M : Meeting)
        → IsMeetingOf setting.now.table.now (sight_of look.now.sight)
        (length setting.now.stock.now.operations.items) M
        → HaveSame setting.now.stock.now.operations.items
        (operations_of M (length setting.now.stock.now.operations.items))
        → HaveSizesOf setting.now.table.now (length setting.now.stock.now.operations.items) M
        found.new.items) }
    ensures starts { IfOk result (HasStarts setting.now.table.now (sight_of look.now.sight)
        setting.now.stock.now.operations.items) }
{
    let _states = setting.table.states();
    let less = setting.less_starts(starts);
    let mut set = 0;
    for start in 0..setting.table.states() {
        if may_split(setting, less, start) {
            if let Some(division) = finest(setting, look, start) {
                set = with(set, start);
                add(found, division)?;
            }
        }
    }
    Ok(set)
}

/// What is found of all stocks by one sight.
#[derive(Drop)]
struct Found {
    divisions: Vec<Division>,
    /// The states from which there is a division.
    starts: Starts,
}

/// The divisions of n processes, whose operations are one of these stocks.
fn divisions_of(
    alloc: Global,
    table: &Table,
    level: &Level,
    stocks: &Stocks,
    look: &Look,
    starts: &Starts,
    n: u8,
) -> Result<Found, AllocError>
    requires next { AreNext table.now level.now stocks.now.list.items }
    requires look { IsLook table.now look.now }
    requires starts { AreStarts table.now (sight_of look.now.sight) level.now.stocks.list.items
        (length level.now.stocks.list.items) starts.now.sets.items }
    requires stocks { SomeAll (length table.now.operations) n stocks.now }
    requires few { n ≤ MOST_PROCESSES }
    requires many { 2 ≤ n }
    ensures all { IfOk result (λ found. AreAllSizes table.now (sight_of look.now.sight) n
        found.divisions.items) }
    ensures starts { IfOk result (λ found. AreStarts table.now (sight_of look.now.sight)
        stocks.now.list.items (length stocks.now.list.items) found.starts.sets.items) }
{
    let _n = n;
    let mut divisions = Vec::new(alloc);
    let mut sets = Vec::with_capacity(alloc, stocks.list.len())?;
    let list = stocks.list.as_slice();
    for place in 0..list.len() {
        let setting = Setting {
            table,
            level,
            stock: &list[place],
        };
        let here = add_stock(&setting, look, starts, &mut divisions)?;
        sets.push(here)?;
    }
    Ok(Found {
        divisions,
        starts: Starts { sets },
    })
}

/// How far a search has come: all stocks of one number of operations, over those of one less.
#[derive(Drop)]
struct Search {
    below: Level,
    stocks: Stocks,
}

/// The level below the stock of no operation: no stock.
fn no_level(alloc: Global) -> Level
    ensures stocks { result.stocks.list.items ≡ [] }
    ensures ends { result.ends.items ≡ [] }
    ensures shown { result.shown.items ≡ [] }
{
    Level {
        stocks: Stocks {
            list: Vec::new(alloc),
            children: Vec::new(alloc),
        },
        ends: Vec::new(alloc),
        shown: Vec::new(alloc),
    }
}

/// All states, so many times.
fn all_states(alloc: Global, count: usize) -> Result<Vec<u16>, AllocError>
    ensures { IfOk result (λ sets. EachAt (λ i set. (q : ℕ) → q < 16 → IsBitSet set q) count
        sets.items) }
{
    let mut sets = Vec::with_capacity(alloc, count)?;
    for _place in 0..count {
        sets.push(u16::MAX)?;
    }
    Ok(sets)
}

impl Search {
    ghost use Rattle.std.specs.Prelude.{◌≡◌, ◌<◌, ◌≤◌, ◌+◌, IfOk};
    ghost use Rattle.cn_choice.specs.declared.limits.TheConstants.{MOST_PROCESSES};
    ghost use Rattle.cn_divisions.specs.Divisions.{AreDivisions};
    ghost use Rattle.cn_divisions.specs.Levels.{AreAllStarts};
    ghost use Rattle.cn_divisions.specs.Looks.{AreLooks};
    ghost use Rattle.cn_divisions.specs.Searches.{IsSearch};

    /// The search at the stock of no operation.
    fn new(alloc: Global, table: &Table) -> Result<Search, AllocError>
        ensures { IfOk result (IsSearch table.now 0) }
    {
        let below = no_level(alloc);
        let stocks = no_operation(alloc, table.operations())?;
        Ok(Search { below, stocks })
    }

    /// The search at the stocks of one operation more; these have n.
    fn next(self, alloc: Global, table: &Table, n: u8) -> Result<Search, AllocError>
        requires search { IsSearch table.now n self }
        requires short { n < MOST_PROCESSES }
        ensures search { IfOk result (IsSearch table.now (n + 1)) }
        ensures below { IfOk result (λ search. search.below.stocks ≡ self.stocks) }
    {
        let list = self.stocks.list.as_slice();
        let ends = all_ends(alloc, table, &self.below, list)?;
        let shown = all_shown(alloc, table, &self.below, list)?;
        let below = Level {
            stocks: self.stocks,
            ends,
            shown,
        };
        let stocks = below.stocks.longer(alloc, table.operations(), n)?;
        Ok(Search { below, stocks })
    }

    /// All states for each of the stocks, by each of the sights.
    fn any_starts(
        &self,
        alloc: Global,
        table: &Table,
        sights: &[Sight],
    ) -> Result<Vec<Starts>, AllocError>
        ensures { IfOk result (λ starts. AreAllStarts table.now sights.now
            self.now.stocks.list.items starts.items) }
    {
        let _states = table.states();
        let mut starts = Vec::with_capacity(alloc, sights.len())?;
        for _place in 0..sights.len() {
            let sets = all_states(alloc, self.stocks.list.len())?;
            starts.push(Starts { sets })?;
        }
        Ok(starts)
    }

    /// The divisions of as many processes as the stocks have operations, and the states from which
    /// there are some.
    fn here(
        &self,
        alloc: Global,
        table: &Table,
        sights: &[Sight],
        looks: &[Look],
        starts: &[Starts],
        n: u8,
    ) -> Result<(Divisions, Vec<Starts>), AllocError>
        requires search { IsSearch table.now n self.now }
        requires looks { AreLooks table.now sights.now looks.now }
        requires starts { AreAllStarts table.now sights.now self.now.below.stocks.list.items
            starts.now }
        requires few { n ≤ MOST_PROCESSES }
        requires many { 2 ≤ n }
        ensures divisions { IfOk result (λ here. AreDivisions table.now sights.now n here.0) }
        ensures starts { IfOk result (λ here. AreAllStarts table.now sights.now
            self.now.stocks.list.items here.1.items) }
    {
        let (below, stocks) = (&self.below, &self.stocks);
        let mut by_sight = Vec::with_capacity(alloc, sights.len())?;
        let mut next = Vec::with_capacity(alloc, sights.len())?;
        for place in 0..sights.len() {
            let look = &looks[place];
            let found = divisions_of(alloc, table, below, stocks, look, &starts[place], n)?;
            by_sight.push(SightDivisions {
                sight: look.sight,
                list: found.divisions,
            })?;
            next.push(found.starts)?;
        }
        Ok((Divisions { by_sight }, next))
    }
}

/// The finest divisions of 2 processes, of 3 and so on, up to the most, which is from 2 to
/// [`MOST_PROCESSES`]: by each of the sights, which are sights of the type, of all sizes that there
/// are, one division each.
///
/// # Errors
///
/// Where memory is short.
pub fn find_divisions(
    alloc: Global,
    table: &Table,
    sights: &[Sight],
    most: u8,
) -> Result<Vec<Divisions>, AllocError>
    requires sights { AreSightsOf table.now sights.now }
    requires some { 2 ≤ most }
    requires few { most ≤ MOST_PROCESSES }
    // promise: finest-divisions (AreDivisions: AreAllSizes, IsDivision, HaveSizesOf)
    ensures { IfOk result (λ all. EachAt (λ i d. AreDivisions table.now sights.now (i + 2) d)
        (most - 1) all.items) }
{
    let looks = looks(alloc, table, sights)?;
    let mut search = Search::new(alloc, table)?;
    search = search.next(alloc, table, 0)?;
    let mut starts = search.any_starts(alloc, table, sights)?;
    let mut all = Vec::new(alloc);
    for n in 1..most {
        search = search.next(alloc, table, n)?;
        let (looks, before) = (looks.as_slice(), starts.as_slice());
        let here = search.here(alloc, table, sights, looks, before, n + 1)?;
        all.push(here.0)?;
        starts = here.1;
    }
    Ok(all)
}
