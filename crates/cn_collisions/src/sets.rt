//! All stocks up to a number of operations, and what words within them lead to.
ghost use Rattle.std.specs.Prelude.{◌≡◌, ◌≤◌, ◌<◌, ◌-◌, ◌+◌, ℕ, List, length, vec_len, slice_get, IfOk, Some};
ghost use Rattle.cn_table.specs.declared.limits.TheConstants.{MOST_OPERATIONS};
ghost use Rattle.cn_choice.specs.declared.limits.TheConstants.{MOST_PROCESSES};
ghost use Rattle.cn_stocks.specs.declared.stocks.Stock.{Stock as StockOf};
ghost use Rattle.cn_stocks.specs.declared.threading.Threading.TheVariants.{One};
ghost use Rattle.std.specs.declared.vec.Vec.{Vec as VecOf};
ghost use Rattle.cn_stocks.specs.Each.{EachAt};
ghost use Rattle.cn_collisions.specs.Levels.{AreAllSets, AreBeside, AreLevels, AreSetsFor, IsLevel, IsPlaceOf, IsShownAt};
ghost use Rattle.cn_collisions.specs.WordSets.{AreSetsOf, IsEnds, IsShown};

use crate::setting::Setting;
use crate::word_sets::{Ends, Shown, StockSets, stock_ends, stock_shown};
use cn_choice::MOST_PROCESSES;
use cn_stocks::Threading;
use cn_stocks::stocks::{Stock, Stocks, no_operation};
use cn_table::{Operation, Table};
use rayon::prelude::*;
use std::alloc::{AllocError, Global};
use std::thread::Threads;

/// The fewest stocks whose pairs several threads make.
const FEWEST_PAIRED_STOCKS: usize = 64;

/// The stocks of one size and their ends, with the pairs of the stocks of one operation less.
#[derive(Clone, Copy)]
pub(crate) struct Level<'s> {
    pub table: &'s Table,
    pub size: u8,
    pub stocks: &'s [Stock],
    pub ends: &'s [Ends],
    pub below: &'s [Shown],
}

/// The sets of a table for all choices for one number of processes.
#[derive(Drop)]
pub struct Sets<'t> {
    pub(crate) table: &'t Table,
    pub(crate) n: u8,
    /// For each number of operations up to n.
    pub(crate) stocks: Vec<Stocks>,
    /// For each number of operations below n.
    pub(crate) ends: Vec<Vec<Ends>>,
    /// For each number of operations below n - 1.
    pub(crate) shown: Vec<Vec<Shown>>,
}

/// All stocks of up to n operations.
fn all_stocks(alloc: Global, operations: u8, n: u8) -> Result<Vec<Stocks>, AllocError>
    requires operations { operations ≤ MOST_OPERATIONS }
    requires n { n ≤ MOST_PROCESSES }
    ensures { IfOk result (λ levels. AreLevels operations (n + 1) levels.items) }
{
    let mut levels = Vec::with_capacity(alloc, n as usize + 1)?;
    let none = no_operation(alloc, operations)?;
    levels.push(none)?;
    for size in 0..n {
        let here = &levels[size as usize];
        let longer = here.longer(alloc, operations, size)?;
        levels.push(longer)?;
    }
    Ok(levels)
}

/// The ends of stocks of one size, from those of the stocks of one operation less.
fn level_ends(
    alloc: Global,
    table: &Table,
    size: u8,
    stocks: &[Stock],
    ends: &[Ends],
) -> Result<Vec<Ends>, AllocError>
    requires few { size < MOST_PROCESSES }
    requires beside { (before : List StockOf)
        × AreBeside (length table.now.operations) size before stocks.now
        × AreSetsOf (IsEnds table.now) (size - 1) before ends.now }
    ensures { IfOk result (λ level. AreSetsOf (IsEnds table.now) size stocks.now level.items) }
{
    let mut level = Vec::with_capacity(alloc, stocks.len())?;
    for stock in stocks {
        let setting = Setting {
            table,
            size,
            stock,
            ends,
            shown: &[],
        };
        let own = stock_ends(alloc, &setting)?;
        level.push(own)?;
    }
    Ok(level)
}

/// The sets of the stocks of one operation less than the size. There are none for the size 0.
fn below<E>(levels: &[Vec<E>], size: u8) -> &[E]
    requires { size ≤ length levels.now }
    ensures none { size ≡ 0 → length result.now ≡ 0 }
    ensures some { (m : ℕ) (level : VecOf E Global) → size ≡ m + 1
        → slice_get levels.now m ≡ Some level → result.now ≡ level.items }
{
    if size == 0 {
        return &[];
    }
    let level = &levels[size as usize - 1];
    level.as_slice()
}

/// The ends of all stocks of fewer than n operations.
fn all_ends(
    alloc: Global,
    table: &Table,
    stocks: &[Stocks],
    n: u8,
) -> Result<Vec<Vec<Ends>>, AllocError>
    requires few { n ≤ MOST_PROCESSES }
    requires stocks { AreLevels (length table.now.operations) (n + 1) stocks.now }
    ensures { IfOk result (λ ends. AreAllSets (IsEnds table.now) stocks.now n ends.items) }
{
    let mut ends = Vec::with_capacity(alloc, n as usize)?;
    for size in 0..n {
        let here = &stocks[size as usize];
        let list = here.list.as_slice();
        let done = ends.as_slice();
        let below = below(done, size);
        let level = level_ends(alloc, table, size, list, below)?;
        ends.push(level)?;
    }
    Ok(ends)
}

/// The threads that make the pairs of this count of stocks. One thread makes the pairs of a few
/// stocks in less time than another thread takes to start.
fn threading_for(threading: Threading, count: usize) -> Threading
    // promise: choice-of-threads
    ensures one { threading ≡ One → result ≡ One }
    // promise: choice-of-threads
    ensures many { FEWEST_PAIRED_STOCKS ≤ count → result ≡ threading }
{
    if count < FEWEST_PAIRED_STOCKS {
        return Threading::One;
    }
    threading
}

/// The pairs of the stock at the place.
fn shown_at(alloc: Global, level: &Level<'_>, place: usize) -> Result<Shown, AllocError>
    requires { IsPlaceOf level.now place }
    ensures { IfOk result (IsShownAt level.now place) }
{
    let Level {
        table,
        size,
        stocks,
        ends,
        below,
    } = *level;
    let setting = Setting {
        table,
        size,
        stock: &stocks[place],
        ends,
        shown: below,
    };
    stock_shown(alloc, &setting, &ends[place])
}

/// The pairs of each stock of the level. The threads share the stocks.
fn level_shown<T: Threads + Sync>(
    rt: &T,
    alloc: Global,
    level: &Level<'_>,
    threading: Threading,
) -> Result<Vec<Shown>, AllocError>
    requires { IsLevel level.now }
    ensures { IfOk result (λ shown. AreSetsOf (IsShown level.now.table.now) level.now.size
        level.now.stocks.now shown.items) }
{
    let count = level.stocks.len();
    let threading = threading_for(threading, count);
    (0..count)
        .into_par_iter()
        .with_min_len(threading.least_piece())
        .map(
            |place: usize| -> Result<Shown, AllocError>
                requires { IsPlaceOf level.now place }
                ensures { IfOk result (IsShownAt level.entry.now place) }
            { shown_at(alloc, level, place) },
        )
        .collect::<Result<Vec<Shown>, AllocError>>(rt, alloc)?
}

/// The pairs of all stocks of fewer than n - 1 operations.
fn all_shown<T: Threads + Sync>(
    rt: &T,
    alloc: Global,
    table: &Table,
    stocks: &[Stocks],
    ends: &[Vec<Ends>],
    n: u8,
    threading: Threading,
) -> Result<Vec<Vec<Shown>>, AllocError>
    requires some { 2 ≤ n }
    requires few { n ≤ MOST_PROCESSES }
    requires stocks { AreLevels (length table.now.operations) (n + 1) stocks.now }
    requires ends { AreAllSets (IsEnds table.now) stocks.now n ends.now }
    ensures { IfOk result (λ shown. AreAllSets (IsShown table.now) stocks.now (n - 1) shown.items) }
{
    let mut shown = Vec::with_capacity(alloc, n as usize)?;
    for size in 0..n - 1 {
        let here = &stocks[size as usize];
        let list = here.list.as_slice();
        let done = shown.as_slice();
        let below = below(done, size);
        let row = &ends[size as usize];
        let own = row.as_slice();
        let level = Level {
            table,
            size,
            stocks: list,
            ends: own,
            below,
        };
        let pairs = level_shown(rt, alloc, &level, threading)?;
        shown.push(pairs)?;
    }
    Ok(shown)
}

impl<'t> Sets<'t> {
    ghost use Rattle.std.specs.Prelude.{◌≡◌, ◌≤◌, ◌<◌, ◌+◌, ◌-◌, ◌↔◌, ℕ, List, ◌∷◌, length, IfOk, IsBitSet};
    ghost use Rattle.cn_choice.specs.declared.limits.TheConstants.{MOST_PROCESSES};
    ghost use Rattle.cn_stocks.specs.Words.{HaveSame};
    ghost use Rattle.cn_collisions.specs.Levels.{AreAllSets, AreSetsFor, AreSomeSets};
    ghost use Rattle.cn_collisions.specs.Stands.{HasStock, HasStockWith, StandsAt};

    /// The sets for all choices of the table for n processes, from 2 to
    /// [`MOST_PROCESSES`](cn_choice::MOST_PROCESSES). If many stocks have one size, the threads
    /// share them. The sets do not depend on the threading.
    ///
    /// # Errors
    ///
    /// `AllocError` if memory runs out.
    pub fn new<T: Threads + Sync>(
        rt: &T,
        alloc: Global,
        table: &'t Table,
        n: u8,
        threading: Threading,
    ) -> Result<Sets<'t>, AllocError>
        requires some { 2 ≤ n }
        requires few { n ≤ MOST_PROCESSES }
        // promise: words-within-stocks (AreSetsFor)
        ensures { IfOk result (AreSetsFor table.now n) }
    {
        let stocks = all_stocks(alloc, table.operations(), n)?;
        let levels = stocks.as_slice();
        let ends = all_ends(alloc, table, levels, n)?;
        let rows = ends.as_slice();
        let shown = all_shown(rt, alloc, table, levels, rows, n, threading)?;
        Ok(Sets {
            table,
            n,
            stocks,
            ends,
            shown,
        })
    }

    /// The place of the stock with one of the operation less.
    pub(crate) fn less(&self, size: u8, place: u32, operation: Operation) -> u32
        requires sets { AreSomeSets self.now }
        requires operation { operation.0 < length self.now.table.now.operations }
        requires stock { HasStockWith self.now size place operation.0 }
        ensures { (stock : List ℕ) → StandsAt self.now size place stock
            → (1 ≤ size) × ((rest : List ℕ) × HaveSame stock (operation.0 ∷ rest)
            × StandsAt self.now (size - 1) result rest) }
    {
        let _operations = self.table.operations();
        let level = &self.stocks[size as usize];
        let stock = &level.list[place as usize];
        if let Some(less) = stock.less[operation.0 as usize] {
            return less;
        }
        unreachable!()
    }

    /// The sets of the stock at the place, from those of all stocks.
    #[inline(always)]
    pub(crate) fn at<'s, E: StockSets>(&self, sets: &'s [Vec<E>], size: u8, place: u32) -> &'s E
        requires sets { (count : ℕ) × (size < count)
            × AreAllSets (E.fits self.now.table.now) self.now.stocks.items count sets.now }
        requires stock { HasStock self.now size place }
        ensures { (stock : List ℕ) → StandsAt self.now size place stock
            → E.fits self.now.table.now size stock result.now }
    {
        let row = &sets[size as usize];
        let own = &row[place as usize];
        own
    }
}
