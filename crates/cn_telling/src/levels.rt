//! What a search knows of all stocks of one number of operations.
ghost use Rattle.std.specs.Prelude.{◌≡◌, ◌<◌, ◌≤◌, ◌↔◌, ℕ, All, length, IfOk, IsBitSet, IsTrue};
ghost use Rattle.cn_stocks.specs.Reach.{AreEnds};
ghost use Rattle.cn_telling.specs.Levels.{AreAllEnds, AreAllStarts, AreStarts, HasLessStarts, IsNext};
ghost use Rattle.cn_telling.specs.Settings.{IsSetting};
ghost use Rattle.cn_telling.specs.Telling.{Tells};

use crate::ends::{Ends, Setting, left_states, stock_ends};
use crate::meetings::fall_apart;
use cn_outcomes::bits::{contains, union, with};
use cn_stocks::Threading;
use cn_stocks::stocks::{Stock, Stocks};
use cn_table::Table;
use rayon::prelude::*;
use std::alloc::{AllocError, Global};
use std::thread::Threads;

/// All stocks of one number of operations, and what words within each lead to.
#[derive(Drop)]
pub struct Level {
    pub stocks: Stocks,
    /// For each stock the states from which it tells.
    pub starts: Vec<u16>,
    pub ends: Vec<Ends>,
}

/// Whether the stock tells from the start state.
fn tells_from(setting: &Setting<'_>, start: u8) -> bool
    requires setting { IsSetting setting.now }
    requires start { start < length setting.now.table.now.states }
    requires some { 1 ≤ length setting.now.stock.now.operations.items }
    ensures { IsTrue result ↔ Tells setting.now.table.now start
        setting.now.stock.now.operations.items }
{
    let _operations = setting.table.operations();
    let sets = left_states(setting, start);
    fall_apart(&sets, setting.stock.greatest)
}

/// The states from which the stock tells with one operation less. Where it has three operations or
/// more it tells from no other one.
fn less_starts(table: &Table, level: &Level, stock: &Stock) -> u16
    requires { IsNext table.now level.now stock.now }
    ensures { HasLessStarts level.now stock.now result }
{
    let _operations = table.operations();
    let mut set = 0;
    for operation in 0..table.operations() {
        if let Some(place) = stock.less[operation as usize] {
            set = union(set, level.starts[place as usize]);
        }
    }
    set
}

/// The states from which the stock tells.
fn starts(table: &Table, level: &Level, stock: &Stock) -> u16
    requires { IsNext table.now level.now stock.now }
    ensures { AreStarts table.now stock.now.operations.items result }
{
    let _states = table.states();
    if stock.operations.is_empty() {
        return 0;
    }
    let few = stock.operations.len() < 3;
    let less = less_starts(table, level, stock);
    let setting = Setting {
        table,
        stock,
        ends: level.ends.as_slice(),
    };
    let mut set = 0;
    for start in 0..table.states() {
        if !few && !contains(less, start) {
            continue;
        }
        if tells_from(&setting, start) {
            set = with(set, start);
        }
    }
    set
}

/// The states in which words within the stock end.
fn next_ends(table: &Table, level: &Level, stock: &Stock) -> Ends
    requires { IsNext table.now level.now stock.now }
    ensures { AreEnds table.now stock.now.operations.items (length table.now.states)
        result.states }
{
    let setting = Setting {
        table,
        stock,
        ends: level.ends.as_slice(),
    };
    stock_ends(&setting)
}

/// The states from which each of the stocks tells. The threads share the stocks.
pub(crate) fn all_starts<T: Threads + Sync>(
    rt: &T,
    alloc: Global,
    table: &Table,
    level: &Level,
    stocks: &[Stock],
    threading: Threading,
) -> Result<Vec<u16>, AllocError>
    requires { All (IsNext table.now level.now) stocks.now }
    ensures { IfOk result (λ starts. AreAllStarts table.now stocks.now starts.items) }
{
    let threading = threading.for_stocks(stocks.len());
    stocks
        .par_iter()
        .with_min_len(threading.least_piece())
        .map(
            |stock: &Stock| -> u16
                requires { IsNext table.now level.now stock.now }
                ensures { AreStarts table.entry.now stock.now.operations.items result }
            { starts(table, level, stock) },
        )
        .collect::<Vec<u16>>(rt, alloc)
}

/// The states in which words within each of the stocks end. The threads share the stocks.
pub(crate) fn all_ends<T: Threads + Sync>(
    rt: &T,
    alloc: Global,
    table: &Table,
    level: &Level,
    stocks: &[Stock],
    threading: Threading,
) -> Result<Vec<Ends>, AllocError>
    requires { All (IsNext table.now level.now) stocks.now }
    ensures { IfOk result (λ ends. AreAllEnds table.now stocks.now ends.items) }
{
    let threading = threading.for_stocks(stocks.len());
    stocks
        .par_iter()
        .with_min_len(threading.least_piece())
        .map(
            |stock: &Stock| -> Ends
                requires { IsNext table.now level.now stock.now }
                ensures { AreEnds table.entry.now stock.now.operations.items
                    (length table.entry.now.states) result.states }
            { next_ends(table, level, stock) },
        )
        .collect::<Vec<Ends>>(rt, alloc)
}
