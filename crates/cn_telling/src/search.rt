//! The search for stocks that tell, by their number of operations.
ghost use Rattle.std.specs.Prelude.{◌≡◌, []};

use crate::levels::{Level, all_ends, all_starts};
use cn_stocks::Threading;
use cn_stocks::stocks::{Stocks, no_operation};
use cn_table::Table;
use std::alloc::{AllocError, Global};
use std::thread::Threads;

/// How far a search has come: all stocks of one number of operations, over those of one less.
#[derive(Drop)]
pub struct Search {
    pub below: Level,
    pub stocks: Stocks,
    /// For each stock the states from which it tells.
    pub starts: Vec<u16>,
}

/// The level below the stock of no operation: no stock.
fn no_level(alloc: Global) -> Level
    ensures stocks { result.stocks.list.items ≡ [] }
    ensures starts { result.starts.items ≡ [] }
    ensures ends { result.ends.items ≡ [] }
{
    let stocks = Stocks {
        list: Vec::new(alloc),
        children: Vec::new(alloc),
    };
    Level {
        stocks,
        starts: Vec::new(alloc),
        ends: Vec::new(alloc),
    }
}

impl Search {
    ghost use Rattle.std.specs.Prelude.{◌≡◌, ◌<◌, ◌≤◌, ◌+◌, ◌↔◌, ℕ, length, IfOk, IsTrue};
    ghost use Rattle.cn_table.specs.TypeTable.{TypeTable};
    ghost use Rattle.cn_stocks.specs.declared.limits.TheConstants.{MOST_SIZE};
    ghost use Rattle.cn_telling.specs.Levels.{IsLevelOf, IsSearch};
    ghost use Rattle.cn_telling.specs.Telling.{SomeTells};

    /// The search at the stock of no operation.
    pub fn new<T: Threads + Sync>(
        rt: &T,
        alloc: Global,
        table: &Table,
        threading: Threading,
    ) -> Result<Search, AllocError>
        ensures { IfOk result (IsSearch table.now 0) }
    {
        let below = no_level(alloc);
        let stocks = no_operation(alloc, table.operations())?;
        let list = stocks.list.as_slice();
        let starts = all_starts(rt, alloc, table, &below, list, threading)?;
        Ok(Search {
            below,
            stocks,
            starts,
        })
    }

    /// All that is known of its stocks. The threads share the stocks.
    fn into_level<T: Threads + Sync>(
        self,
        rt: &T,
        alloc: Global,
        table: &Table,
        n: u8,
        threading: Threading,
    ) -> Result<Level, AllocError>
        requires { IsSearch table.now n self }
        ensures level { IfOk result (IsLevelOf table.now n) }
        ensures same { IfOk result (λ level. level.stocks.list.items
            ≡ self.stocks.list.items) }
    {
        let _n = n;
        let here = self.stocks.list.as_slice();
        let ends = all_ends(rt, alloc, table, &self.below, here, threading)?;
        Ok(Level {
            stocks: self.stocks,
            starts: self.starts,
            ends,
        })
    }

    /// The search at the stocks of one operation more; these have n. The threads share the stocks.
    pub fn next<T: Threads + Sync>(
        self,
        rt: &T,
        alloc: Global,
        table: &Table,
        n: u8,
        threading: Threading,
    ) -> Result<Search, AllocError>
        requires search { IsSearch table.now n self }
        requires short { n < MOST_SIZE }
        ensures search { IfOk result (IsSearch table.now (n + 1)) }
        ensures below { IfOk result (λ next. next.below.stocks.list.items
            ≡ self.stocks.list.items) }
    {
        let below = self.into_level(rt, alloc, table, n, threading)?;
        let stocks = below.stocks.longer(alloc, table.operations(), n)?;
        let list = stocks.list.as_slice();
        let starts = all_starts(rt, alloc, table, &below, list, threading)?;
        Ok(Search {
            below,
            stocks,
            starts,
        })
    }

    /// Whether some stock tells from some state.
    pub fn some_tells(&self) -> bool
        ensures { (t : TypeTable) (n : ℕ) → IsSearch t n self.now
            → IsTrue result ↔ SomeTells t n }
    {
        for starts in &self.starts {
            if *starts != 0 {
                return true;
            }
        }
        false
    }
}
