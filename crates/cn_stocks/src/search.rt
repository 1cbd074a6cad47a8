//! The search by the number of operations of a stock.
ghost use Rattle.std.specs.Prelude.{◌≡◌, []};

use crate::levels::Level;
use crate::question::Question;
use crate::starts::all_starts;
use crate::stocks::{Stocks, no_operation};
use crate::threading::Threading;
use crate::word_sets::{all_ends, shown_for};
use cn_outcomes::bits::union;
use cn_table::Table;
use std::alloc::{AllocError, Global};
use std::thread::Threads;

/// How far a search has come: all stocks of one number of operations, over those of one less.
#[derive(Drop)]
pub(crate) struct Search {
    question: Question,
    below: Level,
    stocks: Stocks,
    /// For each stock the states from which it has what is asked for.
    starts: Vec<u16>,
}

/// The level below the stock of no operation: no stock.
fn no_level(alloc: Global) -> Level
    ensures stocks { result.stocks.list.items ≡ [] }
    ensures starts { result.starts.items ≡ [] }
    ensures ends { result.ends.items ≡ [] }
    ensures shown { result.shown.items ≡ [] }
{
    let stocks = Stocks {
        list: Vec::new(alloc),
        children: Vec::new(alloc),
    };
    Level {
        stocks,
        starts: Vec::new(alloc),
        ends: Vec::new(alloc),
        shown: Vec::new(alloc),
    }
}

impl Search {
    ghost use Rattle.std.specs.Prelude.{◌≡◌, ◌<◌, ◌≤◌, ◌+◌, ◌↔◌, ℕ, length, IfOk, IsTrue};
    ghost use Rattle.cn_table.specs.TypeTable.{TypeTable};
    ghost use Rattle.cn_stocks.specs.declared.limits.TheConstants.{MOST_SIZE};
    ghost use Rattle.cn_stocks.specs.Levels.{IsLevelOf, IsSearch, IsSearchFor};
    ghost use Rattle.cn_stocks.specs.Questions.{AreStartsOfSome, SomeHolds};

    /// The search at the stock of no operation.
    pub fn new<T: Threads + Sync>(
        rt: &T,
        alloc: Global,
        question: Question,
        table: &Table,
        threading: Threading,
    ) -> Result<Search, AllocError>
        ensures { IfOk result (IsSearchFor question table.now 0) }
    {
        let below = no_level(alloc);
        let stocks = no_operation(alloc, table.operations())?;
        let list = stocks.list.as_slice();
        let starts = all_starts(rt, alloc, question, table, &below, list, threading)?;
        Ok(Search {
            question,
            below,
            stocks,
            starts,
        })
    }

    /// All that is known of its stocks. The threads share the stocks.
    fn into_level<T: Threads + Sync>(
        self,
        rt: &T,
        alloc: Global,
        table: &Table,
        n: u8,
        threading: Threading,
    ) -> Result<Level, AllocError>
        requires { IsSearch table.now n self }
        ensures { IfOk result (IsLevelOf self.question table.now n) }
    {
        let _n = n;
        let here = self.stocks.list.as_slice();
        let ends = all_ends(rt, alloc, table, &self.below, here, threading)?;
        let shown = shown_for(
            rt,
            alloc,
            self.question,
            table,
            &self.below,
            here,
            threading,
        )?;
        Ok(Level {
            stocks: self.stocks,
            starts: self.starts,
            ends,
            shown,
        })
    }

    /// The search at the stocks of one operation more; these have n. The threads share the stocks.
    pub fn next<T: Threads + Sync>(
        self,
        rt: &T,
        alloc: Global,
        table: &Table,
        n: u8,
        threading: Threading,
    ) -> Result<Search, AllocError>
        requires search { IsSearch table.now n self }
        requires short { n < MOST_SIZE }
        ensures { IfOk result (IsSearchFor self.question table.now (n + 1)) }
    {
        let question = self.question;
        let below = self.into_level(rt, alloc, table, n, threading)?;
        let stocks = below.stocks.longer(alloc, table.operations(), n)?;
        let list = stocks.list.as_slice();
        let starts = all_starts(rt, alloc, question, table, &below, list, threading)?;
        Ok(Search {
            question,
            below,
            stocks,
            starts,
        })
    }

    /// Whether some stock has what is asked for from some state.
    pub fn some_holds(&self) -> bool
        ensures { (t : TypeTable) (n : ℕ) → IsSearch t n self.now
            → IsTrue result ↔ SomeHolds self.now.question t n }
    {
        for starts in &self.starts {
            if *starts != 0 {
                return true;
            }
        }
        false
    }
    /// The states from which some stock has what is asked for.
    pub fn starts_of_some(&self) -> u16
        ensures { (t : TypeTable) (n : ℕ) → IsSearch t n self.now
            → AreStartsOfSome self.now.question t n result }
    {
        let mut set = 0;
        for starts in &self.starts {
            set = union(set, *starts);
        }
        set
    }
}
