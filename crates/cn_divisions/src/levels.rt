//! What is known of all stocks of one number of operations.
ghost use Rattle.std.specs.Prelude.{◌≡◌, ◌<◌, ◌≤◌, ℕ};

use crate::word_sets::{Ends, Shown};
use cn_outcomes::bits::union;
use cn_stocks::stocks::{Stock, Stocks};
use cn_table::Table;

/// For each stock the states from which, by one sight, some of its operations are in different teams.
/// Further states do no harm: they are asked in vain.
#[derive(Drop)]
pub(crate) struct Starts {
    pub sets: Vec<u16>,
}

/// All stocks of one number of operations, and for each what words within it lead to.
#[derive(Drop)]
pub(crate) struct Level {
    pub stocks: Stocks,
    pub ends: Vec<Ends>,
    pub shown: Vec<Shown>,
}

/// A table, a stock, and the stocks of one operation less.
#[derive(Clone, Copy)]
pub(crate) struct Setting<'s> {
    pub table: &'s Table,
    pub level: &'s Level,
    pub stock: &'s Stock,
}

impl<'s> Setting<'s> {
    ghost use Rattle.std.specs.Prelude.{◌≡◌, ◌<◌, ℕ, length, MatchOption};
    ghost use Rattle.cn_meetings.specs.Meeting.{Sight};
    ghost use Rattle.cn_divisions.specs.Levels.{AreLessEnds, AreLessShown, AreStarts, HasLessStarts, IsSetting};
    ghost use Rattle.cn_stocks.specs.Words.{times};

    /// The states in which words within the stock without one of the operation end, where the stock
    /// has it.
    pub fn less_ends(&self, operation: u8) -> Option<&'s Ends>
        requires setting { IsSetting self.now }
        requires operation { operation < length self.now.table.now.operations }
        ensures { MatchOption result (times operation self.now.stock.now.operations.items ≡ 0)
            (λ ends. AreLessEnds self.now.table.now self.now.stock.now.operations.items
            operation ends.now) }
    {
        let _operations = self.table.operations();
        let level = self.level;
        match self.stock.less[operation as usize] {
            Some(place) => Some(&level.ends[place as usize]),
            None => None,
        }
    }

    /// The pairs that words within the stock without one of the operation show, where the stock has
    /// it.
    pub fn less_shown(&self, operation: u8) -> Option<&'s Shown>
        requires setting { IsSetting self.now }
        requires operation { operation < length self.now.table.now.operations }
        ensures { MatchOption result (times operation self.now.stock.now.operations.items ≡ 0)
            (λ shown. AreLessShown self.now.table.now self.now.stock.now.operations.items
            operation shown.now) }
    {
        let _operations = self.table.operations();
        let level = self.level;
        match self.stock.less[operation as usize] {
            Some(place) => Some(&level.shown[place as usize]),
            None => None,
        }
    }

    /// The states from which the stock is split with one operation less, by those of the stocks of
    /// the level. Where it has three operations or more it is split from no other one.
    pub fn less_starts(&self, starts: &Starts) -> u16
        requires setting { IsSetting self.now }
        requires long { length starts.now.sets.items ≡ length self.now.level.now.stocks.list.items }
        ensures { (sight : Sight) → AreStarts self.now.table.now sight
            self.now.level.now.stocks.list.items (length self.now.level.now.stocks.list.items)
            starts.now.sets.items → HasLessStarts self.now sight result }
    {
        let _operations = self.table.operations();
        let sets = starts.sets.as_slice();
        let mut set = 0;
        for operation in 0..self.table.operations() {
            if let Some(place) = self.stock.less[operation as usize] {
                set = union(set, sets[place as usize]);
            }
        }
        set
    }
}
