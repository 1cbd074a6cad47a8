//! A stock beside those of one operation less.
use crate::word_sets::{Ends, Shown, StockSets};
use cn_stocks::stocks::Stock;
use cn_table::Table;

/// A table, a stock and its size, and what words within the stocks of one operation less lead to.
#[derive(Clone, Copy)]
pub(crate) struct Setting<'s> {
    pub table: &'s Table,
    pub size: u8,
    pub stock: &'s Stock,
    pub ends: &'s [Ends],
    /// Empty while the ends are made.
    pub shown: &'s [Shown],
}

impl<'s> Setting<'s> {
    ghost use Rattle.std.specs.Prelude.{◌≡◌, ◌<◌, ℕ, length, MatchOption};
    ghost use Rattle.cn_stocks.specs.Words.{times};
    ghost use Rattle.cn_collisions.specs.WordSets.{AreLess, IsSetting};

    /// The sets of the stock without one of the operation, from those of the stocks of one
    /// operation less. There are none if the stock does not have the operation.
    #[inline(always)]
    pub fn less<E: StockSets>(&self, sets: &'s [E], operation: u8) -> Option<&'s E>
        requires setting { IsSetting (E.fits self.now.table.now) self.now sets.now }
        requires operation { operation < length self.now.table.now.operations }
        ensures { MatchOption result (times operation self.now.stock.now.operations.items ≡ 0)
            (λ less. AreLess (E.fits self.now.table.now) self.now operation less.now) }
    {
        let _operations = self.table.operations();
        match self.stock.less[operation as usize] {
            Some(place) => Some(&sets[place as usize]),
            None => None,
        }
    }
}
