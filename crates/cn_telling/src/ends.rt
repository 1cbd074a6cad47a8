//! The states that words within a stock leave.
ghost use Rattle.std.specs.Prelude.{◌≡◌, ◌<◌, ◌↔◌, ℕ, length, IsBitSet};
ghost use Rattle.cn_stocks.specs.Meetings.{AreLeft};
ghost use Rattle.cn_stocks.specs.Reach.{AreEnds, EndsWithin};
ghost use Rattle.cn_telling.specs.Settings.{IsSetting};

use crate::meetings::Sets;
use cn_outcomes::bits::{union, with};
use cn_stocks::stocks::Stock;
use cn_table::{MOST_OPERATIONS, MOST_STATES, Operation, State, Table};

/// The states in which words within a stock end.
#[derive(Clone, Copy)]
pub struct Ends {
    /// For each start state the set of these.
    pub states: [u16; MOST_STATES],
}

/// A table, a stock, and the ends of the stocks of one operation less.
#[derive(Clone, Copy)]
pub struct Setting<'s> {
    pub table: &'s Table,
    pub stock: &'s Stock,
    /// By the places to which the stock links.
    pub ends: &'s [Ends],
}

impl<'s> Setting<'s> {
    ghost use Rattle.std.specs.Prelude.{◌≡◌, ◌<◌, length, MatchOption};
    ghost use Rattle.cn_stocks.specs.Words.{times};
    ghost use Rattle.cn_telling.specs.Settings.{AreLessEnds, IsSetting};

    /// The states in which words within the stock without one of the operation end, where the stock
    /// has it.
    pub fn less_ends(&self, operation: u8) -> Option<&'s Ends>
        requires setting { IsSetting self.now }
        requires operation { operation < length self.now.table.now.operations }
        ensures { MatchOption result (times operation self.now.stock.now.operations.items ≡ 0)
            (λ ends. AreLessEnds self.now.table.now self.now.stock.now.operations.items
            operation ends.now) }
    {
        let _operations = self.table.operations();
        let ends = self.ends;
        match self.stock.less[operation as usize] {
            Some(place) => Some(&ends[place as usize]),
            None => None,
        }
    }
}

/// The states in which words within the stock end.
fn ends_from(setting: &Setting<'_>, start: u8) -> u16
    requires setting { IsSetting setting.now }
    requires start { start < length setting.now.table.now.states }
    ensures { (q : ℕ) → IsBitSet result q ↔ EndsWithin setting.now.table.now start
        setting.now.stock.now.operations.items q }
{
    let _states = setting.table.states();
    let mut set = with(0, start);
    for operation in 0..setting.table.operations() {
        if let Some(ends) = setting.less_ends(operation) {
            let (_, next) = setting.table.apply(Operation(operation), State(start));
            set = union(set, ends.states[next.0 as usize]);
        }
    }
    set
}

/// These states for each start state.
pub(crate) fn stock_ends(setting: &Setting<'_>) -> Ends
    requires { IsSetting setting.now }
    ensures { AreEnds setting.now.table.now setting.now.stock.now.operations.items
        (length setting.now.table.now.states) result.states }
{
    let mut states = [0; MOST_STATES];
    for start in 0..setting.table.states() {
        states[start as usize] = ends_from(setting, start);
    }
    Ends { states }
}

/// For each operation of the stock the states that words within the stock leave which begin with
/// it.
pub(crate) fn left_states(setting: &Setting<'_>, start: u8) -> Sets
    requires setting { IsSetting setting.now }
    requires start { start < length setting.now.table.now.states }
    ensures { AreLeft setting.now.table.now start setting.now.stock.now.operations.items result }
{
    let _states = setting.table.states();
    let mut sets = [0; MOST_OPERATIONS];
    for operation in 0..setting.table.operations() {
        if let Some(ends) = setting.less_ends(operation) {
            let (_, next) = setting.table.apply(Operation(operation), State(start));
            sets[operation as usize] = ends.states[next.0 as usize];
        }
    }
    sets
}
