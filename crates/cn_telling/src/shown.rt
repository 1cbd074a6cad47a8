//! The pairs that words within stocks show one operation.
ghost use Rattle.std.specs.Prelude.{◌≡◌, ◌<◌, ◌↔◌, ℕ, length, IfOk};
ghost use Rattle.cn_stocks.specs.Pairs.{Has};
ghost use Rattle.cn_stocks.specs.Reach.{ArePairs, ArePairsTo, ShowsAtOnce};
ghost use Rattle.cn_telling.specs.Asking.{AreCellsOver, AreShownOf, AreShownTo, IsAsking};
ghost use Rattle.cn_telling.specs.Settings.{AreEndsOf, IsSetting};

use crate::ends::{Ends, Setting, stock_ends};
use cn_stocks::pair_sets::PairSet;
use cn_stocks::stocks::Stock;
use cn_table::{MOST_STATES, Operation, State, Table};
use std::alloc::{AllocError, Global};

/// The pairs that words within a stock show one operation.
#[derive(Clone, Copy)]
pub struct Shown {
    /// For each start state the set of these.
    pub pairs: [PairSet; MOST_STATES],
}

impl Shown {
    ghost use Rattle.std.specs.Prelude.{◌≡◌, ◌<◌, ◌↔◌, ◌⊎◌, ℕ, List, length};
    ghost use Rattle.cn_table.specs.TypeTable.{TypeTable};
    ghost use Rattle.cn_table.specs.declared.limits.TheConstants.{MOST_STATES};
    ghost use Rattle.cn_stocks.specs.Pairs.{Has};
    ghost use Rattle.cn_stocks.specs.Reach.{ArePairsTo, ShowsWithin};

    /// Puts the pairs that these words show from the start state into the set.
    fn add_to(&self, start: u8, set: &mut PairSet)
        requires { start < MOST_STATES }
        ensures { (t : TypeTable) (stock : List ℕ) (asked : ℕ)
            → ArePairsTo t stock asked self.now.pairs → start < length t.states → (r q : ℕ)
            → Has set.new r q ↔ (Has set.old r q ⊎ ShowsWithin t start stock asked r q) }
    {
        set.add_all(&self.pairs[start as usize]);
    }
}

/// A stock, an operation, and the pairs that words within the stocks of one operation less show the
/// operation.
#[derive(Clone, Copy)]
pub struct Asking<'s> {
    pub setting: Setting<'s>,
    pub asked: u8,
    /// By the places to which the stock links.
    pub shown: &'s [Shown],
}

impl<'s> Asking<'s> {
    ghost use Rattle.std.specs.Prelude.{◌≡◌, ◌<◌, length, MatchOption};
    ghost use Rattle.cn_stocks.specs.Words.{times};
    ghost use Rattle.cn_telling.specs.Asking.{AreLessShown, IsAsking};

    /// The pairs that words within the stock without one of the operation show, where the stock has
    /// it.
    fn less_shown(&self, operation: u8) -> Option<&'s Shown>
        requires asking { IsAsking self.now }
        requires operation { operation < length self.now.setting.table.now.operations }
        ensures { MatchOption result
            (times operation self.now.setting.stock.now.operations.items ≡ 0)
            (λ shown. AreLessShown self.now.setting.table.now
            self.now.setting.stock.now.operations.items self.now.asked operation shown.now) }
    {
        let _operations = self.setting.table.operations();
        let shown = self.shown;
        match self.setting.stock.less[operation as usize] {
            Some(place) => Some(&shown[place as usize]),
            None => None,
        }
    }
}

/// The pairs that words within the stock show the operation at their first place.
fn shown_at_once(setting: &Setting<'_>, asked: u8, start: u8) -> PairSet
    requires setting { IsSetting setting.now }
    requires asked { asked < length setting.now.table.now.operations }
    requires start { start < length setting.now.table.now.states }
    ensures { (r q : ℕ) → Has result r q ↔ ShowsAtOnce setting.now.table.now start
        setting.now.stock.now.operations.items asked r q }
{
    let (_responses, _states) = (setting.table.responses(), setting.table.states());
    let mut set = PairSet::none();
    if let Some(ends) = setting.less_ends(asked) {
        let (response, next) = setting.table.apply(Operation(asked), State(start));
        set.add_states(response.0, ends.states[next.0 as usize]);
    }
    set
}

/// The pairs that words within the stock show the operation.
fn shown_from(asking: &Asking<'_>, start: u8) -> PairSet
    requires asking { IsAsking asking.now }
    requires start { start < length asking.now.setting.table.now.states }
    ensures { ArePairs asking.now.setting.table.now start
        asking.now.setting.stock.now.operations.items asking.now.asked result }
{
    let table = asking.setting.table;
    let (_operations, _states) = (table.operations(), table.states());
    let mut set = shown_at_once(&asking.setting, asking.asked, start);
    for operation in 0..table.operations() {
        if let Some(shown) = asking.less_shown(operation) {
            let (_, next) = table.apply(Operation(operation), State(start));
            shown.add_to(next.0, &mut set);
        }
    }
    set
}

/// These pairs for each start state.
fn stock_shown(asking: &Asking<'_>) -> Shown
    requires { IsAsking asking.now }
    ensures { ArePairsTo asking.now.setting.table.now
        asking.now.setting.stock.now.operations.items asking.now.asked result.pairs }
{
    let none = PairSet::none();
    let mut pairs = [none; MOST_STATES];
    for start in 0..asking.setting.table.states() {
        pairs[start as usize] = shown_from(asking, start);
    }
    Shown { pairs }
}

/// The pairs that words within the stock which begin with the first operation show the asked one.
pub fn shown_by(asking: &Asking<'_>, start: u8, first: u8) -> PairSet
    requires asking { IsAsking asking.now }
    requires start { start < length asking.now.setting.table.now.states }
    requires first { first < length asking.now.setting.table.now.operations }
    ensures { AreShownTo asking.now start first result }
{
    let table = asking.setting.table;
    let (_operations, _states) = (table.operations(), table.states());
    let mut set = if first == asking.asked {
        shown_at_once(&asking.setting, asking.asked, start)
    } else {
        PairSet::none()
    };
    if let Some(shown) = asking.less_shown(first) {
        let (_, next) = table.apply(Operation(first), State(start));
        shown.add_to(next.0, &mut set);
    }
    set
}

/// The ends of each of the stocks.
pub fn cell_ends(alloc: Global, table: &Table, cells: &[Stock]) -> Result<Vec<Ends>, AllocError>
    requires { AreCellsOver table.now cells.now }
    ensures count { IfOk result (λ ends. length ends.items ≡ length cells.now) }
    ensures ends { IfOk result (λ ends. AreEndsOf table.now cells.now ends.items) }
{
    let mut all = Vec::with_capacity(alloc, cells.len())?;
    for stock in cells {
        let setting = Setting {
            table,
            stock,
            ends: all.as_slice(),
        };
        let ends = stock_ends(&setting);
        all.push(ends)?;
    }
    Ok(all)
}

/// The pairs that words within each of the stocks show the operation.
pub fn cell_shown(
    alloc: Global,
    table: &Table,
    cells: &[Stock],
    ends: &[Ends],
    asked: u8,
) -> Result<Vec<Shown>, AllocError>
    requires cells { AreCellsOver table.now cells.now }
    requires count { length ends.now ≡ length cells.now }
    requires ends { AreEndsOf table.now cells.now ends.now }
    requires asked { asked < length table.now.operations }
    ensures count { IfOk result (λ shown. length shown.items ≡ length cells.now) }
    ensures shown { IfOk result (λ shown. AreShownOf table.now asked cells.now shown.items) }
{
    let mut all = Vec::with_capacity(alloc, cells.len())?;
    for stock in cells {
        let setting = Setting { table, stock, ends };
        let asking = Asking {
            setting,
            asked,
            shown: all.as_slice(),
        };
        let shown = stock_shown(&asking);
        all.push(shown)?;
    }
    Ok(all)
}
