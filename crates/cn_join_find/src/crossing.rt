//! Joins between a set of operations and the others of a stock.
ghost use Rattle.std.specs.Prelude.{◌<◌, ◌≤◌, ◌↔◌, ℕ, List, IfOk, MatchOption, length};
ghost use Rattle.cn_stocks.specs.Pairs.{Has, set_at};
ghost use Rattle.cn_stocks.specs.Words.{Shows};
ghost use Rattle.cn_telling.specs.Asking.{AreShownTo};
ghost use Rattle.cn_join_find.specs.Crossing.{IsCrossing, IsWhole, MeetsWithin, NoneCrosses, NoneShown};
ghost use Rattle.cn_join_find.specs.Steps.{AreCells, AreViews};

use crate::meeting::{Meeting, find_meeting};
use crate::steps::{Cells, Views};
use crate::words::first_word;
use cn_joins::Join;
use cn_table::{State, laws};
use cn_telling::ends::Setting;
use cn_telling::joins::{FirstPairs, shown_by_each};
use cn_telling::shown::{Asking, cell_shown};
use std::alloc::{AllocError, Global};

/// The pairs that words within the whole stock show the asked operation, by their first operation.
fn whole_pairs(views: &Views<'_>, start: u8) -> FirstPairs
    requires views { AreViews views.now }
    requires some { 1 ≤ length views.now.cells.stocks.now }
    requires start { start < length views.now.cells.table.now.states }
    ensures { (whole : List ℕ) → IsWhole views.now.cells whole → (f r q : ℕ)
        → Has (set_at result f) r q
        ↔ Shows views.now.cells.table.now start whole f views.now.asked r q }
{
    let cells = views.cells;
    let stocks = cells.stocks;
    let last = stocks.len() - 1;
    let setting = Setting {
        table: cells.table,
        stock: &stocks[last],
        ends: cells.ends,
    };
    let asking = Asking {
        setting,
        asked: views.asked,
        shown: views.shown,
    };
    shown_by_each(&asking, start)
}

/// The join of a meeting.
fn join_of(
    alloc: Global,
    views: &Views<'_>,
    start: u8,
    set: u16,
    found: Meeting,
) -> Result<Join, AllocError>
    requires views { AreViews views.now }
    requires some { 1 ≤ length views.now.cells.stocks.now }
    requires start { start < length views.now.cells.table.now.states }
    requires meets { (whole : List ℕ) → IsWhole views.now.cells whole
        → (length whole ≤ 255) × MeetsWithin views.now start whole set found }
    ensures { IfOk result (λ join. (whole : List ℕ) → IsWhole views.now.cells whole
        → IsCrossing views.now.cells.table.now start whole set join) }
{
    let _set = set;
    let last = views.cells.stocks.len() - 1;
    let first = first_word(alloc, views, last, start, found.first, found.pair)?;
    let second = first_word(alloc, views, last, start, found.second, found.pair)?;
    Ok(Join {
        start: State(start),
        first,
        second,
    })
}

/// A join by the asked operation, from an operation of the set to another one.
fn crossing_by(
    alloc: Global,
    views: &Views<'_>,
    start: u8,
    set: u16,
) -> Result<Option<Join>, AllocError>
    requires views { AreViews views.now }
    requires some { 1 ≤ length views.now.cells.stocks.now }
    requires start { start < length views.now.cells.table.now.states }
    requires short { (whole : List ℕ) → IsWhole views.now.cells whole → length whole ≤ 255 }
    ensures { IfOk result (λ found. (whole : List ℕ) → IsWhole views.now.cells whole
        → MatchOption found (NoneShown views.now.cells.table.now start whole set views.now.asked)
        (IsCrossing views.now.cells.table.now start whole set)) }
{
    laws::tables_are_valid(views.cells.table);
    let pairs = whole_pairs(views, start);
    let Some(found) = find_meeting(views.cells.table, &pairs, set) else {
        return Ok(None);
    };
    let join = join_of(alloc, views, start, set, found)?;
    Ok(Some(join))
}

/// A join within the whole stock from an operation of the set to another one. There is none if no
/// words join these.
pub(crate) fn crossing(
    alloc: Global,
    cells: &Cells<'_>,
    start: u8,
    set: u16,
) -> Result<Option<Join>, AllocError>
    requires cells { AreCells cells.now }
    requires some { 1 ≤ length cells.now.stocks.now }
    requires start { start < length cells.now.table.now.states }
    requires short { (whole : List ℕ) → IsWhole cells.now whole → length whole ≤ 255 }
    ensures { IfOk result (λ found. (whole : List ℕ) → IsWhole cells.now whole
        → MatchOption found (NoneCrosses cells.now.table.now start whole set)
        (IsCrossing cells.now.table.now start whole set)) }
{
    let stocks = cells.stocks;
    let last = stocks.len() - 1;
    let stock = &stocks[last];
    for asked in 0..cells.table.operations() {
        // Words within the stock show only its own operations.
        let Some(_place) = stock.less[asked as usize] else {
            continue;
        };
        let shown = cell_shown(alloc, cells.table, cells.stocks, cells.ends, asked)?;
        let views = Views {
            cells: *cells,
            asked,
            shown: shown.as_slice(),
        };
        let found = crossing_by(alloc, &views, start, set)?;
        if let Some(join) = found {
            return Ok(Some(join));
        }
    }
    Ok(None)
}
