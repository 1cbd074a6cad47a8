//! Which operations of a stock are joined.
ghost use Rattle.std.specs.Prelude.{◌≡◌, ◌<◌, ◌↔◌, ◌⊎◌, ◌≤◌, ℕ, List, length, slice_index, IfOk, IsBitSet};
ghost use Rattle.cn_stocks.specs.Meetings.{HasAt};
ghost use Rattle.cn_stocks.specs.Pairs.{set_at};
ghost use Rattle.cn_telling.specs.Asking.{AreCellsOver, IsAsking};
ghost use Rattle.cn_telling.specs.Joined.{AreJoinedSets, AreShownByEach, HaveCommonPair, IsLast};

use crate::ends::Setting;
use crate::meetings::Sets;
use crate::shown::{Asking, cell_ends, cell_shown, shown_by};
use cn_outcomes::bits::{union, with};
use cn_stocks::pair_sets::PairSet;
use cn_stocks::stocks::Stock;
use cn_table::{MOST_OPERATIONS, Table};
use std::alloc::{AllocError, Global};

/// For each first operation the pairs that words which begin with it show one operation.
pub type FirstPairs = [PairSet; MOST_OPERATIONS];

/// The pairs that words within the stock show the asked operation, by their first operation.
pub fn shown_by_each(asking: &Asking<'_>, start: u8) -> FirstPairs
    requires asking { IsAsking asking.now }
    requires start { start < length asking.now.setting.table.now.states }
    ensures { AreShownByEach asking.now start result }
{
    let _operations = asking.setting.table.operations();
    let none = PairSet::none();
    let mut pairs = [none; MOST_OPERATIONS];
    for first in 0..asking.setting.table.operations() {
        pairs[first as usize] = shown_by(asking, start, first);
    }
    pairs
}

/// The first operations whose pairs meet these.
fn meeting(pairs: &FirstPairs, set: &PairSet) -> u16
    ensures { (g : ℕ) → IsBitSet result g ↔ HaveCommonPair set.now (set_at pairs.now g) }
{
    let mut found = 0;
    for other in 0..MOST_OPERATIONS {
        if set.meets(&pairs[other]) {
            found = with(found, other as u8);
        }
    }
    found
}

/// The sets with the first operations whose pairs meet.
fn with_meeting(joined: &Sets, pairs: &FirstPairs) -> Sets
    ensures { (f g : ℕ) → HasAt result f g
        ↔ (HasAt joined.now f g ⊎ HaveCommonPair (set_at pairs.now f) (set_at pairs.now g)) }
{
    let mut more = *joined;
    for first in 0..MOST_OPERATIONS {
        more[first] = union(more[first], meeting(pairs, &pairs[first]));
    }
    more
}

/// For each operation of the last of the stocks those with which it is joined, itself too.
pub(crate) fn joined_sets(
    alloc: Global,
    table: &Table,
    cells: &[Stock],
    start: u8,
) -> Result<Sets, AllocError>
    requires cells { AreCellsOver table.now cells.now }
    requires some { 1 ≤ length cells.now }
    requires start { start < length table.now.states }
    ensures { IfOk result (λ joined. (whole : List ℕ) → IsLast whole cells.now
        → AreJoinedSets table.now start whole joined) }
{
    let ends = cell_ends(alloc, table, cells)?;
    let last = cells.len() - 1;
    let setting = Setting {
        table,
        stock: &cells[last],
        ends: ends.as_slice(),
    };
    let mut joined = [0; MOST_OPERATIONS];
    for asked in 0..table.operations() {
        let shown = cell_shown(alloc, table, cells, ends.as_slice(), asked)?;
        let asking = Asking {
            setting,
            asked,
            shown: shown.as_slice(),
        };
        joined = with_meeting(&joined, &shown_by_each(&asking, start));
    }
    Ok(joined)
}
