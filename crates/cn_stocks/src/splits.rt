//! Whether a stock splits.
ghost use Rattle.std.specs.Prelude.{◌≡◌, ◌<◌, ◌≤◌, ◌↔◌, ◌⊎◌, ℕ, length, IsBitSet, IsTrue};
ghost use Rattle.cn_stocks.specs.declared.question.Question.TheVariants.{Splitting};
ghost use Rattle.cn_stocks.specs.Components.{AreReached, IsJoinedWithSome};
ghost use Rattle.cn_stocks.specs.Levels.{IsSetting};
ghost use Rattle.cn_stocks.specs.Meetings.{AreLeft};
ghost use Rattle.cn_stocks.specs.Pairs.{Has};
ghost use Rattle.cn_stocks.specs.Splits.{AreJoined, StockSplits};
ghost use Rattle.cn_stocks.specs.Words.{Shows, times};

use crate::levels::Setting;
use crate::meetings::{StateSets, meet};
use crate::pair_sets::PairSet;
use crate::word_sets::{left_states, shown_at_once};
use cn_outcomes::bits::{contains, with};
use cn_table::{Operation, State};

/// The pairs that words within the stock which begin with the first operation show the asked one.
fn shown_by(setting: &Setting<'_>, start: u8, first: u8, asked: u8) -> PairSet
    requires setting { IsSetting Splitting setting.now }
    requires start { start < length setting.now.table.now.states }
    requires first { first < length setting.now.table.now.operations }
    requires asked { asked < length setting.now.table.now.operations }
    ensures { (r q : ℕ) → Has result r q ↔ Shows setting.now.table.now start
        setting.now.stock.now.operations.items first asked r q }
{
    let (_operations, _states) = (setting.table.operations(), setting.table.states());
    let mut set = if first == asked {
        shown_at_once(setting, asked, start)
    } else {
        PairSet::none()
    };
    if let Some(shown) = setting.less_shown(first) {
        let (_, next) = setting.table.apply(Operation(first), State(start));
        shown.add_to(asked, next.0, &mut set);
    }
    set
}

/// Whether words that begin with the two operations show some operation the same pair.
fn are_joined(setting: &Setting<'_>, start: u8, f: u8, g: u8) -> bool
    requires setting { IsSetting Splitting setting.now }
    requires start { start < length setting.now.table.now.states }
    requires f { f < length setting.now.table.now.operations }
    requires g { g < length setting.now.table.now.operations }
    ensures { IsTrue result ↔ AreJoined setting.now.table.now start
        setting.now.stock.now.operations.items f g }
{
    for asked in 0..setting.table.operations() {
        if !setting.stock.has(asked) {
            continue;
        }
        let shown = shown_by(setting, start, f, asked);
        if shown.meets(&shown_by(setting, start, g, asked)) {
            return true;
        }
    }
    false
}

/// Whether the operation is joined with one of those that are reached.
fn touches(setting: &Setting<'_>, start: u8, left: &StateSets, reached: u16, operation: u8) -> bool
    requires setting { IsSetting Splitting setting.now }
    requires start { start < length setting.now.table.now.states }
    requires left { AreLeft setting.now.table.now start setting.now.stock.now.operations.items
        left.now }
    requires operation { operation < length setting.now.table.now.operations }
    ensures { IsTrue result ↔ IsJoinedWithSome setting.now.table.now start
        setting.now.stock.now.operations.items reached operation }
{
    for first in 0..setting.table.operations() {
        if !contains(reached, first) {
            continue;
        }
        // Two operations that leave no common state are not joined. States are soon compared.
        if !meet(left[first as usize], left[operation as usize]) {
            continue;
        }
        if are_joined(setting, start, first, operation) {
            return true;
        }
    }
    false
}

/// The operations that are reached, and each operation of the stock that is joined with one of
/// them.
fn grow(setting: &Setting<'_>, start: u8, left: &StateSets, first: u8, reached: u16) -> u16
    requires setting { IsSetting Splitting setting.now }
    requires start { start < length setting.now.table.now.states }
    requires left { AreLeft setting.now.table.now start setting.now.stock.now.operations.items
        left.now }
    requires reached { AreReached setting.now.table.now start
        setting.now.stock.now.operations.items first reached }
    ensures reached { AreReached setting.now.table.now start
        setting.now.stock.now.operations.items first result }
    ensures grown { (g : ℕ) → IsBitSet reached g
        ⊎ ((g < length setting.now.table.now.operations)
        × IsJoinedWithSome setting.now.table.now start setting.now.stock.now.operations.items
        reached g) → IsBitSet result g }
{
    let _first = first;
    let mut grown = reached;
    for operation in 0..setting.table.operations() {
        if setting.stock.has(operation)
            && !contains(grown, operation)
            && touches(setting, start, left, grown, operation)
        {
            grown = with(grown, operation);
        }
    }
    grown
}

/// Whether each operation of the stock is in the set.
fn covers(setting: &Setting<'_>, set: u16) -> bool
    requires { IsSetting Splitting setting.now }
    ensures { IsTrue result
        ↔ ((g : ℕ) → 1 ≤ times g setting.now.stock.now.operations.items → IsBitSet set g) }
{
    for operation in 0..setting.table.operations() {
        if setting.stock.has(operation) && !contains(set, operation) {
            return false;
        }
    }
    true
}

/// Whether the stock splits from the start state.
pub(crate) fn splits_from(setting: &Setting<'_>, start: u8) -> bool
    requires setting { IsSetting Splitting setting.now }
    requires start { start < length setting.now.table.now.states }
    requires some { 1 ≤ length setting.now.stock.now.operations.items }
    ensures { IsTrue result ↔ StockSplits setting.now.table.now start
        setting.now.stock.now.operations.items }
{
    let _operations = setting.table.operations();
    let first = setting.stock.greatest;
    let left = left_states(setting, start);
    let mut reached = with(0, first);
    while !covers(setting, reached) {
        let grown = grow(setting, start, &left, first, reached);
        if grown == reached {
            return true;
        }
        reached = grown;
    }
    false
}
