//! Operations of a stock that are joined.
ghost use Rattle.std.specs.Prelude.{◌<◌, ◌↔◌, ℕ, length, IsTrue};
ghost use Rattle.cn_stocks.specs.Pairs.{Has};
ghost use Rattle.cn_stocks.specs.Words.{Shows};
ghost use Rattle.cn_divisions.specs.Joins.{AreJoined};
ghost use Rattle.cn_divisions.specs.Levels.{IsSetting};
ghost use Rattle.cn_divisions.specs.Looks.{IsLook};
ghost use Rattle.cn_meetings.specs.Sights.{sight_of};

use crate::levels::Setting;
use crate::looks::Look;
use crate::word_sets::shown_at_once;
use cn_stocks::pair_sets::PairSet;
use cn_table::{Operation, State};

/// The pairs that words within the stock which begin with the first operation show the asked one.
fn shown_by(setting: &Setting<'_>, start: u8, first: u8, asked: u8) -> PairSet
    requires setting { IsSetting setting.now }
    requires start { start < length setting.now.table.now.states }
    requires first { first < length setting.now.table.now.operations }
    requires asked { asked < length setting.now.table.now.operations }
    ensures { (r q : ℕ) → Has result r q ↔ Shows setting.now.table.now start
        setting.now.stock.now.operations.items first asked r q }
{
    let (_operations, _states) = (setting.table.operations(), setting.table.states());
    let mut set = if first == asked {
        shown_at_once(setting, asked, start)
    } else {
        PairSet::none()
    };
    if let Some(shown) = setting.less_shown(first) {
        let (_, next) = setting.table.apply(Operation(first), State(start));
        shown.add_to(asked, next.0, &mut set);
    }
    set
}

/// Whether words that begin with the two operations tell some operation the same.
pub(crate) fn are_joined(setting: &Setting<'_>, look: &Look, start: u8, f: u8, g: u8) -> bool
    requires setting { IsSetting setting.now }
    requires look { IsLook setting.now.table.now look.now }
    requires start { start < length setting.now.table.now.states }
    requires f { f < length setting.now.table.now.operations }
    requires g { g < length setting.now.table.now.operations }
    ensures { IsTrue result ↔ AreJoined setting.now.table.now (sight_of look.now.sight) start
        setting.now.stock.now.operations.items f g }
{
    let (_responses, _states) = (setting.table.responses(), setting.table.states());
    for asked in 0..setting.table.operations() {
        if !setting.stock.has(asked) {
            continue;
        }
        let shown = shown_by(setting, start, f, asked);
        if look.confuses(&shown, &shown_by(setting, start, g, asked)) {
            return true;
        }
    }
    false
}
