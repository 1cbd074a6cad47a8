//! Whether a stock records.
ghost use Rattle.std.specs.Prelude.{◌≡◌, ◌<◌, ◌≤◌, ◌↔◌, ℕ, length, IsTrue};
ghost use Rattle.cn_stocks.specs.declared.question.Question.TheVariants.{Recording};
ghost use Rattle.cn_stocks.specs.Levels.{IsSetting, IsSomeSetting};
ghost use Rattle.cn_stocks.specs.Meetings.{IsSingle};
ghost use Rattle.cn_stocks.specs.Records.{Records};
ghost use Rattle.cn_stocks.specs.Words.{times};

use crate::levels::Setting;
use crate::meetings::{StateSets, fall_apart, is_alone, some_has};
use crate::word_sets::left_states;
use cn_outcomes::bits::contains;

/// How often the operation stands in the list.
fn count_of(operations: &[u8], operation: u8) -> usize
    ensures { result ≡ times operation operations.now }
{
    let mut count = 0;
    for other in operations {
        if *other == operation {
            count += 1;
        }
    }
    count
}

/// Whether some operation stands in the stock once, and alone leaves states that no other one does,
/// of which the start state is none.
fn some_single(setting: &Setting<'_>, sets: &StateSets, start: u8) -> bool
    requires setting { IsSomeSetting setting.now }
    requires start { start < length setting.now.table.now.states }
    ensures { IsTrue result
        ↔ ((f : ℕ) × IsSingle setting.now.stock.now.operations.items sets.now start f) }
{
    let _states = setting.table.states();
    for operation in 0..setting.table.operations() {
        if !contains(sets[operation as usize], start)
            && is_alone(sets, operation)
            && count_of(setting.stock.operations.as_slice(), operation) == 1
        {
            return true;
        }
    }
    false
}

/// Whether the stock records from the start state: whether one of its operations is the one part,
/// or no word leaves the start state and its operations fall into two parts in some other way.
pub(crate) fn records_from(setting: &Setting<'_>, start: u8) -> bool
    requires setting { IsSetting Recording setting.now }
    requires start { start < length setting.now.table.now.states }
    requires some { 1 ≤ length setting.now.stock.now.operations.items }
    ensures { IsTrue result ↔ Records setting.now.table.now start
        setting.now.stock.now.operations.items }
{
    let _operations = setting.table.operations();
    let _states = setting.table.states();
    let sets = left_states(setting, start);
    if some_single(setting, &sets, start) {
        return true;
    }
    if some_has(&sets, start) {
        return false;
    }
    fall_apart(&sets, setting.stock.greatest)
}
