//! From which states a stock has what is asked for.
ghost use Rattle.std.specs.Prelude.{◌≡◌, ◌<◌, ◌≤◌, ◌↔◌, ℕ, All, length, IfOk, IsBitSet, IsTrue};
ghost use Rattle.cn_stocks.specs.Levels.{AreAllStarts, AreStarts, HasLessStarts, IsNext, IsSetting, IsSomeSetting};
ghost use Rattle.cn_stocks.specs.Questions.{Holds};

use crate::levels::{Level, Setting};
use crate::question::Question;
use crate::records::records_from;
use crate::splits::splits_from;
use crate::stocks::Stock;
use crate::threading::Threading;
use cn_outcomes::bits::{contains, union, with};
use cn_table::Table;
use rayon::prelude::*;
use std::alloc::{AllocError, Global};
use std::thread::Threads;

/// Whether the stock has what is asked for from the start state.
fn holds_from(question: Question, setting: &Setting<'_>, start: u8) -> bool
    requires setting { IsSetting question setting.now }
    requires start { start < length setting.now.table.now.states }
    requires some { 1 ≤ length setting.now.stock.now.operations.items }
    ensures { IsTrue result ↔ Holds question setting.now.table.now start
        setting.now.stock.now.operations.items }
{
    match question {
        Question::Splitting => splits_from(setting, start),
        Question::Recording => records_from(setting, start),
    }
}

/// The states from which the stock has what is asked for with one operation less. Where it has
/// three operations or more it has it from no other one.
fn less_starts(setting: &Setting<'_>) -> u16
    requires { IsSomeSetting setting.now }
    ensures { HasLessStarts setting.now result }
{
    let _operations = setting.table.operations();
    let level = setting.level;
    let mut set = 0;
    for operation in 0..setting.table.operations() {
        if let Some(place) = setting.stock.less[operation as usize] {
            set = union(set, level.starts[place as usize]);
        }
    }
    set
}

/// The states from which the stock has what is asked for.
fn starts(question: Question, setting: &Setting<'_>) -> u16
    requires { IsSetting question setting.now }
    ensures { AreStarts question setting.now.table.now setting.now.stock.now.operations.items
        result }
{
    let _states = setting.table.states();
    if setting.stock.operations.is_empty() {
        return 0;
    }
    let few = setting.stock.operations.len() < 3;
    let less = less_starts(setting);
    let mut set = 0;
    for start in 0..setting.table.states() {
        if !few && !contains(less, start) {
            continue;
        }
        if holds_from(question, setting, start) {
            set = with(set, start);
        }
    }
    set
}

/// These states for each of the stocks. The threads share the stocks.
pub(crate) fn all_starts<T: Threads + Sync>(
    rt: &T,
    alloc: Global,
    question: Question,
    table: &Table,
    level: &Level,
    stocks: &[Stock],
    threading: Threading,
) -> Result<Vec<u16>, AllocError>
    requires { All (IsNext question table.now level.now) stocks.now }
    ensures { IfOk result (λ starts. AreAllStarts question table.now stocks.now starts.items) }
{
    let threading = threading.for_stocks(stocks.len());
    stocks
        .par_iter()
        .with_min_len(threading.least_piece())
        .map(
            |stock: &Stock| -> u16
                requires { IsNext question table.now level.now stock.now }
                ensures { AreStarts question table.entry.now stock.now.operations.items result }
            {
                starts(
                    question,
                    &Setting {
                        table,
                        level,
                        stock,
                    },
                )
            },
        )
        .collect::<Vec<u16>>(rt, alloc)
}
