//! Outcome sets of choices for two to four processes against the definitions. One type has the most
//! states and operations, and none of these changes anything.
ghost use Rattle.std.specs.Prelude.{◌≤◌, ◌<◌, ◌+◌, length};
ghost use Rattle.cn_choice.specs.declared.limits.TheConstants.{MOST_PROCESSES};
ghost use Rattle.cn_choice.specs.Canonical.{FitsTable};
ghost use Rattle.cn_collisions.specs.Levels.{AreSetsFor};

use crate::fixtures::{choice_of, table_of};
use crate::types::*;
use cn_choice::reference::raw_splits;
use cn_choice::{Choice, RawChoice};
use cn_collisions::{Examined, Sets, examine};
use cn_outcomes::is_witness;
use cn_stocks::Threading;
use cn_table::Table;
use std::alloc::Global;
use std::process::Abort;
use std::test::Fail;
use std::thread::Threads;

/// Whether the choice for n processes is a witness, by the definition. The outcome sets and the
/// examination have to say the same.
fn splits(
    rt: &impl Abort,
    alloc: Global,
    table: &Table,
    sets: &Sets<'_>,
    choice: &Choice,
    n: u8,
) -> Result<bool, Fail>
    requires sets { AreSetsFor table.now n sets.now }
    requires fits { FitsTable table.now choice.now }
    requires some { 2 ≤ length choice.now.a + length choice.now.b }
    requires few { length choice.now.a + length choice.now.b ≤ MOST_PROCESSES }
{
    let raw = RawChoice::of(choice);
    assert!(rt; raw.is_for(table, n));
    let splits = raw_splits(alloc, table, &raw)?;
    assert!(rt; is_witness(table, choice) == splits);
    assert!(rt; choice.is_for(table, n));
    assert!(rt; matches!(examine(sets, choice), Examined::Splits) == splits);
    Ok(splits)
}

/// The number of witnesses among some choices for n processes with this start state: one choice for
/// each size of team A.
fn witnesses_from(
    rt: &impl Abort,
    alloc: Global,
    table: &Table,
    sets: &Sets<'_>,
    state: u8,
    n: u8,
) -> Result<u32, Fail>
    requires sets { AreSetsFor table.now n sets.now }
    requires state { state < 16 }
    requires some { 2 ≤ n }
    requires few { n ≤ 4 }
{
    let count = table.operations();
    let last = count - 1;
    let operations = [state % count, last, last, last - state / 2 % count];
    let mut found = 0u32;
    for size in 1..n {
        let (a, b) = operations[..usize::from(n)].split_at(usize::from(size));
        let choice = choice_of(rt, table, state, a, b);
        if splits(rt, alloc, table, sets, &choice, n)? {
            found = found.saturating_add(1);
        }
    }
    Ok(found)
}

/// The numbers of witnesses for two, three and four processes, over all start states.
fn witnesses<T: Abort + Threads + Sync>(
    rt: &T,
    alloc: Global,
    text: &str,
) -> Result<[u32; 3], Fail> {
    let table = table_of(alloc, text)?;
    let mut found = [0u32; 3];
    for n in 2..5u8 {
        let sets = Sets::new(rt, alloc, &table, n, Threading::Many)?;
        for state in 0..table.states() {
            let more = witnesses_from(rt, alloc, &table, &sets, state, n)?;
            let place = &mut found[usize::from(n) - 2];
            *place = place.saturating_add(more);
        }
    }
    Ok(found)
}

#[test]
fn outcome_sets_say_what_the_orders_say(rt: HostRuntime) -> Result<(), Fail> {
    for (text, expected) in [
        (wide(), [0, 0, 0]),
        (sticky_bit(), [1, 1, 1]),
        (three_shot(), [3, 1, 0]),
    ] {
        assert!(rt; witnesses(&rt, rt.alloc(), text)? == expected);
    }
    Ok(())
}
