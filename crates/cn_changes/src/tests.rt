//! Changes of worked types.

use crate::{NumberKind, Untold, changes_of, pair_numbers, raises_of, rests_on};
use cn_table::{Operation, State, Table, read_table};
use cn_unread_number::NumberBounds;
use std::alloc::Global;
use std::test::Fail;
use std::thread::Threads;

/// A queue with room for one of two letters.
fn queue_of_one() -> &'static str {
    "name = \"queue_1\"
states = [\"q\", \"qa\", \"qb\"]
responses = [\"ok\", \"full\", \"empty\", \"a\", \"b\"]
[[operation]]
name = \"enq_a\"
response = [\"ok\", \"full\", \"full\"]
next = [\"qa\", \"qa\", \"qb\"]
[[operation]]
name = \"enq_b\"
response = [\"ok\", \"full\", \"full\"]
next = [\"qb\", \"qa\", \"qb\"]
[[operation]]
name = \"deq\"
response = [\"empty\", \"a\", \"b\"]
next = [\"q\", \"q\", \"q\"]
"
}

/// A count up to 3 with an addition of 1 and of 2, which answer with the count before.
fn saturating_count() -> &'static str {
    "name = \"add_1_2_sat\"
states = [\"0\", \"1\", \"2\", \"3\"]
responses = [\"0\", \"1\", \"2\", \"3\"]
[[operation]]
name = \"add1\"
response = [\"0\", \"1\", \"2\", \"3\"]
next = [\"1\", \"2\", \"3\", \"3\"]
[[operation]]
name = \"add2\"
response = [\"0\", \"1\", \"2\", \"3\"]
next = [\"2\", \"3\", \"3\", \"3\"]
"
}

/// A counter modulo 4 whose increment answers with the count before it.
fn counter_modulo_4() -> &'static str {
    "name = \"fetch_inc_mod4\"
states = [\"0\", \"1\", \"2\", \"3\"]
responses = [\"0\", \"1\", \"2\", \"3\"]
[[operation]]
name = \"fetch_inc\"
response = [\"0\", \"1\", \"2\", \"3\"]
next = [\"1\", \"2\", \"3\", \"0\"]
"
}

/// On how many entries of the operation the number of the table rests.
fn resting<T: Threads + Sync>(
    rt: &T,
    alloc: Global,
    table: &Table,
    operation: Operation,
) -> Result<u8, Fail> {
    let changes = changes_of(rt, alloc, table, NumberKind::Consensus, &Untold)?;
    let nexts = changes.nexts.as_slice();
    let mut count = 0;
    for state in 0..table.states() {
        if count < 16 && rests_on(changes.number, nexts, operation, State(state)) {
            count += 1;
        }
    }
    Ok(count)
}

#[test]
fn entries_on_which_a_number_rests(rt: HostRuntime) -> Result<(), Fail> {
    let alloc = rt.alloc();
    let table = read_table(alloc, queue_of_one().as_bytes())?;
    assert_eq!(rt; table.operations(), 3);
    assert_eq!(rt; resting(&rt, alloc, &table, Operation(0))?, 2);
    assert_eq!(rt; resting(&rt, alloc, &table, Operation(1))?, 2);
    assert_eq!(rt; resting(&rt, alloc, &table, Operation(2))?, 0);
    Ok(())
}

#[test]
fn changes_that_raise_a_number(rt: HostRuntime) -> Result<(), Fail> {
    let alloc = rt.alloc();
    let table = read_table(alloc, saturating_count().as_bytes())?;
    let changes = changes_of(&rt, alloc, &table, NumberKind::Consensus, &Untold)?;
    assert_eq!(rt; changes.number, NumberBounds::Exactly(2));
    assert_eq!(rt; changes.nexts.len(), 32);
    let raises = raises_of(alloc, changes.number, changes.nexts.as_slice())?;
    let mut refusals = Vec::new(alloc);
    for raise in raises.as_slice() {
        if raise.number == NumberBounds::Infinite {
            refusals.push((
                raise.target.operation.0,
                raise.target.state.0,
                raise.target.next.0,
            ))?;
        }
    }
    assert_eq!(rt;
        refusals.as_slice(),
        [(1, 1, 1), (1, 2, 0), (1, 2, 2)].as_slice()
    );
    Ok(())
}

#[test]
fn two_changes_that_raise_nothing(rt: HostRuntime) -> Result<(), Fail> {
    let alloc = rt.alloc();
    let table = read_table(alloc, counter_modulo_4().as_bytes())?;
    let changes = changes_of(&rt, alloc, &table, NumberKind::Consensus, &Untold)?;
    assert_eq!(rt; changes.number, NumberBounds::Exactly(2));
    assert!(rt; raises_of(alloc, changes.number, changes.nexts.as_slice())?.is_empty());
    let pairs = pair_numbers(
        &rt,
        alloc,
        &table,
        NumberKind::Consensus,
        changes.number,
        &Untold,
    )?;
    assert!(rt; pairs.raising.is_empty());
    assert!(rt; !pairs.is_cut);
    Ok(())
}
