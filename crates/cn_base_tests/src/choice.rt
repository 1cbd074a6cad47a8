//! The definitions, computed on known types, and each public call once.
ghost use Rattle.std.specs.Prelude.{◌≤◌, ◌<◌, ◌+◌, length};
ghost use Rattle.cn_choice.specs.declared.limits.TheConstants.{MOST_PROCESSES};
ghost use Rattle.cn_choice.specs.Blocks.{IsBlockOf};
ghost use Rattle.cn_choice.specs.Canonical.{FitsTable};

use crate::fixtures::{are_below, choice_of, list_of, never_falls, table_of};
use crate::types;
use arrayvec::ArrayVec;
use cn_choice::reference::{plain_orders, raw_splits};
use cn_choice::{
    Block, BlockChoices, Blocks, Choice, Choices, Collision, Orders, RawChoice, Team, count,
};
use cn_collisions::{Examined, Sets, examine};
use cn_outcomes::{OutcomeSet, outcomes};
use cn_stocks::Threading;
use cn_table::{Response, State, Table};
use std::alloc::{AllocError, Global};
use std::process::Abort;
use std::test::Fail;
use std::thread::Threads;

/// The number of orders of n processes.
fn orders_of(alloc: Global, n: u8) -> Result<usize, AllocError>
    requires some { 1 ≤ n }
    requires few { n ≤ MOST_PROCESSES }
{
    Ok(plain_orders(alloc, n)?.len())
}

#[test]
fn lists_the_orders(rt: HostRuntime) -> Result<(), Fail> {
    for (n, count) in [(1, 1), (2, 4), (3, 15), (4, 64), (8, 109_600)] {
        assert!(rt; 1 <= n && n <= 8);
        assert!(rt; orders_of(rt.alloc(), n)? == count);
    }
    Ok(())
}

/// The raw choice for n processes that this number encodes: each process has three bits for its
/// operation and one for its team.
fn raw_choice(n: u8, state: u8, number: u32) -> RawChoice
    requires { n ≤ MOST_PROCESSES }
{
    let mut operations = ArrayVec::new();
    let mut marks = ArrayVec::new();
    let mut rest = number;
    for _process in 0..n {
        operations.push((rest % 8) as u8);
        marks.push(if rest / 8 % 2 == 0 { Team::A } else { Team::B });
        rest /= 16;
    }
    RawChoice {
        state: State(state),
        operations,
        marks,
    }
}

/// Whether some raw choice for n processes with this start state is a witness.
fn some_splits(alloc: Global, table: &Table, n: u8, state: u8) -> Result<bool, AllocError>
    requires { n ≤ MOST_PROCESSES }
{
    for number in 0..4096 {
        let choice = raw_choice(n, state, number);
        if choice.is_for(table, n) && raw_splits(alloc, table, &choice)? {
            return Ok(true);
        }
    }
    Ok(false)
}

/// Whether the type is n-discerning, for n of 2 or 3, by going over every raw choice.
fn is_discerning(alloc: Global, table: &Table, n: u8) -> Result<bool, AllocError>
    requires { n ≤ MOST_PROCESSES }
{
    for state in 0..table.states() {
        if some_splits(alloc, table, n, state)? {
            return Ok(true);
        }
    }
    Ok(false)
}

/// For how many n of 2 and 3 the type of the text is n-discerning.
fn discerning(alloc: Global, text: &str) -> Result<u8, Fail> {
    let table = table_of(alloc, text)?;
    let two = is_discerning(alloc, &table, 2)?;
    let three = is_discerning(alloc, &table, 3)?;
    Ok(u8::from(two) + u8::from(three))
}

/// An n-discerning type is (n-1)-discerning.
#[test]
fn known_types_are_discerning(rt: HostRuntime) -> Result<(), Fail> {
    for (text, expected) in [
        (types::test_and_set(), 1),
        (types::idle(), 0),
        (types::binary_register(), 0),
        (types::fetch_and_add_2(), 1),
        (types::binary_swap(), 1),
        (types::sticky_bit(), 2),
        (types::three_shot(), 2),
        (types::counter_3(), 1),
    ] {
        assert!(rt; discerning(rt.alloc(), text)? == expected);
    }
    Ok(())
}

/// Whether the choice with these operations is canonical.
fn is_canonical(a: &[u8], b: &[u8]) -> bool
    requires a { length a.now ≤ MOST_PROCESSES }
    requires b { length b.now ≤ MOST_PROCESSES }
{
    let choice = Choice {
        state: State(0),
        a: list_of(a),
        b: list_of(b),
    };
    choice.is_canonical()
}

#[test]
fn canonical_choices_ascend(rt: HostRuntime) {
    for (a, b, expected) in [
        ([1].as_slice(), [0].as_slice(), false),
        (&[1], &[0, 0], true),
        (&[0], &[1, 0], false),
        (&[0, 0], &[1], false),
        (&[], &[1], false),
    ] {
        assert!(rt; a.len() <= 8 && b.len() <= 8);
        assert!(rt; is_canonical(a, b) == expected);
    }
}

/// Whether the choices are those with these lists of one and of two processes, in this order, from
/// state 0.
fn come_in_order(table: &Table, lists: &[(u8, [u8; 2])]) -> bool {
    let mut choices = Choices::new(table, 3);
    for (a, b) in lists {
        let Some(next) = choices.next() else {
            return false;
        };
        if next.a.as_slice() != [*a].as_slice() || next.b.as_slice() != b.as_slice() {
            return false;
        }
    }
    choices.next().is_none()
}

#[test]
fn choices_come_in_order(rt: HostRuntime) -> Result<(), Fail> {
    let table = table_of(rt.alloc(), types::sticky_bit())?;
    let lists = [
        (0, [0, 0]),
        (0, [0, 1]),
        (0, [1, 1]),
        (1, [0, 0]),
        (1, [0, 1]),
        (1, [1, 1]),
    ];
    assert!(rt; come_in_order(&table, &lists));
    Ok(())
}

/// How many live choices the type has for n processes.
fn live_choices(table: &Table, n: u8) -> usize
    requires some { 2 ≤ n }
    requires few { n ≤ MOST_PROCESSES }
{
    Choices::new(table, n).take(1_000).count()
}

#[test]
fn live_choices_are_fewer(rt: HostRuntime) -> Result<(), Fail> {
    for (text, two, three, four) in [
        (types::test_and_set(), 1, 1, 2),
        (types::idle(), 0, 0, 0),
        (types::binary_register(), 2, 2, 4),
        (types::binary_swap(), 2, 2, 4),
        (types::three_shot(), 15, 30, 70),
        (types::counter_3(), 3, 3, 6),
    ] {
        let table = table_of(rt.alloc(), text)?;
        assert!(rt; live_choices(&table, 2) == two && live_choices(&table, 3) == three);
        assert!(rt; live_choices(&table, 4) == four);
    }
    Ok(())
}

/// Whether the choices of the block that are lent are those that are given away.
fn are_lent(table: &Table, block: &Block) -> bool
    requires some { 2 ≤ block.now.n }
    requires is_block { IsBlockOf table.now block.now }
{
    let mut lent = BlockChoices::new(table, block);
    for choice in Choices::of_block(table, block) {
        let Some(current) = lent.current() else {
            return false;
        };
        if current.a.as_slice() != choice.a.as_slice()
            || current.b.as_slice() != choice.b.as_slice()
        {
            return false;
        }
        lent.advance();
    }
    lent.current().is_none()
}

/// How many choices the block has.
fn choices_in(rt: &impl Abort, table: &Table, block: &Block) -> usize {
    let (a, n) = (block.a.as_slice(), block.n);
    assert!(rt; 2 <= n && n <= 8 && !a.is_empty() && 2 * a.len() <= n as usize);
    assert!(rt; block.state.0 < table.states() && are_below(a, table.operations()));
    assert!(rt; never_falls(a));
    assert!(rt; are_lent(table, block));
    Choices::of_block(table, block).take(100).count()
}

/// Whether the blocks for four processes have the same lists in each of five states, each list with
/// this number of choices.
fn blocks_come_in_order(rt: &impl Abort, table: &Table, lists: &[(&[u8], usize)]) -> bool {
    let mut blocks = Blocks::new(table, 4);
    for state in 0..5 {
        for (a, choices) in lists {
            let Some(block) = blocks.next() else {
                return false;
            };
            let is_next = block.state == State(state) && block.a.as_slice() == *a;
            if !is_next || choices_in(rt, table, &block) != *choices {
                return false;
            }
        }
    }
    blocks.next().is_none()
}

#[test]
fn blocks_have_their_choices(rt: HostRuntime) -> Result<(), Fail> {
    let table = table_of(rt.alloc(), types::three_shot())?;
    let lists = [
        ([0].as_slice(), 4),
        (&[1], 4),
        (&[0, 0], 3),
        (&[0, 1], 2),
        (&[1, 1], 1),
    ];
    assert!(rt; blocks_come_in_order(&rt, &table, &lists));
    Ok(())
}

/// Whether the orders that begin in team A and have process 1 are these.
fn begin_in_the_team(three: &Choice, lists: &[&[u8]]) -> bool
    requires some { 1 ≤ length three.now.a + length three.now.b }
    requires few { length three.now.a + length three.now.b ≤ MOST_PROCESSES }
{
    let mut orders = Orders::new(three, Team::A, 1);
    for expected in lists {
        let Some(order) = orders.next() else {
            return false;
        };
        if order.as_slice() != *expected {
            return false;
        }
    }
    orders.next().is_none()
}

#[test]
fn orders_begin_in_the_team(rt: HostRuntime) {
    let three = Choice {
        state: State(0),
        a: list_of(&[0]),
        b: list_of(&[0, 0]),
    };
    assert!(rt; begin_in_the_team(&three, &[&[0, 1], &[0, 1, 2], &[0, 2, 1]]));
    assert!(rt; Orders::new(&three, Team::B, 1).take(100).count() == 1 + 3 + 4);
    assert!(rt; three.team(0) == Team::A && three.team(1) == Team::B);
}

/// Whether the set has this pair alone, among all pairs that a table can have and some more.
fn has_only(set: &OutcomeSet, pair: (u8, u8)) -> bool {
    for response in 0..20 {
        for state in 0..20 {
            let has = set.has(Response(response), State(state));
            if has != (pair == (response, state)) {
                return false;
            }
        }
    }
    true
}

#[test]
fn eight_processes_see_who_was_first(rt: HostRuntime) -> Result<(), Fail> {
    let table = table_of(rt.alloc(), types::sticky_bit())?;
    let eight = choice_of(&rt, &table, 0, &[0], &[1, 1, 1, 1, 1, 1, 1]);
    for process in 0..8 {
        assert!(rt; has_only(&outcomes(&table, &eight, Team::A, process), (0, 1)));
        assert!(rt; has_only(&outcomes(&table, &eight, Team::B, process), (1, 2)));
    }
    let sets = Sets::new(&rt, rt.alloc(), &table, 8, Threading::Many)?;
    assert!(rt; eight.is_for(&table, 8));
    assert!(rt; matches!(examine(&sets, &eight), Examined::Splits));
    Ok(())
}

/// Whether the outcome sets of the process meet.
fn cannot_tell(table: &Table, choice: &Choice, process: u8) -> bool
    requires fits { FitsTable table.now choice.now }
    requires process { process < length choice.now.a + length choice.now.b }
{
    let from_a = outcomes(table, choice, Team::A, process);
    from_a.meets(&outcomes(table, choice, Team::B, process))
}

/// Whether the choice for three processes is a witness, by the definition.
fn is_raw_witness(
    rt: &impl Abort,
    alloc: Global,
    table: &Table,
    choice: &Choice,
) -> Result<bool, AllocError>
    requires { FitsTable table.now choice.now }
{
    let raw = RawChoice::of(choice);
    assert!(rt; raw.is_for(table, 3));
    raw_splits(alloc, table, &raw)
}

#[test]
fn outcome_sets_meet_where_a_process_cannot_tell(rt: HostRuntime) -> Result<(), Fail> {
    let table = table_of(rt.alloc(), types::test_and_set())?;
    let three = choice_of(&rt, &table, 0, &[0], &[0, 0]);
    assert!(rt; !cannot_tell(&table, &three, 0));
    assert!(rt; cannot_tell(&table, &three, 1) && cannot_tell(&table, &three, 2));
    assert!(rt; !is_raw_witness(&rt, rt.alloc(), &table, &three)?);
    Ok(())
}

/// Whether the collision has this process and these orders.
fn is_recorded(collision: &Collision, process: u8, alpha: &[u8], beta: &[u8]) -> bool {
    collision.process == process
        && collision.alpha.as_slice() == alpha
        && collision.beta.as_slice() == beta
}

/// Whether the recorded collision of a choice of the type is that of process 0 with these orders.
/// Both teams of the choice have this list.
fn records<T: Abort + Threads + Sync>(
    rt: &T,
    alloc: Global,
    text: &str,
    state: u8,
    list: &[u8],
    orders: (&[u8], &[u8]),
) -> Result<bool, Fail> {
    let table = table_of(alloc, text)?;
    assert!(rt; 1 <= list.len() && list.len() <= 4);
    let choice = choice_of(rt, &table, state, list, list);
    let n = 2 * list.len() as u8;
    let sets = Sets::new(rt, alloc, &table, n, Threading::Many)?;
    assert!(rt; choice.is_for(&table, n));
    match examine(&sets, &choice) {
        Examined::Splits => Ok(false),
        Examined::Meets(collision) => Ok(is_recorded(&collision, 0, orders.0, orders.1)),
    }
}

/// The collisions of choices that are not live, which no search looks at, and of eight processes.
#[test]
fn collisions_are_recorded(rt: HostRuntime) -> Result<(), Fail> {
    for (text, state, list, alpha, beta) in [
        (types::idle(), 0, [0].as_slice(), [0], [1, 0]),
        (types::test_and_set(), 1, &[0], [0], [1, 0]),
        (types::three_shot(), 5, &[1, 1], [0], [2, 0]),
    ] {
        assert!(rt; records(&rt, rt.alloc(), text, state, list, (&alpha, &beta))?);
    }
    let eight = (types::test_and_set(), [0, 0, 0, 0]);
    assert!(rt; records(&rt, rt.alloc(), eight.0, 0, &eight.1, (&[1, 0], &[4, 0]))?);
    Ok(())
}

#[test]
fn canonical_choices_are_counted(rt: HostRuntime) {
    for (operations, n, per_state) in [
        (1, 2, 1),
        (1, 5, 2),
        (1, 8, 4),
        (2, 2, 3),
        (2, 4, 14),
        (2, 8, 76),
        (8, 2, 36),
        (8, 3, 288),
        (8, 8, 238_887),
    ] {
        assert!(rt; 1 <= operations && operations <= 8 && 2 <= n && n <= 8);
        assert!(rt; count(1, operations, n) == per_state);
        assert!(rt; count(16, operations, n) == 16 * per_state);
    }
}
