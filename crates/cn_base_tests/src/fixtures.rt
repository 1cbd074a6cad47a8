//! Lists and plans that the tests of several crates start from.
ghost use Rattle.std.specs.Prelude.{◌≡◌, ◌<◌, ◌≤◌, ◌+◌, ◌↔◌, length, All, IfOk, IsTrue};
ghost use Rattle.std.specs.List.Sorted.{IsNonDecreasing};
ghost use Rattle.cn_choice.specs.declared.limits.TheConstants.{MOST_PROCESSES};
ghost use Rattle.cn_choice.specs.Canonical.{FitsTable};
ghost use Rattle.cn_proto.specs.Plan.{processes_of};

use crate::types::{counter_3, sticky_bit, test_and_set};
use arrayvec::ArrayVec;
use cn_choice::{Choice, MOST_PROCESSES};
use cn_log::Event;
use cn_proto::Plan;
use cn_table::{State, Table, TableFault, read_table};
use std::alloc::{AllocError, Global};
use std::process::Abort;
use std::test::Fail;

pub(super) fn list_of(numbers: &[u8]) -> ArrayVec<u8, MOST_PROCESSES>
    requires { length numbers.now ≤ MOST_PROCESSES }
    ensures { result.items ≡ numbers.now }
{
    let mut list = ArrayVec::new();
    for number in numbers {
        list.push(*number);
    }
    list
}

pub(super) fn are_below(numbers: &[u8], limit: u8) -> bool
    ensures { IsTrue result ↔ All (λ x. x < limit) numbers.now }
{
    numbers.iter().all(|x| *x < limit)
}

/// Whether the list is non-decreasing.
pub(super) fn never_falls(numbers: &[u8]) -> bool
    ensures { IsTrue result ↔ IsNonDecreasing numbers.now }
{
    numbers.is_sorted()
}

/// The table that a text spells.
pub(super) fn table_of(alloc: Global, text: &str) -> Result<Table, TableFault> {
    read_table(alloc, text.as_bytes())
}

/// The counter. It begins in its first state.
pub(super) fn counter(rt: &impl Abort, alloc: Global) -> Result<Table, Fail>
    ensures { IfOk result (λ table. 0 < length table.states) }
{
    let table = table_of(alloc, counter_3())?;
    assert!(rt; table.states() >= 1);
    Ok(table)
}

/// A list of events, each with the number of times that it comes.
pub(super) fn events_of(alloc: Global, parts: &[(Event, u8)]) -> Result<Vec<Event>, AllocError> {
    let mut events = Vec::new(alloc);
    for (event, times) in parts {
        for _time in 0..*times {
            events.push(*event)?;
        }
    }
    Ok(events)
}

/// A choice of the table with these lists.
pub(super) fn choice_of(rt: &impl Abort, table: &Table, state: u8, a: &[u8], b: &[u8]) -> Choice
    requires some { 2 ≤ length a.now + length b.now }
    requires few { length a.now + length b.now ≤ MOST_PROCESSES }
    ensures fits { FitsTable table.now result }
    ensures a { result.a ≡ a.now }
    ensures b { result.b ≡ b.now }
{
    let choice = Choice {
        state: State(state),
        a: list_of(a),
        b: list_of(b),
    };
    assert!(rt; choice.is_for(table, (a.len() + b.len()) as u8));
    choice
}

/// The plan of the witness of a type with these lists, from its first state.
pub(super) fn plan_of(
    rt: &impl Abort,
    alloc: Global,
    text: &str,
    a: &[u8],
    b: &[u8],
) -> Result<Plan, Fail>
    requires some { 2 ≤ length a.now + length b.now }
    requires few { length a.now + length b.now ≤ MOST_PROCESSES }
{
    let table = table_of(alloc, text)?;
    let choice = choice_of(rt, &table, 0, a, b);
    Ok(Plan::from_witness(alloc, &table, &choice)?)
}

/// The plan of test-and-set for two processes.
pub(super) fn plan_for_two(rt: &impl Abort, alloc: Global) -> Result<Plan, Fail> {
    plan_of(rt, alloc, test_and_set(), &[0], &[0])
}

/// The plan of the sticky bit for n processes, of which the first is team A.
pub(super) fn plan_for(rt: &impl Abort, alloc: Global, n: u8) -> Result<Plan, Fail>
    requires some { 2 ≤ n }
    requires few { n ≤ MOST_PROCESSES }
    ensures { IfOk result (λ plan. processes_of plan ≡ n) }
{
    let others = [1u8; MOST_PROCESSES - 1];
    let plan = plan_of(rt, alloc, sticky_bit(), &[0], &others[..usize::from(n) - 1])?;
    assert!(rt; plan.processes() == n);
    Ok(plan)
}
