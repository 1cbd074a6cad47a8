//! Tests of what no contract says: that the search finds a trap where there is one, and a small one.
ghost use Rattle.std.specs.Prelude.{◌≤◌};

use crate::find_trap;
use cn_table::read_table;
use std::alloc::Global;
use std::test::Fail;

/// A queue with room for one of two letters.
fn queue_of_one() -> &'static str {
    "name = \"queue_1\"
states = [\"q\", \"qa\", \"qb\"]
responses = [\"ok\", \"full\", \"empty\", \"a\", \"b\"]
[[operation]]
name = \"enq_a\"
response = [\"ok\", \"full\", \"full\"]
next = [\"qa\", \"qa\", \"qb\"]
[[operation]]
name = \"enq_b\"
response = [\"ok\", \"full\", \"full\"]
next = [\"qb\", \"qa\", \"qb\"]
[[operation]]
name = \"deq\"
response = [\"empty\", \"a\", \"b\"]
next = [\"q\", \"q\", \"q\"]
"
}

/// A bit that one process finds unset.
fn test_and_set() -> &'static str {
    "name = \"test_and_set\"
states = [\"unset\", \"set\"]
responses = [\"won\", \"lost\"]
[[operation]]
name = \"tas\"
response = [\"won\", \"lost\"]
next = [\"set\", \"set\"]
"
}

/// How many turns the trap has that is found for n processes, if one is found.
fn found(alloc: Global, text: &str, n: u8, most: usize) -> Result<Option<usize>, Fail>
    requires some { 2 ≤ n }
    requires few { n ≤ 8 }
{
    let table = read_table(alloc, text.as_bytes())?;
    match find_trap(alloc, &table, n, most)? {
        Some(trap) => Ok(Some(trap.turns.len())),
        None => Ok(None),
    }
}

/// Whether there are some, and few.
fn are_few(turns: Option<usize>) -> bool {
    match turns {
        Some(number) => 0 < number && number <= 20,
        None => false,
    }
}

#[test]
fn a_queue_of_one_has_a_small_trap_for_three(rt: HostRuntime) -> Result<(), Fail> {
    let queue = queue_of_one();
    assert!(rt; found(rt.alloc(), queue, 2, 10_000)?.is_none());
    assert!(rt; found(rt.alloc(), queue, 3, 4)?.is_none());
    assert!(rt; are_few(found(rt.alloc(), queue, 3, 10_000)?));
    Ok(())
}

#[test]
fn a_bit_needs_no_turns_for_three(rt: HostRuntime) -> Result<(), Fail> {
    let bit = test_and_set();
    assert!(rt; found(rt.alloc(), bit, 2, 10_000)?.is_none());
    assert!(rt; found(rt.alloc(), bit, 3, 10_000)?.is_some_and(|turns| turns == 0));
    Ok(())
}
