//! Numbers of worked types.

use crate::{Evidence, LeastEvidence, MostEvidence, NumberBounds, Telling, unread_number};
use cn_table::read_table;
use std::alloc::Global;
use std::test::Fail;
use std::thread::Threads;

/// A queue with room for one of two letters.
fn queue_of_one() -> &'static str {
    "name = \"queue_1\"
states = [\"q\", \"qa\", \"qb\"]
responses = [\"ok\", \"full\", \"empty\", \"a\", \"b\"]
[[operation]]
name = \"enq_a\"
response = [\"ok\", \"full\", \"full\"]
next = [\"qa\", \"qa\", \"qb\"]
[[operation]]
name = \"enq_b\"
response = [\"ok\", \"full\", \"full\"]
next = [\"qb\", \"qa\", \"qb\"]
[[operation]]
name = \"deq\"
response = [\"empty\", \"a\", \"b\"]
next = [\"q\", \"q\", \"q\"]
"
}

/// A bit that is written once, with an operation that answers it.
fn sticky_bit() -> &'static str {
    "name = \"sticky_bit\"
states = [\"unset\", \"zero\", \"one\"]
responses = [\"done\", \"unset\", \"zero\", \"one\"]
[[operation]]
name = \"write_0\"
response = [\"done\", \"done\", \"done\"]
next = [\"zero\", \"zero\", \"one\"]
[[operation]]
name = \"write_1\"
response = [\"done\", \"done\", \"done\"]
next = [\"one\", \"zero\", \"one\"]
[[operation]]
name = \"look\"
response = [\"unset\", \"zero\", \"one\"]
next = [\"unset\", \"zero\", \"one\"]
"
}

/// A bit that nothing tells.
fn silent_bit() -> &'static str {
    "name = \"silent_bit\"
states = [\"unset\", \"zero\", \"one\"]
responses = [\"done\"]
[[operation]]
name = \"write_0\"
response = [\"done\", \"done\", \"done\"]
next = [\"zero\", \"zero\", \"one\"]
[[operation]]
name = \"write_1\"
response = [\"done\", \"done\", \"done\"]
next = [\"one\", \"zero\", \"one\"]
"
}

/// A word with a compare-and-swap from 0 that answers whether it was done, and back.
fn compare_and_swap() -> &'static str {
    "name = \"cas_3_bool\"
states = [\"0\", \"1\", \"2\"]
responses = [\"yes\", \"no\"]
[[operation]]
name = \"cas01\"
response = [\"yes\", \"no\", \"no\"]
next = [\"1\", \"1\", \"2\"]
[[operation]]
name = \"cas02\"
response = [\"yes\", \"no\", \"no\"]
next = [\"2\", \"1\", \"2\"]
[[operation]]
name = \"cas10\"
response = [\"no\", \"yes\", \"no\"]
next = [\"0\", \"0\", \"2\"]
[[operation]]
name = \"cas12\"
response = [\"no\", \"yes\", \"no\"]
next = [\"0\", \"2\", \"2\"]
[[operation]]
name = \"cas20\"
response = [\"no\", \"no\", \"yes\"]
next = [\"0\", \"1\", \"0\"]
[[operation]]
name = \"cas21\"
response = [\"no\", \"no\", \"yes\"]
next = [\"0\", \"1\", \"1\"]
"
}

/// A queue with room for two letters whose `enq` tells whether it was empty.
fn queue_that_tells() -> &'static str {
    "name = \"queue_tells_empty_2\"
states = [\"q\", \"qa\", \"qb\", \"qaa\", \"qab\", \"qba\", \"qbb\"]
responses = [\"yes\", \"no\", \"full\", \"empty\", \"a\", \"b\"]
[[operation]]
name = \"enq_a\"
response = [\"yes\", \"no\", \"no\", \"full\", \"full\", \"full\", \"full\"]
next = [\"qa\", \"qaa\", \"qba\", \"qaa\", \"qab\", \"qba\", \"qbb\"]
[[operation]]
name = \"enq_b\"
response = [\"yes\", \"no\", \"no\", \"full\", \"full\", \"full\", \"full\"]
next = [\"qb\", \"qab\", \"qbb\", \"qaa\", \"qab\", \"qba\", \"qbb\"]
[[operation]]
name = \"deq\"
response = [\"empty\", \"a\", \"b\", \"a\", \"a\", \"b\", \"b\"]
next = [\"q\", \"q\", \"q\", \"qa\", \"qb\", \"qa\", \"qb\"]
"
}

/// What is known of the number of the table that the text spells, and why.
fn evidence<T: Threads + Sync>(rt: &T, alloc: Global, text: &str) -> Result<Evidence, Fail> {
    let table = read_table(alloc, text.as_bytes())?;
    Ok(unread_number(rt, alloc, &table)?.evidence)
}

#[test]
fn numbers_of_worked_types(rt: HostRuntime) -> Result<(), Fail> {
    let alloc = rt.alloc();
    let two = evidence(&rt, alloc, queue_of_one())?;
    assert!(rt; two.bounds == NumberBounds::Exactly(2));
    assert!(rt; matches!(two.least, LeastEvidence::Visible(_)));
    assert!(rt; matches!(two.most, MostEvidence::Trap(_)));
    let all = evidence(&rt, alloc, sticky_bit())?;
    assert!(rt; all.bounds == NumberBounds::Infinite);
    assert!(rt; matches!(all.least, LeastEvidence::Telling(Telling::Looks)));
    let one = evidence(&rt, alloc, silent_bit())?;
    assert!(rt; one.bounds == NumberBounds::Exactly(1));
    let three = evidence(&rt, alloc, compare_and_swap())?;
    assert!(rt; three.bounds == NumberBounds::Exactly(3));
    assert!(rt; matches!(three.least, LeastEvidence::Further(_)));
    assert!(rt; matches!(three.most, MostEvidence::Trap(_)));
    Ok(())
}

#[test]
fn a_number_that_is_not_decided_is_bounded(rt: HostRuntime) -> Result<(), Fail> {
    let found = evidence(&rt, rt.alloc(), queue_that_tells())?;
    assert!(rt; found.bounds == NumberBounds::Between(2, 3));
    assert!(rt; matches!(found.least, LeastEvidence::Visible(_)));
    assert!(rt; matches!(found.most, MostEvidence::Trap(_)));
    Ok(())
}
