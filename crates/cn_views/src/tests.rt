//! Tests of what no contract says: that the search finds what is there, on types with numbers that
//! are known.
ghost use Rattle.std.specs.Prelude.{◌≤◌};

use crate::{find_visible, is_visible, silent_operations};
use cn_table::{Table, read_table};
use std::test::Fail;

/// A queue with room for one of two letters. No operation is silent, and its number is 2.
fn queue_of_one() -> &'static str {
    "name = \"queue_1\"
states = [\"q\", \"qa\", \"qb\"]
responses = [\"ok\", \"full\", \"empty\", \"a\", \"b\"]
[[operation]]
name = \"enq_a\"
response = [\"ok\", \"full\", \"full\"]
next = [\"qa\", \"qa\", \"qb\"]
[[operation]]
name = \"enq_b\"
response = [\"ok\", \"full\", \"full\"]
next = [\"qb\", \"qa\", \"qb\"]
[[operation]]
name = \"deq\"
response = [\"empty\", \"a\", \"b\"]
next = [\"q\", \"q\", \"q\"]
"
}

/// A sticky bit whose writes answer nothing, with two operations that change nothing: each says
/// whether one of the values is kept.
fn sticky_bit_in_parts() -> &'static str {
    "name = \"sticky_bit_in_parts\"
states = [\"none\", \"zero\", \"one\"]
responses = [\"no\", \"yes\"]
[[operation]]
name = \"is_zero\"
response = [\"no\", \"yes\", \"no\"]
next = [\"none\", \"zero\", \"one\"]
[[operation]]
name = \"set_zero\"
response = [\"no\", \"no\", \"no\"]
next = [\"zero\", \"zero\", \"one\"]
[[operation]]
name = \"set_one\"
response = [\"no\", \"no\", \"no\"]
next = [\"one\", \"zero\", \"one\"]
[[operation]]
name = \"is_one\"
response = [\"no\", \"no\", \"yes\"]
next = [\"none\", \"zero\", \"one\"]
"
}

/// Whether a visible choice for n processes is found among so many, and the other test sees it too.
fn is_found(table: &Table, n: u8, most: u32) -> bool
    requires some { 2 ≤ n }
    requires few { n ≤ 8 }
{
    match find_visible(table, n, most) {
        Some(choice) => is_visible(table, &choice),
        None => false,
    }
}

#[test]
fn a_queue_of_one_is_visible_for_two(rt: HostRuntime) -> Result<(), Fail> {
    let table = read_table(rt.alloc(), queue_of_one().as_bytes())?;
    assert!(rt; silent_operations(&table).is_empty());
    assert!(rt; is_found(&table, 2, 10_000));
    assert!(rt; !is_found(&table, 3, 10_000));
    Ok(())
}

#[test]
fn a_sticky_bit_is_visible_by_its_parts(rt: HostRuntime) -> Result<(), Fail> {
    let table = read_table(rt.alloc(), sticky_bit_in_parts().as_bytes())?;
    assert!(rt; silent_operations(&table).as_slice() == [0, 3].as_slice());
    assert!(rt; is_found(&table, 2, 10_000));
    assert!(rt; is_found(&table, 4, 10_000));
    assert!(rt; !is_found(&table, 4, 0));
    Ok(())
}
