//! Tests of what no contract says: that the search finds what is there, on types with numbers that
//! are known.
use crate::find_signs;
use cn_table::{Table, read_table};
use std::test::Fail;

/// A sticky bit whose writes answer nothing, with a read.
fn sticky_bit() -> &'static str {
    "name = \"sticky_bit\"
states = [\"none\", \"zero\", \"one\"]
responses = [\"none\", \"zero\", \"one\", \"ok\"]
[[operation]]
name = \"set_zero\"
response = [\"ok\", \"ok\", \"ok\"]
next = [\"zero\", \"zero\", \"one\"]
[[operation]]
name = \"set_one\"
response = [\"ok\", \"ok\", \"ok\"]
next = [\"one\", \"zero\", \"one\"]
[[operation]]
name = \"read\"
response = [\"none\", \"zero\", \"one\"]
next = [\"none\", \"zero\", \"one\"]
"
}

/// Compare-and-swap from 0, which answers the old value.
fn compare_and_swap() -> &'static str {
    "name = \"cas_3_old\"
states = [\"0\", \"1\", \"2\"]
responses = [\"0\", \"1\", \"2\"]
[[operation]]
name = \"cas01\"
response = [\"0\", \"1\", \"2\"]
next = [\"1\", \"1\", \"2\"]
[[operation]]
name = \"cas02\"
response = [\"0\", \"1\", \"2\"]
next = [\"2\", \"1\", \"2\"]
"
}

/// Its number is 2.
fn test_and_set() -> &'static str {
    "name = \"test_and_set\"
states = [\"zero\", \"one\"]
responses = [\"0\", \"1\"]
[[operation]]
name = \"tas\"
response = [\"0\", \"1\"]
next = [\"one\", \"one\"]
[[operation]]
name = \"read\"
response = [\"0\", \"1\"]
next = [\"zero\", \"one\"]
"
}

/// A queue with room for one of two letters. Its number is 2.
fn queue_of_one() -> &'static str {
    "name = \"queue_1\"
states = [\"q\", \"qa\", \"qb\"]
responses = [\"ok\", \"full\", \"empty\", \"a\", \"b\"]
[[operation]]
name = \"enq_a\"
response = [\"ok\", \"full\", \"full\"]
next = [\"qa\", \"qa\", \"qb\"]
[[operation]]
name = \"enq_b\"
response = [\"ok\", \"full\", \"full\"]
next = [\"qb\", \"qa\", \"qb\"]
[[operation]]
name = \"deq\"
response = [\"empty\", \"a\", \"b\"]
next = [\"q\", \"q\", \"q\"]
"
}

/// The first further operation of signs that are found; none if none are found.
fn found(table: &Table) -> Option<u8> {
    let choice = find_signs(table, 10_000)?;
    if choice.has_signs(table) {
        choice.further.as_slice().first().copied()
    } else {
        None
    }
}

#[test]
fn types_for_every_number_have_signs(rt: HostRuntime) -> Result<(), Fail> {
    let sticky_bit = read_table(rt.alloc(), sticky_bit().as_bytes())?;
    assert!(rt; found(&sticky_bit) == Some(2));
    let compare_and_swap = read_table(rt.alloc(), compare_and_swap().as_bytes())?;
    assert!(rt; found(&compare_and_swap) == Some(0));
    Ok(())
}

#[test]
fn types_with_a_number_have_none(rt: HostRuntime) -> Result<(), Fail> {
    let test_and_set = read_table(rt.alloc(), test_and_set().as_bytes())?;
    assert!(rt; found(&test_and_set).is_none());
    let queue = read_table(rt.alloc(), queue_of_one().as_bytes())?;
    assert!(rt; found(&queue).is_none());
    Ok(())
}

#[test]
fn no_list_is_tried_where_none_may_be(rt: HostRuntime) -> Result<(), Fail> {
    let table = read_table(rt.alloc(), sticky_bit().as_bytes())?;
    assert!(rt; find_signs(&table, 0).is_none());
    Ok(())
}
