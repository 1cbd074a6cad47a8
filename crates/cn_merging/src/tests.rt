//! A worked table.

use crate::merge;
use cn_choice::Choices;
use cn_table::read_table;
use std::test::Fail;

/// A bit that is written once, and that no operation tells.
fn silent_bit() -> &'static str {
    "name = \"silent_bit\"
states = [\"unset\", \"zero\", \"one\"]
responses = [\"done\"]
[[operation]]
name = \"write_0\"
response = [\"done\", \"done\", \"done\"]
next = [\"zero\", \"zero\", \"one\"]
[[operation]]
name = \"write_1\"
response = [\"done\", \"done\", \"done\"]
next = [\"one\", \"zero\", \"one\"]
"
}

#[test]
fn states_that_nothing_tells_apart_are_one(rt: HostRuntime) -> Result<(), Fail> {
    let table = read_table(rt.alloc(), silent_bit().as_bytes())?;
    let merged = merge(rt.alloc(), &table)?;
    assert!(rt; merged.table.states() == 1);
    assert!(rt; Choices::new(&table, 2).next().is_some());
    assert!(rt; Choices::new(&merged.table, 2).next().is_none());
    Ok(())
}
