//! Look-ups in a table.
use crate::fixtures::table_of;
use crate::types::test_and_set;
use cn_table::{Operation, Response, State, Table};
use std::process::Abort;
use std::test::Fail;

/// Whether the table has the parts of test-and-set.
pub(super) fn has_parts(table: &Table) -> bool {
    if table.states() != 2 || table.operations() != 1 || table.responses() != 2 {
        return false;
    }
    let is_named = table.name() == "test_and_set"
        && table.state_name(State(1)) == "one"
        && table.operation_name(Operation(0)) == "tas"
        && table.response_name(Response(0)) == "zero";
    is_named && table.apply(Operation(0), State(0)) == (Response(0), State(1))
}

#[test]
fn answers_each_look_up(rt: HostRuntime) -> Result<(), Fail> {
    let table = table_of(rt.alloc(), test_and_set())?;
    assert!(rt; has_parts(&table) && table.find_state("one") == Some(State(1)));
    assert!(rt; table.find_operation("tas") == Some(Operation(0)));
    assert!(rt; table.find_response("one") == Some(Response(1)));
    Ok(())
}
