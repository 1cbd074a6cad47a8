//! Names of operations and of states, each behind a space.
ghost use Rattle.std.specs.Prelude.{◌≡◌, ◌<◌, ◌++◌, All, OnOk, length, string_bytes};
ghost use Rattle.cn_stock_text.specs.Names.{listed_operation, operations_listed, states_listed};

use cn_table::{Operation, State, Table};
use std::alloc::AllocError;

/// Appends the name of an operation behind a space.
pub(crate) fn push_operation(
    text: &mut String,
    table: &Table,
    operation: Operation,
) -> Result<(), AllocError>
    requires { operation.0 < length table.now.operations }
    ensures { OnOk result (string_bytes text.new
        ≡ string_bytes text.old ++ listed_operation table.now operation.0) }
{
    write!(text, " {}", table.operation_name(operation))
}

/// Appends the names of operations.
pub(crate) fn push_operations(
    text: &mut String,
    table: &Table,
    operations: &[u8],
) -> Result<(), AllocError>
    requires { All (λ o. o < length table.now.operations) operations.now }
    ensures { OnOk result (string_bytes text.new
        ≡ string_bytes text.old ++ operations_listed table.now operations.now) }
{
    for operation in operations {
        push_operation(text, table, Operation(*operation))?;
    }
    Ok(())
}

/// Appends the names of states.
pub(crate) fn push_states(text: &mut String, table: &Table, states: &[u8]) -> Result<(), AllocError>
    requires { All (λ q. q < length table.now.states) states.now }
    ensures { OnOk result (string_bytes text.new
        ≡ string_bytes text.old ++ states_listed table.now states.now) }
{
    for state in states {
        write!(text, " {}", table.state_name(State(*state)))?;
    }
    Ok(())
}
