//! Laws of tables. A law is a function that does nothing: its contract is the law.
ghost use Rattle.std.specs.Prelude.{◌≡◌, ◌≤◌, ℕ, List, Ok, length};
ghost use Rattle.cn_table.specs.Faults.{reading};
ghost use Rattle.cn_table.specs.TypeTable.{IsClosed, IsTypeTable, TypeTable};
ghost use Rattle.cn_table.specs.declared.limits.TheConstants.{MOST_OPERATIONS, MOST_RESPONSES, MOST_STATES};

use crate::Table;

/// What bytes spell is a type table: names that differ, at least one state, response and operation
/// and no more than their limits, and rows whose entries are in range.
pub fn spelled_tables()
    // promise: closed-types
    ensures { (bytes : List ℕ) (t : TypeTable) → reading bytes ≡ Ok t → IsTypeTable t }
{}

/// Every table is a type table, and its numbers of states, operations and responses are in their
/// ranges.
pub fn tables_are_valid(table: &Table)
    // promise: valid-tables (IsTypeTable)
    ensures table { IsTypeTable table.now }
    // promise: valid-tables
    ensures states { (1 ≤ length table.now.states) × (length table.now.states ≤ MOST_STATES) }
    // promise: valid-tables
    ensures operations { (1 ≤ length table.now.operations)
        × (length table.now.operations ≤ MOST_OPERATIONS) }
    // promise: valid-tables
    ensures responses { (1 ≤ length table.now.responses)
        × (length table.now.responses ≤ MOST_RESPONSES) }
{
    let _ = &table.states;
}

/// Every type table is closed: no operation leads out of its states.
pub fn tables_are_closed()
    // promise: closed-types (IsClosed)
    ensures { (t : TypeTable) → IsTypeTable t → IsClosed t }
{}
