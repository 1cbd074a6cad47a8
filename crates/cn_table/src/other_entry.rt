//! Tables in which one entry is another.
ghost use Rattle.std.specs.Prelude.{◌≡◌, ◌≢◌, ◌<◌, ℕ, IfOk, length};
ghost use Rattle.cn_table.specs.OtherEntry.{IsEntry, row_with_entry, with_entry};
ghost use Rattle.cn_table.specs.TableView.{transitions_view};
ghost use Rattle.cn_table.specs.TypeTable.{IsTypeTable, TypeTable, transition};

use crate::elements::{Operation, Response, State};
use crate::table::{Table, Transitions, copy_all_transitions, copy_texts, copy_transitions};
use std::alloc::{AllocError, Global};

/// The row with this entry in the state.
fn row_with_entry(
    alloc: Global,
    row: &Transitions,
    state: State,
    response: Response,
    next: State,
) -> Result<Transitions, AllocError>
    requires response { state.0 < length row.now.response.items }
    requires next { state.0 < length row.now.next.items }
    ensures { IfOk result (λ own. transitions_view own
        ≡ row_with_entry state.0 response.0 next.0 (transitions_view row.now)) }
{
    let mut own = copy_transitions(alloc, row)?;
    own.response[state.0 as usize] = response.0;
    own.next[state.0 as usize] = next.0;
    Ok(own)
}

impl Table {
    /// The table in which the operation gives this response in the state, and leads to this next
    /// state: all else is the same.
    ///
    /// # Errors
    ///
    /// `AllocError` if memory runs out.
    pub fn with_entry(
        &self,
        alloc: Global,
        operation: Operation,
        state: State,
        response: Response,
        next: State,
    ) -> Result<Table, AllocError>
        requires { IsEntry self.now operation.0 state.0 response.0 next.0 }
        // promise: parts-of-a-table (with_entry)
        ensures { IfOk result (λ table. table
            ≡ with_entry self.now operation.0 state.0 response.0 next.0) }
    {
        entry_makes_a_table();
        let row = &self.operations[operation.0 as usize];
        let own = row_with_entry(alloc, row, state, response, next)?;
        let mut operations = copy_all_transitions(alloc, &self.operations)?;
        operations[operation.0 as usize] = own;
        Ok(Table {
            name: String::from_str(alloc, self.name.as_str())?,
            states: copy_texts(alloc, &self.states)?,
            responses: copy_texts(alloc, &self.responses)?,
            operations,
        })
    }
}

/// A type table in which one entry is another is a type table. It does there what the entry says,
/// and what it did in each other place.
pub fn entry_makes_a_table()
    // promise: parts-of-a-table
    ensures table { (t : TypeTable) (operation state response next : ℕ) → IsTypeTable t
        → IsEntry t operation state response next
        → IsTypeTable (with_entry t operation state response next) }
    // promise: parts-of-a-table
    ensures there { (t : TypeTable) (operation state response next : ℕ) → IsTypeTable t
        → IsEntry t operation state response next
        → transition (with_entry t operation state response next) operation state
        ≡ (response, next) }
    // promise: parts-of-a-table
    ensures other_operation { (t : TypeTable) (operation state response next o q : ℕ)
        → o ≢ operation
        → transition (with_entry t operation state response next) o q ≡ transition t o q }
    // promise: parts-of-a-table
    ensures other_state { (t : TypeTable) (operation state response next o q : ℕ) → q ≢ state
        → transition (with_entry t operation state response next) o q ≡ transition t o q }
{}
