//! The states in which words of the operations of a table end.
ghost use Rattle.std.specs.Prelude.{◌+◌, ◌<◌, ◌↔◌, ℕ, length, IsBitSet};
ghost use Rattle.cn_reasons.specs.Onward.{AreEnds, EndsIn};

use cn_choice::MOST_PROCESSES;
use cn_outcomes::bits::{contains, union, with};
use cn_table::{MOST_STATES, Operation, State, Table};
use std::alloc::{AllocError, Global};

/// For each number of operations and each start state, the states in which words of so many
/// operations of a table end.
#[derive(Drop)]
pub(crate) struct Onward {
    rows: Vec<[u16; MOST_STATES]>,
}

/// The states in which words of one operation more end.
fn ends_by_first(table: &Table, count: u8, row: &[u16; MOST_STATES], start: u8) -> u16
    requires row { AreEnds table.now count row.now }
    requires start { start < length table.now.states }
    ensures { (q : ℕ) → IsBitSet result q ↔ EndsIn table.now start (count + 1) q }
{
    let (_states, _count) = (table.states(), count);
    let mut set = 0;
    for operation in 0..table.operations() {
        let (_, next) = table.apply(Operation(operation), State(start));
        set = union(set, row[next.0 as usize]);
    }
    set
}

/// The same from each start state, for words of one operation more.
fn longer(table: &Table, count: u8, row: &[u16; MOST_STATES]) -> [u16; MOST_STATES]
    requires { AreEnds table.now count row.now }
    ensures { AreEnds table.now (count + 1) result }
{
    let mut more = [0; MOST_STATES];
    for start in 0..table.states() {
        more[start as usize] = ends_by_first(table, count, row, start);
    }
    more
}

/// The start state alone, in which the word of no operation ends.
fn ends_at_once(table: &Table, start: u8) -> u16
    requires { start < length table.now.states }
    ensures { (q : ℕ) → IsBitSet result q ↔ EndsIn table.now start 0 q }
{
    let _states = table.states();
    with(0, start)
}

/// The same from each start state.
fn no_operation(table: &Table) -> [u16; MOST_STATES]
    ensures { AreEnds table.now 0 result }
{
    let mut row = [0; MOST_STATES];
    for start in 0..table.states() {
        row[start as usize] = ends_at_once(table, start);
    }
    row
}

impl Onward {
    ghost use Rattle.std.specs.Prelude.{◌<◌, ◌≤◌, ◌↔◌, length, IfOk, IsTrue};
    ghost use Rattle.cn_choice.specs.declared.limits.TheConstants.{MOST_PROCESSES};
    ghost use Rattle.cn_reasons.specs.Onward.{AreOnward, EndsIn};

    /// The states for words of up to [`MOST_PROCESSES`](cn_choice::MOST_PROCESSES) operations of the
    /// table.
    ///
    /// # Errors
    ///
    /// `AllocError` if memory runs out.
    pub(crate) fn new(alloc: Global, table: &Table) -> Result<Onward, AllocError>
        ensures { IfOk result (AreOnward table.now) }
    {
        let mut rows = Vec::with_capacity(alloc, MOST_PROCESSES + 1)?;
        let mut row = no_operation(table);
        for count in 0..MOST_PROCESSES as u8 + 1 {
            rows.push(row)?;
            row = longer(table, count, &row);
        }
        Ok(Onward { rows })
    }

    /// Whether some word of so many operations of the table leads from the one state to the other.
    pub(crate) fn leads(&self, table: &Table, count: u8, from: State, to: State) -> bool
        requires onward { AreOnward table.now self.now }
        requires count { count ≤ MOST_PROCESSES }
        requires from { from.0 < length table.now.states }
        requires to { to.0 < length table.now.states }
        ensures { IsTrue result ↔ EndsIn table.now from.0 count to.0 }
    {
        let _states = table.states();
        let row = &self.rows[count as usize];
        contains(row[from.0 as usize], to.0)
    }
}
