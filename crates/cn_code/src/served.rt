//! The object that a program serves.
ghost use Rattle.std.specs.Prelude.{◌≡◌, ◌<◌, length};
ghost use Rattle.cn_code.specs.Served.{served_of};

use cn_table::{State, Table};
use std::marker::Model;

/// An object that a program serves, with the state in which it starts.
#[derive(Drop)]
pub struct Served {
    table: Table,
    start: State,
}

impl Model for Served {
    ghost use Rattle.std.specs.Prelude.{◌<◌, length};
    ghost use Rattle.cn_code.specs.Served.{Served, served_of};

    ghost Value = { Served };

    ghost view = { λ s. served_of s.table s.start.0 };

    ghost invariant = { λ s. s.start.0 < length s.table.states };
}

impl Served {
    /// The object of this table, which starts in this state.
    pub fn new(table: Table, start: State) -> Served
        requires { start.0 < length table.states }
        // promise: served-object
        ensures { result ≡ served_of table start.0 }
    {
        Served { table, start }
    }

    /// Its table.
    pub(crate) fn table(&self) -> &Table
        ensures { result.now ≡ self.now.table }
    {
        &self.table
    }

    /// The state in which it starts, one of its states.
    pub(crate) fn start(&self) -> State
        ensures number { result.0 ≡ self.now.start }
        ensures range { result.0 < length self.now.table.states }
    {
        self.start
    }
}
