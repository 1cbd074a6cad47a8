//! The opening of a log.
ghost use Rattle.std.specs.Prelude.{◌≡◌, ◌<◌, ◌≤◌, length};
ghost use Rattle.cn_log.specs.declared.limits.TheConstants.{MOST_SLOTS};
ghost use Rattle.cn_log.specs.Opening.{opening_of};

use cn_proto::Plan;
use cn_table::{State, Table};
use std::marker::Model;

/// The opening of a log: the plan of its rounds, the object that it serves, the start state of the
/// object, and the number of slots. The state is one of the object's, and there are 1 to
/// [`MOST_SLOTS`](crate::MOST_SLOTS) slots.
#[derive(Drop)]
pub struct Opening {
    pub(crate) plan: Plan,
    pub(crate) object: Table,
    pub(crate) start: State,
    pub(crate) capacity: u16,
}

impl Model for Opening {
    ghost use Rattle.std.specs.Prelude.{◌<◌, ◌≤◌, length};
    ghost use Rattle.cn_log.specs.declared.limits.TheConstants.{MOST_SLOTS};
    ghost use Rattle.cn_log.specs.Opening.{Opening, opening_of};

    ghost Value = { Opening };

    ghost view = { λ o. opening_of o.plan o.object o.start.0 o.capacity };

    ghost invariant = { λ o. (o.start.0 < length o.object.states)
        × ((1 ≤ o.capacity) × (o.capacity ≤ MOST_SLOTS)) };
}

impl Opening {
    /// The opening of a log with this number of slots.
    pub fn new(plan: Plan, object: Table, start: State, capacity: u16) -> Opening
        requires start { start.0 < length object.states }
        requires some { 1 ≤ capacity }
        requires few { capacity ≤ MOST_SLOTS }
        // promise: opening
        ensures { result ≡ opening_of plan object start.0 capacity }
    {
        Opening {
            plan,
            object,
            start,
            capacity,
        }
    }

    /// The plan of the rounds.
    pub fn plan(&self) -> &Plan
        // promise: opening
        ensures { result.now ≡ self.now.plan }
    {
        &self.plan
    }

    /// The object that the log serves.
    pub fn object(&self) -> &Table
        // promise: opening
        ensures { result.now ≡ self.now.object }
    {
        &self.object
    }

    /// The start state of the object, one of its states.
    // promise: opening
    pub fn start(&self) -> State
        ensures number { result.0 ≡ self.now.start }
        ensures range { result.0 < length self.now.object.states }
    {
        self.start
    }
}
